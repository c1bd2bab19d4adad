//! The report: what was done with each library of a file.
//!
//! For a program that needs `(util stack)`, whose record was stored, and `(util loop)`, which was expanded
//! from its file, the report is
//!
//! ```text
//! reused (util stack)
//! expanded (util loop)
//! ```
//!
//! with one line for each library, in the order of loading. Names stand there without their versions, and
//! their symbols as they are, without escapes.
//!
//! The promise: the report is exactly that text; only want of memory is free.
//!
//! This crate stands on `base_data`. The program writes the report behind the core text, where it is asked
//! for, and faults that speak of a library write its name in the same way.
#![tactic(auto)]

pub mod name;
pub mod report;
