//! Libraries and programs: from their forms to compiled libraries, or records, and the core text of a program.
//!
//! A library or a program imports names (R6RS 7.1), and its body is expanded where these names stand for
//! what they stand for in the libraries that export them:
//!
//! ```text
//! (import (only (rnrs base) define +) (m))    define and + are imported, and all names of (m)
//! (define x 1)                                the body defines a variable x
//! (+ x 2)                                     and calls +
//! ```
//!
//! The libraries of files are expanded in the order of loading, each behind the records of those that it imports,
//! directly or not; then the program, and what it needs when it runs is written before it. A table of names gives the
//! record of a library, so that many libraries make no import slower.
//!
//! The promise: each call gives exactly what its definition gives and spends exactly its fuel, or gives its first
//! fault with its place; only want of memory is free. First each library that a form imports must be there in a
//! version that fits, then each name, and then the body is expanded.
#![tactic(auto)]

pub mod given;
pub mod imports;
pub mod library;
pub mod loaded;
pub mod records;
