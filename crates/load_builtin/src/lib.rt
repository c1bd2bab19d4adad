//! The libraries that this implementation gives: what they export, and the texts of what is derived.
//!
//! Each of them is a list of names, and each name stands for a *label*. `(rnrs lists)` has twenty names
//! from `find` to `cons*`; `(rnrs)` has them too, under the same labels, so a program may import both.
//!
//! ```text
//! (rnrs control)    when         label 8 of the derived library
//!                   unless       label 9 of the derived library
//!                   do           label 11 of the derived library
//!                   case-lambda  label 214 of the core
//! ```
//!
//! A name that the derived library defines has the label of its definition there, counted from 0; any
//! other has the number of its name (`OP_NAMES` of base_data) as its label.
//!
//! The promise: `exports` gives exactly the names of the library, each once and in order, each with its
//! label, and nothing for every other name.
#![tactic(auto)]

pub mod derived;
pub mod exports;
pub mod laws;
pub mod library;
pub mod prelude;
