//! The values with which transformers compute, and the cells in which these lie.
//!
//! A transformer is called on a syntax object and gives one back. Between, it computes with *values*:
//! numbers and other atoms, symbols, syntax objects, procedures, and what lies in the store, a region
//! of *cells*: pairs, vectors and strings, the variables of a call, what a pattern was matched with,
//! and variable transformers. A value that lies in a cell is known by its kind and its *place*.
//!
//! ```text
//! (1 "a")                as a datum
//! place 0                a string, "a"
//! place 1                a pair, of the string at 0 and the empty list
//! place 2                a pair, of 1 and the pair at 1
//! the pair at place 2    the value of the datum
//! ```
//!
//! A pair holds only values that lie below it, so no value goes round in a circle, and whoever follows
//! places comes to an end. Cells for which this and the like hold are *whole*.
//!
//! The promise: to make the value of a datum adds exactly the cells that its definition says; to read a
//! value as a syntax tree gives exactly the tree, the fuel that is left and the first fault that its
//! definition gives; and whole cells stay whole. Only want of memory is free.
//!
//! The store is that of base_region. The primitives and the evaluator stand on this crate, and so do
//! patterns and templates, which take and make values.
#![tactic(auto)]

pub mod bind;
pub mod cell;
pub mod from_datum;
pub mod laws;
pub mod to_syntax;
pub mod value;
