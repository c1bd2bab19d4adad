//! What matching means in the words of the report (R6RS libraries 12.4).
//!
//! `eval_pattern` says how a match is found, by one walk. Here stands what a match *is*: a relation between
//! a pattern, a value, the binds of the pattern's variables and the number of elements that ellipses take,
//! by the report's cases. So `(a b ... c)` has at the value `(1 2 3 4)` the binds 1 of `a`, 2 and 3 of `b`
//! and 4 of `c`, since the value is a list of elements of which the first fills `a`, the last fills `c`,
//! and the others fill `b`, one after another. Nothing is said of an order in which this is found, nor of
//! how far a list is looked at: with an ellipsis all elements are filled, up to the final cdr.
//!
//! The promise: over whole cells a match is found exactly where the relation has one, with the binds of the
//! relation; and the relation never has two.
//!
//! `specs/Matches` has the relation. Nothing runs here, and no program stands on this crate.
#![tactic(auto)]

pub mod laws;
