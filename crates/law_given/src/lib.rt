//! The procedures that are given in Scheme, in the words of R6RS.
//!
//! A transformer may call `map`, `filter` and their like. What they mean during expansion is a text in Scheme each, which
//! the evaluator runs. Here stands what a reader of the report expects of it, where there is one list:
//!
//! ```text
//! (map f l)             calls f on each element, from the first to the last, and gives the list of the answers
//! (filter f l)          gives the list of the elements whose answer is not `#f`
//! (find f l)            calls f until an answer is not `#f`, and gives that element, or `#f`
//! ```
//!
//! What is asked: the list is a list in the cells, and each call that is made gives a value, whatever cells were added before
//! it. Then the whole gives a value, with some fuel and with all that is more.
//!
//! The codes of the texts are written out in `specs/Codes`; that the texts expand to these is a law of a crate above, once texts are
//! expanded. Nothing runs here, and no program stands on this crate.
#![tactic(auto)]

pub mod laws;
