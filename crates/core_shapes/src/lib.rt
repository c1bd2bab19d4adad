//! The shapes of the core forms: what a form must look like, and its parts.
//!
//! The head of a form may stand for a keyword of R6RS chapter 11, or of chapter 12 of the libraries
//! report: `(lambda (x . r) a b)`. The keyword then knows its *shapes*, and the form has one of them
//! or is `BadForm`. This one has the shape of `lambda`: *formals* with the identifier `x` and the rest
//! `r`, and a body of the forms `a` and `b`. `(lambda (x 1) a)` has none, since 1 is no identifier.
//! `(lambda x)` has one: that a body wants an expression is no matter of shapes.
//!
//! The promise: `shape` gives exactly the parts that the definition gives, and `BadForm` at the form
//! exactly where the keyword has no shape for it.
//!
//! The law above: the parts, written as R6RS's grammar writes them behind the keyword, are the form
//! itself, spans apart.
//!
//! A form is opened one level at a time, each part once, in a loop along each list.
#![tactic(auto)]

pub mod at;
pub mod forms;
pub mod laws;
pub mod lists;
pub mod shape;
