//! Laws of the code of `quasiquote` forms (R6RS 11.17).
//!
//! A form becomes a plan, and the plan becomes code, in which the codes of the expressions stand. What the evaluator makes of
//! that code is the template with the values of its expressions in their places:
//!
//! ```text
//! `(1 ,x ,@y)           with 5 for x and the list (2 3) for y      shows (1 5 2 3)
//! ```
//!
//! Here `list`, `cons*`, `append` and `list->vector` are the primitives of the evaluator, by their numbers in the table of
//! names, and lists are pairs in the store. Asked is that each expression gives a value, whatever cells were added before it,
//! and that those behind `unquote-splicing` give lists.
//!
//! What is a `quasiquote` or an `unquote` is told by what the identifier is bound to.
//!
//! Nothing runs here, and no program stands on this crate.
#![tactic(auto)]

pub mod laws;
