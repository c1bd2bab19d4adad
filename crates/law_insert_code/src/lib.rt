//! Laws of the code of `quasisyntax` forms (R6RS libraries 12.8).
//!
//! A form whose template has expressions becomes the match of a list of their values, in which each has a pattern variable, and
//! the template stands behind the one clause of that match:
//!
//! ```text
//! #`(1 #,x #,@y)        with 5 for x and the list (2 3) for y      gives what #'(1 u v ...) gives, with 5 for u and 2, 3 for v
//! ```
//!
//! Asked is that the codes of the expressions give values one after another, and that those behind `unsyntax-splicing` give
//! lists, in the store or of syntax.
//!
//! Nothing runs here, and no program stands on this crate.
#![tactic(auto)]

pub mod laws;
