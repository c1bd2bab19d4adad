//! That the shapes of the core forms are those of the report's grammar, no fewer and no more.
//!
//! `shape` of core_shapes takes a form of a keyword apart, or is `BadForm`. Its own law says that the parts
//! are the form. This crate says which forms have parts: `specs/Grammar` writes down how R6RS 11 writes the
//! form of each keyword, by cases, without any call that takes a form apart.
//!
//! ```text
//! (lambda (x . r) a b)    an identifier or a list of identifiers, in the end one more or none; then forms
//! (lambda (x 1) a)        is written by no case, so it is BadForm
//! ```
//!
//! The laws: what is written by a case has that shape, and what has a shape is written by its case; so a
//! form has one shape at most, and `BadForm` comes just where no case writes the form.
//!
//! `specs/Records` writes down how the forms of records are written (libraries report 6.2); what they stand for is said by
//! law_records.
//!
//! `specs/Places` says where the fault of a form stands.
#![tactic(auto)]

pub mod laws;
