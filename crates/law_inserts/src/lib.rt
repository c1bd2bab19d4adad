//! What `quasisyntax` inserts, in the words of the report (R6RS libraries 12.8).
//!
//! A `quasisyntax` form comes to a template of `syntax`, with a leaf of its own in the place of each expression, and an ellipsis
//! behind the leaf where the expression is spliced.
//!
//! ```text
//! #`(a #,x #,@ys)     the template (a v0 v1 ...), with x for v0, and ys under one ellipsis for v1
//! ```
//!
//! `specs/Inserted` says so by cases, walking along the form itself. Nothing runs here, and no program stands on this crate.
#![tactic(auto)]

pub mod laws;
