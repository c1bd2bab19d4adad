//! The derived library: the forms that are defined in terms of core forms.
//!
//! R6RS defines `let`, `cond`, `case` and their like in terms of core forms (R6RS 11; libraries report 5 and 12). Here
//! they are a text in Scheme, with `syntax-rules` and `identifier-syntax` among them, which is expanded first in
//! each run, by the same steps as any library:
//!
//! ```text
//! (define-syntax or (syntax-rules ()
//!   ((_) #f) ((_ e) e) ((_ e1 e2 ...) (let ((t e1)) (if t t (or e2 ...))))))
//! ```
//!
//! It imports all that the implementation gives and it doesn't define itself. A program's `or` stands for the label
//! under which its record exports it.
//!
//! The promise: `derived_record` gives exactly the record of its definition, for which exactly its fuel is spent; only
//! want of memory is free.
#![tactic(auto)]

pub mod derived;
pub mod implementation;
pub mod names;
