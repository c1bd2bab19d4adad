//! Uses of keywords are counted.
//!
//! A transformer may give a use again, without end, so an expansion makes at most 1,000,000 uses of keywords. The next one is a fault:
//!
//! ```text
//! (define-syntax again (syntax-rules () ((_ x) (again x))))
//! (again 1)                                 refused at the 1,000,001st use of `again`
//! ```
//!
//! Here it is told which use that is, form by form (`specs/Counted`): each use takes one of those that are left, one behind another; a form that
//! is no use any more is planned, even if it took the last; and where none is left, it is the next use that is refused, at its own place.
#![tactic(auto)]

pub mod laws;
