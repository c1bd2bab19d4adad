//! Why an evaluation during expansion is at fault.
//!
//! Each kind of fault is stated once more by its cause, apart from the definitions: a call of what is no procedure, a wrong number of arguments, a
//! variable that has no value yet, an assignment, a `syntax-case` of which no clause matches, arguments that a primitive refuses, lengths that differ
//! under an ellipsis, fuel that doesn't last (`specs/Causes`, `specs/Refusals`); and an output that holds what is no syntax (`specs/Outputs`):
//!
//! ```text
//! (define-syntax m (lambda (x) (syntax-case x () ((_ a) 'a))))
//! (m)                                        NoClause
//! (m 1)                                      RawSymbol a: 'a is no syntax object
//! ```
#![tactic(auto)]

pub mod laws;
