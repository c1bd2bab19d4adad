//! How deep forms nest in core text.
//!
//! At most 600 forms stand round one, so what a program says in at most 601 nested forms is core code of bounded depth.
//! `law_expand` counts expressions of core code. A reader of core text counts lists, and some forms write more lists
//! than one between themselves and their parts:
//!
//! ```text
//! (letrec* ((f (lambda (x) e))) ..)      e stands in the lambda, the pair of f, the list of pairs and the letrec*
//! (case-lambda ((x) e) ..)               e stands in a case and in the case-lambda
//! ```
//!
//! So height is defined here with a parameter, how much stands between (`specs/Heights`): nothing gives the levels of core
//! code, and two lists and one give those of text. One induction over expansion tells for all such heights that each line has
//! at most 4 x 601 levels (`specs/Nesting`).
#![tactic(auto)]

pub mod laws;
