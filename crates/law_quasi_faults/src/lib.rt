//! Which templates of `quasiquote` and `quasisyntax` are refused (R6RS 11.17; libraries 12.8).
//!
//! At its own level `unquote` has one operand, or stands as an element of a list or vector with any number of them;
//! `unquote-splicing` stands as such an element alone. What the report has no meaning for is a `BadForm`:
//!
//! ```text
//! `(1 (unquote 2 3))     the list (1 2 3)
//! `(unquote 2 3)         BadForm
//! `(1 . ,@x)             BadForm: it is read as (1 unquote-splicing x), whose tail is no element
//! ```
//!
//! `specs/Formed` says which templates are well formed. What a well formed one comes to is said by law_quasi and law_inserts.
//! Nothing runs here, and no program stands on this crate.
#![tactic(auto)]

pub mod laws;
