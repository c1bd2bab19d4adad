//! Laws of `quasiquote` and `quasisyntax` templates (R6RS 11.17; libraries 12.8).
//!
//! A plan calls `list`, `cons*`, `append` and `list->vector`, and keeps whole what holds no expression. Here it is
//! shown that, whatever the values of its expressions are, it makes just the template with these values in their
//! places: that of `(unquote e ...)` for each e, and the elements of the values of `(unquote-splicing e ...)`.
//! `specs/Filled` says what that is, walking along the template itself; `specs/Makes` says what plans make. A value
//! that is spliced counts by its elements; the report wants a list there.
//!
//! Levels go up behind `quasiquote` and down behind `unquote`. A template in which nothing is unquoted is a constant:
//! of `quasiquote` its datum, of `quasisyntax` the form itself without inserts. Each insert has a leaf of its own.
//!
//! Nothing runs here, and no program stands on this crate.
#![tactic(auto)]

pub mod laws;
