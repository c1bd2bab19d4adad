//! Which forms are patterns, in the words of the report (R6RS libraries 12.4).
//!
//! The patterns of a `syntax-case` are compiled before they are tried. Here each form of the grammar is said by a case of its own,
//! with the pattern that it is, so that a definition that is wrong, with code to match, proves none of these laws.
//!
//! ```text
//! (a b ... c)    a list of patterns, of which one may be followed by an ellipsis; no variable comes twice
//! (a b ... a)    BadPattern, at the second a
//! ```
//!
//! `specs/Patterns` says which forms are patterns. What a pattern matches is said by law_report. Nothing runs here, and no
//! program stands on this crate.
#![tactic(auto)]

pub mod laws;
