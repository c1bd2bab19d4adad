//! Which forms are templates, in the words of the report (R6RS libraries 12.4).
//!
//! The template of a `syntax` form is compiled before instances are made of it. Here each form of the grammar is said by a case of
//! its own, with the template that it is, so that a definition that is wrong, with code to match, proves none of these laws.
//!
//! ```text
//! (b ... (... ...))   the elements of b, and a plain ellipsis behind them
//! (a ...)             BadTemplate at the ellipsis, where a has no ellipsis in its pattern
//! ```
//!
//! `specs/Templates` says which forms are templates. What a template gives is said by law_report. Nothing runs here, and no
//! program stands on this crate.
#![tactic(auto)]

pub mod laws;
