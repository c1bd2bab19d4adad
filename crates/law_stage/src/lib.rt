//! Laws of the stage.
//!
//! What each call of the stage does is defined in eval_stage. This crate says what a reader expects of it and
//! doesn't see in the definition. Nothing runs here.
//!
//! ```text
//! (twice x)     a second use of a kept transformer: only names are taken and fuel is spent
//! (m)           `m` mentions a variable of (b), and (b) refers to (a): (a) and then (b) are evaluated
//! ```
//!
//! - The cells after a use are those with which its transformer was called; where that was kept, nothing else
//!   has changed either.
//! - No call forgets a cell that it found, a library that was evaluated or a transformer that was kept.
//! - Before an expression exactly those libraries are evaluated to which a chain of references leads from the
//!   libraries of its variables, each once and in the order of loading.
#![tactic(auto)]

pub mod laws;
