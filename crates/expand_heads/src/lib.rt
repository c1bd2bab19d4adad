//! What is to be done with a form, by its head.
//!
//! What the head of a form stands for decides what is to be done with it, its *plan* (R6RS 10 and 11):
//!
//! ```text
//! (if a b)        a conditional of the forms a and b
//! (f a b)         a call
//! (define y 1)    at fault as an expression; as a form of a body, it binds y
//! (else a)        at fault: a keyword that only stands in other forms
//! ```
//!
//! A form of a *body* is looked at twice. The first time a definition is bound, and what is to be expanded
//! waits, so that each form of the body sees every definition. A definition must not change what the head of a
//! form before it stood for, if that was a keyword. So heads are *kept*, each with its label.
//!
//! The promise: each call gives exactly what its definition gives, or its fault at its place, and leaves exactly
//! the state that the definition leaves; only want of memory is free. The law above: heads are kept by symbol,
//! and none that a definition can have changed is missed.
//!
//! Nothing in a form is expanded here. That is what the crate above does, by these plans.
#![tactic(auto)]

pub mod context;
pub mod depth;
pub mod item;
pub mod items;
pub mod kept;
pub mod laws;
pub mod plan;
pub mod taken;
