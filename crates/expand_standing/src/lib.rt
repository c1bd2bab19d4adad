//! What identifiers stand for while a library is expanded.
//!
//! The *state* of an expansion says what symbols stand for in each *frame*, and what each *label* is bound to. In
//! `(lambda (x) (define y x) y)` the formal `x` has a frame, in which it stands for a label of its own; the body
//! has another frame, in which `y` stands for another label. An identifier stands for
//!
//! ```text
//! nothing                        no frame on it has its symbol
//! a variable                     a formal, or what a definition binds
//! a primitive, a keyword         what a library of this implementation gives
//! ```
//!
//! All names of the library come from one counter, each once. The state begins with what earlier libraries bind
//! and with the imported names. What a library binds is put once into tables of the run (`ready`), in which the next
//! one marks what it needs, so to begin costs what the imported names cost, however much those libraries bind.
//!
//! The promise: each call gives exactly what its definition gives, or its fault at its place, and leaves exactly
//! the state that the definition leaves; only want of memory is free.
#![tactic(auto)]

pub mod binders;
pub mod expansion;
pub mod in_scope;
pub mod links;
pub mod means;
pub mod own;
pub mod patterns;
pub mod ready;
pub mod record_uses;
pub mod standing;
pub mod start;
pub mod uses;
