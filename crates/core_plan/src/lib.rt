//! The plan: which libraries a program needs when it runs (R6RS 7.2).
//!
//! A record names the other libraries whose variables its lines mention. Where the program mentions `(a)`,
//! `(a)` mentions `(b)`, and `(c)` is imported for its keywords alone, the plan has `(a)` and `(b)`: a library is
//! in it where a chain of references leads to it from the program.
//!
//! The promise: `run_plan` answers exactly the places of the records that such chains reach, in order;
//! `planned` says the same as a function, since there is but one such list; only want of memory is free.
#![tactic(auto)]

pub mod plan;
pub mod planned;
