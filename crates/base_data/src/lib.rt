//! The data that every crate shares: symbols, spans, data, names, faults and places in a source.
//!
//! A program is bytes first. A reader makes *data* of them, each with its *span*, the bytes that
//! spell it. `(define x 'a)` in the file `p.sps` is the list of three data whose span is 0 to 13:
//! the symbols `define` and `x`, and the list of the symbols `quote` and `a`, whose span is 10 to 12.
//! What is made later is known by *names*, each a library and a number of its own: marks, labels,
//! frames and codes. What is wrong is a *fault*: its kind, the span of the form at fault, and words.
//! A fault at offset 8 of `p.sps` is told by the line `p.sps:1:9: 21 Unbound: x`.
//!
//! The promise: contracts see all these as plain values, texts, lists and numbers, and each call
//! gives exactly what its definition says; only want of memory is free.
//!
//! This crate stands lowest. `specs/Gives` and `specs/Act` have the words in which the crates above
//! state that a call gives what its definition gives, and `proofs/Loops` carries these over a loop.
#![tactic(auto)]

pub mod atom;
pub mod bytes;
pub mod datum;
pub mod fault;
pub mod fault_line;
pub mod head;
pub mod hex;
pub mod imported_name;
pub mod items;
pub mod library;
pub mod map;
pub mod memory;
pub mod name;
pub mod op;
pub mod place;
pub mod span;
pub mod steps;
pub mod symbol;
