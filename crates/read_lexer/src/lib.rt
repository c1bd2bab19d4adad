//! The tokens of a source (R6RS 4.2).
//!
//! A source is bytes. Its *characters* are decoded from UTF-8, and between *tokens* stand *gaps* of
//! whitespace and comments. A token with the bytes that spell it is a *lexeme*. In
//!
//! ```text
//! (define x -12)
//! ```
//!
//! the lexemes are `(` at 0 to 1, the symbol `define` at 1 to 7, the symbol `x` at 8 to 9, the
//! integer -12 at 10 to 13, and `)` at 13 to 14. Bytes that spell no token are a fault there.
//!
//! The promise: the lexeme behind an offset, or the fault there, is exactly the one that
//! `specs/Tokens` defines, and it ends behind that offset. `laws` proves what that definition
//! means: behind a row of whitespace and comments (`specs/Between`) stands exactly the one token
//! that the bytes there spell (`specs/Grammar`).
//!
//! This crate stands on `base_data`, and on `read_spelling`, which tells what a text spells once its end
//! is known. A reader makes data of the lexemes.
#![tactic(auto)]

mod characters;
mod faults;
mod gap;
pub mod laws;
pub mod names;
pub mod start;
mod strings;
mod text;
pub mod token;
pub mod tokens;
