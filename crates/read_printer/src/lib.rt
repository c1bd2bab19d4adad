//! The text of data.
//!
//! A datum is printed as R6RS 4.3 spells it, on one line, without abbreviations or comments:
//!
//! ```text
//! (quote a)                       the list of `quote` and `a`, however it was read
//! (1/2 #\newline "a\"\x3BB;" . x) a list of a ratio, a character and a string, with the tail `x`
//! #(#t () #vu8(1 255) \x31;+)     a vector, whose last element is the symbol `1+`
//! ```
//!
//! All that is printed is ASCII: characters, strings and symbols spell what is not by its number.
//!
//! The promise: each call adds exactly the text that `specs/` defines for its datum; only want of
//! memory is free. `law_round` proves that this text is read back as the datum.
//!
//! This crate stands on `base_data`. Core text quotes data, and writes them by these calls.
#![tactic(auto)]

pub mod characters;
pub mod datum_text;
pub mod escapes;
pub mod strings;
pub mod symbols;
