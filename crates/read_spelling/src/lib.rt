//! How texts spell characters, numbers and identifiers (R6RS 4.2).
//!
//! A text is bytes, read as UTF-8. This crate tells what a text stands for where it is known where
//! the text begins and ends:
//!
//! ```text
//! -12         the integer -12
//! 1.50        a decimal, which is kept as it is spelt
//! a\x3BB;     the identifier of the two characters U+0061 and U+03BB
//! 1+          neither
//! ```
//!
//! The promise: each answer is exactly the one that `specs/` defines, in the words of R6RS: digits,
//! whitespace, delimiters, initials and subsequents, with the general categories of Unicode.
//!
//! This crate stands on `base_data`. The lexer finds the texts in a source, and asks here.
#![tactic(auto)]

pub mod escapes;
pub mod identifiers;
pub mod numbers;
pub mod source;
pub mod whitespace;
