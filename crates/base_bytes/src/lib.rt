//! How values are spelled as bytes, and read back from them.
//!
//! A value is spelled by its parts, one after another. A number is so many bytes, the highest first; a text
//! is its length and its bytes in UTF-8; a list is its count and its elements; a choice is a tag, numbered
//! from 0, and what was chosen. So the name `(a b)` of a library, with the number 7, is
//!
//! ```text
//! 04                            the tag of a name that a user wrote
//! 00 00 00 00 00 00 00 02       two parts
//! 00 00 00 00 00 00 00 01 61    `a`
//! 00 00 00 00 00 00 00 01 62    `b`
//! 00 00 00 00 00 00 00 07       the number
//! ```
//!
//! A *codec* is a spelling of all values of a type: what it puts for a value, what it gets from the front of
//! some bytes, and which values fit it. `specs/Codec` makes codecs of codecs, by a dozen combinators;
//! `specs/Laws` has the two laws of each: what is got was put so, and what fits and was put is got again.
//! `specs/Names` spells what this crate's neighbours below are made of: names, labels, marks, spans, atoms.
//!
//! The promise: each call puts exactly the spelling of its value, and gets exactly the value that the bytes
//! begin with, or nothing where they begin with no spelling. Only want of memory is free.
#![tactic(auto)]

pub mod libraries;
pub mod names;
pub mod numbers;
pub mod room;
pub mod spelled;
pub mod texts;
