//! Data and syntax trees as bytes.
//!
//! A datum is its span, where it has one, then a tag, and then its parts: those of `(a . 1)`, read at bytes 4 to 11
//! of the file `f`, are
//!
//! ```text
//! 01  00 00 00 00 00 00 00 01 66  00 00 00 04  00 00 00 0b    a span
//! 02  00 00 00 00 00 00 00 01                                 a list of one element,
//!       00  01  00 00 00 00 00 00 00 01 61                    `a`, here without a span,
//!       00  00  02  00 .. 00 01                               and the tail, an atom: 1 in 16 bytes
//! ```
//!
//! A syntax tree is spelled likewise; behind the text of a leaf stand its marks and its stamps.
//!
//! A list has one element or more and a tail that is no list, so that no datum has two spellings. Data and trees are
//! at most 1,000 high, and a tree has at most 16,777,216 parts.
//!
//! The promise: what is put is the spelling that `core_codec` defines, and the answer is false exactly where the value
//! has none; what is read is the value that the bytes begin with, or nothing where they begin with no spelling.
#![tactic(auto)]

pub mod contexts;
pub mod data;
pub mod parts;
pub mod trees;
