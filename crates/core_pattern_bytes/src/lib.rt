//! Patterns and templates as bytes.
//!
//! A pattern of `syntax-case` is a tag and its parts. The elements of a list or a vector are the patterns before the
//! ellipsis, the repeated pattern where there is an ellipsis, and those after it: `(a b ... c)` is spelled as the
//! elements `(a) b (c)` and the tail `()`. A template is likewise a tag and its parts, each item with the number of
//! its ellipses.
//!
//! Patterns and templates are at most 2,000 high; a literal is a leaf, and no patterns stand after an ellipsis that
//! isn't there.
//!
//! The promise: what is put is the spelling that `core_codec` defines, and the answer is false exactly where the value
//! has none; what is read is the value that the bytes begin with, or nothing where they begin with no spelling.
#![tactic(auto)]

pub mod held;
pub mod patterns;
pub mod templates;
