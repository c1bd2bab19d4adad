//! Core code as bytes.
//!
//! A core expression is a tag and its parts: `(if x 1 y)` is the tag 3, the spellings of `x` and of `1`, and then
//! the byte 1 and the spelling of `y`; without `y` it ends with the byte 0. Core code has at most 8,192 core
//! expressions round one; a `begin` has two parts or more, and a `lambda` one case.
//!
//! The promise: what is put is the spelling that `core_codec` defines, and the answer is false exactly where the code
//! has none; what is read is the code that the bytes begin with, or nothing where they begin with no spelling.
#![tactic(auto)]

pub mod at;
pub mod formals;
mod leaves;
mod lists;
mod nodes;
pub mod put;
