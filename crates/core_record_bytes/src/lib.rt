//! Compiled libraries as bytes: what a cache keeps of a library that was expanded.
//!
//! A compiled library, or record, is its fields in their order: the path of its file, its name, its version, its exports, its bindings,
//! the rows of its frames, its run lines and the libraries that these refer to. Bindings rise by their labels, and
//! rows of frames by their frames, so that no record has two spellings.
//!
//! The promise: `encode` gives exactly the spelling of a record, or the answer that it has none; `decode` gives
//! exactly the record that all of the bytes spell, or nothing where they spell none. What is encoded of a record
//! with a spelling is decoded to that record (`core_codec`). Only want of memory is free.
#![tactic(auto)]

pub mod bindings;
pub mod lines;
pub mod record;
pub mod rows;
