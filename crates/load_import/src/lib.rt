//! Import sets: which names they give, and what these stand for (R6RS 7.1).
//!
//! A library exports names, each for a label. An import set takes some of them, under other names:
//!
//! ```text
//! (m)                                     a and b, for the labels 1 and 2
//! (rename (m) (a b) (b a))                b for 1 and a for 2: all pairs act at once
//! (only (prefix (m) m:) m:a)              m:a for 1
//! (except (m) c)                          refused: c isn't there
//! (rename (m) (a b))                      refused: b would stand for 1 and for 2
//! ```
//!
//! Such a set is a library and a list of steps, the innermost word first. The names of several sets
//! are joined in a table, in which the same name for the same label may come twice.
//!
//! The promise: `import_names` and `join_names` give exactly the names of their definition in
//! `specs/Names`, in its order, or its first fault; only want of memory is free.
#![tactic(auto)]

mod found;
pub mod imported;
pub mod names;
pub mod set;
pub mod shared;
pub mod sources;
pub mod table;
