//! Library forms: what a library or a program says before its body (R6RS 7.1).
//!
//! ```text
//! (library (stack (1 2))
//!   (export push (rename (take pop)))
//!   (import (rnrs) (for (only (rename (lists) (last final)) final) expand))
//!   FORM ...)
//! ```
//!
//! has the name `(stack)` and the version (1 2), exports `push` as itself and `take` as `pop`, and imports all
//! names of `(rnrs)`, and of `(lists)` what it calls `last`, as `final`. A program begins with its import form.
//!
//! The promise: `read_library` and `read_program` answer exactly the parts that the form has. What is
//! no such form is `NotLibrary`, then the first spec that is none is `BadForm` at that spec, and then
//! the first external name with two internal names is `ExportTwice`; only want of memory is free.
#![tactic(auto)]

pub mod copied;
pub mod export;
pub mod form;
pub mod name;
pub mod set;
pub mod version;
pub mod words;
