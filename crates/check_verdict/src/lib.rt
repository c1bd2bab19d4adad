//! An independent checker of core text.
//!
//! A core text is what `scheme-expand` writes: the line `(import (rnrs))` and then a form a line. Who gets one needn't trust
//! what made it:
//!
//! ```text
//! (import (rnrs))
//! (define %/x/0 1)
//! (+ %/x/0 2)             yes
//!
//! (import (rnrs))
//! (+  1 2)                no: line 2, since two spaces stand where one does
//! ```
//!
//! The promise: the answer is yes exactly where each line is one of core text byte for byte, each name has one binder, and
//! each other mention of a name lies in the scope of its binder; else the answer is the first line that isn't one, the
//! first name that is bound a second time, or the first that is free. `specs/Judged` says so by cases over the grammar
//! of `check_grammar`; only want of memory is free.
//!
//! `names` are sets of names, `primitives` a table of those of R6RS, `survey` is what is known of the lines so far, `form`
//! and `walk` go over a form, `lines` over a text, and `run` is all that the program `core_check` does. `check_line_reader`
//! reads a line. This crate shares nothing with what expands and prints.
#![tactic(auto)]

pub mod form;
pub mod lines;
pub mod names;
pub mod primitives;
pub mod run;
pub mod status;
pub mod survey;
pub mod verdict;
pub mod walk;
