//! Core text: how core code is written.
//!
//! The text begins with the line `(import (rnrs))`, and then each run line of the planned libraries and
//! of the program stands on a line of its own. A variable is written by its generated name, and a
//! primitive by its report name. The line that defines the label of `x`, the first variable of a
//! program, as the quoted list of 1 is
//!
//!     (define %/x/0 (quote (1)))
//!
//! Forms of `syntax` and `syntax-case` have no text: they are for transformers alone.
//!
//! The promise: `core_text` is exactly the definition's text, or the fault of the first form of `syntax`
//! or `syntax-case` in the order of the text, with its span.
#![tactic(auto)]

pub mod check;
pub mod names;
pub mod text;
pub mod whole;
