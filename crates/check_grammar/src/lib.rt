//! The grammar of core text, for who checks it.
//!
//! A core text is the line `(import (rnrs))` and then lines of one form each, written in one way byte for byte:
//!
//! ```text
//! (import (rnrs))
//! (define %/id/0 (lambda (%/x/1) %/x/1))
//! (%/id/0 (quote (a . "b\n")))
//! ```
//!
//! `specs/` says which these texts are, by cases: what a name is (`Names`), what a primitive is (`Primitives`), which datum is an
//! expression that binds these names and leaves those free (`Forms`), how a datum is written (`Text`), and which bytes
//! are a line and a text (`Lines`). Here are the parts of it that know no form: whether a text is a name or a primitive,
//! and the text of a datum.
//!
//! The promise: a text is said to be a name exactly where the grammar of names has it, a primitive exactly where it is
//! the name of a procedure or another value that R6RS gives, and a datum's text is exactly that of the grammar.
//!
//! This crate stands on the reader alone, and on nothing that expands or prints. `check_verdict` reads lines by it.
#![tactic(auto)]

pub mod characters;
pub mod names;
pub mod primitives;
pub mod strings;
pub mod symbols;
pub mod text;
