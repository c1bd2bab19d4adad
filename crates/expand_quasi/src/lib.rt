//! The core code of `quasiquote` and `quasisyntax` forms.
//!
//! R6RS says what these forms mean by other forms (R6RS 11.17; libraries report 12.8):
//!
//! ```text
//! `(1 ,x ,@y)      is   (append (list '1 x) y '())
//! #`(a #,x)        is   (syntax-case (list x) () ((v) (syntax (a v))))
//! ```
//!
//! No such form is written and expanded again: the names in it may stand for something else where the quasi form
//! stands. What is to be expanded are the expressions, the form's *parts*, each with its depth, in which the
//! forms count that are made round it; the code of the form is put together from theirs. The pattern variables of
//! a `quasisyntax` form have a frame of their own, in which its template is compiled, and in which `...` stands for
//! the ellipsis behind a splice, whatever is imported.
//!
//! The promise: each call gives exactly what its definition gives, or its fault at its place, and leaves exactly
//! the state that the definition leaves; only want of memory is free.
//!
//! Nothing is expanded here. What the templates come to is told below, by `core_quasi`; the expander, above, expands the
//! parts.
#![tactic(auto)]

pub mod filled;
pub mod form;
pub mod inserted;
pub mod parts;
