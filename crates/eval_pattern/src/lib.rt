//! Patterns of `syntax-case`, and what they take of a value (R6RS libraries 12.4).
//!
//! A clause of `syntax-case` begins with a *pattern*. An identifier in it is a *variable*, which takes
//! anything, unless it is a *literal* or the underscore; an *ellipsis* stands behind a part that is taken
//! as often as there are elements for it. So the form
//!
//! ```text
//! (_ (name value) ... body)     as a pattern
//! (my-let (x 1) (y 2) (+ x y))  as a value
//! name   x, y                   bound under one ellipsis
//! value  1, 2                   bound under one ellipsis
//! body   (+ x y)
//! ```
//!
//! takes three elements and all between: those before the ellipsis come first, those after it last, and
//! what is left is repeated. A tail behind a dot takes the final cdr. A value is matched where it lies:
//! its pairs and vectors may be of the store or of a syntax tree, in any turn.
//!
//! The promise: `compile_pattern` gives exactly the pattern and the variables of its definition, or the
//! first fault from left to right; `matches` gives exactly the binds of its definition, and counts what
//! ellipses take, for the evaluator's fuel. Only want of memory is free.
//!
//! Patterns are the type of core_language, values and cells are those of eval_value, and stx_scope says what
//! identifiers stand for. `law_matches` says what a match is in the words of the report. The evaluator
//! and the expander stand on this crate, and templates on its keywords.
#![tactic(auto)]

pub mod columns;
pub mod compile;
pub mod front;
pub mod keywords;
pub mod matching;
pub mod rest;
pub mod values;
