//! Templates of `syntax`, and the values that they give (R6RS libraries 12.4).
//!
//! A *template* is a form whose pattern variables are replaced by what they are bound to. A part behind
//! which an *ellipsis* stands is given once for each element of its variables of *depth* there, and a list
//! of an ellipsis and a form is that form, in which ellipses have no meaning:
//!
//! ```text
//! (a b ...) with a 1 and b (2 3)
//! ((a b) ...)       gives ((1 2) (1 3))
//! (b ... a)         gives (2 3 1)
//! (x a (... ...))   gives (x 1 ...)
//! ```
//!
//! Of the ellipses round a variable the innermost ones, as many as its depth, take its elements; further
//! out it stays whole, as `a` does above. So the definition carries the *turns* of the ellipses round a
//! part, and a variable of depth d is seen through the innermost d of them.
//!
//! The promise: `compile_template` gives exactly the template of its definition, or the first fault from
//! left to right; `make_instance` gives exactly the value and adds exactly the cells of its definition, or
//! the first two lengths under one ellipsis that differ, found before any part of it is built; and the
//! cells that were there stay as they were. Only want of memory is free.
//!
//! A part without pattern variables stays a syntax tree, without spans; all others are made in the store. Templates are
//! the type of core_language, values and cells those of eval_value. The evaluator stands on this crate, and the
//! expander, which looks at the scope of variables itself.
#![tactic(auto)]

pub mod binds;
pub mod compile;
pub mod cost;
pub mod instance;
pub mod lengths;
pub mod measure;
pub mod rest;
pub mod tree;
