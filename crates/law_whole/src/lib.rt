//! Whole worlds never get stuck.
//!
//! Evaluation has no answer at cells that don't fit: a variable that is nowhere, a closure without code, a
//! place without a cell. A world is *whole* where its cells fit, each of its values is ready, and the texts of
//! its procedures are there; code is *ready* where it finds each of its variables and each pattern variable is
//! bound to its depth.
//!
//! ```text
//! (lambda (x) (f x))   is ready in a cell that has f, or has one round it that has f
//! #'(?a ...)           is ready in a cell of pattern variables in which ?a has depth 1
//! ```
//!
//! The law: in a whole world code that is ready comes to a value or a fault. The world is whole then, and the
//! value ready in it. From this follows what those who evaluate need:
//!
//! - A first world, with the texts of procedures alone, is whole.
//! - Core code that is closed and well made, and whose codes have new numbers, is ready, and so is each record
//!   that expansion gives.
//! - What the evaluation of a library leaves is a whole world too, in which each of its variables has a value.
//!
//! So library after library, and each transformer between, is evaluated without ever getting stuck. Broken
//! worlds are told apart: no world is whole in which a procedure has no code or a variable's cell is nowhere.
//!
//! What code means is defined in eval_code, the cells that fit in eval_value, and closed and well made code in
//! law_core. Nothing runs here.
#![tactic(auto)]

pub mod laws;
