//! Laws of evaluation.
//!
//! What core code means is defined in eval_code, with fuel that bounds how deep the definition nests. This
//! crate says what a reader expects of that meaning and doesn't see in its definition.
//!
//! ```text
//! (+ 1 2) with 4     3, and 0 left
//! (+ 1 2) with 9     3, and 5 left: more fuel gives the same, and what is left wasn't needed
//! (+ 1 2) with 3     FuelSpent: only here would more fuel have given something else
//! ```
//!
//! `FuelSpent` comes exactly where more than the given fuel is needed: an evaluation that is `FuelSpent` with n
//! would spend more than n if it had it, and what would spend more than n is `FuelSpent` with n. The meaning of
//! an expression is given by those of its parts, and every depth that is no less than the fuel gives it.
//! Whatever an evaluation comes to, it changes no cell that was there, and names only grow.
#![tactic(auto)]

pub mod laws;
