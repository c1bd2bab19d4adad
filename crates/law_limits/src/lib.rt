//! Trees stay within their limits.
//!
//! A tree is at most 1,000 high and has at most 16,777,216 parts. Where a tree is made of a value, or of parts, this is asked of it,
//! and else it is a fault; all other trees are parts of trees that were there. So in evaluation no other tree comes about, whatever
//! a transformer does:
//!
//! ```text
//! (lambda (x) (list #'quote x))          its answer is read as a tree, or refused as too deep
//! (lambda (x) (datum->syntax x deep))    and so is this tree
//! ```
//!
//! That is told for any law of trees which holds of what is within the limits (`specs/Lawful`): if it holds of each tree in code, in cells,
//! in records and on the stage (`specs/Holds`), then it holds of each form that a use gives, and of all on the stage then. The limits
//! themselves are such a law (`specs/Limits`).
#![tactic(auto)]

pub mod laws;
