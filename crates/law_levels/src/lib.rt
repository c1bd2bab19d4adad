//! How high the code of an entry may be, and how large its numbers.
//!
//! An entry of the cache holds code only up to a height: with it each reader of entries ends, and within bounds. `core_codec` says which
//! values have a spelling, level by level; here it is said by a measure of the code itself:
//!
//! ```text
//! ((a b) ...)       a pattern of three levels: the list, the list in it, and the variables
//! (if x (f x) 1)    core code of three levels: the `if`, the call, and its operands
//! ```
//!
//! What is higher than the limit has no spelling, and for what isn't the limit makes no difference. The limits stand here as numbers.
//!
//! Here are no calls to make: each function stands for the law that it ensures.
#![tactic(auto)]

pub mod laws;
