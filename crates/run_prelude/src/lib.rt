//! The codes of the procedures that are given as texts in Scheme.
//!
//! A transformer may call `map`, `filter` and their like. What they mean is a text each, as
//! `(lambda (f l) (filter (lambda (x) (not (f x))) l))` for `remp`, which the evaluator applies. The texts are
//! expanded once a run, one after the other, in a library of their own in which the names of `(rnrs)` stand for
//! what they are.
//!
//! The promise: `prelude_codes` gives exactly the codes of its definition and spends exactly its fuel; only want of memory
//! is free.
#![tactic(auto)]

pub mod codes;
pub mod prelude;
