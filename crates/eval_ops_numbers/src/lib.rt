//! The functions that compute the primitives of numbers and of characters (R6RS 11.7, 11.8, 11.10 and
//! 11.11).
//!
//! `(+ 1 2 -3)` is the sum of its arguments where that has at most 128 bits, whatever comes on the way;
//! `(div -7 2)` is -4 and `(mod -7 2)` is 1; `(char<? #\a #\b)` compares scalar values. Wrong kinds of
//! arguments and results of more bits are refused.
//!
//! The promise: the function of each row answers, on all ops and arguments, exactly what the definition of
//! the row says; only want of memory is free. Laws say of the divisions what R6RS says of them.
#![tactic(auto)]

pub mod characters;
pub mod laws;
pub mod numbers;
pub mod total;
