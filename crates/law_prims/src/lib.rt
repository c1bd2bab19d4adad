//! What the primitives make of values that fit.
//!
//! `eval_prims` says what a call of a primitive makes. So `cdr` makes of the list `(1 2)` the value that stands
//! for its last pair, and `list` makes of 1 and 2 a list that is still to be stored. To store what was made
//! keeps whole cells whole if the values in it fit in them, and here stands that they do.
//!
//! The promise: whatever a call makes of arguments that fit in whole cells, each value in it fits in these
//! cells too. So no call makes a value with a place at which there is no cell of its kind. And more: each
//! value in what a call makes is one that was there, among the arguments or in the cells, or has no place.
//! So what is true of all those, as that the code of each procedure is known, stays true.
//!
//! Also that the table of primitives, which is by numbers, holds just those of their report names, with their
//! numbers of arguments.
//!
//! Nothing runs here. The laws of whole worlds stand on this crate, and no program does.
#![tactic(auto)]

pub mod laws;
