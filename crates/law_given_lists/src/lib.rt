//! The procedures that are given in Scheme, on several lists, in the words of R6RS.
//!
//! `law_given` says what a transformer may expect of `map`, `filter` and their like on one list. Where there are several, they
//! stand in *rows*: the first row is the first element of each list, the second row the second of each.
//!
//! ```text
//! (map f '(1 2 3) '(4 5 6))          calls f on 1 4, then on 2 5, then on 3 6, and gives the list of the answers
//! (fold-right f z '(1 2) '(3 4))     is (f 1 3 (f 2 4 z))
//! ```
//!
//! What is asked: the lists are lists of one length in the cells, and each call that is made ends, with a value or at a fault. Then the
//! whole ends, as the report says of the calls that were made. And the other way: whatever the whole comes to, with a value or
//! at a fault, the calls were made so. `for-all`, `exists`, `fold-left` and `fold-right` take any number of lists here, one
//! included; `map` and `for-each` two and more, since one list has a loop of its own in their texts.
//!
//! A part of a run that isn't known gives a value with which the run goes on, or faults, and so does the run: the proofs read each
//! step of a text both ways. Nothing runs here, and no program stands on this crate.
#![tactic(auto)]

pub mod laws;
