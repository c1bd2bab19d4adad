//! Lines and columns of a source, counted (R6RS 4.2.2).
//!
//! A fault is told by the line and the column at which it stands. `base_data` finds both by one walk
//! from the start of the source. This crate says what they are, without the walk:
//!
//! ```text
//! (a\r\nλx)    a line end ends at 4; characters begin at 0, 1, 2, 3, 4, 6 and 7
//! offset 6     line 2: one line end ends at or before 6
//!              column 2: one character begins at or after 4 and before 6
//! ```
//!
//! What ends a line is a line feed, a return, a return with a line feed, U+0085, a return with
//! U+0085, or U+2028, and the longest of these that comes is one line end. A byte that is in no
//! UTF-8 sequence counts as a character.
//!
//! The promise: for every source and every offset in it, the line is 1 plus the number of line ends
//! that end at or before the offset, and the column is 1 plus the number of characters that begin at
//! or after the end of the last of these and before the offset.
//!
//! This crate stands on `base_data`, whose places these are: the law is about `place` there, in which
//! the crates above state where a fault is.
#![tactic(auto)]

pub mod lines;
