//! The data of a source (R6RS 4.3).
//!
//! A source is the bytes of a file. `read_lexer` cuts it into lexemes, and `read_machine` makes data of
//! these, by a stack of what is open. The file `a 'b ; c` has two data: the symbol `a`, whose span is
//! 0 to 1, and the list of `quote` and `b`, whose span is 2 to 4. The file `(a .` is a fault: Unclosed,
//! at its first byte.
//!
//! The promise: a source is read as the data that it spells, and what spells none is refused, with the
//! first fault; only want of memory is free.
//!
//! This is where bytes become data; all further crates speak of data.
#![tactic(auto)]

pub mod read;
