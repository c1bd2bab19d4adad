//! Lines of a text are read quickly, one after another.
//!
//! `read_reader` reads any source. This crate gives the same data, in less time for lines such as core text has. Of the line
//!
//! ```text
//! (define %m/walk/0 (lambda (%m/tree/1) (if (null? %m/tree/1) 10 (car %m/tree/1))))
//! ```
//!
//! each parenthesis, identifier and number is a token by its own bytes and the one behind it: no gap, comment or escape is
//! looked for. The second `%m/tree/1` is another owner of the text of the first. Each element is put into the innermost
//! list where it is. What isn't of that kind, as `"text"` or `#t`, is left to `read_lexer` and `read_machine`.
//!
//! The promise: `reader::LineReader::read` gives exactly what `read_reader` gives of the same bytes, or its fault; only want
//! of memory is free. What was read before changes nothing.
//!
//! `words` finds the ends of identifiers and numbers, `recent` keeps symbols that may come again, `progress` is what tokens
//! have come to, and `reader` reads a line.
#![tactic(auto)]

pub mod progress;
pub mod reader;
pub mod recent;
pub mod words;
