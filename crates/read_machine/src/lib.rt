//! Data from tokens, by a stack of what is open.
//!
//! A lexer gives tokens one after another, each with the bytes that spell it. This crate keeps what
//! they have come to: the data that are complete, and, innermost first, the forms that are open, each
//! with its opening token, its parts so far, and how many more forms may be opened inside it. After
//! the three tokens `(`, `a` and `'` of `(a 'b)` no datum is complete, and two forms are open: the
//! abbreviation `'`, and round it a list that has `a`. The symbol `b` ends the abbreviation, which is
//! the list of `quote` and `b`, and goes into the open list; the close then completes the list.
//!
//! The promise: each token leads from state to state, or to its fault, exactly as `specs/Step` says;
//! only want of memory is free. Nothing here recurses as deep as the data are nested.
//!
//! `read_lexer` gives the tokens. `read_reader` runs this machine over all tokens of a source, and says
//! what it gives in the words of R6RS 4.3: which tokens spell which data.
#![tactic(auto)]

pub mod context;
pub mod extent;
mod form;
pub mod keywords;
pub mod partial;
pub mod step;
