//! Tokens.

use base_data::atom::Atom;
use base_data::symbol::Symbol;

/// Which brackets a list stands in; each closes its own kind (R6RS 4.3.2).
#[derive(Clone, Copy, Debug, PartialEq, Eq)]
pub enum Bracket {
    Round,
    Square,
}

/// A prefix that abbreviates a list of a symbol and the datum behind it (R6RS 4.3.5).
#[derive(Clone, Copy, Debug, PartialEq, Eq)]
pub enum Abbreviation {
    Quote,
    Quasiquote,
    Unquote,
    UnquoteSplicing,
    Syntax,
    Quasisyntax,
    Unsyntax,
    UnsyntaxSplicing,
}

/// A token (R6RS 4.2).
#[derive(Drop)]
pub enum Token {
    Open(Bracket),
    Close(Bracket),
    /// `#(`
    OpenVector,
    /// `#vu8(`
    OpenBytes,
    Abbreviation(Abbreviation),
    /// `#;`, which makes a comment of the next datum.
    SkipDatum,
    Dot,
    Atom(Atom),
    Symbol(Symbol),
}

/// A token and the bytes from `from` up to `to` that spell it.
#[derive(Drop)]
pub struct Lexeme {
    pub token: Token,
    pub from: u32,
    pub to: u32,
}
