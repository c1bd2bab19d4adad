//! What the command line asks for.

use base_data::items::Items;
use base_data::symbol::Symbol;

/// What is written of a program.
#[derive(Clone, Copy, PartialEq, Eq)]
pub enum Kind {
    /// Its core text.
    Core,
    /// Which identifier stands for which.
    Xref,
}

/// The expansion of one program.
#[derive(Drop)]
pub struct Job {
    /// The directories under which libraries are looked for, in order.
    pub roots: Items<Symbol>,
    /// Where entries are kept, if they are.
    pub cache: Option<Symbol>,
    /// Whether the libraries are told that were expanded and reused.
    pub report: bool,
    pub kind: Kind,
    pub program: Symbol,
}
