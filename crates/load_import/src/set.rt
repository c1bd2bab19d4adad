//! Import sets: which names of which library a form imports.

ghost use Rattle.std.specs.Prelude.{◌≡◌};

use base_data::datum::Datum;
use base_data::items::Items;
use base_data::library::LibName;
use base_data::span::Span;
use base_data::symbol::Symbol;

/// An identifier of a form: its symbol and its place.
#[derive(Drop)]
pub struct NameAt {
    pub name: Symbol,
    pub span: Span,
}

/// A name, and the name that takes its place.
#[derive(Drop)]
pub struct Renaming {
    pub from: NameAt,
    pub to: Symbol,
}

/// What one word of an import set does to the names inside.
#[derive(Drop)]
pub enum ImportStep {
    /// Keeps these names alone.
    Only(Items<NameAt>),
    /// Leaves these names out.
    Except(Items<NameAt>),
    /// Puts this symbol in front of each name.
    Prefix(Symbol),
    /// Changes these names, all at once.
    Rename(Items<Renaming>),
}

/// An import set: a library, and what is done to its names, the innermost word first.
#[derive(Drop)]
pub struct ImportSet {
    pub library: LibName,
    /// The version reference, as it stands in the file.
    pub version: Datum,
    /// Where the reference to the library stands.
    pub place: Span,
    pub steps: Items<ImportStep>,
}
