//! Names of libraries.

ghost use Rattle.std.specs.Prelude.{◌≡◌};

use crate::items::Items;
use crate::symbol::Symbol;

/// The name of a library, without its version. Names rise in the order of the variants; those that
/// users write rise by the number of their parts, and then part by part.
#[derive(PartialEq, Eq, PartialOrd, Ord, Hash, Drop)]
pub enum LibName {
    /// The core forms, auxiliary keywords and primitives.
    Core,
    /// The keywords that are defined in terms of the core forms.
    Derived,
    /// The texts of the list procedures that are evaluated during expansion.
    Prelude,
    /// The program.
    Program,
    /// A library that a file or this implementation gives, by its parts.
    User(Items<Symbol>),
}
