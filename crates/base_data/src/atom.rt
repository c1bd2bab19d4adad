//! Atoms: the data that have no parts and are no symbols.

ghost use Rattle.std.specs.Prelude.{◌≡◌, IfOk};

use crate::bytes::Bytes;
use crate::memory::Memory;
use crate::symbol::Symbol;

/// A datum without parts (R6RS 4.2 and 4.3).
#[derive(PartialEq, Eq, Drop)]
pub enum Atom {
    /// The empty list.
    Nil,
    Bool(bool),
    Int(i128),
    /// A ratio or a decimal, kept as it is spelt.
    Spelt(Symbol),
    Char(char),
    /// A string.
    Str(Symbol),
    /// A bytevector.
    Bytes(Bytes),
}

impl Atom {
    /// The same atom, with its text or bytes shared.
    pub fn share(&self) -> Result<Atom, Memory>
        ensures { IfOk result (λ a. a ≡ self.now) }
    {
        match self {
            Atom::Nil => Ok(Atom::Nil),
            Atom::Bool(b) => Ok(Atom::Bool(*b)),
            Atom::Int(n) => Ok(Atom::Int(*n)),
            Atom::Spelt(text) => Ok(Atom::Spelt(text.share()?)),
            Atom::Char(c) => Ok(Atom::Char(*c)),
            Atom::Str(text) => Ok(Atom::Str(text.share()?)),
            Atom::Bytes(bytes) => Ok(Atom::Bytes(bytes.share()?)),
        }
    }
}
