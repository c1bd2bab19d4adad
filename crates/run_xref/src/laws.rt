//! The binding map as a relation.
//!
//! Nothing is computed here: each function stands for the law that it ensures.

ghost use Rattle.run_xref.specs.Relation.{MapIsExact, MapIsOrdered, MapIsOnce};

/// A pair is in the map exactly where an identifier with its span leads to its target: an identifier of a variable to
/// the first one that binds what it stands for, or to nothing where no identifier of a source binds it, and that of a
/// primitive to the primitive.
pub fn map_is_exact()
    ensures { MapIsExact }
{}

/// The pairs stand in the order of their identifiers, and those of one identifier in that of their targets. The file
/// whose first identifier comes first in the links is the first.
pub fn map_is_ordered()
    ensures { MapIsOrdered }
{}

/// No pair stands twice.
pub fn map_has_each_pair_once()
    ensures { MapIsOnce }
{}
