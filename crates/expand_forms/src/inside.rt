//! How deep forms nest.

use expand_heads::depth::MOST_ROUND;

/// The room that expansion begins with. It is enough: a form is refused for its depth before none is left.
pub(crate) const ROOM: u16 = MOST_ROUND + 2;
