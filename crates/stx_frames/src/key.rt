//! What a row of a frame is found by.

use base_data::symbol::Symbol;
use stx_tree::marks::Marks;

/// A symbol and marks.
#[derive(PartialEq, Eq, Hash, Drop)]
pub struct Key {
    pub symbol: Symbol,
    pub marks: Marks,
}
