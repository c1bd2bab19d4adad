//! Pairs by numbers, which can be sorted.

use base_data::op::Op;

/// A span, in a file by its number.
#[derive(Clone, Copy, PartialEq, Eq, PartialOrd, Ord)]
pub struct At {
    pub file: usize,
    pub from: u32,
    pub to: u32,
}

/// A target: places come before `Nowhere`, and this before primitives.
#[derive(Clone, Copy, PartialEq, Eq, PartialOrd, Ord)]
pub enum Aim {
    Place(At),
    Nowhere,
    Prim(Op),
}

/// A pair: rows compare by their identifiers, and then by their targets.
#[derive(Clone, Copy, PartialEq, Eq, PartialOrd, Ord)]
pub struct LinkRow {
    pub at: At,
    pub aim: Aim,
}
