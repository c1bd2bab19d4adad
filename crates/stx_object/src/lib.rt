//! Syntax trees that are shared, and whose marks and stamps are put on one node at a time.
//!
//! Hygiene wants every leaf of a form marked before a transformer sees it and again after, and every
//! leaf of a body stamped with its frame (Dybvig, Hieb and Bruggeman 1992). Forms are large and most
//! of them are never looked at, so here a *change* of all leaves is one link, whatever the size of
//! the tree: `(my-or x y)` entered with mark 7 is the same node with the pending change `enter 7`. To
//! *open* the tree gives `my-or` and the rest `(x y)`, each a node of it with that change, and only the
//! *marks* of the leaf `x` are really computed, as (7). A `leave 7` on top cancels right with the
//! `enter 7` before it.
//!
//! A list is pairs, each a node with the first element and the rest, as stx_tree's trees are. The rest
//! of a list is its own node, whoever has it, and to put an element before a list makes one node: taking
//! a list apart from the front and putting it together again costs a node for each element. Dropping a
//! list goes along its rests in a loop, and only into elements by recursion, never deeper than the limit
//! of 1,000 that a height has.
//!
//! The promise: every call on a `Syn` gives exactly what its definition over the plain tree gives,
//! with `TooDeep` exactly where a height would pass 1,000 or a size 16,777,216, and each `enter`,
//! `leave` and `stamp` makes one node. A `FrameStamp` makes one for many trees.
//!
//! Contracts see a `Syn` as the tree of stx_tree, whose definitions and laws say what marks and stamps
//! are; nodes and pending changes don't show. The crates above stand on this one alone: frames look up
//! the stamps of leaves, patterns open trees, templates make them, and the expander enters, leaves and
//! stamps.
#![tactic(auto)]

pub mod base;
pub mod frame_stamp;
mod kept;
mod leaves;
mod pairs;
mod stack;
mod strip;
pub mod syn;
mod unspanned;
mod wrap;

pub use stx_tree::frame_row;
