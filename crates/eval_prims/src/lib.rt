//! The primitives that transformers call: which there are, and what becomes of what they make.
//!
//! A primitive looks at its arguments and at the cells, and says what it *makes*: a value, or a list, a
//! vector, a string that is yet to be stored. `(list 1 2)` makes the list of 1 and 2. Only then are the
//! cells added, here those of two pairs, by one function for all primitives: so a primitive changes
//! nothing, and what it answers can be said as a function of its arguments.
//!
//! The primitives stand in 18 *rows*, by what they are about; those of a row are computed by one
//! function, and the table says for each how many arguments it takes.
//!
//! The promise: what was made adds exactly the cells and takes exactly the names that its definition
//! says, whole cells stay whole, and a refusal leaves the cells as they were.
#![tactic(auto)]

pub mod chains;
pub mod copied;
pub mod cost;
pub mod fault;
pub mod laws;
pub mod made;
pub mod parts;
pub mod perform;
pub mod prim_call;
pub mod primitive;
pub mod relation;
pub mod rows;
pub mod strings;
pub mod table;
pub mod trees;
pub mod world;
