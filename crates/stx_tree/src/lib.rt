//! Syntax trees as they are meant: data whose symbols have marks and stamps.
//!
//! The expander keeps apart the symbols that a program wrote from those that macros bring in
//! (Dybvig, Hieb and Bruggeman 1992). So each symbol of a form is a *leaf*: the symbol with its
//! *marks*, which tell apart the uses that brought it in, and its *stamps*, each a frame of bindings
//! with the marks that the leaf had when it came into the frame's scope. For a use of a keyword a
//! fresh mark m is *entered*: the `x` that the program wrote becomes x with marks (m). What the
//! transformer answers is *left* with m: that `x` is without marks again, while the `t` that the
//! transformer brought in now has marks (m), and is another variable than any `t` of the program. At
//! the start of a body every leaf is *stamped* with the body's frame.
//!
//! The promise: here stand the definitions of trees, of their size and height and of their changes,
//! and the laws that the algorithm lives by: a leave right after an enter of its mark gives the tree
//! itself, changes act on every leaf alike and on nothing else, sizes and heights don't change, and
//! only which marks are the same matters.
//!
//! The types of this crate are the small parts of which trees are made. The trees in memory, which
//! put these changes off, are those of stx_object; their contracts speak in the words of `specs/Tree`,
//! `specs/Changes`, `specs/Measures` and `specs/Leaves`.
#![tactic(auto)]

pub mod change;
pub mod context;
pub mod frame_row;
pub mod laws;
pub mod marks;
pub mod stamp;
