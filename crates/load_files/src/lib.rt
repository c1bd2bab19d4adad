//! Loading: the files that a program needs, in the order of loading (R6RS 7.1 and 7.2).
//!
//! A program imports libraries, and these import others. `(util stack)` is the file `util/stack.sls` under the
//! first root that has it:
//!
//! ```text
//! p.sps            (import (rnrs) (util all)) ..
//! util/all.sls     (library (util all) (export ..) (import (util stack) (util loop)))
//! util/stack.sls   (library (util stack (1 0)) ..)
//! util/loop.sls    (library (util loop) ..)
//! ```
//!
//! are loaded as `(util stack)`, `(util loop)`, `(util all)` and the program: each library once, after those that it
//! imports. `(rnrs)` is given with the implementation and needs no file.
//!
//! The promise: `load` gives exactly what its definition in `specs/Load` gives, or its first fault with its
//! place and what was loaded before it; only want of memory is free, and a failed read that the files count.
//!
//! The definition goes down into the files by recursion; the code keeps those that are open on a stack, and
//! `specs/Stack` says what is left to do there.
#![tactic(auto)]

pub mod found;
pub mod halt;
pub mod load;
pub mod open;
pub mod refer;
pub mod search;
pub mod walk;
