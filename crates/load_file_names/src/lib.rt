//! The names of the files that libraries stand in.
//!
//! R6RS leaves to the implementation where a library is found (7.1). Here `(util stack)` is the file
//!
//! ```text
//! ROOT/util/stack.sls
//! ```
//!
//! below a root directory. Each part of the name is percent-encoded in UTF-8, but for letters and digits of
//! ASCII and `- _ + ! ? *`: `(a/b)` is `ROOT/a%2Fb.sls`, so that no part goes to another folder.
//!
//! The promise: each call gives exactly the text that its definition gives; only want of memory is free.
#![tactic(auto)]

pub mod file;
