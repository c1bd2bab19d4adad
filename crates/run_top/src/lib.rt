//! All that the program does, over any files and sinks.
//!
//! The words of a call name a top-level program (R6RS 8). It is loaded with the libraries that it imports, all is
//! expanded, and the core text is written; a program at fault gets the line of its first fault:
//!
//! ```text
//! p.sps   (import (rnrs base)) (define x 1) (+ x 2)
//! out     (import (rnrs)) (define %/x/0 1) (+ %/x/0 2)       and the status is 0
//!
//! p.sps   (import (rnrs base)) x
//! err     p.sps:1:22: 21 Unbound: x                          and the status is 1
//! ```
//!
//! The promise, on `run`: for every set of files, what is written and answered is what the eager definition `whole`
//! gives, its core text or its first fault with its place; any other answer is a usage fault, a read or write fault
//! that was counted in the call, or want of memory.
//!
//! `--make N` expands libraries that `run_make` makes in memory, and writes one line on their core text:
//!
//! ```text
//! out     libraries 2 lines 5 bytes 130                     for --make 2, and no file is read
//! ```
//!
//! `words` asks `run_command` what the words ask for, `prepare` makes all text with no sink at hand, by `run_library` and
//! what stands below it, `cached` does so over a store, by `run_reuse`, `made` for `--make`, and `top` writes it. The program `scheme_expand` calls it over
//! the system's files and streams.
#![tactic(auto)]

mod cached;
pub mod inputs;
mod made;
mod prepare;
pub mod status;
pub mod top;
mod words;
