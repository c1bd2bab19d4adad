//! A large program, made in memory.
//!
//! `--make N` expands N libraries and a program that no file holds, so that the time and memory of an expansion can be
//! measured at any size. Each library (R6RS 7.1) imports the one before it and exports a variable and a keyword, and the
//! program (R6RS 8.1) uses the keyword of each. `--make 2` has these files, each form on one line:
//!
//! ```text
//! ./make/g0.sls   (library (make g0) (export v0 m0) (import (rnrs)) (define v0 0)
//!                   (define-syntax m0 (syntax-rules () ((_ a ...) (list v0 a ...)))))
//! ./make/g1.sls   (library (make g1) (export v1 m1) (import (rnrs) (make g0)) (define v1 (+ v0 1))
//!                   (define-syntax m1 (syntax-rules () ((_ a ...) (list v1 a ...)))))
//! ./made.sps      (import (rnrs) (make g0) (make g1))
//!                 (m0 0)
//!                 (m1 1)
//! ```
//!
//! Of their core text a run writes one line alone, `libraries 2 lines 5 bytes 130`.
//!
//! The promise: `made_files` gives exactly these paths and texts for every N, and `summary` exactly that line; only
//! want of memory is free.
#![tactic(auto)]

pub mod made;
pub mod summary;
