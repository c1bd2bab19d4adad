//! The stage on which transformers run while a library is expanded.
//!
//! A keyword's *transformer* is a procedure from syntax to syntax (R6RS libraries 12.3). Its expression is
//! evaluated once, when the keyword is defined, or at its first use where the keyword was imported. Each use
//! then calls it.
//!
//! ```text
//! (define-syntax twice                      the keyword waits from here on
//!   (lambda (form)                          its expression is evaluated, with fuel of its own,
//!     (syntax-case form ()                  and the procedure is kept
//!       ((_ x) #'(+ x x)))))
//! (twice (f 1))                             a use: the form is marked and the procedure called on it, with
//!                                           fuel of its own; the answer (+ (f 1) (f 1)) is read as a tree, its
//!                                           new leaf + keeps the mark, and f has none as before
//! ```
//!
//! Where an expression mentions variables of other libraries, these are evaluated first, and those that they
//! refer to, in the order of loading. Each is evaluated once for a library that is expanded.
//!
//! The stage has what all these evaluations share: the cells, the codes of procedures, the values of the
//! variables of libraries, which libraries were evaluated, and the transformers. It also has the frames and the
//! names of the library, since transformers compare identifiers and make new ones. The cells that a call made
//! are dropped once its answer was read; nothing else is forgotten.
//!
//! The promise: each call does exactly what its definition says of the plain stage, with its fault and place,
//! and counts exactly the fuel that was spent. Only want of memory is free. It is also the answer at cells that
//! don't fit, for which the definition has the fault `Stuck`; no run has such cells.
//!
//! Evaluation is that of eval_code. The expander stands on this crate: it says when keywords begin to wait, when
//! their transformers are evaluated and used, and it counts the uses.
#![tactic(auto)]

pub mod context;
mod cutting;
pub mod earlier;
mod fault;
pub mod fuel;
pub mod keyword;
pub mod libraries;
pub mod patterns;
pub mod running;
pub mod stage;
pub mod transformer;
pub mod uses;
