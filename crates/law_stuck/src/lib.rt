//! No use of a keyword gets stuck.
//!
//! An evaluation has no answer at cells that don't fit. For a use that met such cells the definition has a fault
//! of its own, `Stuck`, so that the contracts of the code need to ask nothing of the cells. This crate tells that
//! it is the fault of no use. A stage is *steady* where its world is whole in the words of law_whole, what is
//! kept of keywords is ready, each code stands for a reason, and the variables of libraries that were evaluated have
//! values.
//!
//! ```text
//! (define-syntax m (lambda (s) (f #'1)))     `f` is a variable of (b), and (b) refers to (a)
//! (m)                                        (a) is evaluated, and (b), and the expression; what it gives is kept and called
//! ```
//!
//! Each of these steps leaves a steady stage or a fault that the program is told: fuel that was spent, an argument
//! that was refused, a value that is no transformer. Of the records before the library it is asked that they stand
//! behind one another: closed, well made, and each with names of its own.
//!
//! What a use does is defined in eval_stage. Nothing runs here.
#![tactic(auto)]

pub mod laws;
