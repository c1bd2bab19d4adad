//! Invariants: what evaluation keeps.
//!
//! What may be met in values, in cells and in core code is a question asked over and over: which marks there are,
//! whether all can be written and read back, how high trees are. The answer each time is one induction over what
//! evaluation does. Here it stands once, for whatever is asked:
//!
//! ```text
//! asked of             for instance
//! atoms                an integer has at most 128 bits
//! symbols, strings     their text is UTF-8
//! trees                at most 1,000 high; no mark of a later name
//! constants            the datum of a tree of which this holds
//! ```
//!
//! An *invariant* (`specs/Invariant`) says what is asked, `specs/Holds` what that means for values, cells and core
//! code. It is *closed* (`specs/Closed`) if primitives make of what it holds of nothing else: a sum that fits is an
//! integer of which it holds, parts of a tree are such trees, and a tree that is made of such trees within the limits
//! is one. It may speak of the name that comes next, and hold of more as names are taken (`Rises`); one that doesn't
//! is *steady* (`specs/Steady`).
//!
//! The promise: if a closed invariant holds of the code, the cells and the variables with which an expression, a call
//! or a library is evaluated, then it holds of the value and of the cells then; and if it holds of all on a stage, then
//! it holds of the form that a use of a keyword gives and of all on the stage then.
//!
//! A primitive that makes something new needs a line in `proofs/Calls`, and perhaps a condition in `specs/Closed`.
//! `law_fresh`, `law_readable` and `law_limits` are three uses.
//!
//! Here are no calls to make: the function stands for the law that it ensures.
#![tactic(auto)]

ghost use Rattle.law_invariants.specs.Laws.{EvaluationKeeps};

/// What passes tests that primitives keep stays so: if the code, the cells and what is looked up pass them, so do
/// the value and the cells that an evaluation comes to, and so do the form that a use of a keyword gives and all on
/// the stage then.
pub fn evaluation_keeps()
    ensures { EvaluationKeeps }
{}
