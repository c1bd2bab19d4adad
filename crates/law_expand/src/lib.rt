//! Laws of expansion.
//!
//! What forms expand to is defined in expand_forms, form by form. This crate says what a reader of R6RS
//! expects of that core code and doesn't see in its definition.
//!
//! ```text
//! (lambda (x) (define y x) y)    (lambda (%/x/0) (letrec* ((%/y/1 %/x/0)) %/y/1))
//! ```
//!
//! Here the reference `%/x/0` stands in the scope of its binder, no variable has two binders, and the
//! `x` that was referred to and the `x` that was bound stand for one label. So it is always: every
//! record that expansion gives is *closed*, *bound once* and *well made*, in the words of law_core,
//! and each reference names the binder that its leaf stands for.
//!
//! Each record that a library stands on must *serve* those behind it (`specs/Serves`): it binds only labels
//! of its own, and what else its frames and exports give was there before it or is a name of the
//! implementation. Records that follow one another serve, and so does every record that expansion gives; so
//! the law applies to one after another. Of forms nothing is asked: their stamps and marks may be any.
//!
//! For what is in scope is part of the state, and expansion itself asks it of each reference. So the proof has
//! two halves, each an induction on how deep forms may nest, and inside it on the uses of keywords that are left.
//! The first tells how a form changes a state, whatever the state and the form: it adds frames and names, and
//! leaves the scope as it was (`Later` in `specs/States`). A use of a keyword takes names and changes nothing
//! else that matters here (`specs/Stages`): what a transformer answers is a form like any other. The second tells
//! what a form gives: where a state is `Sound`, its core code is closed under the labels that the state reaches,
//! and its templates suit the pattern variables in scope (`ReachOfCode`). Names are made from one counter, so what was
//! made between two states is disjoint from what was made before and after.
//!
//! Transformers are evaluated while the forms around them are expanded, so their expressions take names from among those
//! that these forms take. A third induction tells that core code shares no name with the expression of a keyword
//! (`specs/Keywords`): when a name is new, no keyword that is kept has it, and what is kept later has later names.
#![tactic(auto)]

pub mod laws;
