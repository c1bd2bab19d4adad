//! What a text writes for references.
//!
//! A reference of core code names what its identifier stood for (law_references), and a text spells the reference by a name (law_core_grammar).
//! Here both are joined: name by name, in the order of their places, a line writes the name of the label that the identifier stood for:
//!
//! ```text
//! (lambda (t) (my-or #f t))        (lambda (%/t/0) (letrec* ((%/t/1 #f)) (if %/t/1 %/t/1 %/t/0)))
//! ```
//!
//! The last name is that of the label of the user's `t`, the two before it are those of the one that `my-or` binds.
#![tactic(auto)]

pub mod laws;
