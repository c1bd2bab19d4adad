//! Invariants: what expansion keeps.
//!
//! `law_invariants` says what an invariant is, and that evaluation keeps one that is closed. Here it is carried on
//! through expansion: shapes, plans, templates, quasi forms, bodies, keywords, uses, and the record of a library.
//!
//! ```text
//! (define (f x) '(1 "two"))      the constant is the datum of a tree that stood in the form
//! #`(a #,b)                      is made of the parts of the form, and of an identifier for each insert
//! (define-record-type ..)        becomes other forms, by core_records
//! ```
//!
//! So what is asked, besides (`specs/Kept`), is little: it holds of trees with other spans and without, of the
//! identifiers that quasi forms make, of the datum and the symbol of each tree of which it holds, and of what record
//! forms come to.
//!
//! The promise: if it holds of the forms of a library, of the records before it and of the codes of texts, then it holds
//! of the library's record. And it is kept by whatever is done with forms round others, if it is kept by what is done
//! with these.
//!
//! `law_readable_expansion` and `law_limit_expansion` are two uses.
//!
//! Here are no calls to make: the function stands for the law that it ensures.
#![tactic(auto)]

ghost use Rattle.law_invariant_expansion.specs.Laws.{ExpansionKeeps};

/// What passes tests that evaluation, quasi forms and record forms keep stays so: if the forms of a library pass
/// them, and so do the records before it and the codes of texts, so does its record.
pub fn expansion_keeps()
    ensures { ExpansionKeeps }
{}
