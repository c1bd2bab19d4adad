//! That a whole expansion is hygienic: one relation between the identifiers that it takes and the references of its record.
//!
//! ```scheme
//! (define-syntax my-or
//!   (syntax-rules () ((_ a b) (let ((t a)) (if t t b)))))
//! (lambda (t) (my-or #f t))    ; (lambda (t.1) (let ((t.2 #f)) (if t.2 t.2 t.1)))
//! ```
//!
//! Here three identifiers become references: the `t` of the template, twice, which the use of `my-or` introduced, and the `t` that
//! came in with the form. `specs/Expands` has the relation: which core code comes of a form in a state, form by form, and from which
//! identifier, in which state, each of its references was made, in the order of their places. `specs/Noted` has what is noted of
//! a form so. The expression of a keyword is a form one level up, with nothing in scope: wherever one is bound, in a body or
//! round expressions, the relation has the expression, the code that was kept, and the references in it. A template has its
//! pattern variables from identifiers, as code has its references (`specs/Templates`), and they stand in one list with these, by the
//! places of what names them (`specs/Namings`). `specs/Single` says that the relation has one answer: nothing in it is left to
//! choose. `specs/Whole` says that expansion gives what is so related to the form, that its references name what these
//! identifiers stood for when they were taken and stand for to the end, and that the two sentences of Dybvig, Hieb and Bruggeman
//! (1992) hold of each: a reference that a use introduces is captured by no binder but one that the same use introduced or that
//! captured it in the transformer's template, and a binder that a use introduces captures no references but those that the same
//! use introduced. Of a keyword's expression it says so
//! to the end of the expression: a definition behind it may bind an identifier that it has, as in
//!
//! ```scheme
//! (let ()
//!   (define-syntax two (lambda (form) (list (syntax quote) 2)))    ; here list is that of (rnrs)
//!   (define list vector)                                           ; and here it would not be
//!   (two))
//! ```
//!
//! `specs/Records` says so of the record of a library, whose keywords have the expressions that were expanded so, and whose exports
//! are what the identifiers of their clauses stand for.
//!
//! Below it stand the laws of one identifier. Each that an expansion comes to has a history, by the laws of
//! `law_fresh_expansion`: it was read or made as a temporary, and then uses introduced it, none of them twice, and frames
//! were stamped on it. `specs/Captured` has what such a history tells of the binder that captures the identifier, `specs/Reference`
//! that the identifier becomes a reference to this binder, and `specs/Introduced` which leaves a use introduces: all that it gives
//! but those of its form.
//!
//! Here are no calls to make: each function stands for the law that it ensures.
#![tactic(auto)]

ghost use Rattle.law_references.specs.Captured.{CapturesAreHygienic};
ghost use Rattle.law_references.specs.Introduced.{UsesIntroduceTheRest};
ghost use Rattle.law_references.specs.Records.{RecordsAreHygienic};
ghost use Rattle.law_references.specs.Reference.{ReferencesAreHygienic};
ghost use Rattle.law_references.specs.Single.{RelationHasOneAnswer};
ghost use Rattle.law_references.specs.Whole.{FormsAreHygienic};

/// The binder that captures an identifier of an expansion has the mark of a use only if that use
/// introduced the identifier or it was made with the mark; and if a use introduced it, its binder has
/// that mark or captures it, in the same frames, as it was before that.
pub fn captures_are_hygienic()
    ensures { CapturesAreHygienic }
{}

/// An identifier that is expanded as a reference names the label of the binder that captures it, by
/// both sentences of hygiene.
pub fn references_are_hygienic()
    ensures { ReferencesAreHygienic }
{}

/// The marks and stamps of each identifier in what a use gives are those of one in its form, or the
/// newest mark is that of the use; its symbol may be new.
pub fn uses_introduce_the_rest()
    ensures { UsesIntroduceTheRest }
{}

/// The core code of a form names, place by place, what the identifiers expanded in it stood for, by
/// both sentences of hygiene; so do the expressions of the keywords bound in it.
pub fn forms_are_hygienic()
    ensures { FormsAreHygienic }
{}

/// The lines, keywords' expressions and exports of a library's record name what their identifiers stood
/// for, by both sentences of hygiene.
pub fn records_are_hygienic()
    ensures { RecordsAreHygienic }
{}

/// The relation of expansion gives one core code, one list of references and expressions, and one state
/// for a form in a state.
pub fn relation_has_one_answer()
    ensures { RelationHasOneAnswer }
{}
