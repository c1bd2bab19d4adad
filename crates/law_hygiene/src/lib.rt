//! That a use of a keyword is hygienic, in the two sentences of Dybvig, Hieb and Bruggeman (1992): an
//! identifier that a transformer introduces as a *reference* refers to what it refers to in the
//! transformer, and no binder round the use captures it; and one that it introduces as a *binder*
//! captures only references that the same use introduced.
//!
//! One use has one mark m, which nothing had before. The form goes in entered with m, and the output
//! comes out left with m. So in
//!
//! ```text
//! (define-syntax my-or
//!   (syntax-rules () ((_ a b) (let ((t a)) (if t t b)))))
//! (lambda (t) (my-or #f t))
//! ```
//!
//! the `t` of the `lambda` comes in and comes out as it was; the binder `t` of the template has m, so
//! its row is found only by leaves that were stamped while they had m, which the other `t` was not;
//! and `if` and `let`, which have m too, are asked of each frame with m, which only binders of this use
//! have, and so they stand for what they stood for in the template.
//!
//! `specs/Marked` says which leaves of an output came in and which are introduced, `specs/Binder` which
//! binder captures a leaf and which binders a use introduced, and `specs/Hygiene` has the laws.
//!
//! Here are no calls to make: each function stands for the law that it ensures.
#![tactic(auto)]

ghost use Rattle.law_hygiene.specs.Hygiene.{WhatCaptures, OnlyFramesBind, WhatCameInComesOut, IntroducedReferences, IntroducedBinders, WhichAreIntroduced, TakenOut, WhatIsAnOutput, NewMarks, AWholeUse, TwoUses};
ghost use Rattle.law_hygiene.specs.Examples.{MyOr};
ghost use Rattle.law_hygiene.specs.History.{BySameUses};
ghost use Rattle.law_hygiene.specs.Bound.{BindsWhereStamped};

/// An identifier stands for the label of the binder that captures it, which has the identifier's symbol
/// and just the marks that the identifier had at one of its stamps.
pub fn binders_have_the_marks_of_a_stamp()
    ensures { WhatCaptures }
{}

/// To enter with a mark, or to leave without a frame, doesn't change what captures an identifier; to
/// stamp a frame asks that frame for the marks that the identifier has then.
pub fn only_frames_bind()
    ensures { OnlyFramesBind }
{}

/// A bind changes what captures an identifier only if this has the binder's symbol and a stamp of the
/// binder's frame with just the binder's marks; there the binder captures it, unless that stamp or a
/// newer one finds another.
pub fn a_bind_needs_a_stamp()
    ensures { BindsWhereStamped }
{}

/// A part of a macro's input that is in its output is there as it was in the form, once the mark has
/// left.
pub fn what_came_in_comes_out()
    ensures { WhatCameInComesOut }
{}

/// An identifier that a use introduced is captured by a binder with the mark of that use, or by what
/// captured it before it was left with the mark, in the same frames.
pub fn introduced_references_are_kept()
    ensures { IntroducedReferences }
{}

/// A binder with the mark of a use captures no identifier that the use hasn't touched, and one more
/// such binder changes nothing of what captures it.
pub fn introduced_binders_capture_no_others()
    ensures { IntroducedBinders }
{}

/// The rows that have the mark of a use are those of identifiers that the use introduced, and before
/// the use there are none.
pub fn introduced_binders_are_told()
    ensures { WhichAreIntroduced }
{}

/// Without the binders that a use introduced, what it introduced stands for what it stood for before
/// the use, and untouched identifiers for what they stand for with them.
pub fn nothing_else_changes()
    ensures { TakenOut }
{}

/// A macro's output may be its input entered with the mark, constants and temporaries that have nothing
/// to do with the use, pairs and parts of outputs, and data with the context of an identifier of an
/// output.
pub fn outputs_are_told()
    ensures { WhatIsAnOutput }
{}

/// Each identifier of an output came in and comes out as it was, or is captured by a binder of the use
/// or by what captured it before; and no binder of the use captures an identifier around it.
pub fn a_use_is_hygienic()
    ensures { AWholeUse }
{}

/// An identifier that one use introduced, and that another hasn't touched, is captured by no binder that the other
/// introduced.
pub fn uses_stay_apart()
    ensures { TwoUses }
{}

/// In a history of uses and frames a binder captures an identifier only if, at some moment, just the
/// uses that had introduced the binder had introduced the identifier.
pub fn the_same_uses_introduced_both()
    ensures { BySameUses }
{}

/// A mark that isn't among the known ones is on no tree and no row of known marks, and changes with
/// known marks keep it so.
pub fn unknown_marks_are_new()
    ensures { NewMarks }
{}

/// In the example `my-or` the `t` of the use stays that of the program, the template's is that of the
/// `let`, and without marks the `let` would capture the first.
pub fn my_or_is_told()
    ensures { MyOr }
{}
