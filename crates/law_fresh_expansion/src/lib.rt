//! That the marks of a whole expansion are new when they are taken.
//!
//! A use of a macro, and of a record form, takes the next name of the library as its mark. The laws of
//! `law_hygiene` ask that nothing had this mark before. Here an expansion is shown to meet this:
//!
//! ```scheme
//! (let-syntax ((m (syntax-rules () ((_ e) (let ((t 1)) e)))))
//!   (let ((t 2))
//!     (m (m t))))    ; each use of m takes a mark that no leaf, row, cell or constant had when it was taken
//! ```
//!
//! Which marks and frames there may be: those of libraries before this one and of the implementation, and those of
//! names of this library that were taken. That there are no others holds of the state that a library's expansion begins
//! with, and each step keeps it: what is read and bound, what a transformer gives, what a record form stands for,
//! quasi forms and templates; and so does what is done with forms round others, whatever is done with these that
//! keeps it. It therefore holds wherever a use is met, however deep forms nest: marks of uses are new there, and the
//! stamps of each leaf name frames that were made, as the laws of `law_expand` on what an identifier stands for
//! ask. What goes into the record has only such marks and frames, so that the next library begins as this one did.
//!
//! `specs/Living` says what may be met on leaves, `specs/Known`, `specs/History` and `specs/Events` what it is in the
//! laws, and `specs/States` and `specs/Forms` what holds of states and forms then; `specs/Uses`, `specs/Keeping`,
//! `specs/Made`, `specs/Events` and `specs/RecordMarks` have the laws.
//!
//! Here are no calls to make: each function stands for the law that it ensures.
#![tactic(auto)]

ghost use Rattle.law_fresh_expansion.specs.Events.{EventsStay};
ghost use Rattle.law_fresh_expansion.specs.Keeping.{HistoriesStay, MarksStayKnown};
ghost use Rattle.law_fresh_expansion.specs.Made.{StampsAreMade};
ghost use Rattle.law_fresh_expansion.specs.RecordMarks.{RecordsHaveOwnMarks, StartsAreKnown};
ghost use Rattle.law_fresh_expansion.specs.Uses.{UsesTakeNewMarks};

/// The mark that a use of a macro or of a record form takes is on no identifier of the form, and in
/// nothing that the state keeps.
pub fn uses_take_new_marks()
    ensures { UsesTakeNewMarks }
{}

/// In the state in which the expansion of a library begins all marks and frames are known.
pub fn starts_are_known()
    ensures { StartsAreKnown }
{}

/// Expansion keeps that all marks and frames in its state are known, however deep forms nest.
pub fn marks_stay_known()
    ensures { MarksStayKnown }
{}

/// No identifier of an expansion has a stamp of a frame that is made later.
pub fn stamps_are_made()
    ensures { StampsAreMade }
{}

/// Each identifier that an expansion comes to is what it was read or made as, then entered, left and
/// stamped with marks and frames that were there.
pub fn histories_stay()
    ensures { HistoriesStay }
{}

/// Each identifier that an expansion comes to is what it was read or made as, then stamped with frames
/// and introduced by uses, by none of them twice.
pub fn events_stay()
    ensures { EventsStay }
{}

/// The marks and frames in a record are named by its own library, or by libraries before it.
pub fn records_have_own_marks()
    ensures { RecordsHaveOwnMarks }
{}
