//! The tables of the code, against what is written out in `specs/`.
//!
//! Some definitions cite a table of the code itself: which keyword has a number, what `map` means during expansion, what
//! `or` expands to, which bytes of a library's name stand in a path. A wrong row there would be a wrong definition. So each
//! such table stands here a second time, written out as R6RS has it, and with them the limits of the implementation:
//!
//! ```text
//! (form.Letrec, codes "letrec") ∷ (form.LetrecStar, codes "letrec*") ∷ ..
//! ```
//!
//! The promise: the table of the code is what is written out here.
//!
//! Here are no calls to make: each function stands for the law that it ensures.
#![tactic(auto)]

ghost use Rattle.law_tables.specs.CoreForms.{FormsAreWritten, FormsAreFound};
ghost use Rattle.law_tables.specs.Derived.{DerivedIsWritten};
ghost use Rattle.law_tables.specs.Kept.{OthersAreEscaped};
ghost use Rattle.law_tables.specs.Limits.{LimitsAreWritten};
ghost use Rattle.law_tables.specs.Prelude.{TextsAreWritten};

/// The keywords that expansion itself knows are those that are written out here, under their report
/// names.
pub fn core_forms_are_written()
    ensures { FormsAreWritten }
{}

/// Each keyword that expansion itself knows is found by its place and by its number.
pub fn core_forms_are_found()
    ensures { FormsAreFound }
{}

/// The list procedures that take a procedure have the texts that are written out.
pub fn prelude_is_written()
    ensures { TextsAreWritten }
{}

/// The library of derived forms has the text that is written out.
pub fn derived_is_written()
    ensures { DerivedIsWritten }
{}

/// Of a part of a library's name exactly the ASCII letters, digits and `- _ + ! ? *` are in the file's
/// name as they are.
pub fn others_are_escaped()
    ensures { OthersAreEscaped }
{}

/// The limits of files, of syntax objects, of nesting and of evaluation are the numbers that are written out.
pub fn limits_are_written()
    ensures { LimitsAreWritten }
{}
