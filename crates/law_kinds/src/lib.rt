//! Which kinds of fault come before expansion, and from where.
//!
//! A fault line gives a number, by which the one who reads it knows where to look: faults 1 to 8 are of the bytes
//! of a file, 10, 18 and 20 of its library form, 9, 11 to 14 and 19 of a reference to another file, 15 and 16 of
//! the names that an import set gives:
//!
//! ```text
//! (import (rnrs) (only (util stack) push pop)       5, Unclosed: of reading
//! (library (util stack) (import (rnrs)))            10, NotLibrary: of the form
//! (import (rnrs) (util stakc))                      12, LibraryNotFound: of a reference
//! (import (only (util stack) psuh))                 15, ImportNameMissing: of an import set
//! ```
//!
//! The promise: reading, library forms, import sets and loading tell no other kinds than these. So none of them
//! tells a fault of a transformer, and none the fault of cells that don't fit.
//!
//! Nothing is computed here: each function stands for the law that it ensures.
#![tactic(auto)]

ghost use Rattle.law_kinds.specs.Laws.{ReadingTells, LibrariesTell, ProgramsTell, ImportsTell, JoinsTell, LoadingTells};

/// Bytes that aren't read are refused with one of the kinds 1 to 8 (R6RS 4).
pub fn reading_tells_its_kinds()
    ensures { ReadingTells }
{}

/// Data that are no library and no program are refused with NotLibrary, BadForm or ExportTwice (R6RS 7.1, 8.1).
pub fn forms_tell_their_kinds()
    ensures libraries { LibrariesTell }
    ensures programs { ProgramsTell }
{}

/// Import sets are refused with ImportNameMissing or ImportConflict (R6RS 7.1).
pub fn imports_tell_their_kinds()
    ensures sets { ImportsTell }
    ensures joins { JoinsTell }
{}

/// A program that can't be loaded is refused with one of the kinds 1 to 14 and 18 to 20.
pub fn loading_tells_its_kinds()
    ensures { LoadingTells }
{}
