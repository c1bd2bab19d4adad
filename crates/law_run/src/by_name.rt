//! What a run writes is closed, and bound once, by the names that stand in it.
//!
//! Core text knows variables by their names alone. Where expansion has two variables, of two libraries or of one, the
//! text must have two names, and a name that is mentioned must be one that is bound there:
//!
//! ```text
//! (define %m/a/0 1)                       the variable a of the library (m)
//! (define %/a/0 (lambda (%/a/1) %/a/1))   the variable a of the program, and another one that its lambda binds
//! %/a/0
//! ```
//!
//! The promise: each name that a line mentions or assigns is bound round it, or defined in the text; no two binders
//! have one name; and each name begins with a percent sign and is read as the symbol of its own text, so that no reader
//! takes two of them for one. In particular no binder and no reference is written without a name.
//!
//! Three laws meet here. Expansion gives each variable of a line an index of its own (law_expand); the records of a
//! run are of different libraries, and their text is closed and bound once by label (as is told beside this, and in law_text); and a
//! name tells its library and its index, whatever the symbol between them is.
//!
//! Here are no calls to make: the function stands for the law that it ensures.

ghost use Rattle.law_run.specs.Written.{RunsAreWrittenOnce};

/// In the text that a run writes each name of a variable is defined there or bound around its place,
/// and no two binders have one name.
pub fn a_written_text_is_closed_and_bound_once_by_name()
    ensures { RunsAreWrittenOnce }
{}
