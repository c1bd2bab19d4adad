//! What the verdicts of the checker mean, and that it writes and reads core text as others do.
//!
//! `check_verdict` shares nothing with what expands, names and prints. Here are the laws by which both agree on a line:
//!
//! ```text
//! (define %/f/0 (lambda (%/x/1) (car %/x/1)))
//! ```
//!
//! The printer writes a datum, names are made of libraries, symbols and numbers, and the checker reads the line, writes its
//! datum by code of its own, and looks whether the bytes are the same.
//!
//! The promise: each verdict is given exactly where the text is as the verdict says (`specs/Verdicts`); the checker writes
//! each datum as the printer does, and its line tells the checker what the datum tells (`specs/Texts`); and the name of a
//! variable is a name to the checker (`specs/Variables`).
//!
//! Here are no calls to make: each function stands for the law that it ensures.
#![tactic(auto)]

ghost use Rattle.law_check.specs.Texts.{TextsAlike, TextsAreLines, TextsTellTheirData};
ghost use Rattle.law_check.specs.Variables.{VariablesAreNamed};
ghost use Rattle.law_check.specs.Verdicts.{VerdictsAreExact};

use check_verdict::lines::verdicts_are_by_cases;

/// A verdict is given exactly where it means so: yes, where each line is one of core text, no name has two binders, and
/// each that is free in its line is defined in some line; else the first line that is none; else the first name that has a
/// second binder; else the first that is free in its line and defined in none.
pub fn verdicts_are_exact()
    ensures { VerdictsAreExact }
{
    verdicts_are_by_cases();
}

/// The checker writes each datum as the printer does; no line ends in the text of one that can be read; and that text is a
/// line which is checked as the datum is.
pub fn texts_are_alike()
    ensures alike { TextsAlike }
    ensures lines { TextsAreLines }
    ensures told { TextsTellTheirData }
{}

/// The name of a variable of the program or of a library is a name in core text, where its symbol is UTF-8.
pub fn variables_have_names()
    ensures { VariablesAreNamed }
{}
