//! What an expansion makes can be written and read back.
//!
//! Core text has all constants of a program: those that stand in its files, and those that transformers, record forms, quasi forms and
//! templates put there.
//!
//! ```text
//! (define-record-type point (fields x y))      makes a name for the type in all programs, and the names of its procedures
//! `(1 ,@xs . #(2 ,y))                          makes constants of parts of the template
//! (my-macro (a "b"))                           makes whatever its transformer does
//! ```
//!
//! `law_readable` says what can be read: texts are UTF-8, characters are scalar values, symbols have one character or more, vectors have
//! their elements as a list; and that no evaluation makes anything else. Here an expansion is shown to keep it: where the forms of a library
//! can be read, and so can the constants in the records before and in the codes of texts, so can those in all core code that its expansion
//! makes, and in the library's record.
//!
//! Integers have at most 128 bits, as law_readable says.
//!
//! Here are no calls to make: each function stands for the law that it ensures.
#![tactic(auto)]

ghost use Rattle.law_readable_expansion.specs.Keeping.{ReadablesStayIn};
ghost use Rattle.law_readable_expansion.specs.Records.{RecordsStayReadable};

/// If all in the state of an expansion can be read, so can all in its state after a form, however deep
/// forms nest.
pub fn readables_stay_in_expansion()
    ensures { ReadablesStayIn }
{}

/// All constants in the record of a library can be read if those of its forms and of the records before
/// can.
pub fn records_stay_readable()
    ensures { RecordsStayReadable }
{}
