//! Each constant of a run can be written and read back.
//!
//! What a file has can be read, of course. But core text has constants that no file has:
//!
//! ```text
//! (define-syntax name
//!   (lambda (x) (syntax-case x () ((k) (datum->syntax #'k (string-append "a" "b"))))))
//! (name)                                     the constant "ab"
//! ```
//!
//! Were one of them a symbol without characters, a string that isn't UTF-8, an integer of more than 128 bits, or a vector whose elements
//! aren't a list, then no reader would give it back. The promise: there are none of these in the codes of the texts that this
//! implementation has, nor in the records of a run. So each constant in the text of a run is read back, and the whole text is read as
//! `(import (rnrs))` and the data that spell its lines. In particular two runs that give one text have the same lines, but for what a text
//! doesn't tell.
//!
//! Three laws meet here. Only such data are read (law_round); no evaluation makes others (law_readable); and no expansion does
//! (law_readable_expansion).
//!
//! Here are no calls to make: each function stands for the law that it ensures.

ghost use Rattle.law_run.specs.Readable.{PreludeIsReadable, RunsAreReadable, ConstantsAreRead, TextsAreReadBack, TextsTellTheirLines};

use law_core_grammar::{core_text_is_read_back, core_text_tells_its_lines};

/// All constants in the codes of the texts in Scheme can be read.
pub fn codes_of_texts_can_be_read()
    ensures { PreludeIsReadable }
{}

/// All constants in the records of a run can be read.
pub fn constants_of_a_run_can_be_read()
    ensures { RunsAreReadable }
{}

/// Each constant in the lines of a run's text is read back, where some number of forms may be nested.
pub fn each_constant_is_read()
    ensures { ConstantsAreRead }
{}

/// The text of a run is read as `(import (rnrs))` and one datum for each line, which spells it.
pub fn the_text_of_a_run_is_read_back()
    ensures { TextsAreReadBack }
{
    core_text_is_read_back();
}

/// Two runs with one text have the same lines, once each variable is replaced by its name and spans and
/// the numbers of procedures are left out.
pub fn the_text_of_a_run_tells_its_lines()
    ensures { TextsTellTheirLines }
{
    core_text_tells_its_lines();
}
