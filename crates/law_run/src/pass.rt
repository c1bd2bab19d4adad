//! The checker accepts each core text that the expander writes.
//!
//! `check_verdict` shares nothing with what expands, names and prints:
//!
//! ```text
//! (define %/f/0 (lambda (%/x/1) (car %/x/1)))
//! ```
//!
//! The expander writes this line from core code by its own printer, with names by its own spelling; the checker reads it,
//! writes the datum by its own code, and looks for each name in sets of its own.
//!
//! The promise: the text of a run is a core text by the cases of the checker's grammar, so the verdict on it is yes.
//!
//! The lines of a run are spelled by the grammar of core code (`spelled`), closed and bound once by name (`by_name`), and nest
//! less deep than the checker reads (`nesting`). Here each of them is found to be a line of the checker's grammar: it is read
//! back, the checker writes its datum as the printer did (`law_check`), and the symbols in its names are UTF-8
//! (`law_readable_expansion`).
//!
//! Here are no calls to make: the function stands for the law that it ensures.

ghost use Rattle.law_run.specs.Pass.{TextsPass};

use crate::by_name::a_written_text_is_closed_and_bound_once_by_name;
use crate::nesting::texts_of_runs_nest;
use crate::spelled::core_text_of_a_run_is_spelled;
use law_core_grammar::core_texts_are_spellings;
use law_grammar::spellings_are_read_by_the_grammar;

/// The text of a run is accepted by the checker: each line is one of its grammar, each name has one binder, and none is
/// free.
pub fn written_texts_pass()
    ensures { TextsPass }
{
    spellings_are_read_by_the_grammar();
    core_texts_are_spellings();
    core_text_of_a_run_is_spelled();
    a_written_text_is_closed_and_bound_once_by_name();
    texts_of_runs_nest();
}
