//! The core text of a run is spelled by the grammar of core text, and read back.
//!
//! `law_core_grammar` says what core text means: which data spell core code, that the text of core code is that of the datum which
//! spells it, and that core text is read as these data. That asks something of each line: that each variable in it has a name, that each
//! expression has its form, and that no primitive in it is a keyword.
//!
//! ```text
//! (define %/f/0 (lambda (%/x/1) (if %/x/1 (car %/x/1) #f)))
//! ```
//!
//! Here `%/f/0` and `%/x/1` are variables with names, the `if` has three parts, and `car` is a primitive that is no keyword. Were one
//! of these not so, `(if)` might stand where a reference to a keyword stood, and the line would be read as something else.
//!
//! The promise: in every run that gives a text, each line has all this. So each line of the text is one datum, which spells it; and read
//! as a file, where the constants in the lines can be read, the text is `(import (rnrs))` and these data. In particular two runs that
//! give one text have the same lines, but for what a text doesn't tell. Whatever codes the run's procedures given in Scheme have, this
//! holds; with those of this implementation each constant can be read, as is told beside this (`readable`).
//!
//! Expansion gives each variable of a line an index, and with it a name; it gives lines that are well made, and names no keyword as a
//! primitive (law_expand). What a line mentions, it binds itself or the text defines (as is told beside this).
//!
//! Here are no calls to make: each function stands for the law that it ensures.

ghost use Rattle.law_run.specs.Spelled.{RunsAreSpelled, RunsAreReadBack, RunsTellTheirLines};

use law_core_grammar::{core_text_is_read_back, core_text_tells_its_lines};

/// In a run that gives a text each line has a spelling by the grammar of core text: its variables have
/// generated names, its forms their parts, and no primitive is a keyword.
pub fn core_text_of_a_run_is_spelled()
    ensures { RunsAreSpelled }
{}

/// The text of a run is read as `(import (rnrs))` and one datum for each line, which spells it, if the
/// constants of its lines can be read.
pub fn a_run_is_read_back()
    ensures { RunsAreReadBack }
{
    core_text_is_read_back();
}

/// Two runs with one text whose constants can be read have the same lines, once each variable is
/// replaced by its name and spans and the numbers of procedures are left out.
pub fn core_text_of_a_run_tells_its_lines()
    ensures { RunsTellTheirLines }
{
    core_text_tells_its_lines();
}
