//! What the words of a run ask for.

ghost use Rattle.std.specs.Prelude.{◌≡◌, IfOk};
ghost use Rattle.run_top.specs.Words.{texts, words_asked};

use base_data::memory::Memory;
use run_command::words::{Words, read_words};
use std::alloc::Global;

/// What the words ask for.
pub(crate) fn words_asked(alloc: Global, words: &[String]) -> Result<Words, Memory>
    ensures { IfOk result (λ asked. asked ≡ words_asked (texts words.now)) }
{
    read_words(alloc, words)
}
