//! The grammar of a source, down to its bytes (R6RS 4.2 and 4.3).
//!
//! The file `a 'b ; c` spells two data, since its bytes are the token `a`, a gap of one space, the token
//! `'`, no gap, the token `b`, and a gap of a space and a comment that goes up to the end; and since a
//! symbol is a datum, and `'` before a datum is the list of `quote` and that datum. The file `(a #q)` is
//! at fault: behind tokens with which data can begin stands `#q` at offset 3, which begins no token.
//!
//! The promise: the data that `read_reader` reads are exactly those that this grammar relates to the bytes,
//! and the fault with which it refuses exactly the one that `specs/Fails` relates to them; these are
//! relations by cases that know no reader, no lexer, no loop and no machine.
//!
//! This crate joins `read_lexer`'s laws on tokens and `law_faults` on bytes that are none with
//! `read_reader`'s on data. No code stands on it.
#![tactic(auto)]

ghost use Rattle.std.specs.Prelude.{◌≡◌, ◌<◌, ◌≤◌, ◌^◌, length, List, IfOk, Ok, Err};
ghost use Rattle.base_data.specs.Datum.{PlainDatum};
ghost use Rattle.base_data.specs.declared.fault.Fault.{Fault};
ghost use Rattle.base_data.specs.Gives.{Gives};
ghost use Rattle.law_grammar.specs.Fails.{Fails, FailuresAre, OneFailure, ReadsOrFails};
ghost use Rattle.law_grammar.specs.Reads.{Reads, SpellingsAre};
ghost use Rattle.read_reader.specs.FirstFault.{OnFault};
ghost use Rattle.read_reader.specs.Read.{most_nesting};

use base_data::datum::Datum;
use base_data::fault::Stop;
use base_data::symbol::Symbol;
use law_faults::{bytes_go_wrong_in_gaps_and_tokens, starts_are_marks_and_lines};
use read_lexer::laws::lexemes_are_tokens_behind_gaps;
use read_reader::read::read_deep;
use std::alloc::Global;

/// What `read_reader` calls spelled by the lexemes of a source is exactly what the relation `Reads` says
/// of its bytes.
pub fn spellings_are_read_by_the_grammar()
    ensures { SpellingsAre }
{
    lexemes_are_tokens_behind_gaps();
    starts_are_marks_and_lines();
}

/// What `read_reader` calls the first fault of a source is exactly what the relation `Fails` says of its
/// bytes.
pub fn failures_are_told_by_bytes()
    ensures { FailuresAre }
{
    lexemes_are_tokens_behind_gaps();
    bytes_go_wrong_in_gaps_and_tokens();
    starts_are_marks_and_lines();
}

/// A source has one fault at most, and one that spells data has none.
pub fn sources_read_or_fail()
    ensures one { OneFailure }
    ensures other { ReadsOrFails }
{
    spellings_are_read_by_the_grammar();
    failures_are_told_by_bytes();
}

/// The data of a source in which so many forms may be nested, as `read_reader` reads them: what is read is
/// related to the bytes, whatever is related to them is read unless memory runs out, and bytes are
/// related to one list of data at most. What is refused is at fault so by its bytes, and what is at fault
/// by its bytes is refused so.
pub fn read_source(
    alloc: Global,
    file: &Symbol,
    bytes: &[u8],
    nesting: u32,
) -> Result<Vec<Datum>, Stop>
    requires deep { nesting ≤ most_nesting }
    requires fits { length bytes.now < 2 ^ 32 }
    ensures sound { IfOk result (λ v. Reads file.now bytes.now nesting v.items) }
    ensures complete { (ds : List PlainDatum) → Reads file.now bytes.now nesting ds → Gives (λ v. v.items) result (Ok ds) }
    ensures single { (ds es : List PlainDatum) → Reads file.now bytes.now nesting ds → Reads file.now bytes.now nesting es → ds ≡ es }
    ensures refused { OnFault result (Fails file.now bytes.now nesting) }
    ensures faulted { (f : Fault) → Fails file.now bytes.now nesting f → Gives (λ v. v.items) result (Err f) }
{
    spellings_are_read_by_the_grammar();
    failures_are_told_by_bytes();
    read_deep(alloc, file, bytes, nesting)
}
