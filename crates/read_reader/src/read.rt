//! Reading all data of a source.

ghost use Rattle.std.specs.Prelude.{◌≡◌, ◌≤◌, ◌<◌, ◌^◌, length, List, Ok, Err, IfOk};
ghost use Rattle.base_data.specs.declared.fault.Fault.{Fault};
ghost use Rattle.base_data.specs.Datum.{PlainDatum};
ghost use Rattle.base_data.specs.Gives.{Gives};
ghost use Rattle.read_reader.specs.FirstFault.{OnFault, IsFaultOf};
ghost use Rattle.read_reader.specs.Read.{data_of, file_nesting, most_nesting};
ghost use Rattle.read_reader.specs.Spells.{Spells};

use base_data::datum::Datum;
use base_data::fault::Stop;
use base_data::symbol::Symbol;
use read_lexer::names::SymbolTable;
use read_lexer::start::start_of;
use read_lexer::tokens::next_lexeme;
use read_machine::context::SourceContext;
use read_machine::keywords::Keywords;
use read_machine::partial::ReaderState;
use read_machine::step::{finish, step};
use std::alloc::Global;

/// How many forms may be nested in a program or library.
pub const NESTING: u32 = 500;

/// The data of a program or library, in order, as `read_deep` reads them at that nesting.
pub fn read_all(alloc: Global, file: &Symbol, bytes: &[u8]) -> Result<Vec<Datum>, Stop>
    requires { length bytes.now < 2 ^ 32 }
    ensures gives { Gives (λ v. v.items) result (data_of file.now bytes.now file_nesting) }
    ensures spelled { IfOk result (λ v. Spells file.now bytes.now file_nesting v.items) }
    ensures complete { (ds : List PlainDatum) → Spells file.now bytes.now file_nesting ds → Gives (λ v. v.items) result (Ok ds) }
    ensures refused { OnFault result (IsFaultOf file.now bytes.now file_nesting) }
    ensures faulted { (f : Fault) → IsFaultOf file.now bytes.now file_nesting f → Gives (λ v. v.items) result (Err f) }
{
    read_deep(alloc, file, bytes, NESTING)
}

/// The data of a source in which so many forms may be nested, in order (R6RS 4.3).
///
/// What is read is spelt so, what is spelt so is read unless memory runs out, and a source spells one
/// list of data at most. A source that spells none has its first fault: at the first token with which
/// no data can be spelt, or, where a dot has no datum or several behind it, at that dot; at bytes that
/// are no token; or at the innermost opening, where the source ends too early.
pub fn read_deep(
    alloc: Global,
    file: &Symbol,
    bytes: &[u8],
    nesting: u32,
) -> Result<Vec<Datum>, Stop>
    requires deep { nesting ≤ most_nesting }
    requires fits { length bytes.now < 2 ^ 32 }
    ensures gives { Gives (λ v. v.items) result (data_of file.now bytes.now nesting) }
    ensures spelled { IfOk result (λ v. Spells file.now bytes.now nesting v.items) }
    ensures complete { (ds : List PlainDatum) → Spells file.now bytes.now nesting ds → Gives (λ v. v.items) result (Ok ds) }
    ensures refused { OnFault result (IsFaultOf file.now bytes.now nesting) }
    ensures faulted { (f : Fault) → IsFaultOf file.now bytes.now nesting f → Gives (λ v. v.items) result (Err f) }
    ensures single { (ds es : List PlainDatum) → Spells file.now bytes.now nesting ds → Spells file.now bytes.now nesting es → ds ≡ es }
{
    read_lexemes(alloc, file, bytes, nesting)
}

fn read_lexemes(
    alloc: Global,
    file: &Symbol,
    bytes: &[u8],
    nesting: u32,
) -> Result<Vec<Datum>, Stop>
    requires { length bytes.now < 2 ^ 32 }
    ensures gives { Gives (λ v. v.items) result (data_of file.now bytes.now nesting) }
    ensures spelled { IfOk result (λ v. Spells file.now bytes.now nesting v.items) }
    ensures refused { OnFault result (IsFaultOf file.now bytes.now nesting) }
{
    let keywords = Keywords::new(alloc)?;
    let mut names = SymbolTable::new(alloc);
    let context = SourceContext {
        alloc,
        file,
        keywords: &keywords,
        nesting,
    };
    read_sharing(&context, bytes, &mut names)
}

/// As `read_lexemes`, with symbols that data can share.
fn read_sharing(
    context: &SourceContext,
    bytes: &[u8],
    names: &mut SymbolTable,
) -> Result<Vec<Datum>, Stop>
    requires { length bytes.now < 2 ^ 32 }
    ensures gives { Gives (λ v. v.items) result (data_of context.now.file.now bytes.now context.now.nesting) }
    ensures spelled { IfOk result (λ v. Spells context.now.file.now bytes.now context.now.nesting v.items) }
    ensures refused { OnFault result (IsFaultOf context.now.file.now bytes.now context.now.nesting) }
{
    let mut state = ReaderState::new(context.alloc);
    let mut at = start_of(context.alloc, context.file, bytes)?;
    loop {
        let Some(lexeme) = next_lexeme(names, context.file, bytes, at)? else {
            return finish(context, state);
        };
        at = lexeme.to;
        state = step(context, state, lexeme)?;
    }
}
