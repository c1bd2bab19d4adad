//! What the words ask for.

ghost use Rattle.std.specs.Prelude.{◌≡◌, IfOk, option_map, map, codes, Option, Some, None, unwrap_or};
ghost use Rattle.std.specs.String.{string_bytes};
ghost use Rattle.run_command.specs.Given.{seen};
ghost use Rattle.run_command.specs.Words.{asked, asked_by, made, chosen, rooted, sorted, kind_of, has_other};

use crate::command::{WordValues, command, values_given};
use crate::job::{Job, Kind};
use crate::number::number_of;
use crate::roots::roots_of;
use base_data::items::Items;
use base_data::memory::Memory;
use base_data::symbol::Symbol;
use clap::error::ErrorKind;
use std::alloc::Global;

/// The line that is written where the words are refused.
pub const USAGE: &[u8] =
    b"usage: scheme-expand [--root DIR[:DIR]...] [--cache DIR] [--report] [--write core|xref] PROGRAM | --make N\n";

/// What the words ask for.
#[derive(Drop)]
pub enum Words {
    /// The expansion of a program.
    Expand(Job),
    /// The expansion of so many libraries that are made in memory.
    Make(u32),
    /// Nothing: they are refused.
    Usage,
}

/// What the words ask for.
pub fn read_words(alloc: Global, words: &[String]) -> Result<Words, Memory>
    ensures { IfOk result (λ w. w ≡ asked_by (map string_bytes words.now)) }
{
    let command = command(alloc)?;
    match command.try_get_matches_from(words) {
        Ok(matches) => asked(alloc, &values_given(&matches)),
        Err(error) => match error.kind() {
            ErrorKind::OutOfMemory => Err(Memory),
            _ => Ok(Words::Usage),
        },
    }
}

// What the values ask for.
fn asked(alloc: Global, given: &WordValues) -> Result<Words, Memory>
    ensures { IfOk result (λ w. w ≡ asked (seen given.now)) }
{
    match (given.program, given.make) {
        (Some(program), None) => expansion(alloc, program, given),
        (None, Some(text)) => Ok(making(given, text)),
        _ => Ok(Words::Usage),
    }
}

fn making(given: &WordValues, text: &str) -> Words
    ensures { result ≡ chosen (seen given.now) None (Some text.now) }
{
    if has_other(given) {
        return Words::Usage;
    }
    match number_of(text) {
        Some(n) => Words::Make(n),
        None => Words::Usage,
    }
}

fn has_other(given: &WordValues) -> bool
    ensures { result ≡ has_other (seen given.now) }
{
    given.root.is_some() || given.cache.is_some() || given.write.is_some() || given.report
}

fn expansion(alloc: Global, program: &str, given: &WordValues) -> Result<Words, Memory>
    ensures { IfOk result (λ w. w ≡ chosen (seen given.now) (Some program.now) None) }
{
    let roots = match roots_of(alloc, given.root.unwrap_or("."))? {
        Some(roots) => roots,
        None => return Ok(Words::Usage),
    };
    let kind = match kind_of(given.write.unwrap_or("core")) {
        Some(kind) => kind,
        None => return Ok(Words::Usage),
    };
    expand(alloc, program, given, roots, kind)
}

fn kind_of(word: &str) -> Option<Kind>
    ensures { result ≡ kind_of word.now }
{
    if word == "core" {
        Some(Kind::Core)
    } else if word == "xref" {
        Some(Kind::Xref)
    } else {
        None
    }
}

fn expand(
    alloc: Global,
    program: &str,
    given: &WordValues,
    roots: Items<Symbol>,
    kind: Kind,
) -> Result<Words, Memory>
    ensures { IfOk result (λ w. w ≡ sorted program.now (seen given.now) roots (Some kind)) }
{
    if kind == Kind::Xref && given.cache.is_some() {
        return Ok(Words::Usage);
    }
    let cache = kept_if(alloc, given.cache)?;
    let program = Symbol::new(alloc, program)?;
    Ok(Words::Expand(Job {
        roots,
        cache,
        report: given.report,
        kind,
        program,
    }))
}

fn kept_if(alloc: Global, text: Option<&str>) -> Result<Option<Symbol>, Memory>
    ensures { IfOk result (λ s. s ≡ option_map (λ t. t.now) text.entry) }
{
    match text {
        Some(text) => Ok(Some(Symbol::new(alloc, text)?)),
        None => Ok(None),
    }
}
