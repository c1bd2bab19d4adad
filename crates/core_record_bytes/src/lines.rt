//! Run lines as bytes.

ghost use Rattle.std.specs.Prelude.{◌≡◌, IfOk, option_map};
ghost use Rattle.base_bytes.specs.Codec.{listed, some_get, ◌then◌};
ghost use Rattle.base_bytes.specs.Names.{label};
ghost use Rattle.base_bytes.specs.Puts.{PutsIf};
ghost use Rattle.core_codec.specs.Records as spell;

use crate::bindings::MAX_CORE;
use base_bytes::libraries::RecentLibraries;
use base_bytes::numbers::{put_u64, u64_at};
use base_bytes::room::list_for;
use base_bytes::spelled::Spelled;
use base_data::memory::Memory;
use base_data::name::Label;
use core_code_bytes::at::core_at;
use core_code_bytes::put::put_core;
use core_language::code::Core;
use core_language::record::Line;
use core_pattern_bytes::held::HeldReading;
use std::alloc::Global;

#[tactic(auto, unfolding(core_codec::specs::Records::line))]
fn put_line(out: &mut Vec<u8>, alloc: Global, line: &Line) -> Result<bool, Memory>
    ensures { IfOk result (λ b. PutsIf spell.line line.now out.old.items out.new.items b) }
{
    match line {
        Line::Define(label, core) => {
            out.push(0)?;
            label.put(out)?;
            put_core(out, alloc, MAX_CORE, core)
        }
        Line::Expr(core) => {
            out.push(1)?;
            put_core(out, alloc, MAX_CORE, core)
        }
    }
}

#[tactic(auto, unfolding(core_codec::specs::Records::line))]
fn line_at<'a>(
    libraries: &mut RecentLibraries,
    bytes: &'a [u8],
) -> Result<Option<(Line, &'a [u8])>, Memory>
    ensures { IfOk result (λ o. option_map (λ x. (x.0, x.1.now)) o ≡ spell.line.get bytes.now) }
{
    match bytes {
        [0, rest @ ..] => match definition_at(libraries, rest)? {
            Some((definition, rest)) => {
                let line = Line::Define(definition.label, definition.core);
                Ok(Some((line, rest)))
            }
            None => Ok(None),
        },
        [1, rest @ ..] => match core_at(libraries, MAX_CORE, rest)? {
            Some((core, rest)) => Ok(Some((Line::Expr(core), rest))),
            None => Ok(None),
        },
        _ => Ok(None),
    }
}

/// The label of a definition, and its code.
#[derive(Drop)]
struct Definition {
    label: Label,
    core: Core,
}

fn definition_at<'a>(
    libraries: &mut RecentLibraries,
    bytes: &'a [u8],
) -> Result<Option<(Definition, &'a [u8])>, Memory>
    ensures { IfOk result (λ o. option_map (λ x. ((x.0.label, x.0.core), x.1.now)) o ≡ (label then spell.code).get bytes.now) }
{
    let Some((label, rest)) = Label::at(libraries, bytes)? else {
        return Ok(None);
    };
    match core_at(libraries, MAX_CORE, rest)? {
        Some((core, rest)) => Ok(Some((Definition { label, core }, rest))),
        None => Ok(None),
    }
}

/// Adds run lines.
pub(crate) fn put_lines(out: &mut Vec<u8>, alloc: Global, lines: &[Line]) -> Result<bool, Memory>
    ensures { IfOk result (λ b. PutsIf (listed spell.line) lines.now out.old.items out.new.items b) }
{
    put_u64(out, lines.len() as u64)?;
    for line in lines {
        if !put_line(out, alloc, line)? {
            return Ok(false);
        }
    }
    Ok(true)
}

/// The run lines that the bytes begin with, and the bytes behind them.
pub(crate) fn lines_at<'a>(
    libraries: &mut RecentLibraries,
    bytes: &'a [u8],
) -> Result<Option<(HeldReading<Vec<Line>>, &'a [u8])>, Memory>
    ensures { IfOk result (λ o. option_map (λ x. (x.0.value.items, x.1.now)) o ≡ (listed spell.line).get bytes.now) }
{
    match u64_at(bytes) {
        Some((count, rest)) => some_lines(libraries, count, rest),
        None => Ok(None),
    }
}

fn some_lines<'a>(
    libraries: &mut RecentLibraries,
    count: u64,
    bytes: &'a [u8],
) -> Result<Option<(HeldReading<Vec<Line>>, &'a [u8])>, Memory>
    ensures { IfOk result (λ o. option_map (λ x. (x.0.value.items, x.1.now)) o ≡ some_get spell.line.get count bytes.now) }
{
    let list = list_for(libraries.alloc(), count, bytes.len() / 16)?;
    let mut list = HeldReading::new(list);
    let mut rest = bytes;
    for _ in 0..count {
        let Some((line, after)) = line_at(libraries, rest)? else {
            return Ok(None);
        };
        list.value.push(line)?;
        rest = after;
    }
    Ok(Some((list, rest)))
}
