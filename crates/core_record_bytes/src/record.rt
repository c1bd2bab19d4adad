//! Whole records as bytes.

ghost use Rattle.std.specs.Prelude.{◌≡◌, IfOk, Some, None, option_map, if◌then◌else◌};
ghost use Rattle.base_bytes.specs.Codec.{checked, listed, ◌then◌};
ghost use Rattle.base_bytes.specs.Names.{label, library};
ghost use Rattle.base_bytes.specs.Puts.{PutsIf};
ghost use Rattle.core_codec.specs.Contexts.{frame_row};
ghost use Rattle.core_codec.specs.Records as spell;

use crate::bindings::{bindings_at, put_bindings};
use crate::lines::{lines_at, put_lines};
use crate::rows::{put_rows, rows_at};
use base_bytes::libraries::RecentLibraries;
use base_bytes::spelled::Spelled;
use base_data::items::Items;
use base_data::library::LibName;
use base_data::memory::Memory;
use base_data::name::Label;
use base_data::symbol::Symbol;
use core_language::binding::Binding;
use core_language::record::{CompiledLibrary, Line};
use core_pattern_bytes::held::HeldReading;
use std::alloc::Global;
use stx_tree::frame_row::FrameRow;

/// Adds what stands behind the exports of a record.
fn put_body(out: &mut Vec<u8>, alloc: Global, record: &CompiledLibrary) -> Result<bool, Memory>
    ensures { IfOk result (λ b. PutsIf (checked spell.bindings_rise (listed (label then spell.binding))
        then checked spell.rows_rise (listed frame_row) then listed spell.line then listed library)
        (record.now.bindings, (record.now.frames, (record.now.run, record.now.refs))) out.old.items out.new.items b) }
{
    if !put_bindings(out, alloc, record.bindings.as_slice())? {
        return Ok(false);
    }
    if !put_rows(out, alloc, record.frames.as_slice())? {
        return Ok(false);
    }
    if !put_lines(out, alloc, record.run.as_slice())? {
        return Ok(false);
    }
    record.refs.put(out)?;
    Ok(true)
}

/// Adds the spelling of a record, where it has one.
#[tactic(auto, unfolding(core_codec::specs::Records::lib_record))]
pub fn put_record(
    out: &mut Vec<u8>,
    alloc: Global,
    record: &CompiledLibrary,
) -> Result<bool, Memory>
    ensures { IfOk result (λ b. PutsIf spell.lib_record record.now out.old.items out.new.items b) }
{
    record.path.put(out)?;
    record.name.put(out)?;
    record.version.put(out)?;
    record.exports.put(out)?;
    put_body(out, alloc, record)
}

/// What stands behind the exports of a record.
#[derive(Drop)]
struct RecordBody {
    bindings: HeldReading<Vec<(Label, Binding)>>,
    frames: Vec<FrameRow>,
    run: HeldReading<Vec<Line>>,
    refs: Items<LibName>,
}

fn body_at<'a>(
    libraries: &mut RecentLibraries,
    beside: &[FrameRow],
    bytes: &'a [u8],
) -> Result<Option<(RecordBody, &'a [u8])>, Memory>
    ensures { IfOk result (λ o. option_map (λ x. ((x.0.bindings.value.items, (x.0.frames.items, (x.0.run.value.items, x.0.refs))), x.1.now)) o
        ≡ (checked spell.bindings_rise (listed (label then spell.binding)) then checked spell.rows_rise (listed frame_row)
        then listed spell.line then listed library).get bytes.now) }
{
    let Some((bindings, rest)) = bindings_at(libraries, bytes)? else {
        return Ok(None);
    };
    let Some((frames, rest)) = rows_at(libraries, beside, rest)? else {
        return Ok(None);
    };
    let Some((run, rest)) = lines_at(libraries, rest)? else {
        return Ok(None);
    };
    let Some((refs, rest)) = Spelled::at(libraries, rest)? else {
        return Ok(None);
    };
    let body = RecordBody {
        bindings,
        frames,
        run,
        refs,
    };
    Ok(Some((body, rest)))
}

/// The record that the bytes begin with, and the bytes behind it. Where rows beside its own have the same symbols in the
/// same order, those are shared.
#[tactic(auto, unfolding(core_codec::specs::Records::lib_record))]
pub fn record_at<'a>(
    libraries: &mut RecentLibraries,
    beside: &[FrameRow],
    bytes: &'a [u8],
) -> Result<Option<(HeldReading<CompiledLibrary>, &'a [u8])>, Memory>
    ensures { IfOk result (λ o. option_map (λ x. (x.0.value, x.1.now)) o ≡ spell.lib_record.get bytes.now) }
{
    let Some((path, rest)) = Symbol::at(libraries, bytes)? else {
        return Ok(None);
    };
    let Some((name, rest)) = LibName::at(libraries, rest)? else {
        return Ok(None);
    };
    let Some((version, rest)) = Spelled::at(libraries, rest)? else {
        return Ok(None);
    };
    let Some((exports, rest)) = Spelled::at(libraries, rest)? else {
        return Ok(None);
    };
    let Some((body, rest)) = body_at(libraries, beside, rest)? else {
        return Ok(None);
    };
    let record = CompiledLibrary {
        path,
        name,
        version,
        exports,
        bindings: Items::from_vec(body.bindings.take()),
        frames: Items::from_vec(body.frames),
        run: Items::from_vec(body.run.take()),
        refs: body.refs,
    };
    Ok(Some((HeldReading::new(record), rest)))
}

/// The spelling of a record, or nothing where it has none: its bindings or rows don't rise, its core code isn't
/// well made, or something in it is beyond the limits of height and size.
pub fn encode(alloc: Global, record: &CompiledLibrary) -> Result<Option<Vec<u8>>, Memory>
    ensures { IfOk result (λ o. option_map (λ v. v.items) o ≡ (if spell.has_spelling record.now then Some (spell.encode record.now) else None)) }
{
    let mut out = Vec::new(alloc);
    if put_record(&mut out, alloc, record)? {
        Ok(Some(out))
    } else {
        Ok(None)
    }
}

/// What a record is decoded with.
#[derive(Drop)]
pub struct Decoding<'a> {
    pub alloc: Global,
    /// Rows of another record. Libraries that import the same names have rows of the same symbols in the same order, and
    /// share them.
    pub beside: &'a [FrameRow],
}

/// The record that all of the bytes spell, or nothing where they spell none.
pub fn decode_beside(decoding: &Decoding, bytes: &[u8]) -> Result<Option<CompiledLibrary>, Memory>
    ensures { IfOk result (λ o. o ≡ spell.decode bytes.now) }
{
    let mut libraries = RecentLibraries::new(decoding.alloc);
    match record_at(&mut libraries, decoding.beside, bytes)? {
        Some((record, rest)) => {
            if rest.is_empty() {
                Ok(Some(record.take()))
            } else {
                Ok(None)
            }
        }
        None => Ok(None),
    }
}

/// The record that all of the bytes spell, or nothing where they spell none.
pub fn decode(alloc: Global, bytes: &[u8]) -> Result<Option<CompiledLibrary>, Memory>
    ensures { IfOk result (λ o. o ≡ spell.decode bytes.now) }
{
    let decoding = Decoding { alloc, beside: &[] };
    decode_beside(&decoding, bytes)
}
