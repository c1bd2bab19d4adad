//! Rows of frames as bytes.

ghost use Rattle.std.specs.Prelude.{◌≡◌, IfOk, IsTrue, OnOk, option_map};
ghost use Rattle.base_bytes.specs.Codec as spec;
ghost use Rattle.base_bytes.specs.Codec.{checked, listed, some_get};
ghost use Rattle.base_bytes.specs.Puts.{Puts, PutsIf};
ghost use Rattle.base_data.specs.NameOrder.{name_cmp};
ghost use Rattle.core_codec.specs.Contexts.{frame_row};
ghost use Rattle.core_codec.specs.Records as spell;

use base_bytes::libraries::RecentLibraries;
use base_bytes::numbers::{put_u64, u64_at};
use base_bytes::room::list_for;
use base_bytes::spelled::Spelled;
use base_bytes::texts::text_at;
use base_data::memory::Memory;
use base_data::name::{FrameNo, Label};
use base_data::symbol::Symbol;
use core_tree_bytes::contexts::{marks_at, put_marks};
use std::alloc::Global;
use std::cmp::Ordering;
use stx_tree::frame_row::FrameRow;

#[tactic(auto, unfolding(core_codec::specs::Contexts::frame_row))]
fn put_row(out: &mut Vec<u8>, alloc: Global, row: &FrameRow) -> Result<(), Memory>
    ensures { OnOk result (Puts frame_row row.now out.old.items out.new.items) }
{
    row.frame.put(out)?;
    row.symbol.put(out)?;
    put_marks(out, alloc, &row.marks)?;
    row.label.put(out)
}

fn has_text(row: &FrameRow, text: &str) -> bool
    ensures { IsTrue result → row.now.symbol ≡ text.now }
{
    row.symbol.as_str().as_bytes() == text.as_bytes()
}

/// The symbol of a text: another owner of that of the next row or of the row behind it, where one has the text. The rows
/// behind that one come next.
fn symbol_beside(alloc: Global, beside: &mut &[FrameRow], text: &str) -> Result<Symbol, Memory>
    ensures { IfOk result (λ s. s ≡ text.now) }
{
    let rows = *beside;
    match rows {
        [row, rest @ ..] if has_text(row, text) => {
            *beside = rest;
            row.symbol.share()
        }
        [_, row, rest @ ..] if has_text(row, text) => {
            *beside = rest;
            row.symbol.share()
        }
        _ => Symbol::new(alloc, text),
    }
}

fn symbol_at<'a>(
    alloc: Global,
    beside: &mut &[FrameRow],
    bytes: &'a [u8],
) -> Result<Option<(Symbol, &'a [u8])>, Memory>
    ensures { IfOk result (λ o. option_map (λ x. (x.0, x.1.now)) o ≡ spec.text.get bytes.now) }
{
    let Some((found, rest)) = text_at(bytes) else {
        return Ok(None);
    };
    let symbol = symbol_beside(alloc, beside, found)?;
    Ok(Some((symbol, rest)))
}

#[tactic(auto, unfolding(core_codec::specs::Contexts::frame_row))]
fn row_at<'a>(
    libraries: &mut RecentLibraries,
    beside: &mut &[FrameRow],
    bytes: &'a [u8],
) -> Result<Option<(FrameRow, &'a [u8])>, Memory>
    ensures { IfOk result (λ o. option_map (λ x. (x.0, x.1.now)) o ≡ frame_row.get bytes.now) }
{
    let Some((frame, rest)) = FrameNo::at(libraries, bytes)? else {
        return Ok(None);
    };
    let Some((symbol, rest)) = symbol_at(libraries.alloc(), beside, rest)? else {
        return Ok(None);
    };
    let Some((marks, rest)) = marks_at(libraries, rest)? else {
        return Ok(None);
    };
    let Some((label, rest)) = Label::at(libraries, rest)? else {
        return Ok(None);
    };
    let row = FrameRow {
        frame,
        symbol,
        marks,
        label,
    };
    Ok(Some((row, rest)))
}

/// Whether no row's frame comes before that of the row before it.
fn rows_rise(rows: &[FrameRow]) -> bool
    ensures { result ≡ spell.rows_rise rows.now }
{
    match rows {
        [] => true,
        [first, rest @ ..] => rows_rise_on(&first.frame, rest),
    }
}

fn is_at_most(ordering: Ordering) -> bool
    ensures { result ≡ spell.is_at_most ordering }
{
    match ordering {
        Ordering::Less => true,
        Ordering::Equal => true,
        Ordering::Greater => false,
    }
}

/// Whether a frame comes no later than another. Most frames that are compared are of one library, and it takes less to tell
/// so than to order two libraries.
#[tactic(auto, using(crate::proofs::Frames::by_number))]
fn comes_no_later(frame: &FrameNo, next: &FrameNo) -> bool
    ensures { result ≡ spell.is_at_most (name_cmp frame.now.0 next.now.0) }
{
    if *frame.0.library == *next.0.library {
        return is_at_most(frame.0.number.cmp(&next.0.number));
    }
    is_at_most(frame.0.cmp(&next.0))
}

fn rows_rise_on(frame: &FrameNo, rows: &[FrameRow]) -> bool
    ensures { result ≡ spell.rows_rise_on frame.now rows.now }
{
    let mut before = frame;
    let mut left = rows;
    while let [next, rest @ ..] = left {
        if !comes_no_later(before, &next.frame) {
            return false;
        }
        before = &next.frame;
        left = rest;
    }
    true
}

/// Adds rows, which rise by their frames.
pub(crate) fn put_rows(out: &mut Vec<u8>, alloc: Global, rows: &[FrameRow]) -> Result<bool, Memory>
    ensures { IfOk result (λ b. PutsIf (checked spell.rows_rise (listed frame_row)) rows.now out.old.items out.new.items b) }
{
    if !rows_rise(rows) {
        return Ok(false);
    }
    put_all(out, alloc, rows)?;
    Ok(true)
}

fn put_all(out: &mut Vec<u8>, alloc: Global, rows: &[FrameRow]) -> Result<(), Memory>
    ensures { OnOk result (Puts (listed frame_row) rows.now out.old.items out.new.items) }
{
    put_u64(out, rows.len() as u64)?;
    for row in rows {
        put_row(out, alloc, row)?;
    }
    Ok(())
}

/// The rows that the bytes begin with, where they rise by their frames, and the bytes behind them. Where rows beside them
/// have the same symbols in the same order, those are shared.
pub(crate) fn rows_at<'a>(
    libraries: &mut RecentLibraries,
    beside: &[FrameRow],
    bytes: &'a [u8],
) -> Result<Option<(Vec<FrameRow>, &'a [u8])>, Memory>
    ensures { IfOk result (λ o. option_map (λ x. (x.0.items, x.1.now)) o ≡ (checked spell.rows_rise (listed frame_row)).get bytes.now) }
{
    let Some((rows, rest)) = all_at(libraries, beside, bytes)? else {
        return Ok(None);
    };
    if !rows_rise(&rows) {
        return Ok(None);
    }
    Ok(Some((rows, rest)))
}

fn all_at<'a>(
    libraries: &mut RecentLibraries,
    beside: &[FrameRow],
    bytes: &'a [u8],
) -> Result<Option<(Vec<FrameRow>, &'a [u8])>, Memory>
    ensures { IfOk result (λ o. option_map (λ x. (x.0.items, x.1.now)) o ≡ (listed frame_row).get bytes.now) }
{
    match u64_at(bytes) {
        Some((count, rest)) => some_rows(libraries, beside, count, rest),
        None => Ok(None),
    }
}

fn some_rows<'a>(
    libraries: &mut RecentLibraries,
    beside: &[FrameRow],
    count: u64,
    bytes: &'a [u8],
) -> Result<Option<(Vec<FrameRow>, &'a [u8])>, Memory>
    ensures { IfOk result (λ o. option_map (λ x. (x.0.items, x.1.now)) o ≡ some_get frame_row.get count bytes.now) }
{
    let mut list = list_for(libraries.alloc(), count, bytes.len() / 32)?;
    let mut beside = beside;
    let mut rest = bytes;
    for _ in 0..count {
        let Some((row, after)) = row_at(libraries, &mut beside, rest)? else {
            return Ok(None);
        };
        list.push(row)?;
        rest = after;
    }
    Ok(Some((list, rest)))
}
