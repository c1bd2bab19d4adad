//! Lines and columns of a file, found from marks along it.

ghost use Rattle.std.specs.Prelude.{◌≡◌, ◌<◌, ◌≤◌, length, min, IfOk, OnOk};
ghost use Rattle.base_data.specs.Place.{place, piece, char_size};
ghost use Rattle.run_xref.specs.Marks.{ArePlaced, IsPlaced, Leads, first_mark, next_mark, kept, mark_before};

use base_data::items::Items;
use base_data::memory::Memory;
use base_data::place::line_end;
use std::alloc::Global;

/// At most so many bytes and a piece lie between two marks.
const STRIDE: usize = 64;

/// A place in a file: how many bytes lie before it, its line and its column, both from 1.
#[derive(Clone, Copy)]
pub struct SourceMark {
    pub before: usize,
    pub line: u64,
    pub column: u64,
}

/// A line end or a character, and how many bytes it takes.
#[derive(Clone, Copy)]
struct Piece {
    ends: bool,
    size: usize,
}

fn char_size(bytes: &[u8]) -> usize
    requires { 0 < length bytes.now }
    ensures size { result ≡ char_size bytes.now }
    ensures some { 0 < result }
    ensures fits { result ≤ length bytes.now }
{
    let (found, size) = bstr::decode_utf8(bytes);
    match found {
        Some(_) => size,
        None => 1,
    }
}

/// What the bytes begin with, where a place is so many bytes away.
fn next_piece(bytes: &[u8], left: usize) -> Piece
    requires { (0 < left) × (left ≤ length bytes.now) }
    ensures ends { result.ends ≡ (piece bytes.now left).ends }
    ensures size { result.size ≡ (piece bytes.now left).size }
    ensures some { (0 < result.size) × (result.size ≤ length bytes.now) }
{
    let size = line_end(bytes);
    if 0 < size && size <= left {
        Piece { ends: true, size }
    } else {
        Piece {
            ends: false,
            size: char_size(bytes),
        }
    }
}

/// The start of a file.
fn first_mark() -> SourceMark
    ensures { result ≡ first_mark }
{
    SourceMark {
        before: 0,
        line: 1,
        column: 1,
    }
}

/// The mark behind a piece. Numbers past the greatest are refused as want of memory is.
fn moved(mark: SourceMark, piece: Piece) -> Result<SourceMark, Memory>
    ensures { IfOk result (λ m. m ≡ next_mark mark piece.size piece.ends) }
{
    let Some(before) = mark.before.checked_add(piece.size) else {
        return Err(Memory);
    };
    if piece.ends {
        let Some(line) = mark.line.checked_add(1) else {
            return Err(Memory);
        };
        return Ok(SourceMark {
            before,
            line,
            column: 1,
        });
    }
    let Some(column) = mark.column.checked_add(1) else {
        return Err(Memory);
    };
    Ok(SourceMark {
        before,
        line: mark.line,
        column,
    })
}

/// A mark at the end, if the next one would stand too far behind the last.
fn keep(marks: &mut Items<SourceMark>, mark: SourceMark, next: usize) -> Result<(), Memory>
    ensures { OnOk result (marks.new ≡ kept marks.old mark next) }
{
    if marks.as_slice().len() <= next / STRIDE {
        marks.push(mark)
    } else {
        Ok(())
    }
}

/// Marks along a file.
fn marks_of(alloc: Global, source: &[u8]) -> Result<Items<SourceMark>, Memory>
    ensures { IfOk result (λ ms. ArePlaced source.now ms) }
{
    let mut marks = Items::new(alloc);
    let mut mark = first_mark();
    let mut rest = source;
    while !rest.is_empty() {
        let piece = next_piece(rest, rest.len());
        let next = moved(mark, piece)?;
        keep(&mut marks, mark, next.before)?;
        let (_, after) = rest.split_at(piece.size);
        rest = after;
        mark = next;
    }
    Ok(marks)
}

/// The line and the column of an offset, from a mark before it.
fn walk(source: &[u8], mark: SourceMark, offset: usize) -> Result<(u64, u64), Memory>
    requires { (mark.before ≤ length source.now) × (offset ≤ length source.now) × Leads source.now offset mark }
    ensures { IfOk result (λ at. at ≡ place source.now offset) }
{
    let mut mark = mark;
    while mark.before < offset {
        let (_, rest) = source.split_at(mark.before);
        let piece = next_piece(rest, offset - mark.before);
        mark = moved(mark, piece)?;
    }
    Ok((mark.line, mark.column))
}

/// The bytes of a file, with marks along them.
#[derive(Drop)]
pub struct MarkedSource<'a> {
    pub source: &'a [u8],
    marks: Items<SourceMark>,
    ghost placed: { ArePlaced source.now marks },
}

impl<'a> MarkedSource<'a> {
    pub fn new(alloc: Global, source: &'a [u8]) -> Result<MarkedSource<'a>, Memory>
        ensures { IfOk result (λ l. l.source.now ≡ source.now) }
    {
        let marks = marks_of(alloc, source)?;
        Ok(MarkedSource { source, marks })
    }

    /// The last mark that stands so far before an offset that it is found by a division; else the start.
    fn mark_before(&self, offset: usize) -> SourceMark
        ensures { result ≡ mark_before self.now.marks offset }
    {
        let marks = self.marks.as_slice();
        let number = offset / STRIDE;
        if number < marks.len() {
            let mark = marks[number];
            if mark.before <= offset {
                return mark;
            }
        }
        first_mark()
    }

    /// The line and the column of an offset, both from 1; one past the end counts as the end. It takes as long
    /// wherever the offset lies.
    pub fn place(&self, offset: u32) -> Result<(u64, u64), Memory>
        ensures { IfOk result (λ at. at ≡ place self.now.source.now (min offset (length self.now.source.now))) }
    {
        let offset = (offset as usize).min(self.source.len());
        walk(self.source, self.mark_before(offset), offset)
    }
}
