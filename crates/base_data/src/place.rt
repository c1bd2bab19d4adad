//! Lines and columns.

ghost use Rattle.std.specs.Prelude.{◌≡◌, ◌<◌, ◌≤◌, ◌^◌, length, slice_index};
ghost use Rattle.base_data.specs.Place.{place, piece, moved, line_end, char_size};

/// A line end or a character, and how many bytes it takes.
#[derive(Drop)]
struct Piece {
    ends: bool,
    size: usize,
}

/// The line and the column of an offset, both from 1. A line ends at U+000A, U+000D, U+000D U+000A,
/// U+0085, U+000D U+0085 or U+2028 (R6RS 4.2.2). A column counts characters; a byte that is in no
/// UTF-8 sequence counts as one. It takes no memory.
pub fn line_and_column(source: &[u8], offset: u32) -> (u64, u64)
    requires { offset ≤ length source.now }
    ensures { result ≡ place source.now offset }
{
    let mut rest = source;
    let mut left = offset as usize;
    let mut at = (1, 1);
    while left > 0 {
        let piece = next_piece(rest, left);
        at = moved(at, piece.ends);
        let (_, after) = rest.split_at(piece.size);
        rest = after;
        left = left.saturating_sub(piece.size);
    }
    at
}

fn moved(at: (u64, u64), ends: bool) -> (u64, u64)
    requires { (at.0 < 2 ^ 63) × (at.1 < 2 ^ 63) }
    ensures { result ≡ moved at ends }
{
    if ends {
        (at.0 + 1, 1)
    } else {
        (at.0, at.1 + 1)
    }
}

fn next_piece(bytes: &[u8], left: usize) -> Piece
    requires { (0 < left) × (left ≤ length bytes.now) }
    ensures ends { result.ends ≡ (piece bytes.now left).ends }
    ensures size { result.size ≡ (piece bytes.now left).size }
    ensures some { (0 < result.size) × (result.size ≤ length bytes.now) }
{
    let size = line_end(bytes);
    if 0 < size && size <= left {
        Piece { ends: true, size }
    } else {
        Piece {
            ends: false,
            size: char_size(bytes),
        }
    }
}

fn byte_at(bytes: &[u8], i: usize) -> u8
    ensures { result ≡ slice_index bytes.now i }
{
    if i < bytes.len() { bytes[i] } else { 0 }
}

/// How many bytes the line end takes that the bytes begin with, or 0 where none comes.
pub fn line_end(bytes: &[u8]) -> usize
    ensures { result ≡ line_end bytes.now }
{
    let b = byte_at(bytes, 0);
    let c = byte_at(bytes, 1);
    let d = byte_at(bytes, 2);
    if b == b'\n' {
        1
    } else if b == b'\r' {
        if c == b'\n' {
            2
        } else if c == 0xC2 && d == 0x85 {
            3
        } else {
            1
        }
    } else if b == 0xC2 && c == 0x85 {
        2
    } else if b == 0xE2 && c == 0x80 && d == 0xA8 {
        3
    } else {
        0
    }
}

fn char_size(bytes: &[u8]) -> usize
    ensures size { result ≡ char_size bytes.now }
    ensures some { 0 < length bytes.now → 0 < result }
    ensures fits { 0 < length bytes.now → result ≤ length bytes.now }
{
    let (found, size) = bstr::decode_utf8(bytes);
    match found {
        Some(_) => size,
        None => 1,
    }
}
