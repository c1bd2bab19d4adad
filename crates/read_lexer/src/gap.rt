//! What stands between tokens: whitespace and comments (R6RS 4.2.3).

ghost use Rattle.std.specs.Prelude.{◌≡◌, ◌+◌, ◌<◌, ◌≤◌, ◌^◌, ◌∷◌, [], length, IfOk, None};
ghost use Rattle.base_data.specs.Gives.{Gives};
ghost use Rattle.read_lexer.specs.Gap.{gap_end, atmosphere_end, rest_of_line, ends_there, is_char, opens_comment, closes_comment, comment_from, innermost};
ghost use Rattle.read_spelling.specs.Source.{characters};

use crate::faults::refuse;
use base_data::fault::{FaultKind, Stop};
use base_data::symbol::Symbol;
use read_spelling::source::{byte_at, front};
use read_spelling::whitespace::{ends_line, is_delimited, whitespace_end};
use std::alloc::Global;

/// What a line goes up to.
#[derive(Clone, Copy)]
pub enum Until {
    LineEnd,
    /// A line end or U+2029.
    LineOrParagraphEnd,
}

/// The offset behind the gap with which the bytes at `at` begin.
pub(crate) fn gap_end(alloc: Global, file: &Symbol, bytes: &[u8], at: u32) -> Result<u32, Stop>
    requires { at + length bytes.now < 2 ^ 32 }
    ensures gives { Gives (λ x. x) result (gap_end file.now bytes.now at) }
    ensures within { IfOk result (λ to. (at ≤ to) × (to ≤ at + length bytes.now)) }
{
    let mut rest = bytes;
    let mut here = at;
    loop {
        let to = atmosphere_end(alloc, file, rest, here)?;
        if to == here {
            return Ok(here);
        }
        let (_, after) = rest.split_at((to - here) as usize);
        rest = after;
        here = to;
    }
}

/// The offset behind the whitespace character or the comment that the bytes at `at` begin with, or
/// `at` where neither comes.
#[tactic(auto, unfolding(crate::specs::Gap::atmosphere_end))]
fn atmosphere_end(alloc: Global, file: &Symbol, bytes: &[u8], at: u32) -> Result<u32, Stop>
    requires { at + length bytes.now < 2 ^ 32 }
    ensures gives { Gives (λ x. x) result (atmosphere_end file.now bytes.now at) }
    ensures within { IfOk result (λ to. (at ≤ to) × (to ≤ at + length bytes.now)) }
{
    if byte_at(bytes, 0) == b';' {
        let (_, after) = bytes.split_at(1);
        return rest_of_line(alloc, file, after, Until::LineOrParagraphEnd, at + 1);
    }
    if bytes.starts_with(b"#|") {
        let (_, after) = bytes.split_at(2);
        return comment_end(alloc, file, after, at);
    }
    if bytes.starts_with(b"#!r6rs") {
        let (_, after) = bytes.split_at(6);
        if is_delimited(after) {
            return Ok(at + 6);
        }
    }
    Ok(whitespace_end(bytes, at))
}

/// The offset of what ends the line, or of the end of the source.
pub(crate) fn rest_of_line(
    alloc: Global,
    file: &Symbol,
    bytes: &[u8],
    until: Until,
    from: u32,
) -> Result<u32, Stop>
    requires { from + length bytes.now < 2 ^ 32 }
    ensures gives { Gives (λ x. x) result (rest_of_line file.now until from (characters bytes.now)) }
    ensures within { IfOk result (λ to. (from ≤ to) × (to ≤ from + length bytes.now)) }
{
    let mut rest = bytes;
    let mut at = from;
    while let Some(piece) = front(rest) {
        if piece.char.is_none() {
            return refuse(alloc, file, FaultKind::BadUtf8, at, at + 1);
        }
        if ends_there(until, piece.char) {
            return Ok(at);
        }
        let (_, after) = rest.split_at(piece.size);
        rest = after;
        at += piece.size as u32;
    }
    Ok(at)
}

fn ends_there(until: Until, char: Option<char>) -> bool
    ensures { result ≡ ends_there until char }
{
    match char {
        Some(c) => match until {
            Until::LineEnd => ends_line(c),
            Until::LineOrParagraphEnd => ends_line(c) || c == '\u{2029}',
        },
        None => false,
    }
}

/// The offset behind a nested comment, of which the `#|` at `opening` was read.
fn comment_end(alloc: Global, file: &Symbol, bytes: &[u8], opening: u32) -> Result<u32, Stop>
    requires { opening + 2 + length bytes.now < 2 ^ 32 }
    ensures gives { Gives (λ x. x) result (comment_from file.now (opening ∷ []) None (opening + 2) (characters bytes.now)) }
    ensures within { IfOk result (λ to. (opening + 2 ≤ to) × (to ≤ opening + 2 + length bytes.now)) }
{
    let mut rest = bytes;
    let mut at = opening + 2;
    let mut last = None;
    let mut opens = Vec::new(alloc);
    opens.push(opening)?;
    while let Some(piece) = front(rest) {
        if piece.char.is_none() {
            return refuse(alloc, file, FaultKind::BadUtf8, at, at + 1);
        }
        let here = at;
        let (_, after) = rest.split_at(piece.size);
        rest = after;
        at += piece.size as u32;
        if closes_comment(last, piece.char) {
            if opens.len() == 1 {
                return Ok(at);
            }
            opens.truncate(opens.len() - 1);
            last = None;
        } else if opens_comment(last, piece.char) {
            opens.push(here - 1)?;
            last = None;
        } else {
            last = piece.char;
        }
    }
    let innermost = opens[opens.len() - 1];
    refuse(alloc, file, FaultKind::Unclosed, innermost, innermost + 2)
}

fn is_char(c: char, char: Option<char>) -> bool
    ensures { result ≡ is_char c char }
{
    match char {
        Some(d) => c == d,
        None => false,
    }
}

/// Whether the two are `#|`.
fn opens_comment(last: Option<char>, char: Option<char>) -> bool
    ensures { result ≡ opens_comment last char }
{
    is_char('#', last) && is_char('|', char)
}

/// Whether the two are `|#`.
fn closes_comment(last: Option<char>, char: Option<char>) -> bool
    ensures { result ≡ closes_comment last char }
{
    is_char('|', last) && is_char('#', char)
}
