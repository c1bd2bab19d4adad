//! Characters (R6RS 4.2.6).

ghost use Rattle.std.specs.Prelude.{◌≡◌, ◌+◌, ◌<◌, ◌≤◌, ◌^◌, drop, length, IfOk, nat_eq};
ghost use Rattle.std.specs.Cmp.Lexicographic.{pointwise};
ghost use Rattle.base_data.specs.Gives.{Gives};
ghost use Rattle.read_lexer.specs.Characters.{named, hex_character, long_character, character_to, character_with, character_end, character_at};

use crate::faults::refuse;
use crate::text::TokenText;
use crate::token::{Lexeme, Token};
use base_data::atom::Atom;
use base_data::fault::{FaultKind, Stop};
use base_data::symbol::Symbol;
use read_spelling::escapes::scalar_of;
use read_spelling::numbers::is_digits;
use read_spelling::source::{SourcePiece, behind, byte_at, front};
use read_spelling::whitespace::{is_delimited, run_end};
use std::alloc::Global;

/// The character whose `#\` is the first of the bytes.
pub(crate) fn character_at(
    alloc: Global,
    file: &Symbol,
    bytes: &[u8],
    from: u32,
) -> Result<Lexeme, Stop>
    requires some { 2 ≤ length bytes.now }
    requires fits { from + length bytes.now < 2 ^ 32 }
    ensures gives { Gives (λ x. x) result (character_at file.now bytes.now from) }
    ensures forward { IfOk result (λ l. (l.from ≡ from) × (from < l.to) × (l.to ≤ from + length bytes.now)) }
{
    match front(behind(bytes, 2)) {
        Some(piece) => character_with(alloc, file, bytes, from, piece),
        None => refuse(alloc, file, FaultKind::BadToken, from, from + 2),
    }
}

fn character_with(
    alloc: Global,
    file: &Symbol,
    bytes: &[u8],
    from: u32,
    first: SourcePiece,
) -> Result<Lexeme, Stop>
    requires first { (0 < first.size) × (2 + first.size ≤ length bytes.now) }
    requires fits { from + length bytes.now < 2 ^ 32 }
    ensures gives { Gives (λ x. x) result (character_with file.now bytes.now from first.char first.size) }
    ensures forward { IfOk result (λ l. (l.from ≡ from) × (from < l.to) × (l.to ≤ from + length bytes.now)) }
{
    let Some(c) = first.char else {
        return refuse(alloc, file, FaultKind::BadUtf8, from + 2, from + 3);
    };
    let to = character_end(bytes, from, first.size);
    let text = TokenText { bytes, from, to };
    let c = character_to(alloc, file, &text, c, first.size)?;
    Ok(Lexeme {
        token: Token::Atom(Atom::Char(c)),
        from,
        to,
    })
}

fn character_end(bytes: &[u8], from: u32, size: usize) -> u32
    requires some { 2 + size ≤ length bytes.now }
    requires fits { from + length bytes.now < 2 ^ 32 }
    ensures gives { result ≡ character_end bytes.now from size }
    ensures within { (from + 2 + size ≤ result) × (result ≤ from + length bytes.now) }
{
    run_end(behind(bytes, 2 + size), from + 2 + size as u32)
}

/// The character that a text spells whose first character behind `#\` is `c`.
fn character_to(
    alloc: Global,
    file: &Symbol,
    text: &TokenText,
    c: char,
    size: usize,
) -> Result<char, Stop>
    requires within { (text.now.from + 2 + size ≤ text.now.to) × (text.now.to ≤ text.now.from + length text.now.bytes.now) }
    requires fits { text.now.from + length text.now.bytes.now < 2 ^ 32 }
    ensures { Gives (λ x. x) result (character_to file.now text.now.bytes.now text.now.from c size text.now.to) }
{
    let (spelling, after) = text.bytes.split_at((text.to - text.from) as usize);
    if !is_delimited(after) {
        return refuse(alloc, file, FaultKind::BadToken, text.from, text.to);
    }
    if text.to == text.from + 2 + size as u32 {
        return Ok(c);
    }
    long_character(alloc, file, text.from, text.to, behind(spelling, 2))
}

/// The character that a text of more than one character spells.
fn long_character(
    alloc: Global,
    file: &Symbol,
    from: u32,
    to: u32,
    text: &[u8],
) -> Result<char, Stop>
    ensures { Gives (λ x. x) result (long_character file.now from to text.now) }
{
    match named(text) {
        Some(c) => Ok(c),
        None => hex_character(alloc, file, from, to, text),
    }
}

fn hex_character(
    alloc: Global,
    file: &Symbol,
    from: u32,
    to: u32,
    text: &[u8],
) -> Result<char, Stop>
    ensures { Gives (λ x. x) result (hex_character file.now from to text.now) }
{
    let digits = behind(text, 1);
    if byte_at(text, 0) != b'x' || !is_digits(16, digits) {
        return refuse(alloc, file, FaultKind::BadToken, from, to);
    }
    match scalar_of(digits) {
        Some(c) => Ok(c),
        None => refuse(alloc, file, FaultKind::BadEscape, from, to),
    }
}

/// The character with a name.
fn named(name: &[u8]) -> Option<char>
    ensures { result ≡ named name.now }
{
    if is_text(name, "nul") {
        Some('\0')
    } else if is_text(name, "alarm") {
        Some('\u{7}')
    } else if is_text(name, "backspace") {
        Some('\u{8}')
    } else if is_text(name, "tab") {
        Some('\t')
    } else if is_text(name, "linefeed") {
        Some('\n')
    } else if is_text(name, "newline") {
        Some('\n')
    } else if is_text(name, "vtab") {
        Some('\u{B}')
    } else if is_text(name, "page") {
        Some('\u{C}')
    } else if is_text(name, "return") {
        Some('\r')
    } else if is_text(name, "esc") {
        Some('\u{1B}')
    } else if is_text(name, "space") {
        Some(' ')
    } else if is_text(name, "delete") {
        Some('\u{7F}')
    } else {
        None
    }
}

fn is_text(bytes: &[u8], text: &str) -> bool
    ensures { result ≡ pointwise nat_eq bytes.now text.now }
{
    bytes == text.as_bytes()
}
