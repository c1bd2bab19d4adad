//! Strings (R6RS 4.2.7).

ghost use Rattle.std.specs.Prelude.{◌≡◌, ◌+◌, ◌<◌, ◌≤◌, ◌^◌, ◌++◌, drop, length, IfOk, OnOk, slice_index};
ghost use Rattle.std.specs.String.{string_bytes};
ghost use Rattle.base_data.specs.Gives.{Gives};
ghost use Rattle.base_data.specs.Place.{line_end};
ghost use Rattle.read_spelling.specs.Numbers.{digits_size};
ghost use Rattle.read_spelling.specs.Source.{characters, piece};
ghost use Rattle.read_lexer.specs.Faults.{refused};
ghost use Rattle.read_lexer.specs.Strings.{char_here, simple_escape, hex_part, line_part, escape_part, line_or_char, string_part, char_text, string_at};

use crate::faults::refuse;
use crate::token::{Lexeme, Token};
use base_data::atom::Atom;
use base_data::fault::{FaultKind, Stop};
use base_data::place::line_end;
use base_data::symbol::Symbol;
use read_spelling::escapes::escape;
use read_spelling::numbers::digits_size;
use read_spelling::source::{SourcePiece, behind, byte_at, front};
use read_spelling::whitespace::blanks_end;
use std::alloc::{AllocError, Global};

/// The string that is read: the file that spans and faults name, and the offset of the opening quote.
#[derive(Drop)]
struct StringContext<'a> {
    alloc: Global,
    file: &'a Symbol,
    quote: u32,
}

impl<'a> StringContext<'a> {
    fn refuse(&self, kind: FaultKind, from: u32, to: u32) -> Result<SourcePiece, Stop>
        ensures { Gives (λ p. piece p.char p.size) result (refused self.now.file.now kind from to) }
    {
        refuse(self.alloc, self.file, kind, from, to)
    }
}

/// The string whose opening quote is the first of the bytes.
pub(crate) fn string_at(
    alloc: Global,
    file: &Symbol,
    bytes: &[u8],
    from: u32,
) -> Result<Lexeme, Stop>
    requires some { 0 < length bytes.now }
    requires fits { from + length bytes.now < 2 ^ 32 }
    ensures gives { Gives (λ x. x) result (string_at file.now bytes.now from) }
    ensures forward { IfOk result (λ l. (l.from ≡ from) × (from < l.to) × (l.to ≤ from + length bytes.now)) }
{
    let mut text = String::new(alloc);
    let (_, mut rest) = bytes.split_at(1);
    let mut at = from + 1;
    let context = StringContext {
        alloc,
        file,
        quote: from,
    };
    loop {
        if byte_at(rest, 0) == b'"' {
            let text = Symbol::from_string(text)?;
            return Ok(Lexeme {
                token: Token::Atom(Atom::Str(text)),
                from,
                to: at + 1,
            });
        }
        let part = string_part(&context, rest, at)?;
        push_char(&mut text, part.char)?;
        let (_, after) = rest.split_at(part.size);
        rest = after;
        at += part.size as u32;
    }
}

fn push_char(text: &mut String, char: Option<char>) -> Result<(), AllocError>
    ensures { OnOk result (string_bytes text.new ≡ string_bytes text.old ++ char_text char) }
{
    match char {
        Some(c) => text.push(c),
        None => Ok(()),
    }
}

/// What the string goes on with at `at`: the character that it stands for, if any, and how many
/// bytes it takes.
#[tactic(auto, unfolding(crate::specs::Strings::string_part))]
fn string_part(context: &StringContext, bytes: &[u8], at: u32) -> Result<SourcePiece, Stop>
    requires quoted { context.now.quote < at }
    requires fits { at + length bytes.now < 2 ^ 32 }
    ensures gives { Gives (λ p. piece p.char p.size) result (string_part context.now.file.now context.now.quote bytes.now at) }
    ensures size { IfOk result (λ p. (0 < p.size) × (p.size ≤ length bytes.now)) }
{
    if byte_at(bytes, 0) == b'\\' {
        return escape_part(context, bytes, at);
    }
    let size = line_end(bytes);
    if size == 0 {
        return char_here(context, bytes, at);
    }
    Ok(SourcePiece {
        char: Some('\n'),
        size,
    })
}

/// The character with which the string goes on at `at`.
fn char_here(context: &StringContext, bytes: &[u8], at: u32) -> Result<SourcePiece, Stop>
    requires quoted { context.now.quote < at }
    requires fits { at + length bytes.now < 2 ^ 32 }
    ensures gives { Gives (λ p. piece p.char p.size) result (char_here context.now.file.now context.now.quote at (characters bytes.now)) }
    ensures size { IfOk result (λ p. (0 < p.size) × (p.size ≤ length bytes.now)) }
{
    match front(bytes) {
        Some(
            SourcePiece {
                char: Some(c),
                size,
            },
        ) => Ok(SourcePiece {
            char: Some(c),
            size,
        }),
        Some(
            SourcePiece {
                char: None,
                size: _,
            },
        ) => context.refuse(FaultKind::BadUtf8, at, at + 1),
        None => context.refuse(FaultKind::Unclosed, context.quote, context.quote + 1),
    }
}

/// What a letter, a quote or a backslash stands for behind a backslash.
fn simple_escape(b: u8) -> Option<char>
    ensures { result ≡ simple_escape b }
{
    match b {
        b'a' => Some('\u{7}'),
        b'b' => Some('\u{8}'),
        b't' => Some('\t'),
        b'n' => Some('\n'),
        b'v' => Some('\u{B}'),
        b'f' => Some('\u{C}'),
        b'r' => Some('\r'),
        b'"' => Some('"'),
        b'\\' => Some('\\'),
        _ => None,
    }
}

/// What the backslash at `at` begins, which is the first of the bytes.
fn escape_part(context: &StringContext, bytes: &[u8], at: u32) -> Result<SourcePiece, Stop>
    requires some { 0 < length bytes.now }
    requires quoted { context.now.quote < at }
    requires fits { at + length bytes.now < 2 ^ 32 }
    ensures gives { Gives (λ p. piece p.char p.size) result
        (escape_part context.now.file.now context.now.quote bytes.now at (simple_escape (slice_index bytes.now 1))) }
    ensures size { IfOk result (λ p. (0 < p.size) × (p.size ≤ length bytes.now)) }
{
    let b = byte_at(bytes, 1);
    if let Some(c) = simple_escape(b) {
        return Ok(SourcePiece {
            char: Some(c),
            size: 2,
        });
    }
    if b == b'x' {
        return hex_part(context, digits_size(16, behind(bytes, 2)), bytes, at);
    }
    let here = blanks_end(behind(bytes, 1), at + 1);
    let (_, rest) = bytes.split_at((here - at) as usize);
    line_part(context, at, rest, here)
}

/// The escape `\xHEX;` at `at`, which has `n` digits.
fn hex_part(context: &StringContext, n: usize, bytes: &[u8], at: u32) -> Result<SourcePiece, Stop>
    requires digits { n + 2 ≤ length bytes.now }
    requires quoted { context.now.quote < at }
    requires fits { at + length bytes.now < 2 ^ 32 }
    ensures gives { Gives (λ p. piece p.char p.size) result (hex_part context.now.file.now context.now.quote at n bytes.now) }
    ensures size { IfOk result (λ p. (0 < p.size) × (p.size ≤ length bytes.now)) }
{
    let _end = char_here(context, behind(bytes, 2 + n), at + 2 + n as u32)?;
    match escape(bytes) {
        Some(letter) => Ok(SourcePiece {
            char: Some(letter.char),
            size: letter.size,
        }),
        None => context.refuse(FaultKind::BadEscape, context.quote, at),
    }
}

/// Behind a backslash at `at` and blanks: a line end and blanks, which stand for nothing.
fn line_part(context: &StringContext, at: u32, rest: &[u8], here: u32) -> Result<SourcePiece, Stop>
    requires quoted { context.now.quote < at }
    requires forward { at < here }
    requires fits { here + length rest.now < 2 ^ 32 }
    ensures gives { Gives (λ p. piece p.char p.size) result (line_part context.now.file.now context.now.quote at here (line_end rest.now) rest.now) }
    ensures size { IfOk result (λ p. (0 < p.size) × (at + p.size ≤ here + length rest.now)) }
{
    let _end = char_here(context, rest, here)?;
    let n = line_end(rest);
    if n == 0 {
        return context.refuse(FaultKind::BadEscape, context.quote, at);
    }
    let to = blanks_end(behind(rest, n), here + n as u32);
    Ok(SourcePiece {
        char: None,
        size: (to - at) as usize,
    })
}
