//! Whitespace, and what ends lines and tokens (R6RS 4.2.1 and 4.2.2).

ghost use Rattle.std.specs.Prelude.{◌≡◌, ◌+◌, ◌<◌, ◌≤◌, ◌^◌, length};
ghost use Rattle.read_spelling.specs.Source.{characters};
ghost use Rattle.read_spelling.specs.Whitespace.{is_space_separator, is_whitespace, is_intraline, ends_line, is_sign, is_delimiter, is_whitespace_char, is_intraline_char, is_delimiter_char, is_delimited, whitespace_end, blanks_end, runs_on, run_end};

use crate::source::front;
use unicode::properties::{GeneralCategory, GeneralCategoryGroup};

fn is_whitespace(c: char) -> bool
    ensures { result ≡ is_whitespace c }
{
    if (c as u32) < 0x80 {
        c == ' ' || ('\t' <= c && c <= '\r')
    } else {
        c == '\u{85}' || GeneralCategoryGroup::Separator.contains(GeneralCategory::for_char(c))
    }
}

fn is_intraline(c: char) -> bool
    ensures { result ≡ is_intraline c }
{
    if (c as u32) < 0x80 {
        c == ' ' || c == '\t'
    } else {
        is_space_separator(GeneralCategory::for_char(c))
    }
}

fn is_space_separator(category: GeneralCategory) -> bool
    ensures { result ≡ is_space_separator category }
{
    matches!(category, GeneralCategory::SpaceSeparator)
}

/// Whether the character ends a line, alone or with what follows.
pub fn ends_line(c: char) -> bool
    ensures { result ≡ ends_line c }
{
    c == '\n' || c == '\r' || c == '\u{85}' || c == '\u{2028}'
}

fn is_sign(c: char) -> bool
    ensures { result ≡ is_sign c }
{
    c == '(' || c == ')' || c == '[' || c == ']' || c == '"' || c == ';' || c == '#'
}

fn is_delimiter(c: char) -> bool
    ensures { result ≡ is_delimiter c }
{
    is_sign(c) || is_whitespace(c)
}

fn is_whitespace_char(char: Option<char>) -> bool
    ensures { result ≡ is_whitespace_char char }
{
    match char {
        Some(c) => is_whitespace(c),
        None => false,
    }
}

fn is_intraline_char(char: Option<char>) -> bool
    ensures { result ≡ is_intraline_char char }
{
    match char {
        Some(c) => is_intraline(c),
        None => false,
    }
}

fn is_delimiter_char(char: Option<char>) -> bool
    ensures { result ≡ is_delimiter_char char }
{
    match char {
        Some(c) => is_delimiter(c),
        None => false,
    }
}

/// Whether there is a character, and it is no delimiter.
pub fn runs_on(char: Option<char>) -> bool
    ensures { result ≡ runs_on char }
{
    match char {
        Some(c) => !is_delimiter(c),
        None => false,
    }
}

/// Whether a delimiter or the end comes first.
pub fn is_delimited(bytes: &[u8]) -> bool
    ensures { result ≡ is_delimited (characters bytes.now) }
{
    match front(bytes) {
        Some(piece) => is_delimiter_char(piece.char),
        None => true,
    }
}

/// The offset behind a whitespace character, or `at` where none comes first.
pub fn whitespace_end(bytes: &[u8], at: u32) -> u32
    requires { at + length bytes.now < 2 ^ 32 }
    ensures gives { result ≡ whitespace_end at (characters bytes.now) }
    ensures within { (at ≤ result) × (result ≤ at + length bytes.now) }
{
    match front(bytes) {
        Some(piece) => {
            if is_whitespace_char(piece.char) {
                at + piece.size as u32
            } else {
                at
            }
        }
        None => at,
    }
}

/// The offset behind a run of intraline whitespace.
pub fn blanks_end(bytes: &[u8], from: u32) -> u32
    requires { from + length bytes.now < 2 ^ 32 }
    ensures gives { result ≡ blanks_end from (characters bytes.now) }
    ensures within { (from ≤ result) × (result ≤ from + length bytes.now) }
{
    let mut rest = bytes;
    let mut at = from;
    while let Some(piece) = front(rest) {
        if !is_intraline_char(piece.char) {
            return at;
        }
        let (_, after) = rest.split_at(piece.size);
        rest = after;
        at += piece.size as u32;
    }
    at
}

/// The offset behind a run of characters that are no delimiters.
pub fn run_end(bytes: &[u8], from: u32) -> u32
    requires { from + length bytes.now < 2 ^ 32 }
    ensures gives { result ≡ run_end from (characters bytes.now) }
    ensures within { (from ≤ result) × (result ≤ from + length bytes.now) }
{
    let mut rest = bytes;
    let mut at = from;
    while let Some(piece) = front(rest) {
        if !runs_on(piece.char) {
            return at;
        }
        let (_, after) = rest.split_at(piece.size);
        rest = after;
        at += piece.size as u32;
    }
    at
}
