//! Tokens, one after another (R6RS 4.2.1).

ghost use Rattle.std.specs.Prelude.{◌≡◌, ◌+◌, ◌-◌, ◌<◌, ◌≤◌, ◌^◌, length, take, drop, IfOk, IfSome, slice_index, true};
ghost use Rattle.base_data.specs.Gives.{Gives};
ghost use Rattle.read_spelling.specs.Identifiers.{identifier};
ghost use Rattle.read_spelling.specs.Source.{characters};
ghost use Rattle.read_lexer.specs.Tokens.{next_lexeme, lexeme_at, hash_at, word_at, marked_at, integer_in, radix, is_number_mark, unquoting, bare_at, bare_to, bare, bare_end, bare_step, char_end, no_identifier, number_of, begins_number, is_dot, is_true, is_false, lexeme};

use crate::characters::character_at;
use crate::faults::refuse;
use crate::gap::gap_end;
use crate::names::SymbolTable;
use crate::strings::string_at;
use crate::text::TokenText;
use crate::token::{Abbreviation, Bracket, Lexeme, Token};
use base_data::atom::Atom;
use base_data::fault::{FaultKind, Stop};
use base_data::memory::Memory;
use base_data::symbol::Symbol;
use read_spelling::escapes::escape;
use read_spelling::identifiers::{identifier_of, plain_identifier};
use read_spelling::numbers::{integer_of, is_integer, spelt};
use read_spelling::source::{behind, byte_at, front};
use read_spelling::whitespace::{is_delimited, run_end, runs_on};
use std::alloc::Global;

/// The lexeme behind the gap at `at`, or none where the source ends there.
pub fn next_lexeme(
    names: &mut SymbolTable,
    file: &Symbol,
    bytes: &[u8],
    at: u32,
) -> Result<Option<Lexeme>, Stop>
    requires within { at ≤ length bytes.now }
    requires fits { length bytes.now < 2 ^ 32 }
    ensures gives { Gives (λ x. x) result (next_lexeme file.now bytes.now at) }
    ensures forward { IfOk result (λ found. IfSome found (λ l. (at ≤ l.from) × (l.from < l.to) × (l.to ≤ length bytes.now))) }
{
    let (_, rest) = bytes.split_at(at as usize);
    let from = gap_end(names.alloc(), file, rest, at)?;
    let (_, rest) = bytes.split_at(from as usize);
    if rest.is_empty() {
        return Ok(None);
    }
    let lexeme = lexeme_at(names, file, rest, from)?;
    Ok(Some(lexeme))
}

fn lexeme_at(
    names: &mut SymbolTable,
    file: &Symbol,
    bytes: &[u8],
    from: u32,
) -> Result<Lexeme, Stop>
    requires some { 0 < length bytes.now }
    requires fits { from + length bytes.now < 2 ^ 32 }
    ensures gives { Gives (λ x. x) result (lexeme_at file.now bytes.now from) }
    ensures forward { IfOk result (λ l. (l.from ≡ from) × (from < l.to) × (l.to ≤ from + length bytes.now)) }
{
    match bytes[0] {
        b'(' => Ok(lexeme(Token::Open(Bracket::Round), from, from + 1)),
        b')' => Ok(lexeme(Token::Close(Bracket::Round), from, from + 1)),
        b'[' => Ok(lexeme(Token::Open(Bracket::Square), from, from + 1)),
        b']' => Ok(lexeme(Token::Close(Bracket::Square), from, from + 1)),
        b'\'' => Ok(lexeme(Token::Abbreviation(Abbreviation::Quote), from, from + 1)),
        b'`' => Ok(lexeme(
            Token::Abbreviation(Abbreviation::Quasiquote),
            from,
            from + 1,
        )),
        b',' => Ok(unquoting(
            bytes,
            from,
            1,
            Abbreviation::Unquote,
            Abbreviation::UnquoteSplicing,
        )),
        b'"' => string_at(names.alloc(), file, bytes, from),
        b'#' => hash_at(names.alloc(), file, bytes, from),
        _ => bare_at(names, file, bytes, from),
    }
}

fn lexeme(token: Token, from: u32, to: u32) -> Lexeme
    ensures { result ≡ lexeme token from to }
{
    Lexeme { token, from, to }
}

/// `one`, which takes `n` bytes, or `all`, which has an at sign behind them.
fn unquoting(bytes: &[u8], from: u32, n: u32, one: Abbreviation, all: Abbreviation) -> Lexeme
    requires some { (0 < n) × (n ≤ length bytes.now) }
    requires fits { from + length bytes.now < 2 ^ 32 }
    ensures gives { result ≡ unquoting bytes.now from n one all }
    ensures forward { (result.from ≡ from) × (from < result.to) × (result.to ≤ from + length bytes.now) }
{
    if byte_at(bytes, n as usize) == b'@' {
        lexeme(Token::Abbreviation(all), from, from + n + 1)
    } else {
        lexeme(Token::Abbreviation(one), from, from + n)
    }
}

/// A token that begins with `#`.
fn hash_at(alloc: Global, file: &Symbol, bytes: &[u8], from: u32) -> Result<Lexeme, Stop>
    requires some { 0 < length bytes.now }
    requires fits { from + length bytes.now < 2 ^ 32 }
    ensures gives { Gives (λ x. x) result (hash_at file.now bytes.now from) }
    ensures forward { IfOk result (λ l. (l.from ≡ from) × (from < l.to) × (l.to ≤ from + length bytes.now)) }
{
    match byte_at(bytes, 1) {
        b'(' => Ok(lexeme(Token::OpenVector, from, from + 2)),
        b';' => Ok(lexeme(Token::SkipDatum, from, from + 2)),
        b'\'' => Ok(lexeme(Token::Abbreviation(Abbreviation::Syntax), from, from + 2)),
        b'`' => Ok(lexeme(
            Token::Abbreviation(Abbreviation::Quasisyntax),
            from,
            from + 2,
        )),
        b',' => Ok(unquoting(
            bytes,
            from,
            2,
            Abbreviation::Unsyntax,
            Abbreviation::UnsyntaxSplicing,
        )),
        b'\\' => character_at(alloc, file, bytes, from),
        b => {
            if is_number_mark(b) {
                marked_at(alloc, file, bytes, from)
            } else {
                word_at(alloc, file, bytes, from)
            }
        }
    }
}

/// A token of letters behind `#`.
fn word_at(alloc: Global, file: &Symbol, bytes: &[u8], from: u32) -> Result<Lexeme, Stop>
    requires some { 0 < length bytes.now }
    requires fits { from + length bytes.now < 2 ^ 32 }
    ensures gives { Gives (λ x. x) result (word_at file.now bytes.now from) }
    ensures forward { IfOk result (λ l. (l.from ≡ from) × (from < l.to) × (l.to ≤ from + length bytes.now)) }
{
    if bytes.starts_with(b"#vu8(") {
        return Ok(lexeme(Token::OpenBytes, from, from + 5));
    }
    let b = byte_at(bytes, 1);
    let delimited = is_delimited(behind(bytes, 2));
    if is_true(b) && delimited {
        return Ok(lexeme(Token::Atom(Atom::Bool(true)), from, from + 2));
    }
    if is_false(b) && delimited {
        return Ok(lexeme(Token::Atom(Atom::Bool(false)), from, from + 2));
    }
    let to = run_end(behind(bytes, 1), from + 1);
    refuse(alloc, file, FaultKind::BadToken, from, to)
}

fn is_true(b: u8) -> bool
    ensures { result ≡ is_true b }
{
    b == b't' || b == b'T'
}

fn is_false(b: u8) -> bool
    ensures { result ≡ is_false b }
{
    b == b'f' || b == b'F'
}

fn is_number_mark(b: u8) -> bool
    ensures { result ≡ is_number_mark b }
{
    b == b'x'
        || b == b'X'
        || b == b'b'
        || b == b'B'
        || b == b'o'
        || b == b'O'
        || b == b'd'
        || b == b'D'
        || b == b'e'
        || b == b'E'
        || b == b'i'
        || b == b'I'
}

/// The base that a mark names, or 0 for `e` and `i`, behind which no number is taken.
fn radix(b: u8) -> u8
    ensures { result ≡ radix b }
{
    match b {
        b'x' | b'X' => 16,
        b'b' | b'B' => 2,
        b'o' | b'O' => 8,
        b'd' | b'D' => 10,
        _ => 0,
    }
}

/// A number behind its mark, which is the second of the bytes. No number has a backslash, so a bad escape is a bad number.
fn marked_at(alloc: Global, file: &Symbol, bytes: &[u8], from: u32) -> Result<Lexeme, Stop>
    requires some { 2 ≤ length bytes.now }
    requires fits { from + length bytes.now < 2 ^ 32 }
    ensures gives { Gives (λ x. x) result (marked_at file.now bytes.now from) }
    ensures forward { IfOk result (λ l. (l.from ≡ from) × (from < l.to) × (l.to ≤ from + length bytes.now)) }
{
    let context = BareContext {
        alloc,
        file,
        bad: FaultKind::BadNumber,
        from,
    };
    let to = bare_end(&context, behind(bytes, 2), from + 2)?;
    let (text, _) = bytes.split_at((to - from) as usize);
    let digits = TokenText {
        bytes: behind(text, 2),
        from,
        to,
    };
    let token = integer_in(alloc, file, radix(byte_at(bytes, 1)), &digits)?;
    Ok(lexeme(token, from, to))
}

/// The integer that a text spells in a base.
fn integer_in(alloc: Global, file: &Symbol, base: u8, text: &TokenText) -> Result<Token, Stop>
    ensures { Gives (λ x. x) result (integer_in file.now base text.now.bytes.now text.now.from text.now.to) }
{
    if base == 0 || !is_integer(base, text.bytes) {
        return refuse(alloc, file, FaultKind::BadNumber, text.from, text.to);
    }
    match integer_of(base, text.bytes) {
        Some(n) => Ok(Token::Atom(Atom::Int(n))),
        None => refuse(alloc, file, FaultKind::BadNumber, text.from, text.to),
    }
}

/// A token that runs up to a delimiter.
fn bare_at(names: &mut SymbolTable, file: &Symbol, bytes: &[u8], from: u32) -> Result<Lexeme, Stop>
    requires some { 0 < length bytes.now }
    requires fits { from + length bytes.now < 2 ^ 32 }
    ensures gives { Gives (λ x. x) result (bare_at file.now bytes.now from) }
    ensures forward { IfOk result (λ l. (l.from ≡ from) × (from < l.to) × (l.to ≤ from + length bytes.now)) }
{
    let alloc = names.alloc();
    let context = BareContext {
        alloc,
        file,
        bad: FaultKind::BadEscape,
        from,
    };
    let to = bare_end(&context, bytes, from)?;
    if to == from {
        return refuse(alloc, file, FaultKind::BadUtf8, from, from + 1);
    }
    let (text, _) = bytes.split_at((to - from) as usize);
    let text = TokenText {
        bytes: text,
        from,
        to,
    };
    let token = bare(names, file, &text)?;
    Ok(lexeme(token, from, to))
}

/// The bare token whose end is sought: the file that spans and faults name, and where the token begins.
#[derive(Drop)]
struct BareContext<'a> {
    alloc: Global,
    file: &'a Symbol,
    /// What a backslash is that begins no escape.
    bad: FaultKind,
    from: u32,
}

/// The offset behind the bare token, where the bytes at `at` are what is left.
fn bare_end(context: &BareContext, bytes: &[u8], at: u32) -> Result<u32, Stop>
    requires { at + length bytes.now < 2 ^ 32 }
    ensures gives { Gives (λ x. x) result (bare_end context.now.file.now context.now.bad context.now.from bytes.now at) }
    ensures within { IfOk result (λ to. (at ≤ to) × (to ≤ at + length bytes.now)) }
{
    let mut rest = bytes;
    let mut here = at;
    loop {
        let to = bare_step(context, rest, here)?;
        if to == here {
            return Ok(here);
        }
        let (_, after) = rest.split_at((to - here) as usize);
        rest = after;
        here = to;
    }
}

/// The offset behind an escape, or behind a character that is no delimiter.
#[tactic(auto, unfolding(crate::specs::Tokens::bare_step))]
fn bare_step(context: &BareContext, bytes: &[u8], at: u32) -> Result<u32, Stop>
    requires { at + length bytes.now < 2 ^ 32 }
    ensures gives { Gives (λ x. x) result (bare_step context.now.file.now context.now.bad context.now.from bytes.now at) }
    ensures within { IfOk result (λ to. (at ≤ to) × (to ≤ at + length bytes.now)) }
{
    if byte_at(bytes, 0) != b'\\' {
        return Ok(char_end(bytes, at));
    }
    match escape(bytes) {
        Some(letter) => Ok(at + letter.size as u32),
        None => refuse(context.alloc, context.file, context.bad, context.from, at),
    }
}

/// The offset behind the first character, or `at` where that is a delimiter.
fn char_end(bytes: &[u8], at: u32) -> u32
    requires { at + length bytes.now < 2 ^ 32 }
    ensures gives { result ≡ char_end at (characters bytes.now) }
    ensures within { (at ≤ result) × (result ≤ at + length bytes.now) }
{
    match front(bytes) {
        Some(piece) => {
            if runs_on(piece.char) {
                at + piece.size as u32
            } else {
                at
            }
        }
        None => at,
    }
}

/// The token that a bare text spells.
fn bare(names: &mut SymbolTable, file: &Symbol, text: &TokenText) -> Result<Token, Stop>
    ensures { Gives (λ x. x) result (bare file.now text.now.bytes.now text.now.from text.now.to) }
{
    if is_dot(text.bytes) {
        return Ok(Token::Dot);
    }
    match identifier_in(names, text.bytes)? {
        Some(name) => Ok(Token::Symbol(name)),
        None => no_identifier(names.alloc(), file, text),
    }
}

/// The identifier that the text spells, if it spells one, with the text that the first one of its name had.
fn identifier_in(names: &mut SymbolTable, text: &[u8]) -> Result<Option<Symbol>, Memory>
    ensures { IfOk result (λ s. s ≡ identifier text.now) }
{
    if let Some(plain) = plain_identifier(text) {
        return Ok(Some(names.named(plain)?));
    }
    match identifier_of(names.alloc(), text)? {
        Some(name) => Ok(Some(names.shared(name)?)),
        None => Ok(None),
    }
}

fn is_dot(text: &[u8]) -> bool
    ensures { result ≡ is_dot text.now }
{
    text.len() == 1 && text[0] == b'.'
}

fn no_identifier(alloc: Global, file: &Symbol, text: &TokenText) -> Result<Token, Stop>
    ensures { Gives (λ x. x) result (no_identifier file.now text.now.bytes.now text.now.from text.now.to) }
{
    if begins_number(byte_at(text.bytes, 0)) {
        number_of(alloc, file, text)
    } else {
        refuse(alloc, file, FaultKind::BadToken, text.from, text.to)
    }
}

fn begins_number(b: u8) -> bool
    ensures { result ≡ begins_number b }
{
    (b'0' <= b && b <= b'9') || b == b'+' || b == b'-' || b == b'.'
}

/// The number that a text spells: an integer, or a ratio or a decimal as it is spelt.
fn number_of(alloc: Global, file: &Symbol, text: &TokenText) -> Result<Token, Stop>
    ensures { Gives (λ x. x) result (number_of file.now text.now.bytes.now text.now.from text.now.to) }
{
    if is_integer(10, text.bytes) {
        return match integer_of(10, text.bytes) {
            Some(n) => Ok(Token::Atom(Atom::Int(n))),
            None => refuse(alloc, file, FaultKind::BadNumber, text.from, text.to),
        };
    }
    match spelt(alloc, text.bytes)? {
        Some(spelling) => Ok(Token::Atom(Atom::Spelt(spelling))),
        None => refuse(alloc, file, FaultKind::BadNumber, text.from, text.to),
    }
}
