//! Identifiers (R6RS 4.2.4).

ghost use Rattle.std.specs.Prelude.{◌≡◌, ◌<◌, ◌≤◌, length, Some, IfOk, IfSome};
ghost use Rattle.std.specs.String.{string_bytes};
ghost use Rattle.read_spelling.specs.Identifiers.{is_ascii_letter, is_special_initial, is_initial_category, is_later_category, is_initial, is_special_subsequent, is_later, is_of, char_letter, letter_here, name, is_peculiar, identifier};

use crate::escapes::{Letter, escape};
use crate::source::{behind, byte_at, front};
use base_data::memory::Memory;
use base_data::symbol::Symbol;
use std::alloc::Global;
use unicode::properties::GeneralCategory;

/// What stands at the begin of an identifier, or behind it.
#[derive(Clone, Copy)]
pub enum Class {
    Initial,
    Subsequent,
}

/// The identifier that the text spells, if it spells one.
pub fn identifier_of(alloc: Global, text: &[u8]) -> Result<Option<Symbol>, Memory>
    ensures { IfOk result (λ s. s ≡ identifier text.now) }
{
    if is_peculiar(text) {
        name(alloc, Class::Subsequent, text)
    } else {
        name(alloc, Class::Initial, text)
    }
}

/// The text, where it is an identifier that is its own text: ASCII without escapes.
pub fn plain_identifier(text: &[u8]) -> Option<&str>
    ensures { IfSome result (λ s. identifier text.now ≡ Some s.now) }
{
    let class = if is_peculiar(text) {
        Class::Subsequent
    } else {
        Class::Initial
    };
    plain_name(class, text)
}

fn name(alloc: Global, class: Class, text: &[u8]) -> Result<Option<Symbol>, Memory>
    ensures { IfOk result (λ s. s ≡ name class text.now) }
{
    match plain_name(class, text) {
        Some(plain) => Ok(Some(Symbol::new(alloc, plain)?)),
        None => spelt_name(alloc, class, text),
    }
}

/// The text, where it is a name of ASCII characters without escapes: such a name is its own text.
fn plain_name(class: Class, text: &[u8]) -> Option<&str>
    ensures { IfSome result (λ s. name class text.now ≡ Some s.now) }
{
    let mut at = 0;
    let mut class = class;
    while at < text.len() {
        let rest = behind(text, at);
        let Some(letter) = letter_here(class, rest) else {
            return None;
        };
        if letter.size != 1 || letter.char as u32 >= 0x80 || letter.char as u32 != text[at] as u32 {
            return None;
        }
        at += 1;
        class = Class::Subsequent;
    }
    match str::from_utf8(text) {
        Ok(plain) => Some(plain),
        Err(_) => None,
    }
}

/// The name that a text spells, letter by letter.
fn spelt_name(alloc: Global, class: Class, text: &[u8]) -> Result<Option<Symbol>, Memory>
    ensures { IfOk result (λ s. s ≡ name class text.now) }
{
    let mut name = String::new(alloc);
    let mut rest = text;
    let mut class = class;
    while !rest.is_empty() {
        let Some(letter) = letter_here(class, rest) else {
            return Ok(None);
        };
        name.push(letter.char)?;
        let (_, after) = rest.split_at(letter.size);
        rest = after;
        class = Class::Subsequent;
    }
    Ok(Some(Symbol::from_string(name)?))
}

/// The character of the class that comes first, or the escape.
#[tactic(auto, unfolding(crate::specs::Identifiers::letter_here))]
fn letter_here(class: Class, bytes: &[u8]) -> Option<Letter>
    ensures gives { result ≡ letter_here class bytes.now }
    ensures size { IfSome result (λ l. (0 < l.size) × (l.size ≤ length bytes.now)) }
{
    if byte_at(bytes, 0) == b'\\' {
        return escape(bytes);
    }
    match front(bytes) {
        Some(piece) => char_letter(class, piece.char, piece.size),
        None => None,
    }
}

fn char_letter(class: Class, char: Option<char>, size: usize) -> Option<Letter>
    ensures gives { result ≡ char_letter class char size }
    ensures size { IfSome result (λ l. l.size ≡ size) }
{
    match char {
        Some(c) => if is_of(class, c) {
            Some(Letter { char: c, size })
        } else {
            None
        },
        None => None,
    }
}

fn is_of(class: Class, c: char) -> bool
    ensures { result ≡ is_of class c }
{
    match class {
        Class::Initial => is_initial(c),
        Class::Subsequent => is_initial(c) || is_later(c),
    }
}

fn is_ascii_letter(c: char) -> bool
    ensures { result ≡ is_ascii_letter c }
{
    ('a' <= c && c <= 'z') || ('A' <= c && c <= 'Z')
}

fn is_special_initial(c: char) -> bool
    ensures { result ≡ is_special_initial c }
{
    c == '!'
        || c == '$'
        || c == '%'
        || c == '&'
        || c == '*'
        || c == '/'
        || c == ':'
        || c == '<'
        || c == '='
        || c == '>'
        || c == '?'
        || c == '^'
        || c == '_'
        || c == '~'
}

fn is_initial(c: char) -> bool
    ensures { result ≡ is_initial c }
{
    if (c as u32) < 0x80 {
        is_ascii_letter(c) || is_special_initial(c)
    } else {
        is_initial_category(GeneralCategory::for_char(c))
    }
}

fn is_initial_category(category: GeneralCategory) -> bool
    ensures { result ≡ is_initial_category category }
{
    matches!(
        category,
        GeneralCategory::UppercaseLetter
            | GeneralCategory::LowercaseLetter
            | GeneralCategory::TitlecaseLetter
            | GeneralCategory::ModifierLetter
            | GeneralCategory::OtherLetter
            | GeneralCategory::NonspacingMark
            | GeneralCategory::LetterNumber
            | GeneralCategory::OtherNumber
            | GeneralCategory::DashPunctuation
            | GeneralCategory::ConnectorPunctuation
            | GeneralCategory::OtherPunctuation
            | GeneralCategory::CurrencySymbol
            | GeneralCategory::MathSymbol
            | GeneralCategory::ModifierSymbol
            | GeneralCategory::OtherSymbol
            | GeneralCategory::PrivateUse
    )
}

fn is_special_subsequent(c: char) -> bool
    ensures { result ≡ is_special_subsequent c }
{
    ('0' <= c && c <= '9') || c == '+' || c == '-' || c == '.' || c == '@'
}

/// Whether an identifier may go on with the character, but not begin.
fn is_later(c: char) -> bool
    ensures { result ≡ is_later c }
{
    if (c as u32) < 0x80 {
        is_special_subsequent(c)
    } else {
        is_later_category(GeneralCategory::for_char(c))
    }
}

fn is_later_category(category: GeneralCategory) -> bool
    ensures { result ≡ is_later_category category }
{
    matches!(
        category,
        GeneralCategory::DecimalNumber
            | GeneralCategory::SpacingMark
            | GeneralCategory::EnclosingMark
    )
}

/// Whether the text is `+`, `-` or `...`, or begins with `->`.
fn is_peculiar(text: &[u8]) -> bool
    ensures { result ≡ is_peculiar text.now }
{
    let first = byte_at(text, 0);
    let second = byte_at(text, 1);
    let third = byte_at(text, 2);
    (text.len() == 1 && (first == b'+' || first == b'-'))
        || (text.len() == 3 && first == b'.' && second == b'.' && third == b'.')
        || (first == b'-' && second == b'>')
}
