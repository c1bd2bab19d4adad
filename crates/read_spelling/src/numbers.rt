//! Numbers (R6RS 4.2.8).

ghost use Rattle.std.specs.Prelude.{◌≡◌, ◌<◌, ◌≤◌, ◌^◌, length, SomeIff, IfOk, true};
ghost use Rattle.std.specs.List.{list_all};
ghost use Rattle.read_spelling.specs.Numbers.{digit_value, is_digit, is_digits, digits_size, value_from, unsigned, is_integer, integer, signed, is_spelt, spelt, is_ascii, is_part, is_positive, is_ratio_of, is_ratio, is_exponent_mark, is_exponent, is_fraction, is_decimal_of, is_decimal};

use crate::source::{behind, byte_at};
use base_data::memory::Memory;
use base_data::symbol::Symbol;
use std::alloc::Global;

fn digit_value(b: u8) -> u8
    ensures gives { result ≡ digit_value b }
    ensures small { result ≤ 16 }
{
    match b {
        b'0'..=b'9' => b - b'0',
        b'a'..=b'f' => b - b'a' + 10,
        b'A'..=b'F' => b - b'A' + 10,
        _ => 16,
    }
}

fn is_digit(base: u8, b: u8) -> bool
    ensures { result ≡ is_digit base b }
{
    digit_value(b) < base
}

/// Whether the text is one or more digits.
pub fn is_digits(base: u8, text: &[u8]) -> bool
    ensures { result ≡ is_digits base text.now }
{
    for b in text {
        if !is_digit(base, *b) {
            return false;
        }
    }
    !text.is_empty()
}

/// How many digits come first.
pub fn digits_size(base: u8, bytes: &[u8]) -> usize
    ensures size { result ≡ digits_size base bytes.now }
    ensures fits { result ≤ length bytes.now }
{
    for (i, b) in bytes.iter().enumerate() {
        if !is_digit(base, *b) {
            return i;
        }
    }
    bytes.len()
}

/// The number that digits spell, where it is at most 2^127.
pub(crate) fn magnitude(base: u8, digits: &[u8]) -> Option<u128>
    requires { 0 < base }
    ensures { SomeIff result (value_from base 0 digits.now ≤ 2 ^ 127) (value_from base 0 digits.now) }
{
    let mut n: u128 = 0;
    for b in digits {
        let Some(scaled) = n.checked_mul(base as u128) else {
            return None;
        };
        let Some(next) = scaled.checked_add(digit_value(*b) as u128) else {
            return None;
        };
        n = next;
    }
    if n <= 1 << 127 { Some(n) } else { None }
}

fn unsigned(text: &[u8]) -> &[u8]
    ensures { result.now ≡ unsigned text.now }
{
    match text {
        [b'+' | b'-', digits @ ..] => digits,
        _ => text,
    }
}

/// Whether the text is an optional sign and digits of the base.
pub fn is_integer(base: u8, text: &[u8]) -> bool
    ensures { result ≡ is_integer base text.now }
{
    is_digits(base, unsigned(text))
}

/// The integer that a sign and digits spell, where 128 bits hold it.
pub fn integer_of(base: u8, text: &[u8]) -> Option<i128>
    requires { 0 < base }
    ensures { result ≡ integer base text.now }
{
    let minus = byte_at(text, 0) == b'-';
    match magnitude(base, unsigned(text)) {
        Some(n) => signed(minus, n),
        None => None,
    }
}

fn signed(minus: bool, n: u128) -> Option<i128>
    requires { n ≤ 2 ^ 127 }
    ensures { result ≡ signed minus n }
{
    if n < 1 << 127 {
        let n = n as i128;
        Some(if minus { -n } else { n })
    } else if minus {
        Some(i128::MIN)
    } else {
        None
    }
}

fn is_part(digits: &[u8]) -> bool
    ensures { result ≡ is_part digits.now }
{
    match magnitude(10, digits) {
        Some(n) => n < 1 << 127,
        None => false,
    }
}

/// Whether decimal digits spell a number that isn't zero.
fn is_positive(digits: &[u8]) -> bool
    ensures { result ≡ is_positive digits.now }
{
    match magnitude(10, digits) {
        Some(n) => 0 < n,
        None => true,
    }
}

/// The text, where it is a ratio or a decimal, which are kept as they are spelt.
#[tactic(auto, using(crate::proofs::SpeltLemmas::spelt_ascii))]
pub fn spelt(alloc: Global, text: &[u8]) -> Result<Option<Symbol>, Memory>
    ensures { IfOk result (λ s. s ≡ spelt text.now) }
{
    if is_spelt(text) {
        Ok(Some(ascii(alloc, text)?))
    } else {
        Ok(None)
    }
}

#[tactic(auto, unfolding(crate::specs::Numbers::is_spelt))]
fn is_spelt(text: &[u8]) -> bool
    ensures { result ≡ is_spelt text.now }
{
    is_ratio(text) || is_decimal(text)
}

/// Whether the text is a ratio whose parts fit 128 bits, the second not zero.
fn is_ratio(text: &[u8]) -> bool
    ensures { result ≡ is_ratio text.now }
{
    let text = unsigned(text);
    is_ratio_of(digits_size(10, text), text)
}

fn is_ratio_of(n: usize, text: &[u8]) -> bool
    requires { n ≤ length text.now }
    ensures { result ≡ is_ratio_of n text.now }
{
    let (numerator, rest) = text.split_at(n);
    let denominator = behind(rest, 1);
    0 < n
        && byte_at(text, n) == b'/'
        && is_digits(10, denominator)
        && is_part(numerator)
        && is_part(denominator)
        && is_positive(denominator)
}

fn is_exponent_mark(b: u8) -> bool
    ensures { result ≡ is_exponent_mark b }
{
    b == b'e'
        || b == b'E'
        || b == b's'
        || b == b'S'
        || b == b'f'
        || b == b'F'
        || b == b'd'
        || b == b'D'
        || b == b'l'
        || b == b'L'
}

fn is_exponent(text: &[u8]) -> bool
    ensures { result ≡ is_exponent text.now }
{
    is_exponent_mark(byte_at(text, 0)) && is_integer(10, behind(text, 1))
}

/// Whether the text stands behind a point with `n` digits before it.
fn is_fraction(n: usize, text: &[u8]) -> bool
    ensures { result ≡ is_fraction n text.now }
{
    let m = digits_size(10, text);
    let (_, rest) = text.split_at(m);
    (0 < n || 0 < m) && (rest.is_empty() || is_exponent(rest))
}

/// Whether the text is a decimal: digits with a point, an exponent or both.
fn is_decimal(text: &[u8]) -> bool
    ensures { result ≡ is_decimal text.now }
{
    let text = unsigned(text);
    is_decimal_of(digits_size(10, text), text)
}

fn is_decimal_of(n: usize, text: &[u8]) -> bool
    requires { n ≤ length text.now }
    ensures { result ≡ is_decimal_of n text.now }
{
    let (_, rest) = text.split_at(n);
    if byte_at(text, n) == b'.' {
        is_fraction(n, behind(rest, 1))
    } else {
        0 < n && is_exponent(rest)
    }
}

/// A text of ASCII alone, as a symbol.
fn ascii(alloc: Global, text: &[u8]) -> Result<Symbol, Memory>
    requires { list_all is_ascii text.now ≡ true }
    ensures { IfOk result (λ s. s ≡ text.now) }
{
    let mut out = String::new(alloc);
    for b in text {
        out.push(*b as char)?;
    }
    Symbol::from_string(out)
}
