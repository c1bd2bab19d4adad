//! Escapes `\xHEX;` (R6RS 4.2.4 and 4.2.7).

ghost use Rattle.std.specs.Prelude.{◌≡◌, ◌<◌, ◌≤◌, length, IfSome};
ghost use Rattle.read_spelling.specs.Escapes.{scalar, scalar_of, escape, escape_of};

use crate::numbers::{digits_size, magnitude};
use crate::source::{behind, byte_at};

/// A character, and how many bytes spell it.
#[derive(Clone, Copy)]
pub struct Letter {
    pub char: char,
    pub size: usize,
}

/// The character with a number.
fn scalar(n: u128) -> Option<char>
    ensures { result ≡ scalar n }
{
    if n < 0x110000 {
        char::from_u32(n as u32)
    } else {
        None
    }
}

/// The character whose number hexadecimal digits spell.
pub fn scalar_of(digits: &[u8]) -> Option<char>
    ensures { result ≡ scalar_of digits.now }
{
    match magnitude(16, digits) {
        Some(n) => scalar(n),
        None => None,
    }
}

/// What the escape stands for that the bytes begin with behind a backslash, which is the first of
/// them.
pub fn escape(bytes: &[u8]) -> Option<Letter>
    ensures gives { result ≡ escape bytes.now }
    ensures size { IfSome result (λ l. (0 < l.size) × (l.size ≤ length bytes.now)) }
{
    escape_of(digits_size(16, behind(bytes, 2)), bytes)
}

fn escape_of(n: usize, bytes: &[u8]) -> Option<Letter>
    requires { n ≤ length bytes.now }
    ensures gives { result ≡ escape_of n bytes.now }
    ensures size { IfSome result (λ l. (0 < l.size) × (l.size ≤ length bytes.now)) }
{
    if byte_at(bytes, 1) != b'x' || n == 0 || byte_at(bytes, 2 + n) != b';' {
        return None;
    }
    let (digits, _) = behind(bytes, 2).split_at(n);
    match scalar_of(digits) {
        Some(char) => Some(Letter { char, size: 3 + n }),
        None => None,
    }
}
