//! The names of variables in core text: `%LIBRARY/SYMBOL/NUMBER`.

ghost use Rattle.std.specs.Prelude.{◌≡◌, ◌↔◌, IsTrue};
ghost use Rattle.check_grammar.specs.Scan.{is_name, next, is_end, behind_slash, behind_dot, word_on, tilde_on, hex_on, escape_end, number_on, digits_on, is_escaped, is_plain, is_plain_sign, is_hex_digit, digit_value};
ghost use Rattle.check_grammar.specs.Names.{IsName, NamesAreScanned};

/// What is written by characters and escapes.
#[derive(Clone, Copy)]
pub enum WrittenWord {
    /// A part of a library's name.
    Part,
    Symbol,
}

/// How far the bytes so far are the front of a name.
#[derive(Clone, Copy)]
pub enum NamePlace {
    /// Before the `%`.
    Begin,
    /// Behind the `%`, where a library's name may begin.
    Library,
    /// Behind a dot in a library's name, where a further part begins.
    Dot,
    /// In a word, with no escape begun.
    In(WrittenWord),
    /// Behind a `~` in a word.
    Tilde(WrittenWord),
    /// Behind digits of an escape in a word, which have this value.
    Hex(WrittenWord, u32),
    /// Before the number.
    Number,
    /// Behind a number that is zero.
    Zero,
    /// Behind digits of another number.
    Digits,
    /// No name begins so.
    Nowhere,
}

/// Whether the text is the name of a variable.
#[tactic(auto, unfolding(crate::specs::Scan::scanned))]
pub fn is_name(text: &str) -> bool
    ensures { result ≡ is_name text.now }
{
    let mut place = NamePlace::Begin;
    for byte in text.as_bytes() {
        place = next(place, *byte);
    }
    is_end(place)
}

/// The texts that this crate calls names are exactly those of the grammar.
pub fn names_are_scanned()
    ensures { NamesAreScanned }
{}

fn next(place: NamePlace, byte: u8) -> NamePlace
    ensures { result ≡ next place byte }
{
    match place {
        NamePlace::Begin => {
            if byte == b'%' {
                NamePlace::Library
            } else {
                NamePlace::Nowhere
            }
        }
        NamePlace::Library => {
            if byte == b'/' {
                NamePlace::In(WrittenWord::Symbol)
            } else {
                word_on(WrittenWord::Part, byte)
            }
        }
        NamePlace::Dot => word_on(WrittenWord::Part, byte),
        NamePlace::In(word) => {
            if byte == b'/' {
                behind_slash(word)
            } else if byte == b'.' {
                behind_dot(word)
            } else {
                word_on(word, byte)
            }
        }
        NamePlace::Tilde(word) => tilde_on(word, byte),
        NamePlace::Hex(word, value) => hex_on(word, value, byte),
        NamePlace::Number => number_on(byte),
        NamePlace::Digits => digits_on(byte),
        NamePlace::Zero | NamePlace::Nowhere => NamePlace::Nowhere,
    }
}

fn is_end(place: NamePlace) -> bool
    ensures { result ≡ is_end place }
{
    matches!(place, NamePlace::Zero | NamePlace::Digits)
}

fn behind_slash(word: WrittenWord) -> NamePlace
    ensures { result ≡ behind_slash word }
{
    match word {
        WrittenWord::Part => NamePlace::In(WrittenWord::Symbol),
        WrittenWord::Symbol => NamePlace::Number,
    }
}

fn behind_dot(word: WrittenWord) -> NamePlace
    ensures { result ≡ behind_dot word }
{
    match word {
        WrittenWord::Part => NamePlace::Dot,
        WrittenWord::Symbol => NamePlace::Nowhere,
    }
}

fn word_on(word: WrittenWord, byte: u8) -> NamePlace
    ensures { result ≡ word_on word byte }
{
    if is_plain(byte as u32) {
        NamePlace::In(word)
    } else if byte == b'~' {
        NamePlace::Tilde(word)
    } else {
        NamePlace::Nowhere
    }
}

fn tilde_on(word: WrittenWord, byte: u8) -> NamePlace
    ensures { result ≡ tilde_on word byte }
{
    if is_hex_digit(byte) {
        NamePlace::Hex(word, digit_value(byte))
    } else {
        NamePlace::Nowhere
    }
}

// A number without leading zeros that stays a scalar value goes on.
fn hex_on(word: WrittenWord, value: u32, byte: u8) -> NamePlace
    ensures { result ≡ hex_on word value byte }
{
    if byte == b'~' {
        return escape_end(word, value);
    }
    if !is_hex_digit(byte) {
        return NamePlace::Nowhere;
    }
    if value == 0 || value > 0x10FFF {
        return NamePlace::Nowhere;
    }
    NamePlace::Hex(word, value * 16 + digit_value(byte))
}

fn escape_end(word: WrittenWord, value: u32) -> NamePlace
    ensures { result ≡ escape_end word value }
{
    if is_escaped(value) {
        NamePlace::In(word)
    } else {
        NamePlace::Nowhere
    }
}

fn number_on(byte: u8) -> NamePlace
    ensures { result ≡ number_on byte }
{
    if byte == b'0' {
        NamePlace::Zero
    } else {
        digits_on(byte)
    }
}

fn digits_on(byte: u8) -> NamePlace
    ensures { result ≡ digits_on byte }
{
    if byte.is_ascii_digit() {
        NamePlace::Digits
    } else {
        NamePlace::Nowhere
    }
}

// Whether a character is written as an escape.
fn is_escaped(value: u32) -> bool
    ensures { result ≡ is_escaped value }
{
    (value < 0xD800 || (0xE000 <= value && value <= 0x10FFFF)) && !is_plain(value)
}

// Whether a character stands for itself in a name.
fn is_plain(c: u32) -> bool
    ensures { result ≡ is_plain c }
{
    (0x30 <= c && c <= 0x39)
        || (0x41 <= c && c <= 0x5A)
        || (0x61 <= c && c <= 0x7A)
        || is_plain_sign(c)
}

fn is_plain_sign(c: u32) -> bool
    ensures { result ≡ is_plain_sign c }
{
    // ! $ % & * : < = > ? ^ _ + - @
    matches!(
        c,
        0x21 | 0x24
            | 0x25
            | 0x26
            | 0x2A
            | 0x3A
            | 0x3C
            | 0x3D
            | 0x3E
            | 0x3F
            | 0x5E
            | 0x5F
            | 0x2B
            | 0x2D
            | 0x40
    )
}

// Digits above nine are written in upper case.
fn is_hex_digit(byte: u8) -> bool
    ensures { result ≡ is_hex_digit byte }
{
    (b'0' <= byte && byte <= b'9') || (b'A' <= byte && byte <= b'F')
}

fn digit_value(byte: u8) -> u32
    ensures { result ≡ digit_value byte }
{
    if byte <= b'9' {
        byte.saturating_sub(b'0') as u32
    } else {
        byte.saturating_sub(55) as u32
    }
}
