//! Symbols in core text (R6RS 4.2.4).

ghost use Rattle.std.specs.List.{list_all};
ghost use Rattle.std.specs.Prelude.{◌≡◌, ◌++◌, OnOk};
ghost use Rattle.std.specs.Str.{chars};
ghost use Rattle.std.specs.String.{string_bytes};
ghost use Rattle.check_grammar.specs.Symbols.{symbol_text, begun_text, initial_text, later_text, later_character, is_peculiar, is_initial, is_later, is_initial_sign, is_later_sign};

use crate::characters::write_escape;
use std::alloc::AllocError;

/// Adds a symbol as an identifier of ASCII: a character that may not stand in its place is `\xHEX;`.
pub(crate) fn write_symbol(out: &mut String, text: &str) -> Result<(), AllocError>
    ensures { OnOk result (string_bytes out.new ≡ string_bytes out.old ++ symbol_text text.now) }
{
    if is_peculiar(text) {
        write_later(out, text)
    } else {
        write_begun(out, text)
    }
}

/// Whether the text is `+`, `-` or `...`, or begins with `->`.
fn is_peculiar(text: &str) -> bool
    ensures { result ≡ is_peculiar text.now }
{
    match text.as_bytes() {
        [b'+' | b'-' | b'.', ..] => is_peculiar_sign(text),
        _ => false,
    }
}

// The same of a text that begins with one of the characters that such texts begin with.
fn is_peculiar_sign(text: &str) -> bool
    ensures { result ≡ is_peculiar text.now }
{
    text == "+" || text == "-" || text == "..." || text.as_bytes().starts_with(b"->")
}

fn write_begun(out: &mut String, text: &str) -> Result<(), AllocError>
    ensures { OnOk result (string_bytes out.new ≡ string_bytes out.old ++ begun_text (chars text.now)) }
{
    let mut rest = text.chars();
    let Some(first) = rest.next() else {
        return Ok(());
    };
    write_initial(out, first)?;
    write_later(out, rest.as_str())
}

#[tactic(auto, using(crate::proofs::Plain::later_whole))]
fn write_later(out: &mut String, text: &str) -> Result<(), AllocError>
    ensures { OnOk result (string_bytes out.new ≡ string_bytes out.old ++ later_text (chars text.now)) }
{
    if is_later_text(text) {
        return out.push_str(text);
    }
    write_later_characters(out, text)
}

// Whether each byte is a character with which an identifier may go on, so that the text stands for itself there.
fn is_later_text(text: &str) -> bool
    ensures { result ≡ list_all is_later text.now }
{
    for byte in text.as_bytes() {
        if !is_later(*byte as char) {
            return false;
        }
    }
    true
}

fn write_later_characters(out: &mut String, text: &str) -> Result<(), AllocError>
    ensures { OnOk result (string_bytes out.new ≡ string_bytes out.old ++ later_text (chars text.now)) }
{
    for c in text.chars() {
        write_later_character(out, c)?;
    }
    Ok(())
}

fn write_initial(out: &mut String, c: char) -> Result<(), AllocError>
    ensures { OnOk result (string_bytes out.new ≡ string_bytes out.old ++ initial_text c) }
{
    if is_initial(c) {
        out.push(c)
    } else {
        write_escape(out, c)
    }
}

fn write_later_character(out: &mut String, c: char) -> Result<(), AllocError>
    ensures { OnOk result (string_bytes out.new ≡ string_bytes out.old ++ later_character c) }
{
    if is_later(c) {
        out.push(c)
    } else {
        write_escape(out, c)
    }
}

/// Whether the character is ASCII, and an identifier may begin with it.
fn is_initial(c: char) -> bool
    ensures { result ≡ is_initial c }
{
    c.is_ascii_alphabetic() || is_initial_sign(c)
}

fn is_initial_sign(c: char) -> bool
    ensures { result ≡ is_initial_sign c }
{
    matches!(
        c,
        '!' | '$' | '%' | '&' | '*' | '/' | ':' | '<' | '=' | '>' | '?' | '^' | '_' | '~'
    )
}

/// Whether the character is ASCII, and an identifier may go on with it.
fn is_later(c: char) -> bool
    ensures { result ≡ is_later c }
{
    is_initial(c) || c.is_ascii_digit() || is_later_sign(c)
}

fn is_later_sign(c: char) -> bool
    ensures { result ≡ is_later_sign c }
{
    matches!(c, '+' | '-' | '.' | '@')
}
