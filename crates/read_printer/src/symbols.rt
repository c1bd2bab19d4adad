//! Symbols (R6RS 4.2.4).

ghost use Rattle.std.specs.Prelude.{◌≡◌, ◌++◌, OnOk};
ghost use Rattle.std.specs.String.{string_bytes};
ghost use Rattle.std.specs.Str.{chars};
ghost use Rattle.read_printer.specs.Symbols.{symbol_text, name_text, initial_text, subsequents_text, subsequent_text, is_peculiar, is_initial, is_subsequent};

use crate::escapes::put_escape;
use std::alloc::AllocError;

/// Adds a symbol as an identifier of ASCII. A character that may not stand in its place is spelt
/// `\xHEX;`. The symbol without characters, which no identifier spells, adds nothing.
pub(crate) fn put_symbol(out: &mut String, text: &str) -> Result<(), AllocError>
    ensures { OnOk result (string_bytes out.new ≡ string_bytes out.old ++ symbol_text text.now) }
{
    if is_peculiar(text) {
        put_subsequents(out, text)
    } else {
        put_name(out, text)
    }
}

/// Whether the text is `+`, `-` or `...`, or begins with `->`.
fn is_peculiar(text: &str) -> bool
    ensures { result ≡ is_peculiar text.now }
{
    text == "+" || text == "-" || text == "..." || text.as_bytes().starts_with(b"->")
}

fn put_name(out: &mut String, text: &str) -> Result<(), AllocError>
    ensures { OnOk result (string_bytes out.new ≡ string_bytes out.old ++ name_text (chars text.now)) }
{
    let mut rest = text.chars();
    let Some(first) = rest.next() else {
        return Ok(());
    };
    put_initial(out, first)?;
    put_subsequents(out, rest.as_str())
}

fn put_subsequents(out: &mut String, text: &str) -> Result<(), AllocError>
    ensures { OnOk result (string_bytes out.new ≡ string_bytes out.old ++ subsequents_text (chars text.now)) }
{
    for c in text.chars() {
        put_subsequent(out, c)?;
    }
    Ok(())
}

fn put_initial(out: &mut String, c: char) -> Result<(), AllocError>
    ensures { OnOk result (string_bytes out.new ≡ string_bytes out.old ++ initial_text c) }
{
    if is_initial(c) {
        out.push(c)
    } else {
        put_escape(out, c)
    }
}

fn put_subsequent(out: &mut String, c: char) -> Result<(), AllocError>
    ensures { OnOk result (string_bytes out.new ≡ string_bytes out.old ++ subsequent_text c) }
{
    if is_subsequent(c) {
        out.push(c)
    } else {
        put_escape(out, c)
    }
}

/// Whether the character is ASCII, and an identifier may begin with it.
fn is_initial(c: char) -> bool
    ensures { result ≡ is_initial c }
{
    c.is_ascii_alphabetic()
        || matches!(
            c,
            '!' | '$' | '%' | '&' | '*' | '/' | ':' | '<' | '=' | '>' | '?' | '^' | '_' | '~'
        )
}

/// Whether the character is ASCII, and an identifier may go on with it.
fn is_subsequent(c: char) -> bool
    ensures { result ≡ is_subsequent c }
{
    is_initial(c) || c.is_ascii_digit() || matches!(c, '+' | '-' | '.' | '@')
}
