//! Strings (R6RS 4.2.7).

ghost use Rattle.std.specs.Prelude.{◌≡◌, ◌++◌, OnOk};
ghost use Rattle.std.specs.String.{string_bytes};
ghost use Rattle.read_printer.specs.Strings.{string_text, contents, string_character, unescaped};

use crate::escapes::put_escape;
use std::alloc::AllocError;

/// Adds a string between its quotes. Printable ASCII stands as it is, but `"` and `\`; the rest is
/// spelt by escapes.
pub(crate) fn put_string(out: &mut String, text: &str) -> Result<(), AllocError>
    ensures { OnOk result (string_bytes out.new ≡ string_bytes out.old ++ string_text text.now) }
{
    out.push_str("\"")?;
    put_contents(out, text)?;
    out.push_str("\"")
}

fn put_contents(out: &mut String, text: &str) -> Result<(), AllocError>
    ensures { OnOk result (string_bytes out.new ≡ string_bytes out.old ++ contents text.now) }
{
    for c in text.chars() {
        put_string_character(out, c)?;
    }
    Ok(())
}

fn put_string_character(out: &mut String, c: char) -> Result<(), AllocError>
    ensures { OnOk result (string_bytes out.new ≡ string_bytes out.old ++ string_character c) }
{
    match c {
        '"' => out.push_str("\\\""),
        '\\' => out.push_str("\\\\"),
        '\u{7}' => out.push_str("\\a"),
        '\u{8}' => out.push_str("\\b"),
        '\t' => out.push_str("\\t"),
        '\n' => out.push_str("\\n"),
        '\u{B}' => out.push_str("\\v"),
        '\u{C}' => out.push_str("\\f"),
        '\r' => out.push_str("\\r"),
        _ => put_unescaped(out, c),
    }
}

fn put_unescaped(out: &mut String, c: char) -> Result<(), AllocError>
    ensures { OnOk result (string_bytes out.new ≡ string_bytes out.old ++ unescaped c) }
{
    if ' ' <= c && c <= '~' {
        out.push(c)
    } else {
        put_escape(out, c)
    }
}
