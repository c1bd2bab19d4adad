//! Strings in core text (R6RS 4.2.7).

ghost use Rattle.std.specs.Prelude.{◌≡◌, ◌++◌, OnOk};
ghost use Rattle.std.specs.String.{string_bytes};
ghost use Rattle.check_grammar.specs.Strings.{string_text, contents, string_character, by_number};

use crate::characters::write_escape;
use std::alloc::AllocError;

/// Adds a string between its quotes: U+0020 to U+007E as they are but `"` and `\`, the rest by escapes.
pub(crate) fn write_string(out: &mut String, text: &str) -> Result<(), AllocError>
    ensures { OnOk result (string_bytes out.new ≡ string_bytes out.old ++ string_text text.now) }
{
    out.push_str("\"")?;
    write_contents(out, text)?;
    out.push_str("\"")
}

fn write_contents(out: &mut String, text: &str) -> Result<(), AllocError>
    ensures { OnOk result (string_bytes out.new ≡ string_bytes out.old ++ contents text.now) }
{
    for c in text.chars() {
        write_string_character(out, c)?;
    }
    Ok(())
}

fn write_string_character(out: &mut String, c: char) -> Result<(), AllocError>
    ensures { OnOk result (string_bytes out.new ≡ string_bytes out.old ++ string_character c) }
{
    match c {
        '\u{7}' => out.push_str("\\a"),
        '\u{8}' => out.push_str("\\b"),
        '\t' => out.push_str("\\t"),
        '\n' => out.push_str("\\n"),
        '\u{B}' => out.push_str("\\v"),
        '\u{C}' => out.push_str("\\f"),
        '\r' => out.push_str("\\r"),
        '"' => out.push_str("\\\""),
        '\\' => out.push_str("\\\\"),
        _ => write_other(out, c),
    }
}

fn write_other(out: &mut String, c: char) -> Result<(), AllocError>
    ensures { OnOk result (string_bytes out.new ≡ string_bytes out.old ++ by_number c) }
{
    if ' ' <= c && c <= '~' {
        out.push(c)
    } else {
        write_escape(out, c)
    }
}
