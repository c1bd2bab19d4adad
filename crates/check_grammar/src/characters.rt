//! Characters in core text (R6RS 4.2.6).

ghost use Rattle.std.specs.Prelude.{◌≡◌, ◌++◌, OnOk, codes};
ghost use Rattle.std.specs.String.{string_bytes};
ghost use Rattle.base_data.specs.Hex.{hex};
ghost use Rattle.check_grammar.specs.Characters.{character_text, by_name, escape_text};

use base_data::hex::put_hex;
use std::alloc::AllocError;

/// Adds `\xHEX;`, which stands for a character in strings and symbols.
pub(crate) fn write_escape(out: &mut String, c: char) -> Result<(), AllocError>
    ensures { OnOk result (string_bytes out.new ≡ string_bytes out.old ++ escape_text c) }
{
    out.push_str("\\x")?;
    put_hex(out, c as u32)?;
    out.push_str(";")
}

/// Adds a character: `#\` and itself from U+0021 to U+007E, else by its name, else `#\xHEX`.
pub(crate) fn write_character(out: &mut String, c: char) -> Result<(), AllocError>
    ensures { OnOk result (string_bytes out.new ≡ string_bytes out.old ++ character_text c) }
{
    out.push_str("#\\")?;
    if '!' <= c && c <= '~' {
        return out.push(c);
    }
    write_name(out, c)
}

fn write_name(out: &mut String, c: char) -> Result<(), AllocError>
    ensures { OnOk result (string_bytes out.new ≡ string_bytes out.old ++ by_name c) }
{
    match c {
        '\0' => out.push_str("nul"),
        '\u{7}' => out.push_str("alarm"),
        '\u{8}' => out.push_str("backspace"),
        '\t' => out.push_str("tab"),
        '\n' => out.push_str("newline"),
        '\u{B}' => out.push_str("vtab"),
        '\u{C}' => out.push_str("page"),
        '\r' => out.push_str("return"),
        '\u{1B}' => out.push_str("esc"),
        ' ' => out.push_str("space"),
        '\u{7F}' => out.push_str("delete"),
        _ => write_number(out, c),
    }
}

fn write_number(out: &mut String, c: char) -> Result<(), AllocError>
    ensures { OnOk result (string_bytes out.new ≡ string_bytes out.old ++ codes "x" ++ hex c) }
{
    out.push_str("x")?;
    put_hex(out, c as u32)
}
