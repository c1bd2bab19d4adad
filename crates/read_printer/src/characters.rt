//! Characters (R6RS 4.2.6).

ghost use Rattle.std.specs.Prelude.{◌≡◌, ◌++◌, OnOk};
ghost use Rattle.std.specs.String.{string_bytes};
ghost use Rattle.read_printer.specs.Characters.{character_text, character_name, unnamed};

use base_data::hex::put_hex;
use std::alloc::AllocError;

/// Adds a character: `#\` and itself where it is printable ASCII, else its name, else `#\xHEX`.
pub(crate) fn put_character(out: &mut String, c: char) -> Result<(), AllocError>
    ensures { OnOk result (string_bytes out.new ≡ string_bytes out.old ++ character_text c) }
{
    out.push_str("#\\")?;
    put_name(out, c)
}

fn put_name(out: &mut String, c: char) -> Result<(), AllocError>
    ensures { OnOk result (string_bytes out.new ≡ string_bytes out.old ++ character_name c) }
{
    match c {
        '\0' => out.push_str("nul"),
        '\u{7}' => out.push_str("alarm"),
        '\u{8}' => out.push_str("backspace"),
        '\t' => out.push_str("tab"),
        '\n' => out.push_str("newline"),
        '\u{B}' => out.push_str("vtab"),
        '\u{C}' => out.push_str("page"),
        '\r' => out.push_str("return"),
        '\u{1B}' => out.push_str("esc"),
        ' ' => out.push_str("space"),
        '\u{7F}' => out.push_str("delete"),
        _ => put_unnamed(out, c),
    }
}

fn put_unnamed(out: &mut String, c: char) -> Result<(), AllocError>
    ensures { OnOk result (string_bytes out.new ≡ string_bytes out.old ++ unnamed c) }
{
    if '!' <= c && c <= '~' {
        return out.push(c);
    }
    out.push_str("x")?;
    put_hex(out, c as u32)
}
