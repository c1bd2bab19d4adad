//! Characters spelt by their numbers (R6RS 4.2.4 and 4.2.7).

ghost use Rattle.std.specs.Prelude.{◌≡◌, ◌++◌, OnOk};
ghost use Rattle.std.specs.String.{string_bytes};
ghost use Rattle.read_printer.specs.Escapes.{escape_text};

use base_data::hex::put_hex;
use std::alloc::AllocError;

/// Adds `\xHEX;`, which stands for a character in strings and symbols.
pub(crate) fn put_escape(out: &mut String, c: char) -> Result<(), AllocError>
    ensures { OnOk result (string_bytes out.new ≡ string_bytes out.old ++ escape_text c) }
{
    out.push_str("\\x")?;
    put_hex(out, c as u32)?;
    out.push_str(";")
}
