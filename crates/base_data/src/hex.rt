//! Numbers in hexadecimal, as escapes spell them.

ghost use Rattle.std.specs.Prelude.{◌≡◌, ◌++◌, OnOk};
ghost use Rattle.std.specs.String.{string_bytes};
ghost use Rattle.base_data.specs.Hex.{hex};

use std::alloc::AllocError;
use std::fmt::Write;

/// Adds a number in hexadecimal, in upper case and without leading zeros.
pub fn put_hex(out: &mut String, number: u32) -> Result<(), AllocError>
    ensures { OnOk result (string_bytes out.new ≡ string_bytes out.old ++ hex number) }
{
    write!(out, "{number:X}")
}
