//! The line that tells a fault.

ghost use Rattle.std.specs.Prelude.{◌≡◌, ◌++◌, IfOk, OnOk, codes, min, length};
ghost use Rattle.std.specs.String.{string_bytes};
ghost use Rattle.base_data.specs.Place.{place};
ghost use Rattle.base_data.specs.FaultLine.{fault_line, text_shown, char_shown, is_control, place_text, words_text, further_words};

use crate::fault::Fault;
use crate::hex::put_hex;
use crate::memory::Memory;
use crate::place::line_and_column;
use crate::symbol::Symbol;
use std::alloc::{AllocError, Global};
use std::fmt::Write;

/// `FILE:LINE:COLUMN: NUMBER NAME`, then `: ` and the words parted by spaces where there are some,
/// then a line feed. Control characters are written `\xHEX;`. The source is the file's bytes; an
/// offset past its end counts as the end.
pub fn fault_line(alloc: Global, fault: &Fault, source: &[u8]) -> Result<String, Memory>
    ensures { IfOk result (λ line. string_bytes line ≡ fault_line fault.now source.now) }
{
    let mut line = String::new(alloc);
    put_text(&mut line, fault.span.file.as_str())?;
    line.push_str(":")?;
    put_place(&mut line, fault.span.from, source)?;
    line.push_str(": ")?;
    let number = fault.kind.number();
    write!(line, "{number}")?;
    line.push_str(" ")?;
    line.push_str(fault.kind.name())?;
    put_words(&mut line, fault.words.as_slice())?;
    line.push_str("\n")?;
    Ok(line)
}

fn put_place(line: &mut String, offset: u32, source: &[u8]) -> Result<(), AllocError>
    ensures { OnOk result (string_bytes line.new ≡ string_bytes line.old ++ place_text (place source.now (min offset (length source.now)))) }
{
    let offset = (offset as usize).min(source.len());
    let (row, column) = line_and_column(source, offset as u32);
    write!(line, "{row}:{column}")
}

fn put_words(line: &mut String, words: &[Symbol]) -> Result<(), AllocError>
    ensures { OnOk result (string_bytes line.new ≡ string_bytes line.old ++ words_text words.now) }
{
    match words {
        [] => Ok(()),
        [first, others @ ..] => {
            line.push_str(": ")?;
            put_text(line, first.as_str())?;
            put_further(line, others)
        }
    }
}

fn put_further(line: &mut String, words: &[Symbol]) -> Result<(), AllocError>
    ensures { OnOk result (string_bytes line.new ≡ string_bytes line.old ++ further_words words.now) }
{
    for word in words {
        line.push_str(" ")?;
        put_text(line, word.as_str())?;
    }
    Ok(())
}

/// Adds a text with its control characters spelt.
pub fn put_text(line: &mut String, text: &str) -> Result<(), AllocError>
    ensures { OnOk result (string_bytes line.new ≡ string_bytes line.old ++ text_shown text.now) }
{
    for c in text.chars() {
        put_char(line, c)?;
    }
    Ok(())
}

fn put_char(line: &mut String, c: char) -> Result<(), AllocError>
    ensures { OnOk result (string_bytes line.new ≡ string_bytes line.old ++ char_shown c) }
{
    if is_control(c) {
        line.push_str("\\x")?;
        put_hex(line, c as u32)?;
        line.push_str(";")
    } else {
        line.push(c)
    }
}

fn is_control(c: char) -> bool
    ensures { result ≡ is_control c }
{
    let code = c as u32;
    code < 0x20 || (0x7E < code && code < 0xA0)
}
