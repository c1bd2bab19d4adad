//! The text of a datum in core text (R6RS 4.3).

ghost use Rattle.std.specs.Prelude.{◌≡◌, ◌++◌, OnOk};
ghost use Rattle.std.specs.String.{string_bytes};
ghost use Rattle.check_grammar.specs.Text.{text_of, atom_text, bytes_text, further_bytes};
ghost use Rattle.check_grammar.specs.Elements.{elements_text, further_elements, tail_text};

use crate::characters::write_character;
use crate::strings::write_string;
use crate::symbols::write_symbol;
use base_data::atom::Atom;
use base_data::datum::{Datum, Node};
use itoa::Buffer;
use std::alloc::AllocError;

/// Adds the text of a datum. It recurses as deep as the datum is nested.
#[cycle(write)]
pub fn write_datum(out: &mut String, datum: &Datum) -> Result<(), AllocError>
    ensures { OnOk result (string_bytes out.new ≡ string_bytes out.old ++ text_of datum.now) }
{
    match &datum.node {
        Node::Atom(atom) => write_atom(out, atom),
        Node::Symbol(symbol) => write_symbol(out, symbol.as_str()),
        Node::List(items, tail) => {
            out.push_str("(")?;
            write_elements(out, items)?;
            write_tail(out, tail)?;
            out.push_str(")")
        }
        Node::Vector(items) => {
            out.push_str("#(")?;
            write_elements(out, items)?;
            out.push_str(")")
        }
    }
}

/// Adds data parted by spaces.
#[cycle(write)]
fn write_elements(out: &mut String, items: &[Datum]) -> Result<(), AllocError>
    ensures { OnOk result (string_bytes out.new ≡ string_bytes out.old ++ elements_text items.now) }
{
    match items {
        [] => Ok(()),
        [first, others @ ..] => {
            write_datum(out, first)?;
            write_further_elements(out, others)
        }
    }
}

#[cycle(write)]
fn write_further_elements(out: &mut String, items: &[Datum]) -> Result<(), AllocError>
    ensures { OnOk result (string_bytes out.new ≡ string_bytes out.old ++ further_elements items.now) }
{
    for item in items {
        out.push_str(" ")?;
        write_datum(out, item)?;
    }
    Ok(())
}

/// Adds a dot and the tail of a list, unless that is empty.
#[cycle(write)]
fn write_tail(out: &mut String, tail: &Datum) -> Result<(), AllocError>
    ensures { OnOk result (string_bytes out.new ≡ string_bytes out.old ++ tail_text tail.now) }
{
    if tail.is_nil() {
        return Ok(());
    }
    out.push_str(" . ")?;
    write_datum(out, tail)
}

fn write_atom(out: &mut String, atom: &Atom) -> Result<(), AllocError>
    ensures { OnOk result (string_bytes out.new ≡ string_bytes out.old ++ atom_text atom.now) }
{
    match atom {
        Atom::Nil => out.push_str("()"),
        Atom::Bool(true) => out.push_str("#t"),
        Atom::Bool(false) => out.push_str("#f"),
        Atom::Int(number) => out.push_str(Buffer::new().format(*number)),
        Atom::Spelt(text) => out.push_str(text.as_str()),
        Atom::Char(c) => write_character(out, *c),
        Atom::Str(text) => write_string(out, text.as_str()),
        Atom::Bytes(bytes) => {
            out.push_str("#vu8(")?;
            write_bytes(out, bytes.as_slice())?;
            out.push_str(")")
        }
    }
}

fn write_bytes(out: &mut String, bytes: &[u8]) -> Result<(), AllocError>
    ensures { OnOk result (string_bytes out.new ≡ string_bytes out.old ++ bytes_text bytes.now) }
{
    match bytes {
        [] => Ok(()),
        [first, others @ ..] => {
            out.push_str(Buffer::new().format(*first))?;
            write_further_bytes(out, others)
        }
    }
}

fn write_further_bytes(out: &mut String, bytes: &[u8]) -> Result<(), AllocError>
    ensures { OnOk result (string_bytes out.new ≡ string_bytes out.old ++ further_bytes bytes.now) }
{
    for byte in bytes {
        out.push_str(" ")?;
        out.push_str(Buffer::new().format(*byte))?;
    }
    Ok(())
}
