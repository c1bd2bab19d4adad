//! The text of a datum (R6RS 4.3).

ghost use Rattle.std.specs.Prelude.{◌≡◌, ◌++◌, IfOk, OnOk};
ghost use Rattle.std.specs.String.{string_bytes};
ghost use Rattle.read_printer.specs.DatumText.{datum_text, atom_text, bytes_text, further_bytes, items_text, further_items, tail_text};

use crate::characters::put_character;
use crate::strings::put_string;
use crate::symbols::put_symbol;
use base_data::atom::Atom;
use base_data::datum::{Datum, Node};
use base_data::memory::Memory;
use itoa::Buffer;
use std::alloc::{AllocError, Global};

/// The text of a datum. It recurses as deep as the datum is nested.
pub fn datum_text(alloc: Global, datum: &Datum) -> Result<String, Memory>
    ensures { IfOk result (λ text. string_bytes text ≡ datum_text datum.now) }
{
    let mut out = String::new(alloc);
    put_datum(&mut out, datum)?;
    Ok(out)
}

/// Adds the text of a datum. It recurses as deep as the datum is nested.
#[cycle(put)]
pub fn put_datum(out: &mut String, datum: &Datum) -> Result<(), AllocError>
    ensures { OnOk result (string_bytes out.new ≡ string_bytes out.old ++ datum_text datum.now) }
{
    match &datum.node {
        Node::Atom(atom) => put_atom(out, atom),
        Node::Symbol(symbol) => put_symbol(out, symbol.as_str()),
        Node::List(items, tail) => {
            out.push_str("(")?;
            put_items(out, items)?;
            put_tail(out, tail)?;
            out.push_str(")")
        }
        Node::Vector(items) => {
            out.push_str("#(")?;
            put_items(out, items)?;
            out.push_str(")")
        }
    }
}

#[cycle(put)]
fn put_items(out: &mut String, items: &[Datum]) -> Result<(), AllocError>
    ensures { OnOk result (string_bytes out.new ≡ string_bytes out.old ++ items_text items.now) }
{
    match items {
        [] => Ok(()),
        [first, others @ ..] => {
            put_datum(out, first)?;
            put_further_items(out, others)
        }
    }
}

#[cycle(put)]
fn put_further_items(out: &mut String, items: &[Datum]) -> Result<(), AllocError>
    ensures { OnOk result (string_bytes out.new ≡ string_bytes out.old ++ further_items items.now) }
{
    for item in items {
        out.push_str(" ")?;
        put_datum(out, item)?;
    }
    Ok(())
}

/// Adds a dot and the tail of a list, unless that is empty.
#[cycle(put)]
fn put_tail(out: &mut String, tail: &Datum) -> Result<(), AllocError>
    ensures { OnOk result (string_bytes out.new ≡ string_bytes out.old ++ tail_text tail.now) }
{
    if tail.is_nil() {
        return Ok(());
    }
    out.push_str(" . ")?;
    put_datum(out, tail)
}

/// Adds the text of an atom.
pub fn put_atom(out: &mut String, atom: &Atom) -> Result<(), AllocError>
    ensures { OnOk result (string_bytes out.new ≡ string_bytes out.old ++ atom_text atom.now) }
{
    match atom {
        Atom::Nil => out.push_str("()"),
        Atom::Bool(true) => out.push_str("#t"),
        Atom::Bool(false) => out.push_str("#f"),
        Atom::Int(number) => out.push_str(Buffer::new().format(*number)),
        Atom::Spelt(text) => out.push_str(text.as_str()),
        Atom::Char(c) => put_character(out, *c),
        Atom::Str(text) => put_string(out, text.as_str()),
        Atom::Bytes(bytes) => {
            out.push_str("#vu8(")?;
            put_bytes(out, bytes.as_slice())?;
            out.push_str(")")
        }
    }
}

fn put_bytes(out: &mut String, bytes: &[u8]) -> Result<(), AllocError>
    ensures { OnOk result (string_bytes out.new ≡ string_bytes out.old ++ bytes_text bytes.now) }
{
    match bytes {
        [] => Ok(()),
        [first, others @ ..] => {
            out.push_str(Buffer::new().format(*first))?;
            put_further_bytes(out, others)
        }
    }
}

fn put_further_bytes(out: &mut String, bytes: &[u8]) -> Result<(), AllocError>
    ensures { OnOk result (string_bytes out.new ≡ string_bytes out.old ++ further_bytes bytes.now) }
{
    for byte in bytes {
        out.push_str(" ")?;
        out.push_str(Buffer::new().format(*byte))?;
    }
    Ok(())
}
