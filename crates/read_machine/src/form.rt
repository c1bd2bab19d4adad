//! The data that complete forms are (R6RS 4.3).

ghost use Rattle.std.specs.Prelude.{◌≡◌, [], ◌∷◌, IfOk};
ghost use Rattle.base_data.specs.Datum.{atom, nil, symbol, vector, chain};
ghost use Rattle.base_data.specs.declared.atom.Atom.TheVariants as atoms;
ghost use Rattle.read_machine.specs.Extent.{span_at};
ghost use Rattle.read_machine.specs.Form.{joined, abbreviated, keyword_of, byte_of_int, byte_of};

use crate::context::SourceContext;
use crate::extent::{Extent, span_at};
use base_data::atom::Atom;
use base_data::bytes::Bytes;
use base_data::datum::{Datum, Node};
use base_data::items::Items;
use base_data::memory::Memory;
use base_data::span::Span;
use base_data::symbol::Symbol;
use read_lexer::token::Abbreviation;
use std::alloc::Global;

/// The empty list that ends a list.
pub fn nil() -> Datum
    ensures { result ≡ nil }
{
    let node = Node::Atom(Atom::Nil);
    Datum { span: None, node }
}

/// An atom with the span of its token.
pub fn constant(file: &Symbol, value: Atom, at: Extent) -> Result<Datum, Memory>
    ensures { IfOk result (λ d. d ≡ atom (span_at file.now at) value) }
{
    let span = span_at(file, at)?;
    let node = Node::Atom(value);
    Ok(Datum { span, node })
}

/// A symbol with the span of its token.
pub(crate) fn named(file: &Symbol, name: Symbol, at: Extent) -> Result<Datum, Memory>
    ensures { IfOk result (λ d. d ≡ symbol (span_at file.now at) name) }
{
    let span = span_at(file, at)?;
    let node = Node::Symbol(name);
    Ok(Datum { span, node })
}

/// The elements of a list that has no more to come, at their length: a list of one datum would keep room for four.
pub(crate) fn exact(items: Items<Datum>) -> Vec<Datum>
    ensures { result.items ≡ items }
{
    let mut items = items.into_vec();
    items.shrink_to_fit();
    items
}

/// A list with a tail, which is joined on where it is a list. Without elements it is the tail, with
/// this span.
#[tactic(auto, using(crate::proofs::Joining::joined_list))]
pub(crate) fn joined(
    alloc: Global,
    span: Option<Span>,
    items: Items<Datum>,
    tail: Datum,
) -> Result<Datum, Memory>
    ensures { IfOk result (λ d. d ≡ joined span items tail) }
{
    let mut items = exact(items);
    if items.is_empty() {
        let node = tail.node;
        return Ok(Datum { span, node });
    }
    let Datum { span: other, node } = tail;
    match node {
        Node::Atom(Atom::Nil) => {
            let tail = Box::new(alloc, nil())?;
            let node = Node::List(items, tail);
            Ok(Datum { span, node })
        }
        Node::List(mut more, tail) => {
            items.append(&mut more)?;
            let node = Node::List(items, tail);
            Ok(Datum { span, node })
        }
        node => {
            let tail = Box::new(alloc, Datum { span: other, node })?;
            let node = Node::List(items, tail);
            Ok(Datum { span, node })
        }
    }
}

/// A vector with these elements.
pub fn vector(file: &Symbol, items: Items<Datum>, at: Extent) -> Result<Datum, Memory>
    ensures { IfOk result (λ d. d ≡ vector (span_at file.now at) (chain items nil)) }
{
    let span = span_at(file, at)?;
    let node = Node::Vector(exact(items));
    Ok(Datum { span, node })
}

/// A bytevector with these elements.
pub(crate) fn bytevector(file: &Symbol, bytes: Items<u8>, at: Extent) -> Result<Datum, Memory>
    ensures { IfOk result (λ d. d ≡ atom (span_at file.now at) (atoms.Bytes bytes)) }
{
    let bytes = Bytes::from_vec(bytes.into_vec())?;
    constant(file, Atom::Bytes(bytes), at)
}

/// The list that an abbreviation with its datum is. The symbol stands at the prefix, the list at the
/// whole.
pub(crate) fn abbreviated(
    context: &SourceContext,
    abbreviation: Abbreviation,
    prefix: Extent,
    datum: Datum,
    all: Extent,
) -> Result<Datum, Memory>
    ensures { IfOk result (λ d. d ≡ abbreviated context.now.file.now abbreviation prefix datum all) }
{
    let mut items = keyword_at(context, abbreviation, prefix)?;
    items.push(datum)?;
    let span = span_at(context.file, all)?;
    joined(context.alloc, span, items, nil())
}

// The keyword of an abbreviation, with room for the datum behind it.
fn keyword_at(
    context: &SourceContext,
    abbreviation: Abbreviation,
    prefix: Extent,
) -> Result<Items<Datum>, Memory>
    ensures { IfOk result (λ items. items ≡ symbol (span_at context.now.file.now prefix) (keyword_of abbreviation) ∷ []) }
{
    let mut items = Items::from_vec(Vec::with_capacity(context.alloc, 2)?);
    let name = context.keywords.shared(abbreviation)?;
    let keyword = named(context.file, name, prefix)?;
    items.push(keyword)?;
    Ok(items)
}

/// The byte that a datum is in a bytevector.
pub(crate) fn byte_of(datum: &Datum) -> Option<u8>
    ensures { result ≡ byte_of datum.now }
{
    match &datum.node {
        Node::Atom(Atom::Int(number)) => byte_of_int(*number),
        _ => None,
    }
}

fn byte_of_int(number: i128) -> Option<u8>
    ensures { result ≡ byte_of_int number }
{
    u8::try_from(number).ok()
}
