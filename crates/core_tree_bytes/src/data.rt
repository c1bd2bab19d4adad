//! Data as bytes.

ghost use Rattle.std.specs.Prelude.{◌≡◌, IfOk, IfSome, IsTrue, option_map};
ghost use Rattle.base_data.specs.Datum.{is_tail};
ghost use Rattle.base_data.specs.DatumView.{is_proper, is_some_list};
ghost use Rattle.base_data.specs.declared.datum.Node.TheVariants as node;
ghost use Rattle.base_bytes.specs.Codec.{checked, listed, some_get, ◌then◌};
ghost use Rattle.base_bytes.specs.Puts.{PutsIf};
ghost use Rattle.core_codec.specs.Trees as spell;
ghost use Rattle.core_tree_bytes.specs.Seen.{datum_cases};

use base_bytes::libraries::RecentLibraries;
use base_bytes::numbers::{put_u64, u64_at};
use base_bytes::room::{MOST_AHEAD, list_for};
use base_bytes::spelled::Spelled;
use base_data::atom::Atom;
use base_data::datum::{Datum, Node};
use base_data::memory::Memory;
use base_data::symbol::Symbol;
use std::boxed::Box;

/// Whether a datum may stand behind the last element of a list.
fn is_tail(datum: &Datum) -> bool
    ensures { result ≡ is_tail datum.now }
{
    match &datum.node {
        Node::Atom(Atom::Nil) => datum.span.is_none(),
        Node::Atom(_) => true,
        Node::Symbol(_) => true,
        Node::List(_, _) => false,
        Node::Vector(_) => true,
    }
}

fn is_some_list(data: &[Datum]) -> bool
    ensures { result ≡ is_some_list data.now }
{
    match data {
        [] => false,
        [_, ..] => true,
    }
}

/// Adds the spelling of a datum that is at most so high.
#[cycle(data_put)]
#[tactic(auto, using(crate::specs::Seen::datum_none, crate::specs::Seen::datum_more))]
pub fn put_datum(out: &mut Vec<u8>, room: u32, datum: &Datum) -> Result<bool, Memory>
    ensures { IfOk result (λ b. PutsIf (spell.datum room) datum.now out.old.items out.new.items b) }
{
    if room == 0 {
        return Ok(false);
    }
    put_level(out, room - 1, datum)
}

#[cycle(data_put)]
fn put_level(out: &mut Vec<u8>, room: u32, datum: &Datum) -> Result<bool, Memory>
    ensures { IfOk result (λ b. PutsIf (spell.datum_level (spell.datum room)) datum.now out.old.items out.new.items b) }
{
    datum.span.put(out)?;
    put_node(out, room, &datum.node)
}

#[cycle(data_put)]
#[tactic(auto, unfolding(core_codec::specs::Trees::datum_node_codec))]
fn put_node(out: &mut Vec<u8>, room: u32, node: &Node) -> Result<bool, Memory>
    ensures { IfOk result (λ b. PutsIf (spell.datum_node_codec (spell.datum room)) (datum_cases node.now) out.old.items out.new.items b) }
{
    match node {
        Node::Atom(atom) => {
            out.push(0)?;
            atom.put(out)?;
            Ok(true)
        }
        Node::Symbol(symbol) => {
            out.push(1)?;
            symbol.put(out)?;
            Ok(true)
        }
        Node::List(data, tail) => {
            out.push(2)?;
            put_list(out, room, data, tail)
        }
        Node::Vector(data) => {
            out.push(3)?;
            put_data(out, room, data)
        }
    }
}

/// The elements and the tail.
#[cycle(data_put)]
fn put_list(out: &mut Vec<u8>, room: u32, data: &[Datum], tail: &Datum) -> Result<bool, Memory>
    ensures { IfOk result (λ b.
        PutsIf (checked spell.is_datum_list (listed (spell.datum room) then spell.datum room)) (data.now, tail.now)
        out.old.items out.new.items b) }
{
    if !is_some_list(data) || !is_tail(tail) {
        return Ok(false);
    }
    if !put_data(out, room, data)? {
        return Ok(false);
    }
    if !put_datum(out, room, tail)? {
        return Ok(false);
    }
    Ok(true)
}

#[cycle(data_put)]
fn put_data(out: &mut Vec<u8>, room: u32, data: &[Datum]) -> Result<bool, Memory>
    ensures { IfOk result (λ b. PutsIf (listed (spell.datum room)) data.now out.old.items out.new.items b) }
{
    put_u64(out, data.len() as u64)?;
    for datum in data {
        if !put_datum(out, room, datum)? {
            return Ok(false);
        }
    }
    Ok(true)
}

/// The datum that the bytes begin with, where it is at most so high, and the bytes behind it.
#[cycle(data_read)]
#[tactic(auto, using(crate::specs::Seen::datum_none, crate::specs::Seen::datum_more))]
pub fn datum_at<'a>(
    libraries: &mut RecentLibraries,
    room: u32,
    bytes: &'a [u8],
) -> Result<Option<(Datum, &'a [u8])>, Memory>
    ensures { IfOk result (λ o. option_map (λ x. (x.0, x.1.now)) o ≡ (spell.datum room).get bytes.now) }
{
    if room == 0 {
        return Ok(None);
    }
    level_at(libraries, room - 1, bytes)
}

#[cycle(data_read)]
#[tactic(auto, unfolding(core_codec::specs::Trees::datum_level), using(crate::specs::Seen::datum_is))]
fn level_at<'a>(
    libraries: &mut RecentLibraries,
    room: u32,
    bytes: &'a [u8],
) -> Result<Option<(Datum, &'a [u8])>, Memory>
    ensures { IfOk result (λ o. option_map (λ x. (x.0, x.1.now)) o ≡ (spell.datum_level (spell.datum room)).get bytes.now) }
{
    let Some((span, rest)) = Spelled::at(libraries, bytes)? else {
        return Ok(None);
    };
    let Some((node, rest)) = node_at(libraries, room, rest)? else {
        return Ok(None);
    };
    Ok(Some((Datum { span, node }, rest)))
}

#[cycle(data_read)]
#[tactic(auto, unfolding(core_codec::specs::Trees::datum_node_codec))]
fn node_at<'a>(
    libraries: &mut RecentLibraries,
    room: u32,
    bytes: &'a [u8],
) -> Result<Option<(Node, &'a [u8])>, Memory>
    ensures node { IfOk result (λ o. option_map (λ x. (datum_cases x.0, x.1.now)) o ≡ (spell.datum_node_codec (spell.datum room)).get bytes.now) }
    ensures proper { IfOk result (λ o. IfSome o (λ x. IsTrue (is_proper x.0))) }
{
    match bytes {
        [0, rest @ ..] => match Atom::at(libraries, rest)? {
            Some((atom, rest)) => Ok(Some((Node::Atom(atom), rest))),
            None => Ok(None),
        },
        [1, rest @ ..] => match Symbol::at(libraries, rest)? {
            Some((symbol, rest)) => Ok(Some((Node::Symbol(symbol), rest))),
            None => Ok(None),
        },
        [2, rest @ ..] => match list_at(libraries, room, rest)? {
            Some((list, rest)) => Ok(Some((Node::List(list.data, list.tail), rest))),
            None => Ok(None),
        },
        [3, rest @ ..] => match data_at(libraries, room, rest)? {
            Some((data, rest)) => Ok(Some((Node::Vector(data), rest))),
            None => Ok(None),
        },
        _ => Ok(None),
    }
}

/// The elements of a list, and its tail.
#[derive(Drop)]
struct ElementsAndTail {
    data: Vec<Datum>,
    tail: Box<Datum>,
}

#[cycle(data_read)]
fn list_at<'a>(
    libraries: &mut RecentLibraries,
    room: u32,
    bytes: &'a [u8],
) -> Result<Option<(ElementsAndTail, &'a [u8])>, Memory>
    ensures list { IfOk result (λ o. option_map (λ x. ((x.0.data.items, x.0.tail.value), x.1.now)) o
        ≡ (checked spell.is_datum_list (listed (spell.datum room) then spell.datum room)).get bytes.now) }
    ensures proper { IfOk result (λ o. IfSome o (λ x. IsTrue (is_proper (node.List x.0.data x.0.tail)))) }
{
    let Some((data, rest)) = data_at(libraries, room, bytes)? else {
        return Ok(None);
    };
    let Some((tail, rest)) = datum_at(libraries, room, rest)? else {
        return Ok(None);
    };
    if !is_some_list(&data) || !is_tail(&tail) {
        return Ok(None);
    }
    let tail = Box::new(libraries.alloc(), tail)?;
    Ok(Some((ElementsAndTail { data, tail }, rest)))
}

#[cycle(data_read)]
fn data_at<'a>(
    libraries: &mut RecentLibraries,
    room: u32,
    bytes: &'a [u8],
) -> Result<Option<(Vec<Datum>, &'a [u8])>, Memory>
    ensures { IfOk result (λ o. option_map (λ x. (x.0.items, x.1.now)) o ≡ (listed (spell.datum room)).get bytes.now) }
{
    match u64_at(bytes) {
        Some((count, rest)) => some_data(libraries, room, count, rest),
        None => Ok(None),
    }
}

#[cycle(data_read)]
fn some_data<'a>(
    libraries: &mut RecentLibraries,
    room: u32,
    count: u64,
    bytes: &'a [u8],
) -> Result<Option<(Vec<Datum>, &'a [u8])>, Memory>
    ensures { IfOk result (λ o. option_map (λ x. (x.0.items, x.1.now)) o ≡ some_get (spell.datum room).get count bytes.now) }
{
    let mut list = list_for(libraries.alloc(), count, MOST_AHEAD)?;
    let mut rest = bytes;
    for _ in 0..count {
        let Some((datum, after)) = datum_at(libraries, room, rest)? else {
            return Ok(None);
        };
        list.push(datum)?;
        rest = after;
    }
    Ok(Some((list, rest)))
}
