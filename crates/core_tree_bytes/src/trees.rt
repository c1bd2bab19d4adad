//! Syntax trees as bytes.

ghost use Rattle.std.specs.Prelude.{◌≡◌, IfOk, IfSome, OnOk, option_map, true};
ghost use Rattle.base_bytes.specs.Codec.{checked, listed, optional, some_get, text, ◌then◌};
ghost use Rattle.base_bytes.specs.Names as names;
ghost use Rattle.base_bytes.specs.Puts.{Puts, PutsIf};
ghost use Rattle.core_codec.specs.Contexts.{context};
ghost use Rattle.core_codec.specs.Trees as spell;
ghost use Rattle.stx_tree.specs.Measures.{fits};
ghost use Rattle.core_tree_bytes.specs.Contexts.{context_of};
ghost use Rattle.core_tree_bytes.specs.Parts.{tree_cases, IsProper};

use crate::contexts::ContextLists;
use crate::parts::{ElementsAndTail, TreeParts, is_tail};
use base_bytes::libraries::RecentLibraries;
use base_bytes::numbers::{put_u64, u64_at};
use base_bytes::room::{MOST_AHEAD, list_for};
use base_bytes::spelled::Spelled;
use base_data::atom::Atom;
use base_data::memory::Memory;
use base_data::span::Span;
use base_data::symbol::Symbol;
use std::alloc::Global;
use stx_object::syn::Syn;

/// How high a tree may be, and how many parts it may have.
const MAX_HEIGHT: u32 = 1000;

const MAX_SIZE: u32 = 16777216;

fn is_within(tree: &Syn) -> bool
    ensures { result ≡ fits tree.now }
{
    tree.height() <= MAX_HEIGHT && tree.size() <= MAX_SIZE
}

fn put_span(out: &mut Vec<u8>, span: Option<&Span>) -> Result<(), Memory>
    ensures { OnOk result (Puts (optional names.span) (option_map (λ s. s.now) span.entry) out.old.items out.new.items) }
{
    match span {
        None => {
            out.push(0)?;
            Ok(())
        }
        Some(span) => {
            out.push(1)?;
            span.put(out)
        }
    }
}

/// Adds the spelling of a tree that is at most so high.
#[cycle(tree_put)]
#[tactic(auto, using(crate::specs::Seen::tree_none, crate::specs::Seen::tree_more))]
pub fn put_tree(out: &mut Vec<u8>, alloc: Global, room: u32, tree: &Syn) -> Result<bool, Memory>
    ensures { IfOk result (λ b. PutsIf (spell.tree room) tree.now out.old.items out.new.items b) }
{
    if room == 0 {
        return Ok(false);
    }
    put_level(out, alloc, room - 1, tree)
}

#[cycle(tree_put)]
#[tactic(auto, using(crate::proofs::Level::too_large, crate::proofs::Level::not_tree))]
fn put_level(out: &mut Vec<u8>, alloc: Global, room: u32, tree: &Syn) -> Result<bool, Memory>
    ensures { IfOk result (λ b. PutsIf (spell.tree_level (spell.tree room)) tree.now out.old.items out.new.items b) }
{
    if !is_within(tree) {
        return Ok(false);
    }
    let Some(parts) = TreeParts::of(alloc, tree)? else {
        return Ok(false);
    };
    put_span(out, tree.span())?;
    put_parts(out, alloc, room, &parts)
}

#[cycle(tree_put)]
#[tactic(auto, unfolding(core_codec::specs::Trees::tree_node_codec))]
fn put_parts(out: &mut Vec<u8>, alloc: Global, room: u32, parts: &TreeParts) -> Result<bool, Memory>
    ensures { IfOk result (λ b. PutsIf (spell.tree_node_codec (spell.tree room)) (tree_cases parts.now) out.old.items out.new.items b) }
{
    match parts {
        TreeParts::Atom(atom) => {
            out.push(0)?;
            atom.put(out)?;
            Ok(true)
        }
        TreeParts::Leaf(symbol, context) => {
            out.push(1)?;
            symbol.put(out)?;
            context.put(out, alloc)?;
            Ok(true)
        }
        TreeParts::List(items, tail) => {
            out.push(2)?;
            put_list(out, alloc, room, items, tail)
        }
        TreeParts::Vector(items) => {
            out.push(3)?;
            put_trees(out, alloc, room, items)
        }
    }
}

/// The elements and the tail.
#[cycle(tree_put)]
fn put_list(
    out: &mut Vec<u8>,
    alloc: Global,
    room: u32,
    items: &[Syn],
    tail: &Syn,
) -> Result<bool, Memory>
    ensures { IfOk result (λ b.
        PutsIf (checked spell.is_tree_list (listed (spell.tree room) then spell.tree room)) (items.now, tail.now)
        out.old.items out.new.items b) }
{
    if !is_some_list(items) || !is_tail(alloc, tail)? {
        return Ok(false);
    }
    if !put_trees(out, alloc, room, items)? {
        return Ok(false);
    }
    if !put_tree(out, alloc, room, tail)? {
        return Ok(false);
    }
    Ok(true)
}

fn is_some_list(items: &[Syn]) -> bool
    ensures { result ≡ spell.is_some_list items.now }
{
    match items {
        [] => false,
        [_, ..] => true,
    }
}

#[cycle(tree_put)]
fn put_trees(out: &mut Vec<u8>, alloc: Global, room: u32, trees: &[Syn]) -> Result<bool, Memory>
    ensures { IfOk result (λ b. PutsIf (listed (spell.tree room)) trees.now out.old.items out.new.items b) }
{
    put_u64(out, trees.len() as u64)?;
    for tree in trees {
        if !put_tree(out, alloc, room, tree)? {
            return Ok(false);
        }
    }
    Ok(true)
}

/// The tree that the bytes begin with, where it is at most so high, and the bytes behind it.
#[cycle(tree_read)]
#[tactic(auto, using(crate::specs::Seen::tree_none, crate::specs::Seen::tree_more))]
pub fn tree_at<'a>(
    libraries: &mut RecentLibraries,
    room: u32,
    bytes: &'a [u8],
) -> Result<Option<(Syn, &'a [u8])>, Memory>
    ensures { IfOk result (λ o. option_map (λ x. (x.0, x.1.now)) o ≡ (spell.tree room).get bytes.now) }
{
    if room == 0 {
        return Ok(None);
    }
    level_at(libraries, room - 1, bytes)
}

#[cycle(tree_read)]
#[tactic(auto, unfolding(core_codec::specs::Trees::tree_level))]
fn level_at<'a>(
    libraries: &mut RecentLibraries,
    room: u32,
    bytes: &'a [u8],
) -> Result<Option<(Syn, &'a [u8])>, Memory>
    ensures { IfOk result (λ o. option_map (λ x. (x.0, x.1.now)) o ≡ (spell.tree_level (spell.tree room)).get bytes.now) }
{
    let Some((span, rest)) = Spelled::at(libraries, bytes)? else {
        return Ok(None);
    };
    let Some((parts, rest)) = parts_at(libraries, room, rest)? else {
        return Ok(None);
    };
    let Some(tree) = parts.tree(libraries.alloc(), span)? else {
        return Ok(None);
    };
    Ok(Some((tree, rest)))
}

#[cycle(tree_read)]
#[tactic(auto, unfolding(core_codec::specs::Trees::tree_node_codec))]
fn parts_at<'a>(
    libraries: &mut RecentLibraries,
    room: u32,
    bytes: &'a [u8],
) -> Result<Option<(TreeParts, &'a [u8])>, Memory>
    ensures parts { IfOk result (λ o. option_map (λ x. (tree_cases x.0, x.1.now)) o ≡ (spell.tree_node_codec (spell.tree room)).get bytes.now) }
    ensures proper { IfOk result (λ o. IfSome o (λ x. IsProper x.0)) }
{
    match bytes {
        [0, rest @ ..] => match Atom::at(libraries, rest)? {
            Some((atom, rest)) => Ok(Some((TreeParts::Atom(atom), rest))),
            None => Ok(None),
        },
        [1, rest @ ..] => match leaf_at(libraries, rest)? {
            Some((leaf, rest)) => Ok(Some((TreeParts::Leaf(leaf.symbol, leaf.context), rest))),
            None => Ok(None),
        },
        [2, rest @ ..] => match list_at(libraries, room, rest)? {
            Some((list, rest)) => Ok(Some((TreeParts::List(list.items, list.tail), rest))),
            None => Ok(None),
        },
        [3, rest @ ..] => match trees_at(libraries, room, rest)? {
            Some((items, rest)) => Ok(Some((TreeParts::Vector(items), rest))),
            None => Ok(None),
        },
        _ => Ok(None),
    }
}

/// The symbol of a leaf, and its marks and stamps.
#[derive(Drop)]
struct LeafParts {
    symbol: Symbol,
    context: ContextLists,
}

fn leaf_at<'a>(
    libraries: &mut RecentLibraries,
    bytes: &'a [u8],
) -> Result<Option<(LeafParts, &'a [u8])>, Memory>
    ensures { IfOk result (λ o. option_map (λ x. ((x.0.symbol, context_of x.0.context), x.1.now)) o ≡ (text then context).get bytes.now) }
{
    let Some((symbol, rest)) = Symbol::at(libraries, bytes)? else {
        return Ok(None);
    };
    let Some((context, rest)) = ContextLists::at(libraries, rest)? else {
        return Ok(None);
    };
    Ok(Some((LeafParts { symbol, context }, rest)))
}

#[cycle(tree_read)]
fn list_at<'a>(
    libraries: &mut RecentLibraries,
    room: u32,
    bytes: &'a [u8],
) -> Result<Option<(ElementsAndTail, &'a [u8])>, Memory>
    ensures list { IfOk result (λ o. option_map (λ x. ((x.0.items.items, x.0.tail), x.1.now)) o
        ≡ (checked spell.is_tree_list (listed (spell.tree room) then spell.tree room)).get bytes.now) }
    ensures proper { IfOk result (λ o. IfSome o (λ x. spell.is_tree_list (x.0.items.items, x.0.tail) ≡ true)) }
{
    let Some((items, rest)) = trees_at(libraries, room, bytes)? else {
        return Ok(None);
    };
    let Some((tail, rest)) = tree_at(libraries, room, rest)? else {
        return Ok(None);
    };
    if !is_some_list(&items) || !is_tail(libraries.alloc(), &tail)? {
        return Ok(None);
    }
    Ok(Some((ElementsAndTail { items, tail }, rest)))
}

#[cycle(tree_read)]
fn trees_at<'a>(
    libraries: &mut RecentLibraries,
    room: u32,
    bytes: &'a [u8],
) -> Result<Option<(Vec<Syn>, &'a [u8])>, Memory>
    ensures { IfOk result (λ o. option_map (λ x. (x.0.items, x.1.now)) o ≡ (listed (spell.tree room)).get bytes.now) }
{
    match u64_at(bytes) {
        Some((count, rest)) => some_trees(libraries, room, count, rest),
        None => Ok(None),
    }
}

#[cycle(tree_read)]
fn some_trees<'a>(
    libraries: &mut RecentLibraries,
    room: u32,
    count: u64,
    bytes: &'a [u8],
) -> Result<Option<(Vec<Syn>, &'a [u8])>, Memory>
    ensures { IfOk result (λ o. option_map (λ x. (x.0.items, x.1.now)) o ≡ some_get (spell.tree room).get count bytes.now) }
{
    let mut list = list_for(libraries.alloc(), count, MOST_AHEAD)?;
    let mut rest = bytes;
    for _ in 0..count {
        let Some((tree, after)) = tree_at(libraries, room, rest)? else {
            return Ok(None);
        };
        list.push(tree)?;
        rest = after;
    }
    Ok(Some((list, rest)))
}
