//! Templates as bytes.

ghost use Rattle.std.specs.Prelude.{◌≡◌, IfOk, map, option_map};
ghost use Rattle.base_bytes.specs.Codec.{listed, some_get, u32, ◌then◌};
ghost use Rattle.base_bytes.specs.Names.{label};
ghost use Rattle.base_bytes.specs.Puts.{PutsIf};
ghost use Rattle.core_codec.specs.Code as spell;
ghost use Rattle.core_language.specs.TemplateView.{items, seen};
ghost use Rattle.core_pattern_bytes.specs.Seen.{item_part};

use base_bytes::libraries::RecentLibraries;
use base_bytes::numbers::{put_u32, put_u64, u32_at, u64_at};
use base_bytes::room::{MOST_AHEAD, list_for};
use base_bytes::spelled::Spelled;
use base_data::memory::Memory;
use base_data::name::Label;
use core_language::template::{Template, TemplateItem, TemplateNode};
use core_tree_bytes::trees::{put_tree, tree_at};
use std::alloc::Global;
use std::boxed::Box;

/// How high the tree of a constant may be.
const MAX_TREE: u32 = 1000;

/// Adds the spelling of a template that is at most so high.
#[cycle(template_put)]
#[tactic(auto, using(crate::specs::Seen::template_none, crate::specs::Seen::template_more))]
pub fn put_template(
    out: &mut Vec<u8>,
    alloc: Global,
    room: u32,
    template: &Template,
) -> Result<bool, Memory>
    ensures { IfOk result (λ b. PutsIf (spell.template room) template.now out.old.items out.new.items b) }
{
    if room == 0 {
        return Ok(false);
    }
    put_node(out, alloc, room - 1, &template.node)
}

#[cycle(template_put)]
#[tactic(auto, unfolding(core_codec::specs::Code::template_level))]
fn put_node(
    out: &mut Vec<u8>,
    alloc: Global,
    room: u32,
    node: &TemplateNode,
) -> Result<bool, Memory>
    ensures { IfOk result (λ b. PutsIf (spell.template_level (spell.template room)) (seen node.now) out.old.items out.new.items b) }
{
    match node {
        TemplateNode::Variable(label, depth) => {
            out.push(0)?;
            label.put(out)?;
            put_u32(out, *depth)?;
            Ok(true)
        }
        TemplateNode::Constant(tree) => {
            out.push(1)?;
            put_tree(out, alloc, MAX_TREE, tree)
        }
        TemplateNode::List(items, tail) => {
            out.push(2)?;
            put_list(out, alloc, room, items, tail)
        }
        TemplateNode::Vector(items) => {
            out.push(3)?;
            put_items(out, alloc, room, items)
        }
    }
}

/// The items and the tail.
#[cycle(template_put)]
fn put_list(
    out: &mut Vec<u8>,
    alloc: Global,
    room: u32,
    list: &[TemplateItem],
    tail: &Template,
) -> Result<bool, Memory>
    ensures { IfOk result (λ b.
        PutsIf (spell.items (spell.template room) then spell.template room) (items list.now, tail.now)
        out.old.items out.new.items b) }
{
    if !put_items(out, alloc, room, list)? {
        return Ok(false);
    }
    if !put_template(out, alloc, room, tail)? {
        return Ok(false);
    }
    Ok(true)
}

#[cycle(template_put)]
#[tactic(auto, unfolding(core_codec::specs::Code::items), using(crate::specs::Seen::items_are))]
fn put_items(
    out: &mut Vec<u8>,
    alloc: Global,
    room: u32,
    list: &[TemplateItem],
) -> Result<bool, Memory>
    ensures { IfOk result (λ b. PutsIf (spell.items (spell.template room)) (items list.now) out.old.items out.new.items b) }
{
    put_all(out, alloc, room, list)
}

#[cycle(template_put)]
fn put_all(
    out: &mut Vec<u8>,
    alloc: Global,
    room: u32,
    list: &[TemplateItem],
) -> Result<bool, Memory>
    ensures { IfOk result (λ b. PutsIf (listed (spell.template room then u32)) (map item_part list.now) out.old.items out.new.items b) }
{
    put_u64(out, list.len() as u64)?;
    for item in list {
        if !put_item(out, alloc, room, item)? {
            return Ok(false);
        }
    }
    Ok(true)
}

#[cycle(template_put)]
fn put_item(
    out: &mut Vec<u8>,
    alloc: Global,
    room: u32,
    item: &TemplateItem,
) -> Result<bool, Memory>
    ensures { IfOk result (λ b. PutsIf (spell.template room then u32) (item_part item.now) out.old.items out.new.items b) }
{
    if !put_template(out, alloc, room, &item.template)? {
        return Ok(false);
    }
    put_u32(out, item.ellipses)?;
    Ok(true)
}

/// The template that the bytes begin with, where it is at most so high, and the bytes behind it.
#[cycle(template_read)]
#[tactic(auto, using(crate::specs::Seen::template_none, crate::specs::Seen::template_more))]
pub fn template_at<'a>(
    libraries: &mut RecentLibraries,
    room: u32,
    bytes: &'a [u8],
) -> Result<Option<(Template, &'a [u8])>, Memory>
    ensures { IfOk result (λ o. option_map (λ x. (x.0, x.1.now)) o ≡ (spell.template room).get bytes.now) }
{
    if room == 0 {
        return Ok(None);
    }
    match node_at(libraries, room - 1, bytes)? {
        Some((node, rest)) => Ok(Some((Template { node }, rest))),
        None => Ok(None),
    }
}

#[cycle(template_read)]
#[tactic(auto, unfolding(core_codec::specs::Code::template_level))]
fn node_at<'a>(
    libraries: &mut RecentLibraries,
    room: u32,
    bytes: &'a [u8],
) -> Result<Option<(TemplateNode, &'a [u8])>, Memory>
    ensures { IfOk result (λ o. option_map (λ x. (seen x.0, x.1.now)) o ≡ (spell.template_level (spell.template room)).get bytes.now) }
{
    match bytes {
        [0, rest @ ..] => match variable_at(libraries, rest)? {
            Some((variable, rest)) => {
                let node = TemplateNode::Variable(variable.label, variable.depth);
                Ok(Some((node, rest)))
            }
            None => Ok(None),
        },
        [1, rest @ ..] => match tree_at(libraries, MAX_TREE, rest)? {
            Some((tree, rest)) => Ok(Some((TemplateNode::Constant(tree), rest))),
            None => Ok(None),
        },
        [2, rest @ ..] => match list_at(libraries, room, rest)? {
            Some((list, rest)) => Ok(Some((TemplateNode::List(list.items, list.tail), rest))),
            None => Ok(None),
        },
        [3, rest @ ..] => match items_at(libraries, room, rest)? {
            Some((list, rest)) => Ok(Some((TemplateNode::Vector(list), rest))),
            None => Ok(None),
        },
        _ => Ok(None),
    }
}

/// A pattern variable, with its depth.
#[derive(Drop)]
struct VariableBytes {
    label: Label,
    depth: u32,
}

fn variable_at<'a>(
    libraries: &mut RecentLibraries,
    bytes: &'a [u8],
) -> Result<Option<(VariableBytes, &'a [u8])>, Memory>
    ensures { IfOk result (λ o. option_map (λ x. ((x.0.label, x.0.depth), x.1.now)) o ≡ (label then u32).get bytes.now) }
{
    let Some((label, rest)) = Label::at(libraries, bytes)? else {
        return Ok(None);
    };
    match u32_at(rest) {
        Some((depth, rest)) => Ok(Some((VariableBytes { label, depth }, rest))),
        None => Ok(None),
    }
}

/// The items of a list, and its tail.
#[derive(Drop)]
struct ItemsAndTail {
    items: Vec<TemplateItem>,
    tail: Box<Template>,
}

#[cycle(template_read)]
fn list_at<'a>(
    libraries: &mut RecentLibraries,
    room: u32,
    bytes: &'a [u8],
) -> Result<Option<(ItemsAndTail, &'a [u8])>, Memory>
    ensures { IfOk result (λ o. option_map (λ x. ((items x.0.items.items, x.0.tail.value), x.1.now)) o
        ≡ (spell.items (spell.template room) then spell.template room).get bytes.now) }
{
    let Some((items, rest)) = items_at(libraries, room, bytes)? else {
        return Ok(None);
    };
    let Some((tail, rest)) = template_at(libraries, room, rest)? else {
        return Ok(None);
    };
    let tail = Box::new(libraries.alloc(), tail)?;
    Ok(Some((ItemsAndTail { items, tail }, rest)))
}

#[cycle(template_read)]
#[tactic(auto, unfolding(core_codec::specs::Code::items), using(crate::specs::Seen::items_back))]
fn items_at<'a>(
    libraries: &mut RecentLibraries,
    room: u32,
    bytes: &'a [u8],
) -> Result<Option<(Vec<TemplateItem>, &'a [u8])>, Memory>
    ensures { IfOk result (λ o. option_map (λ x. (items x.0.items, x.1.now)) o ≡ (spell.items (spell.template room)).get bytes.now) }
{
    match all_at(libraries, room, bytes)? {
        Some((list, rest)) => Ok(Some((list, rest))),
        None => Ok(None),
    }
}

#[cycle(template_read)]
fn all_at<'a>(
    libraries: &mut RecentLibraries,
    room: u32,
    bytes: &'a [u8],
) -> Result<Option<(Vec<TemplateItem>, &'a [u8])>, Memory>
    ensures { IfOk result (λ o. option_map (λ x. (map item_part x.0.items, x.1.now)) o ≡ (listed (spell.template room then u32)).get bytes.now) }
{
    match u64_at(bytes) {
        Some((count, rest)) => some_items(libraries, room, count, rest),
        None => Ok(None),
    }
}

#[cycle(template_read)]
fn some_items<'a>(
    libraries: &mut RecentLibraries,
    room: u32,
    count: u64,
    bytes: &'a [u8],
) -> Result<Option<(Vec<TemplateItem>, &'a [u8])>, Memory>
    ensures { IfOk result (λ o. option_map (λ x. (map item_part x.0.items, x.1.now)) o ≡ some_get (spell.template room then u32).get count bytes.now) }
{
    let mut list = list_for(libraries.alloc(), count, MOST_AHEAD)?;
    let mut rest = bytes;
    for _ in 0..count {
        let Some((item, after)) = item_at(libraries, room, rest)? else {
            return Ok(None);
        };
        list.push(item)?;
        rest = after;
    }
    Ok(Some((list, rest)))
}

#[cycle(template_read)]
fn item_at<'a>(
    libraries: &mut RecentLibraries,
    room: u32,
    bytes: &'a [u8],
) -> Result<Option<(TemplateItem, &'a [u8])>, Memory>
    ensures { IfOk result (λ o. option_map (λ x. (item_part x.0, x.1.now)) o ≡ (spell.template room then u32).get bytes.now) }
{
    let Some((template, rest)) = template_at(libraries, room, bytes)? else {
        return Ok(None);
    };
    match u32_at(rest) {
        Some((ellipses, rest)) => Ok(Some((TemplateItem { template, ellipses }, rest))),
        None => Ok(None),
    }
}
