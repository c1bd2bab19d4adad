//! The first elements of lists.

ghost use Rattle.std.specs.Prelude.{◌≡◌, [], length, IfOk};
ghost use Rattle.eval_pattern.specs.Front.{has_room, store_front, tree_front, further, front};

use crate::values::stored_pair;
use base_data::items::Items;
use base_data::memory::Memory;
use base_region::region::Region;
use core_shapes::lists::split_first;
use eval_value::cell::Cell;
use eval_value::value::Value;
use std::alloc::Global;
use stx_object::syn::Syn;

/// The first elements of a list, and what is behind them.
#[derive(Drop)]
pub struct Front {
    pub elements: Items<Value>,
    pub rest: Value,
}

fn has_room(limit: Option<usize>, taken: usize) -> bool
    ensures { result ≡ has_room limit taken }
{
    match limit {
        None => true,
        Some(limit) => taken < limit,
    }
}

/// The first elements that lie in pairs of the store.
#[tactic(auto, using(crate::proofs::Fronts::store_full, crate::proofs::Fronts::store_ends, crate::proofs::Fronts::store_on))]
fn store_front(
    alloc: Global,
    value: &Value,
    limit: Option<usize>,
    cells: &Region<Cell>,
) -> Result<Front, Memory>
    ensures { IfOk result (λ f. f ≡ store_front cells.now.list (length cells.now.list) limit [] value.now) }
{
    let mut elements = Items::new(alloc);
    let mut rest = value;
    for _ in 0..cells.len() {
        if !has_room(limit, elements.as_slice().len()) {
            let rest = rest.share()?;
            return Ok(Front { elements, rest });
        }
        let Some((first, next)) = stored_pair(rest, cells) else {
            let rest = rest.share()?;
            return Ok(Front { elements, rest });
        };
        elements.push(first.share()?)?;
        rest = next;
    }
    let rest = rest.share()?;
    Ok(Front { elements, rest })
}

/// Further elements, which lie in a syntax tree.
#[tactic(auto, using(crate::proofs::Fronts::tree_full, crate::proofs::Fronts::tree_ends, crate::proofs::Fronts::tree_on))]
fn tree_front(
    alloc: Global,
    elements: Items<Value>,
    tree: Syn,
    limit: Option<usize>,
) -> Result<Front, Memory>
    ensures { IfOk result (λ f. f ≡ tree_front limit elements tree) }
{
    let mut elements = elements;
    let mut rest = tree;
    'more: while has_room(limit, elements.as_slice().len()) {
        let Some(split) = split_first(alloc, &rest)? else {
            let rest = Value::Syn(rest);
            return Ok(Front { elements, rest });
        };
        elements.push(Value::Syn(split.first))?;
        rest = split.rest;
    }
    let rest = Value::Syn(rest);
    Ok(Front { elements, rest })
}

fn further(alloc: Global, begun: Front, limit: Option<usize>) -> Result<Front, Memory>
    ensures { IfOk result (λ f. f ≡ further limit begun.elements begun.rest) }
{
    let Front { elements, rest } = begun;
    match rest {
        Value::Syn(tree) => tree_front(alloc, elements, tree, limit),
        rest => Ok(Front { elements, rest }),
    }
}

/// The first elements of a list, as many as there are up to a limit, and what is behind them. Pairs of
/// the store and of a syntax tree are opened alike.
pub(crate) fn front_of(
    alloc: Global,
    value: &Value,
    limit: Option<usize>,
    cells: &Region<Cell>,
) -> Result<Front, Memory>
    ensures { IfOk result (λ f. f ≡ front cells.now.list limit value.now) }
{
    let begun = store_front(alloc, value, limit, cells)?;
    further(alloc, begun, limit)
}
