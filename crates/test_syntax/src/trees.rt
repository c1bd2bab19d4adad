ghost use Rattle.std.specs.Prelude.{◌≡◌, ◌<◌};

use crate::told::{frame, mark};
use base_data::atom::Atom;
use base_data::fault::BareStop;
use base_data::memory::Memory;
use base_data::steps::Steps;
use std::alloc::Global;
use std::marker::Brand;
use std::sync::ledger::{Blank, Ledger};
use std::test::Fail;
use stx_object::syn::{OpenedTree, Syn};

/// The tree, or none where it would pass a limit.
fn made(outcome: Result<Syn, BareStop>) -> Result<Option<Syn>, Memory> {
    match outcome {
        Ok(tree) => Ok(Some(tree)),
        Err(BareStop::Fault(_)) => Ok(None),
        Err(BareStop::Memory) => Err(Memory),
    }
}

/// The height of a tree, and 0 of none.
fn height(tree: Option<Syn>) -> u32 {
    match tree {
        Some(tree) => tree.height(),
        None => 0,
    }
}

/// The size of a tree, and 0 of none.
fn size(tree: Option<Syn>) -> u32 {
    match tree {
        Some(tree) => tree.size(),
        None => 0,
    }
}

fn number(alloc: Global, n: u32) -> Result<Syn, Memory> {
    Syn::atom(alloc, Atom::Int(i128::from(n)))
}

/// The list of a tree so many times.
fn repeated(alloc: Global, tree: &Syn, times: u32) -> Result<Option<Syn>, Memory> {
    let mut items = Vec::new(alloc);
    for _ in 0..times {
        items.push(tree.share()?)?;
    }
    made(Syn::list(alloc, items, None))
}

fn list_of_lists(alloc: Global, lists: u32, numbers: u32) -> Result<Option<Syn>, Memory> {
    let one = number(alloc, 1)?;
    match repeated(alloc, &one, numbers)? {
        Some(list) => repeated(alloc, &list, lists),
        None => Ok(None),
    }
}

fn enter_and_leave<N: Ledger>(
    alloc: Global,
    tree: &Syn,
    times: u32,
    blank: Blank,
) -> Result<Syn, Memory>
    requires name { blank.name ≡ N.name }
    requires parts { (blank.parts ≡ N.parts) × (0 < N.parts) }
{
    let mut nodes = Steps::<N>::open(blank);
    let mut tree = tree.share()?;
    for _ in 0..times {
        let entered = tree.enter(alloc, mark(alloc, 7)?, &mut nodes)?;
        tree = entered.leave(alloc, mark(alloc, 7)?, None, &mut nodes)?;
    }
    tree.stamp(alloc, frame(alloc, 8)?, &mut nodes)
}

/// The tree that was entered and left so many times, and then stamped.
fn changed(alloc: Global, tree: &Syn, times: u32) -> Result<Syn, Memory> {
    enter_and_leave::<Brand>(alloc, tree, times, Blank::new(1))
}

fn changed_lists(alloc: Global, times: u32) -> Result<Option<Syn>, Memory> {
    match list_of_lists(alloc, 999, 1000)? {
        Some(tree) => Ok(Some(changed(alloc, &tree, times)?)),
        None => Ok(None),
    }
}

/// The rest of a list.
fn rest(alloc: Global, tree: &Syn) -> Result<Option<Syn>, Memory> {
    match tree.open(alloc)? {
        OpenedTree::Pair(_, rest) => Ok(Some(rest)),
        _ => Ok(None),
    }
}

/// How many elements the list has, each taken from the rest that the one before left.
fn walked(alloc: Global, list: &Syn) -> Result<u32, Memory> {
    let mut left = list.share()?;
    for count in 0..2_000_000u32 {
        let Some(next) = rest(alloc, &left)? else {
            return Ok(count);
        };
        left = next;
    }
    Ok(0)
}

fn changed_length(alloc: Global, length: u32) -> Result<u32, Memory> {
    match repeated(alloc, &number(alloc, 1)?, length)? {
        Some(list) => walked(alloc, &changed(alloc, &list, 1)?),
        None => Ok(0),
    }
}

/// The list of a tree and 1.
fn with_one(alloc: Global, tree: Syn) -> Result<Option<Syn>, Memory> {
    let mut items = Vec::new(alloc);
    items.push(tree)?;
    items.push(number(alloc, 1)?)?;
    made(Syn::list(alloc, items, None))
}

/// Each round puts the rest of a list into the next one.
fn nested_rests(alloc: Global, rounds: u32) -> Result<Option<Syn>, Memory> {
    let mut left = number(alloc, 0)?;
    for _ in 0..rounds {
        let Some(list) = with_one(alloc, left)? else {
            return Ok(None);
        };
        let Some(next) = rest(alloc, &list)? else {
            return Ok(None);
        };
        left = next;
    }
    Ok(Some(left))
}

#[test]
fn large_trees_cost_one_node_a_change_and_a_rest(rt: HostRuntime) -> Result<(), Fail> {
    let alloc = rt.alloc();
    assert_eq!(rt; size(list_of_lists(alloc, 999, 1000)?), 1_000_000);
    assert_eq!(rt; height(list_of_lists(alloc, 999, 1000)?), 3);
    assert_eq!(rt; size(changed_lists(alloc, 10_000)?), 1_000_000);
    assert_eq!(rt; changed_length(alloc, 1_000_000)?, 1_000_000);
    assert_eq!(rt; height(nested_rests(alloc, 20_000)?), 2);
    Ok(())
}
