//! Trees of templates under binds of which one took the rest of a list.
//!
//! Where a list of a template ends in that variable under its ellipsis, the list that it took stands there as it is. Where its
//! elements are asked for otherwise, nothing is told.

ghost use Rattle.std.specs.Prelude.{◌≡◌, ◌+◌, [], ◌∷◌, ◌++◌, Some, None, Ok, IfOk, IfSome, IsTrue, true, option_map};
ghost use Rattle.stx_tree.specs.Tree.{list_of, vector_of, spanned};
ghost use Rattle.stx_tree.specs.Measures.{within};
ghost use Rattle.core_language.specs.Template as plain;
ghost use Rattle.core_language.specs.TemplateView.{items};
ghost use Rattle.base_data.specs.Same.{same_name};
ghost use Rattle.eval_template.specs.Binds.{unbound, looked_up};
ghost use Rattle.eval_template.specs.Instance.{counts, is_end};
ghost use Rattle.eval_template.specs.Measure.{measure, item_cost};
ghost use Rattle.eval_template.specs.Trees.{ok_of, joined, item_trees, tree_of};
ghost use Rattle.eval_template.specs.Rests.{Under, IsMade, IsEndMade, AreMade, AreAdded, IsRestItem, EndsInRest};

use crate::binds::{InstanceContext, is_bound, tree_at};
use crate::instance::{TemplatePart, is_end};
use crate::measure::item_cost;
use crate::tree::{all_bound, item, joined, made};
use base_data::atom::Atom;
use base_data::fault::BareStop;
use base_data::memory::Memory;
use base_data::name::Label;
use core_language::template::{Template, TemplateItem, TemplateNode};
use eval_value::bind::Bind;
use std::alloc::Global;
use stx_object::syn::Syn;

/// Binds, and behind them a variable under an ellipsis with the list that it took and the number of its elements.
#[derive(Drop)]
pub struct RestContext<'a> {
    pub alloc: Global,
    pub binds: &'a [(Label, Bind)],
    pub label: &'a Label,
    pub rest: &'a Syn,
    pub count: u64,
}

/// A tree, and what its instance costs.
#[derive(Drop)]
pub struct RestTree {
    pub tree: Syn,
    pub cost: u64,
}

// The trees of items, and what they cost with their places.
#[derive(Drop)]
struct RestTrees {
    trees: Vec<Syn>,
    cost: u64,
}

fn is_same(label: &Label, other: &Label) -> bool
    ensures { result ≡ same_name label.now.0 other.now.0 }
{
    *label == *other
}

/// Whether a variable of so many ellipses is the one that took the rest.
fn takes_rest(context: &RestContext, label: &Label, depth: u32) -> bool
    ensures { IsTrue result → (plain.variable label.now depth ≡ plain.variable context.now.label.now 1)
        × (looked_up context.now.binds.now context.now.label.now ≡ None) }
{
    if depth != 1 {
        return false;
    }
    if is_bound(context.binds, context.label) {
        return false;
    }
    is_same(label, context.label)
}

/// Whether an item is the variable that took the rest, under its ellipsis.
#[tactic(auto, using(crate::proofs::RestItem::rest_item))]
fn is_rest(context: &RestContext, item: &TemplateItem) -> bool
    ensures { IsTrue result → IsRestItem context.now item.now }
{
    if item.ellipses != 1 {
        return false;
    }
    match &item.template.node {
        TemplateNode::Variable(label, depth) => takes_rest(context, label, *depth),
        _ => false,
    }
}

/// The items before the last, where that is the variable that took the rest and the list ends there.
#[tactic(auto, using(crate::proofs::RestItem::ends_so))]
fn before_rest<'a>(
    context: &RestContext,
    list: &'a [TemplateItem],
    tail: &Template,
) -> Result<Option<&'a [TemplateItem]>, Memory>
    ensures { IfOk result (λ o. IfSome o (λ before. (is_end tail.now ≡ true) × EndsInRest context.now before.now list.now)) }
{
    if !is_end(context.alloc, tail)? {
        return Ok(None);
    }
    let Some((last, before)) = list.split_last() else {
        return Ok(None);
    };
    if is_rest(context, last) {
        return Ok(Some(before));
    }
    Ok(None)
}

/// The tree that a variable of so many ellipses took that is among the binds.
fn bound_tree(context: &RestContext, label: &Label, depth: u64) -> Result<Option<RestTree>, Memory>
    ensures { IfOk result (λ o. IfSome o (λ m. Under context.now (IsMade m (plain.variable label.now depth)))) }
{
    if !is_bound(context.binds, label) {
        return Ok(None);
    }
    match tree_at(context.binds, label, depth, &[])? {
        None => Ok(None),
        Some(tree) => Ok(Some(RestTree { tree, cost: 0 })),
    }
}

#[tactic(auto, using(crate::proofs::RestParts::constant_made))]
fn constant_tree(context: &RestContext, form: &Syn) -> Result<Option<RestTree>, Memory>
    ensures { IfOk result (λ o. IfSome o (λ m. Under context.now (IsMade m (plain.constant form.now)))) }
{
    let tree = form.share()?;
    Ok(Some(RestTree { tree, cost: 0 }))
}

// Lists and vectors of trees that are made.

fn list_before(alloc: Global, trees: Vec<Syn>, rest: Syn) -> Result<Option<Syn>, Memory>
    ensures { IfOk result (λ o. o ≡ ok_of (within (list_of trees.items (Some rest)))) }
{
    made(Syn::list(alloc, trees, Some(rest)))
}

/// Trees before the rest of the list.
fn before_the_rest(context: &RestContext, before: RestTrees) -> Result<Option<RestTree>, Memory>
    ensures { IfOk result (λ o. IfSome o (λ m. (Some m.tree ≡ ok_of (within (list_of before.trees.items (Some (spanned None context.now.rest.now)))))
        × (m.cost ≡ before.cost + context.now.count))) }
{
    let RestTrees { trees, cost } = before;
    let Some(cost) = cost.checked_add(context.count) else {
        return Ok(None);
    };
    let rest = context.rest.spanned(context.alloc, None)?;
    match list_before(context.alloc, trees, rest)? {
        None => Ok(None),
        Some(tree) => Ok(Some(RestTree { tree, cost })),
    }
}

/// Trees before what ends a list.
fn before_end(alloc: Global, before: RestTrees, end: RestTree) -> Result<Option<RestTree>, Memory>
    ensures { IfOk result (λ o. IfSome o (λ m. (Some m.tree ≡ joined before.trees.items end.tree) × (m.cost ≡ before.cost + end.cost))) }
{
    let RestTrees { trees, cost } = before;
    let RestTree {
        tree: last,
        cost: own,
    } = end;
    let Some(cost) = cost.checked_add(own) else {
        return Ok(None);
    };
    match joined(alloc, trees, last)? {
        None => Ok(None),
        Some(tree) => Ok(Some(RestTree { tree, cost })),
    }
}

fn vector_of(alloc: Global, trees: Vec<Syn>) -> Result<Option<Syn>, Memory>
    ensures { IfOk result (λ o. o ≡ ok_of (within (vector_of trees.items))) }
{
    made(Syn::vector(alloc, trees))
}

fn as_vector(alloc: Global, elements: RestTrees) -> Result<Option<RestTree>, Memory>
    ensures { IfOk result (λ o. IfSome o (λ m. (Some m.tree ≡ ok_of (within (vector_of elements.trees.items))) × (m.cost ≡ elements.cost))) }
{
    let RestTrees { trees, cost } = elements;
    match vector_of(alloc, trees)? {
        None => Ok(None),
        Some(tree) => Ok(Some(RestTree { tree, cost })),
    }
}

// The cost of an item behind others: 1 for its place beside what it costs itself.
fn sum_of(before: u64, own: u64) -> Option<u64>
    ensures { IfSome result (λ n. n ≡ before + (own + 1)) }
{
    let Some(both) = before.checked_add(own) else {
        return None;
    };
    both.checked_add(1)
}

/// One more tree behind others.
fn with_one(done: RestTrees, one: RestTree) -> Result<Option<RestTrees>, Memory>
    ensures { IfOk result (λ o. IfSome o (λ m. (m.trees.items ≡ done.trees.items ++ one.tree ∷ []) × (m.cost ≡ done.cost + (one.cost + 1)))) }
{
    let RestTrees { mut trees, cost } = done;
    let RestTree { tree, cost: own } = one;
    let Some(cost) = sum_of(cost, own) else {
        return Ok(None);
    };
    trees.push(tree)?;
    Ok(Some(RestTrees { trees, cost }))
}

// Items with ellipses whose variables are all among the binds.

// What an item with ellipses costs, where its lengths agree and a number holds it.
fn repeated_cost(context: &InstanceContext, part: &TemplateItem) -> Result<Option<u64>, Memory>
    ensures { IfOk result (λ o. IfSome o (λ n. item_cost (measure unbound context.now.binds.now part.now.template)
        (counts unbound context.now.binds.now part.now.template) part.now.ellipses [] ≡ Ok n)) }
{
    let mut turns = Vec::new(context.alloc);
    match item_cost(context, &part.template, part.ellipses, &mut turns) {
        Ok(cost) => Ok(cost),
        Err(stop) => match stop {
            BareStop::Fault(_) => Ok(None),
            BareStop::Memory => Err(Memory),
        },
    }
}

fn repeated_trees(
    context: &InstanceContext,
    part: &TemplateItem,
    done: Vec<Syn>,
) -> Result<Option<Vec<Syn>>, Memory>
    ensures { IfOk result (λ o. option_map (λ v. v.items) o ≡ item_trees (tree_of context.now.binds.now part.now.template)
        (counts unbound context.now.binds.now part.now.template) part.now.ellipses [] done.items) }
{
    let repeated = TemplatePart {
        template: &part.template,
        ellipses: part.ellipses,
    };
    let mut turns = Vec::new(context.alloc);
    item(context, &repeated, &mut turns, done)
}

/// The trees of such an item behind others.
fn repeated_item(
    context: &RestContext,
    part: &TemplateItem,
    done: RestTrees,
) -> Result<Option<RestTrees>, Memory>
    ensures { IfOk result (λ o. IfSome o (λ m. Under context.now (AreAdded m done part.now))) }
{
    if !all_bound(context.binds, &part.template) {
        return Ok(None);
    }
    let instance = InstanceContext {
        alloc: context.alloc,
        binds: context.binds,
    };
    let Some(own) = repeated_cost(&instance, part)? else {
        return Ok(None);
    };
    let RestTrees { trees, cost } = done;
    let Some(cost) = cost.checked_add(own) else {
        return Ok(None);
    };
    match repeated_trees(&instance, part, trees)? {
        None => Ok(None),
        Some(trees) => Ok(Some(RestTrees { trees, cost })),
    }
}

// Templates.

/// The tree of a template, and what it costs.
#[cycle(rest)]
pub fn tree_with_rest(
    context: &RestContext,
    template: &Template,
) -> Result<Option<RestTree>, Memory>
    ensures { IfOk result (λ o. IfSome o (λ m. Under context.now (IsMade m template.now))) }
{
    match &template.node {
        TemplateNode::Variable(label, depth) => bound_tree(context, label, u64::from(*depth)),
        TemplateNode::Constant(form) => constant_tree(context, form),
        TemplateNode::List(list, tail) => list_with_rest(context, list, tail),
        TemplateNode::Vector(list) => vector_with_rest(context, list),
    }
}

/// A list, which may end in the rest.
#[cycle(rest)]
fn list_with_rest(
    context: &RestContext,
    list: &[TemplateItem],
    tail: &Template,
) -> Result<Option<RestTree>, Memory>
    ensures { IfOk result (λ o. IfSome o (λ m. Under context.now (IsMade m (plain.list (items list.now) tail.now)))) }
{
    let Some(before) = before_rest(context, list, tail)? else {
        return list_of_items(context, list, tail);
    };
    let Some(items) = items_with_rest(context, before)? else {
        return Ok(None);
    };
    before_the_rest(context, items)
}

/// A list that doesn't end in the rest.
#[cycle(rest)]
fn list_of_items(
    context: &RestContext,
    list: &[TemplateItem],
    tail: &Template,
) -> Result<Option<RestTree>, Memory>
    ensures { IfOk result (λ o. IfSome o (λ m. Under context.now (IsMade m (plain.list (items list.now) tail.now)))) }
{
    let Some(items) = items_with_rest(context, list)? else {
        return Ok(None);
    };
    let Some(end) = ending_with_rest(context, tail)? else {
        return Ok(None);
    };
    before_end(context.alloc, items, end)
}

#[cycle(rest)]
#[tactic(auto, using(crate::proofs::RestParts::nil_made, crate::proofs::RestParts::end_made))]
fn ending_with_rest(context: &RestContext, tail: &Template) -> Result<Option<RestTree>, Memory>
    ensures { IfOk result (λ o. IfSome o (λ m. Under context.now (IsEndMade m tail.now))) }
{
    if is_end(context.alloc, tail)? {
        let tree = Syn::atom(context.alloc, Atom::Nil)?;
        return Ok(Some(RestTree { tree, cost: 0 }));
    }
    tree_with_rest(context, tail)
}

#[cycle(rest)]
fn vector_with_rest(
    context: &RestContext,
    list: &[TemplateItem],
) -> Result<Option<RestTree>, Memory>
    ensures { IfOk result (λ o. IfSome o (λ m. Under context.now (IsMade m (plain.vector (items list.now))))) }
{
    let Some(items) = items_with_rest(context, list)? else {
        return Ok(None);
    };
    as_vector(context.alloc, items)
}

/// The trees of items, from left to right.
#[cycle(rest)]
#[tactic(auto, using(crate::proofs::RestParts::begins, crate::proofs::RestParts::all_made))]
fn items_with_rest(
    context: &RestContext,
    list: &[TemplateItem],
) -> Result<Option<RestTrees>, Memory>
    ensures { IfOk result (λ o. IfSome o (λ m. Under context.now (AreMade m (items list.now)))) }
{
    let mut done = RestTrees {
        trees: Vec::new(context.alloc),
        cost: 0,
    };
    for part in list {
        let Some(more) = item_with_rest(context, part, done)? else {
            return Ok(None);
        };
        done = more;
    }
    Ok(Some(done))
}

/// The trees of an item, behind others.
#[cycle(rest)]
fn item_with_rest(
    context: &RestContext,
    part: &TemplateItem,
    done: RestTrees,
) -> Result<Option<RestTrees>, Memory>
    ensures { IfOk result (λ o. IfSome o (λ m. Under context.now (AreAdded m done part.now))) }
{
    if part.ellipses != 0 {
        return repeated_item(context, part, done);
    }
    let Some(one) = tree_with_rest(context, &part.template)? else {
        return Ok(None);
    };
    with_one(done, one)
}
