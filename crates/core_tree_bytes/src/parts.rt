//! One level of a syntax tree.

ghost use Rattle.std.specs.Prelude.{◌≡◌, IfOk, is_some};
ghost use Rattle.core_codec.specs.Trees.{is_tail, tree_node};
ghost use Rattle.stx_tree.specs.Leaves.{marks_of, stamps_of};
ghost use Rattle.stx_tree.specs.Tree.{span_of};
ghost use Rattle.core_tree_bytes.specs.Contexts.{context_of};
ghost use Rattle.core_tree_bytes.specs.Parts.{IsRestOf, IsListOf, PartsOf, IsProper, tree_cases};

use crate::contexts::ContextLists;
use base_data::atom::Atom;
use base_data::fault::BareStop;
use base_data::memory::Memory;
use base_data::span::Span;
use base_data::symbol::Symbol;
use std::alloc::Global;
use stx_object::syn::{OpenedTree, Syn};

/// What a syntax tree is, but for its span.
#[derive(Drop)]
pub(crate) enum TreeParts {
    Atom(Atom),
    Leaf(Symbol, ContextLists),
    /// The elements, and the tail.
    List(Vec<Syn>, Syn),
    Vector(Vec<Syn>),
}

/// The elements of a list, and its tail.
#[derive(Drop)]
pub(crate) struct ElementsAndTail {
    pub(crate) items: Vec<Syn>,
    pub(crate) tail: Syn,
}

/// What stands behind an element of a list.
#[derive(Drop)]
enum Rest {
    /// A further element, and what stands behind it.
    Pair(Syn, Syn),
    Tail,
    /// A list that has a span, as no rest of a list has.
    Spanned,
}

fn has_span(tree: &Syn) -> bool
    ensures { result ≡ is_some (span_of tree.now) }
{
    match tree.span() {
        Some(_) => true,
        None => false,
    }
}

#[tactic(auto, using(crate::proofs::Shapes::spanned_pair, crate::proofs::Shapes::plain_pair, crate::proofs::Shapes::spanned_nil, crate::proofs::Shapes::plain_nil, crate::proofs::Shapes::atom_tail, crate::proofs::Shapes::leaf_tail))]
fn rest_of(alloc: Global, rest: &Syn) -> Result<Rest, Memory>
    ensures { IfOk result (λ r. IsRestOf r rest.now) }
{
    let has_span = has_span(rest);
    match rest.open(alloc)? {
        OpenedTree::Pair(first, after) => {
            if has_span {
                Ok(Rest::Spanned)
            } else {
                Ok(Rest::Pair(first, after))
            }
        }
        OpenedTree::Atom(Atom::Nil) => {
            if has_span {
                Ok(Rest::Spanned)
            } else {
                Ok(Rest::Tail)
            }
        }
        OpenedTree::Atom(_) => Ok(Rest::Tail),
        OpenedTree::Symbol(_) => Ok(Rest::Tail),
        OpenedTree::Vector(_) => Ok(Rest::Tail),
    }
}

/// Whether a tree may stand behind the last element of a list.
#[tactic(auto, using(crate::proofs::Shapes::not_tail))]
pub(crate) fn is_tail(alloc: Global, tree: &Syn) -> Result<bool, Memory>
    ensures { IfOk result (λ b. b ≡ is_tail tree.now) }
{
    match rest_of(alloc, tree)? {
        Rest::Tail => Ok(true),
        Rest::Pair(_, _) => Ok(false),
        Rest::Spanned => Ok(false),
    }
}

/// The elements and the tail of a list, where no rest of it has a span.
#[tactic(auto, using(crate::proofs::Shapes::one_more, crate::proofs::Shapes::all_there, crate::proofs::Shapes::rest_smaller))]
fn list_of(alloc: Global, first: Syn, rest: Syn) -> Result<Option<ElementsAndTail>, Memory>
    ensures { IfOk result (λ o. IsListOf o first rest) }
{
    let mut items = Vec::new(alloc);
    items.push(first)?;
    let mut left = rest;
    loop {
        match rest_of(alloc, &left)? {
            Rest::Pair(item, after) => {
                items.push(item)?;
                left = after;
            }
            Rest::Tail => return Ok(Some(ElementsAndTail { items, tail: left })),
            Rest::Spanned => return Ok(None),
        }
    }
}

/// The marks and stamps of a leaf.
fn context_of(alloc: Global, leaf: &Syn) -> Result<ContextLists, Memory>
    ensures { IfOk result (λ c. context_of c ≡ record { marks = marks_of leaf.now; stamps = stamps_of leaf.now }) }
{
    let marks = leaf.marks(alloc)?;
    let stamps = leaf.stamps(alloc)?;
    Ok(ContextLists { marks, stamps })
}

/// The list of these elements and this tail, with this span, where it is within the limits.
#[tactic(auto, using(crate::proofs::Shapes::list_ok, crate::proofs::Shapes::list_err))]
fn list_tree(
    alloc: Global,
    span: Option<Span>,
    items: Vec<Syn>,
    tail: Syn,
) -> Result<Option<Syn>, Memory>
    requires { IsProper (TreeParts.List items tail) }
    ensures { IfOk result (λ o. o ≡ within_limits (tree_node span (tree_cases (TreeParts.List items tail)))) }
{
    match Syn::list(alloc, items, Some(tail)) {
        Ok(list) => {
            let list = list.spanned(alloc, span)?;
            Ok(Some(list))
        }
        Err(BareStop::Fault(_)) => Ok(None),
        Err(BareStop::Memory) => Err(Memory),
    }
}

ghost use Rattle.core_tree_bytes.specs.declared.parts.TreeParts.TheVariants as Parts;
ghost use Rattle.core_tree_bytes.specs.Parts.{within_limits};

/// The vector of these elements, with this span, where it is within the limits.
#[tactic(auto, using(crate::proofs::Shapes::vector_ok, crate::proofs::Shapes::vector_err))]
fn vector_tree(alloc: Global, span: Option<Span>, items: Vec<Syn>) -> Result<Option<Syn>, Memory>
    ensures { IfOk result (λ o. o ≡ within_limits (tree_node span (tree_cases (TreeParts.Vector items)))) }
{
    match Syn::vector(alloc, items) {
        Ok(vector) => {
            let vector = vector.spanned(alloc, span)?;
            Ok(Some(vector))
        }
        Err(BareStop::Fault(_)) => Ok(None),
        Err(BareStop::Memory) => Err(Memory),
    }
}

impl TreeParts {
    /// What a tree is, where it has a spelling: no rest of a list has a span.
    #[tactic(auto, using(crate::proofs::Shapes::atom_parts, crate::proofs::Shapes::leaf_parts, crate::proofs::Shapes::list_parts, crate::proofs::Shapes::no_parts, crate::proofs::Shapes::elements_parts))]
    pub(crate) fn of(alloc: Global, tree: &Syn) -> Result<Option<TreeParts>, Memory>
        ensures { IfOk result (λ o. PartsOf o tree.now) }
    {
        match tree.open(alloc)? {
            OpenedTree::Atom(atom) => Ok(Some(TreeParts::Atom(atom))),
            OpenedTree::Symbol(symbol) => {
                let context = context_of(alloc, tree)?;
                Ok(Some(TreeParts::Leaf(symbol, context)))
            }
            OpenedTree::Pair(first, rest) => match list_of(alloc, first, rest)? {
                Some(list) => Ok(Some(TreeParts::List(list.items, list.tail))),
                None => Ok(None),
            },
            OpenedTree::Vector(elements) => Ok(Some(TreeParts::Vector(elements))),
        }
    }

    /// The tree of these parts with this span, where it is within the limits.
    pub(crate) fn tree(self, alloc: Global, span: Option<Span>) -> Result<Option<Syn>, Memory>
        requires { IsProper self }
        ensures { IfOk result (λ o. o ≡ within_limits (tree_node span (tree_cases self))) }
    {
        match self {
            TreeParts::Atom(atom) => {
                let tree = Syn::atom(alloc, atom)?;
                let tree = tree.spanned(alloc, span)?;
                Ok(Some(tree))
            }
            TreeParts::Leaf(symbol, context) => {
                let leaf = Syn::whole_leaf(alloc, span, &symbol, context.marks, context.stamps)?;
                Ok(Some(leaf))
            }
            TreeParts::List(items, tail) => list_tree(alloc, span, items, tail),
            TreeParts::Vector(items) => vector_tree(alloc, span, items),
        }
    }
}
