//! The parts of forms as lists.

ghost use Rattle.std.specs.Prelude.{◌≡◌, IfOk, option_map};
ghost use Rattle.core_shapes.specs.Lists.{is_leaf, is_nil, is_nil_atom, split_first, elements, tail_of, proper_elements, all_ids};

use base_data::atom::Atom;
use base_data::items::Items;
use base_data::memory::Memory;
use std::alloc::Global;
use stx_object::syn::{OpenedTree, Syn};

/// The first element of a list, and the rest.
#[derive(Drop)]
pub struct Split {
    pub first: Syn,
    pub rest: Syn,
}

/// The elements of a list, and what stands behind the last.
#[derive(Drop)]
pub struct ListElements {
    pub elements: Items<Syn>,
    pub tail: Syn,
}

/// Whether a form is an identifier.
#[tactic(auto, using(crate::proofs::Opened::no_leaf_atom, crate::proofs::Opened::a_leaf, crate::proofs::Opened::no_leaf_pair, crate::proofs::Opened::no_leaf_vector))]
pub fn is_id(alloc: Global, form: &Syn) -> Result<bool, Memory>
    ensures { IfOk result (λ b. b ≡ is_leaf form.now) }
{
    match form.open(alloc)? {
        OpenedTree::Symbol(_) => Ok(true),
        OpenedTree::Atom(_) => Ok(false),
        OpenedTree::Pair(_, _) => Ok(false),
        OpenedTree::Vector(_) => Ok(false),
    }
}

/// Whether a form is the empty list.
#[tactic(auto, using(crate::proofs::Opened::nil_by_atom, crate::proofs::Opened::no_nil_leaf, crate::proofs::Opened::no_nil_pair, crate::proofs::Opened::no_nil_vector))]
pub fn is_nil(alloc: Global, form: &Syn) -> Result<bool, Memory>
    ensures { IfOk result (λ b. b ≡ is_nil form.now) }
{
    match form.open(alloc)? {
        OpenedTree::Atom(atom) => Ok(is_nil_atom(&atom)),
        OpenedTree::Symbol(_) => Ok(false),
        OpenedTree::Pair(_, _) => Ok(false),
        OpenedTree::Vector(_) => Ok(false),
    }
}

pub fn is_nil_atom(atom: &Atom) -> bool
    ensures { result ≡ is_nil_atom atom.now }
{
    matches!(atom, Atom::Nil)
}

/// The first element and the rest, of a list that has one.
#[tactic(auto, using(crate::proofs::Opened::no_split_atom, crate::proofs::Opened::no_split_leaf, crate::proofs::Opened::a_split, crate::proofs::Opened::no_split_vector))]
pub fn split_first(alloc: Global, form: &Syn) -> Result<Option<Split>, Memory>
    ensures { IfOk result (λ s. s ≡ split_first form.now) }
{
    match form.open(alloc)? {
        OpenedTree::Pair(first, rest) => Ok(Some(Split { first, rest })),
        OpenedTree::Atom(_) => Ok(None),
        OpenedTree::Symbol(_) => Ok(None),
        OpenedTree::Vector(_) => Ok(None),
    }
}

/// The elements and the tail. A form that is no list, or the empty list, is its own tail.
#[tactic(auto, using(crate::proofs::Walks::elements_on, crate::proofs::Walks::tail_on, crate::proofs::Walks::elements_end, crate::proofs::Walks::tail_end))]
pub fn parts_of(alloc: Global, form: &Syn) -> Result<ListElements, Memory>
    ensures { IfOk result (λ p. (p.elements ≡ elements form.now) × (p.tail ≡ tail_of form.now)) }
{
    let mut elements = Items::new(alloc);
    let mut rest = form.share()?;
    while let Some(next) = split_first(alloc, &rest)? {
        elements.push(next.first)?;
        rest = next.rest;
    }
    Ok(ListElements {
        elements,
        tail: rest,
    })
}

/// The elements of a list that ends in the empty list.
pub fn proper(alloc: Global, form: &Syn) -> Result<Option<Items<Syn>>, Memory>
    ensures { IfOk result (λ xs. xs ≡ proper_elements form.now) }
{
    let parts = parts_of(alloc, form)?;
    if is_nil(alloc, &parts.tail)? {
        Ok(Some(parts.elements))
    } else {
        Ok(None)
    }
}

/// Other owners of the same forms.
pub fn share_all(alloc: Global, forms: &[Syn]) -> Result<Items<Syn>, Memory>
    ensures { IfOk result (λ xs. xs ≡ forms.now) }
{
    let mut all = Items::new(alloc);
    for form in forms {
        let form = form.share()?;
        all.push(form)?;
    }
    Ok(all)
}

/// Whether all of these are identifiers.
pub(crate) fn all_ids(alloc: Global, forms: &[Syn]) -> Result<bool, Memory>
    ensures { IfOk result (λ b. b ≡ all_ids forms.now) }
{
    for form in forms {
        if !is_id(alloc, form)? {
            return Ok(false);
        }
    }
    Ok(true)
}
