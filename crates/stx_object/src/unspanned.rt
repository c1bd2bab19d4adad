//! Trees without spans.

ghost use Rattle.std.specs.Prelude.{◌≡◌, false, IfOk};
ghost use Rattle.stx_tree.specs.Tree.{unspanned, chain, is_pair};
ghost use Rattle.stx_tree.specs.Measures.{Fits};
ghost use Rattle.stx_object.specs.Kept.{IsRest};

use crate::kept::{Kept, SyntaxNode, TreeShape};
use base_data::memory::Memory;
use std::alloc::Global;

impl Kept {
    /// The tree without any spans.
    #[cycle(unspanned)]
    pub(crate) fn unspanned(&self, alloc: Global) -> Result<Kept, Memory>
        ensures { IfOk result (λ k. k ≡ unspanned self.now) }
    {
        let (items, end) = unspanned_along(alloc, self)?;
        all_before(alloc, items, end)
    }

    /// What is no list of elements, without any spans.
    #[cycle(unspanned)]
    fn unspanned_end(&self, alloc: Global) -> Result<Kept, Memory>
        requires { is_pair self.now ≡ false }
        ensures { IfOk result (λ k. k ≡ unspanned self.now) }
    {
        let node: &SyntaxNode = &self.node;
        match &node.shape {
            TreeShape::Atom(_) => self.bare(alloc),
            TreeShape::Leaf(_, _) => self.bare(alloc),
            TreeShape::Pair(_, _, _) => unreachable!(),
            TreeShape::Vector(_, elements) => {
                let list = elements.unspanned(alloc)?;
                let vector = list.into_vector(alloc, None)?;
                vector.under(alloc, &self.wrap)
            }
        }
    }
}

/// The elements of a list without spans, and what ends it.
#[cycle(unspanned)]
fn unspanned_along(alloc: Global, list: &Kept) -> Result<(Vec<Kept>, Kept), Memory>
    ensures list { IfOk result (λ r. chain r.0.items r.1 ≡ unspanned list.now) }
    ensures rest { IfOk result (λ r. IsRest r.1) }
    ensures fits { IfOk result (λ r. Fits (chain r.0.items r.1)) }
{
    list.within();
    let mut items = Vec::new(alloc);
    let mut left = list.share()?;
    loop {
        let Some((item, others)) = left.parts(alloc)? else {
            let end = left.unspanned_end(alloc)?;
            return Ok((items, end));
        };
        let item = item.unspanned(alloc)?;
        items.push(item)?;
        left = others;
    }
}

/// All of these before a rest, as a list that is known to be within the limits.
fn all_before(alloc: Global, items: Vec<Kept>, rest: Kept) -> Result<Kept, Memory>
    requires rest { IsRest rest }
    requires fits { Fits (chain items.items rest) }
    ensures { IfOk result (λ k. k ≡ chain items.items rest) }
{
    let mut items = items;
    let mut list = rest;
    while let Some(item) = items.pop() {
        list = item.before_part(alloc, list)?;
    }
    Ok(list)
}
