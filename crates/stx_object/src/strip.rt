//! From trees back to data: the leaves without marks and stamps.

ghost use Rattle.std.specs.Prelude.{◌≡◌, ◌&&◌, true, None, IfOk};
ghost use Rattle.base_data.specs.Datum as datum;
ghost use Rattle.base_data.specs.DatumView.{is_some_list};
ghost use Rattle.stx_tree.specs.Leaves.{strip};
ghost use Rattle.stx_object.specs.Kept.{IsRest, IsElements};

use crate::kept::{Kept, SyntaxNode, TreeShape};
use base_data::datum::{self, Datum};
use base_data::memory::Memory;
use base_data::span::{Span, share_span};
use std::alloc::Global;

impl Kept {
    /// The datum. Pending changes don't matter.
    #[cycle(strip)]
    pub(crate) fn strip(&self, alloc: Global) -> Result<Datum, Memory>
        ensures { IfOk result (λ d. d ≡ strip self.now) }
    {
        let node: &SyntaxNode = &self.node;
        let span = share_span(&node.span)?;
        match &node.shape {
            TreeShape::Atom(atom) => {
                let atom = atom.share()?;
                Ok(Datum {
                    span,
                    node: datum::Node::Atom(atom),
                })
            }
            TreeShape::Leaf(symbol, _) => {
                let symbol = symbol.share()?;
                Ok(Datum {
                    span,
                    node: datum::Node::Symbol(symbol),
                })
            }
            TreeShape::Pair(_, first, rest) => { strip_list(alloc, span, first, rest) }
            TreeShape::Vector(_, elements) => {
                let mut items = strip_elements(alloc, elements)?;
                items.shrink_to_fit();
                Ok(Datum {
                    span,
                    node: datum::Node::Vector(items),
                })
            }
        }
    }
}

/// The list of this element and this rest as a datum with this span.
#[cycle(strip)]
fn strip_list(alloc: Global, span: Option<Span>, first: &Kept, rest: &Kept) -> Result<Datum, Memory>
    requires { IsRest rest.now }
    ensures { IfOk result (λ d. d ≡ datum.pair span (strip first.now) (strip rest.now)) }
{
    let (mut items, tail) = strip_along(alloc, first, rest)?;
    items.shrink_to_fit();
    let tail = Box::new(alloc, tail)?;
    Ok(Datum {
        span,
        node: datum::Node::List(items, tail),
    })
}

/// The data of a list's elements, and of what ends it.
#[cycle(strip)]
fn strip_along(alloc: Global, first: &Kept, rest: &Kept) -> Result<(Vec<Datum>, Datum), Memory>
    requires { IsRest rest.now }
    ensures list { IfOk result (λ r. datum.chain r.0.items r.1 ≡ datum.pair None (strip first.now) (strip rest.now)) }
    ensures proper { IfOk result (λ r. is_some_list r.0.items && datum.is_tail r.1 ≡ true) }
{
    let mut data = Vec::new(alloc);
    let datum = first.strip(alloc)?;
    data.push(datum)?;
    let mut left = rest.share()?;
    loop {
        let Some((item, others)) = left.parts(alloc)? else {
            let tail = left.strip(alloc)?;
            return Ok((data, tail));
        };
        let datum = item.strip(alloc)?;
        data.push(datum)?;
        left = others;
    }
}

/// The data of a vector's elements.
#[cycle(strip)]
fn strip_elements(alloc: Global, elements: &Kept) -> Result<Vec<Datum>, Memory>
    requires { IsElements elements.now }
    ensures { IfOk result (λ v. datum.chain v.items datum.nil ≡ strip elements.now) }
{
    let mut data = Vec::new(alloc);
    let mut left = elements.share()?;
    loop {
        let Some((item, others)) = left.parts(alloc)? else {
            return Ok(data);
        };
        let datum = item.strip(alloc)?;
        data.push(datum)?;
        left = others;
    }
}
