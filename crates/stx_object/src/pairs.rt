//! Lists and vectors, put together from the last element to the first, and taken apart.

ghost use Rattle.std.specs.Prelude.{◌≡◌, ◌<◌, ◌≤◌, [], None, IfOk, IfErr};
ghost use Rattle.base_data.specs.declared.fault.BareStop.TheVariants as stop;
ghost use Rattle.stx_tree.specs.Tree.{pair, vector, chain, nil, rest_of};
ghost use Rattle.stx_tree.specs.Changes.{changed};
ghost use Rattle.stx_tree.specs.Measures.{Fits, joint, too_deep, max_height, max_size};
ghost use Rattle.stx_object.specs.Kept.{IsRest, IsElements};
ghost use Rattle.stx_object.specs.KeptView.{IsExtent};
ghost use Rattle.stx_object.specs.Lengths.{IsOneMore};
ghost use Rattle.stx_object.specs.Pairs.{Extends, Grows, grown_height, grown_size};
ghost use Rattle.stx_object.specs.Refuses.{Refuses};

use crate::kept::{HeightAndSize, Kept, TreeShape};
use crate::syn::Syn;
use crate::wrap::Wrap;
use base_data::atom::Atom;
use base_data::fault::{Bare, BareStop, FaultKind};
use base_data::items::Items;
use base_data::memory::Memory;
use base_data::span::Span;
use std::alloc::Global;

const MAX_HEIGHT: u32 = 1000;

const MAX_SIZE: u32 = 16_777_216;

/// The fault of a tree that passes a limit.
pub(crate) fn too_deep(alloc: Global) -> BareStop
    ensures { result ≡ stop.Fault too_deep }
{
    BareStop::Fault(Bare {
        kind: FaultKind::TooDeep,
        words: Items::new(alloc),
    })
}

/// The count of a list with one more element before a rest.
#[tactic(auto, using(crate::proofs::Lengths::counted_off))]
fn one_more(counted: u32) -> u32
    ensures { IsOneMore result counted }
{
    if counted == 0 {
        return 0;
    }
    match counted.checked_add(1) {
        None => 0,
        Some(more) => more,
    }
}

/// The extent of a list with one more element before the others, within the limits.
fn grown(element: HeightAndSize, rest: HeightAndSize, joint: u32) -> Option<HeightAndSize>
    requires rest { (rest.height ≤ max_height) × (rest.size ≤ max_size) }
    requires joint { joint ≤ 1 }
    ensures { Grows result (grown_height element rest joint) (grown_size element rest joint) rest.counted }
{
    let height = (rest.height + joint).max(element.height.saturating_add(1));
    let size = (rest.size + joint).saturating_add(element.size);
    if height > MAX_HEIGHT || size > MAX_SIZE {
        None
    } else {
        Some(HeightAndSize {
            height,
            size,
            counted: one_more(rest.counted),
        })
    }
}

/// The empty list, without a span.
pub(crate) fn empty_list(alloc: Global) -> Result<Kept, Memory>
    ensures { IfOk result (λ k. k ≡ nil) }
{
    Kept::new(alloc, Wrap::none(), None, TreeShape::Atom(Atom::Nil))
}

impl Kept {
    /// What the rest of a list adds to the list: 1 where it is a tail that is no list.
    fn joint(&self) -> u32
        ensures { result ≡ joint self.now }
    {
        if self.is_list() { 0 } else { 1 }
    }

    /// The extent of the list of this element and this rest, within the limits.
    fn extent_before(&self, rest: &Kept) -> Option<HeightAndSize>
        requires { IsRest rest.now }
        ensures { Extends result (pair None self.now rest.now) }
    {
        rest.within();
        grown(self.extent(), rest.extent(), rest.joint())
    }

    /// This element before a rest, of a list with this extent.
    fn joined(
        self,
        alloc: Global,
        span: Option<Span>,
        rest: Kept,
        extent: HeightAndSize,
    ) -> Result<Kept, Memory>
        requires rest { IsRest rest }
        requires extent { IsExtent extent (pair None self rest) }
        requires fits { Fits (pair None self rest) }
        ensures { IfOk result (λ k. k ≡ pair span self rest) }
    {
        Kept::new(
            alloc,
            Wrap::none(),
            span,
            TreeShape::Pair(extent, self, rest),
        )
    }

    /// This element before a rest, where the list stays within the limits. The span is the list's.
    pub(crate) fn before(
        self,
        alloc: Global,
        span: Option<Span>,
        rest: Kept,
    ) -> Result<Kept, BareStop>
        requires { IsRest rest }
        ensures tree { IfOk result (λ k. k ≡ pair span self rest) }
        ensures refused { IfErr result (λ e. Refuses e (Fits (pair None self rest))) }
    {
        match self.extent_before(&rest) {
            None => Err(too_deep(alloc)),
            Some(extent) => {
                let list = self.joined(alloc, span, rest, extent)?;
                Ok(list)
            }
        }
    }

    /// This element before a rest, of a list that is known to be within the limits.
    pub(crate) fn before_part(self, alloc: Global, rest: Kept) -> Result<Kept, Memory>
        requires rest { IsRest rest }
        requires fits { Fits (pair None self rest) }
        ensures { IfOk result (λ k. k ≡ pair None self rest) }
    {
        match self.extent_before(&rest) {
            None => unreachable!(),
            Some(extent) => self.joined(alloc, None, rest, extent),
        }
    }

    /// The vector of these elements, with this span.
    pub(crate) fn into_vector(self, alloc: Global, span: Option<Span>) -> Result<Kept, Memory>
        requires { IsElements self }
        ensures { IfOk result (λ k. k ≡ vector span self) }
    {
        self.within();
        let HeightAndSize { height, size, .. } = self.extent();
        let extent = HeightAndSize {
            height,
            size,
            counted: 0,
        };
        Kept::new(alloc, Wrap::none(), span, TreeShape::Vector(extent, self))
    }

    /// The tree as the rest of a list: a list or Nil has no span there.
    pub(crate) fn as_rest(&self, alloc: Global) -> Result<Kept, Memory>
        ensures { IfOk result (λ k. k ≡ rest_of self.now) }
    {
        if self.is_list() {
            self.bare(alloc)
        } else {
            self.share()
        }
    }

    /// The elements of a vector, under these changes.
    pub(crate) fn elements(&self, alloc: Global, wrap: &Wrap) -> Result<Vec<Syn>, Memory>
        requires { IsElements self.now }
        ensures { IfOk result (λ v. chain v.items nil ≡ changed wrap.now self.now) }
    {
        let mut elements = Vec::new(alloc);
        let mut left = self.under(alloc, wrap)?;
        loop {
            let Some((item, others)) = left.parts(alloc)? else {
                return Ok(elements);
            };
            elements.push(Syn { kept: item })?;
            left = others;
        }
    }
}
