//! Kept trees: nodes with pending changes, shared by their owners.

ghost use Rattle.std.specs.Prelude.{◌≡◌, [], ◌∷◌, None, Option, option_map, IfOk};
ghost use Rattle.stx_tree.specs.Tree.{atom, spanned, is_list};
ghost use Rattle.stx_tree.specs.Measures.{Fits};
ghost use Rattle.stx_tree.specs.Leaves.{context_of};
ghost use Rattle.stx_tree.specs.Changes.{changed};
ghost use Rattle.stx_object.specs.Kept.{Parts};
ghost use Rattle.stx_object.specs.KeptView.{seen, InShape, IsExtent};

use crate::base::Base;
use crate::wrap::Wrap;
use base_data::atom::Atom;
use base_data::memory::Memory;
use base_data::span::Span;
use base_data::symbol::Symbol;
use std::alloc::Global;
use std::marker::Model;
use std::rc::Rc;
use stx_tree::change::Change;

/// A shared tree, and then the changes, seen as the tree that is meant.
#[cycle(kept)]
pub(crate) struct Kept {
    pub(crate) wrap: Wrap,
    pub(crate) node: Rc<SyntaxNode>,
}

/// A shape with a span.
#[cycle(kept)]
#[derive(Drop)]
pub(crate) struct SyntaxNode {
    pub(crate) span: Option<Span>,
    pub(crate) shape: TreeShape,
}

#[cycle(kept)]
#[derive(Drop)]
pub(crate) enum TreeShape {
    Atom(Atom),
    Leaf(Symbol, Base),
    /// The first element of a list, and the rest. The extent is the list's.
    Pair(HeightAndSize, Kept, Kept),
    /// The elements as a list, and the extent of that.
    Vector(HeightAndSize, Kept),
}

/// A height, a size and a count.
#[derive(Clone, Copy, Drop)]
pub(crate) struct HeightAndSize {
    pub(crate) height: u32,
    pub(crate) size: u32,
    /// For a list that ends in Nil one more than the number of its elements, else 0.
    pub(crate) counted: u32,
}

impl Model for Kept {
    ghost use Rattle.stx_tree.specs.Tree.{Tree};
    ghost use Rattle.stx_tree.specs.TreeCode.{tree_code};

    ghost Value = { Tree };

    ghost coded = { tree_code };

    ghost use Rattle.stx_object.specs.Kept.{weight};
    ghost use Rattle.stx_object.specs.KeptView.{view_of, whole_of, InShape};

    ghost view = { λ k. view_of (whole_of k.wrap k.node.value) };

    ghost invariant = { λ k. InShape k.node.value.shape };

    ghost size = { weight };

    ghost use Rattle.stx_object.specs.KeptFalls.{seen_falls};
    ghost use Rattle.std.proofs.Common.{arith};

    ghost size_decreases = { λ k h. omega (arith, seen_falls k.wrap k.node.value.span k.node.value.shape) };
}

impl Drop for Kept {
    /// A list may be long, so rest after rest goes, up to one that has another owner. Only first
    /// elements are dropped by recursion, as deep as the tree is high.
    fn drop(mut self) {
        loop {
            let Kept { wrap: _, node } = self;
            match Rc::into_inner(node) {
                None => return,
                Some(node) => {
                    let SyntaxNode { span: _, shape } = node;
                    match shape {
                        TreeShape::Atom(_) => return,
                        TreeShape::Leaf(_, _) => return,
                        TreeShape::Pair(_, _first, rest) => self = rest,
                        TreeShape::Vector(_, elements) => self = elements,
                    }
                }
            }
        }
    }
}

impl TreeShape {
    fn share(&self) -> Result<TreeShape, Memory>
        ensures { IfOk result (λ s. s ≡ self.now) }
    {
        match self {
            TreeShape::Atom(atom) => {
                let atom = atom.share()?;
                Ok(TreeShape::Atom(atom))
            }
            TreeShape::Leaf(symbol, base) => {
                let symbol = symbol.share()?;
                let base = base.share()?;
                Ok(TreeShape::Leaf(symbol, base))
            }
            TreeShape::Pair(extent, first, rest) => {
                let first = first.share()?;
                let rest = rest.share()?;
                Ok(TreeShape::Pair(*extent, first, rest))
            }
            TreeShape::Vector(extent, elements) => {
                let elements = elements.share()?;
                Ok(TreeShape::Vector(*extent, elements))
            }
        }
    }
}

impl Kept {
    /// A node of its own.
    pub(crate) fn new(
        alloc: Global,
        wrap: Wrap,
        span: Option<Span>,
        shape: TreeShape,
    ) -> Result<Kept, Memory>
        requires { InShape shape }
        ensures { IfOk result (λ k. k ≡ seen wrap span shape) }
    {
        let node = Rc::new(alloc, SyntaxNode { span, shape })?;
        Ok(Kept { wrap, node })
    }

    /// Another owner of the same tree.
    pub(crate) fn share(&self) -> Result<Kept, Memory>
        ensures { IfOk result (λ k. k ≡ self.now) }
    {
        let wrap = self.wrap.share()?;
        let node = self.node.clone()?;
        Ok(Kept { wrap, node })
    }

    /// The tree under these changes. It takes memory only where both it and they have changes.
    pub(crate) fn under(&self, alloc: Global, outer: &Wrap) -> Result<Kept, Memory>
        ensures { IfOk result (λ k. k ≡ changed outer.now self.now) }
    {
        let wrap = self.wrap.then(alloc, outer)?;
        let node = self.node.clone()?;
        Ok(Kept { wrap, node })
    }

    /// The tree under one more change: one link.
    pub(crate) fn changed(&self, alloc: Global, change: Change) -> Result<Kept, Memory>
        ensures { IfOk result (λ k. k ≡ changed (change ∷ []) self.now) }
    {
        let wrap = self.wrap.with(alloc, change)?;
        let node = self.node.clone()?;
        Ok(Kept { wrap, node })
    }

    /// The tree with this span at its root.
    pub(crate) fn spanned(&self, alloc: Global, span: Option<Span>) -> Result<Kept, Memory>
        ensures { IfOk result (λ k. k ≡ spanned span self.now) }
    {
        let node: &SyntaxNode = &self.node;
        let wrap = self.wrap.share()?;
        let shape = node.shape.share()?;
        Kept::new(alloc, wrap, span, shape)
    }

    /// The tree without a span at its root. It takes memory only where there is one.
    pub(crate) fn bare(&self, alloc: Global) -> Result<Kept, Memory>
        ensures { IfOk result (λ k. k ≡ spanned None self.now) }
    {
        let node: &SyntaxNode = &self.node;
        match &node.span {
            None => self.share(),
            Some(_) => self.spanned(alloc, None),
        }
    }

    pub(crate) fn extent(&self) -> HeightAndSize
        ensures { IsExtent result self.now }
    {
        let node: &SyntaxNode = &self.node;
        match &node.shape {
            TreeShape::Atom(atom) => atom_extent(atom),
            TreeShape::Leaf(_, _) => HeightAndSize {
                height: 1,
                size: 1,
                counted: 0,
            },
            TreeShape::Pair(extent, _, _) => *extent,
            TreeShape::Vector(extent, _) => *extent,
        }
    }

    /// Whether it is a list or Nil.
    pub(crate) fn is_list(&self) -> bool
        ensures { result ≡ is_list self.now }
    {
        let node: &SyntaxNode = &self.node;
        match &node.shape {
            TreeShape::Atom(atom) => is_nil(atom),
            TreeShape::Leaf(_, _) => false,
            TreeShape::Pair(_, _, _) => true,
            TreeShape::Vector(_, _) => false,
        }
    }

    /// The first element and the rest of a list.
    pub(crate) fn parts(&self, alloc: Global) -> Result<Option<(Kept, Kept)>, Memory>
        ensures { IfOk result (λ o. Parts o self.now) }
    {
        let node: &SyntaxNode = &self.node;
        match &node.shape {
            TreeShape::Atom(_) => Ok(None),
            TreeShape::Leaf(_, _) => Ok(None),
            TreeShape::Pair(_, first, rest) => {
                let first = first.under(alloc, &self.wrap)?;
                let rest = rest.under(alloc, &self.wrap)?;
                Ok(Some((first, rest)))
            }
            TreeShape::Vector(_, _) => Ok(None),
        }
    }

    /// It is within the limits.
    pub(crate) fn within(&self)
        ensures { Fits self.now }
    {
        let _node = &self.node;
    }

    /// The marks and stamps of a leaf, and none of what is no leaf.
    pub(crate) fn context(&self, alloc: Global) -> Result<Base, Memory>
        ensures { IfOk result (λ c. c ≡ context_of self.now) }
    {
        let node: &SyntaxNode = &self.node;
        match &node.shape {
            TreeShape::Atom(_) => Ok(Base::blank()),
            TreeShape::Leaf(_, base) => self.wrap.context(alloc, base),
            TreeShape::Pair(_, _, _) => Ok(Base::blank()),
            TreeShape::Vector(_, _) => Ok(Base::blank()),
        }
    }
}

fn is_nil(value: &Atom) -> bool
    ensures { result ≡ is_list (atom None value.now) }
{
    match value {
        Atom::Nil => true,
        _ => false,
    }
}

#[tactic(auto, using(crate::proofs::Lengths::counted_atom, crate::proofs::Lengths::counted_none))]
fn atom_extent(value: &Atom) -> HeightAndSize
    ensures { IsExtent result (atom None value.now) }
{
    if is_nil(value) {
        return HeightAndSize {
            height: 1,
            size: 1,
            counted: 1,
        };
    }
    HeightAndSize {
        height: 1,
        size: 1,
        counted: 0,
    }
}
