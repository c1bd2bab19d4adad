//! Syntax trees, for every crate to use.

ghost use Rattle.std.specs.Prelude.{◌≡◌, ◌+◌, [], ◌∷◌, Option, None, option_map, IfOk, IfErr, IfSome, OnOk, OnErr};
ghost use Rattle.base_data.specs.Gives.{BareGives};
ghost use Rattle.stx_tree.specs.Tree.{Tree, atom, leaf, pair, spanned, unspanned, span_of, chain, list_of, vector_of};
ghost use Rattle.stx_tree.specs.Measures.{height, size, within, Fits};
ghost use Rattle.stx_tree.specs.Changes.{changed, enter, leave, stamp};
ghost use Rattle.stx_tree.specs.Leaves.{tree_of, datum_like, strip, marks_of, stamps_of};
ghost use Rattle.stx_tree.specs.Context.{blank};
ghost use Rattle.stx_object.specs.Leaves.{grown_tree};
ghost use Rattle.base_data.specs.declared.span.Span.{Span};
ghost use Rattle.stx_object.specs.Kept.{IsRest};
ghost use Rattle.stx_object.specs.Lengths.{HasElements};
ghost use Rattle.stx_object.specs.Opens.{Opens};
ghost use Rattle.stx_object.specs.Refuses.{Refuses};

use crate::base::{Base, LeafStamps};
use crate::kept::{Kept, SyntaxNode, TreeShape};
use crate::leaves::{Growth, Sample, Spans, from_datum};
use crate::pairs::empty_list;
use crate::wrap::Wrap;
use base_data::atom::Atom;
use base_data::datum::Datum;
use base_data::fault::BareStop;
use base_data::memory::Memory;
use base_data::name::{FrameNo, Mark};
use base_data::span::Span;
use base_data::steps::Steps;
use base_data::symbol::Symbol;
use std::alloc::Global;
use std::marker::Model;
use std::sync::ledger::Ledger;
use stx_tree::change::Change;
use stx_tree::marks::Marks;
use stx_tree::stamp::Stamp;

/// A shared syntax tree, seen as the tree that is meant.
#[derive(Drop)]
pub struct Syn {
    pub(crate) kept: Kept,
}

impl Model for Syn {
    ghost use Rattle.stx_tree.specs.Tree.{Tree};
    ghost use Rattle.stx_tree.specs.TreeCode.{tree_code};

    ghost Value = { Tree };

    ghost coded = { tree_code };

    ghost view = { λ s. s.kept };
}

/// One level of a tree.
#[derive(Drop)]
pub enum OpenedTree {
    /// The symbol of a leaf.
    Symbol(Symbol),
    Atom(Atom),
    /// The first element of a list, and the rest.
    Pair(Syn, Syn),
    Vector(Vec<Syn>),
}

/// The list of all of these and a rest.
fn all_before(alloc: Global, items: Vec<Syn>, rest: Kept) -> Result<Kept, BareStop>
    requires { IsRest rest }
    ensures tree { IfOk result (λ k. k ≡ chain items.items rest) }
    ensures refused { IfErr result (λ e. Refuses e (Fits (chain items.items rest))) }
{
    let mut items = items;
    let mut list = rest;
    while let Some(item) = items.pop() {
        match item.kept.before(alloc, None, list) {
            Ok(longer) => list = longer,
            Err(stop) => return Err(stop),
        }
    }
    Ok(list)
}

/// The same, as a tree for others.
fn list_on(alloc: Global, items: Vec<Syn>, rest: Kept) -> Result<Syn, BareStop>
    requires { IsRest rest }
    ensures { BareGives (λ t. t) result (within (chain items.items rest)) }
{
    let kept = all_before(alloc, items, rest)?;
    kept.within();
    Ok(Syn { kept })
}

/// The level of a list.
fn pair_of(alloc: Global, first: &Kept, rest: &Kept, wrap: &Wrap) -> Result<OpenedTree, Memory>
    ensures { IfOk result (λ o. (s : Option Span) → Opens o (changed wrap.now (pair s first.now rest.now))) }
{
    let first = first.under(alloc, wrap)?;
    let rest = rest.under(alloc, wrap)?;
    Ok(OpenedTree::Pair(Syn { kept: first }, Syn { kept: rest }))
}

/// The tree of a datum whose symbols are leaves like these.
fn grown(alloc: Global, spans: Spans, sample: &Sample, datum: &Datum) -> Result<Syn, BareStop>
    ensures { BareGives (λ t. t) result (within (grown_tree spans sample.now datum.now)) }
{
    let growth = Growth {
        alloc,
        spans,
        sample,
    };
    let kept = from_datum(&growth, datum)?;
    kept.within();
    Ok(Syn { kept })
}

impl Syn {
    /// The atom, without a span.
    pub fn atom(alloc: Global, value: Atom) -> Result<Syn, Memory>
        ensures { IfOk result (λ t. t ≡ atom None value) }
    {
        let kept = Kept::new(alloc, Wrap::none(), None, TreeShape::Atom(value))?;
        Ok(Syn { kept })
    }

    /// The leaf with this mark and no stamps, without a span.
    pub fn leaf(alloc: Global, symbol: &Symbol, mark: Mark) -> Result<Syn, Memory>
        ensures { IfOk result (λ t. t ≡ leaf None symbol.now (record { marks = mark ∷ []; stamps = [] })) }
    {
        let mut marks = Marks::new(alloc);
        marks.push(mark)?;
        Syn::whole_leaf(alloc, None, symbol, marks, Vec::new(alloc))
    }

    /// The leaf with these marks and stamps, both with the newest first.
    pub fn whole_leaf(
        alloc: Global,
        span: Option<Span>,
        symbol: &Symbol,
        marks: Marks,
        stamps: Vec<Stamp>,
    ) -> Result<Syn, Memory>
        ensures { IfOk result (λ t. t ≡ leaf span symbol.now (record { marks = marks; stamps = stamps.items })) }
    {
        let base = Base::new(alloc, marks, stamps)?;
        let symbol = symbol.share()?;
        let kept = Kept::new(alloc, Wrap::none(), span, TreeShape::Leaf(symbol, base))?;
        Ok(Syn { kept })
    }

    /// These elements, and a tail: one that is a list is joined on, and Nil ends the list. No elements
    /// give the tail, or Nil where there is none. It is `TooDeep` where it would pass a limit.
    pub fn list(alloc: Global, items: Vec<Syn>, tail: Option<Syn>) -> Result<Syn, BareStop>
        ensures { BareGives (λ t. t) result (within (list_of items.items tail)) }
    {
        if items.is_empty() {
            match tail {
                None => {
                    let nil = Syn::atom(alloc, Atom::Nil)?;
                    Ok(nil)
                }
                Some(tail) => {
                    tail.kept.within();
                    Ok(tail)
                }
            }
        } else {
            match &tail {
                None => {
                    let rest = empty_list(alloc)?;
                    list_on(alloc, items, rest)
                }
                Some(tail) => {
                    let rest = tail.kept.as_rest(alloc)?;
                    list_on(alloc, items, rest)
                }
            }
        }
    }

    /// The vector of these elements. It is `TooDeep` where it would pass a limit.
    pub fn vector(alloc: Global, items: Vec<Syn>) -> Result<Syn, BareStop>
        ensures { BareGives (λ t. t) result (within (vector_of items.items)) }
    {
        let end = empty_list(alloc)?;
        let list = all_before(alloc, items, end)?;
        let kept = list.into_vector(alloc, None)?;
        kept.within();
        Ok(Syn { kept })
    }

    /// One level of the tree. Pending changes go one level down, by one node for each part.
    pub fn open(&self, alloc: Global) -> Result<OpenedTree, Memory>
        ensures { IfOk result (λ o. Opens o self.now) }
    {
        let node: &SyntaxNode = &self.kept.node;
        match &node.shape {
            TreeShape::Atom(atom) => {
                let atom = atom.share()?;
                Ok(OpenedTree::Atom(atom))
            }
            TreeShape::Leaf(symbol, _) => {
                let symbol = symbol.share()?;
                Ok(OpenedTree::Symbol(symbol))
            }
            TreeShape::Pair(_, first, rest) => pair_of(alloc, first, rest, &self.kept.wrap),
            TreeShape::Vector(_, elements) => {
                let elements = elements.elements(alloc, &self.kept.wrap)?;
                Ok(OpenedTree::Vector(elements))
            }
        }
    }

    /// Another owner of the same tree.
    pub fn share(&self) -> Result<Syn, Memory>
        ensures { IfOk result (λ t. t ≡ self.now) }
    {
        let kept = self.kept.share()?;
        Ok(Syn { kept })
    }

    /// The span at the root.
    pub fn span(&self) -> Option<&Span>
        ensures { option_map (λ s. s.now) result ≡ span_of self.now }
    {
        let node: &SyntaxNode = &self.kept.node;
        node.span.as_ref()
    }

    /// The tree with another span at its root alone.
    pub fn spanned(&self, alloc: Global, span: Option<Span>) -> Result<Syn, Memory>
        ensures { IfOk result (λ t. t ≡ spanned span self.now) }
    {
        let kept = self.kept.spanned(alloc, span)?;
        Ok(Syn { kept })
    }

    /// 1 for an atom or a leaf, and 1 more than the greatest of the parts for a list or a vector. It
    /// is at most 1,000.
    pub fn height(&self) -> u32
        ensures { result ≡ height self.now }
    {
        self.kept.extent().height
    }

    /// 1 for an atom or a leaf, and 1 and the sizes of the parts for a list or a vector. It is at
    /// most 16,777,216.
    pub fn size(&self) -> u32
        ensures { result ≡ size self.now }
    {
        self.kept.extent().size
    }

    /// How many elements it has, where it is a list that ends in Nil. It may tell nothing.
    pub fn length(&self) -> Option<u64>
        ensures { IfSome result (λ n. HasElements n self.now) }
    {
        match self.kept.extent().counted.checked_sub(1) {
            None => None,
            Some(count) => Some(u64::from(count)),
        }
    }

    /// The marks of a leaf. What is no leaf has none.
    pub fn marks(&self, alloc: Global) -> Result<Marks, Memory>
        ensures { IfOk result (λ m. m ≡ marks_of self.now) }
    {
        let context = self.kept.context(alloc)?;
        context.marks(alloc)
    }

    /// The stamps of a leaf, the newest first. What is no leaf has none.
    pub fn leaf_stamps(&self, alloc: Global) -> Result<LeafStamps, Memory>
        ensures { IfOk result (λ s. s ≡ stamps_of self.now) }
    {
        let context = self.kept.context(alloc)?;
        context.stamps()
    }

    /// The stamps of a leaf as a list, the newest first.
    pub fn stamps(&self, alloc: Global) -> Result<Vec<Stamp>, Memory>
        ensures { IfOk result (λ v. v.items ≡ stamps_of self.now) }
    {
        let stamps = self.leaf_stamps(alloc)?;
        stamps.all(alloc)
    }

    /// The tree under one change more: one node, for which `nodes` ticks.
    fn changed<N: Ledger>(
        &self,
        alloc: Global,
        change: Change,
        nodes: &mut Steps<N>,
    ) -> Result<Syn, Memory>
        ensures tree { IfOk result (λ t. t ≡ changed (change ∷ []) self.now) }
        ensures made { OnOk result (nodes.new ≡ nodes.old + 1) }
        ensures refused { OnErr result (nodes.new ≡ nodes.old) }
    {
        let kept = self.kept.changed(alloc, change)?;
        nodes.tick();
        Ok(Syn { kept })
    }

    /// Puts the mark before the marks of every leaf. It makes one node.
    pub fn enter<N: Ledger>(
        &self,
        alloc: Global,
        mark: Mark,
        nodes: &mut Steps<N>,
    ) -> Result<Syn, Memory>
        ensures tree { IfOk result (λ t. t ≡ enter mark self.now) }
        ensures made { OnOk result (nodes.new ≡ nodes.old + 1) }
        ensures refused { OnErr result (nodes.new ≡ nodes.old) }
    {
        self.changed(alloc, Change::Enter(mark), nodes)
    }

    /// At every leaf, takes the mark away where it is the first; else puts it before the marks and
    /// then, where a frame is given, the frame with the marks before the stamps. It makes one node.
    pub fn leave<N: Ledger>(
        &self,
        alloc: Global,
        mark: Mark,
        frame: Option<FrameNo>,
        nodes: &mut Steps<N>,
    ) -> Result<Syn, Memory>
        ensures tree { IfOk result (λ t. t ≡ leave mark frame self.now) }
        ensures made { OnOk result (nodes.new ≡ nodes.old + 1) }
        ensures refused { OnErr result (nodes.new ≡ nodes.old) }
    {
        self.changed(alloc, Change::Leave(mark, frame), nodes)
    }

    /// Puts the frame with the marks before the stamps of every leaf. It makes one node.
    pub fn stamp<N: Ledger>(
        &self,
        alloc: Global,
        frame: FrameNo,
        nodes: &mut Steps<N>,
    ) -> Result<Syn, Memory>
        ensures tree { IfOk result (λ t. t ≡ stamp frame self.now) }
        ensures made { OnOk result (nodes.new ≡ nodes.old + 1) }
        ensures refused { OnErr result (nodes.new ≡ nodes.old) }
    {
        self.changed(alloc, Change::Stamp(frame), nodes)
    }

    /// The tree of a datum: its symbols are leaves without marks and stamps, and the spans are kept.
    /// It is `TooDeep` where it would pass a limit.
    pub fn of_datum(alloc: Global, datum: &Datum) -> Result<Syn, BareStop>
        ensures { BareGives (λ t. t) result (within (tree_of blank datum.now)) }
    {
        let sample = Sample::blank(alloc)?;
        grown(alloc, Spans::Keep, &sample, datum)
    }

    /// The tree of a datum, without spans: its symbols are leaves with the marks and stamps of this
    /// leaf. It is `TooDeep` where it would pass a limit. What is no leaf gives no marks and no stamps.
    fn datum_like(&self, alloc: Global, datum: &Datum) -> Result<Syn, BareStop>
        ensures { BareGives (λ t. t) result (within (datum_like self.now datum.now)) }
    {
        let sample = self.kept.sample(alloc)?;
        grown(alloc, Spans::Leave, &sample, datum)
    }

    /// The datum of the tree, with its spans.
    pub fn strip(&self, alloc: Global) -> Result<Datum, Memory>
        ensures { IfOk result (λ d. d ≡ strip self.now) }
    {
        self.kept.strip(alloc)
    }

    /// The tree without any spans.
    pub fn unspanned(&self, alloc: Global) -> Result<Syn, Memory>
        ensures { IfOk result (λ t. t ≡ unspanned self.now) }
    {
        let kept = self.kept.unspanned(alloc)?;
        Ok(Syn { kept })
    }
}
