//! From data to trees: the symbols become leaves of one context.

ghost use Rattle.std.specs.Prelude.{◌≡◌, ◌<◌, length, map, IfOk, IfErr, IsTrue};
ghost use Rattle.base_data.specs.Datum.{is_tail};
ghost use Rattle.stx_tree.specs.Context.{blank};
ghost use Rattle.stx_tree.specs.Tree.{leaf, spanned, chain, vector, nil};
ghost use Rattle.stx_tree.specs.Measures.{Fits};
ghost use Rattle.stx_tree.specs.Leaves.{context_of};
ghost use Rattle.stx_object.specs.Kept.{IsRest};
ghost use Rattle.stx_object.specs.Leaves.{sample_context, span_by, grown_tree};
ghost use Rattle.stx_object.specs.Refuses.{Refuses};

use crate::base::Base;
use crate::kept::{Kept, TreeShape};
use crate::pairs::empty_list;
use crate::wrap::Wrap;
use base_data::datum::{self, Datum};
use base_data::fault::BareStop;
use base_data::memory::Memory;
use base_data::span::{Span, share_span};
use base_data::symbol::Symbol;
use std::alloc::Global;
use std::marker::Model;

/// The empty list without a span, made once for all lists of a datum to end in.
#[derive(Drop)]
pub(crate) struct End {
    list: Kept,
}

impl Model for End {
    ghost use Rattle.std.specs.Prelude.{◌≡◌};
    ghost use Rattle.stx_tree.specs.Tree.{nil};

    ghost Value = { Unit {0} };

    ghost view = { λ e. tt };

    ghost invariant = { λ e. e.list ≡ nil };
}

impl End {
    fn new(alloc: Global) -> Result<End, Memory> {
        let list = empty_list(alloc)?;
        Ok(End { list })
    }

    /// Another owner of it.
    fn share(&self) -> Result<Kept, Memory>
        ensures { IfOk result (λ k. k ≡ nil) }
    {
        self.list.share()
    }
}

/// What new leaves take from a leaf, its marks and stamps, and what new lists end in.
#[derive(Drop)]
pub(crate) struct Sample {
    base: Base,
    end: End,
}

/// Whether a tree has the spans of its datum.
#[derive(Clone, Copy)]
pub(crate) enum Spans {
    Keep,
    Leave,
}

impl Spans {
    fn share(self, span: &Option<Span>) -> Result<Option<Span>, Memory>
        ensures { IfOk result (λ s. s ≡ span_by self span.now) }
    {
        match self {
            Spans::Keep => share_span(span),
            Spans::Leave => Ok(None),
        }
    }
}

impl Sample {
    /// No marks and no stamps.
    pub(crate) fn blank(alloc: Global) -> Result<Sample, Memory>
        ensures { IfOk result (λ s. sample_context s ≡ blank) }
    {
        let base = Base::blank();
        let end = End::new(alloc)?;
        Ok(Sample { base, end })
    }

    /// The leaf of this symbol.
    fn leaf(&self, alloc: Global, span: Option<Span>, symbol: &Symbol) -> Result<Kept, Memory>
        ensures { IfOk result (λ k. k ≡ leaf span symbol.now (sample_context self.now)) }
    {
        let base = self.base.share()?;
        let symbol = symbol.share()?;
        Kept::new(alloc, Wrap::none(), span, TreeShape::Leaf(symbol, base))
    }
}

impl Kept {
    /// What new leaves take from this leaf. What is no leaf gives no marks and no stamps.
    pub(crate) fn sample(&self, alloc: Global) -> Result<Sample, Memory>
        ensures { IfOk result (λ s. sample_context s ≡ context_of self.now) }
    {
        let base = self.context(alloc)?;
        let end = End::new(alloc)?;
        Ok(Sample { base, end })
    }
}

/// How trees grow from data: whether they take the spans of the data, and what their leaves and lists take.
#[derive(Drop)]
pub(crate) struct Growth<'a> {
    pub(crate) alloc: Global,
    pub(crate) spans: Spans,
    pub(crate) sample: &'a Sample,
}

/// The tree of a datum. It is `TooDeep` where it would pass a limit.
#[cycle(from_datum)]
pub(crate) fn from_datum(growth: &Growth, datum: &Datum) -> Result<Kept, BareStop>
    ensures tree { IfOk result (λ k. k ≡ grown_tree growth.now.spans growth.now.sample.now datum.now) }
    ensures refused { IfErr result (λ e. Refuses e (Fits (grown_tree growth.now.spans growth.now.sample.now datum.now))) }
{
    let span = growth.spans.share(&datum.span)?;
    match &datum.node {
        datum::Node::Atom(atom) => {
            let atom = atom.share()?;
            let kept = Kept::new(growth.alloc, Wrap::none(), span, TreeShape::Atom(atom))?;
            Ok(kept)
        }
        datum::Node::Symbol(symbol) => {
            let kept = growth.sample.leaf(growth.alloc, span, symbol)?;
            Ok(kept)
        }
        datum::Node::List(items, tail) => from_list(growth, span, items, tail),
        datum::Node::Vector(items) => from_vector(growth, span, items),
    }
}

/// The list of these data before this tail, with this span.
#[cycle(from_datum)]
fn from_list(
    growth: &Growth,
    span: Option<Span>,
    items: &[Datum],
    tail: &Datum,
) -> Result<Kept, BareStop>
    requires some { 0 < length items.now }
    requires tail { IsTrue (is_tail tail.now) }
    ensures tree { IfOk result (λ k. k ≡ spanned span (chain (map (grown_tree growth.now.spans growth.now.sample.now) items.now)
        (grown_tree growth.now.spans growth.now.sample.now tail.now))) }
    ensures refused { IfErr result (λ e. Refuses e (Fits
        (chain (map (grown_tree growth.now.spans growth.now.sample.now) items.now) (grown_tree growth.now.spans growth.now.sample.now tail.now)))) }
{
    let end = from_end(growth, tail)?;
    let rest = data_before(growth, &items[1..], end)?;
    let first = from_datum(growth, &items[0])?;
    first.before(growth.alloc, span, rest)
}

/// The vector of these data, with this span.
#[cycle(from_datum)]
fn from_vector(growth: &Growth, span: Option<Span>, items: &[Datum]) -> Result<Kept, BareStop>
    ensures tree { IfOk result (λ k. k ≡ vector span (chain (map (grown_tree growth.now.spans growth.now.sample.now) items.now) nil)) }
    ensures refused { IfErr result (λ e. Refuses e (Fits (chain (map (grown_tree growth.now.spans growth.now.sample.now) items.now) nil))) }
{
    let end = growth.sample.end.share()?;
    let list = data_before(growth, items, end)?;
    let kept = list.into_vector(growth.alloc, span)?;
    Ok(kept)
}

/// What ends a list.
#[cycle(from_datum)]
fn from_end(growth: &Growth, tail: &Datum) -> Result<Kept, BareStop>
    requires { IsTrue (is_tail tail.now) }
    ensures tree { IfOk result (λ k. k ≡ grown_tree growth.now.spans growth.now.sample.now tail.now) }
    ensures rest { IfOk result (λ k. IsRest k) }
    ensures refused { IfErr result (λ e. Refuses e (Fits (grown_tree growth.now.spans growth.now.sample.now tail.now))) }
{
    if tail.is_nil() {
        let nil = growth.sample.end.share()?;
        return Ok(nil);
    }
    from_datum(growth, tail)
}

/// The trees of all of these before a rest.
#[cycle(from_datum)]
fn data_before(growth: &Growth, items: &[Datum], rest: Kept) -> Result<Kept, BareStop>
    requires { IsRest rest }
    ensures tree { IfOk result (λ k. k ≡ chain (map (grown_tree growth.now.spans growth.now.sample.now) items.now) rest) }
    ensures rest { IfOk result (λ k. IsRest k) }
    ensures refused { IfErr result (λ e. Refuses e (Fits (chain (map (grown_tree growth.now.spans growth.now.sample.now) items.now) rest))) }
{
    let mut list = rest;
    let mut at = items.len();
    while 0 < at {
        at -= 1;
        let tree = from_datum(growth, &items[at])?;
        match tree.before(growth.alloc, None, list) {
            Ok(longer) => list = longer,
            Err(stop) => return Err(stop),
        }
    }
    Ok(list)
}
