//! What a `quasiquote` form comes to.

ghost use Rattle.std.specs.Prelude.{◌≡◌, ◌<◌, ◌++◌, true, length, option_map, IfOk, OnOk};
ghost use Rattle.base_data.specs.Gives.{BareGives, Gives};
ghost use Rattle.stx_tree.specs.Tree.{is_pair, nil};
ghost use Rattle.core_quasi.specs.Words.{word_of};
ghost use Rattle.core_quasi.specs.Plan.{constant, expression, call, quasis};
ghost use Rattle.core_quasi.specs.declared.word.Family.TheVariants as family;
ghost use Rattle.core_quasi.specs.Quasi.{no_pieces, closed, expressions, with_each, with_splices, is_constant, with_item, is_end, without_splices, made_of, list_joined, vector_joined, element, step, operand_or_bad, quasi_at, forms_begun, forms_walked, flat_list, last_list, split_list, vector_at, StopsAt, quasi};

use crate::maker::Maker;
use crate::parts::{ListParts, QuasiTaken, bad, first_word, operand_of, rest_at, splits, taken_at};
use crate::plan::{Quasi, QuasiNode};
use crate::word::{Family, Reach};
use base_data::atom::Atom;
use base_data::fault::{Bare, BareStop, Fault, Stop};
use base_data::items::Items;
use base_data::memory::Memory;
use base_data::span::Span;
use core_shapes::at::place_of;
use core_shapes::lists::{is_nil, parts_of};
use std::alloc::Global;
use stx_object::syn::{OpenedTree, Syn};
use stx_scope::scope::Frames;

/// What elements give, one behind the other.
#[derive(Drop)]
pub struct Pieces {
    /// Whether all of them are constants, each as it stands.
    pub fixed: bool,
    /// The parts up to the last splice: lists of items, and splices.
    pub parts: Items<Quasi>,
    /// The items since the last splice.
    pub run: Items<Quasi>,
}

/// What the head and the elements of a list come to.
#[derive(Drop)]
pub enum Begun {
    /// The list is this expression.
    Whole(Syn),
    Parts(Pieces),
}

fn constant(form: &Syn) -> Result<Quasi, Memory>
    ensures { IfOk result (λ q. q ≡ constant form.now) }
{
    let form = form.share()?;
    Ok(Quasi {
        node: QuasiNode::Constant(form),
    })
}

fn call(maker: Maker, parts: Items<Quasi>) -> Quasi
    ensures { result ≡ call maker (quasis parts) }
{
    Quasi {
        node: QuasiNode::Call(maker, parts.into_vec()),
    }
}

/// Puts the values of these behind what is there.
fn push_expressions(list: &mut Items<Quasi>, forms: Items<Syn>) -> Result<(), Memory>
    ensures { OnOk result (list.new ≡ list.old ++ expressions forms) }
{
    for form in forms.into_vec() {
        list.push(Quasi {
            node: QuasiNode::Expression(form),
        })?;
    }
    Ok(())
}

/// Puts the items, where there are any, as one list behind the parts.
fn push_closed(parts: &mut Items<Quasi>, run: Items<Quasi>) -> Result<(), Memory>
    ensures { OnOk result (parts.new ≡ parts.old ++ closed run) }
{
    if run.as_slice().is_empty() {
        return Ok(());
    }
    parts.push(call(Maker::List, run))?;
    Ok(())
}

fn is_constant(plan: &Quasi) -> bool
    ensures { result ≡ is_constant plan.now }
{
    matches!(&plan.node, QuasiNode::Constant(_))
}

fn is_end(alloc: Global, plan: &Quasi) -> Result<bool, Memory>
    ensures { IfOk result (λ b. b ≡ is_end plan.now) }
{
    match &plan.node {
        QuasiNode::Constant(form) => is_nil(alloc, form),
        QuasiNode::Expression(_) => Ok(false),
        QuasiNode::Call(_, _) => Ok(false),
    }
}

impl Pieces {
    fn none(alloc: Global) -> Pieces
        ensures { result ≡ no_pieces }
    {
        Pieces {
            fixed: true,
            parts: Items::new(alloc),
            run: Items::new(alloc),
        }
    }

    fn with_each(self, forms: Items<Syn>) -> Result<Pieces, Memory>
        ensures { IfOk result (λ p. p ≡ with_each self forms) }
    {
        let Pieces { parts, mut run, .. } = self;
        push_expressions(&mut run, forms)?;
        Ok(Pieces {
            fixed: false,
            parts,
            run,
        })
    }

    fn with_splices(self, alloc: Global, forms: Items<Syn>) -> Result<Pieces, Memory>
        ensures { IfOk result (λ p. p ≡ with_splices self forms) }
    {
        let Pieces { mut parts, run, .. } = self;
        if forms.as_slice().is_empty() {
            return Ok(Pieces {
                fixed: false,
                parts,
                run,
            });
        }
        push_closed(&mut parts, run)?;
        push_expressions(&mut parts, forms)?;
        Ok(Pieces {
            fixed: false,
            parts,
            run: Items::new(alloc),
        })
    }

    fn with_item(self, item: Quasi) -> Result<Pieces, Memory>
        ensures { IfOk result (λ p. p ≡ with_item self item) }
    {
        let Pieces {
            fixed,
            parts,
            mut run,
        } = self;
        let fixed = fixed && is_constant(&item);
        run.push(item)?;
        Ok(Pieces { fixed, parts, run })
    }
}

fn without_splices(alloc: Global, run: Items<Quasi>, tail: Quasi) -> Result<Quasi, Memory>
    ensures { IfOk result (λ q. q ≡ without_splices run tail) }
{
    if is_end(alloc, &tail)? {
        return Ok(call(Maker::List, run));
    }
    let mut parts = run;
    parts.push(tail)?;
    Ok(call(Maker::ConsStar, parts))
}

/// The call that makes a list of these parts and items before a tail.
fn made_of(
    alloc: Global,
    parts: Items<Quasi>,
    run: Items<Quasi>,
    tail: Quasi,
) -> Result<Quasi, Memory>
    ensures { IfOk result (λ q. q ≡ made_of parts run tail) }
{
    if parts.as_slice().is_empty() {
        return without_splices(alloc, run, tail);
    }
    let mut all = parts;
    push_closed(&mut all, run)?;
    all.push(tail)?;
    Ok(call(Maker::Append, all))
}

/// What a list comes to, from what its elements give and its tail comes to.
fn list_joined(alloc: Global, form: &Syn, pieces: Pieces, tail: Quasi) -> Result<Quasi, Memory>
    ensures { IfOk result (λ q. q ≡ list_joined form.now pieces tail) }
{
    if pieces.fixed && is_constant(&tail) {
        return constant(form);
    }
    let Pieces { parts, run, .. } = pieces;
    made_of(alloc, parts, run, tail)
}

fn end(alloc: Global) -> Result<Quasi, Memory>
    ensures { IfOk result (λ q. q ≡ constant nil) }
{
    let nil = Syn::atom(alloc, Atom::Nil)?;
    Ok(Quasi {
        node: QuasiNode::Constant(nil),
    })
}

/// What a vector comes to, from what its elements give.
fn vector_joined(alloc: Global, form: &Syn, pieces: Pieces) -> Result<Quasi, Memory>
    ensures { IfOk result (λ q. q ≡ vector_joined form.now pieces) }
{
    if pieces.fixed {
        return constant(form);
    }
    let Pieces { parts, run, .. } = pieces;
    let end = end(alloc)?;
    let list = made_of(alloc, parts, run, end)?;
    let mut one = Items::new(alloc);
    one.push(list)?;
    Ok(call(Maker::ListToVector, one))
}

/// At level 0 the form behind `unquote` is an expression; there must be just one.
fn operand_or_bad(alloc: Global, operand: Option<&Syn>) -> Result<Begun, BareStop>
    ensures { BareGives (λ b. b) result (operand_or_bad (option_map (λ t. t.now) operand.entry)) }
{
    match operand {
        None => Err(bad(alloc)),
        Some(operand) => {
            let operand = operand.share()?;
            Ok(Begun::Whole(operand))
        }
    }
}

/// What a template comes to at a level.
#[cycle(quasi)]
fn quasi_at(alloc: Global, form: &Syn, level: u64, frames: &Frames) -> Result<Quasi, BareStop>
    ensures { BareGives (λ q. q) result (quasi_at (word_of family.Quote frames.now) form.now level) }
{
    match form.open(alloc)? {
        OpenedTree::Atom(_) => {
            let plan = constant(form)?;
            Ok(plan)
        }
        OpenedTree::Symbol(_) => {
            let plan = constant(form)?;
            Ok(plan)
        }
        OpenedTree::Pair(_, _) => list_at(alloc, form, level, frames),
        OpenedTree::Vector(forms) => vector_at(alloc, form, &forms, level, frames),
    }
}

#[cycle(quasi)]
fn vector_at(
    alloc: Global,
    form: &Syn,
    forms: &[Syn],
    level: u64,
    frames: &Frames,
) -> Result<Quasi, BareStop>
    ensures { BareGives (λ q. q) result (vector_at (word_of family.Quote frames.now) form.now forms.now level) }
{
    let pieces = walked(alloc, forms, level, frames)?;
    let plan = vector_joined(alloc, form, pieces)?;
    Ok(plan)
}

/// A list is split first.
#[cycle(quasi)]
fn list_at(alloc: Global, form: &Syn, level: u64, frames: &Frames) -> Result<Quasi, BareStop>
    requires { is_pair form.now ≡ true }
    ensures { BareGives (λ q. q) result (quasi_at (word_of family.Quote frames.now) form.now level) }
{
    let parts = parts_of(alloc, form)?;
    let ends = is_nil(alloc, &parts.tail)?;
    let forms = parts.elements.as_slice();
    if splits(alloc, Family::Quote, forms, ends, frames)? {
        let before = forms.len() - 2;
        let (front, last) = forms.split_at(before);
        let rest = rest_at(alloc, form, before)?;
        let front = ListParts {
            form,
            elements: front,
            tail: &rest,
        };
        let last = ListParts {
            form: &rest,
            elements: last,
            tail: &parts.tail,
        };
        return split_list(alloc, &front, &last, level, frames);
    }
    let list = ListParts {
        form,
        elements: forms,
        tail: &parts.tail,
    };
    flat_list(alloc, &list, level, frames)
}

/// A list whose tail is the list of its last two elements.
#[cycle(quasi)]
fn split_list(
    alloc: Global,
    front: &ListParts,
    last: &ListParts,
    level: u64,
    frames: &Frames,
) -> Result<Quasi, BareStop>
    requires { 0 < length last.now.elements.now }
    ensures { BareGives (λ q. q) result (split_list (word_of family.Quote frames.now) front.now.form.now front.now.elements.now
        (last_list (word_of family.Quote frames.now) last.now.form.now last.now.elements.now last.now.tail.now) level) }
{
    match open_list(alloc, front.elements, false, level, frames)? {
        Begun::Whole(whole) => Ok(Quasi {
            node: QuasiNode::Expression(whole),
        }),
        Begun::Parts(pieces) => {
            let tail = flat_list(alloc, last, level, frames)?;
            let plan = list_joined(alloc, front.form, pieces, tail)?;
            Ok(plan)
        }
    }
}

/// Elements and a tail, as they are.
#[cycle(quasi)]
fn flat_list(
    alloc: Global,
    list: &ListParts,
    level: u64,
    frames: &Frames,
) -> Result<Quasi, BareStop>
    requires { 0 < length list.now.elements.now }
    ensures { BareGives (λ q. q) result (flat_list (word_of family.Quote frames.now) list.now.form.now list.now.elements.now list.now.tail.now level) }
{
    let ends = is_nil(alloc, list.tail)?;
    match open_list(alloc, list.elements, ends, level, frames)? {
        Begun::Whole(whole) => Ok(Quasi {
            node: QuasiNode::Expression(whole),
        }),
        Begun::Parts(pieces) => {
            let tail = quasi_at(alloc, list.tail, level, frames)?;
            let plan = list_joined(alloc, list.form, pieces, tail)?;
            Ok(plan)
        }
    }
}

/// The head and the elements of a list.
#[cycle(quasi)]
fn open_list(
    alloc: Global,
    forms: &[Syn],
    ends: bool,
    level: u64,
    frames: &Frames,
) -> Result<Begun, BareStop>
    ensures { BareGives (λ b. b) result (forms_begun (word_of family.Quote frames.now) forms.now ends level) }
{
    let head = first_word(alloc, Family::Quote, forms, frames)?;
    match head.reach(level) {
        Reach::Operand => operand_or_bad(alloc, operand_of(forms, ends)),
        Reach::Refused => Err(bad(alloc)),
        Reach::Elements => {
            let inner = head.inner(level)?;
            let pieces = walked(alloc, forms, inner, frames)?;
            Ok(Begun::Parts(pieces))
        }
    }
}

/// What the elements of a list or vector give.
#[cycle(quasi)]
#[tactic(auto, using(crate::proofs::Walks::forms_on, crate::proofs::Walks::forms_stop))]
fn walked(alloc: Global, forms: &[Syn], level: u64, frames: &Frames) -> Result<Pieces, BareStop>
    ensures { BareGives (λ p. p) result (forms_walked (word_of family.Quote frames.now) level forms.now) }
{
    let mut pieces = Pieces::none(alloc);
    let mut left = forms;
    while let Some((form, behind)) = left.split_first() {
        pieces = step(alloc, pieces, form, level, frames)?;
        left = behind;
    }
    Ok(pieces)
}

/// Adds what an element gives.
#[cycle(quasi)]
fn step(
    alloc: Global,
    pieces: Pieces,
    form: &Syn,
    level: u64,
    frames: &Frames,
) -> Result<Pieces, BareStop>
    ensures { BareGives (λ p. p) result (step (word_of family.Quote frames.now) level pieces (element (word_of family.Quote frames.now) form.now)) }
{
    match taken_at(alloc, Family::Quote, form, level, frames)? {
        QuasiTaken::Each(forms) => {
            let pieces = pieces.with_each(forms)?;
            Ok(pieces)
        }
        QuasiTaken::Spliced(forms) => {
            let pieces = pieces.with_splices(alloc, forms)?;
            Ok(pieces)
        }
        QuasiTaken::Kept => {
            let item = quasi_at(alloc, form, level, frames)?;
            let pieces = pieces.with_item(item)?;
            Ok(pieces)
        }
    }
}

/// A fault of a template, at the form that it is the template of.
pub(crate) fn at_form(stop: BareStop, form: &Syn, place: &Span) -> Stop
    ensures { StopsAt form.now place.now result stop }
{
    match stop {
        BareStop::Memory => Stop::Memory,
        BareStop::Fault(Bare { kind, words }) => match place_of(form, place) {
            Ok(span) => Stop::Fault(Fault { kind, span, words }),
            Err(memory) => Stop::from(memory),
        },
    }
}

/// What a `quasiquote` form with this template comes to (R6RS 11.17).
///
/// It is `BadForm` at the form where at level 0 `unquote` has another number of operands than one, or
/// `unquote-splicing` stands, and neither is an element of a list or vector; as an element each may have any number.
/// `place` is where a form without a span stands.
#[tactic(auto, using(crate::proofs::Places::form_stops))]
pub fn quasi(
    alloc: Global,
    template: &Syn,
    form: &Syn,
    place: &Span,
    frames: &Frames,
) -> Result<Quasi, Stop>
    ensures { Gives (λ q. q) result (quasi (word_of family.Quote frames.now) template.now form.now place.now) }
{
    match quasi_at(alloc, template, 0, frames) {
        Ok(plan) => Ok(plan),
        Err(stop) => Err(at_form(stop, form, place)),
    }
}
