//! Bodies (R6RS 10 and 11.3).

ghost use Rattle.std.specs.Prelude.{◌≡◌, IfOk, None, false, map};
ghost use Rattle.base_data.specs.Datum as datum;
ghost use Rattle.base_data.specs.declared.atom.Atom.TheVariants as atoms;
ghost use Rattle.base_data.specs.Act.{GivesAfter};
ghost use Rattle.core_language.specs.Core.{quoted};
ghost use Rattle.expand_heads.specs.Items.{begun};
ghost use Rattle.stx_tree.specs.Changes.{stamp};
ghost use Rattle.expand_forms.specs.Expression.{inside};
ghost use Rattle.expand_forms.specs.Body.{splice, item, perform_item, value_of, finish_one, finish_all, finish, body, body_in, body_core, lambda_at, with_inits, no_value};

use crate::at::{FormAt, ItemAt};
use crate::cores::procedure_of_case;
use crate::expand_uses::{PlannedItem, expand_item_uses};
use crate::expression::{ProcedureForm, expression, procedure, sequence_of, stamp_all};
use crate::keywords::{KeywordDefinition, LetSyntaxForm, define_syntax, with_keywords};
use crate::site::{Site, site_in, site_of};
use crate::transformers::Transformers;
use base_data::atom::Atom;
use base_data::datum::{Datum, Node};
use base_data::fault::{FaultKind, Stop};
use base_data::items::Items;
use base_data::memory::Memory;
use base_data::name::{CodeNo, FrameNo};
use core_language::code::{Core, CoreNode, Init};
use core_language::record::Line;
use expand_heads::depth::{MOST_ROUND, deeper};
use expand_heads::item::Item;
use expand_heads::kept::KeptHeads;
use expand_heads::taken::{BodyAt, BodyKind, Taken, Waiting, Waits};
use expand_standing::expansion::Expansion;
use expand_standing::means::Counts;
use std::alloc::Global;
use std::sync::ledger::Ledger;
use stx_object::syn::Syn;

/// A form that has a body, and the forms of the body.
#[derive(Drop)]
pub struct BodyForm<'a> {
    /// The whole form, which is at fault where the body has no expression.
    pub form: &'a Syn,
    pub forms: &'a [Syn],
}

fn falsehood() -> Datum
    ensures { result ≡ datum.atom None (atoms.Bool false) }
{
    Datum {
        span: None,
        node: Node::Atom(Atom::Bool(false)),
    }
}

fn boxed_falsehood(alloc: Global) -> Result<Box<Core>, Memory>
    ensures { IfOk result (λ c. c.value ≡ quoted (datum.atom None (atoms.Bool false))) }
{
    let constant = Core {
        node: CoreNode::Quote(falsehood()),
    };
    Ok(Box::new(alloc, constant)?)
}

/// The value of a variable that is defined without one: that of `(if #f #f)`.
fn no_value(alloc: Global) -> Result<Core, Memory>
    ensures { IfOk result (λ c. c ≡ no_value) }
{
    let test = boxed_falsehood(alloc)?;
    let then = boxed_falsehood(alloc)?;
    Ok(Core {
        node: CoreNode::If(test, then, None),
    })
}

#[tactic(auto, using(crate::proofs::Bodies::no_inits, crate::proofs::Bodies::some_inits))]
fn with_inits(alloc: Global, inits: Vec<Init>, value: Core) -> Result<Core, Memory>
    ensures { IfOk result (λ c. c ≡ with_inits inits.items value) }
{
    if inits.is_empty() {
        return Ok(value);
    }
    let value = Box::new(alloc, value)?;
    Ok(Core {
        node: CoreNode::Letrec(true, inits, value),
    })
}

/// A body with definitions is a `letrec*`.
fn body_core(alloc: Global, lines: Vec<Line>) -> Result<Core, Memory>
    ensures { IfOk result (λ c. c ≡ body_core lines.items) }
{
    let mut inits = Vec::new(alloc);
    let mut values = Vec::new(alloc);
    let mut lines = lines;
    lines.reverse();
    while let Some(line) = lines.pop() {
        match line {
            Line::Define(label, value) => inits.push(Init { label, value })?,
            Line::Expr(value) => values.push(value)?,
        }
    }
    with_inits(alloc, inits, sequence_of(values))
}

/// Nothing is taken yet.
pub(crate) fn begun(alloc: Global) -> Taken
    ensures { result ≡ begun }
{
    Taken {
        waiting: Items::new(alloc),
        kept: KeptHeads::new(alloc),
        has_expression: false,
        moved: false,
    }
}

/// Where the forms of the body of a procedure stand.
fn lambda_at(frame: FrameNo, site: &Site) -> Result<BodyAt, Memory>
    ensures { IfOk result (λ at. at ≡ lambda_at frame site.now.place site.now.level) }
{
    let place = site.place.share()?;
    Ok(BodyAt {
        frame,
        place,
        level: site.level,
        kind: BodyKind::Lambda,
    })
}

/// Forms of a body, in order.
#[cycle(form)]
fn splice<M: Transformers, N: Ledger, L: Ledger>(
    state: &mut Expansion<L>,
    at: &ItemAt<M>,
    taken: &mut Taken,
    forms: &[Syn],
    counts: &mut Counts<N, L>,
) -> Result<(), Stop>
    ensures { GivesAfter (λ _. taken.new) result state.new
        (splice (inside (M.records at.now.means.now) at.now.room) at.now.body.now at.now.depth taken.old forms.now state.old) }
{
    for form in forms {
        item(state, at, taken, form, counts)?;
    }
    Ok(())
}

/// Takes a form of a body. The form takes one of the room, and is refused where none is left.
#[cycle(form)]
#[tactic(auto, using(crate::proofs::Steps::item_step, crate::proofs::Steps::item_too_deep))]
pub(crate) fn item<M: Transformers, N: Ledger, L: Ledger>(
    state: &mut Expansion<L>,
    at: &ItemAt<M>,
    taken: &mut Taken,
    form: &Syn,
    counts: &mut Counts<N, L>,
) -> Result<(), Stop>
    ensures { GivesAfter (λ _. taken.new) result state.new
        ((inside (M.records at.now.means.now) at.now.room).item at.now.body.now at.now.depth taken.old form.now state.old) }
{
    if at.room == 0 {
        return Err(state.fault_form(FaultKind::TooDeep, form, &at.body.place));
    }
    let inner = ItemAt {
        room: at.room - 1,
        ..*at
    };
    item_at(state, &inner, taken, form, counts)
}

/// As `item`, with the room that is left for the forms in it.
#[cycle(form)]
#[tactic(auto, unfolding(crate::specs::Body::item), using(crate::proofs::Steps::earlier_inside))]
fn item_at<M: Transformers, N: Ledger, L: Ledger>(
    state: &mut Expansion<L>,
    at: &ItemAt<M>,
    taken: &mut Taken,
    form: &Syn,
    counts: &mut Counts<N, L>,
) -> Result<(), Stop>
    ensures { GivesAfter (λ _. taken.new) result state.new
        (item (inside (M.records at.now.means.now) at.now.room) at.now.body.now at.now.depth taken.old form.now state.old) }
{
    if at.depth > MOST_ROUND {
        return Err(state.fault_form(FaultKind::TooDeep, form, &at.body.place));
    }
    let settled = expand_item_uses(state, at, taken, form, counts)?;
    let done = perform_item(state, at, taken, &settled, counts);
    drop(settled);
    done
}

/// What is done with a form of a body that is no use. Where it stands is told by `settled`, the planned item: the
/// body of `at` is not looked at.
#[cycle(form)]
#[tactic(auto, unfolding(crate::specs::Body::perform_item))]
fn perform_item<M: Transformers, N: Ledger, L: Ledger>(
    state: &mut Expansion<L>,
    at: &ItemAt<M>,
    taken: &mut Taken,
    settled: &PlannedItem,
    counts: &mut Counts<N, L>,
) -> Result<(), Stop>
    ensures { GivesAfter (λ _. taken.new) result state.new
        (perform_item (inside (M.records at.now.means.now) at.now.room) settled.now.at at.now.depth taken.old settled.now.form
        settled.now.item state.old) }
{
    let inner = ItemAt {
        body: &settled.at,
        depth: deeper(at.depth),
        ..*at
    };
    match &settled.item {
        Item::Nothing => Ok(()),
        Item::Forms(forms) => splice(state, &inner, taken, forms.as_slice(), counts),
        Item::Keyword(spec) => {
            let definition = KeywordDefinition {
                form: &settled.form,
                spec,
            };
            define_syntax(state, &inner, taken, &definition, counts)
        }
        Item::Keywords(recursive, specs, forms) => {
            let parts = LetSyntaxForm {
                recursive: *recursive,
                specs: specs.as_slice(),
                forms: forms.as_slice(),
            };
            let site = site_in(&settled.at, inner.depth);
            let keywords_at = FormAt {
                site: &site,
                room: at.room,
                means: at.means,
            };
            let forms = with_keywords(state, &parts, &keywords_at, counts)?;
            splice(state, &inner, taken, forms.as_slice(), counts)
        }
    }
}

#[cycle(form)]
fn value_of<M: Transformers, N: Ledger, L: Ledger>(
    state: &mut Expansion<L>,
    value: &Option<Syn>,
    at: &FormAt<M>,
    counts: &mut Counts<N, L>,
) -> Result<Core, Stop>
    ensures { GivesAfter (λ c. c) result state.new (value_of (inside (M.records at.now.means.now) at.now.room) at.now.site.now value.now state.old) }
{
    match value {
        None => Ok(no_value(state.alloc())?),
        Some(value) => expression(state, value, at, counts),
    }
}

/// The line of a form that has waited. It has a place and a depth of its own: those of `at` are not looked at.
#[cycle(form)]
#[tactic(auto, unfolding(crate::specs::Body::finish_as))]
pub(crate) fn finish_one<M: Transformers, N: Ledger, L: Ledger>(
    state: &mut Expansion<L>,
    waiting: &Waiting,
    at: &FormAt<M>,
    counts: &mut Counts<N, L>,
) -> Result<Line, Stop>
    ensures { GivesAfter (λ c. c) result state.new (finish_one (inside (M.records at.now.means.now) at.now.room) at.now.site.now.level waiting.now state.old) }
{
    let outer = at.site;
    let site = site_of(outer.level, waiting);
    let there = FormAt { site: &site, ..*at };
    let within = site.one_deeper();
    let inner = FormAt {
        site: &within,
        ..*at
    };
    match &waiting.what {
        Waits::Variable(label, value) => {
            let label = label.share()?;
            let value = value_of(state, value, &inner, counts)?;
            Ok(Line::Define(label, value))
        }
        Waits::Procedure(label, form, ids, forms) => {
            let label = label.share()?;
            let number = CodeNo(state.fresh()?);
            let parts = ProcedureForm {
                form,
                ids,
                forms: forms.as_slice(),
            };
            let case = procedure(state, &parts, &inner, counts)?;
            let value = procedure_of_case(state.alloc(), number, case)?;
            Ok(Line::Define(label, value))
        }
        Waits::Expression(form) => {
            let value = expression(state, form, &there, counts)?;
            Ok(Line::Expr(value))
        }
    }
}

/// The second pass: a line for each that waits, in order. Of `at` the place and the depth are not looked at.
#[cycle(form)]
fn finish_all<M: Transformers, N: Ledger, L: Ledger>(
    state: &mut Expansion<L>,
    waiting: &[Waiting],
    at: &FormAt<M>,
    counts: &mut Counts<N, L>,
) -> Result<Vec<Line>, Stop>
    ensures { GivesAfter (λ v. v.items) result state.new
        (finish_all (inside (M.records at.now.means.now) at.now.room) at.now.site.now.level waiting.now state.old) }
{
    let mut lines = Vec::new(state.alloc());
    for one in waiting {
        let line = finish_one(state, one, at, counts)?;
        lines.push(line)?;
    }
    Ok(lines)
}

/// The core code of a body whose first pass is over. It must have an expression.
#[cycle(form)]
#[tactic(auto, unfolding(crate::specs::Body::finish))]
fn finish<M: Transformers, N: Ledger, L: Ledger>(
    state: &mut Expansion<L>,
    form: &Syn,
    taken: &Taken,
    at: &FormAt<M>,
    counts: &mut Counts<N, L>,
) -> Result<Core, Stop>
    ensures { GivesAfter (λ c. c) result state.new (finish
        (inside (M.records at.now.means.now) at.now.room) at.now.site.now.place at.now.site.now.level form.now taken.now state.old) }
{
    let site = at.site;
    if !taken.has_expression {
        return Err(state.fault_form(FaultKind::NoExpression, form, site.place));
    }
    let lines = finish_all(state, taken.waiting.as_slice(), at, counts)?;
    Ok(body_core(state.alloc(), lines)?)
}

/// The body of a procedure or `letrec`.
#[cycle(form)]
#[tactic(auto, unfolding(crate::specs::Body::body))]
pub fn body<M: Transformers, N: Ledger, L: Ledger>(
    state: &mut Expansion<L>,
    whole: &BodyForm,
    at: &FormAt<M>,
    counts: &mut Counts<N, L>,
) -> Result<Core, Stop>
    ensures { GivesAfter (λ c. c) result state.new (body
        (inside (M.records at.now.means.now) at.now.room) at.now.site.now whole.now.form.now whole.now.forms.now state.old) }
{
    let outer = state.in_scope();
    let frame = state.fresh_frame()?;
    let core = body_in(state, frame, whole, at, counts)?;
    state.cut_scope(outer);
    Ok(core)
}

/// Such a body whose definitions have this frame.
#[cycle(form)]
fn body_in<M: Transformers, N: Ledger, L: Ledger>(
    state: &mut Expansion<L>,
    frame: FrameNo,
    whole: &BodyForm,
    at: &FormAt<M>,
    counts: &mut Counts<N, L>,
) -> Result<Core, Stop>
    ensures { GivesAfter (λ c. c) result state.new (body_in
        (inside (M.records at.now.means.now) at.now.room) at.now.site.now whole.now.form.now whole.now.forms.now frame state.old) }
{
    let site = at.site;
    let body = lambda_at(frame, at.site)?;
    let items = ItemAt {
        body: &body,
        depth: site.depth,
        room: at.room,
        means: at.means,
    };
    let taken = taken_of(state, &items, whole.forms, counts)?;
    let core = finish(state, whole.form, &taken, at, counts);
    drop(taken);
    core
}

/// The first pass over the forms of a body, on which its frame is put.
#[cycle(form)]
fn taken_of<M: Transformers, N: Ledger, L: Ledger>(
    state: &mut Expansion<L>,
    at: &ItemAt<M>,
    forms: &[Syn],
    counts: &mut Counts<N, L>,
) -> Result<Taken, Stop>
    ensures { GivesAfter (λ t. t) result state.new (splice
        (inside (M.records at.now.means.now) at.now.room) at.now.body.now at.now.depth begun (map (stamp at.now.body.now.frame) forms.now) state.old) }
{
    let forms = stamp_all(state.alloc(), &at.body.frame, forms, counts.nodes)?;
    let mut taken = begun(state.alloc());
    match splice(state, at, &mut taken, forms.as_slice(), counts) {
        Ok(()) => Ok(taken),
        Err(stop) => {
            drop(taken);
            Err(stop)
        }
    }
}
