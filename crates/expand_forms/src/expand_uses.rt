//! Uses of keywords (R6RS 10): one gives another form in its place, until a form is no use.

ghost use Rattle.std.specs.Prelude.{◌≡◌, IfOk, Ok};
ghost use Rattle.base_data.specs.Act.{GivesAfter};
ghost use Rattle.expand_forms.specs.ExpandUses.{used_form, next_form, set_step, step_of, step, linked, expand_uses, at_use, set_item_step, item_step_of, item_step, expand_item_uses};

use crate::at::{FormAt, ItemAt, ItemForm};
use crate::links::link;
use crate::transformers::Transformers;
use base_data::fault::{FaultKind, Stop};
use base_data::memory::Memory;
use base_data::name::Label;
use base_data::span::Span;
use core_shapes::at::place_of;
use eval_stage::uses::MacroUse;
use expand_heads::item::{HeadItem, Item};
use expand_heads::items::{item_plan, wait};
use expand_heads::plan::{HeadPlan, KeywordUse, Plan, plan_of};
use expand_heads::taken::{BodyAt, Taken};
use expand_standing::expansion::Expansion;
use expand_standing::means::Counts;
use std::sync::ledger::Ledger;
use stx_object::syn::Syn;

/// What a form asks for: its plan, or a use of a keyword.
#[derive(Drop)]
pub enum PlanOrUse {
    Plan(Plan),
    Use(KeywordUse),
}

/// A form that is no use, and its plan.
#[derive(Drop)]
pub struct PlannedForm {
    /// Where it stands if it has no span.
    pub place: Span,
    pub form: Syn,
    pub plan: Plan,
}

/// What a form of a body asks for: its item, or a use of a keyword.
#[derive(Drop)]
pub enum ItemOrUse {
    Item(Item),
    Use(KeywordUse),
}

/// A form of a body that is no use, where it stands, and its item.
#[derive(Drop)]
pub struct PlannedItem {
    pub at: BodyAt,
    pub form: Syn,
    pub item: Item,
}

/// The target of an assignment to a keyword, and what it stands for.
#[derive(Drop)]
struct AssignedKeyword {
    label: Label,
    id: Syn,
}

/// The form that a use gives, of a keyword with a transformer or of a record form.
fn used_form<M: Transformers, N: Ledger, L: Ledger>(
    state: &mut Expansion<L>,
    used: MacroUse<&KeywordUse>,
    means: &M,
    counts: &mut Counts<N, L>,
) -> Result<Syn, Stop>
    ensures { GivesAfter (λ t. t) result state.new (used_form
        (M.records means.now) used.entry.place.now used.entry.form.now used.entry.keyword.now used.entry.frame state.old) }
{
    let MacroUse {
        keyword,
        form,
        frame,
        place,
    } = used;
    match keyword {
        KeywordUse::Macro(label) => {
            let used = MacroUse {
                keyword: label,
                form,
                frame,
                place,
            };
            means.use_keyword(state, used, counts)
        }
        KeywordUse::Record(which) => {
            let used = MacroUse {
                keyword: *which,
                form,
                frame,
                place,
            };
            state.use_record(used, counts.nodes)
        }
    }
}

/// The form that a use gives, after which so many uses are left.
#[tactic(auto, unfolding(crate::specs::ExpandUses::next_form))]
fn next_form<M: Transformers, N: Ledger, L: Ledger>(
    state: &mut Expansion<L>,
    left: u32,
    used: MacroUse<&KeywordUse>,
    means: &M,
    counts: &mut Counts<N, L>,
) -> Result<Syn, Stop>
    ensures { GivesAfter (λ t. t) result state.new (next_form
        (M.records means.now) left used.entry.place.now used.entry.form.now used.entry.keyword.now used.entry.frame state.old) }
{
    state.leave_uses(left);
    let at = place_of(used.form, used.place)?;
    let used = MacroUse { place: &at, ..used };
    used_form(state, used, means, counts)
}

fn set_step<L: Ledger>(
    state: &mut Expansion<L>,
    form: &Syn,
    target: AssignedKeyword,
    is_use: bool,
    place: &Span,
) -> Result<PlanOrUse, Stop>
    ensures { GivesAfter (λ x. x) result state.new (set_step place.now form.now target.label target.id is_use state.old) }
{
    if is_use {
        return Ok(PlanOrUse::Use(KeywordUse::Macro(target.label)));
    }
    Err(state.fault_word(FaultKind::KeywordMisuse, &target.id, form, place))
}

fn step_of<M: Transformers, N: Ledger, L: Ledger>(
    state: &mut Expansion<L>,
    form: &Syn,
    plan: HeadPlan,
    at: &FormAt<M>,
    counts: &mut Counts<N, L>,
) -> Result<PlanOrUse, Stop>
    ensures { GivesAfter (λ x. x) result state.new (step_of (M.records at.now.means.now) at.now.site.now.place form.now plan state.old) }
{
    let site = at.site;
    match plan {
        HeadPlan::Plan(plan) => Ok(PlanOrUse::Plan(plan)),
        HeadPlan::Use(keyword) => Ok(PlanOrUse::Use(keyword)),
        HeadPlan::SetUse(label, id) => {
            let place = place_of(form, site.place)?;
            let is_use = at.means.asks_variable(state, &place, &label, counts)?;
            let target = AssignedKeyword { label, id };
            set_step(state, form, target, is_use, site.place)
        }
    }
}

#[tactic(auto, unfolding(crate::specs::ExpandUses::step))]
fn next_step<M: Transformers, N: Ledger, L: Ledger>(
    state: &mut Expansion<L>,
    form: &Syn,
    at: &FormAt<M>,
    counts: &mut Counts<N, L>,
) -> Result<PlanOrUse, Stop>
    ensures { GivesAfter (λ x. x) result state.new (step (M.records at.now.means.now) at.now.site.now.place at.now.site.now.level form.now state.old) }
{
    let site = at.site;
    let plan = plan_of(state, form, site.place, site.level)?;
    step_of(state, form, plan, at, counts)
}

/// A form that is no use, and its plan. The identifier that it is, or that it assigns, is linked.
fn planned_form<L: Ledger>(
    state: &mut Expansion<L>,
    place: Span,
    form: Syn,
    plan: Plan,
) -> Result<PlannedForm, Stop>
    ensures { GivesAfter (λ d. d) result state.new (Ok (record { place = place; form = form; plan = plan }, linked form plan state.old)) }
{
    match link(state, &form, &plan) {
        Ok(()) => Ok(PlannedForm { place, form, plan }),
        Err(memory) => {
            drop(plan);
            Err(Stop::from(memory))
        }
    }
}

/// What is to be done with the form that comes of the uses of keywords that a form begins with. What comes of
/// a use stands at the place of the use.
pub(crate) fn expand_uses<M: Transformers, N: Ledger, L: Ledger>(
    state: &mut Expansion<L>,
    form: &Syn,
    at: &FormAt<M>,
    counts: &mut Counts<N, L>,
) -> Result<PlannedForm, Stop>
    ensures { GivesAfter (λ d. d) result state.new (expand_uses (M.records at.now.means.now) at.now.site.now.place at.now.site.now.level form.now state.old) }
{
    let mut left = state.uses_left();
    let mut form = form.share()?;
    let mut place = at.site.share_place()?;
    loop {
        let site = at.site.at_place(&place);
        let here = FormAt { site: &site, ..*at };
        let keyword = match next_step(state, &form, &here, counts)? {
            PlanOrUse::Plan(plan) => return planned_form(state, place, form, plan),
            PlanOrUse::Use(keyword) => keyword,
        };
        if left == 0 {
            return Err(state.fault_form(FaultKind::TooManyExpansions, &form, &place));
        }
        left -= 1;
        let used = MacroUse {
            keyword: &keyword,
            form: &form,
            frame: None,
            place: &place,
        };
        let next = next_form(state, left, used, at.means, counts)?;
        place = place_of(&form, &place)?;
        form = next;
    }
}

/// Where what comes of a use in a body stands.
fn at_use(at: BodyAt, form: &Syn) -> Result<BodyAt, Memory>
    ensures { IfOk result (λ b. b ≡ at_use at form.now) }
{
    let BodyAt {
        frame,
        place,
        level,
        kind,
    } = at;
    let place = place_of(form, &place)?;
    Ok(BodyAt {
        frame,
        place,
        level,
        kind,
    })
}

fn share_at(at: &BodyAt) -> Result<BodyAt, Memory>
    ensures { IfOk result (λ b. b ≡ at.now) }
{
    let frame = at.frame.share()?;
    let place = at.place.share()?;
    Ok(BodyAt {
        frame,
        place,
        level: at.level,
        kind: at.kind,
    })
}

fn set_item_step<M, L: Ledger>(
    state: &mut Expansion<L>,
    one: &ItemForm<M>,
    taken: &mut Taken,
    label: Label,
    is_use: bool,
) -> Result<ItemOrUse, Stop>
    ensures { GivesAfter (λ x. (taken.new, x)) result state.new
        (set_item_step one.now.body.now one.now.depth taken.old one.now.form.now label is_use state.old) }
{
    if is_use {
        return Ok(ItemOrUse::Use(KeywordUse::Macro(label)));
    }
    wait(state, one.body, one.depth, taken, one.form)?;
    Ok(ItemOrUse::Item(Item::Nothing))
}

fn item_step_of<M: Transformers, N: Ledger, L: Ledger>(
    state: &mut Expansion<L>,
    one: &ItemForm<M>,
    taken: &mut Taken,
    item: HeadItem,
    counts: &mut Counts<N, L>,
) -> Result<ItemOrUse, Stop>
    ensures { GivesAfter (λ x. (taken.new, x)) result state.new
        (item_step_of (M.records one.now.means.now) one.now.body.now one.now.depth one.now.form.now taken.old item state.old) }
{
    match item {
        HeadItem::Item(item) => Ok(ItemOrUse::Item(item)),
        HeadItem::Use(keyword) => Ok(ItemOrUse::Use(keyword)),
        HeadItem::SetUse(label) => {
            let place = place_of(one.form, &one.body.place)?;
            let is_use = one.means.asks_variable(state, &place, &label, counts)?;
            set_item_step(state, one, taken, label, is_use)
        }
    }
}

#[tactic(auto, unfolding(crate::specs::ExpandUses::item_step))]
fn item_step<M: Transformers, N: Ledger, L: Ledger>(
    state: &mut Expansion<L>,
    one: &ItemForm<M>,
    taken: &mut Taken,
    counts: &mut Counts<N, L>,
) -> Result<ItemOrUse, Stop>
    ensures { GivesAfter (λ x. (taken.new, x)) result state.new
        (item_step (M.records one.now.means.now) one.now.body.now one.now.depth taken.old one.now.form.now state.old) }
{
    let item = item_plan(state, one.body, one.depth, taken, one.form)?;
    item_step_of(state, one, taken, item, counts)
}

/// As `expand_uses`, of a form of a body. A use gets the frame of the body, so that what comes of it can bind in
/// that frame.
pub(crate) fn expand_item_uses<M: Transformers, N: Ledger, L: Ledger>(
    state: &mut Expansion<L>,
    at: &ItemAt<M>,
    taken: &mut Taken,
    form: &Syn,
    counts: &mut Counts<N, L>,
) -> Result<PlannedItem, Stop>
    ensures { GivesAfter (λ d. (taken.new, d)) result state.new
        (expand_item_uses (M.records at.now.means.now) at.now.body.now at.now.depth taken.old form.now state.old) }
{
    let mut left = state.uses_left();
    let mut form = form.share()?;
    let mut body = share_at(at.body)?;
    loop {
        let one = ItemForm {
            form: &form,
            body: &body,
            depth: at.depth,
            means: at.means,
        };
        let keyword = match item_step(state, &one, taken, counts)? {
            ItemOrUse::Item(item) => {
                return Ok(PlannedItem {
                    at: body,
                    form,
                    item,
                });
            }
            ItemOrUse::Use(keyword) => keyword,
        };
        if left == 0 {
            return Err(state.fault_form(FaultKind::TooManyExpansions, &form, &body.place));
        }
        left -= 1;
        let frame = body.frame.share()?;
        let used = MacroUse {
            keyword: &keyword,
            form: &form,
            frame: Some(frame),
            place: &body.place,
        };
        let next = next_form(state, left, used, at.means, counts)?;
        body = at_use(body, &form)?;
        form = next;
    }
}
