//! What an instance costs, before it is made.

ghost use Rattle.std.specs.Prelude.{◌≡◌, ◌+◌, ◌*◌, ◌<◌, ℕ, [], false, IfOk, OnOk};
ghost use Rattle.core_language.specs.TemplateView.{items};
ghost use Rattle.eval_template.specs.Binds.{unbound};
ghost use Rattle.eval_template.specs.Instance.{counts};
ghost use Rattle.eval_template.specs.Measure.{turns_cost, item_cost, measure, items_cost, sees, items_see, IsCost, Measures};

use crate::binds::InstanceContext;
use crate::instance::drop_last;
use crate::lengths::agreed;
use base_data::fault::BareStop;
use base_data::memory::Memory;
use base_data::name::Label;
use core_language::template::{Template, TemplateItem, TemplateNode};
use eval_value::bind::Bind;
use std::alloc::Global;

/// The cost of the value that a template gives under these binds: 1 for each pair and for each element of a
/// vector. It is none where it is 2^64 or more, which no fuel pays.
///
/// It is `EllipsisLength` with the first two lengths under one ellipsis that differ. Turns that all cost the
/// same are measured once.
pub fn measure(
    alloc: Global,
    template: &Template,
    binds: &[(Label, Bind)],
) -> Result<Option<u64>, BareStop>
    ensures { Measures result (measure unbound binds.now template.now []) }
{
    let context = InstanceContext { alloc, binds };
    let mut turns = Vec::new(alloc);
    template_cost(&context, template, &mut turns)
}

/// The sum of two costs.
fn sum(first: Option<u64>, second: Option<u64>) -> Option<u64>
    ensures { (m n : ℕ) → IsCost first m → IsCost second n → IsCost result (m + n) }
{
    match first {
        None => None,
        Some(first) => sum_with(first, second),
    }
}

fn sum_with(first: u64, second: Option<u64>) -> Option<u64>
    ensures { (n : ℕ) → IsCost second n → IsCost result (first + n) }
{
    match second {
        None => None,
        Some(second) => first.checked_add(second),
    }
}

/// The cost of so many turns that each cost this.
#[tactic(auto, using(crate::proofs::Measured::still_unpaid))]
fn times(cost: Option<u64>, count: u64) -> Option<u64>
    ensures { (n : ℕ) → IsCost cost n → 0 < count → IsCost result (count * n) }
{
    match cost {
        None => None,
        Some(cost) => count.checked_mul(cost),
    }
}

/// Whether what a template costs, with so many ellipses behind it, depends on the turn of an ellipsis round it.
#[cycle(sees)]
fn sees(template: &Template, inside: u64) -> Result<bool, Memory>
    ensures { IfOk result (λ b. b ≡ sees inside template.now) }
{
    match &template.node {
        TemplateNode::Variable(_, depth) => Ok(inside != 0 && inside < u64::from(*depth)),
        TemplateNode::Constant(_) => Ok(false),
        TemplateNode::List(list, tail) => {
            if items_see(list, inside)? {
                return Ok(true);
            }
            sees(tail, inside)
        }
        TemplateNode::Vector(list) => items_see(list, inside),
    }
}

#[cycle(sees)]
#[tactic(auto, using(crate::proofs::Measured::seen_here, crate::proofs::Measured::seen_on))]
fn items_see(list: &[TemplateItem], inside: u64) -> Result<bool, Memory>
    ensures { IfOk result (λ b. b ≡ items_see inside (items list.now)) }
{
    for item in list {
        let Some(more) = inside.checked_add(u64::from(item.ellipses)) else {
            return Err(Memory);
        };
        if sees(&item.template, more)? {
            return Ok(true);
        }
    }
    Ok(false)
}

/// The cost of a template, after these turns.
#[cycle(template_cost)]
#[tactic(auto, using(crate::proofs::Measured::both, crate::proofs::Measured::stops_first, crate::proofs::Measured::stops_second))]
fn template_cost(
    context: &InstanceContext,
    template: &Template,
    turns: &mut Vec<u64>,
) -> Result<Option<u64>, BareStop>
    ensures cost { Measures result (measure unbound context.now.binds.now template.now turns.old.items) }
    ensures turns { OnOk result (turns.new.items ≡ turns.old.items) }
{
    match &template.node {
        TemplateNode::Variable(_, _) => Ok(Some(0)),
        TemplateNode::Constant(_) => Ok(Some(0)),
        TemplateNode::List(list, tail) => {
            let cost = items_cost(context, list, turns)?;
            let last = template_cost(context, tail, turns)?;
            Ok(sum(cost, last))
        }
        TemplateNode::Vector(list) => items_cost(context, list, turns),
    }
}

/// The cost of items, from left to right.
#[cycle(template_cost)]
#[tactic(auto, using(crate::proofs::Measured::begun, crate::proofs::Measured::comes_to, crate::proofs::Measured::cost_end))]
fn items_cost(
    context: &InstanceContext,
    list: &[TemplateItem],
    turns: &mut Vec<u64>,
) -> Result<Option<u64>, BareStop>
    ensures cost { Measures result (items_cost unbound context.now.binds.now (items list.now) turns.old.items) }
    ensures turns { OnOk result (turns.new.items ≡ turns.old.items) }
{
    let mut total = Some(0);
    for part in list {
        let cost = item_cost(context, &part.template, part.ellipses, turns)?;
        total = sum(total, cost);
    }
    Ok(total)
}

/// The cost of an item with so many ellipses behind it.
#[cycle(template_cost)]
#[tactic(auto, using(crate::proofs::Measured::both, crate::proofs::Measured::stops_first))]
pub(crate) fn item_cost(
    context: &InstanceContext,
    template: &Template,
    ellipses: u32,
    turns: &mut Vec<u64>,
) -> Result<Option<u64>, BareStop>
    ensures cost { Measures result (item_cost (measure unbound context.now.binds.now template.now)
        (counts unbound context.now.binds.now template.now) ellipses turns.old.items) }
    ensures turns { OnOk result (turns.new.items ≡ turns.old.items) }
{
    if ellipses == 0 {
        let cost = template_cost(context, template, turns)?;
        return Ok(sum(cost, Some(1)));
    }
    let inside = ellipses - 1;
    let count = agreed(context, template, u64::from(inside), turns.as_slice(), None)?;
    turns_cost(context, template, inside, count.unwrap_or(0), turns)
}

/// The cost of the turns of an ellipsis, so many.
#[cycle(template_cost)]
fn turns_cost(
    context: &InstanceContext,
    template: &Template,
    inside: u32,
    count: u64,
    turns: &mut Vec<u64>,
) -> Result<Option<u64>, BareStop>
    ensures cost { Measures result (turns_cost (item_cost (measure unbound context.now.binds.now template.now)
        (counts unbound context.now.binds.now template.now) inside) count 0 turns.old.items) }
    ensures turns { OnOk result (turns.new.items ≡ turns.old.items) }
{
    if sees(template, u64::from(inside))? {
        return each_turn(context, template, inside, count, turns);
    }
    like_turns(context, template, inside, count, turns)
}

/// The cost of turns of which each costs what it costs.
#[cycle(template_cost)]
#[tactic(auto, using(crate::proofs::Measured::begun, crate::proofs::Measured::comes_to, crate::proofs::Measured::turn_end))]
fn each_turn(
    context: &InstanceContext,
    template: &Template,
    inside: u32,
    count: u64,
    turns: &mut Vec<u64>,
) -> Result<Option<u64>, BareStop>
    ensures cost { Measures result (turns_cost (item_cost (measure unbound context.now.binds.now template.now)
        (counts unbound context.now.binds.now template.now) inside) count 0 turns.old.items) }
    ensures turns { OnOk result (turns.new.items ≡ turns.old.items) }
{
    let mut total = Some(0);
    for turn in 0..count {
        turns.push(turn)?;
        let cost = item_cost(context, template, inside, turns)?;
        drop_last(turns);
        total = sum(total, cost);
    }
    Ok(total)
}

/// The cost of turns that all cost the same.
#[cycle(template_cost)]
fn like_turns(
    context: &InstanceContext,
    template: &Template,
    inside: u32,
    count: u64,
    turns: &mut Vec<u64>,
) -> Result<Option<u64>, BareStop>
    requires { sees inside template.now ≡ false }
    ensures cost { Measures result (turns_cost (item_cost (measure unbound context.now.binds.now template.now)
        (counts unbound context.now.binds.now template.now) inside) count 0 turns.old.items) }
    ensures turns { OnOk result (turns.new.items ≡ turns.old.items) }
{
    if count == 0 {
        return Ok(Some(0));
    }
    turns.push(0)?;
    let cost = item_cost(context, template, inside, turns)?;
    drop_last(turns);
    Ok(times(cost, count))
}
