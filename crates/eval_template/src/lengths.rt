//! The lengths of variables at an ellipsis.

ghost use Rattle.std.specs.Prelude.{◌≡◌, ◌∷◌, [], None, decimal, IfOk};
ghost use Rattle.base_data.specs.Gives.{BareGives};
ghost use Rattle.eval_value.specs.ToSyntax.{IsFaultOr};
ghost use Rattle.core_language.specs.TemplateView.{items};
ghost use Rattle.eval_template.specs.Binds.{unbound};
ghost use Rattle.eval_template.specs.Lengths.{lengths, items_lengths, differing, agree, or_none};

use crate::binds::{InstanceContext, count_at};
use base_data::fault::{Bare, BareStop, FaultKind};
use base_data::items::Items;
use base_data::memory::Memory;
use base_data::symbol::Symbol;
use core_language::template::{Template, TemplateItem, TemplateNode};
use itoa::Buffer;
use std::alloc::Global;

fn number_word(alloc: Global, number: u64) -> Result<Symbol, Memory>
    ensures { IfOk result (λ s. s ≡ decimal number) }
{
    let mut digits = Buffer::new();
    Symbol::new(alloc, digits.format(number))
}

fn two_words(alloc: Global, first: u64, second: u64) -> Result<Items<Symbol>, Memory>
    ensures { IfOk result (λ words. words ≡ decimal first ∷ (decimal second ∷ [])) }
{
    let mut words = Items::new(alloc);
    words.push(number_word(alloc, first)?)?;
    words.push(number_word(alloc, second)?)?;
    Ok(words)
}

/// Two lengths that differ.
fn differing(alloc: Global, first: u64, second: u64) -> BareStop
    ensures { IsFaultOr result (differing first second) }
{
    match two_words(alloc, first, second) {
        Ok(words) => BareStop::Fault(Bare {
            kind: FaultKind::EllipsisLength,
            words,
        }),
        Err(_) => BareStop::Memory,
    }
}

fn agree_with(alloc: Global, so_far: Option<u64>, count: u64) -> Result<Option<u64>, BareStop>
    ensures { BareGives (λ m. m) result (agree so_far (count ∷ [])) }
{
    match so_far {
        None => Ok(Some(count)),
        Some(first) => {
            if first == count {
                Ok(Some(first))
            } else {
                Err(differing(alloc, first, count))
            }
        }
    }
}

/// The one length of the variables of depth at an ellipsis, inside which so many others stand. It is
/// `EllipsisLength` with the first two that differ, in order of place.
#[cycle(agreed)]
#[tactic(auto, using(crate::proofs::Agreed::agree_on, crate::proofs::Agreed::agree_stops))]
pub(crate) fn agreed(
    context: &InstanceContext,
    template: &Template,
    inside: u64,
    turns: &[u64],
    so_far: Option<u64>,
) -> Result<Option<u64>, BareStop>
    ensures { BareGives (λ m. m) result (agree so_far (lengths unbound context.now.binds.now turns.now inside template.now)) }
{
    match &template.node {
        TemplateNode::Variable(label, depth) => {
            let depth = u64::from(*depth);
            if inside < depth {
                let outer = depth - inside - 1;
                agree_with(
                    context.alloc,
                    so_far,
                    count_at(context.binds, label, outer, turns),
                )
            } else {
                Ok(so_far)
            }
        }
        TemplateNode::Constant(_) => Ok(so_far),
        TemplateNode::List(list, tail) => {
            let so_far = all_agreed(context, list, inside, turns, so_far)?;
            agreed(context, tail, inside, turns, so_far)
        }
        TemplateNode::Vector(list) => all_agreed(context, list, inside, turns, so_far),
    }
}

#[cycle(agreed)]
#[tactic(auto, using(crate::proofs::Agreed::agreed_here, crate::proofs::Agreed::agreed_stops))]
fn all_agreed(
    context: &InstanceContext,
    list: &[TemplateItem],
    inside: u64,
    turns: &[u64],
    so_far: Option<u64>,
) -> Result<Option<u64>, BareStop>
    ensures { BareGives (λ m. m) result (agree so_far (items_lengths unbound context.now.binds.now turns.now inside (items list.now))) }
{
    let mut so_far = so_far;
    for item in list {
        let Some(more) = inside.checked_add(u64::from(item.ellipses)) else {
            return Err(BareStop::Memory);
        };
        so_far = agreed(context, &item.template, more, turns, so_far)?;
    }
    Ok(so_far)
}
