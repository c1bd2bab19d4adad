//! The code of plans of `quasiquote`.

ghost use Rattle.std.specs.Prelude.{◌≡◌, ◌∷◌, [], IfOk, MatchOption};
ghost use Rattle.core_language.specs.Core.{quoted};
ghost use Rattle.core_quasi.specs.Plan.{quasis};
ghost use Rattle.stx_tree.specs.Leaves.{strip};
ghost use Rattle.expand_quasi.specs.Filled.{call_of, next_code, filled, all_filled};

use base_data::memory::Memory;
use base_data::op::Op;
use core_language::code::{Core, CoreNode};
use core_quasi::plan::{Quasi, QuasiNode};
use std::alloc::Global;
use std::marker::Model;
use stx_object::syn::Syn;

/// The codes of parts, of which the first is taken next.
#[derive(Drop)]
pub struct PartCodes {
    /// The last first.
    backward: Vec<Core>,
}

impl Model for PartCodes {
    ghost use Rattle.std.specs.Prelude.{List, reverse};
    ghost use Rattle.std.specs.Coded.{coded_list};
    ghost use Rattle.core_language.specs.Core.{PlainCore};
    ghost use Rattle.core_language.specs.CoreCode.{core_code};

    ghost Value = { List PlainCore };

    ghost coded = { coded_list core_code };

    ghost view = { λ c. reverse c.backward.items };
}

impl PartCodes {
    fn new(codes: Vec<Core>) -> PartCodes
        ensures { result ≡ codes.items }
    {
        let mut backward = codes;
        backward.reverse();
        PartCodes { backward }
    }

    fn next(&mut self) -> Option<Core>
        ensures { MatchOption result ((self.old ≡ []) × (self.new ≡ [])) (λ c. self.old ≡ c ∷ self.new) }
    {
        self.backward.pop()
    }
}

/// The call of a procedure of the implementation.
pub(crate) fn call_of(alloc: Global, op: Op, operands: Vec<Core>) -> Result<Core, Memory>
    ensures { IfOk result (λ c. c ≡ call_of op operands.items) }
{
    let operator = Core {
        node: CoreNode::Prim(op),
    };
    let operator = Box::new(alloc, operator)?;
    Ok(Core {
        node: CoreNode::App(operator, operands),
    })
}

fn quotation(alloc: Global, form: &Syn) -> Result<Core, Memory>
    ensures { IfOk result (λ c. c ≡ quoted (strip form.now)) }
{
    let datum = form.strip(alloc)?;
    Ok(Core {
        node: CoreNode::Quote(datum),
    })
}

fn next_code(alloc: Global, form: &Syn, codes: &mut PartCodes) -> Result<Core, Memory>
    ensures { IfOk result (λ c. (c, codes.new) ≡ next_code form.now codes.old) }
{
    match codes.next() {
        Some(core) => Ok(core),
        None => quotation(alloc, form),
    }
}

/// The code of a plan, in which the expressions have these codes, in order.
#[cycle(filled)]
#[tactic(auto, using(crate::proofs::Walks::call_filled))]
fn filled(alloc: Global, quasi: &Quasi, codes: &mut PartCodes) -> Result<Core, Memory>
    ensures { IfOk result (λ c. (c, codes.new) ≡ filled quasi.now codes.old) }
{
    match &quasi.node {
        QuasiNode::Constant(form) => quotation(alloc, form),
        QuasiNode::Expression(form) => next_code(alloc, form, codes),
        QuasiNode::Call(maker, parts) => {
            let parts = all_filled(alloc, parts, codes)?;
            call_of(alloc, maker.op(), parts)
        }
    }
}

#[cycle(filled)]
#[tactic(auto, using(crate::proofs::Walks::filled_on))]
fn all_filled(alloc: Global, parts: &[Quasi], codes: &mut PartCodes) -> Result<Vec<Core>, Memory>
    ensures { IfOk result (λ cs. (cs.items, codes.new) ≡ all_filled [] (quasis parts.now) codes.old) }
{
    let mut done = Vec::new(alloc);
    for part in parts {
        let core = filled(alloc, part, codes)?;
        done.push(core)?;
    }
    Ok(done)
}

/// The code of a plan, whose expressions have these codes.
#[tactic(auto, using(crate::proofs::Walks::first_code))]
pub(crate) fn plan_code(alloc: Global, quasi: &Quasi, codes: Vec<Core>) -> Result<Core, Memory>
    ensures { IfOk result (λ c. c ≡ (filled quasi.now codes.items).0) }
{
    let mut codes = PartCodes::new(codes);
    filled(alloc, quasi, &mut codes)
}
