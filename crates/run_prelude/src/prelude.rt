//! What a run keeps of the texts.

ghost use Rattle.std.specs.Prelude.{◌≡◌, ◌+◌, [], map, IfOk, OnOk};
ghost use Rattle.base_data.specs.Gives.{Gives};
ghost use Rattle.eval_code.specs.Codes as table;
ghost use Rattle.eval_stage.specs.Libraries.{earlier_in};
ghost use Rattle.run_prelude.specs.Prelude.{filled, kept, prelude_table, prelude_spent};

use crate::codes::prelude_codes;
use base_data::fault::{Fault, Stop};
use base_data::items::Items;
use base_data::map::{NameMap, new_map};
use base_data::memory::Memory;
use base_data::name::CodeNo;
use core_language::code::Code;
use eval_code::codes::add_procedure;
use expand_forms::tally::Tally;
use expand_standing::means::Means;
use std::alloc::Global;
use std::rc::Rc;
use std::sync::ledger::Ledger;

/// The codes of the texts, or the first fault in one. No text has a fault.
#[derive(Drop)]
pub enum Prelude {
    Codes(Items<Rc<Code>>),
    Fault(Fault),
}

// The table that the codes make.
fn filled(alloc: Global, codes: &[Rc<Code>]) -> Result<NameMap<CodeNo, Rc<Code>>, Memory>
    ensures { IfOk result (λ cs. table.seen cs.entries ≡ filled [] (map (λ c. c.value) codes.now)) }
{
    let mut table = new_map(alloc);
    for code in codes {
        add_procedure(&mut table, code)?;
    }
    Ok(table)
}

fn share_fault(fault: &Fault, alloc: Global) -> Result<Fault, Memory>
    ensures { IfOk result (λ f. f ≡ fault.now) }
{
    let span = fault.span.share()?;
    let mut words = Items::new(alloc);
    for word in fault.words.as_slice() {
        words.push(word.share()?)?;
    }
    Ok(Fault {
        kind: fault.kind,
        span,
        words,
    })
}

impl Prelude {
    /// Expands the texts. `means` has no records.
    pub fn new<N: Ledger, L: Ledger>(
        alloc: Global,
        means: &Means,
        tally: &mut Tally<N, L>,
    ) -> Result<Prelude, Memory>
        requires { earlier_in means.now.earlier ≡ [] }
        ensures table { IfOk result (λ p. kept p ≡ prelude_table) }
        ensures fuel { OnOk result (tally.new.fuel ≡ tally.old.fuel + prelude_spent) }
    {
        match prelude_codes(alloc, means, tally) {
            Ok(codes) => Ok(Prelude::Codes(codes)),
            Err(Stop::Fault(fault)) => Ok(Prelude::Fault(fault)),
            Err(Stop::Memory) => Err(Memory),
        }
    }

    /// The table of the codes, in which an expansion puts others behind them.
    pub fn codes(&self, alloc: Global) -> Result<NameMap<CodeNo, Rc<Code>>, Stop>
        ensures { Gives (λ cs. table.seen cs.entries) result (kept self.now) }
    {
        match self {
            Prelude::Codes(codes) => Ok(filled(alloc, codes.as_slice())?),
            Prelude::Fault(fault) => Err(Stop::Fault(share_fault(fault, alloc)?)),
        }
    }
}
