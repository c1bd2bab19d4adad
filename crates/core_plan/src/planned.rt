//! The plan as a function: there is but one, and it is what following references as long as any wait gives.
//!
//! `run_plan` promises the places that chains of references reach, and no others, rising. Here it is told by a
//! function of the records and the program, so that what is made of a plan, as the core text, is one as well.
//!
//! ```text
//! the program refers to (b), (b) refers to (a)        waiting: (b), then (a); the plan has both
//! ```

ghost use Rattle.std.specs.Prelude.{◌≡◌, IfOk};
ghost use Rattle.core_plan.specs.Planned.{plan_of};

use crate::plan::run_plan;
use base_data::memory::Memory;
use core_language::record::CompiledLibrary;
use std::alloc::Global;

/// The places of the records that the program needs when it runs, rising.
#[tactic(auto, using(crate::proofs::PlanLemmas::plan_is))]
pub fn planned(
    alloc: Global,
    records: &[CompiledLibrary],
    program: &CompiledLibrary,
) -> Result<Vec<usize>, Memory>
    ensures { IfOk result (λ plan. plan.items ≡ plan_of records.now program.now) }
{
    run_plan(alloc, records, program)
}
