//! Whether each of some things stands once among them.

ghost use Rattle.std.specs.Prelude.{◌≡◌, [], IfOk};
ghost use Rattle.law_core.specs.Words.{once};
ghost use Rattle.core_well_made.specs.Sets.{once_behind};

use base_data::map::set_for;
use base_data::memory::Memory;
use std::alloc::Global;
use std::hash::Hash;

// Whether each of these comes for the first time.
#[tactic(auto, using(crate::proofs::Distinct::behind_on, crate::proofs::Distinct::behind_off))]
fn come_once<T: Eq + Hash + Drop>(alloc: Global, items: Vec<T>) -> Result<bool, Memory>
    ensures { IfOk result (λ b. b ≡ once_behind T.eq [] items.items) }
{
    let mut set = set_for(alloc, items.len())?;
    for item in items {
        match set.insert(item) {
            Ok(true) => {}
            Ok(false) => return Ok(false),
            Err(_) => return Err(Memory),
        }
    }
    Ok(true)
}

/// Whether no two of these are equal.
pub fn once<T: Eq + Hash + Drop>(alloc: Global, items: Vec<T>) -> Result<bool, Memory>
    ensures { IfOk result (λ b. b ≡ once T.eq items.items) }
{
    come_once(alloc, items)
}
