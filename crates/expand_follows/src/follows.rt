//! Whether a record follows earlier ones.

ghost use Rattle.std.specs.Prelude.{◌≡◌, IfOk};
ghost use Rattle.law_core.specs.Follows.{follows};

use crate::closed::Top;
use crate::code::has_good_code;
use crate::defines::{binds_what_it_defines, defined_set};
use crate::earlier::NeededEarlier;
use crate::known::{knows_its_labels, own_indices};
use crate::names::{has_new_name, names_its_own};
use crate::references::refers_to_earlier;
use base_data::memory::Memory;
use core_language::record::CompiledLibrary;
use std::alloc::Global;

/// Whether a record follows the needed records before it, and so may stand behind them.
pub fn follows(
    alloc: Global,
    one: &CompiledLibrary,
    earlier: &NeededEarlier,
) -> Result<bool, Memory>
    ensures { IfOk result (λ b. b ≡ follows one.now earlier.now) }
{
    if !has_new_name(alloc, one, earlier)? {
        return Ok(false);
    }
    if !names_its_own(alloc, one)? {
        return Ok(false);
    }
    let defines = defined_set(alloc, one)?;
    if !binds_what_it_defines(alloc, one, &defines)? {
        return Ok(false);
    }
    let own = own_indices(alloc, one.bindings.as_slice())?;
    if !knows_its_labels(one, &own, earlier) {
        return Ok(false);
    }
    let top = Top {
        alloc,
        earlier,
        own: &defines,
    };
    if !has_good_code(one, &own, &top)? {
        return Ok(false);
    }
    refers_to_earlier(alloc, one, earlier)
}
