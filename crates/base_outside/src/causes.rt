//! Why a call of the outside failed.

ghost use Rattle.std.specs.Prelude.{◌≡◌, ◌≤◌};
ghost use Rattle.base_outside.specs.Causes.{raised};
ghost use Rattle.base_outside.specs.declared.causes.OutsideError.TheVariants as causes;

use base_data::memory::Memory;

/// Why a read or a write of files or of a store has no answer.
#[derive(Clone, Copy, Debug, PartialEq, Eq)]
pub enum OutsideError {
    /// The outside refused. The count of faults rose in the call.
    Failed,
    /// There was no memory for the answer.
    Memory,
}

impl From<Memory> for OutsideError {
    ghost from_gives = { λ _ error. error ≡ causes.Memory };

    fn from(_error: Memory) -> OutsideError {
        OutsideError::Memory
    }
}

/// Counts a fault, and gives the error that tells of it.
pub(crate) fn failed(faults: &mut u64) -> OutsideError
    ensures error { result ≡ OutsideError.Failed }
    ensures count { faults.new ≡ raised faults.old }
    ensures later { faults.old ≤ faults.new }
{
    *faults = faults.saturating_add(1);
    OutsideError::Failed
}
