//! Why loading stops.

ghost use Rattle.std.specs.Prelude.{◌≡◌};
ghost use Rattle.load_files.specs.Halting.{halt_of_stop, halt_of_outside};
ghost use Rattle.load_files.specs.declared.halt.LoadHalt.TheVariants as halt;

use base_data::fault::{Fault, Stop};
use base_data::memory::Memory;
use base_outside::OutsideError;
use std::alloc::AllocFailed;

/// Why loading stops.
#[derive(Drop)]
pub enum LoadHalt {
    /// The first fault.
    Fault(Fault),
    /// A file couldn't be read.
    Read,
    Memory,
}

impl From<Stop> for LoadHalt {
    ghost from_gives = { λ stop h. h ≡ halt_of_stop stop };

    fn from(stop: Stop) -> LoadHalt {
        match stop {
            Stop::Fault(fault) => LoadHalt::Fault(fault),
            Stop::Memory => LoadHalt::Memory,
        }
    }
}

impl From<OutsideError> for LoadHalt {
    ghost from_gives = { λ error h. h ≡ halt_of_outside error };

    fn from(error: OutsideError) -> LoadHalt {
        match error {
            OutsideError::Failed => LoadHalt::Read,
            OutsideError::Memory => LoadHalt::Memory,
        }
    }
}

impl From<Memory> for LoadHalt {
    ghost from_gives = { λ _ h. h ≡ halt.Memory };

    fn from(_error: Memory) -> LoadHalt {
        LoadHalt::Memory
    }
}

impl<T: Drop> From<AllocFailed<T>> for LoadHalt {
    ghost from_gives = { λ _ h. h ≡ halt.Memory };

    fn from(_error: AllocFailed<T>) -> LoadHalt {
        LoadHalt::Memory
    }
}
