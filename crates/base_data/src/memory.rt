//! Want of memory, the one refusal that any call which allocates may give.

ghost use Rattle.base_data.specs.declared.memory.Memory.{Memory};

use std::alloc::{AllocError, AllocFailed};

/// No memory was left. It may come from any call that takes memory, and says nothing of the input.
#[derive(Clone, Copy, Debug, PartialEq, Eq)]
pub struct Memory;

impl From<AllocError> for Memory {
    fn from(_error: AllocError) -> Memory {
        Memory
    }
}

impl<T: Drop> From<AllocFailed<T>> for Memory {
    fn from(_error: AllocFailed<T>) -> Memory {
        Memory
    }
}
