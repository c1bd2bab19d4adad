//! What is being read.

ghost use Rattle.std.specs.Prelude.{◌≡◌};

use std::mem::forget;

/// Something that is being read. Where the bytes turn out to be no spelling it is given up and not dropped: a drop takes as
/// many frames of the stack as there are levels in it, each larger than those of reading, and an entry may have 8,192.
pub struct HeldReading<T> {
    pub value: T,
}

impl<T: Drop> Drop for HeldReading<T> {
    fn drop(self) {
        let HeldReading { value } = self;
        forget(value);
    }
}

impl<T> HeldReading<T> {
    /// Holds what is being read.
    pub fn new(value: T) -> HeldReading<T>
        ensures { result.value ≡ value }
    {
        HeldReading { value }
    }

    /// What was held.
    pub fn take(self) -> T
        ensures { result ≡ self.value }
    {
        let HeldReading { value } = self;
        value
    }
}
