//! Stamps: frames, each with the marks that a leaf had when it came into their scope.

ghost use Rattle.std.specs.Prelude.{◌≡◌, IfOk};

use crate::marks::Marks;
use base_data::memory::Memory;
use base_data::name::FrameNo;
use std::alloc::Global;

/// A frame, and the marks of the leaf when it was stamped with it.
#[derive(PartialEq, Eq, Hash, Drop)]
pub struct Stamp {
    pub frame: FrameNo,
    pub marks: Marks,
}

impl Stamp {
    /// Another owner of the same stamp.
    pub fn share(&self, alloc: Global) -> Result<Stamp, Memory>
        ensures { IfOk result (λ s. s ≡ self.now) }
    {
        let frame = self.frame.share()?;
        let marks = self.marks.share(alloc)?;
        Ok(Stamp { frame, marks })
    }
}
