//! Rows of frames: what one frame says of one symbol with marks.

ghost use Rattle.std.specs.Prelude.{◌≡◌, IfOk};

use crate::marks::Marks;
use base_data::memory::Memory;
use base_data::name::{FrameNo, Label};
use base_data::symbol::Symbol;
use std::alloc::Global;

/// A frame gives the symbol with these marks a label.
#[derive(Drop)]
pub struct FrameRow {
    pub frame: FrameNo,
    pub symbol: Symbol,
    pub marks: Marks,
    pub label: Label,
}

impl FrameRow {
    /// Another owner of the same row.
    pub fn share(&self, alloc: Global) -> Result<FrameRow, Memory>
        ensures { IfOk result (λ r. r ≡ self.now) }
    {
        let frame = self.frame.share()?;
        let symbol = self.symbol.share()?;
        let marks = self.marks.share(alloc)?;
        let label = self.label.share()?;
        Ok(FrameRow {
            frame,
            symbol,
            marks,
            label,
        })
    }
}
