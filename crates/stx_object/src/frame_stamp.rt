//! Frames that many trees are stamped with.

ghost use Rattle.std.specs.Prelude.{◌≡◌, IfOk};
ghost use Rattle.stx_tree.specs.Changes.{stamp};

use crate::syn::Syn;
use crate::wrap::Wrap;
use base_data::memory::Memory;
use base_data::name::FrameNo;
use std::alloc::Global;
use std::marker::Model;
use stx_tree::change::Change;

/// A frame that many trees are stamped with, as one link for all of them.
#[derive(Drop)]
pub struct FrameStamp {
    frame: FrameNo,
    stamp: Wrap,
}

impl Model for FrameStamp {
    ghost use Rattle.std.specs.Prelude.{◌≡◌, [], ◌∷◌};
    ghost use Rattle.base_data.specs.declared.name.FrameNo.{FrameNo};
    ghost use Rattle.stx_tree.specs.declared.change.Change.TheVariants.{Stamp};

    ghost Value = { FrameNo };

    ghost view = { λ s. s.frame };

    ghost invariant = { λ s. s.stamp ≡ Stamp s.frame ∷ [] };
}

impl FrameStamp {
    /// The stamp of this frame.
    pub fn new(alloc: Global, frame: &FrameNo) -> Result<FrameStamp, Memory>
        ensures { IfOk result (λ s. s ≡ frame.now) }
    {
        let change = Change::Stamp(frame.share()?);
        let stamp = Wrap::one(alloc, change)?;
        let frame = frame.share()?;
        Ok(FrameStamp { frame, stamp })
    }

    /// The tree with the frame and the marks before the stamps of every leaf. It takes memory only where other changes
    /// still have to reach its leaves.
    pub fn put(&self, alloc: Global, tree: &Syn) -> Result<Syn, Memory>
        ensures { IfOk result (λ t. t ≡ stamp self.now tree.now) }
    {
        let kept = tree.kept.under(alloc, &self.stamp)?;
        Ok(Syn { kept })
    }
}
