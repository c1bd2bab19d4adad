//! Frames that may grow, with an index of which of them bind a symbol.

ghost use Rattle.std.specs.Prelude.{◌≡◌, ◌∷◌, ◌++◌, [], true, false, IfSome, OnOk, OnErr};
ghost use Rattle.base_data.specs.Gives.{BareGives};
ghost use Rattle.stx_frames.specs.Binders.{OnlyBinders};
ghost use Rattle.stx_frames.specs.Scope.{has_frame, bound, adopted, are_new};

use crate::binders::BinderIndex;
use crate::frames::FrameMap;
use base_data::fault::BareStop;
use base_data::memory::Memory;
use base_data::name::{FrameNo, Label};
use base_data::symbol::Symbol;
use std::alloc::Global;
use std::marker::Model;
use stx_tree::frame_row::FrameRow;
use stx_tree::marks::Marks;

/// Frames with their rows. The index doesn't show: each row has its frame there, among those of its symbol.
#[derive(Drop)]
pub struct IndexedFrames {
    frames: FrameMap,
    index: BinderIndex,
}

impl Model for IndexedFrames {
    ghost use Rattle.stx_frames.specs.Scope.{Scope, scope_code};
    ghost use Rattle.stx_frames.specs.Binders.{IsIndexed};

    ghost Value = { Scope };

    ghost coded = { scope_code };

    ghost view = { λ a. a.frames };

    ghost invariant = { λ a. IsIndexed a.index a.frames };
}

impl IndexedFrames {
    /// No frames. It takes no memory.
    pub fn new(alloc: Global) -> IndexedFrames
        ensures { result ≡ [] }
    {
        let frames = FrameMap::new(alloc);
        let index = BinderIndex::new(alloc);
        IndexedFrames { frames, index }
    }

    /// The frames without their index.
    pub fn frames(&self) -> &FrameMap
        ensures { result.now ≡ self.now }
    {
        &self.frames
    }

    /// Adds a frame without rows. A refusal changes nothing.
    pub fn new_frame(&mut self, frame: FrameNo) -> Result<(), Memory>
        requires { has_frame frame self.old ≡ false }
        ensures ok { OnOk result (self.new ≡ self.old ++ (frame, []) ∷ []) }
        ensures err { OnErr result (self.new ≡ self.old) }
    {
        self.frames.new_frame(frame)
    }

    /// Binds a symbol with marks to a label. It is `Duplicate` exactly where the frame has a row of
    /// the same symbol and marks. A frame that isn't there is added. A refusal changes nothing.
    pub fn bind(
        &mut self,
        frame: &FrameNo,
        symbol: Symbol,
        marks: Marks,
        label: Label,
    ) -> Result<(), BareStop>
        ensures row { BareGives (λ _. self.new) result (bound self.old frame.now (record { symbol = symbol; marks = marks; label = label })) }
        ensures err { OnErr result (self.new ≡ self.old) }
    {
        match self.index.add(frame, &symbol) {
            Ok(()) => {}
            Err(_) => return Err(BareStop::Memory),
        }
        self.frames.bind(frame, symbol, marks, label)
    }

    /// Adds rows of frames that are new, in their order. A refusal changes nothing. Two rows with one
    /// frame, symbol and marks are refused as want of memory is: those of a library are none.
    pub fn adopt(&mut self, rows: &[FrameRow]) -> Result<(), Memory>
        requires { are_new rows.now self.old ≡ true }
        ensures ok { OnOk result (self.new ≡ adopted self.old rows.now) }
        ensures err { OnErr result (self.new ≡ self.old) }
    {
        match self.index.add_rows(rows) {
            Ok(()) => {}
            Err(_) => return Err(Memory),
        }
        self.frames.adopt(rows)
    }

    /// Frames of which each that has a row of the symbol is one, where they are few. It takes no memory.
    pub fn binders(&self, symbol: &Symbol) -> Option<&[FrameNo]>
        ensures { IfSome result (λ gs. OnlyBinders self.now symbol.now gs.now) }
    {
        self.index.get(symbol)
    }
}
