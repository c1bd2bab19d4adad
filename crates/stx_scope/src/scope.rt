//! Frames of bindings, and what leaves stand for in them.

ghost use Rattle.std.specs.Prelude.{◌≡◌, ◌∷◌, ◌++◌, [], filter, true, false, Some, IfOk, IfSome, OnOk, OnErr};
ghost use Rattle.base_data.specs.Gives.{BareGives};
ghost use Rattle.stx_frames.specs.Given.{flat};
ghost use Rattle.stx_frames.specs.Listed.{rows_in};
ghost use Rattle.stx_frames.specs.Needed.{needed_parts, AreApart};
ghost use Rattle.stx_frames.specs.Scope.{has_frame, label_by, bound, adopted, are_new};
ghost use Rattle.stx_scope.specs.Same.{same_binding};
ghost use Rattle.stx_scope.specs.Stands.{row_for, stands, is_for};
ghost use Rattle.stx_object.specs.Among as among;

use crate::same::symbol_of;
use base_data::fault::BareStop;
use base_data::items::Items;
use base_data::library::LibName;
use base_data::memory::Memory;
use base_data::name::{FrameNo, Label};
use base_data::symbol::Symbol;
use std::alloc::Global;
use std::marker::Model;
use std::rc::Rc;
use stx_frames::kept::KeptFrames;
use stx_frames::key::Key;
use stx_frames::shared::SharedFrames;
use stx_object::base::LeafStamps;
use stx_object::syn::Syn;
use stx_tree::frame_row::FrameRow;
use stx_tree::marks::Marks;
use stx_tree::stamp::Stamp;

/// So many of a leaf's newest stamps are asked first where many frames bind its symbol: most such leaves are bound
/// close to where they stand.
const NEWEST: usize = 4;

/// So many before what is remembered.
const RECENT: usize = 16;

/// Frames, each with its rows in the order of binding. Tables and remembered answers don't show.
/// What is no leaf counts as one of the empty symbol, without marks and stamps, so it stands for no label.
#[derive(Drop)]
pub struct Frames {
    alloc: Global,
    frames: KeptFrames,
}

impl Model for Frames {
    ghost use Rattle.stx_frames.specs.Scope.{Scope, scope_code};

    ghost Value = { Scope };

    ghost coded = { scope_code };

    ghost view = { λ a. a.frames };
}

impl Frames {
    /// No frames. It takes no memory.
    pub fn new(alloc: Global) -> Frames
        ensures { result ≡ [] }
    {
        Frames {
            alloc,
            frames: KeptFrames::new(alloc),
        }
    }

    /// The frames of those libraries of a table that are marked, which come before all that are made in any
    /// other way. It takes no memory.
    pub fn over(alloc: Global, shared: Rc<SharedFrames>, needs: Rc<Items<bool>>) -> Frames
        ensures frames { result ≡ flat (needed_parts needs.value shared.value) }
        ensures apart { AreApart [] (needed_parts needs.value shared.value) }
    {
        Frames {
            alloc,
            frames: KeptFrames::over(alloc, shared, needs),
        }
    }

    /// Whether the frame is there. It takes no memory.
    pub fn has_frame(&self, frame: &FrameNo) -> bool
        ensures { result ≡ has_frame frame.now self.now }
    {
        self.frames.has_frame(frame)
    }

    /// Adds a frame without rows. A refusal changes nothing.
    pub fn new_frame(&mut self, frame: FrameNo) -> Result<(), Memory>
        requires { has_frame frame self.old ≡ false }
        ensures ok { OnOk result (self.new ≡ self.old ++ (frame, []) ∷ []) }
        ensures err { OnErr result (self.new ≡ self.old) }
    {
        self.frames.new_frame(frame)
    }

    /// Whether no row is of a frame that is there. It takes no memory.
    pub fn are_new(&self, rows: &[FrameRow]) -> bool
        ensures { result ≡ are_new rows.now self.now }
    {
        self.frames.are_new(rows)
    }

    /// Adds the rows of a library, in their order. No frame of theirs may be there, and no two of them
    /// may have one frame, symbol and marks: such rows are refused as want of memory is. A refusal
    /// changes nothing.
    pub fn adopt(&mut self, rows: &[FrameRow]) -> Result<(), Memory>
        requires { are_new rows.now self.old ≡ true }
        ensures ok { OnOk result (self.new ≡ adopted self.old rows.now) }
        ensures err { OnErr result (self.new ≡ self.old) }
    {
        self.frames.adopt(rows)
    }

    /// Binds a leaf in a frame. It is `Duplicate` exactly where the frame has a row with the leaf's
    /// symbol and marks; a frame that isn't there is added. A refusal changes nothing.
    pub fn bind(&mut self, frame: FrameNo, id: &Syn, label: Label) -> Result<(), BareStop>
        ensures row { BareGives (λ _. self.new) result (bound self.old frame (row_for id.now label)) }
        ensures err { OnErr result (self.new ≡ self.old) }
    {
        let symbol = symbol_of(self.alloc, id)?;
        let marks = id.marks(self.alloc)?;
        self.frames.bind(&frame, symbol, marks, label)
    }

    /// The label that those of the stamps find which are of other libraries than this one or have one of these
    /// frames.
    fn found_among(
        &self,
        symbol: &Symbol,
        stamps: &LeafStamps,
        library: &LibName,
        frames: &[FrameNo],
    ) -> Result<Option<Label>, Memory>
        ensures { IfOk result (λ l. l ≡ label_by self.now symbol.now (filter (among.is_for library.now frames.now) stamps.now)) }
    {
        let symbol = symbol.share()?;
        let marks = Marks::new(self.alloc);
        let mut key = Key { symbol, marks };
        let mut left = stamps.share()?;
        while let Some((stamp, behind)) = left.split_among(self.alloc, library, frames)? {
            let Stamp { frame, marks } = stamp;
            key.marks = marks;
            if let Some(label) = self.frames.find(&frame, &key) {
                let label = label.share()?;
                return Ok(Some(label));
            }
            left = behind;
        }
        Ok(None)
    }

    /// The label that the stamps find, where few frames bind the symbol. Then the stamps of the newest one's
    /// library that have other frames find nothing, and aren't looked up.
    fn found_by_few(
        &self,
        symbol: &Symbol,
        stamps: &LeafStamps,
    ) -> Result<Option<Option<Label>>, Memory>
        ensures { IfOk result (λ o. IfSome o (λ l. l ≡ label_by self.now symbol.now stamps.now)) }
    {
        let Some(frame) = stamps.newest_frame() else {
            return Ok(None);
        };
        let library = &frame.0.library;
        let Some(binders) = self.frames.binders(symbol, library) else {
            return Ok(None);
        };
        let label = self.found_among(symbol, stamps, library, binders)?;
        Ok(Some(label))
    }

    /// The label that the stamps find, where one of so many of the newest gives it.
    fn found_soon(
        &self,
        symbol: &Symbol,
        stamps: &LeafStamps,
        count: usize,
    ) -> Result<Option<Label>, Memory>
        ensures { IfOk result (λ o. IfSome o (λ l. label_by self.now symbol.now stamps.now ≡ Some l)) }
    {
        let symbol = symbol.share()?;
        let marks = Marks::new(self.alloc);
        let mut key = Key { symbol, marks };
        let mut left = stamps.share()?;
        for _ in 0..count {
            let Some((stamp, behind)) = left.split_first(self.alloc)? else {
                return Ok(None);
            };
            let Stamp { frame, marks } = stamp;
            key.marks = marks;
            if let Some(label) = self.frames.find(&frame, &key) {
                let label = label.share()?;
                return Ok(Some(label));
            }
            left = behind;
        }
        Ok(None)
    }

    /// The label that a leaf stands for: that of the first of its stamps whose frame has a row with
    /// the leaf's symbol and the stamp's marks. A stamp whose frame isn't there has no row.
    pub fn stands(&self, id: &Syn) -> Result<Option<Label>, Memory>
        ensures { IfOk result (λ l. l ≡ stands self.now id.now) }
    {
        let symbol = symbol_of(self.alloc, id)?;
        let stamps = id.leaf_stamps(self.alloc)?;
        if let Some(label) = self.found_by_few(&symbol, &stamps)? {
            return Ok(label);
        }
        if let Some(label) = self.found_soon(&symbol, &stamps, NEWEST)? {
            return Ok(Some(label));
        }
        let stamps = stamps.all(self.alloc)?;
        self.frames.label_by(symbol, stamps)
    }

    /// The label that the stamps find, remembered where none of the recent ones gives it.
    fn found_kept(
        &mut self,
        id: &Syn,
        symbol: Symbol,
        stamps: LeafStamps,
    ) -> Result<Option<Label>, Memory>
        ensures label { IfOk result (λ l. l ≡ label_by self.old symbol stamps) }
        ensures unchanged { self.new ≡ self.old }
    {
        if let Some(label) = self.found_soon(&symbol, &stamps, RECENT)? {
            return Ok(Some(label));
        }
        let stamps = stamps.all(self.alloc)?;
        if stamps.len() <= RECENT {
            return self.frames.label_by(symbol, stamps);
        }
        let marks = id.marks(self.alloc)?;
        self.frames.label_kept(symbol, marks, stamps)
    }

    /// As `stands`, and remembers the answer where many frames bind the symbol and none of the recent stamps gives
    /// it: each use of a keyword makes stamps of its own, and to ask for them in the memo would cost more than to
    /// look. A remembered answer is given only where it still holds, so none shows.
    pub fn stands_kept(&mut self, id: &Syn) -> Result<Option<Label>, Memory>
        ensures label { IfOk result (λ l. l ≡ stands self.old id.now) }
        ensures unchanged { self.new ≡ self.old }
    {
        let symbol = symbol_of(self.alloc, id)?;
        let stamps = id.leaf_stamps(self.alloc)?;
        if let Some(label) = self.found_by_few(&symbol, &stamps)? {
            return Ok(label);
        }
        if let Some(label) = self.found_soon(&symbol, &stamps, NEWEST)? {
            return Ok(Some(label));
        }
        self.found_kept(id, symbol, stamps)
    }

    /// Whether a leaf stands for this label. It asks as `stands_kept` does.
    pub fn stands_for(&mut self, id: &Syn, label: &Label) -> Result<bool, Memory>
        ensures label { IfOk result (λ r. r ≡ is_for label.now (stands self.old id.now)) }
        ensures unchanged { self.new ≡ self.old }
    {
        match self.stands_kept(id)? {
            Some(found) => Ok(found == *label),
            None => Ok(false),
        }
    }

    /// Whether two leaves stand for one label, or both for none and have one symbol, as
    /// `free-identifier=?` says it (R6RS libraries 12.5).
    pub fn same_binding(&self, a: &Syn, b: &Syn) -> Result<bool, Memory>
        ensures { IfOk result (λ r. r ≡ same_binding self.now a.now b.now) }
    {
        match (self.stands(a)?, self.stands(b)?) {
            (Some(first), Some(second)) => Ok(first == second),
            (None, None) => Ok(symbol_of(self.alloc, a)? == symbol_of(self.alloc, b)?),
            _ => Ok(false),
        }
    }

    /// The rows of the library's frames, by frame and then in the order of binding.
    pub fn rows(&self, library: &Rc<LibName>) -> Result<Vec<FrameRow>, Memory>
        ensures { IfOk result (λ rs. rs.items ≡ rows_in library.now.value self.now) }
    {
        self.frames.rows(library)
    }
}
