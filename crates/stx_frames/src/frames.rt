//! Frames, each with a table of its rows.

ghost use Rattle.std.specs.Map.Iter.{deref_pair};
ghost use Rattle.std.specs.Option.{option_copied, option_map};
ghost use Rattle.std.specs.Prelude.{◌≡◌, ◌≤◌, ◌<◌, ◌∷◌, ◌++◌, [], ℕ, List, length, take, slice_get, get_or, true, false, IfOk, OnOk, OnErr};
ghost use Rattle.base_data.specs.Gives.{BareGives};
ghost use Rattle.stx_frames.specs.Listed.{rows_in, placed, put_place, joined};
ghost use Rattle.stx_frames.specs.Rows.{Row, row_of};
ghost use Rattle.stx_frames.specs.Scope.{has_frame, rows_at, label_at, bound, with_row, row_in, adopted, are_new};

use crate::key::Key;
use crate::table::FrameTable;
use base_data::fault::BareStop;
use base_data::items::Items;
use base_data::library::LibName;
use base_data::map::{NameMap, new_map};
use base_data::memory::Memory;
use base_data::name::{FrameNo, Label};
use base_data::symbol::Symbol;
use std::alloc::Global;
use std::collections::BTreeMap;
use std::marker::Model;
use stx_tree::frame_row::FrameRow;
use stx_tree::marks::Marks;

/// Frames with their rows, seen as a list of both in the order of making.
#[derive(Drop)]
pub struct FrameMap {
    alloc: Global,
    frames: NameMap<FrameNo, FrameTable>,
}

impl Model for FrameMap {
    ghost use Rattle.stx_frames.specs.Scope.{Scope, scope_code};

    ghost Value = { Scope };

    ghost coded = { scope_code };

    ghost view = { λ a. a.frames.entries };
}

impl FrameMap {
    /// No frames. It takes no memory.
    pub fn new(alloc: Global) -> FrameMap
        ensures { result ≡ [] }
    {
        FrameMap {
            alloc,
            frames: new_map(alloc),
        }
    }

    /// Whether the frame is there. It takes no memory.
    pub fn has_frame(&self, frame: &FrameNo) -> bool
        ensures { result ≡ has_frame frame.now self.now }
    {
        self.frames.contains_key(frame)
    }

    /// Adds a frame without rows. A refusal changes nothing.
    pub fn new_frame(&mut self, frame: FrameNo) -> Result<(), Memory>
        requires { has_frame frame self.old ≡ false }
        ensures ok { OnOk result (self.new ≡ self.old ++ (frame, []) ∷ []) }
        ensures err { OnErr result (self.new ≡ self.old) }
    {
        let table = FrameTable::new(self.alloc);
        match self.frames.insert(frame, table) {
            Ok(_) => Ok(()),
            Err(_) => Err(Memory),
        }
    }

    /// Binds a symbol with marks to a label. It is `Duplicate` exactly where the frame has a row of
    /// the same symbol and marks. A frame that isn't there is added. A refusal changes nothing.
    pub fn bind(
        &mut self,
        frame: &FrameNo,
        symbol: Symbol,
        marks: Marks,
        label: Label,
    ) -> Result<(), BareStop>
        ensures row { BareGives (λ _. self.new) result (bound self.old frame.now (record { symbol = symbol; marks = marks; label = label })) }
        ensures err { OnErr result (self.new ≡ self.old) }
    {
        let key = Key { symbol, marks };
        if self.has_frame(frame) {
            self.bind_there(frame, key, label)
        } else {
            self.bind_first(frame, key, label)
        }
    }

    /// Binds in a frame that is there.
    fn bind_there(&mut self, frame: &FrameNo, key: Key, label: Label) -> Result<(), BareStop>
        requires { has_frame frame.now self.old ≡ true }
        ensures row { BareGives (λ _. self.new) result (bound self.old frame.now (row_of (key, label))) }
        ensures err { OnErr result (self.new ≡ self.old) }
    {
        let alloc = self.alloc;
        let Some(table) = self.frames.get_mut(frame) else {
            return Err(BareStop::Memory);
        };
        table.put(alloc, key, label)
    }

    /// Adds a frame with one row.
    fn bind_first(&mut self, frame: &FrameNo, key: Key, label: Label) -> Result<(), BareStop>
        requires { has_frame frame.now self.old ≡ false }
        ensures row { BareGives (λ _. self.new) result (bound self.old frame.now (row_of (key, label))) }
        ensures err { OnErr result (self.new ≡ self.old) }
    {
        let frame = frame.share()?;
        let mut table = FrameTable::new(self.alloc);
        match table.put(self.alloc, key, label) {
            Ok(()) => {}
            Err(_) => return Err(BareStop::Memory),
        }
        match self.frames.insert(frame, table) {
            Ok(_) => Ok(()),
            Err(_) => Err(BareStop::Memory),
        }
    }

    /// How many rows the frame has. It takes no memory.
    pub(crate) fn size_at(&self, frame: &FrameNo) -> usize
        ensures { result ≡ length (rows_at frame.now self.now) }
    {
        match self.frames.get(frame) {
            Some(table) => table.size(),
            None => 0,
        }
    }

    /// The label that the frame has for a symbol and marks. It takes no memory.
    pub fn find(&self, frame: &FrameNo, key: &Key) -> Option<&Label>
        ensures { option_copied result ≡ label_at self.now frame.now key.now.symbol key.now.marks }
    {
        match self.frames.get(frame) {
            Some(table) => table.find(key),
            None => None,
        }
    }

    /// Adds a row at the end of its frame's. Nothing else changes, also where it is refused.
    fn add(&mut self, row: &FrameRow) -> Result<(), BareStop>
        ensures ok { OnOk result (self.new ≡ with_row self.old row.now.frame (row_in row.now)) }
        ensures front { (n : ℕ) → n ≤ length self.old → has_frame row.now.frame (take n self.old) ≡ false → take n self.new ≡ take n self.old }
        ensures grown { length self.old ≤ length self.new }
    {
        let symbol = row.symbol.share()?;
        let marks = row.marks.share(self.alloc)?;
        let label = row.label.share()?;
        self.bind(&row.frame, symbol, marks, label)
    }

    /// Adds rows of frames that are new, in their order. A refusal changes nothing. Two rows with one
    /// frame, symbol and marks are refused as want of memory is: those of a library are none.
    pub fn adopt(&mut self, rows: &[FrameRow]) -> Result<(), Memory>
        requires { are_new rows.now self.old ≡ true }
        ensures ok { OnOk result (self.new ≡ adopted self.old rows.now) }
        ensures err { OnErr result (self.new ≡ self.old) }
    {
        let count = self.frames.len();
        for row in rows {
            match self.add(row) {
                Ok(()) => {}
                Err(_) => {
                    self.frames.truncate(count);
                    return Err(Memory);
                }
            }
        }
        Ok(())
    }

    /// How many frames there are.
    pub(crate) fn count(&self) -> usize
        ensures { result ≡ length self.now }
    {
        self.frames.len()
    }

    fn frame_at(&self, i: usize) -> Option<(&FrameNo, &FrameTable)>
        ensures { option_map deref_pair result ≡ slice_get self.now i }
    {
        self.frames.get_index(i)
    }

    /// Puts the rows of a frame at its number, where it is of the library.
    fn place(
        &self,
        library: &LibName,
        i: usize,
        places: &mut BTreeMap<u64, Items<FrameRow>>,
    ) -> Result<(), Memory>
        requires { i < length self.now }
        ensures { OnOk result ((d : FrameNo × List Row) → places.new.entries ≡ put_place library.now (get_or self.now i d) places.old.entries) }
    {
        let Some((frame, table)) = self.frame_at(i) else {
            return Err(Memory);
        };
        if *frame.0.library != *library {
            return Ok(());
        }
        let rows = table.copies(self.alloc, frame)?;
        places.insert(frame.0.number, rows)?;
        Ok(())
    }

    /// The rows of each frame of the library, by number.
    fn places(&self, library: &LibName) -> Result<BTreeMap<u64, Items<FrameRow>>, Memory>
        ensures { IfOk result (λ m. m.entries ≡ placed library.now self.now) }
    {
        let mut places = BTreeMap::new(self.alloc);
        let mut left = self.count();
        while left > 0 {
            left -= 1;
            self.place(library, left, &mut places)?;
        }
        Ok(places)
    }

    /// The rows of the library's frames, by frame and then in the order of binding.
    pub fn rows(&self, library: &LibName) -> Result<Vec<FrameRow>, Memory>
        ensures { IfOk result (λ rs. rs.items ≡ rows_in library.now self.now) }
    {
        let mut places = self.places(library)?;
        let mut rows = Vec::new(self.alloc);
        while let Some((_number, items)) = places.pop_first() {
            let mut items = items.into_vec();
            rows.append(&mut items)?;
        }
        rows.shrink_to_fit();
        Ok(rows)
    }
}
