//! Which frames bind a symbol.

ghost use Rattle.std.specs.Prelude.{◌≡◌, [], ◌∷◌, true, false, None, IfOk, IfSome, OnOk};
ghost use Rattle.base_data.specs.declared.name.FrameNo.{FrameNo};
ghost use Rattle.stx_frames.specs.Binders.{may_be, AreAll, binders_at, Covers, AllNoted, NamesAll, may_bind};

use base_data::items::Items;
use base_data::map::{NameMap, new_map};
use base_data::memory::Memory;
use base_data::name::FrameNo;
use base_data::symbol::Symbol;
use std::alloc::Global;
use std::marker::Model;
use stx_tree::frame_row::FrameRow;

/// So many frames are told apart. A symbol that more frames bind is bound near where it stands, as a rule.
const FEW: usize = 8;

/// The frames that bind a symbol, as long as they are few.
#[derive(Drop)]
pub struct Binders {
    pub frames: Items<FrameNo>,
    /// There are others.
    pub many: bool,
}

impl Binders {
    /// One frame.
    fn one(alloc: Global, frame: &FrameNo) -> Result<Binders, Memory>
        ensures { IfOk result (λ b. b ≡ record { frames = frame.now ∷ []; many = false }) }
    {
        let mut frames = Items::new(alloc);
        let frame = frame.share()?;
        frames.push(frame)?;
        Ok(Binders {
            frames,
            many: false,
        })
    }

    /// Whether the frame may be one.
    fn has(&self, frame: &FrameNo) -> bool
        ensures { result ≡ may_be frame.now self.now }
    {
        if self.many {
            return true;
        }
        self.frames.as_slice().contains(frame)
    }

    /// Takes a frame more.
    fn add(&mut self, frame: &FrameNo) -> Result<(), Memory>
        ensures there { OnOk result (may_be frame.now self.new ≡ true) }
        ensures kept { (f : FrameNo) → may_be f self.new ≡ false → may_be f self.old ≡ false }
    {
        if self.has(frame) {
            return Ok(());
        }
        if self.frames.as_slice().len() >= FEW {
            self.many = true;
            return Ok(());
        }
        let frame = frame.share()?;
        self.frames.push(frame)
    }

    /// All of them, where they are few.
    fn few(&self) -> Option<&[FrameNo]>
        ensures { IfSome result (λ gs. AreAll self.now gs.now) }
    {
        if self.many {
            return None;
        }
        Some(self.frames.as_slice())
    }
}

/// For each symbol, which frames may have a row of it. It may name more than have one, and never fewer.
#[derive(Drop)]
pub struct BinderIndex {
    alloc: Global,
    rows: NameMap<Symbol, Binders>,
    /// The frames that bind a symbol that isn't there.
    none: Items<FrameNo>,
}

impl Model for BinderIndex {
    ghost use Rattle.stx_frames.specs.Binders.{Index, index_code};

    ghost Value = { Index };

    ghost coded = { index_code };

    ghost view = { λ a. a.rows.entries };
}

impl BinderIndex {
    /// No symbols. It takes no memory.
    pub fn new(alloc: Global) -> BinderIndex
        ensures { result ≡ [] }
    {
        BinderIndex {
            alloc,
            rows: new_map(alloc),
            none: Items::new(alloc),
        }
    }

    /// The frames that may have a row of a symbol, where they are few. It takes no memory.
    pub fn get(&self, symbol: &Symbol) -> Option<&[FrameNo]>
        ensures { IfSome result (λ fs. NamesAll self.now symbol.now fs.now) }
    {
        match self.rows.get(symbol) {
            Some(binders) => binders.few(),
            None => Some(self.none.as_slice()),
        }
    }

    fn add_there(&mut self, frame: &FrameNo, symbol: &Symbol) -> Result<(), Memory>
        ensures there { OnOk result (may_bind frame.now symbol.now self.new ≡ true) }
        ensures kept { Covers self.old self.new }
    {
        let Some(binders) = self.rows.get_mut(symbol) else {
            return Err(Memory);
        };
        binders.add(frame)
    }

    fn add_first(&mut self, frame: &FrameNo, symbol: &Symbol) -> Result<(), Memory>
        requires { binders_at symbol.now self.old ≡ None }
        ensures there { OnOk result (may_bind frame.now symbol.now self.new ≡ true) }
        ensures kept { Covers self.old self.new }
    {
        let binders = Binders::one(self.alloc, frame)?;
        let symbol = symbol.share()?;
        match self.rows.insert(symbol, binders) {
            Ok(_) => Ok(()),
            Err(_) => Err(Memory),
        }
    }

    /// Takes a frame more for a symbol.
    pub fn add(&mut self, frame: &FrameNo, symbol: &Symbol) -> Result<(), Memory>
        ensures there { OnOk result (may_bind frame.now symbol.now self.new ≡ true) }
        ensures kept { Covers self.old self.new }
    {
        if self.rows.contains_key(symbol) {
            self.add_there(frame, symbol)
        } else {
            self.add_first(frame, symbol)
        }
    }

    /// Takes the frame of each row for its symbol.
    pub(crate) fn add_rows(&mut self, rows: &[FrameRow]) -> Result<(), Memory>
        ensures there { OnOk result (AllNoted rows.now self.new) }
        ensures kept { Covers self.old self.new }
    {
        for row in rows {
            self.add(&row.frame, &row.symbol)?;
        }
        Ok(())
    }
}
