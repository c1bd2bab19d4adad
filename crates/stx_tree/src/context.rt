//! Contexts: what tells a leaf from others with its symbol.

ghost use Rattle.std.specs.Prelude.{◌≡◌, [], IfOk, OnOk, OnErr};
ghost use Rattle.stx_tree.specs.Context.{blank, act, entered, stamped, left};

use crate::change::Change;
use crate::marks::Marks;
use crate::stamp::Stamp;
use base_data::memory::Memory;
use base_data::name::{FrameNo, Mark};
use std::alloc::Global;
use std::marker::Model;

/// The marks and stamps of a leaf. A refusal may leave one in part changed; it is then of no use.
#[derive(Drop)]
pub struct Context {
    marks: Marks,
    /// The newest last.
    stamps: Vec<Stamp>,
}

impl Model for Context {
    ghost use Rattle.std.specs.Prelude.{reverse};
    ghost use Rattle.stx_tree.specs.Context.{LeafContext};
    ghost use Rattle.stx_tree.specs.ContextCode.{context_code};

    ghost Value = { LeafContext };

    ghost coded = { context_code };

    ghost view = { λ c. record { marks = c.marks; stamps = reverse c.stamps.items } };
}

impl Context {
    /// No marks and no stamps. It takes no memory.
    pub fn blank(alloc: Global) -> Context
        ensures { result ≡ blank }
    {
        let marks = Marks::new(alloc);
        let stamps = Vec::new(alloc);
        Context { marks, stamps }
    }

    /// These marks and stamps, both with the newest first. It takes no memory.
    pub fn new(marks: Marks, stamps: Vec<Stamp>) -> Context
        ensures { result ≡ record { marks = marks; stamps = stamps.items } }
    {
        let mut stamps = stamps;
        stamps.reverse();
        Context { marks, stamps }
    }

    /// Another owner of the same marks and stamps.
    pub fn share(&self, alloc: Global) -> Result<Context, Memory>
        ensures { IfOk result (λ c. c ≡ self.now) }
    {
        let marks = self.marks.share(alloc)?;
        let mut stamps = Vec::new(alloc);
        for stamp in &self.stamps {
            let stamp = stamp.share(alloc)?;
            stamps.push(stamp)?;
        }
        Ok(Context { marks, stamps })
    }

    pub fn marks(&self) -> &Marks
        ensures { result.now ≡ self.now.marks }
    {
        &self.marks
    }

    /// The stamps, the newest first. It takes no memory.
    pub fn into_stamps(self) -> Vec<Stamp>
        ensures { result.items ≡ self.stamps }
    {
        let Context { mut stamps, .. } = self;
        stamps.reverse();
        stamps
    }

    /// Changes the marks and stamps as those of a leaf.
    pub fn act(&mut self, alloc: Global, change: &Change) -> Result<(), Memory>
        ensures { OnOk result (self.new ≡ act change.now self.old) }
    {
        match change {
            Change::Enter(mark) => self.enter(mark),
            Change::Leave(mark, frame) => self.leave(alloc, mark, frame),
            Change::Stamp(frame) => self.stamp(alloc, frame),
        }
    }

    fn enter(&mut self, mark: &Mark) -> Result<(), Memory>
        ensures { OnOk result (self.new ≡ entered mark.now self.old) }
    {
        let mark = mark.share()?;
        self.marks.push(mark)?;
        Ok(())
    }

    fn leave(&mut self, alloc: Global, mark: &Mark, frame: &Option<FrameNo>) -> Result<(), Memory>
        ensures { OnOk result (self.new ≡ left mark.now frame.now self.old) }
    {
        if self.marks.is_first(mark) {
            self.marks.pop();
            return Ok(());
        }
        self.enter(mark)?;
        match frame {
            None => Ok(()),
            Some(frame) => self.stamp(alloc, frame),
        }
    }

    fn stamp(&mut self, alloc: Global, frame: &FrameNo) -> Result<(), Memory>
        ensures { OnOk result (self.new ≡ stamped frame.now self.old) }
    {
        let frame = frame.share()?;
        let marks = self.marks.share(alloc)?;
        self.stamps.push(Stamp { frame, marks })?;
        Ok(())
    }
}
