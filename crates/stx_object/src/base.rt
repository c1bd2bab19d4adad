//! Bases: the marks and stamps that leaves have, as lists that share their ends.

ghost use Rattle.std.specs.Prelude.{◌≡◌, [], ◌∷◌, filter, map, option_map, slice_get, IfOk, IfSome, IfNone, IsTrue};
ghost use Rattle.stx_object.specs.Among.{is_for};
ghost use Rattle.stx_tree.specs.Context.{blank, act, entered, stamped, unmarked, left};
ghost use Rattle.stx_tree.specs.Marks.{is_first};

use crate::stack::Stack;
use base_data::library::LibName;
use base_data::memory::Memory;
use base_data::name::{FrameNo, Mark};
use std::alloc::Global;
use std::marker::Model;
use stx_tree::change::Change;
use stx_tree::marks::Marks;
use stx_tree::stamp::Stamp;

/// A stamp whose marks are shared.
#[derive(Drop)]
struct HeldStamp {
    frame: FrameNo,
    marks: Stack<Mark>,
}

impl Model for HeldStamp {
    ghost use Rattle.stx_tree.specs.declared.stamp.Stamp.{Stamp};
    ghost use Rattle.stx_object.specs.Base.{stamp_code};

    ghost Value = { Stamp };

    ghost coded = { stamp_code };

    ghost view = { λ h. record { frame = h.frame; marks = h.marks } };
}

/// The marks and stamps of a leaf. Each change of them takes one level of each list at most, and none
/// take no memory.
#[derive(Drop)]
pub(crate) struct Base {
    marks: Stack<Mark>,
    stamps: Stack<HeldStamp>,
}

impl Model for Base {
    ghost use Rattle.stx_tree.specs.Context.{LeafContext};
    ghost use Rattle.stx_tree.specs.ContextCode.{context_code};

    ghost Value = { LeafContext };

    ghost coded = { context_code };

    ghost view = { λ b. record { marks = b.marks; stamps = b.stamps } };
}

/// The marks as a list that shares its ends.
fn stack_of(alloc: Global, marks: &Marks) -> Result<Stack<Mark>, Memory>
    ensures { IfOk result (λ s. s ≡ marks.now) }
{
    let mut left = marks.to_vec(alloc)?;
    let mut stack = Stack::none();
    while let Some(mark) = left.pop() {
        stack = stack.with(alloc, mark)?;
    }
    Ok(stack)
}

/// The marks as a list of its own.
fn marks_of(alloc: Global, stack: &Stack<Mark>) -> Result<Marks, Memory>
    ensures { IfOk result (λ m. m ≡ stack.now) }
{
    let mut left = stack.items(alloc)?;
    let mut marks = Marks::new(alloc);
    while let Some(mark) = left.pop() {
        let mark = mark.share()?;
        marks.push(mark)?;
    }
    Ok(marks)
}

impl HeldStamp {
    fn new(alloc: Global, stamp: Stamp) -> Result<HeldStamp, Memory>
        ensures { IfOk result (λ h. h ≡ stamp) }
    {
        let Stamp { frame, marks } = stamp;
        let marks = stack_of(alloc, &marks)?;
        Ok(HeldStamp { frame, marks })
    }

    fn stamp(&self, alloc: Global) -> Result<Stamp, Memory>
        ensures { IfOk result (λ s. s ≡ self.now) }
    {
        let frame = self.frame.share()?;
        let marks = marks_of(alloc, &self.marks)?;
        Ok(Stamp { frame, marks })
    }
}

/// The stamps as a list that shares its ends.
fn held_of(alloc: Global, stamps: Vec<Stamp>) -> Result<Stack<HeldStamp>, Memory>
    ensures { IfOk result (λ s. s ≡ stamps.items) }
{
    let mut left = stamps;
    let mut stack = Stack::none();
    while let Some(stamp) = left.pop() {
        let held = HeldStamp::new(alloc, stamp)?;
        stack = stack.with(alloc, held)?;
    }
    Ok(stack)
}

/// These stamps, each as one of its own.
fn stamps_of(alloc: Global, held: &[&HeldStamp]) -> Result<Vec<Stamp>, Memory>
    ensures { IfOk result (λ v. v.items ≡ map (λ h. h.now) held.now) }
{
    let mut stamps = Vec::new(alloc);
    for one in held {
        let stamp = one.stamp(alloc)?;
        stamps.push(stamp)?;
    }
    Ok(stamps)
}

/// The stamps of a leaf, the newest first, shared with the leaf.
#[derive(Drop)]
pub struct LeafStamps {
    stamps: Stack<HeldStamp>,
}

impl Model for LeafStamps {
    ghost use Rattle.std.specs.Coded.{coded_list};
    ghost use Rattle.std.specs.Prelude.{List};
    ghost use Rattle.stx_tree.specs.declared.stamp.Stamp.{Stamp};
    ghost use Rattle.stx_object.specs.Base.{stamp_code};

    ghost Value = { List Stamp };

    ghost coded = { coded_list stamp_code };

    ghost view = { λ a. a.stamps };
}

/// Whether a stamp is of another library than this one, or has one of these frames.
fn is_for(library: &LibName, frames: &[FrameNo], held: &HeldStamp) -> bool
    ensures { result ≡ is_for library.now frames.now held.now }
{
    if *held.frame.0.library != *library {
        return true;
    }
    frames.contains(&held.frame)
}

impl LeafStamps {
    /// The frame of the newest stamp. It takes no memory.
    pub fn newest_frame(&self) -> Option<&FrameNo>
        ensures { option_map (λ f. f.now) result ≡ option_map (λ t. t.frame) (slice_get self.now 0) }
    {
        match self.stamps.top() {
            Some(held) => Some(&held.frame),
            None => None,
        }
    }

    /// All stamps of the list, the newest first.
    pub fn all(&self, alloc: Global) -> Result<Vec<Stamp>, Memory>
        ensures { IfOk result (λ v. v.items ≡ self.now) }
    {
        let held = self.stamps.items(alloc)?;
        stamps_of(alloc, held.as_slice())
    }

    /// Another owner of the same stamps. It takes no memory.
    pub fn share(&self) -> Result<LeafStamps, Memory>
        ensures { IfOk result (λ s. s ≡ self.now) }
    {
        let stamps = self.stamps.share()?;
        Ok(LeafStamps { stamps })
    }

    /// The newest one, and those behind it.
    pub fn split_first(&self, alloc: Global) -> Result<Option<(Stamp, LeafStamps)>, Memory>
        ensures some { IfOk result (λ o. IfSome o (λ p. self.now ≡ p.0 ∷ p.1)) }
        ensures none { IfOk result (λ o. IfNone o (self.now ≡ [])) }
    {
        let Some((held, below)) = self.stamps.split_top() else {
            return Ok(None);
        };
        let stamp = held.stamp(alloc)?;
        let stamps = below.share()?;
        Ok(Some((stamp, LeafStamps { stamps })))
    }

    /// The newest of those of other libraries than this one and those that have one of these frames, and all that
    /// are behind it.
    pub fn split_among(
        &self,
        alloc: Global,
        library: &LibName,
        frames: &[FrameNo],
    ) -> Result<Option<(Stamp, LeafStamps)>, Memory>
        ensures some { IfOk result (λ o. IfSome o (λ p. filter (is_for library.now frames.now) self.now ≡ p.0 ∷ filter (is_for library.now frames.now) p.1)) }
        ensures none { IfOk result (λ o. IfNone o (filter (is_for library.now frames.now) self.now ≡ [])) }
    {
        let mut left = &self.stamps;
        while let Some((held, below)) = left.split_top() {
            if is_for(library, frames, held) {
                let stamp = held.stamp(alloc)?;
                let stamps = below.share()?;
                return Ok(Some((stamp, LeafStamps { stamps })));
            }
            left = below;
        }
        Ok(None)
    }
}

impl Base {
    /// No marks and no stamps. It takes no memory.
    pub(crate) fn blank() -> Base
        ensures { result ≡ blank }
    {
        Base {
            marks: Stack::none(),
            stamps: Stack::none(),
        }
    }

    /// These marks and stamps, both with the newest first.
    pub(crate) fn new(alloc: Global, marks: Marks, stamps: Vec<Stamp>) -> Result<Base, Memory>
        ensures { IfOk result (λ b. b ≡ record { marks = marks; stamps = stamps.items }) }
    {
        let marks = stack_of(alloc, &marks)?;
        let stamps = held_of(alloc, stamps)?;
        Ok(Base { marks, stamps })
    }

    /// Another owner of the same marks and stamps.
    pub(crate) fn share(&self) -> Result<Base, Memory>
        ensures { IfOk result (λ b. b ≡ self.now) }
    {
        let marks = self.marks.share()?;
        let stamps = self.stamps.share()?;
        Ok(Base { marks, stamps })
    }

    pub(crate) fn is_blank(&self) -> bool
        ensures { IsTrue result → self.now ≡ blank }
    {
        self.marks.is_none() && self.stamps.is_none()
    }

    /// Whether this mark is the newest.
    fn is_first(&self, mark: &Mark) -> bool
        ensures { result ≡ is_first mark.now self.now.marks }
    {
        match self.marks.top() {
            Some(newest) => *newest == *mark,
            None => false,
        }
    }

    /// After a change.
    pub(crate) fn act(&self, alloc: Global, change: &Change) -> Result<Base, Memory>
        ensures { IfOk result (λ b. b ≡ act change.now self.now) }
    {
        match change {
            Change::Enter(mark) => self.entered(alloc, mark),
            Change::Leave(mark, frame) => self.left(alloc, mark, frame),
            Change::Stamp(frame) => self.stamped(alloc, frame),
        }
    }

    fn entered(&self, alloc: Global, mark: &Mark) -> Result<Base, Memory>
        ensures { IfOk result (λ b. b ≡ entered mark.now self.now) }
    {
        let mark = mark.share()?;
        let marks = self.marks.with(alloc, mark)?;
        let stamps = self.stamps.share()?;
        Ok(Base { marks, stamps })
    }

    fn unmarked(&self) -> Result<Base, Memory>
        ensures { IfOk result (λ b. b ≡ unmarked self.now) }
    {
        let marks = self.marks.below()?;
        let stamps = self.stamps.share()?;
        Ok(Base { marks, stamps })
    }

    fn left(&self, alloc: Global, mark: &Mark, frame: &Option<FrameNo>) -> Result<Base, Memory>
        ensures { IfOk result (λ b. b ≡ left mark.now frame.now self.now) }
    {
        if self.is_first(mark) {
            return self.unmarked();
        }
        let entered = self.entered(alloc, mark)?;
        match frame {
            None => Ok(entered),
            Some(frame) => entered.stamped(alloc, frame),
        }
    }

    fn stamped(&self, alloc: Global, frame: &FrameNo) -> Result<Base, Memory>
        ensures { IfOk result (λ b. b ≡ stamped frame.now self.now) }
    {
        let frame = frame.share()?;
        let held = self.marks.share()?;
        let stamps = self.stamps.with(alloc, HeldStamp { frame, marks: held })?;
        let marks = self.marks.share()?;
        Ok(Base { marks, stamps })
    }

    /// The marks, as a list of its own.
    pub(crate) fn marks(&self, alloc: Global) -> Result<Marks, Memory>
        ensures { IfOk result (λ m. m ≡ self.now.marks) }
    {
        marks_of(alloc, &self.marks)
    }

    /// The stamps, the newest first. It takes no memory.
    pub(crate) fn stamps(&self) -> Result<LeafStamps, Memory>
        ensures { IfOk result (λ s. s ≡ self.now.stamps) }
    {
        let stamps = self.stamps.share()?;
        Ok(LeafStamps { stamps })
    }
}
