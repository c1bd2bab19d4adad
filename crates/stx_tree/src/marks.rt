//! Lists of marks.

ghost use Rattle.std.specs.Prelude.{◌≡◌, [], ◌∷◌, None, IfOk, OnOk, OnErr, drop};
ghost use Rattle.stx_tree.specs.Marks.{is_first, same_mark, unless_first};
ghost use Rattle.stx_tree.specs.Marks.{mark_of};
ghost use Rattle.stx_tree.specs.SameMarks.{same_mark_per, same_mark_equiv, mark_alike, mark_fed, same_marks, same_marks_per, same_marks_equiv, marks_alike, marks_fed};
ghost use Rattle.stx_tree.specs.Remarks.{remark};

use crate::change::Change;
use base_data::library::LibName;
use base_data::memory::Memory;
use base_data::name::{Mark, Name};
use smallvec::SmallVec;
use std::alloc::Global;
use std::hash::{Hash, Hasher};
use std::marker::Model;
use std::rc::Rc;

/// A place for a mark. A short list has its places ready before it has marks.
#[derive(Drop, Default)]
struct Slot {
    mark: Option<Mark>,
}

impl Model for Slot {
    ghost use Rattle.base_data.specs.declared.name.Mark.{Mark};
    ghost use Rattle.stx_tree.specs.Marks.{mark_of};

    ghost Value = { Mark };

    ghost view = { λ s. mark_of s.mark };
}

impl Slot {
    fn new(mark: Mark) -> Slot
        ensures { result ≡ mark }
    {
        Slot { mark: Some(mark) }
    }

    /// Another owner of the mark. An empty place takes memory for its name.
    fn share(&self, alloc: Global) -> Result<Mark, Memory>
        ensures { IfOk result (λ m. m ≡ self.now) }
    {
        match &self.mark {
            Some(mark) => mark.share(),
            None => {
                let library = Rc::new(alloc, LibName::Core)?;
                Ok(Mark(Name { library, number: 0 }))
            }
        }
    }

    fn is(&self, mark: &Mark) -> bool
        ensures { result ≡ same_mark self.now mark.now }
    {
        match &self.mark {
            Some(own) => own.0 == mark.0,
            None => mark.0.number == 0 && *mark.0.library == LibName::Core,
        }
    }
}

impl Slot {
    fn is_unfilled(&self) -> bool
        ensures { result ≡ same_mark self.now (mark_of None) }
    {
        match &self.mark {
            Some(own) => own.0.number == 0 && *own.0.library == LibName::Core,
            None => true,
        }
    }
}

impl PartialEq for Slot {
    ghost eq = { same_mark };

    ghost laws = { same_mark_per };

    fn eq(&self, other: &Slot) -> bool {
        match &other.mark {
            Some(mark) => self.is(mark),
            None => self.is_unfilled(),
        }
    }
}

impl Eq for Slot {
    ghost laws = { same_mark_equiv };
}

impl Hash for Slot {
    ghost hash_input = { mark_fed };

    ghost respects_eq = { mark_alike };

    fn hash<H: Hasher>(&self, state: &mut H) {
        match &self.mark {
            Some(mark) => mark.0.number.hash(state),
            None => 0u64.hash(state),
        }
    }
}

/// A list of marks, the newest first. Up to two take no memory.
#[derive(Drop)]
pub struct Marks {
    /// The newest last.
    slots: SmallVec<Slot, 2>,
}

impl Model for Marks {
    ghost use Rattle.std.specs.Prelude.{List, reverse};
    ghost use Rattle.base_data.specs.declared.name.Mark.{Mark};

    ghost Value = { List Mark };

    ghost view = { λ m. reverse m.slots.items };
}

impl Marks {
    /// No marks.
    pub fn new(alloc: Global) -> Marks
        ensures { result ≡ [] }
    {
        let slots = SmallVec::new(alloc);
        Marks { slots }
    }

    /// Puts a mark before the others. A refusal changes nothing.
    pub fn push(&mut self, mark: Mark) -> Result<(), Memory>
        ensures ok { OnOk result (self.new ≡ mark ∷ self.old) }
        ensures err { OnErr result (self.new ≡ self.old) }
    {
        self.slots.push(Slot::new(mark))?;
        Ok(())
    }

    /// Takes the newest mark away, where there is one.
    pub fn pop(&mut self)
        ensures { self.new ≡ drop 1 self.old }
    {
        let _newest = self.slots.pop();
    }

    /// Changes the marks as those of a leaf.
    pub fn act(&mut self, change: &Change) -> Result<(), Memory>
        ensures { OnOk result (self.new ≡ remark change.now self.old) }
    {
        match change {
            Change::Enter(mark) => {
                let mark = mark.share()?;
                self.push(mark)
            }
            Change::Leave(mark, _) => self.leave(mark),
            Change::Stamp(_) => Ok(()),
        }
    }

    /// Takes the mark away where it is the newest; else puts it before the others.
    fn leave(&mut self, mark: &Mark) -> Result<(), Memory>
        ensures { OnOk result (self.new ≡ unless_first mark.now self.old) }
    {
        if self.is_first(mark) {
            self.pop();
            return Ok(());
        }
        let mark = mark.share()?;
        self.push(mark)
    }

    /// Whether this mark is the newest.
    pub fn is_first(&self, mark: &Mark) -> bool
        ensures { result ≡ is_first mark.now self.now }
    {
        match self.slots.as_slice().last() {
            Some(slot) => slot.is(mark),
            None => false,
        }
    }

    /// Another owner of the same marks.
    pub fn share(&self, alloc: Global) -> Result<Marks, Memory>
        ensures { IfOk result (λ m. m ≡ self.now) }
    {
        let mut slots = SmallVec::new(alloc);
        for slot in self.slots.as_slice() {
            let mark = slot.share(alloc)?;
            slots.push(Slot::new(mark))?;
        }
        Ok(Marks { slots })
    }

    /// These marks, the newest first.
    pub fn from_vec(alloc: Global, marks: Vec<Mark>) -> Result<Marks, Memory>
        ensures { IfOk result (λ m. m ≡ marks.items) }
    {
        let mut left = marks;
        let mut slots = SmallVec::new(alloc);
        while let Some(mark) = left.pop() {
            slots.push(Slot::new(mark))?;
        }
        Ok(Marks { slots })
    }

    /// The marks, the newest first.
    pub fn to_vec(&self, alloc: Global) -> Result<Vec<Mark>, Memory>
        ensures { IfOk result (λ v. v.items ≡ self.now) }
    {
        let mut marks = Vec::new(alloc);
        for slot in self.slots.as_slice() {
            let mark = slot.share(alloc)?;
            marks.push(mark)?;
        }
        marks.reverse();
        Ok(marks)
    }
}

impl PartialEq for Marks {
    ghost eq = { same_marks };

    ghost laws = { same_marks_per };

    fn eq(&self, other: &Marks) -> bool {
        self.slots.as_slice() == other.slots.as_slice()
    }
}

impl Eq for Marks {
    ghost laws = { same_marks_equiv };
}

impl Hash for Marks {
    ghost hash_input = { marks_fed };

    ghost respects_eq = { marks_alike };

    fn hash<H: Hasher>(&self, state: &mut H) {
        self.slots.as_slice().hash(state);
    }
}
