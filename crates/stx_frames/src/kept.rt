//! Frames with a memo of the labels that stamps find in them.

ghost use Rattle.std.specs.Option.{option_copied};
ghost use Rattle.std.specs.Prelude.{◌≡◌, ◌∷◌, ◌++◌, [], true, false, IfOk, IfSome, OnOk, OnErr};
ghost use Rattle.base_data.specs.Gives.{BareGives};
ghost use Rattle.stx_frames.specs.Binders.{OnlyOfLibrary};
ghost use Rattle.stx_frames.specs.Listed.{rows_in};
ghost use Rattle.stx_frames.specs.Right.{sizes_before, same_sizes};
ghost use Rattle.stx_frames.specs.Given.{flat};
ghost use Rattle.stx_frames.specs.Needed.{needed_parts, AreApart};
ghost use Rattle.stx_frames.specs.Scope.{has_frame, label_at, label_by, bound, adopted, are_new};

use crate::joined::JoinedFrames;
use crate::key::Key;
use crate::memo::{Answer, Memo, Question};
use crate::shared::SharedFrames;
use base_data::fault::BareStop;
use base_data::items::Items;
use base_data::library::LibName;
use base_data::memory::Memory;
use base_data::name::{FrameNo, Label};
use base_data::symbol::Symbol;
use std::alloc::Global;
use std::marker::Model;
use std::rc::Rc;
use stx_tree::frame_row::FrameRow;
use stx_tree::marks::Marks;
use stx_tree::stamp::Stamp;

/// Frames, and answers that were given before. The answers never show.
#[derive(Drop)]
pub struct KeptFrames {
    alloc: Global,
    frames: JoinedFrames,
    memo: Memo,
}

impl Model for KeptFrames {
    ghost use Rattle.stx_frames.specs.Scope.{Scope, scope_code};
    ghost use Rattle.stx_frames.specs.Right.{AllRight};

    ghost Value = { Scope };

    ghost coded = { scope_code };

    ghost view = { λ a. a.frames };

    ghost invariant = { λ a. AllRight a.frames a.memo };
}

/// Another owner of the same label, where there is one.
fn share_label(label: Option<&Label>) -> Result<Option<Label>, Memory>
    ensures { IfOk result (λ l. l ≡ option_copied label.entry) }
{
    match label {
        Some(label) => {
            let label = label.share()?;
            Ok(Some(label))
        }
        None => Ok(None),
    }
}

/// The label that the stamps find, and what it depends on.
fn look(
    alloc: Global,
    frames: &JoinedFrames,
    symbol: Symbol,
    stamps: &[Stamp],
) -> Result<Answer, Memory>
    ensures label { IfOk result (λ a. a.label ≡ label_by frames.now symbol stamps.now) }
    ensures sizes { IfOk result (λ a. a.sizes ≡ sizes_before frames.now symbol stamps.now) }
{
    let mut sizes = Items::new(alloc);
    let marks = Marks::new(alloc);
    let mut key = Key { symbol, marks };
    for stamp in stamps {
        key.marks = stamp.marks.share(alloc)?;
        if let Some(label) = frames.find(&stamp.frame, &key) {
            let label = label.share()?;
            return Ok(Answer {
                label: Some(label),
                sizes,
            });
        }
        sizes.push(frames.size_at(&stamp.frame))?;
    }
    Ok(Answer { label: None, sizes })
}

/// Whether the frames of the first stamps still have these sizes.
fn have_sizes(frames: &JoinedFrames, stamps: &[Stamp], sizes: &[usize]) -> bool
    ensures { result ≡ same_sizes frames.now stamps.now sizes.now }
{
    let mut stamps = stamps;
    let mut sizes = sizes;
    loop {
        let Some((size, fewer)) = sizes.split_first() else {
            return true;
        };
        let Some((stamp, others)) = stamps.split_first() else {
            return false;
        };
        if frames.size_at(&stamp.frame) != *size {
            return false;
        }
        sizes = fewer;
        stamps = others;
    }
}

impl KeptFrames {
    /// No frames. It takes no memory.
    pub fn new(alloc: Global) -> KeptFrames
        ensures { result ≡ [] }
    {
        KeptFrames {
            alloc,
            frames: JoinedFrames::new(alloc),
            memo: Memo::new(alloc),
        }
    }

    /// The frames of those libraries of a table that are marked. It takes no memory.
    pub fn over(alloc: Global, shared: Rc<SharedFrames>, needs: Rc<Items<bool>>) -> KeptFrames
        ensures frames { result ≡ flat (needed_parts needs.value shared.value) }
        ensures apart { AreApart [] (needed_parts needs.value shared.value) }
    {
        KeptFrames {
            alloc,
            frames: JoinedFrames::over(alloc, shared, needs),
            memo: Memo::new(alloc),
        }
    }

    /// Whether the frame is there. It takes no memory.
    pub fn has_frame(&self, frame: &FrameNo) -> bool
        ensures { result ≡ has_frame frame.now self.now }
    {
        self.frames.has_frame(frame)
    }

    /// Adds a frame without rows. A refusal changes nothing.
    pub fn new_frame(&mut self, frame: FrameNo) -> Result<(), Memory>
        requires { has_frame frame self.old ≡ false }
        ensures ok { OnOk result (self.new ≡ self.old ++ (frame, []) ∷ []) }
        ensures err { OnErr result (self.new ≡ self.old) }
    {
        self.frames.new_frame(frame)
    }

    /// Binds a symbol with marks to a label. It is `Duplicate` exactly where the frame has a row of
    /// the same symbol and marks. A frame that isn't there is added. A refusal changes nothing.
    pub fn bind(
        &mut self,
        frame: &FrameNo,
        symbol: Symbol,
        marks: Marks,
        label: Label,
    ) -> Result<(), BareStop>
        ensures row { BareGives (λ _. self.new) result (bound self.old frame.now (record { symbol = symbol; marks = marks; label = label })) }
        ensures err { OnErr result (self.new ≡ self.old) }
    {
        self.frames.bind(frame, symbol, marks, label)
    }

    /// Whether no row is of a frame that is there. It takes no memory.
    pub fn are_new(&self, rows: &[FrameRow]) -> bool
        ensures { result ≡ are_new rows.now self.now }
    {
        self.frames.are_new(rows)
    }

    /// Adds rows of frames that are new, in their order. A refusal changes nothing. Two rows with one
    /// frame, symbol and marks are refused as want of memory is: those of a library are none.
    pub fn adopt(&mut self, rows: &[FrameRow]) -> Result<(), Memory>
        requires { are_new rows.now self.old ≡ true }
        ensures ok { OnOk result (self.new ≡ adopted self.old rows.now) }
        ensures err { OnErr result (self.new ≡ self.old) }
    {
        self.frames.adopt(rows)
    }

    /// The rows of the library's frames, by frame and then in the order of binding.
    pub fn rows(&self, library: &Rc<LibName>) -> Result<Vec<FrameRow>, Memory>
        ensures { IfOk result (λ rs. rs.items ≡ rows_in library.now.value self.now) }
    {
        self.frames.rows(library)
    }

    /// Frames of which each of the library that has a row of the symbol is one, where they are few and the
    /// library wasn't given. It takes no memory.
    pub fn binders(&self, symbol: &Symbol, library: &Rc<LibName>) -> Option<&[FrameNo]>
        ensures { IfSome result (λ gs. OnlyOfLibrary self.now symbol.now library.now.value gs.now) }
    {
        self.frames.binders(symbol, library)
    }

    /// The label that the frame has for a symbol and marks. It takes no memory.
    pub fn find(&self, frame: &FrameNo, key: &Key) -> Option<&Label>
        ensures { option_copied result ≡ label_at self.now frame.now key.now.symbol key.now.marks }
    {
        self.frames.find(frame, key)
    }

    /// The label that the first stamp gives for which its frame has the symbol and the marks at
    /// stamping.
    pub fn label_by(&self, symbol: Symbol, stamps: Vec<Stamp>) -> Result<Option<Label>, Memory>
        ensures { IfOk result (λ l. l ≡ label_by self.now symbol stamps.items) }
    {
        self.frames.label_by(symbol, stamps)
    }

    fn recall(&self, question: &Question) -> Result<Option<Option<Label>>, Memory>
        ensures { IfOk result (λ o. IfSome o (λ l. l ≡ label_by self.now question.now.symbol question.now.stamps)) }
    {
        let Some(answer) = self.memo.find(question)? else {
            return Ok(None);
        };
        let stamps = question.stamps.as_slice();
        if !have_sizes(&self.frames, stamps, answer.sizes.as_slice()) {
            return Ok(None);
        }
        let label = share_label(answer.label.as_ref())?;
        Ok(Some(label))
    }

    fn find_and_keep(&mut self, question: Question) -> Result<Option<Label>, Memory>
        ensures label { IfOk result (λ l. l ≡ label_by self.old question.symbol question.stamps) }
        ensures unchanged { self.new ≡ self.old }
    {
        let asked = question.symbol.share()?;
        let stamps = question.stamps.as_slice();
        let answer = look(self.alloc, &self.frames, asked, stamps)?;
        let label = share_label(answer.label.as_ref())?;
        self.memo.keep(self.alloc, question, answer)?;
        Ok(label)
    }

    /// As `label_by`, for a leaf with these marks, from the memo where what it kept still holds. For
    /// fewer than two stamps `label_by` costs less.
    pub fn label_kept(
        &mut self,
        symbol: Symbol,
        marks: Marks,
        stamps: Vec<Stamp>,
    ) -> Result<Option<Label>, Memory>
        ensures label { IfOk result (λ l. l ≡ label_by self.old symbol stamps.items) }
        ensures unchanged { self.new ≡ self.old }
    {
        let stamps = Items::from_vec(stamps);
        let question = Question {
            symbol,
            marks,
            stamps,
        };
        if let Some(label) = self.recall(&question)? {
            return Ok(label);
        }
        self.find_and_keep(question)
    }
}
