//! The frames of a library behind those of the libraries that it needs.

ghost use Rattle.std.specs.Option.{option_copied};
ghost use Rattle.std.specs.Prelude.{◌≡◌, ◌∷◌, ◌++◌, [], length, true, false, IfOk, IfSome, OnOk, OnErr};
ghost use Rattle.base_data.specs.Gives.{BareGives};
ghost use Rattle.stx_frames.specs.Binders.{OnlyOfLibrary};
ghost use Rattle.stx_frames.specs.Given.{are_own, flat, has_part, part_of};
ghost use Rattle.stx_frames.specs.Needed.{needed_parts, parts_given, AreApart};
ghost use Rattle.stx_frames.specs.Listed.{rows_in};
ghost use Rattle.stx_frames.specs.Scope.{has_frame, rows_at, label_at, label_by, bound, adopted, are_new};

use crate::frames::FrameMap;
use crate::indexed::IndexedFrames;
use crate::key::Key;
use crate::needed::NeededFrames;
use crate::shared::SharedFrames;
use base_data::fault::BareStop;
use base_data::items::Items;
use base_data::library::LibName;
use base_data::memory::Memory;
use base_data::name::{FrameNo, Label};
use base_data::symbol::Symbol;
use std::alloc::Global;
use std::marker::Model;
use std::rc::Rc;
use stx_tree::frame_row::FrameRow;
use stx_tree::marks::Marks;
use stx_tree::stamp::Stamp;

type Given = Option<NeededFrames>;

/// The frames of libraries that are complete, of a table that is shared, and then frames that may grow. A frame
/// is looked for where its library is, so a look-up costs the same, however many libraries there are.
#[derive(Drop)]
pub struct JoinedFrames {
    alloc: Global,
    given: Given,
    own: IndexedFrames,
}

impl Model for JoinedFrames {
    ghost use Rattle.std.specs.Prelude.{◌++◌};
    ghost use Rattle.stx_frames.specs.Scope.{Scope, scope_code};
    ghost use Rattle.stx_frames.specs.Given.{flat, ArePlaced};
    ghost use Rattle.stx_frames.specs.Needed.{parts_given};

    ghost Value = { Scope };

    ghost coded = { scope_code };

    ghost view = { λ a. flat (parts_given a.given) ++ a.own };

    ghost invariant = { λ a. ArePlaced (parts_given a.given) a.own };
}

/// The frames among which those of a library are.
fn part<'a>(given: &'a Given, own: &'a IndexedFrames, library: &Rc<LibName>) -> &'a FrameMap
    ensures { result.now ≡ part_of (parts_given given.now) own.now library.now.value }
{
    let frames = own.frames();
    let Some(given) = given else {
        return frames;
    };
    match given.get(library) {
        Some(part) => part,
        None => frames,
    }
}

/// The frames among which a frame is.
fn part_of_frame<'a>(given: &'a Given, own: &'a IndexedFrames, frame: &FrameNo) -> &'a FrameMap
    ensures { result.now ≡ part_of (parts_given given.now) own.now frame.now.0.library }
{
    part(given, own, &frame.0.library)
}

/// Whether frames of the library were given.
fn is_given(given: &Given, library: &Rc<LibName>) -> bool
    ensures { result ≡ has_part library.now.value (parts_given given.now) }
{
    match given {
        Some(given) => given.has(library),
        None => false,
    }
}

/// Whether the frame is of a library that was given.
fn is_of_given(given: &Given, frame: &FrameNo) -> bool
    ensures { result ≡ has_part frame.now.0.library (parts_given given.now) }
{
    is_given(given, &frame.0.library)
}

/// Whether no row is of a library that was given.
fn are_own(given: &Given, rows: &[FrameRow]) -> bool
    ensures { result ≡ are_own rows.now (parts_given given.now) }
{
    for row in rows {
        if is_of_given(given, &row.frame) {
            return false;
        }
    }
    true
}

impl JoinedFrames {
    /// No frames. It takes no memory.
    pub fn new(alloc: Global) -> JoinedFrames
        ensures { result ≡ [] }
    {
        JoinedFrames {
            alloc,
            given: None,
            own: IndexedFrames::new(alloc),
        }
    }

    /// The frames of those libraries of a table that are marked. It takes no memory.
    pub fn over(alloc: Global, shared: Rc<SharedFrames>, needs: Rc<Items<bool>>) -> JoinedFrames
        ensures frames { result ≡ flat (needed_parts needs.value shared.value) }
        ensures apart { AreApart [] (needed_parts needs.value shared.value) }
    {
        JoinedFrames {
            alloc,
            given: Some(NeededFrames::new(shared, needs)),
            own: IndexedFrames::new(alloc),
        }
    }

    /// Whether the frame is there. It takes no memory.
    pub fn has_frame(&self, frame: &FrameNo) -> bool
        ensures { result ≡ has_frame frame.now self.now }
    {
        part_of_frame(&self.given, &self.own, frame).has_frame(frame)
    }

    /// How many rows the frame has. It takes no memory.
    pub(crate) fn size_at(&self, frame: &FrameNo) -> usize
        ensures { result ≡ length (rows_at frame.now self.now) }
    {
        part_of_frame(&self.given, &self.own, frame).size_at(frame)
    }

    /// The label that the frame has for a symbol and marks. It takes no memory.
    pub fn find(&self, frame: &FrameNo, key: &Key) -> Option<&Label>
        ensures { option_copied result ≡ label_at self.now frame.now key.now.symbol key.now.marks }
    {
        part_of_frame(&self.given, &self.own, frame).find(frame, key)
    }

    /// Adds a frame without rows. A frame of a library that was given is refused as want of memory is. A
    /// refusal changes nothing.
    pub fn new_frame(&mut self, frame: FrameNo) -> Result<(), Memory>
        requires { has_frame frame self.old ≡ false }
        ensures ok { OnOk result (self.new ≡ self.old ++ (frame, []) ∷ []) }
        ensures err { OnErr result (self.new ≡ self.old) }
    {
        if is_of_given(&self.given, &frame) {
            return Err(Memory);
        }
        self.own.new_frame(frame)
    }

    /// Binds a symbol with marks to a label. It is `Duplicate` exactly where the frame has a row of
    /// the same symbol and marks. A frame that isn't there is added. A frame of a library that was given is
    /// complete: it is refused as want of memory is. A refusal changes nothing.
    pub fn bind(
        &mut self,
        frame: &FrameNo,
        symbol: Symbol,
        marks: Marks,
        label: Label,
    ) -> Result<(), BareStop>
        ensures row { BareGives (λ _. self.new) result (bound self.old frame.now (record { symbol = symbol; marks = marks; label = label })) }
        ensures err { OnErr result (self.new ≡ self.old) }
    {
        if is_of_given(&self.given, frame) {
            return Err(BareStop::Memory);
        }
        self.own.bind(frame, symbol, marks, label)
    }

    /// The label that the first stamp gives for which its frame has the symbol and the marks at
    /// stamping.
    pub fn label_by(&self, symbol: Symbol, stamps: Vec<Stamp>) -> Result<Option<Label>, Memory>
        ensures { IfOk result (λ l. l ≡ label_by self.now symbol stamps.items) }
    {
        let marks = Marks::new(self.alloc);
        let mut key = Key { symbol, marks };
        for stamp in stamps {
            let Stamp { frame, marks } = stamp;
            key.marks = marks;
            if let Some(label) = self.find(&frame, &key) {
                let label = label.share()?;
                return Ok(Some(label));
            }
        }
        Ok(None)
    }

    /// Frames of which each of the library that has a row of the symbol is one, where they are few and the
    /// library wasn't given. It takes no memory.
    pub fn binders(&self, symbol: &Symbol, library: &Rc<LibName>) -> Option<&[FrameNo]>
        ensures { IfSome result (λ gs. OnlyOfLibrary self.now symbol.now library.now.value gs.now) }
    {
        if is_given(&self.given, library) {
            return None;
        }
        self.own.binders(symbol)
    }

    /// Whether no row is of a frame that is there. It takes no memory.
    pub fn are_new(&self, rows: &[FrameRow]) -> bool
        ensures { result ≡ are_new rows.now self.now }
    {
        for row in rows {
            if self.has_frame(&row.frame) {
                return false;
            }
        }
        true
    }

    /// Adds rows of frames that are new, in their order. A refusal changes nothing. Rows of a library that
    /// was given are refused as want of memory is, and so are two rows with one frame, symbol and marks.
    pub fn adopt(&mut self, rows: &[FrameRow]) -> Result<(), Memory>
        requires { are_new rows.now self.old ≡ true }
        ensures ok { OnOk result (self.new ≡ adopted self.old rows.now) }
        ensures err { OnErr result (self.new ≡ self.old) }
    {
        if !are_own(&self.given, rows) {
            return Err(Memory);
        }
        self.own.adopt(rows)
    }

    /// The rows of the library's frames, by frame and then in the order of binding.
    pub fn rows(&self, library: &Rc<LibName>) -> Result<Vec<FrameRow>, Memory>
        ensures { IfOk result (λ rs. rs.items ≡ rows_in library.now.value self.now) }
    {
        part(&self.given, &self.own, library).rows(library)
    }
}
