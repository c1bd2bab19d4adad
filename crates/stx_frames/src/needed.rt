//! Those frames of a run that a library needs.

ghost use Rattle.std.specs.Map.{lookup};
ghost use Rattle.std.specs.Option.{option_copied};
ghost use Rattle.std.specs.Prelude.{◌≡◌, [], slice_get};
ghost use Rattle.base_data.specs.Same.{same_library};
ghost use Rattle.stx_frames.specs.Given.{has_part, ArePlaced};
ghost use Rattle.stx_frames.specs.Needed.{if_mark, needed_parts, AreApart};

use crate::frames::FrameMap;
use crate::shared::SharedFrames;
use base_data::items::Items;
use base_data::library::LibName;
use std::marker::Model;
use std::rc::Rc;

/// A table of a run and marks of what is needed of it. A look-up costs the same, however many libraries there
/// are and are needed.
#[derive(Drop)]
pub struct NeededFrames {
    shared: Rc<SharedFrames>,
    needs: Rc<Items<bool>>,
}

impl Model for NeededFrames {
    ghost use Rattle.stx_frames.specs.Given.{Parts, parts_code};
    ghost use Rattle.stx_frames.specs.Needed.{needed_parts, AreLibraries};

    ghost Value = { Parts };

    ghost coded = { parts_code };

    ghost view = { λ n. needed_parts n.needs.value n.shared.value };

    ghost invariant = { λ n. AreLibraries n.shared.value };
}

/// The frames at a place, where it is marked. Beyond the marks none is.
fn if_marked<'a>(needs: &Items<bool>, place: usize, frames: &'a FrameMap) -> Option<&'a FrameMap>
    ensures { option_copied result ≡ if_mark (slice_get needs.now place) frames.now }
{
    let marks = needs.as_slice();
    if place < marks.len() && marks[place] {
        Some(frames)
    } else {
        None
    }
}

impl NeededFrames {
    /// The frames of the libraries whose places are marked. It takes no memory.
    pub(crate) fn new(shared: Rc<SharedFrames>, needs: Rc<Items<bool>>) -> NeededFrames
        ensures parts { result ≡ needed_parts needs.value shared.value }
        ensures placed { ArePlaced result [] }
        ensures apart { AreApart [] result }
    {
        shared.are_libraries();
        NeededFrames { shared, needs }
    }

    /// The frames of a library that is needed.
    pub(crate) fn get(&self, library: &Rc<LibName>) -> Option<&FrameMap>
        ensures { option_copied result ≡ lookup (same_library library.now.value) self.now }
    {
        match self.shared.find(library) {
            Some((place, frames)) => if_marked(&self.needs, place, frames),
            None => None,
        }
    }

    /// Whether a library is needed.
    pub(crate) fn has(&self, library: &Rc<LibName>) -> bool
        ensures { result ≡ has_part library.now.value self.now }
    {
        match self.get(library) {
            Some(_) => true,
            None => false,
        }
    }
}
