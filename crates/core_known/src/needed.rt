//! Those bindings of a run that a library needs.

ghost use Rattle.std.specs.Map.{lookup};
ghost use Rattle.std.specs.Option.{option_copied};
ghost use Rattle.std.specs.Prelude.{◌≡◌, [], false, slice_get};
ghost use Rattle.base_data.specs.Same.{same_library};
ghost use Rattle.base_data.specs.declared.library.LibName.{LibName};
ghost use Rattle.core_known.specs.Known.{flat, has_part, AreElsewhere, ArePlaced};
ghost use Rattle.core_known.specs.Needed.{if_mark, needed_parts};

use crate::shared::SharedBindings;
use base_data::items::Items;
use base_data::library::LibName;
use core_language::bindings::Bindings;
use std::marker::Model;
use std::rc::Rc;

/// A table of a run and marks of what is needed of it. A look-up costs the same, however many libraries there
/// are and are needed.
#[derive(Drop)]
pub struct NeededBindings {
    shared: Rc<SharedBindings>,
    needs: Rc<Items<bool>>,
}

impl Model for NeededBindings {
    ghost use Rattle.core_known.specs.Known.{Parts, parts_code};
    ghost use Rattle.core_known.specs.Needed.{needed_parts, AreLibraries};

    ghost Value = { Parts };

    ghost coded = { parts_code };

    ghost view = { λ n. needed_parts n.needs.value n.shared.value };

    ghost invariant = { λ n. AreLibraries n.shared.value };
}

/// The bindings at a place, where it is marked. Beyond the marks none is.
fn if_marked<'a>(needs: &Items<bool>, place: usize, rows: &'a Bindings) -> Option<&'a Bindings>
    ensures { option_copied result ≡ if_mark (slice_get needs.now place) rows.now }
{
    let marks = needs.as_slice();
    if place < marks.len() && marks[place] {
        Some(rows)
    } else {
        None
    }
}

impl NeededBindings {
    /// The bindings of the libraries whose places are marked. It takes no memory.
    pub(crate) fn new(shared: Rc<SharedBindings>, needs: Rc<Items<bool>>) -> NeededBindings
        ensures parts { result ≡ needed_parts needs.value shared.value }
        ensures placed { ArePlaced result [] }
        ensures elsewhere { (l : LibName) → has_part l shared.value ≡ false → AreElsewhere l (flat result) }
    {
        shared.are_libraries();
        NeededBindings { shared, needs }
    }

    /// The bindings of a library that is needed.
    pub(crate) fn get(&self, library: &Rc<LibName>) -> Option<&Bindings>
        ensures { option_copied result ≡ lookup (same_library library.now.value) self.now }
    {
        match self.shared.find(library) {
            Some((place, rows)) => if_marked(&self.needs, place, rows),
            None => None,
        }
    }

    /// Whether a library is needed.
    pub(crate) fn has(&self, library: &Rc<LibName>) -> bool
        ensures { result ≡ has_part library.now.value self.now }
    {
        match self.get(library) {
            Some(_) => true,
            None => false,
        }
    }
}
