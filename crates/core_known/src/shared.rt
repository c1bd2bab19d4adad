//! What the labels of the libraries are bound to that a run has completed.

ghost use Rattle.std.specs.Prelude.{◌≡◌, ◌∷◌, ◌++◌, [], is_some, slice_get, Some, IfSome, OnOk, OnErr};
ghost use Rattle.core_known.specs.Known.{has_part};
ghost use Rattle.core_known.specs.Needed.{AreLibraries};

use crate::given::GivenBindings;
use base_data::library::LibName;
use base_data::map::{NameMap, new_map};
use base_data::memory::Memory;
use core_language::bindings::Bindings;
use std::alloc::Global;
use std::marker::Model;
use std::rc::Rc;

/// What each library binds that a run has completed, in the order of coming. All that need some of them
/// share the table, so that to need a library costs a mark.
#[derive(Drop)]
pub struct SharedBindings {
    parts: NameMap<Rc<LibName>, Rc<Bindings>>,
}

impl Model for SharedBindings {
    ghost use Rattle.core_known.specs.Known.{Parts, parts_code};
    ghost use Rattle.core_known.specs.Needed.{parts_in, AreLibraries};

    ghost Value = { Parts };

    ghost coded = { parts_code };

    ghost view = { λ s. parts_in s.parts.entries };

    ghost invariant = { λ s. AreLibraries (parts_in s.parts.entries) };
}

impl SharedBindings {
    /// No bindings. It takes no memory.
    pub fn new(alloc: Global) -> SharedBindings
        ensures { result ≡ [] }
    {
        SharedBindings {
            parts: new_map(alloc),
        }
    }

    /// Whether bindings of the library are there. It takes no memory.
    pub fn has(&self, library: &Rc<LibName>) -> bool
        ensures { result ≡ has_part library.now.value self.now }
    {
        self.parts.contains_key(library)
    }

    /// Adds the bindings of a library at the end. Where that library's are there, they are refused as want of
    /// memory is. A refusal changes nothing.
    pub fn push(&mut self, given: &GivenBindings) -> Result<(), Memory>
        ensures ok { OnOk result (self.new ≡ self.old ++ given.now ∷ []) }
        ensures err { OnErr result (self.new ≡ self.old) }
    {
        if self.parts.contains_key(&given.library) {
            return Err(Memory);
        }
        let library = given.library.clone()?;
        let rows = given.rows.clone()?;
        match self.parts.insert(library, rows) {
            Ok(_) => Ok(()),
            Err(_) => Err(Memory),
        }
    }

    /// Where the library's bindings are, and these. It takes no memory.
    pub(crate) fn find(&self, library: &Rc<LibName>) -> Option<(usize, &Bindings)>
        ensures there { is_some result ≡ has_part library.now.value self.now }
        ensures place { IfSome result (λ p. slice_get self.now p.0 ≡ Some (library.now.value, p.1.now)) }
    {
        match self.parts.get_full(library) {
            Some((place, _, rows)) => {
                let rows: &Bindings = rows;
                Some((place, rows))
            }
            None => None,
        }
    }

    /// The law that no library has two parts, and each binds labels of its own alone.
    pub(crate) fn are_libraries(&self)
        ensures { AreLibraries self.now }
    {
        let _parts = &self.parts;
    }
}
