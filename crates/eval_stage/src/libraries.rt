//! Lists of libraries, each once, and those that an evaluation needs.

ghost use Rattle.std.specs.Prelude.{◌≡◌, [], IfOk, OnOk};
ghost use Rattle.eval_stage.specs.Libraries.{has_library, with_library, with_libraries, has_all, with_libraries_of, libraries_of, with_refs, with_refs_if, wanted, earlier_in};

use crate::earlier::{Earlier, is_marked};
use base_data::items::Items;
use base_data::library::LibName;
use base_data::memory::Memory;
use base_data::name::Label;
use core_language::code::Core;
use core_language::record::CompiledLibrary;
use core_language::references::references;
use core_language::share::share_library;
use indexmap::IndexSet;
use std::alloc::Global;
use std::marker::Model;

/// Libraries, each once, in the order in which they came.
#[derive(Drop)]
pub struct LibraryList {
    set: IndexSet<LibName>,
}

impl Model for LibraryList {
    ghost use Rattle.std.specs.Prelude.{List};
    ghost use Rattle.base_data.specs.declared.library.LibName.{LibName};

    ghost Value = { List LibName };

    ghost view = { λ l. l.set.keys };
}

impl LibraryList {
    /// No libraries. It takes no memory.
    pub fn new(alloc: Global) -> LibraryList
        ensures { result ≡ [] }
    {
        LibraryList {
            set: IndexSet::new(alloc),
        }
    }

    /// Whether the library is there. It takes no memory.
    pub fn has(&self, library: &LibName) -> bool
        ensures { result ≡ has_library self.now library.now }
    {
        self.set.contains(library)
    }

    /// Whether all of these are there. It takes no memory.
    pub(crate) fn has_all(&self, others: &LibraryList) -> bool
        ensures { result ≡ has_all self.now others.now }
    {
        for library in others.set.as_slice() {
            if !self.has(library) {
                return false;
            }
        }
        true
    }

    /// Puts the library at the end, where it isn't there.
    pub fn add(&mut self, alloc: Global, library: &LibName) -> Result<(), Memory>
        ensures { OnOk result (self.new ≡ with_library self.old library.now) }
    {
        if self.set.contains(library) {
            return Ok(());
        }
        let library = share_library(alloc, library)?;
        match self.set.insert(library) {
            Ok(_) => Ok(()),
            Err(_) => Err(Memory),
        }
    }

    /// Puts each of the libraries at the end, where it isn't there.
    fn add_each(&mut self, alloc: Global, libraries: &[LibName]) -> Result<(), Memory>
        ensures { OnOk result (self.new ≡ with_libraries self.old libraries.now) }
    {
        for library in libraries {
            self.add(alloc, library)?;
        }
        Ok(())
    }

    fn add_each_of(&mut self, alloc: Global, labels: &[Label]) -> Result<(), Memory>
        ensures { OnOk result (self.new ≡ with_libraries_of self.old labels.now) }
    {
        for label in labels {
            self.add(alloc, &label.0.library)?;
        }
        Ok(())
    }

    fn add_refs(&mut self, alloc: Global, one: &CompiledLibrary) -> Result<(), Memory>
        ensures { OnOk result (self.new ≡ with_refs one.now self.old) }
    {
        if !self.has(&one.name) {
            return Ok(());
        }
        self.add_each(alloc, one.refs.as_slice())
    }

    fn add_refs_if(
        &mut self,
        alloc: Global,
        needed: bool,
        one: &CompiledLibrary,
    ) -> Result<(), Memory>
        ensures { OnOk result (self.new ≡ with_refs_if needed one.now self.old) }
    {
        if !needed {
            return Ok(());
        }
        self.add_refs(alloc, one)
    }

    /// The libraries as a list.
    pub fn into_items(self, alloc: Global) -> Result<Items<LibName>, Memory>
        ensures { IfOk result (λ ls. ls ≡ self) }
    {
        let mut list = Vec::new(alloc);
        for library in self.set {
            list.push(library)?;
        }
        Ok(Items::from_vec(list))
    }

    /// Adds those libraries that references lead to.
    pub(crate) fn add_wanted(&mut self, alloc: Global, earlier: &Earlier) -> Result<(), Memory>
        ensures { OnOk result (self.new ≡ wanted (earlier_in earlier.now) self.old) }
    {
        let mut place = earlier.records.len();
        while place > 0 {
            place -= 1;
            let needed = is_marked(earlier.needs, place);
            self.add_refs_if(alloc, needed, &earlier.records[place])?;
        }
        Ok(())
    }
}

/// The libraries whose variables an expression mentions.
pub(crate) fn libraries_of(alloc: Global, code: &Core) -> Result<LibraryList, Memory>
    ensures { IfOk result (λ ks. ks ≡ libraries_of code.now) }
{
    let labels = references(alloc, code)?;
    let mut all = LibraryList::new(alloc);
    all.add_each_of(alloc, labels.as_slice())?;
    Ok(all)
}
