//! Names with the labels that they stand for, each once and in order.

ghost use Rattle.std.specs.Option.{option_copied, option_map};
ghost use Rattle.std.specs.Prelude.{◌≡◌, ◌≤◌, List, [], ◌∷◌, ◌++◌, take, length, slice_get, None, OnOk, OnErr};
ghost use Rattle.load_import.specs.Imported.{imported_now};
ghost use Rattle.load_import.specs.Names.{label_named, put_named};
ghost use Rattle.load_import.specs.Shared.{place_named, AreOwn};

use crate::table::NameTable;
use base_data::imported_name::ImportedName;
use base_data::memory::Memory;
use base_data::name::Label;
use base_data::symbol::Symbol;
use std::alloc::Global;
use std::marker::Model;

/// Names, each once, and the labels that they stand for.
#[derive(Drop)]
pub struct Names {
    table: NameTable<Label>,
}

impl Model for Names {
    ghost use Rattle.std.specs.Prelude.{List};
    ghost use Rattle.base_data.specs.declared.imported_name.ImportedName.{ImportedName};
    ghost use Rattle.load_import.specs.Imported.{imported};

    ghost Value = { List ImportedName };

    ghost view = { λ n. imported n.table };
}

impl Names {
    /// No names. It takes no memory.
    pub fn new(alloc: Global) -> Names
        ensures { result ≡ [] }
    {
        Names {
            table: NameTable::new(alloc),
        }
    }

    #[tactic(auto, using(crate::proofs::ImportedLemmas::size_by))]
    pub fn size(&self) -> usize
        ensures { result ≡ length self.now }
    {
        self.table.size()
    }

    /// The label of a name. It takes no memory.
    #[tactic(auto, using(crate::proofs::ImportedLemmas::label_by))]
    pub fn get(&self, name: &Symbol) -> Option<&Label>
        ensures { option_copied result ≡ label_named name.now self.now }
    {
        self.table.get(name)
    }

    /// The place of a name. It takes no memory.
    #[tactic(auto, using(crate::proofs::ImportedLemmas::place_by))]
    pub fn place_of(&self, name: &Symbol) -> Option<usize>
        ensures { result ≡ place_named name.now self.now }
    {
        self.table.place_of(name)
    }

    /// How many of so many names can be here, for each stands once.
    #[tactic(auto, using(crate::proofs::ImportedLemmas::own_by))]
    pub(crate) fn at_most(&self, count: usize) -> usize
        ensures fits { result ≤ count }
        ensures own { AreOwn self.now }
    {
        self.table.at_most(count)
    }

    /// The name and label at a place.
    #[tactic(auto, using(crate::proofs::ImportedLemmas::at_by))]
    pub fn at(&self, place: usize) -> Option<(&Symbol, &Label)>
        ensures { option_map imported_now result ≡ slice_get self.now place }
    {
        self.table.at(place)
    }

    /// Puts a name at the end, unless it is there. A refusal changes nothing.
    #[tactic(auto, using(crate::proofs::ImportedLemmas::put_by, crate::proofs::ImportedLemmas::kept_by))]
    pub fn put_first(&mut self, name: ImportedName) -> Result<(), Memory>
        ensures ok { OnOk result (self.new ≡ put_named self.old name) }
        ensures err { OnErr result (self.new ≡ self.old) }
    {
        let ImportedName { name, label } = name;
        self.table.put_first(name, label)?;
        Ok(())
    }

    /// Puts a name at the end that isn't there. A refusal changes nothing.
    #[tactic(auto, using(crate::proofs::ImportedLemmas::new_by, crate::proofs::ImportedLemmas::none_by, crate::proofs::ImportedLemmas::kept_by))]
    pub(crate) fn put_new(&mut self, name: ImportedName) -> Result<(), Memory>
        requires { label_named name.name self.old ≡ None }
        ensures ok { OnOk result (self.new ≡ self.old ++ name ∷ []) }
        ensures err { OnErr result (self.new ≡ self.old) }
    {
        let ImportedName { name, label } = name;
        self.table.put_new(name, label)?;
        Ok(())
    }

    /// Leaves the first names alone.
    #[tactic(auto, using(crate::proofs::ImportedLemmas::take_by))]
    pub fn truncate(&mut self, size: usize)
        ensures { self.new ≡ take size self.old }
    {
        self.table.truncate(size)
    }
}
