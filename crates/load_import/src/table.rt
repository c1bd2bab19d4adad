//! Values by name, in the order in which they were put in.

ghost use Rattle.std.specs.Map.{lookup};
ghost use Rattle.std.specs.Option.{option_copied, option_map};
ghost use Rattle.std.specs.Prelude.{◌≡◌, ◌≤◌, ℕ, List, [], ◌∷◌, ◌++◌, take, length, map, slice_get, None, Some, Ok, IfOk, OnOk, OnErr, if◌then◌else◌, is_some};
ghost use Rattle.load_import.specs.Table.{value_of, put_first, pair_now};
ghost use Rattle.load_import.specs.Shared.{place_of, IsOwn};

use base_data::map::{NameMap, new_map};
use base_data::memory::Memory;
use base_data::symbol::Symbol;
use indexmap::map::IntoValues;
use std::alloc::Global;
use std::marker::Model;

/// Values by name, seen as a list of pairs in order.
#[derive(Drop)]
pub struct NameTable<V> {
    rows: NameMap<Symbol, V>,
}

impl<V> Model for NameTable<V> {
    ghost use Rattle.std.specs.Prelude.{List, ℕ};

    ghost Value = { List (List ℕ × V) };

    ghost view = { λ t. t.rows.entries };
}

impl<V: Drop> NameTable<V> {
    /// No values. It takes no memory.
    pub fn new(alloc: Global) -> NameTable<V>
        ensures { result ≡ [] }
    {
        NameTable {
            rows: new_map(alloc),
        }
    }

    pub fn size(&self) -> usize
        ensures { result ≡ length self.now }
    {
        self.rows.len()
    }

    /// The value of a name. It takes no memory.
    pub fn get(&self, name: &Symbol) -> Option<&V>
        ensures { option_copied result ≡ value_of name.now self.now }
    {
        self.rows.get(name)
    }

    /// The place of a name. It takes no memory.
    pub fn place_of(&self, name: &Symbol) -> Option<usize>
        ensures { result ≡ place_of name.now self.now }
    {
        self.rows.get_index_of(name)
    }

    /// How many of so many names can be here, for each stands once.
    pub(crate) fn at_most(&self, count: usize) -> usize
        ensures fits { result ≤ count }
        ensures own { IsOwn self.now }
    {
        count.min(self.rows.len())
    }

    /// The name and value at a place.
    pub fn at(&self, place: usize) -> Option<(&Symbol, &V)>
        ensures { option_map pair_now result ≡ slice_get self.now place }
    {
        self.rows.get_index(place)
    }

    /// The values in order. The names go.
    pub fn into_values(self) -> IntoValues<Symbol, V>
        ensures { result ≡ map (λ e. e.1) self }
    {
        self.rows.into_values()
    }

    /// Puts a value at the end, unless its name has one. A refusal changes nothing.
    pub fn put_first(&mut self, name: Symbol, value: V) -> Result<(), Memory>
        ensures ok { OnOk result (self.new ≡ put_first self.old (name, value)) }
        ensures err { OnErr result (self.new ≡ self.old) }
    {
        if self.get(&name).is_some() {
            return Ok(());
        }
        match self.rows.insert(name, value) {
            Ok(_) => Ok(()),
            Err(_) => Err(Memory),
        }
    }

    /// Puts a value at the end under a name that has none. A refusal changes nothing.
    pub(crate) fn put_new(&mut self, name: Symbol, value: V) -> Result<(), Memory>
        requires { value_of name self.old ≡ None }
        ensures ok { OnOk result (self.new ≡ self.old ++ (name, value) ∷ []) }
        ensures err { OnErr result (self.new ≡ self.old) }
    {
        match self.rows.insert(name, value) {
            Ok(_) => Ok(()),
            Err(_) => Err(Memory),
        }
    }

    /// Leaves the first values alone.
    pub fn truncate(&mut self, size: usize)
        ensures { self.new ≡ take size self.old }
    {
        self.rows.truncate(size)
    }
}
