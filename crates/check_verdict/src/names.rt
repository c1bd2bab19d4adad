//! Sets of names.

ghost use Rattle.std.specs.Prelude.{◌≡◌, [], not, length, take, IfOk, OnOk};
ghost use Rattle.check_verdict.specs.Names.{with_name};
ghost use Rattle.check_grammar.specs.Forms.{has};

use base_data::memory::Memory;
use base_data::symbol::Symbol;
use indexmap::IndexSet;
use std::alloc::Global;
use std::marker::Model;

/// Names, each once, in the order of coming.
#[derive(Drop)]
pub struct NameSet {
    set: IndexSet<Symbol>,
}

impl Model for NameSet {
    ghost use Rattle.std.specs.Prelude.{List, ℕ};

    ghost Value = { List (List ℕ) };

    ghost view = { λ n. n.set.keys };
}

impl NameSet {
    /// No names. It takes no memory.
    pub fn new(alloc: Global) -> NameSet
        ensures { result ≡ [] }
    {
        NameSet {
            set: IndexSet::new(alloc),
        }
    }

    /// Whether the name is there.
    pub fn has(&self, name: &Symbol) -> bool
        ensures { result ≡ has self.now name.now }
    {
        self.set.contains(name)
    }

    /// Puts the name at the end, where it isn't there.
    pub(crate) fn add(&mut self, name: &Symbol) -> Result<(), Memory>
        ensures { OnOk result (self.new ≡ with_name self.old name.now) }
    {
        self.put(name)?;
        Ok(())
    }

    /// Puts the name at the end, and tells whether it wasn't there.
    pub fn put(&mut self, name: &Symbol) -> Result<bool, Memory>
        ensures new { IfOk result (λ is_new. is_new ≡ not (has self.old name.now)) }
        ensures put { OnOk result (self.new ≡ with_name self.old name.now) }
    {
        let name = name.share()?;
        let Ok(is_new) = self.set.insert(name) else {
            return Err(Memory);
        };
        Ok(is_new)
    }

    /// How many names there are.
    pub(crate) fn size(&self) -> usize
        ensures { result ≡ length self.now }
    {
        self.set.len()
    }

    /// Takes all names away but the first, of which so many stay.
    pub(crate) fn keep(&mut self, size: usize)
        ensures { self.new ≡ take size self.old }
    {
        self.set.truncate(size)
    }

    /// The names in their order.
    pub(crate) fn as_slice(&self) -> &[Symbol]
        ensures { result.now ≡ self.now }
    {
        self.set.as_slice()
    }
}
