//! The heads of a body that were kept.

ghost use Rattle.std.specs.Prelude.{◌≡◌, [], OnOk, is_some, true, false};
ghost use Rattle.std.specs.Option.{option_copied};
ghost use Rattle.expand_heads.specs.Kept.{found, with_head};

use crate::taken::KeptHead;
use base_data::items::Items;
use base_data::map::{NameMap, new_map};
use base_data::memory::Memory;
use base_data::symbol::Symbol;
use std::alloc::Global;
use std::marker::Model;

/// Heads by symbol: only a binder of its symbol can change what a head stands for.
#[derive(Drop)]
pub struct KeptHeads {
    alloc: Global,
    heads: NameMap<Symbol, Items<KeptHead>>,
}

impl Model for KeptHeads {
    ghost use Rattle.expand_heads.specs.Kept.{Heads, heads_code};

    ghost Value = { Heads };

    ghost coded = { heads_code };

    ghost view = { λ k. k.heads.entries };
}

impl KeptHeads {
    /// No heads. It takes no memory.
    pub fn new(alloc: Global) -> KeptHeads
        ensures { result ≡ [] }
    {
        KeptHeads {
            alloc,
            heads: new_map(alloc),
        }
    }

    /// The heads of a symbol, where there are any.
    pub fn of(&self, symbol: &Symbol) -> Option<&Items<KeptHead>>
        ensures { option_copied result ≡ found symbol.now self.now }
    {
        self.heads.get(symbol)
    }

    /// Adds a head behind those of its symbol.
    pub fn add(&mut self, head: KeptHead) -> Result<(), Memory>
        ensures { OnOk result (self.new ≡ with_head self.old head) }
    {
        if self.heads.contains_key(&head.symbol) {
            self.add_further(head)
        } else {
            self.add_first(head)
        }
    }

    fn add_further(&mut self, head: KeptHead) -> Result<(), Memory>
        requires { is_some (found head.symbol self.old) ≡ true }
        ensures { OnOk result (self.new ≡ with_head self.old head) }
    {
        let Some(same) = self.heads.get_mut(&head.symbol) else {
            return Err(Memory);
        };
        same.push(head)
    }

    fn add_first(&mut self, head: KeptHead) -> Result<(), Memory>
        requires { is_some (found head.symbol self.old) ≡ false }
        ensures { OnOk result (self.new ≡ with_head self.old head) }
    {
        let symbol = head.symbol.share()?;
        let mut heads = Items::new(self.alloc);
        heads.push(head)?;
        match self.heads.insert(symbol, heads) {
            Ok(_) => Ok(()),
            Err(_) => Err(Memory),
        }
    }
}
