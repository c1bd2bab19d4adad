//! The names of a source, each as one text.

ghost use Rattle.std.specs.Cmp.Lexicographic.{bytes_decides, nat_list_eq_equiv};
ghost use Rattle.std.specs.Prelude.{◌≡◌, IfOk, bytes_eq};
ghost use Rattle.std.proofs.Common.{ap};
ghost use Rattle.base_data.specs.Head.{symbol_fed};

use base_data::head::head_of;
use base_data::memory::Memory;
use base_data::symbol::Symbol;
use indexmap::{Equivalent, IndexSet};
use std::alloc::Global;
use std::hash::{Hash, Hasher};
use std::marker::Model;

/// The symbols that a source has had so far. A symbol that comes again is another owner of the first one's text, so a
/// source holds each of its names once. What is read doesn't depend on them, and contracts see nothing of them.
#[derive(Drop)]
pub struct SymbolTable {
    symbols: IndexSet<Symbol>,
}

impl Model for SymbolTable {
    ghost Value = { Unit {0} };

    ghost view = { λ n. tt };
}

impl SymbolTable {
    /// No symbols. It takes no memory.
    pub fn new(alloc: Global) -> SymbolTable {
        let symbols = IndexSet::new(alloc);
        SymbolTable { symbols }
    }

    /// Where the names take memory.
    pub fn alloc(&self) -> Global {
        *self.symbols.allocator()
    }

    /// The symbol of a text. It takes no memory where the text came before.
    pub fn named(&mut self, text: &str) -> Result<Symbol, Memory>
        ensures { IfOk result (λ s. s ≡ text.now) }
    {
        if let Some(known) = self.symbols.get(Spelt { text }) {
            if known.as_str() == text {
                return known.share();
            }
        }
        let name = Symbol::new(self.alloc(), text)?;
        self.kept(name)
    }

    /// The same symbol, with the text that the first one of its name had.
    pub fn shared(&mut self, name: Symbol) -> Result<Symbol, Memory>
        ensures { IfOk result (λ s. s ≡ name) }
    {
        if let Some(known) = self.symbols.get(&name) {
            if known.same(&name) {
                return known.share();
            }
        }
        self.kept(name)
    }

    /// The same symbol, which is kept as the first one of its name.
    fn kept(&mut self, name: Symbol) -> Result<Symbol, Memory>
        ensures { IfOk result (λ s. s ≡ name) }
    {
        let kept = name.share()?;
        match self.symbols.insert(kept) {
            Ok(_) => Ok(name),
            Err(_) => Err(Memory),
        }
    }
}

/// A text by which a symbol is looked up.
#[derive(Clone, Copy, PartialEq, Eq)]
struct Spelt<'a> {
    text: &'a str,
}

/// A text is hashed as its symbol is.
impl<'a> Hash for Spelt<'a> {
    ghost hash_input = { λ s. symbol_fed s.text.now };

    ghost respects_eq = { λ x y h. ap symbol_fed ((bytes_decides x.text.now y.text.now).0 h) };

    fn hash<H: Hasher>(&self, state: &mut H) {
        head_of(self.text).hash(state);
    }
}

impl<'a> Equivalent<Symbol> for Spelt<'a> {
    ghost equivalent = { λ q k. bytes_eq q.text.now k };

    ghost respects_hash = { λ q k h. ap symbol_fed ((bytes_decides q.text.now k).0 h) };

    ghost respects_eq = { λ q x y. nat_list_eq_equiv.congr q.text.now x y };

    fn equivalent(&self, key: &Symbol) -> bool {
        self.text == key.as_str()
    }
}
