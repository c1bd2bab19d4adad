//! The symbols that came lately.

ghost use Rattle.std.specs.Prelude.{◌≡◌, IfOk};

use base_data::memory::Memory;
use base_data::symbol::Symbol;
use read_lexer::names::SymbolTable;
use std::alloc::Global;
use std::marker::Model;

/// How many symbols are kept.
const PLACES: usize = 512;

/// Symbols that came lately, each at a place that the last bytes of its text tell. A symbol that comes again while it's
/// there is another owner of the same text; what is answered doesn't depend on them.
#[derive(Drop)]
pub struct Recent {
    alloc: Global,
    symbols: Vec<Symbol>,
}

impl Model for Recent {
    ghost Value = { Unit {0} };

    ghost view = { λ r. tt };
}

/// The symbols so far, which may come again.
#[derive(Drop)]
pub struct Symbols {
    pub recent: Recent,
    /// Those that the lexer made.
    pub names: SymbolTable,
}

impl Recent {
    pub fn new(alloc: Global) -> Result<Recent, Memory> {
        let mut symbols = Vec::with_capacity(alloc, PLACES)?;
        let none = Symbol::new(alloc, "")?;
        for _ in 0..PLACES {
            symbols.push(none.share()?)?;
        }
        Ok(Recent { alloc, symbols })
    }

    /// The symbol of a text. It takes no memory where it is still there.
    pub fn named(&mut self, text: &str) -> Result<Symbol, Memory>
        ensures { IfOk result (λ s. s ≡ text.now) }
    {
        let place = slot_of(text.as_bytes());
        if place < self.symbols.len() {
            let known = &self.symbols[place];
            if known.as_str() == text {
                return known.share();
            }
        }
        self.made(place, text)
    }

    // The symbol of a text, which is put at the place.
    fn made(&mut self, place: usize, text: &str) -> Result<Symbol, Memory>
        ensures { IfOk result (λ s. s ≡ text.now) }
    {
        let name = Symbol::new(self.alloc, text)?;
        if place < self.symbols.len() {
            self.symbols[place] = name.share()?;
        }
        Ok(name)
    }
}

// The place of a text, by its last two bytes.
fn slot_of(text: &[u8]) -> usize {
    match text {
        [] => 0,
        [one] => *one as usize,
        [.., before, last] => (*before as usize + *last as usize * 16) % PLACES,
    }
}
