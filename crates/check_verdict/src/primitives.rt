//! The names of primitives, in a table.

ghost use Rattle.std.specs.Prelude.{◌≡◌, OnOk};
ghost use Rattle.check_verdict.specs.Names.{ArePrimitives};
ghost use Rattle.check_grammar.specs.Primitives.{is_primitive};

use crate::names::NameSet;
use base_data::memory::Memory;
use base_data::op::OP_NAMES;
use base_data::symbol::Symbol;
use check_grammar::primitives::is_primitive;
use std::alloc::Global;
use std::marker::Model;

/// The names of primitives, so that one is found without a look at all others. What is answered doesn't depend on which
/// are there.
#[derive(Drop)]
pub struct Primitives {
    names: NameSet,
}

impl Model for Primitives {
    ghost use Rattle.check_verdict.specs.Names.{ArePrimitives};

    ghost Value = { Unit {0} };

    ghost view = { λ p. tt };

    ghost invariant = { λ p. ArePrimitives p.names };
}

impl Primitives {
    pub fn new(alloc: Global) -> Result<Primitives, Memory> {
        let mut names = NameSet::new(alloc);
        add_primitives(alloc, &mut names, &OP_NAMES)?;
        Ok(Primitives { names })
    }

    /// Whether the symbol is the name of a primitive.
    pub fn has(&self, symbol: &Symbol) -> bool
        ensures { result ≡ is_primitive symbol.now }
    {
        if self.names.has(symbol) {
            true
        } else {
            is_primitive(symbol.as_str())
        }
    }
}

// Adds those of the texts that are names of primitives.
fn add_primitives(alloc: Global, names: &mut NameSet, texts: &[&'static str]) -> Result<(), Memory>
    requires { ArePrimitives names.old }
    ensures { OnOk result (ArePrimitives names.new) }
{
    for text in texts {
        add_primitive(alloc, names, text)?;
    }
    Ok(())
}

// Adds the text, where it is the name of a primitive.
fn add_primitive(alloc: Global, names: &mut NameSet, text: &str) -> Result<(), Memory>
    requires { ArePrimitives names.old }
    ensures { OnOk result (ArePrimitives names.new) }
{
    if !is_primitive(text) {
        return Ok(());
    }
    let name = Symbol::new(alloc, text)?;
    names.add(&name)
}
