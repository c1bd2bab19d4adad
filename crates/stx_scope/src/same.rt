//! Leaves as binders.

ghost use Rattle.std.specs.Prelude.{◌≡◌, IfOk};
ghost use Rattle.stx_scope.specs.Stands.{symbol_of};
ghost use Rattle.stx_scope.specs.Same.{same_binder};

use base_data::memory::Memory;
use base_data::symbol::Symbol;
use std::alloc::Global;
use stx_object::syn::{OpenedTree, Syn};

/// The symbol of a leaf, and the empty one of what is no leaf.
pub(crate) fn symbol_of(alloc: Global, id: &Syn) -> Result<Symbol, Memory>
    ensures { IfOk result (λ s. s ≡ symbol_of id.now) }
{
    match id.open(alloc)? {
        OpenedTree::Symbol(symbol) => Ok(symbol),
        _ => Symbol::new(alloc, ""),
    }
}

/// Whether two leaves have one symbol and the same marks: whether one may stand for the other in a
/// list of binders, as `bound-identifier=?` says it (R6RS libraries 12.5).
pub fn same_binder(alloc: Global, a: &Syn, b: &Syn) -> Result<bool, Memory>
    ensures { IfOk result (λ r. r ≡ same_binder a.now b.now) }
{
    if symbol_of(alloc, a)? != symbol_of(alloc, b)? {
        return Ok(false);
    }
    Ok(a.marks(alloc)? == b.marks(alloc)?)
}
