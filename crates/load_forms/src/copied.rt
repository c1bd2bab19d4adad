//! Copies of data.

ghost use Rattle.std.specs.Prelude.{◌≡◌, IfOk};

use base_data::datum::{Datum, Node};
use base_data::memory::Memory;
use base_data::span::share_span;
use std::alloc::Global;

/// A copy of a datum, which shares its texts.
#[cycle(copied)]
pub fn copied(alloc: Global, datum: &Datum) -> Result<Datum, Memory>
    ensures { IfOk result (λ d. d ≡ datum.now) }
{
    let span = share_span(&datum.span)?;
    match &datum.node {
        Node::Atom(atom) => {
            let node = Node::Atom(atom.share()?);
            Ok(Datum { span, node })
        }
        Node::Symbol(symbol) => {
            let node = Node::Symbol(symbol.share()?);
            Ok(Datum { span, node })
        }
        Node::List(items, tail) => {
            let items = copied_each(alloc, items)?;
            let tail = Box::new(alloc, copied(alloc, tail)?)?;
            let node = Node::List(items, tail);
            Ok(Datum { span, node })
        }
        Node::Vector(items) => {
            let node = Node::Vector(copied_each(alloc, items)?);
            Ok(Datum { span, node })
        }
    }
}

#[cycle(copied)]
fn copied_each(alloc: Global, items: &[Datum]) -> Result<Vec<Datum>, Memory>
    ensures { IfOk result (λ v. v.items ≡ items.now) }
{
    let mut copies = Vec::new(alloc);
    for item in items {
        copies.push(copied(alloc, item)?)?;
    }
    Ok(copies)
}
