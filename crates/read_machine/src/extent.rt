//! The bytes of a token or a datum, and what is said of them.

ghost use Rattle.std.specs.Prelude.{◌≡◌, IfOk};
ghost use Rattle.read_machine.specs.Extent.{span_at, fault_at};

use base_data::fault::{Fault, FaultKind};
use base_data::items::Items;
use base_data::memory::Memory;
use base_data::span::Span;
use base_data::symbol::Symbol;
use std::alloc::Global;

/// The bytes of a source from `from` up to `to`.
#[derive(Clone, Copy)]
pub struct Extent {
    pub from: u32,
    pub to: u32,
}

/// What is wrong, and at which bytes.
#[derive(Clone, Copy)]
pub struct Misplaced {
    pub kind: FaultKind,
    pub at: Extent,
}

/// The span of these bytes of a file.
pub fn span_at(file: &Symbol, at: Extent) -> Result<Option<Span>, Memory>
    ensures { IfOk result (λ s. s ≡ span_at file.now at) }
{
    let file = file.share()?;
    let Extent { from, to } = at;
    Ok(Some(Span { file, from, to }))
}

/// A fault at these bytes of a file.
pub(crate) fn fault_at(
    alloc: Global,
    file: &Symbol,
    kind: FaultKind,
    at: Extent,
) -> Result<Fault, Memory>
    ensures { IfOk result (λ f. f ≡ fault_at file.now kind at) }
{
    let file = file.share()?;
    let Extent { from, to } = at;
    let span = Span { file, from, to };
    let words = Items::new(alloc);
    Ok(Fault { kind, span, words })
}
