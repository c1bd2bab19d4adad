//! Faults at a place of a file.

ghost use Rattle.std.specs.Prelude.{◌≡◌};
ghost use Rattle.base_data.specs.Gives.{Gives};
ghost use Rattle.read_lexer.specs.Faults.{refused};

use base_data::fault::{Fault, FaultKind, Stop};
use base_data::items::Items;
use base_data::span::Span;
use base_data::symbol::Symbol;
use std::alloc::Global;

/// Refuses the bytes from `from` up to `to`.
pub(crate) fn refuse<T>(
    alloc: Global,
    file: &Symbol,
    kind: FaultKind,
    from: u32,
    to: u32,
) -> Result<T, Stop>
    ensures { Gives (λ (x : T). x) result (refused file.now kind from to) }
{
    let file = file.share()?;
    let span = Span { file, from, to };
    let words = Items::new(alloc);
    Err(Stop::Fault(Fault { kind, span, words }))
}
