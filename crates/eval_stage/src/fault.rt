//! Faults of evaluations and of keywords.

ghost use Rattle.std.specs.Prelude.{◌≡◌, IfOk};
ghost use Rattle.base_data.specs.Gives.{StopsWith};
ghost use Rattle.eval_stage.specs.Stage.{not_transformer, StopsAt};

use base_data::fault::{Bare, BareStop, Fault, FaultKind, Stop};
use base_data::items::Items;
use base_data::span::Span;
use std::alloc::Global;

/// A fault of an evaluation, at the place of what asked for it.
pub(crate) fn stopped_at(stop: BareStop, place: &Span) -> Stop
    ensures { StopsAt result stop place.now }
{
    match stop {
        BareStop::Memory => Stop::Memory,
        BareStop::Fault(Bare { kind, words }) => match place.share() {
            Ok(span) => Stop::Fault(Fault { kind, span, words }),
            Err(memory) => Stop::from(memory),
        },
    }
}

/// A value that is no transformer, or that isn't there yet.
pub(crate) fn not_transformer(alloc: Global, place: &Span) -> Stop
    ensures { StopsWith result (not_transformer place.now) }
{
    match place.share() {
        Ok(span) => Stop::Fault(Fault {
            kind: FaultKind::NotTransformer,
            span,
            words: Items::new(alloc),
        }),
        Err(memory) => Stop::from(memory),
    }
}
