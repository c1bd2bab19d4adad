//! What is known round a use of a record form.

ghost use Rattle.std.specs.Prelude.{[]};
ghost use Rattle.base_data.specs.Gives.{StopsWith};
ghost use Rattle.base_data.specs.declared.fault.FaultKind.TheVariants as kind;
ghost use Rattle.core_shapes.specs.At.{fault_at};

use base_data::fault::{FaultKind, Stop};
use base_data::span::Span;
use base_data::symbol::Symbol;
use core_shapes::at::fault_at;
use std::alloc::Global;
use stx_object::syn::Syn;
use stx_scope::scope::Frames;

/// What uses of the record forms are read with.
#[derive(Drop)]
pub struct RecordContext<'a> {
    pub alloc: Global,
    /// They say what identifiers stand for.
    pub frames: &'a Frames,
    /// Where a form without a span stands.
    pub place: &'a Span,
    /// What the record type gets where a clause asks for a uid.
    pub uid: &'a Symbol,
}

/// `BadForm` at a form.
pub(crate) fn bad_form(context: &RecordContext, form: &Syn) -> Stop
    ensures { StopsWith result (fault_at kind.BadForm form.now context.now.place.now []) }
{
    fault_at(context.alloc, FaultKind::BadForm, form, context.place, None)
}
