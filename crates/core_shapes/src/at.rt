//! Faults at forms.

ghost use Rattle.std.specs.Prelude.{◌≡◌, IfOk, option_map};
ghost use Rattle.base_data.specs.Gives.{StopsWith};
ghost use Rattle.core_shapes.specs.At.{place_of, fault_at, words_of};

use base_data::fault::{Fault, FaultKind, Stop};
use base_data::items::Items;
use base_data::memory::Memory;
use base_data::span::Span;
use base_data::symbol::Symbol;
use std::alloc::Global;
use stx_object::syn::Syn;

/// Where a form stands: its own span, or where it has none the place round it.
pub fn place_of(form: &Syn, place: &Span) -> Result<Span, Memory>
    ensures { IfOk result (λ s. s ≡ place_of form.now place.now) }
{
    match form.span() {
        Some(span) => span.share(),
        None => place.share(),
    }
}

fn fault_made(
    alloc: Global,
    kind: FaultKind,
    form: &Syn,
    place: &Span,
    word: Option<&Symbol>,
) -> Result<Fault, Memory>
    ensures { IfOk result (λ f. f ≡ fault_at kind form.now place.now (words_of (option_map (λ w. w.now) word.entry))) }
{
    let span = place_of(form, place)?;
    let mut words = Items::new(alloc);
    if let Some(word) = word {
        words.push(word.share()?)?;
    }
    Ok(Fault { kind, span, words })
}

/// A fault at a form, with a word where there is one.
pub fn fault_at(
    alloc: Global,
    kind: FaultKind,
    form: &Syn,
    place: &Span,
    word: Option<&Symbol>,
) -> Stop
    ensures { StopsWith result (fault_at kind form.now place.now (words_of (option_map (λ w. w.now) word.entry))) }
{
    match fault_made(alloc, kind, form, place, word) {
        Ok(fault) => Stop::Fault(fault),
        Err(memory) => Stop::from(memory),
    }
}
