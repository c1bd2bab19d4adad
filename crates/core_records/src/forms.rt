//! Uses of the record forms (R6RS libraries 6.2).

ghost use Rattle.std.specs.Prelude.{◌≡◌, IfOk};
ghost use Rattle.base_data.specs.Gives.{Gives};
ghost use Rattle.core_shapes.specs.Lists.{if_some, proper_elements};
ghost use Rattle.core_records.specs.Forms.{StopsAt, only_id, descriptor_form, definitions_for, named_form, defining_form, record_forms};

use crate::clauses::all_clauses;
use crate::context::{RecordContext, bad_form};
use crate::definitions::{constructor_word, definitions, type_word};
use crate::introduced::list_of_two;
use crate::names::{RecordNames, names_of};
use base_data::fault::{Bare, BareStop, Fault, Stop};
use base_data::memory::Memory;
use base_data::span::Span;
use core_language::core_form::CoreForm;
use core_shapes::at::place_of;
use core_shapes::lists::{is_id, proper};
use std::alloc::Global;
use stx_object::syn::Syn;

/// A fault of what a form comes to, at the form.
fn at_form(stop: BareStop, form: &Syn, place: &Span) -> Stop
    ensures { StopsAt form.now place.now result stop }
{
    match stop {
        BareStop::Memory => Stop::Memory,
        BareStop::Fault(Bare { kind, words }) => match place_of(form, place) {
            Ok(span) => Stop::Fault(Fault { kind, span, words }),
            Err(memory) => Stop::from(memory),
        },
    }
}

/// The identifier of a form that names a record type alone.
fn only_id(alloc: Global, form: &Syn) -> Result<Option<Syn>, Memory>
    ensures { IfOk result (λ t. t ≡ if_some (proper_elements form.now) only_id) }
{
    let Some(parts) = proper(alloc, form)? else {
        return Ok(None);
    };
    let [_head, id] = parts.as_slice() else {
        return Ok(None);
    };
    if !is_id(alloc, id)? {
        return Ok(None);
    }
    Ok(Some(id.share()?))
}

/// `(record-type-descriptor id)` or `(record-constructor-descriptor id)`: the keyword of the record type gives it,
/// asked by a word.
#[tactic(auto, unfolding(crate::specs::Forms::descriptor_form), using(crate::proofs::Places::form_stops))]
fn descriptor_form(context: &RecordContext, form: &Syn, word: Syn) -> Result<Syn, Stop>
    ensures { Gives (λ t. t) result (descriptor_form form.now context.now.place.now word) }
{
    let Some(id) = only_id(context.alloc, form)? else {
        return Err(bad_form(context, form));
    };
    match list_of_two(context.alloc, id, word) {
        Ok(made) => Ok(made),
        Err(stop) => Err(at_form(stop, form, context.place)),
    }
}

#[tactic(auto, unfolding(crate::specs::Forms::definitions_for), using(crate::proofs::Places::form_stops))]
fn definitions_for(
    context: &RecordContext,
    form: &Syn,
    names: &RecordNames,
    clauses: &[Syn],
) -> Result<Syn, Stop>
    ensures { Gives (λ t. t) result (definitions_for context.now.frames.now form.now context.now.place.now context.now.uid.now names.now clauses.now) }
{
    let clauses = all_clauses(context, &names.name, clauses)?;
    match definitions(context.alloc, context.uid, names, &clauses) {
        Ok(made) => Ok(made),
        Err(stop) => Err(at_form(stop, form, context.place)),
    }
}

/// The names, which stand before the clauses, are looked at first.
#[tactic(auto, unfolding(crate::specs::Forms::named_form))]
fn named_form(context: &RecordContext, form: &Syn, spec: &Syn, clauses: &[Syn]) -> Result<Syn, Stop>
    ensures { Gives (λ t. t) result (named_form context.now.frames.now form.now context.now.place.now context.now.uid.now spec.now clauses.now) }
{
    let Some(names) = names_of(context.alloc, spec)? else {
        return Err(bad_form(context, form));
    };
    definitions_for(context, form, &names, clauses)
}

/// `(define-record-type names clause ...)`.
fn defining_form(context: &RecordContext, form: &Syn) -> Result<Syn, Stop>
    ensures { Gives (λ t. t) result (defining_form context.now.frames.now form.now context.now.place.now context.now.uid.now (proper_elements form.now)) }
{
    let Some(parts) = proper(context.alloc, form)? else {
        return Err(bad_form(context, form));
    };
    let [_head, spec, clauses @ ..] = parts.as_slice() else {
        return Err(bad_form(context, form));
    };
    named_form(context, form, spec, clauses)
}

/// What comes in place of a form of one of the three keywords of `(rnrs records syntactic)`.
///
/// `define-record-type` stands for definitions in `begin`. The two others stand for a use of the record type's
/// keyword. Names that the form doesn't give have the marks and stamps of the record type's name.
///
/// It is `BadForm` at the first clause that has no meaning, is a second one of its kind, or is the second of `parent`
/// and `parent-rtd`, and at the form where that has no meaning otherwise, or has another keyword. The names are looked
/// at before the clauses. It is `TooDeep` at the form where what comes of it would pass a limit of trees.
#[tactic(auto, unfolding(crate::specs::Forms::record_forms))]
pub fn record_forms(context: &RecordContext, form: &Syn, which: CoreForm) -> Result<Syn, Stop>
    ensures { Gives (λ t. t) result (record_forms context.now.frames.now form.now which context.now.place.now context.now.uid.now) }
{
    match which {
        CoreForm::DefineRecordType => defining_form(context, form),
        CoreForm::RecordTypeDescriptor => {
            let word = type_word(context.alloc)?;
            descriptor_form(context, form, word)
        }
        CoreForm::RecordConstructorDescriptor => {
            let word = constructor_word(context.alloc)?;
            descriptor_form(context, form, word)
        }
        _ => Err(bad_form(context, form)),
    }
}
