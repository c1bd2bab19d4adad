//! The definitions that a form stands for that defines a record type (R6RS libraries 6.2 and 6.3).

ghost use Rattle.std.specs.Prelude.{◌≡◌, [], IfOk};
ghost use Rattle.base_data.specs.Gives.{BareGives};
ghost use Rattle.core_records.specs.Introduced.{list_of_two};
ghost use Rattle.core_records.specs.Definitions.{rtd, rcd, type_word, constructor_word, definition, definition_by, mutability, field_entry, field_entries, fields_part, type_in, parent_type, uid_in, uid_part, or_false, type_operator, type_made, type_value, constructor_in, parent_constructor, protocol_part, constructor_operator, constructor_made, constructor_value, keyword_clause, keyword_body, keyword_value, keyword_definition, constructor_definition, predicate_definition, place_in, accessor_operator, accessor_value, accessor_definition, mutator_operator, mutator_value, mutator_definition, with_mutator, with_field, with_fields, first_definitions, definitions, or_no_fields};

use crate::clause::{Clauses, Field, Parent, Uid};
use crate::introduced::{
    boolean, introduced, introduced_symbol, list_made, list_of_three, list_of_two, plain, quoted,
    vector_made,
};
use crate::names::RecordNames;
use base_data::atom::Atom;
use base_data::fault::BareStop;
use base_data::items::Items;
use base_data::memory::Memory;
use base_data::symbol::Symbol;
use std::alloc::Global;
use stx_object::syn::Syn;

fn rtd(alloc: Global) -> Result<Syn, Memory>
    ensures { IfOk result (λ t. t ≡ rtd) }
{
    plain(alloc, "rtd")
}

fn rcd(alloc: Global) -> Result<Syn, Memory>
    ensures { IfOk result (λ t. t ≡ rcd) }
{
    plain(alloc, "rcd")
}

/// The word by which a form asks for a record-type descriptor.
pub(crate) fn type_word(alloc: Global) -> Result<Syn, Memory>
    ensures { IfOk result (λ t. t ≡ type_word) }
{
    introduced(alloc, "record-type-descriptor")
}

/// The word by which a form asks for a constructor descriptor.
pub(crate) fn constructor_word(alloc: Global) -> Result<Syn, Memory>
    ensures { IfOk result (λ t. t ≡ constructor_word) }
{
    introduced(alloc, "record-constructor-descriptor")
}

/// `(define id value)`.
fn definition(alloc: Global, id: Syn, value: Syn) -> Result<Syn, BareStop>
    ensures { BareGives (λ t. t) result (definition id value) }
{
    let define = introduced(alloc, "define")?;
    list_of_three(alloc, define, id, value)
}

fn mutability(alloc: Global, mutator: &Option<Syn>) -> Result<Syn, Memory>
    ensures { IfOk result (λ t. t ≡ mutability mutator.now) }
{
    match mutator {
        None => introduced(alloc, "immutable"),
        Some(_) => introduced(alloc, "mutable"),
    }
}

/// `(immutable id)` or `(mutable id)`.
fn field_entry(alloc: Global, field: &Field) -> Result<Syn, BareStop>
    ensures { BareGives (λ t. t) result (field_entry field.now) }
{
    let word = mutability(alloc, &field.mutator)?;
    let id = field.id.share()?;
    list_of_two(alloc, word, id)
}

#[tactic(auto, using(crate::proofs::Walks::entries_on, crate::proofs::Walks::entries_stop, crate::proofs::Walks::entries_done))]
fn field_entries(alloc: Global, fields: &[Field]) -> Result<Items<Syn>, BareStop>
    ensures { BareGives (λ ts. ts) result (field_entries [] fields.now) }
{
    let mut done = Items::new(alloc);
    for field in fields {
        let entry = field_entry(alloc, field)?;
        done.push(entry)?;
    }
    Ok(done)
}

fn fields_of(fields: &Option<Items<Field>>) -> &[Field]
    ensures { result.now ≡ or_no_fields fields.now }
{
    match fields {
        None => &[],
        Some(fields) => fields.as_slice(),
    }
}

/// The quoted vector of all fields.
#[tactic(auto, unfolding(crate::specs::Definitions::fields_part))]
fn fields_part(alloc: Global, fields: &Option<Items<Field>>) -> Result<Syn, BareStop>
    ensures { BareGives (λ t. t) result (fields_part fields.now) }
{
    let entries = field_entries(alloc, fields_of(fields))?;
    let vector = vector_made(alloc, entries)?;
    quoted(alloc, vector)
}

fn type_in(alloc: Global, parent: &Parent) -> Result<Syn, BareStop>
    ensures { BareGives (λ t. t) result (type_in parent.now) }
{
    match parent {
        Parent::Named(id) => {
            let id = id.share()?;
            let word = type_word(alloc)?;
            list_of_two(alloc, id, word)
        }
        Parent::Descriptors(rtd, _) => {
            let rtd = rtd.share()?;
            Ok(rtd)
        }
    }
}

#[tactic(auto, unfolding(crate::specs::Definitions::parent_type))]
fn parent_type(alloc: Global, parent: &Option<Parent>) -> Result<Syn, BareStop>
    ensures { BareGives (λ t. t) result (parent_type parent.now) }
{
    match parent {
        None => {
            let none = boolean(alloc, false)?;
            Ok(none)
        }
        Some(parent) => type_in(alloc, parent),
    }
}

fn uid_in(alloc: Global, own: &Symbol, uid: &Uid) -> Result<Syn, BareStop>
    ensures { BareGives (λ t. t) result (uid_in own.now uid.now) }
{
    match uid {
        Uid::Generated => {
            let id = introduced_symbol(alloc, own)?;
            quoted(alloc, id)
        }
        Uid::Given(id) => {
            let id = id.share()?;
            quoted(alloc, id)
        }
    }
}

#[tactic(auto, unfolding(crate::specs::Definitions::uid_part))]
fn uid_part(alloc: Global, own: &Symbol, uid: &Option<Uid>) -> Result<Syn, BareStop>
    ensures { BareGives (λ t. t) result (uid_part own.now uid.now) }
{
    match uid {
        None => {
            let none = boolean(alloc, false)?;
            Ok(none)
        }
        Some(uid) => uid_in(alloc, own, uid),
    }
}

#[tactic(auto, unfolding(crate::specs::Definitions::or_false))]
fn or_false(value: &Option<bool>) -> bool
    ensures { result ≡ or_false value.now }
{
    match value {
        None => false,
        Some(value) => *value,
    }
}

#[tactic(auto, unfolding(crate::specs::Definitions::type_operator))]
fn type_operator(alloc: Global) -> Result<Syn, Memory>
    ensures { IfOk result (λ t. t ≡ type_operator) }
{
    introduced(alloc, "make-record-type-descriptor")
}

/// What a record type is made of, beside its truths.
#[derive(Drop)]
pub(crate) struct TypeParts {
    pub(crate) name: Syn,
    pub(crate) parent: Syn,
    pub(crate) uid: Syn,
    pub(crate) fields: Syn,
}

/// `(make-record-type-descriptor 'name parent uid sealed opaque '#(field ...))`.
fn type_made(alloc: Global, clauses: &Clauses, parts: TypeParts) -> Result<Syn, BareStop>
    ensures { BareGives (λ t. t) result (type_made clauses.now parts.name parts.parent parts.uid parts.fields) }
{
    let maker = type_operator(alloc)?;
    let sealed = boolean(alloc, or_false(&clauses.sealed))?;
    let opaque = boolean(alloc, or_false(&clauses.opaque))?;
    let mut forms = Items::new(alloc);
    forms.push(maker)?;
    forms.push(parts.name)?;
    forms.push(parts.parent)?;
    forms.push(parts.uid)?;
    forms.push(sealed)?;
    forms.push(opaque)?;
    forms.push(parts.fields)?;
    list_made(alloc, forms)
}

#[tactic(auto, unfolding(crate::specs::Definitions::type_value))]
fn type_value(
    alloc: Global,
    own: &Symbol,
    names: &RecordNames,
    clauses: &Clauses,
) -> Result<Syn, BareStop>
    ensures { BareGives (λ t. t) result (type_value own.now names.now clauses.now) }
{
    let name = names.name.share()?;
    let name = quoted(alloc, name)?;
    let parent = parent_type(alloc, &clauses.parent)?;
    let uid = uid_part(alloc, own, &clauses.nongenerative)?;
    let fields = fields_part(alloc, &clauses.fields)?;
    let parts = TypeParts {
        name,
        parent,
        uid,
        fields,
    };
    type_made(alloc, clauses, parts)
}

fn constructor_in(alloc: Global, parent: &Parent) -> Result<Syn, BareStop>
    ensures { BareGives (λ t. t) result (constructor_in parent.now) }
{
    match parent {
        Parent::Named(id) => {
            let id = id.share()?;
            let word = constructor_word(alloc)?;
            list_of_two(alloc, id, word)
        }
        Parent::Descriptors(_, rcd) => {
            let rcd = rcd.share()?;
            Ok(rcd)
        }
    }
}

#[tactic(auto, unfolding(crate::specs::Definitions::parent_constructor))]
fn parent_constructor(alloc: Global, parent: &Option<Parent>) -> Result<Syn, BareStop>
    ensures { BareGives (λ t. t) result (parent_constructor parent.now) }
{
    match parent {
        None => {
            let none = boolean(alloc, false)?;
            Ok(none)
        }
        Some(parent) => constructor_in(alloc, parent),
    }
}

#[tactic(auto, unfolding(crate::specs::Definitions::protocol_part))]
fn protocol_part(alloc: Global, protocol: &Option<Syn>) -> Result<Syn, Memory>
    ensures { IfOk result (λ t. t ≡ protocol_part protocol.now) }
{
    match protocol {
        None => boolean(alloc, false),
        Some(expression) => expression.share(),
    }
}

#[tactic(auto, unfolding(crate::specs::Definitions::constructor_operator))]
fn constructor_operator(alloc: Global) -> Result<Syn, Memory>
    ensures { IfOk result (λ t. t ≡ constructor_operator) }
{
    introduced(alloc, "make-record-constructor-descriptor")
}

/// `(make-record-constructor-descriptor rtd parent protocol)`.
fn constructor_made(alloc: Global, parent: Syn, protocol: Syn) -> Result<Syn, BareStop>
    ensures { BareGives (λ t. t) result (constructor_made parent protocol) }
{
    let maker = constructor_operator(alloc)?;
    let rtd = rtd(alloc)?;
    let mut forms = Items::new(alloc);
    forms.push(maker)?;
    forms.push(rtd)?;
    forms.push(parent)?;
    forms.push(protocol)?;
    list_made(alloc, forms)
}

/// The descriptor of what makes records.
#[tactic(auto, unfolding(crate::specs::Definitions::constructor_value))]
fn constructor_value(alloc: Global, clauses: &Clauses) -> Result<Syn, BareStop>
    ensures { BareGives (λ t. t) result (constructor_value clauses.now) }
{
    let parent = parent_constructor(alloc, &clauses.parent)?;
    let protocol = protocol_part(alloc, &clauses.protocol)?;
    constructor_made(alloc, parent, protocol)
}

/// `((_ word) (syntax value))`.
#[tactic(auto, unfolding(crate::specs::Definitions::keyword_clause))]
fn keyword_clause(alloc: Global, word: Syn, value: Syn) -> Result<Syn, BareStop>
    ensures { BareGives (λ t. t) result (keyword_clause word value) }
{
    let head = introduced(alloc, "_")?;
    let pattern = list_of_two(alloc, head, word)?;
    let syntax = introduced(alloc, "syntax")?;
    let output = list_of_two(alloc, syntax, value)?;
    list_of_two(alloc, pattern, output)
}

fn both_words(alloc: Global) -> Result<Syn, BareStop>
    ensures { BareGives (λ t. t) result (list_of_two type_word constructor_word) }
{
    let first = type_word(alloc)?;
    let second = constructor_word(alloc)?;
    list_of_two(alloc, first, second)
}

fn type_clause(alloc: Global) -> Result<Syn, BareStop>
    ensures { BareGives (λ t. t) result (keyword_clause type_word rtd) }
{
    let word = type_word(alloc)?;
    let rtd = rtd(alloc)?;
    keyword_clause(alloc, word, rtd)
}

fn constructor_clause(alloc: Global) -> Result<Syn, BareStop>
    ensures { BareGives (λ t. t) result (keyword_clause constructor_word rcd) }
{
    let word = constructor_word(alloc)?;
    let rcd = rcd(alloc)?;
    keyword_clause(alloc, word, rcd)
}

/// `(syntax-case x (record-type-descriptor record-constructor-descriptor) clause clause)`.
#[tactic(auto, unfolding(crate::specs::Definitions::keyword_body))]
fn keyword_body(alloc: Global, subject: Syn) -> Result<Syn, BareStop>
    ensures { BareGives (λ t. t) result (keyword_body subject) }
{
    let words = both_words(alloc)?;
    let first = type_clause(alloc)?;
    let second = constructor_clause(alloc)?;
    let head = introduced(alloc, "syntax-case")?;
    let mut forms = Items::new(alloc);
    forms.push(head)?;
    forms.push(subject)?;
    forms.push(words)?;
    forms.push(first)?;
    forms.push(second)?;
    list_made(alloc, forms)
}

/// `(lambda (x) body)`.
#[tactic(auto, unfolding(crate::specs::Definitions::keyword_value))]
fn keyword_value(alloc: Global, subject: Syn) -> Result<Syn, BareStop>
    ensures { BareGives (λ t. t) result (keyword_value subject) }
{
    let mut ids = Items::new(alloc);
    let id = subject.share()?;
    ids.push(id)?;
    let formals = list_made(alloc, ids)?;
    let body = keyword_body(alloc, subject)?;
    let lambda = introduced(alloc, "lambda")?;
    list_of_three(alloc, lambda, formals, body)
}

/// The keyword, which gives the two descriptors where a form names the record type.
fn keyword_definition(alloc: Global, name: Syn) -> Result<Syn, BareStop>
    ensures { BareGives (λ t. t) result (keyword_definition name) }
{
    let subject = plain(alloc, "x")?;
    let value = keyword_value(alloc, subject)?;
    let define = introduced(alloc, "define-syntax")?;
    list_of_three(alloc, define, name, value)
}

fn constructor_definition(alloc: Global, id: Syn) -> Result<Syn, BareStop>
    ensures { BareGives (λ t. t) result (constructor_definition id) }
{
    let operator = introduced(alloc, "record-constructor")?;
    let rcd = rcd(alloc)?;
    let value = list_of_two(alloc, operator, rcd)?;
    definition(alloc, id, value)
}

fn predicate_definition(alloc: Global, id: Syn) -> Result<Syn, BareStop>
    ensures { BareGives (λ t. t) result (predicate_definition id) }
{
    let operator = introduced(alloc, "record-predicate")?;
    let rtd = rtd(alloc)?;
    let value = list_of_two(alloc, operator, rtd)?;
    definition(alloc, id, value)
}

fn place_in(alloc: Global, number: u64) -> Result<Syn, Memory>
    ensures { IfOk result (λ t. t ≡ place_in number) }
{
    Syn::atom(alloc, Atom::Int(i128::from(number)))
}

#[tactic(auto, unfolding(crate::specs::Definitions::accessor_operator))]
fn accessor_operator(alloc: Global) -> Result<Syn, Memory>
    ensures { IfOk result (λ t. t ≡ accessor_operator) }
{
    introduced(alloc, "record-accessor")
}

#[tactic(auto, unfolding(crate::specs::Definitions::accessor_value))]
fn accessor_value(alloc: Global, number: u64) -> Result<Syn, BareStop>
    ensures { BareGives (λ t. t) result (accessor_value number) }
{
    let operator = accessor_operator(alloc)?;
    let rtd = rtd(alloc)?;
    let number = place_in(alloc, number)?;
    list_of_three(alloc, operator, rtd, number)
}

fn accessor_definition(alloc: Global, number: u64, id: Syn) -> Result<Syn, BareStop>
    ensures { BareGives (λ t. t) result (accessor_definition number id) }
{
    let value = accessor_value(alloc, number)?;
    definition(alloc, id, value)
}

#[tactic(auto, unfolding(crate::specs::Definitions::mutator_operator))]
fn mutator_operator(alloc: Global) -> Result<Syn, Memory>
    ensures { IfOk result (λ t. t ≡ mutator_operator) }
{
    introduced(alloc, "record-mutator")
}

#[tactic(auto, unfolding(crate::specs::Definitions::mutator_value))]
fn mutator_value(alloc: Global, number: u64) -> Result<Syn, BareStop>
    ensures { BareGives (λ t. t) result (mutator_value number) }
{
    let operator = mutator_operator(alloc)?;
    let rtd = rtd(alloc)?;
    let number = place_in(alloc, number)?;
    list_of_three(alloc, operator, rtd, number)
}

fn mutator_definition(alloc: Global, number: u64, id: Syn) -> Result<Syn, BareStop>
    ensures { BareGives (λ t. t) result (mutator_definition number id) }
{
    let value = mutator_value(alloc, number)?;
    definition(alloc, id, value)
}

fn push_mutator(
    alloc: Global,
    number: u64,
    mutator: &Option<Syn>,
    forms: &mut Items<Syn>,
) -> Result<(), BareStop>
    ensures { BareGives (λ _. forms.new) result (with_mutator number forms.old mutator.now) }
{
    let Some(mutator) = mutator else {
        return Ok(());
    };
    let id = mutator.share()?;
    let form = mutator_definition(alloc, number, id)?;
    forms.push(form)?;
    Ok(())
}

/// Adds the definitions of a field at a place.
fn push_field(
    alloc: Global,
    number: u64,
    field: &Field,
    forms: &mut Items<Syn>,
) -> Result<(), BareStop>
    ensures { BareGives (λ _. forms.new) result (with_field number forms.old field.now) }
{
    let id = field.accessor.share()?;
    let form = accessor_definition(alloc, number, id)?;
    forms.push(form)?;
    push_mutator(alloc, number, &field.mutator, forms)
}

/// Adds the definitions of all fields.
#[tactic(auto, using(crate::proofs::Walks::fields_on, crate::proofs::Walks::fields_stop, crate::proofs::Walks::fields_done))]
fn push_fields(alloc: Global, fields: &[Field], forms: &mut Items<Syn>) -> Result<(), BareStop>
    ensures { BareGives (λ _. forms.new) result (with_fields 0 forms.old fields.now) }
{
    let mut number: u64 = 0;
    for field in fields {
        push_field(alloc, number, field, forms)?;
        let Some(next) = number.checked_add(1) else {
            return Err(BareStop::Memory);
        };
        number = next;
    }
    Ok(())
}

fn type_definition(
    alloc: Global,
    own: &Symbol,
    names: &RecordNames,
    clauses: &Clauses,
) -> Result<Syn, BareStop>
    ensures { BareGives (λ t. t) result (definition_by rtd (type_value own.now names.now clauses.now)) }
{
    let value = type_value(alloc, own, names, clauses)?;
    let id = rtd(alloc)?;
    definition(alloc, id, value)
}

fn maker_definition(alloc: Global, clauses: &Clauses) -> Result<Syn, BareStop>
    ensures { BareGives (λ t. t) result (definition_by rcd (constructor_value clauses.now)) }
{
    let value = constructor_value(alloc, clauses)?;
    let id = rcd(alloc)?;
    definition(alloc, id, value)
}

/// The definitions that every record type has, behind `begin`.
#[tactic(auto, unfolding(crate::specs::Definitions::first_definitions))]
fn first_definitions(
    alloc: Global,
    own: &Symbol,
    names: &RecordNames,
    clauses: &Clauses,
) -> Result<Items<Syn>, BareStop>
    ensures { BareGives (λ ts. ts) result (first_definitions own.now names.now clauses.now) }
{
    let record_type = type_definition(alloc, own, names, clauses)?;
    let maker = maker_definition(alloc, clauses)?;
    let keyword = keyword_definition(alloc, names.name.share()?)?;
    let constructor = constructor_definition(alloc, names.constructor.share()?)?;
    let predicate = predicate_definition(alloc, names.predicate.share()?)?;
    let begin = introduced(alloc, "begin")?;
    let mut forms = Items::new(alloc);
    forms.push(begin)?;
    forms.push(record_type)?;
    forms.push(maker)?;
    forms.push(keyword)?;
    forms.push(constructor)?;
    forms.push(predicate)?;
    Ok(forms)
}

/// All definitions, in `begin`. The uid is what the record type gets where a clause asks for one.
#[tactic(auto, unfolding(crate::specs::Definitions::definitions))]
pub(crate) fn definitions(
    alloc: Global,
    own: &Symbol,
    names: &RecordNames,
    clauses: &Clauses,
) -> Result<Syn, BareStop>
    ensures { BareGives (λ t. t) result (definitions own.now names.now clauses.now) }
{
    let mut forms = first_definitions(alloc, own, names, clauses)?;
    push_fields(alloc, fields_of(&clauses.fields), &mut forms)?;
    list_made(alloc, forms)
}
