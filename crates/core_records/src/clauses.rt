//! Reading the clauses of a form that defines a record type (R6RS libraries 6.2).

ghost use Rattle.std.specs.Prelude.{◌≡◌, [], IfOk};
ghost use Rattle.base_data.specs.Gives.{Gives};
ghost use Rattle.core_shapes.specs.Lists.{all_of};
ghost use Rattle.core_records.specs.declared.clause.RecordClause.TheVariants as record_clause;
ghost use Rattle.core_records.specs.Clauses.{numbered, labelled, keyword_of, fixed_field, immutable_field, mutable_field, field_by, field_in, field_of, fields_clause, parent_clause, parent_rtd_clause, protocol_clause, truth_in, truth_of, only_truth, sealed_clause, opaque_clause, nongenerative_clause, clause_by, clause_in, clause_of, no_clauses, with_clause, next_clause, all_clauses};

use crate::clause::{Clauses, Field, Parent, RecordClause, Uid};
use crate::context::{RecordContext, bad_form};
use crate::names::{made_accessor, made_mutator};
use base_data::atom::Atom;
use base_data::fault::Stop;
use base_data::items::Items;
use base_data::library::LibName;
use base_data::memory::Memory;
use base_data::name::Label;
use base_data::op::{NAME_COUNT, Op};
use core_language::core_form::CoreForm;
use core_shapes::lists::{is_id, proper};
use std::alloc::Global;
use stx_object::syn::{OpenedTree, Syn};
use stx_scope::scope::Frames;

fn numbered(number: u64) -> Option<CoreForm>
    ensures { result ≡ numbered number }
{
    if number >= u64::from(NAME_COUNT) {
        return None;
    }
    CoreForm::at_number(&Op(number as u16))
}

fn labelled(label: &Option<Label>) -> Option<CoreForm>
    ensures { result ≡ labelled label.now }
{
    match label {
        None => None,
        Some(label) => {
            if *label.0.library == LibName::Core {
                numbered(label.0.number)
            } else {
                None
            }
        }
    }
}

/// The keyword that a form is, if it is one of the implementation's own.
fn keyword_of(alloc: Global, form: &Syn, frames: &Frames) -> Result<Option<CoreForm>, Memory>
    ensures { IfOk result (λ k. k ≡ keyword_of frames.now form.now) }
{
    if !is_id(alloc, form)? {
        return Ok(None);
    }
    let label = frames.stands(form)?;
    Ok(labelled(&label))
}

fn fixed_field(alloc: Global, name: &Syn, id: &Syn) -> Result<Field, Memory>
    ensures { IfOk result (λ f. f ≡ fixed_field name.now id.now) }
{
    Ok(Field {
        id: id.share()?,
        accessor: made_accessor(alloc, name, id)?,
        mutator: None,
    })
}

/// `(immutable id)` or `(immutable id accessor)`.
#[tactic(auto, unfolding(crate::specs::Clauses::immutable_field))]
fn immutable_field(alloc: Global, name: &Syn, operands: &[Syn]) -> Result<Option<Field>, Memory>
    ensures { IfOk result (λ f. f ≡ immutable_field name.now operands.now) }
{
    match operands {
        [id] => {
            if !is_id(alloc, id)? {
                return Ok(None);
            }
            let field = fixed_field(alloc, name, id)?;
            Ok(Some(field))
        }
        [id, accessor] => {
            if !is_id(alloc, id)? {
                return Ok(None);
            }
            if !is_id(alloc, accessor)? {
                return Ok(None);
            }
            Ok(Some(Field {
                id: id.share()?,
                accessor: accessor.share()?,
                mutator: None,
            }))
        }
        _ => Ok(None),
    }
}

/// `(mutable id)` or `(mutable id accessor mutator)`.
#[tactic(auto, unfolding(crate::specs::Clauses::mutable_field))]
fn mutable_field(alloc: Global, name: &Syn, operands: &[Syn]) -> Result<Option<Field>, Memory>
    ensures { IfOk result (λ f. f ≡ mutable_field name.now operands.now) }
{
    match operands {
        [id] => {
            if !is_id(alloc, id)? {
                return Ok(None);
            }
            let mutator = made_mutator(alloc, name, id)?;
            Ok(Some(Field {
                id: id.share()?,
                accessor: made_accessor(alloc, name, id)?,
                mutator: Some(mutator),
            }))
        }
        [id, accessor, mutator] => {
            if !is_id(alloc, id)? {
                return Ok(None);
            }
            if !is_id(alloc, accessor)? {
                return Ok(None);
            }
            if !is_id(alloc, mutator)? {
                return Ok(None);
            }
            let mutator = mutator.share()?;
            Ok(Some(Field {
                id: id.share()?,
                accessor: accessor.share()?,
                mutator: Some(mutator),
            }))
        }
        _ => Ok(None),
    }
}

fn field_by(
    alloc: Global,
    name: &Syn,
    operands: &[Syn],
    keyword: CoreForm,
) -> Result<Option<Field>, Memory>
    ensures { IfOk result (λ f. f ≡ field_by name.now operands.now keyword) }
{
    match keyword {
        CoreForm::Immutable => immutable_field(alloc, name, operands),
        CoreForm::Mutable => mutable_field(alloc, name, operands),
        _ => Ok(None),
    }
}

fn field_in(
    alloc: Global,
    name: &Syn,
    parts: &[Syn],
    frames: &Frames,
) -> Result<Option<Field>, Memory>
    ensures { IfOk result (λ f. f ≡ field_in frames.now name.now parts.now) }
{
    let [head, operands @ ..] = parts else {
        return Ok(None);
    };
    let Some(keyword) = keyword_of(alloc, head, frames)? else {
        return Ok(None);
    };
    field_by(alloc, name, operands, keyword)
}

/// A field of the record type with this name; a bare identifier is an immutable one.
#[tactic(auto, unfolding(crate::specs::Clauses::field_of))]
fn field_of(alloc: Global, name: &Syn, form: &Syn, frames: &Frames) -> Result<Option<Field>, Memory>
    ensures { IfOk result (λ f. f ≡ field_of frames.now name.now form.now) }
{
    if is_id(alloc, form)? {
        let field = fixed_field(alloc, name, form)?;
        return Ok(Some(field));
    }
    let Some(parts) = proper(alloc, form)? else {
        return Ok(None);
    };
    field_in(alloc, name, parts.as_slice(), frames)
}

#[tactic(auto, using(core_shapes::proofs::Walks::all_on, core_shapes::proofs::Walks::all_none, core_shapes::proofs::Walks::all_done))]
fn all_fields(
    alloc: Global,
    name: &Syn,
    forms: &[Syn],
    frames: &Frames,
) -> Result<Option<Items<Field>>, Memory>
    ensures { IfOk result (λ xs. xs ≡ all_of (field_of frames.now name.now) [] forms.now) }
{
    let mut all = Items::new(alloc);
    for form in forms {
        let Some(one) = field_of(alloc, name, form, frames)? else {
            return Ok(None);
        };
        all.push(one)?;
    }
    Ok(Some(all))
}

#[tactic(auto, unfolding(crate::specs::Clauses::fields_clause))]
fn fields_clause(
    alloc: Global,
    name: &Syn,
    operands: &[Syn],
    frames: &Frames,
) -> Result<Option<RecordClause>, Memory>
    ensures { IfOk result (λ c. c ≡ fields_clause frames.now name.now operands.now) }
{
    let Some(fields) = all_fields(alloc, name, operands, frames)? else {
        return Ok(None);
    };
    Ok(Some(RecordClause::Fields(fields)))
}

#[tactic(auto, unfolding(crate::specs::Clauses::parent_clause))]
fn parent_clause(alloc: Global, operands: &[Syn]) -> Result<Option<RecordClause>, Memory>
    ensures { IfOk result (λ c. c ≡ parent_clause operands.now) }
{
    let [id] = operands else {
        return Ok(None);
    };
    if !is_id(alloc, id)? {
        return Ok(None);
    }
    let id = id.share()?;
    Ok(Some(RecordClause::Parent(Parent::Named(id))))
}

#[tactic(auto, unfolding(crate::specs::Clauses::parent_rtd_clause))]
fn parent_rtd_clause(operands: &[Syn]) -> Result<Option<RecordClause>, Memory>
    ensures { IfOk result (λ c. c ≡ parent_rtd_clause operands.now) }
{
    let [rtd, rcd] = operands else {
        return Ok(None);
    };
    let rtd = rtd.share()?;
    let rcd = rcd.share()?;
    Ok(Some(RecordClause::Parent(Parent::Descriptors(rtd, rcd))))
}

#[tactic(auto, unfolding(crate::specs::Clauses::protocol_clause))]
fn protocol_clause(operands: &[Syn]) -> Result<Option<RecordClause>, Memory>
    ensures { IfOk result (λ c. c ≡ protocol_clause operands.now) }
{
    let [expression] = operands else {
        return Ok(None);
    };
    Ok(Some(RecordClause::Protocol(expression.share()?)))
}

fn truth_in(atom: &Atom) -> Option<bool>
    ensures { result ≡ truth_in atom.now }
{
    match atom {
        Atom::Bool(value) => Some(*value),
        _ => None,
    }
}

/// `#t` or `#f`.
#[tactic(auto, using(crate::proofs::Opened::truth_by_atom, crate::proofs::Opened::no_truth_leaf, crate::proofs::Opened::no_truth_pair, crate::proofs::Opened::no_truth_vector))]
fn truth_of(alloc: Global, form: &Syn) -> Result<Option<bool>, Memory>
    ensures { IfOk result (λ b. b ≡ truth_of form.now) }
{
    match form.open(alloc)? {
        OpenedTree::Atom(atom) => Ok(truth_in(&atom)),
        OpenedTree::Symbol(_) => Ok(None),
        OpenedTree::Pair(_, _) => Ok(None),
        OpenedTree::Vector(_) => Ok(None),
    }
}

fn only_truth(alloc: Global, operands: &[Syn]) -> Result<Option<bool>, Memory>
    ensures { IfOk result (λ b. b ≡ only_truth operands.now) }
{
    let [form] = operands else {
        return Ok(None);
    };
    truth_of(alloc, form)
}

#[tactic(auto, unfolding(crate::specs::Clauses::sealed_clause))]
fn sealed_clause(alloc: Global, operands: &[Syn]) -> Result<Option<RecordClause>, Memory>
    ensures { IfOk result (λ c. c ≡ sealed_clause operands.now) }
{
    let Some(value) = only_truth(alloc, operands)? else {
        return Ok(None);
    };
    Ok(Some(RecordClause::Sealed(value)))
}

#[tactic(auto, unfolding(crate::specs::Clauses::opaque_clause))]
fn opaque_clause(alloc: Global, operands: &[Syn]) -> Result<Option<RecordClause>, Memory>
    ensures { IfOk result (λ c. c ≡ opaque_clause operands.now) }
{
    let Some(value) = only_truth(alloc, operands)? else {
        return Ok(None);
    };
    Ok(Some(RecordClause::Opaque(value)))
}

#[tactic(auto, unfolding(crate::specs::Clauses::nongenerative_clause))]
fn nongenerative_clause(alloc: Global, operands: &[Syn]) -> Result<Option<RecordClause>, Memory>
    ensures { IfOk result (λ c. c ≡ nongenerative_clause operands.now) }
{
    match operands {
        [] => Ok(Some(RecordClause::Nongenerative(Uid::Generated))),
        [id] => {
            if !is_id(alloc, id)? {
                return Ok(None);
            }
            let id = id.share()?;
            Ok(Some(RecordClause::Nongenerative(Uid::Given(id))))
        }
        _ => Ok(None),
    }
}

fn clause_by(
    alloc: Global,
    name: &Syn,
    operands: &[Syn],
    keyword: CoreForm,
    frames: &Frames,
) -> Result<Option<RecordClause>, Memory>
    ensures { IfOk result (λ c. c ≡ clause_by frames.now name.now operands.now keyword) }
{
    match keyword {
        CoreForm::Fields => fields_clause(alloc, name, operands, frames),
        CoreForm::Parent => parent_clause(alloc, operands),
        CoreForm::ParentRtd => parent_rtd_clause(operands),
        CoreForm::Protocol => protocol_clause(operands),
        CoreForm::Sealed => sealed_clause(alloc, operands),
        CoreForm::Opaque => opaque_clause(alloc, operands),
        CoreForm::Nongenerative => nongenerative_clause(alloc, operands),
        _ => Ok(None),
    }
}

fn clause_in(
    alloc: Global,
    name: &Syn,
    parts: &[Syn],
    frames: &Frames,
) -> Result<Option<RecordClause>, Memory>
    ensures { IfOk result (λ c. c ≡ clause_in frames.now name.now parts.now) }
{
    let [head, operands @ ..] = parts else {
        return Ok(None);
    };
    let Some(keyword) = keyword_of(alloc, head, frames)? else {
        return Ok(None);
    };
    clause_by(alloc, name, operands, keyword, frames)
}

#[tactic(auto, unfolding(crate::specs::Clauses::clause_of))]
fn clause_of(
    alloc: Global,
    name: &Syn,
    form: &Syn,
    frames: &Frames,
) -> Result<Option<RecordClause>, Memory>
    ensures { IfOk result (λ c. c ≡ clause_of frames.now name.now form.now) }
{
    let Some(parts) = proper(alloc, form)? else {
        return Ok(None);
    };
    clause_in(alloc, name, parts.as_slice(), frames)
}

impl Clauses {
    /// None so far. It takes no memory.
    fn none() -> Clauses
        ensures { result ≡ no_clauses }
    {
        Clauses {
            fields: None,
            parent: None,
            protocol: None,
            sealed: None,
            opaque: None,
            nongenerative: None,
        }
    }

    #[tactic(auto, unfolding(crate::specs::Clauses::with_clause))]
    fn with_fields(self, fields: Items<Field>) -> Option<Clauses>
        ensures { result ≡ with_clause self (record_clause.Fields fields) }
    {
        if self.fields.is_some() {
            return None;
        }
        let mut all = self;
        all.fields = Some(fields);
        Some(all)
    }

    #[tactic(auto, unfolding(crate::specs::Clauses::with_clause))]
    fn with_parent(self, parent: Parent) -> Option<Clauses>
        ensures { result ≡ with_clause self (record_clause.Parent parent) }
    {
        if self.parent.is_some() {
            return None;
        }
        let mut all = self;
        all.parent = Some(parent);
        Some(all)
    }

    #[tactic(auto, unfolding(crate::specs::Clauses::with_clause))]
    fn with_protocol(self, protocol: Syn) -> Option<Clauses>
        ensures { result ≡ with_clause self (record_clause.Protocol protocol) }
    {
        if self.protocol.is_some() {
            return None;
        }
        let mut all = self;
        all.protocol = Some(protocol);
        Some(all)
    }

    #[tactic(auto, unfolding(crate::specs::Clauses::with_clause))]
    fn with_sealed(self, sealed: bool) -> Option<Clauses>
        ensures { result ≡ with_clause self (record_clause.Sealed sealed) }
    {
        if self.sealed.is_some() {
            return None;
        }
        let mut all = self;
        all.sealed = Some(sealed);
        Some(all)
    }

    #[tactic(auto, unfolding(crate::specs::Clauses::with_clause))]
    fn with_opaque(self, opaque: bool) -> Option<Clauses>
        ensures { result ≡ with_clause self (record_clause.Opaque opaque) }
    {
        if self.opaque.is_some() {
            return None;
        }
        let mut all = self;
        all.opaque = Some(opaque);
        Some(all)
    }

    #[tactic(auto, unfolding(crate::specs::Clauses::with_clause))]
    fn with_uid(self, uid: Uid) -> Option<Clauses>
        ensures { result ≡ with_clause self (record_clause.Nongenerative uid) }
    {
        if self.nongenerative.is_some() {
            return None;
        }
        let mut all = self;
        all.nongenerative = Some(uid);
        Some(all)
    }

    /// With a clause more, where none of its kind stands yet. `parent` and `parent-rtd` are of one kind.
    fn with_clause(self, clause: RecordClause) -> Option<Clauses>
        ensures { result ≡ with_clause self clause }
    {
        match clause {
            RecordClause::Fields(fields) => self.with_fields(fields),
            RecordClause::Parent(parent) => self.with_parent(parent),
            RecordClause::Protocol(protocol) => self.with_protocol(protocol),
            RecordClause::Sealed(sealed) => self.with_sealed(sealed),
            RecordClause::Opaque(opaque) => self.with_opaque(opaque),
            RecordClause::Nongenerative(uid) => self.with_uid(uid),
        }
    }
}

/// With the next clause. It is at fault where it has no meaning, or may not stand behind those before it.
#[tactic(auto, unfolding(crate::specs::Clauses::next_clause))]
fn next_clause(
    context: &RecordContext,
    name: &Syn,
    clauses: Clauses,
    form: &Syn,
) -> Result<Clauses, Stop>
    ensures { Gives (λ c. c) result (next_clause context.now.frames.now name.now context.now.place.now clauses form.now) }
{
    let Some(clause) = clause_of(context.alloc, name, form, context.frames)? else {
        return Err(bad_form(context, form));
    };
    match clauses.with_clause(clause) {
        Some(all) => Ok(all),
        None => Err(bad_form(context, form)),
    }
}

/// All clauses of the form that defines the record type with this name, from left to right.
#[tactic(auto, using(crate::proofs::Walks::clauses_on, crate::proofs::Walks::clauses_stop, crate::proofs::Walks::clauses_done))]
pub(crate) fn all_clauses(
    context: &RecordContext,
    name: &Syn,
    forms: &[Syn],
) -> Result<Clauses, Stop>
    ensures { Gives (λ c. c) result (all_clauses context.now.frames.now name.now context.now.place.now no_clauses forms.now) }
{
    let mut clauses = Clauses::none();
    for form in forms {
        clauses = next_clause(context, name, clauses, form)?;
    }
    Ok(clauses)
}
