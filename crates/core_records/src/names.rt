//! The names of a record type, its fields and its procedures (R6RS libraries 6.2).

ghost use Rattle.std.specs.Prelude.{◌≡◌, IfOk};
ghost use Rattle.stx_scope.specs.Stands.{symbol_of};
ghost use Rattle.core_records.specs.Names.{like, constructor_symbol, predicate_symbol, accessor_symbol, mutator_symbol, made_accessor, made_mutator, made_names, given_names, names_of, spec_symbol, record_symbol, record_uid};

use base_data::library::LibName;
use base_data::memory::Memory;
use base_data::symbol::Symbol;
use core_naming::{put_library, put_name_part};
use core_shapes::lists::{is_id, proper};
use std::alloc::Global;
use std::fmt::Write;
use stx_object::syn::{OpenedTree, Syn};

/// What a form that defines a record type binds besides its fields.
#[derive(Drop)]
pub struct RecordNames {
    /// The record type.
    pub name: Syn,
    pub constructor: Syn,
    pub predicate: Syn,
}

/// The symbol of an identifier; what is no identifier has the empty one.
fn symbol_of(alloc: Global, id: &Syn) -> Result<Symbol, Memory>
    ensures { IfOk result (λ s. s ≡ symbol_of id.now) }
{
    match id.open(alloc)? {
        OpenedTree::Symbol(symbol) => Ok(symbol),
        _ => Symbol::new(alloc, ""),
    }
}

/// The identifier with this symbol that stands where the given one stands. It has no span.
fn like(alloc: Global, id: &Syn, symbol: &Symbol) -> Result<Syn, Memory>
    ensures { IfOk result (λ t. t ≡ like id.now symbol.now) }
{
    let marks = id.marks(alloc)?;
    let stamps = id.stamps(alloc)?;
    Syn::whole_leaf(alloc, None, symbol, marks, stamps)
}

fn constructor_symbol(alloc: Global, name: &Symbol) -> Result<Symbol, Memory>
    ensures { IfOk result (λ s. s ≡ constructor_symbol name.now) }
{
    let mut text = String::from_str(alloc, "make-")?;
    text.push_str(name.as_str())?;
    Symbol::from_string(text)
}

fn predicate_symbol(alloc: Global, name: &Symbol) -> Result<Symbol, Memory>
    ensures { IfOk result (λ s. s ≡ predicate_symbol name.now) }
{
    let mut text = String::from_str(alloc, name.as_str())?;
    text.push_str("?")?;
    Symbol::from_string(text)
}

fn accessor_symbol(alloc: Global, name: &Symbol, field: &Symbol) -> Result<Symbol, Memory>
    ensures { IfOk result (λ s. s ≡ accessor_symbol name.now field.now) }
{
    let mut text = String::from_str(alloc, name.as_str())?;
    text.push_str("-")?;
    text.push_str(field.as_str())?;
    Symbol::from_string(text)
}

fn mutator_symbol(alloc: Global, name: &Symbol, field: &Symbol) -> Result<Symbol, Memory>
    ensures { IfOk result (λ s. s ≡ mutator_symbol name.now field.now) }
{
    let mut text = String::from_str(alloc, name.as_str())?;
    text.push_str("-")?;
    text.push_str(field.as_str())?;
    text.push_str("-set!")?;
    Symbol::from_string(text)
}

/// The accessor of a field that gives none.
pub(crate) fn made_accessor(alloc: Global, name: &Syn, field: &Syn) -> Result<Syn, Memory>
    ensures { IfOk result (λ t. t ≡ made_accessor name.now field.now) }
{
    let own = symbol_of(alloc, name)?;
    let field = symbol_of(alloc, field)?;
    let symbol = accessor_symbol(alloc, &own, &field)?;
    like(alloc, name, &symbol)
}

/// The mutator of a mutable field that gives none.
pub(crate) fn made_mutator(alloc: Global, name: &Syn, field: &Syn) -> Result<Syn, Memory>
    ensures { IfOk result (λ t. t ≡ made_mutator name.now field.now) }
{
    let own = symbol_of(alloc, name)?;
    let field = symbol_of(alloc, field)?;
    let symbol = mutator_symbol(alloc, &own, &field)?;
    like(alloc, name, &symbol)
}

/// The names that come of the record type's alone.
fn made_names(alloc: Global, id: &Syn) -> Result<RecordNames, Memory>
    ensures { IfOk result (λ n. n ≡ made_names id.now) }
{
    let symbol = symbol_of(alloc, id)?;
    let constructor = constructor_symbol(alloc, &symbol)?;
    let predicate = predicate_symbol(alloc, &symbol)?;
    Ok(RecordNames {
        name: id.share()?,
        constructor: like(alloc, id, &constructor)?,
        predicate: like(alloc, id, &predicate)?,
    })
}

fn given_names(alloc: Global, forms: &[Syn]) -> Result<Option<RecordNames>, Memory>
    ensures { IfOk result (λ n. n ≡ given_names forms.now) }
{
    let [name, constructor, predicate] = forms else {
        return Ok(None);
    };
    if !is_id(alloc, name)? {
        return Ok(None);
    }
    if !is_id(alloc, constructor)? {
        return Ok(None);
    }
    if !is_id(alloc, predicate)? {
        return Ok(None);
    }
    Ok(Some(RecordNames {
        name: name.share()?,
        constructor: constructor.share()?,
        predicate: predicate.share()?,
    }))
}

/// `name` or `(name constructor predicate)`.
#[tactic(auto, unfolding(crate::specs::Names::names_of))]
pub(crate) fn names_of(alloc: Global, form: &Syn) -> Result<Option<RecordNames>, Memory>
    ensures { IfOk result (λ n. n ≡ names_of form.now) }
{
    if is_id(alloc, form)? {
        let names = made_names(alloc, form)?;
        return Ok(Some(names));
    }
    let Some(parts) = proper(alloc, form)? else {
        return Ok(None);
    };
    given_names(alloc, parts.as_slice())
}

fn spec_symbol(alloc: Global, spec: &Syn) -> Result<Symbol, Memory>
    ensures { IfOk result (λ s. s ≡ spec_symbol spec.now) }
{
    if is_id(alloc, spec)? {
        return symbol_of(alloc, spec);
    }
    let Some(parts) = proper(alloc, spec)? else {
        return Symbol::new(alloc, "");
    };
    let [name, _others @ ..] = parts.as_slice() else {
        return Symbol::new(alloc, "");
    };
    symbol_of(alloc, name)
}

/// The symbol of the record type that a form defines; a form without a name has the empty one.
#[tactic(auto, unfolding(crate::specs::Names::record_symbol))]
fn record_symbol(alloc: Global, form: &Syn) -> Result<Symbol, Memory>
    ensures { IfOk result (λ s. s ≡ record_symbol form.now) }
{
    let Some(parts) = proper(alloc, form)? else {
        return Symbol::new(alloc, "");
    };
    let [_head, spec, _clauses @ ..] = parts.as_slice() else {
        return Symbol::new(alloc, "");
    };
    spec_symbol(alloc, spec)
}

/// The uid of a record type whose form asks for one: the library and the record's name as they are spelt in core
/// text, and how many forms of the library define record types before this one.
pub fn record_uid(
    alloc: Global,
    library: &LibName,
    form: &Syn,
    number: u64,
) -> Result<Symbol, Memory>
    ensures { IfOk result (λ s. s ≡ record_uid library.now form.now number) }
{
    let name = record_symbol(alloc, form)?;
    let mut text = String::new(alloc);
    put_library(&mut text, library)?;
    text.push_str("/")?;
    put_name_part(&mut text, name.as_str())?;
    write!(text, "/{number}")?;
    Symbol::from_string(text)
}
