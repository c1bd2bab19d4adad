//! Import sets, as they stand in import forms.

ghost use Rattle.std.specs.Prelude.{◌≡◌, ◌∷◌, [], IfOk, option_map};
ghost use Rattle.std.specs.Prelude.{Some, None, if◌then◌else◌};
ghost use Rattle.base_data.specs.Datum.{chain, nil};
ghost use Rattle.load_forms.specs.All.{all_of};
ghost use Rattle.load_forms.specs.Name.{leading, behind};
ghost use Rattle.load_forms.specs.Set.{start, datum_place, name_at, names_at, renaming_in, renaming, prefix_in, step_of, version_reference, referred, reference, only_reference, stepped, with_step, import_set, inner_set, is_int, is_meta, is_meta_list, is_level, are_levels, import_of, import_for, import_in, import_spec};

use crate::copied::copied;
use crate::name::{behind, int_of, leading};
use crate::version::is_reference;
use crate::words::{SetWord, StepWord, is_word, set_word};
use base_data::atom::Atom;
use base_data::datum::{Datum, Node};
use base_data::items::Items;
use base_data::library::LibName;
use base_data::memory::Memory;
use base_data::span::Span;
use base_data::symbol::Symbol;
use load_import::set::{ImportSet, ImportStep, NameAt, Renaming};
use std::alloc::Global;

/// What an import spec imports, and where its set stands.
#[derive(Drop)]
pub struct Import {
    pub set: ImportSet,
    pub span: Span,
}

/// Where a datum stands; without a span at the start of the file.
pub fn datum_place(file: &Symbol, datum: &Datum) -> Result<Span, Memory>
    ensures { IfOk result (λ s. s ≡ datum_place file.now datum.now) }
{
    match datum.span() {
        Some(span) => span.share(),
        None => start(file),
    }
}

/// The start of a file.
pub fn start(file: &Symbol) -> Result<Span, Memory>
    ensures { IfOk result (λ s. s ≡ start file.now) }
{
    let file = file.share()?;
    Ok(Span {
        file,
        from: 0,
        to: 0,
    })
}

/// An identifier with its place.
pub(crate) fn name_at(file: &Symbol, datum: &Datum) -> Result<Option<NameAt>, Memory>
    ensures { IfOk result (λ r. r ≡ name_at file.now datum.now) }
{
    match datum.as_symbol() {
        Some(symbol) => {
            let name = symbol.share()?;
            let span = datum_place(file, datum)?;
            Ok(Some(NameAt { name, span }))
        }
        None => Ok(None),
    }
}

fn names_at(alloc: Global, file: &Symbol, items: &[Datum]) -> Result<Option<Items<NameAt>>, Memory>
    ensures { IfOk result (λ r. r ≡ names_at file.now items.now) }
{
    let mut names = Items::new(alloc);
    for item in items {
        let Some(name) = name_at(file, item)? else {
            return Ok(None);
        };
        names.push(name)?;
    }
    Ok(Some(names))
}

fn renaming(file: &Symbol, datum: &Datum) -> Result<Option<Renaming>, Memory>
    ensures { IfOk result (λ r. r ≡ renaming file.now datum.now) }
{
    match datum.as_list() {
        Some(items) => renaming_in(file, items),
        None => Ok(None),
    }
}

fn renaming_in(file: &Symbol, items: &[Datum]) -> Result<Option<Renaming>, Memory>
    ensures { IfOk result (λ r. r ≡ renaming_in file.now items.now) }
{
    let [from, to] = items else {
        return Ok(None);
    };
    let Some(from) = name_at(file, from)? else {
        return Ok(None);
    };
    let Some(to) = to.as_symbol() else {
        return Ok(None);
    };
    let to = to.share()?;
    Ok(Some(Renaming { from, to }))
}

fn renamings(
    alloc: Global,
    file: &Symbol,
    items: &[Datum],
) -> Result<Option<Items<Renaming>>, Memory>
    ensures { IfOk result (λ r. r ≡ all_of (renaming file.now) [] items.now) }
{
    let mut list = Items::new(alloc);
    for item in items {
        let Some(renaming) = renaming(file, item)? else {
            return Ok(None);
        };
        list.push(renaming)?;
    }
    Ok(Some(list))
}

fn prefix_in(items: &[Datum]) -> Result<Option<ImportStep>, Memory>
    ensures { IfOk result (λ r. r ≡ prefix_in items.now) }
{
    let [item] = items else {
        return Ok(None);
    };
    match item.as_symbol() {
        Some(symbol) => Ok(Some(ImportStep::Prefix(symbol.share()?))),
        None => Ok(None),
    }
}

// What a word with what stands behind its set does.
fn step_of(
    alloc: Global,
    file: &Symbol,
    word: StepWord,
    items: &[Datum],
) -> Result<Option<ImportStep>, Memory>
    ensures { IfOk result (λ r. r ≡ step_of file.now word items.now) }
{
    match word {
        StepWord::Only => Ok(names_at(alloc, file, items)?.map(ImportStep::Only)),
        StepWord::Except => Ok(names_at(alloc, file, items)?.map(ImportStep::Except)),
        StepWord::Prefix => prefix_in(items),
        StepWord::Rename => Ok(renamings(alloc, file, items)?.map(ImportStep::Rename)),
    }
}

// The version reference behind a name; without one that of the empty list, which each version fits.
fn version_reference(alloc: Global, items: &[Datum]) -> Result<Option<Datum>, Memory>
    ensures { IfOk result (λ r. r ≡ version_reference items.now) }
{
    match items {
        [] => {
            let node = Node::Atom(Atom::Nil);
            Ok(Some(Datum { span: None, node }))
        }
        [last] => copied_if(alloc, last, is_reference(last)),
        _ => Ok(None),
    }
}

fn copied_if(alloc: Global, datum: &Datum, is_wanted: bool) -> Result<Option<Datum>, Memory>
    ensures { IfOk result (λ r. r ≡ (if is_wanted then Some datum.now else None)) }
{
    if is_wanted {
        Ok(Some(copied(alloc, datum)?))
    } else {
        Ok(None)
    }
}

// A reference to a library.
fn reference(alloc: Global, file: &Symbol, datum: &Datum) -> Result<Option<ImportSet>, Memory>
    ensures { IfOk result (λ r. r ≡ reference file.now datum.now) }
{
    let Some(items) = datum.as_list() else {
        return Ok(None);
    };
    let place = datum_place(file, datum)?;
    referred(alloc, place, items)
}

fn referred(alloc: Global, place: Span, items: &[Datum]) -> Result<Option<ImportSet>, Memory>
    ensures { IfOk result (λ r. r ≡ referred place (leading items.now) (version_reference (behind items.now))) }
{
    let parts = leading(alloc, items)?;
    if parts.as_slice().is_empty() {
        return Ok(None);
    }
    let Some(version) = version_reference(alloc, behind(items))? else {
        return Ok(None);
    };
    let library = LibName::User(parts);
    let steps = Items::new(alloc);
    Ok(Some(ImportSet {
        library,
        version,
        place,
        steps,
    }))
}

fn only_reference(
    alloc: Global,
    file: &Symbol,
    items: &[Datum],
) -> Result<Option<ImportSet>, Memory>
    ensures { IfOk result (λ r. r ≡ only_reference file.now items.now) }
{
    let [item] = items else {
        return Ok(None);
    };
    reference(alloc, file, item)
}

/// The import set that a datum is, where it is one.
#[cycle(import_set)]
fn import_set(alloc: Global, file: &Symbol, datum: &Datum) -> Result<Option<ImportSet>, Memory>
    ensures { IfOk result (λ r. r ≡ import_set file.now datum.now) }
{
    let Some(items) = datum.as_list() else {
        return Ok(None);
    };
    let Some((head, others)) = items.split_first() else {
        return Ok(None);
    };
    match set_word(head) {
        None => reference(alloc, file, datum),
        Some(SetWord::For) => Ok(None),
        Some(SetWord::Library) => only_reference(alloc, file, others),
        Some(SetWord::Step(word)) => stepped(alloc, file, word, others),
    }
}

// A set, and what a word does to its names.
#[cycle(import_set)]
fn stepped(
    alloc: Global,
    file: &Symbol,
    word: StepWord,
    items: &[Datum],
) -> Result<Option<ImportSet>, Memory>
    ensures { IfOk result (λ r. r ≡ stepped file.now word (inner_set file.now (chain items.now nil)) items.now) }
{
    let Some((inner, others)) = items.split_first() else {
        return Ok(None);
    };
    let Some(mut set) = import_set(alloc, file, inner)? else {
        return Ok(None);
    };
    let Some(step) = step_of(alloc, file, word, others)? else {
        return Ok(None);
    };
    set.steps.push(step)?;
    Ok(Some(set))
}

fn is_int(datum: &Datum) -> bool
    ensures { result ≡ is_int datum.now }
{
    int_of(datum).is_some()
}

fn is_meta(items: &[Datum]) -> bool
    ensures { result ≡ is_meta items.now }
{
    match items {
        [word, number] => is_word(word, "meta") && is_int(number),
        _ => false,
    }
}

// `run`, `expand` or `(meta N)`.
fn is_level(datum: &Datum) -> bool
    ensures { result ≡ is_level datum.now }
{
    if is_word(datum, "run") || is_word(datum, "expand") {
        return true;
    }
    match datum.as_list() {
        Some(items) => is_meta(items),
        None => false,
    }
}

fn are_levels(items: &[Datum]) -> bool
    ensures { result ≡ are_levels items.now }
{
    for item in items {
        if !is_level(item) {
            return false;
        }
    }
    true
}

fn import_of(alloc: Global, file: &Symbol, datum: &Datum) -> Result<Option<Import>, Memory>
    ensures { IfOk result (λ r. r ≡ import_of file.now datum.now) }
{
    match import_set(alloc, file, datum)? {
        Some(set) => {
            let span = datum_place(file, datum)?;
            Ok(Some(Import { set, span }))
        }
        None => Ok(None),
    }
}

// A set with the levels behind it.
fn import_for(alloc: Global, file: &Symbol, items: &[Datum]) -> Result<Option<Import>, Memory>
    ensures { IfOk result (λ r. r ≡ import_for file.now items.now) }
{
    let Some((set, levels)) = items.split_first() else {
        return Ok(None);
    };
    if are_levels(levels) {
        import_of(alloc, file, set)
    } else {
        Ok(None)
    }
}

/// What an import spec imports, where a datum is one.
pub(crate) fn import_spec(
    alloc: Global,
    file: &Symbol,
    datum: &Datum,
) -> Result<Option<Import>, Memory>
    ensures { IfOk result (λ r. r ≡ import_spec file.now datum.now) }
{
    let Some(items) = datum.as_list() else {
        return Ok(None);
    };
    let Some((head, others)) = items.split_first() else {
        return Ok(None);
    };
    if is_word(head, "for") {
        import_for(alloc, file, others)
    } else {
        import_of(alloc, file, datum)
    }
}
