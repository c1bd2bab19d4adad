//! The names that import sets give, and what they stand for.

ghost use Rattle.std.specs.Prelude.{◌≡◌, ℕ, List, [], ◌∷◌, ◌++◌, is_some, Ok, Err, IfOk, OnOk, OnErr, unwrap_or, if◌then◌else◌};
ghost use Rattle.base_data.specs.Gives.{Gives, StopsWith};
ghost use Rattle.load_import.specs.Names.{Labelled, import_names, joined, join_one, step_names, need, missing_at, conflict, only, except, is_among, has_name, prefixed, renamed, new_name, sources, pairs_of};
ghost use Rattle.load_import.specs.Table.{value_of, put_all};
ghost use Rattle.load_import.specs.Turns.{turns};
ghost use Rattle.base_data.specs.Same.{same_name};

use crate::imported::Names;
use crate::set::{ImportSet, ImportStep, NameAt, Renaming};
use crate::table::NameTable;
use base_data::fault::{Fault, FaultKind, Stop};
use base_data::imported_name::ImportedName;
use base_data::items::Items;
use base_data::memory::Memory;
use base_data::name::Label;
use base_data::span::Span;
use base_data::symbol::Symbol;
use std::alloc::Global;

pub(crate) fn taken(
    alloc: Global,
    mut names: Items<ImportedName>,
    steps: &[ImportStep],
    span: &Span,
) -> Result<Items<ImportedName>, Stop>
    ensures { Gives (λ names. names) result (turns (step_names span.now) names steps.now) }
{
    for step in steps {
        names = step_names(alloc, names.as_slice(), step, span)?;
    }
    Ok(names)
}

fn step_names(
    alloc: Global,
    names: &[ImportedName],
    step: &ImportStep,
    span: &Span,
) -> Result<Items<ImportedName>, Stop>
    ensures { Gives (λ names. names) result (step_names span.now names.now step.now) }
{
    match step {
        ImportStep::Only(ids) => only(alloc, names, ids.as_slice()),
        ImportStep::Except(ids) => except(alloc, names, ids.as_slice()),
        ImportStep::Prefix(symbol) => Ok(prefixed(alloc, names, symbol)?),
        ImportStep::Rename(renamings) => rename(alloc, names, renamings.as_slice(), span),
    }
}

#[tactic(auto, using(crate::proofs::NameLemmas::need_met, crate::proofs::NameLemmas::need_stops))]
fn only(alloc: Global, names: &[ImportedName], ids: &[NameAt]) -> Result<Items<ImportedName>, Stop>
    ensures { Gives (λ names. names) result (need names.now ids.now (Ok (only ids.now names.now))) }
{
    need(alloc, names, ids)?;
    Ok(kept(alloc, names, ids)?)
}

#[tactic(auto, using(crate::proofs::NameLemmas::need_met, crate::proofs::NameLemmas::need_stops))]
fn except(
    alloc: Global,
    names: &[ImportedName],
    ids: &[NameAt],
) -> Result<Items<ImportedName>, Stop>
    ensures { Gives (λ names. names) result (need names.now ids.now (Ok (except ids.now names.now))) }
{
    need(alloc, names, ids)?;
    Ok(left(alloc, names, ids)?)
}

#[tactic(auto, using(crate::proofs::NameLemmas::need_met, crate::proofs::NameLemmas::need_stops))]
fn rename(
    alloc: Global,
    names: &[ImportedName],
    renamings: &[Renaming],
    span: &Span,
) -> Result<Items<ImportedName>, Stop>
    ensures { Gives (λ names. names) result (need names.now (sources renamings.now) (joined span.now [] (renamed renamings.now names.now))) }
{
    let ids = sources(alloc, renamings)?;
    need(alloc, names, ids.as_slice())?;
    let names = renamed(alloc, names, renamings)?;
    joined(alloc, names.as_slice(), span)
}

// Each of the identifiers has a name that is there.
fn need(alloc: Global, names: &[ImportedName], ids: &[NameAt]) -> Result<(), Stop>
    ensures { Gives (λ u. u) result (need names.now ids.now (Ok tt)) }
{
    let table = name_table(alloc, names)?;
    need_in(alloc, &table, ids)
}

// The same, where the names are in a table.
pub(crate) fn need_in(alloc: Global, table: &Names, ids: &[NameAt]) -> Result<(), Stop>
    ensures { Gives (λ u. u) result (need table.now ids.now (Ok tt)) }
{
    for id in ids {
        if !is_name(table, &id.name) {
            return Err(missing_at(alloc, id));
        }
    }
    Ok(())
}

fn is_name(table: &Names, name: &Symbol) -> bool
    ensures { result ≡ has_name table.now name.now }
{
    table.get(name).is_some()
}

// The identifiers that are renamed.
pub(crate) fn sources(alloc: Global, renamings: &[Renaming]) -> Result<Items<NameAt>, Memory>
    ensures { IfOk result (λ ids. ids ≡ sources renamings.now) }
{
    let mut ids = Items::new(alloc);
    for renaming in renamings {
        ids.push(share_name(&renaming.from)?)?;
    }
    Ok(ids)
}

fn share_name(id: &NameAt) -> Result<NameAt, Memory>
    ensures { IfOk result (λ n. n ≡ id.now) }
{
    let name = id.name.share()?;
    let span = id.span.share()?;
    Ok(NameAt { name, span })
}

fn has_name(table: &NameTable<()>, name: &Symbol) -> bool
    ensures { result ≡ is_some (value_of name.now table.now) }
{
    table.get(name).is_some()
}

fn missing_at(alloc: Global, id: &NameAt) -> Stop
    ensures { StopsWith result (missing_at id.now) }
{
    fault_at(alloc, FaultKind::ImportNameMissing, &id.span, &id.name)
}

// A fault at a place about one name.
fn fault_at(alloc: Global, kind: FaultKind, span: &Span, name: &Symbol) -> Stop
    ensures { StopsWith result (record { kind = kind; span = span.now; words = name.now ∷ [] }) }
{
    match fault_made(alloc, kind, span, name) {
        Ok(fault) => Stop::Fault(fault),
        Err(memory) => Stop::from(memory),
    }
}

fn fault_made(alloc: Global, kind: FaultKind, span: &Span, name: &Symbol) -> Result<Fault, Memory>
    ensures { IfOk result (λ fault. fault ≡ record { kind = kind; span = span.now; words = name.now ∷ [] }) }
{
    let span = span.share()?;
    let mut words = Items::new(alloc);
    words.push(name.share()?)?;
    Ok(Fault { kind, span, words })
}

fn name_table(alloc: Global, names: &[ImportedName]) -> Result<Names, Memory>
    ensures { IfOk result (λ table. (name : List ℕ) → has_name table name ≡ has_name names.now name) }
{
    let mut table = Names::new(alloc);
    for row in names {
        table.put_first(row.share()?)?;
    }
    Ok(table)
}

fn id_table(alloc: Global, ids: &[NameAt]) -> Result<NameTable<()>, Memory>
    ensures { IfOk result (λ table. (name : List ℕ) → is_some (value_of name table) ≡ is_among ids.now name) }
{
    let mut table = NameTable::new(alloc);
    for id in ids {
        table.put_first(id.name.share()?, ())?;
    }
    Ok(table)
}

fn new_name_table(alloc: Global, renamings: &[Renaming]) -> Result<NameTable<Symbol>, Memory>
    ensures { IfOk result (λ table. (name : List ℕ) → value_of name table ≡ value_of name (pairs_of renamings.now)) }
{
    let mut table = NameTable::new(alloc);
    for renaming in renamings {
        table.put_first(renaming.from.name.share()?, renaming.to.share()?)?;
    }
    Ok(table)
}

fn add_if(rows: &mut Items<ImportedName>, row: &ImportedName, is_wanted: bool) -> Result<(), Memory>
    ensures { OnOk result (rows.new ≡ rows.old ++ (if is_wanted then row.now ∷ [] else [])) }
{
    if is_wanted {
        rows.push(row.share()?)
    } else {
        Ok(())
    }
}

// The names that are among the identifiers'.
pub(crate) fn kept(
    alloc: Global,
    names: &[ImportedName],
    ids: &[NameAt],
) -> Result<Items<ImportedName>, Memory>
    ensures { IfOk result (λ rows. rows ≡ only ids.now names.now) }
{
    let table = id_table(alloc, ids)?;
    let mut rows = Items::new(alloc);
    for row in names {
        add_if(&mut rows, row, has_name(&table, &row.name))?;
    }
    Ok(rows)
}

// The names that aren't.
pub(crate) fn left(
    alloc: Global,
    names: &[ImportedName],
    ids: &[NameAt],
) -> Result<Items<ImportedName>, Memory>
    ensures { IfOk result (λ rows. rows ≡ except ids.now names.now) }
{
    let table = id_table(alloc, ids)?;
    let mut rows = Items::new(alloc);
    for row in names {
        add_if(&mut rows, row, !has_name(&table, &row.name))?;
    }
    Ok(rows)
}

pub(crate) fn prefixed(
    alloc: Global,
    names: &[ImportedName],
    symbol: &Symbol,
) -> Result<Items<ImportedName>, Memory>
    ensures { IfOk result (λ rows. rows ≡ prefixed symbol.now names.now) }
{
    let mut rows = Items::from_vec(Vec::with_capacity(alloc, names.len())?);
    for row in names {
        let name = with_prefix(alloc, symbol, &row.name)?;
        let label = row.label.share()?;
        rows.push(ImportedName { name, label })?;
    }
    Ok(rows)
}

fn with_prefix(alloc: Global, symbol: &Symbol, name: &Symbol) -> Result<Symbol, Memory>
    ensures { IfOk result (λ s. s ≡ symbol.now ++ name.now) }
{
    let prefix = symbol.as_str();
    let name = name.as_str();
    let mut text = String::with_capacity(alloc, prefix.len() + name.len())?;
    text.push_str(prefix)?;
    text.push_str(name)?;
    Symbol::from_string(text)
}

pub(crate) fn renamed(
    alloc: Global,
    names: &[ImportedName],
    renamings: &[Renaming],
) -> Result<Items<ImportedName>, Memory>
    ensures { IfOk result (λ rows. rows ≡ renamed renamings.now names.now) }
{
    let table = new_name_table(alloc, renamings)?;
    let mut rows = Items::new(alloc);
    for row in names {
        let name = new_name(&table, &row.name)?;
        let label = row.label.share()?;
        rows.push(ImportedName { name, label })?;
    }
    Ok(rows)
}

fn new_name(table: &NameTable<Symbol>, name: &Symbol) -> Result<Symbol, Memory>
    ensures { IfOk result (λ s. s ≡ unwrap_or (value_of name.now table.now) name.now) }
{
    match table.get(name) {
        Some(to) => to.share(),
        None => name.share(),
    }
}

// Names from a list in which some may come twice.
pub(crate) fn joined(
    alloc: Global,
    names: &[ImportedName],
    span: &Span,
) -> Result<Items<ImportedName>, Stop>
    ensures { Gives (λ rows. rows) result (joined span.now [] names.now) }
{
    let all = joined_table(alloc, names, span)?;
    Ok(rows(alloc, &all)?)
}

// The same in a table.
pub(crate) fn joined_table(
    alloc: Global,
    names: &[ImportedName],
    span: &Span,
) -> Result<Names, Stop>
    ensures { Gives (λ rows. rows) result (joined span.now [] names.now) }
{
    let mut all = Names::new(alloc);
    join_each(alloc, &mut all, names, span)?;
    Ok(all)
}

/// The names of a table, in order.
pub fn rows(alloc: Global, names: &Names) -> Result<Items<ImportedName>, Memory>
    ensures { IfOk result (λ rows. rows ≡ names.now) }
{
    let mut rows = Items::new(alloc);
    for place in 0..names.size() {
        let Some((name, label)) = names.at(place) else {
            return Err(Memory);
        };
        let name = name.share()?;
        let label = label.share()?;
        rows.push(ImportedName { name, label })?;
    }
    Ok(rows)
}

fn join_each(alloc: Global, all: &mut Names, more: &[ImportedName], span: &Span) -> Result<(), Stop>
    ensures names { Gives (λ _. all.new) result (joined span.now all.old more.now) }
    ensures front { (tail : Labelled) × (all.new ≡ all.old ++ tail) }
{
    for row in more {
        join_one(alloc, all, row, span)?;
    }
    Ok(())
}

fn join_one(alloc: Global, all: &mut Names, row: &ImportedName, span: &Span) -> Result<(), Stop>
    ensures names { Gives (λ _. all.new) result (join_one span.now all.old row.now) }
    ensures front { (tail : Labelled) × (all.new ≡ all.old ++ tail) }
{
    if let Some(label) = all.get(&row.name) {
        return join_again(alloc, label, row, span);
    }
    all.put_new(row.share()?)?;
    Ok(())
}

// A name that is there already.
fn join_again(alloc: Global, label: &Label, row: &ImportedName, span: &Span) -> Result<(), Stop>
    ensures { Gives (λ u. u) result (if same_name label.now.0 row.now.label.0 then Ok tt else Err (conflict span.now row.now.name)) }
{
    if label.0 == row.label.0 {
        Ok(())
    } else {
        Err(fault_at(alloc, FaultKind::ImportConflict, span, &row.name))
    }
}

/// Adds names to those of a form. The same name for the same label may come twice; for two labels it
/// is `ImportConflict` at the set. After a refusal all is as before.
#[tactic(auto, using(crate::proofs::NameLemmas::kept_front))]
pub(crate) fn join_names(
    alloc: Global,
    all: &mut Names,
    more: &[ImportedName],
    span: &Span,
) -> Result<(), Stop>
    ensures names { Gives (λ _. all.new) result (joined span.now all.old more.now) }
    ensures err { OnErr result (all.new ≡ all.old) }
{
    let size = all.size();
    match join_each(alloc, all, more, span) {
        Ok(()) => Ok(()),
        Err(stop) => {
            all.truncate(size);
            Err(stop)
        }
    }
}
