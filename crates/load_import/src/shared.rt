//! The names of a library, which many import sets of a form share.
//!
//! `(import (only (m) a) (only (m) b) (m) (except (m) c))` asks four times for names of `(m)`, which are listed once. An
//! `only` finds its names by their places, and `(m)` and `(except (m) c)` join only what no set before has joined: so
//! each costs as much as what it names.

ghost use Rattle.std.specs.Prelude.{◌≡◌, ℕ, List, [], ◌∷◌, ◌++◌, Ok, IfOk, OnOk, IfSome};
ghost use Rattle.base_data.specs.Gives.{Gives};
ghost use Rattle.load_import.specs.Names.{Labelled, need, only, except, joined, step_names, sources, renamed};
ghost use Rattle.load_import.specs.Shared.{steps_joined, IsEnough, IsEnoughIf};
ghost use Rattle.load_import.specs.declared.set.ImportStep.TheVariants as word;

use crate::found::found;
use crate::imported::Names;
use crate::names::{
    join_names, joined, joined_table, kept, left, need_in, prefixed, renamed, rows, sources, taken,
};
use crate::set::{ImportStep, NameAt, Renaming};
use crate::sources::ImportSource;
use base_data::fault::Stop;
use base_data::imported_name::ImportedName;
use base_data::items::Items;
use base_data::memory::Memory;
use base_data::span::Span;
use std::alloc::Global;
use std::marker::Model;
use std::rc::Rc;

// Names in order and by name.
#[derive(Drop)]
struct Listing {
    rows: Items<ImportedName>,
    names: Names,
}

impl Model for Listing {
    ghost use Rattle.std.specs.Prelude.{◌≡◌, List};
    ghost use Rattle.base_data.specs.declared.imported_name.ImportedName.{ImportedName};

    ghost Value = { List ImportedName };

    ghost view = { λ l. l.names };

    ghost invariant = { λ l. l.rows ≡ l.names };
}

impl Listing {
    fn rows(&self) -> &[ImportedName]
        ensures { result.now ≡ self.now }
    {
        self.rows.as_slice()
    }

    fn names(&self) -> &Names
        ensures { result.now ≡ self.now }
    {
        &self.names
    }
}

/// The names that a library exports, each once, in order and by name. The forms that import from it may share them.
#[derive(Drop)]
pub struct Exports {
    listing: Rc<Listing>,
}

impl Model for Exports {
    ghost use Rattle.std.specs.Prelude.{List};
    ghost use Rattle.base_data.specs.declared.imported_name.ImportedName.{ImportedName};

    ghost Value = { List ImportedName };

    ghost view = { λ e. e.listing.value };
}

fn listed(alloc: Global, names: Names) -> Result<Exports, Memory>
    ensures { IfOk result (λ e. e ≡ names) }
{
    let rows = rows(alloc, &names)?;
    let listing = Rc::new(alloc, Listing { rows, names })?;
    Ok(Exports { listing })
}

impl Exports {
    /// The names of a list in which some may come twice. One that stands for two labels is `ImportConflict` at a set.
    pub fn new(alloc: Global, names: &[ImportedName], span: &Span) -> Result<Exports, Stop>
        ensures { Gives (λ e. e) result (joined span.now [] names.now) }
    {
        let names = joined_table(alloc, names, span)?;
        Ok(listed(alloc, names)?)
    }

    /// Another owner of the same names.
    pub fn share(&self) -> Result<Exports, Memory>
        ensures { IfOk result (λ e. e ≡ self.now) }
    {
        let listing = self.listing.clone()?;
        Ok(Exports { listing })
    }

    /// The names in order.
    pub fn rows(&self) -> &[ImportedName]
        ensures { result.now ≡ self.now }
    {
        let listing: &Listing = &self.listing;
        listing.rows()
    }

    /// The names, to be found.
    pub fn names(&self) -> &Names
        ensures { result.now ≡ self.now }
    {
        let listing: &Listing = &self.listing;
        listing.names()
    }
}

#[tactic(auto, using(crate::proofs::NameLemmas::need_met, crate::proofs::NameLemmas::need_stops))]
fn only(alloc: Global, exports: &Exports, ids: &[NameAt]) -> Result<Items<ImportedName>, Stop>
    ensures { Gives (λ names. names) result (need exports.now ids.now (Ok (only ids.now exports.now))) }
{
    need_in(alloc, exports.names(), ids)?;
    Ok(found(alloc, exports.names(), ids)?)
}

#[tactic(auto, using(crate::proofs::NameLemmas::need_met, crate::proofs::NameLemmas::need_stops))]
fn except(alloc: Global, exports: &Exports, ids: &[NameAt]) -> Result<Items<ImportedName>, Stop>
    ensures { Gives (λ names. names) result (need exports.now ids.now (Ok (except ids.now exports.now))) }
{
    need_in(alloc, exports.names(), ids)?;
    Ok(left(alloc, exports.rows(), ids)?)
}

#[tactic(auto, using(crate::proofs::NameLemmas::need_met, crate::proofs::NameLemmas::need_stops))]
fn rename(
    alloc: Global,
    exports: &Exports,
    renamings: &[Renaming],
    span: &Span,
) -> Result<Items<ImportedName>, Stop>
    ensures { Gives (λ names. names) result (need exports.now (sources renamings.now) (joined span.now [] (renamed renamings.now exports.now))) }
{
    let ids = sources(alloc, renamings)?;
    need_in(alloc, exports.names(), ids.as_slice())?;
    let names = renamed(alloc, exports.rows(), renamings)?;
    joined(alloc, names.as_slice(), span)
}

// What the innermost word leaves of the names of a library.
fn first_names(
    alloc: Global,
    exports: &Exports,
    step: &ImportStep,
    span: &Span,
) -> Result<Items<ImportedName>, Stop>
    ensures { Gives (λ names. names) result (step_names span.now exports.now step.now) }
{
    match step {
        ImportStep::Only(ids) => only(alloc, exports, ids.as_slice()),
        ImportStep::Except(ids) => except(alloc, exports, ids.as_slice()),
        ImportStep::Prefix(symbol) => Ok(prefixed(alloc, exports.rows(), symbol)?),
        ImportStep::Rename(renamings) => rename(alloc, exports, renamings.as_slice(), span),
    }
}

// The steps of an import set that has some.
#[derive(Drop)]
struct ImportSteps<'a> {
    innermost: &'a ImportStep,
    others: &'a [ImportStep],
}

// The names that these steps leave, joined to those of a form.
#[tactic(auto, using(crate::proofs::SharedLemmas::first_stops, crate::proofs::SharedLemmas::first_gives))]
fn join_others(
    alloc: Global,
    all: &mut Names,
    exports: &Exports,
    steps: &ImportSteps,
    span: &Span,
) -> Result<(), Stop>
    ensures { Gives (λ _. all.new) result (steps_joined span.now all.old exports.now (steps.now.innermost.now ∷ steps.now.others.now)) }
{
    let names = first_names(alloc, exports, steps.innermost, span)?;
    join_taken(alloc, all, names, steps.others, span)
}

#[tactic(auto, using(crate::proofs::TurnLemmas::bind_stops, crate::proofs::TurnLemmas::bind_ok))]
fn join_taken(
    alloc: Global,
    all: &mut Names,
    names: Items<ImportedName>,
    steps: &[ImportStep],
    span: &Span,
) -> Result<(), Stop>
    ensures { Gives (λ _. all.new) result (steps_joined span.now all.old names steps.now) }
{
    let names = taken(alloc, names, steps, span)?;
    join_names(alloc, all, names.as_slice(), span)
}

// All names of a library, joined to those of a form.
fn join_whole(
    alloc: Global,
    all: &mut Names,
    source: &ImportSource,
    span: &Span,
) -> Result<Option<Items<ImportedName>>, Stop>
    requires { IsEnough all.old source.now.exports source.now.fresh }
    ensures names { Gives (λ _. all.new) result (joined span.now all.old source.now.exports) }
    ensures front { OnOk result ((tail : Labelled) × (all.new ≡ all.old ++ tail)) }
    ensures fresh { IfOk result (λ f. IsEnoughIf all.new source.now.exports f) }
{
    let fresh = source.fresh.as_slice();
    if fresh.is_empty() {
        return Ok(None);
    }
    join_names(alloc, all, fresh, span)?;
    Ok(Some(Items::new(alloc)))
}

// All but some names of a library, joined to those of a form.
fn join_but(
    alloc: Global,
    all: &mut Names,
    source: &ImportSource,
    ids: &[NameAt],
    span: &Span,
) -> Result<Option<Items<ImportedName>>, Stop>
    requires { IsEnough all.old source.now.exports source.now.fresh }
    ensures names { Gives (λ _. all.new) result (joined span.now all.old (except ids.now source.now.exports)) }
    ensures front { OnOk result ((tail : Labelled) × (all.new ≡ all.old ++ tail)) }
    ensures fresh { IfOk result (λ f. IsEnoughIf all.new source.now.exports f) }
{
    let fresh = source.fresh.as_slice();
    if fresh.is_empty() {
        return Ok(None);
    }
    let rest = kept(alloc, fresh, ids)?;
    let more = left(alloc, fresh, ids)?;
    join_names(alloc, all, more.as_slice(), span)?;
    Ok(Some(rest))
}

#[tactic(auto, using(crate::proofs::NameLemmas::need_met, crate::proofs::NameLemmas::need_stops))]
fn join_except(
    alloc: Global,
    all: &mut Names,
    source: &ImportSource,
    ids: &[NameAt],
    span: &Span,
) -> Result<Option<Items<ImportedName>>, Stop>
    requires { IsEnough all.old source.now.exports source.now.fresh }
    ensures names { Gives (λ _. all.new) result (need source.now.exports ids.now (joined span.now all.old (except ids.now source.now.exports))) }
    ensures front { OnOk result ((tail : Labelled) × (all.new ≡ all.old ++ tail)) }
    ensures fresh { IfOk result (λ f. IsEnoughIf all.new source.now.exports f) }
{
    need_in(alloc, source.exports.names(), ids)?;
    join_but(alloc, all, source, ids, span)
}

// The names that a set leaves out, where it does nothing else.
fn left_out<'a>(step: &'a ImportStep, others: &[ImportStep]) -> Option<&'a Items<NameAt>>
    ensures { IfSome result (λ ids. step.now ∷ others.now ≡ word.Except ids.now ∷ []) }
{
    match step {
        ImportStep::Except(ids) => { if others.is_empty() { Some(ids) } else { None } }
        ImportStep::Only(_) | ImportStep::Prefix(_) | ImportStep::Rename(_) => None,
    }
}

fn join_steps(
    alloc: Global,
    all: &mut Names,
    source: &ImportSource,
    steps: &ImportSteps,
    span: &Span,
) -> Result<Option<Items<ImportedName>>, Stop>
    requires { IsEnough all.old source.now.exports source.now.fresh }
    ensures names { Gives (λ _. all.new) result (steps_joined span.now all.old source.now.exports (steps.now.innermost.now ∷ steps.now.others.now)) }
    ensures front { OnOk result ((tail : Labelled) × (all.new ≡ all.old ++ tail)) }
    ensures fresh { IfOk result (λ f. IsEnoughIf all.new source.now.exports f) }
{
    if let Some(ids) = left_out(steps.innermost, steps.others) {
        return join_except(alloc, all, source, ids.as_slice(), span);
    }
    join_others(alloc, all, &source.exports, steps, span)?;
    Ok(None)
}

/// Joins the names that an import set with these steps gives of a library to those of a form. The answer is what is
/// enough of the library's names then, where that changes.
pub(crate) fn join_set(
    alloc: Global,
    all: &mut Names,
    source: &ImportSource,
    steps: &[ImportStep],
    span: &Span,
) -> Result<Option<Items<ImportedName>>, Stop>
    requires { IsEnough all.old source.now.exports source.now.fresh }
    ensures names { Gives (λ _. all.new) result (steps_joined span.now all.old source.now.exports steps.now) }
    ensures front { OnOk result ((tail : Labelled) × (all.new ≡ all.old ++ tail)) }
    ensures fresh { IfOk result (λ f. IsEnoughIf all.new source.now.exports f) }
{
    match steps.split_first() {
        None => join_whole(alloc, all, source, span),
        Some((innermost, others)) => {
            let steps = ImportSteps { innermost, others };
            join_steps(alloc, all, source, &steps, span)
        }
    }
}
