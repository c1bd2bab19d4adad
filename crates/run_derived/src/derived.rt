//! The record of the derived library.

ghost use Rattle.std.specs.Prelude.{◌≡◌, ◌<◌, ◌+◌, ◌^◌, length, [], false, IfOk, OnOk, Ok};
ghost use Rattle.base_data.specs.Gives.{Gives};
ghost use Rattle.load_import.specs.Names.{label_named};
ghost use Rattle.base_data.specs.declared.library.LibName.TheVariants as library;
ghost use Rattle.eval_code.specs.Codes as table;
ghost use Rattle.expand_forms.specs.Expanding.{ready, library_record, library_spent};
ghost use Rattle.run_prelude.specs.Prelude.{kept};
ghost use Rattle.run_derived.specs.Names.{start, names};
ghost use Rattle.run_derived.specs.Derived.{tree_at, trees, forms_of, derived_body, record_of, record_spent, derived_record, derived_spent, label_or, relabelled_in};

use crate::implementation::Implementation;
use crate::names::{exports, names, path, start};
use base_data::datum::Datum;
use base_data::fault::{Bare, BareStop, Fault, Stop};
use base_data::imported_name::ImportedName;
use base_data::items::Items;
use base_data::library::LibName;
use base_data::memory::Memory;
use base_data::name::Label;
use base_data::span::Span;
use base_data::symbol::Symbol;
use core_language::record::CompiledLibrary;
use eval_prims::table::PrimTable;
use eval_stage::earlier::Earlier;
use expand_forms::expander::Expander;
use expand_forms::tally::Tally;
use expand_forms::top::LibraryBody;
use expand_standing::means::Means;
use expand_standing::ready::ReadyRecords;
use expand_standing::start::{Environment, Supplies};
use load_builtin::derived::derived_source;
use read_reader::read::read_all;
use std::alloc::Global;
use std::sync::ledger::Ledger;
use stx_object::syn::Syn;

fn tree_at(alloc: Global, place: &Span, datum: &Datum) -> Result<Syn, Stop>
    requires { place.now ≡ start }
    ensures { Gives (λ t. t) result (tree_at datum.now) }
{
    match Syn::of_datum(alloc, datum) {
        Ok(tree) => Ok(tree),
        Err(BareStop::Fault(Bare { kind, words })) => Err(Stop::Fault(Fault {
            kind,
            span: place.share()?,
            words,
        })),
        Err(BareStop::Memory) => Err(Stop::Memory),
    }
}

fn trees(alloc: Global, place: &Span, found: &[Datum]) -> Result<Items<Syn>, Stop>
    requires { place.now ≡ start }
    ensures { Gives (λ ts. ts) result (trees [] found.now) }
{
    let mut done = Items::new(alloc);
    for datum in found {
        let tree = tree_at(alloc, place, datum)?;
        done.push(tree)?;
    }
    Ok(done)
}

// The forms of a text.
#[tactic(auto, unfolding(crate::specs::Derived::forms_of))]
fn forms_of(alloc: Global, place: &Span, text: &[u8]) -> Result<Items<Syn>, Stop>
    requires place { place.now ≡ start }
    requires fits { length text.now < 2 ^ 32 }
    ensures { Gives (λ ts. ts) result (forms_of text.now) }
{
    let found = read_all(alloc, &place.file, text)?;
    trees(alloc, place, &found)
}

// The body of the derived library, with these forms.
fn derived_body(alloc: Global, forms: Items<Syn>) -> Result<LibraryBody, Memory>
    ensures { IfOk result (λ body. body ≡ derived_body forms) }
{
    let path = path(alloc)?;
    let place = start(alloc)?;
    let exports = exports(alloc)?;
    Ok(LibraryBody {
        path,
        version: Items::new(alloc),
        place,
        exports,
        forms,
    })
}

// An expander behind no records.
fn expander_of<L: Ledger>(
    alloc: Global,
    names: &[ImportedName],
    supplies: Supplies<L>,
) -> Result<Expander<L>, Stop>
    ensures { Gives (λ e. e) result (Ok (ready library.Derived [] names.now (table.seen supplies.codes.entries))) }
{
    let records = ReadyRecords::new(alloc)?;
    let environment = Environment {
        earlier: &records,
        needs: &[],
        imports: names,
    };
    Expander::new(alloc, LibName::Derived, &environment, supplies)
}

// The record of a library with this body, behind no records.
fn record_by<N: Ledger, L: Ledger>(
    begun: Expander<L>,
    body: LibraryBody,
    prims: &PrimTable,
    tally: &mut Tally<N, L>,
) -> Result<CompiledLibrary, Stop>
    requires { begun.failed ≡ false }
    ensures record { Gives (λ r. r) result (library_record begun [] body) }
    ensures fuel { OnOk result (tally.new.fuel ≡ tally.old.fuel + library_spent begun [] body) }
{
    let earlier = Earlier {
        records: &[],
        needs: &[],
    };
    let means = Means { earlier, prims };
    begun.top(body, &means, tally)
}

// The record of these forms, where this is what the procedures mean that are texts.
#[tactic(auto, unfolding(crate::specs::Derived::record_of, crate::specs::Derived::record_spent))]
fn record_of<N: Ledger, L: Ledger>(
    alloc: Global,
    supplies: Supplies<L>,
    forms: Items<Syn>,
    prims: &PrimTable,
    tally: &mut Tally<N, L>,
) -> Result<CompiledLibrary, Stop>
    ensures record { Gives (λ r. r) result (record_of (table.seen supplies.codes.entries) forms) }
    ensures fuel { OnOk result (tally.new.fuel ≡ tally.old.fuel + record_spent (table.seen supplies.codes.entries) forms) }
{
    let body = derived_body(alloc, forms)?;
    let names = names(alloc)?;
    let begun = expander_of(alloc, names.as_slice(), supplies)?;
    record_by(begun, body, prims, tally)
}

/// The record of the derived library. It is expanded behind no other.
#[tactic(auto, unfolding(crate::specs::Derived::derived_record, crate::specs::Derived::derived_spent))]
pub fn derived_record<N: Ledger, L: Ledger>(
    alloc: Global,
    implementation: &Implementation,
    tally: &mut Tally<N, L>,
) -> Result<CompiledLibrary, Stop>
    ensures record { Gives (λ r. r) result (derived_record (kept implementation.now.prelude)) }
    ensures fuel { OnOk result (tally.new.fuel ≡ tally.old.fuel + derived_spent (kept implementation.now.prelude)) }
{
    let place = start(alloc)?;
    let forms = forms_of(alloc, &place, derived_source())?;
    let codes = implementation.prelude.codes(alloc)?;
    let Some(unspent) = tally.fuel.begin() else {
        return Err(Stop::Memory);
    };
    let supplies = Supplies { codes, unspent };
    record_of(alloc, supplies, forms, implementation.primitives, tally)
}

// The label under which a record exports a name, or another.
fn label_in(derived: &CompiledLibrary, name: &Symbol, label: &Label) -> Result<Label, Memory>
    ensures { IfOk result (λ l. l ≡ label_or label.now (label_named name.now derived.now.exports)) }
{
    for exported in derived.exports.as_slice() {
        if *name == exported.name {
            return exported.label.share();
        }
    }
    label.share()
}

/// A name of the implementation with what it stands for: a derived one for the label under which the record exports it.
pub fn relabelled(derived: &CompiledLibrary, given: &ImportedName) -> Result<ImportedName, Memory>
    ensures { IfOk result (λ e. e ≡ relabelled_in derived.now given.now) }
{
    if *given.label.0.library != LibName::Derived {
        return given.share();
    }
    let name = given.name.share()?;
    let label = label_in(derived, &given.name, &given.label)?;
    Ok(ImportedName { name, label })
}
