//! The record of a library or a program.

ghost use Rattle.std.specs.Prelude.{◌≡◌, ◌+◌, [], false, IfOk, OnOk, Ok, map};
ghost use Rattle.base_data.specs.Gives.{Gives, StopsWith};
ghost use Rattle.eval_code.specs.Codes as table;
ghost use Rattle.expand_forms.specs.Expanding.{ready, library_linked, library_spent};
ghost use Rattle.run_prelude.specs.Prelude.{kept};
ghost use Rattle.run_library.specs.Records.{needed_records};
ghost use Rattle.run_library.specs.Library.{at_datum, tree_at, trees_at, export_tree, body_in, body_of, expand_body, body_spent};

use crate::given::GivenNames;
use crate::imports::form_names;
use crate::records::Needed;
use base_data::datum::Datum;
use base_data::fault::{Bare, BareStop, Fault, Stop};
use base_data::imported_name::ImportedName;
use base_data::items::Items;
use base_data::library::LibName;
use base_data::memory::Memory;
use base_data::span::Span;
use base_data::symbol::Symbol;
use core_language::share::share_library;
use eval_prims::table::PrimTable;
use eval_stage::earlier::Earlier;
use expand_forms::expander::Expander;
use expand_forms::tally::Tally;
use expand_forms::top::{LibraryBody, Linked};
use expand_standing::means::Means;
use expand_standing::start::{Environment, Supplies};
use load_files::found::Opened;
use load_import::names::rows;
use load_import::set::NameAt;
use load_import::table::NameTable;
use run_derived::implementation::Implementation;
use std::alloc::Global;
use std::sync::ledger::Ledger;
use stx_object::syn::Syn;
use stx_tree::marks::Marks;

/// A library or a program that is to be expanded: its name, the names that its form imports, and its body.
#[derive(Drop)]
pub struct Unexpanded {
    pub name: LibName,
    pub imports: Items<ImportedName>,
    pub body: LibraryBody,
}

// The body, from the data of the body.
fn body_in(alloc: Global, opened: &Opened, body: &[Datum]) -> Result<LibraryBody, Stop>
    ensures { Gives (λ b. b) result (body_in opened.now.path opened.now.form body.now) }
{
    let path = opened.path.share()?;
    let version = share_version(alloc, opened.form.version.as_slice())?;
    let place = opened.form.name_span.share()?;
    let exports = export_trees(alloc, &opened.form.exports)?;
    let forms = trees_at(alloc, &opened.form.name_span, body)?;
    Ok(LibraryBody {
        path,
        version,
        place,
        exports,
        forms,
    })
}

/// The body of a library or a program and what it is expanded with, from what was read of it and the data of its body,
/// which may go then. First each library that it imports must fit, and then each name.
#[tactic(auto, unfolding(crate::specs::Library::body_of))]
pub fn body_of(
    needed: &Needed,
    given: &mut GivenNames,
    opened: &Opened,
    body: &[Datum],
) -> Result<Unexpanded, Stop>
    ensures { Gives (λ b. b) result (body_of (needed_records needed.now.records.now needed.now.marks.now) opened.now.path opened.now.form body.now) }
{
    let alloc = given.alloc();
    let names = form_names(needed, given, opened.form.imports.as_slice())?;
    let imports = rows(alloc, &names)?;
    let name = share_library(alloc, &opened.form.name)?;
    let body = body_in(alloc, opened, body)?;
    Ok(Unexpanded {
        name,
        imports,
        body,
    })
}

/// The record and the links of a library or a program, whose body goes on the way, behind the records that it needs. It
/// knows what the procedures mean that are texts.
#[tactic(auto, unfolding(crate::specs::Library::expand_body, crate::specs::Library::body_spent))]
pub fn expand_body<N: Ledger, L: Ledger>(
    alloc: Global,
    implementation: &Implementation,
    needed: &Needed,
    unexpanded: Unexpanded,
    tally: &mut Tally<N, L>,
) -> Result<Linked, Stop>
    ensures linked { Gives (λ l. l) result (expand_body (kept implementation.now.prelude)
        (needed_records needed.now.records.now needed.now.marks.now) unexpanded) }
    ensures fuel { OnOk result (tally.new.fuel ≡ tally.old.fuel + body_spent (kept implementation.now.prelude)
        (needed_records needed.now.records.now needed.now.marks.now) unexpanded) }
{
    let Some(unspent) = tally.fuel.begin() else {
        return Err(Stop::Memory);
    };
    let codes = implementation.prelude.codes(alloc)?;
    let supplies = Supplies { codes, unspent };
    let Unexpanded {
        name,
        imports,
        body,
    } = unexpanded;
    let begun = expander_behind(alloc, name, needed, imports.as_slice(), supplies)?;
    linked_behind(begun, needed, body, implementation.primitives, tally)
}

// The record and the links of a library behind the records that it needs.
fn linked_behind<N: Ledger, L: Ledger>(
    begun: Expander<L>,
    needed: &Needed,
    body: LibraryBody,
    prims: &PrimTable,
    tally: &mut Tally<N, L>,
) -> Result<Linked, Stop>
    requires { begun.failed ≡ false }
    ensures linked { Gives (λ l. l) result (library_linked begun
        (needed_records needed.now.records.now needed.now.marks.now) body) }
    ensures fuel { OnOk result (tally.new.fuel ≡ tally.old.fuel + library_spent begun
        (needed_records needed.now.records.now needed.now.marks.now) body) }
{
    let earlier = Earlier {
        records: needed.records.ready().as_slice(),
        needs: needed.marks,
    };
    let means = Means { earlier, prims };
    begun.top_linked(body, &means, tally)
}

// An expander behind the records that are marked.
fn expander_behind<L: Ledger>(
    alloc: Global,
    name: LibName,
    needed: &Needed,
    names: &[ImportedName],
    supplies: Supplies<L>,
) -> Result<Expander<L>, Stop>
    ensures given { Gives (λ e. e) result (Ok (ready name
        (needed_records needed.now.records.now needed.now.marks.now) names.now (table.seen supplies.codes.entries))) }
    ensures ok { IfOk result (λ e. e.failed ≡ false) }
{
    let ready = needed.records.ready();
    let environment = Environment {
        earlier: ready,
        needs: needed.marks,
        imports: names,
    };
    Expander::new(alloc, name, &environment, supplies)
}

fn share_version(alloc: Global, version: &[u64]) -> Result<Items<u64>, Memory>
    ensures { IfOk result (λ v. v ≡ version.now) }
{
    let mut all = Items::new(alloc);
    for number in version {
        all.push(*number)?;
    }
    Ok(all)
}

// The data of a body as syntax trees.
fn trees_at(alloc: Global, place: &Span, body: &[Datum]) -> Result<Items<Syn>, Stop>
    ensures { Gives (λ ts. ts) result (trees_at place.now [] body.now) }
{
    let mut trees = Items::new(alloc);
    for datum in body {
        let tree = tree_at(alloc, place, datum)?;
        trees.push(tree)?;
    }
    Ok(trees)
}

fn tree_at(alloc: Global, place: &Span, datum: &Datum) -> Result<Syn, Stop>
    ensures { Gives (λ t. t) result (tree_at place.now datum.now) }
{
    match Syn::of_datum(alloc, datum) {
        Ok(tree) => Ok(tree),
        Err(BareStop::Fault(bare)) => Err(at_datum(place, datum, bare)),
        Err(BareStop::Memory) => Err(Stop::Memory),
    }
}

fn at_datum(place: &Span, datum: &Datum, bare: Bare) -> Stop
    ensures { StopsWith result (at_datum place.now datum.now bare) }
{
    let span = match datum.span() {
        Some(span) => span.share(),
        None => place.share(),
    };
    match span {
        Ok(span) => Stop::Fault(Fault {
            kind: bare.kind,
            span,
            words: bare.words,
        }),
        Err(memory) => Stop::from(memory),
    }
}

// The exported identifiers, each with its external name.
fn export_trees(alloc: Global, exports: &NameTable<NameAt>) -> Result<Items<(Symbol, Syn)>, Memory>
    ensures { IfOk result (λ es. es ≡ map export_tree exports.now) }
{
    let mut trees = Items::new(alloc);
    for place in 0..exports.size() {
        let Some((external, internal)) = exports.at(place) else {
            return Err(Memory);
        };
        let tree = export_leaf(alloc, internal)?;
        trees.push((external.share()?, tree))?;
    }
    Ok(trees)
}

fn export_leaf(alloc: Global, internal: &NameAt) -> Result<Syn, Memory>
    ensures { IfOk result (λ t. t ≡ (export_tree ([], internal.now)).1) }
{
    let span = internal.span.share()?;
    let marks = Marks::new(alloc);
    Syn::whole_leaf(alloc, Some(span), &internal.name, marks, Vec::new(alloc))
}
