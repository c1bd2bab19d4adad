//! The records of loaded libraries, the core text of a program, and the links of all.

ghost use Rattle.std.specs.Prelude.{◌≡◌, ◌+◌, ◌∷◌, ◌++◌, [], true, map, IfOk, OnOk, Ok, Err};
ghost use Rattle.std.specs.String.{string_bytes};
ghost use Rattle.base_data.specs.Gives.{Gives, Stops};
ghost use Rattle.run_derived.specs.Derived.{derived_spent};
ghost use Rattle.run_prelude.specs.Prelude.{kept};
ghost use Rattle.load_import.specs.Turns.{turns};
ghost use Rattle.load_forms.specs.Form.{library_body, program_body};
ghost use Rattle.run_library.specs.Loaded.{expand_found, expand_next, all_records, planned_text, text_behind, fault_behind, link_found, link_next, with_linked, derived_linked, all_linked, links_behind, found_spent, each_spent, all_spent, program_spent};

use crate::given::GivenNames;
use crate::library::{body_of, expand_body};
use crate::records::{Needed, Records};
use base_data::fault::{Fault, Stop};
use base_data::items::Items;
use base_data::memory::Memory;
use core_language::link::Link;
use core_language::record::CompiledLibrary;
use core_output::whole::core_text;
use core_plan::planned::planned;
use expand_forms::tally::Tally;
use expand_forms::top::Linked;
use load_files::found::Found;
use load_forms::form::{library_body, program_body};
use load_import::table::NameTable;
use run_derived::derived::derived_record;
use run_derived::implementation::Implementation;
use std::alloc::Global;
use std::mem::forget;
use std::sync::ledger::Ledger;

// The marks of the libraries that are needed, behind that of the derived library, which all need.
fn with_derived(alloc: Global, needs: &[bool]) -> Result<Items<bool>, Memory>
    ensures { IfOk result (λ ms. ms ≡ true ∷ needs.now) }
{
    let mut all = Items::new(alloc);
    all.push(true)?;
    for mark in needs {
        all.push(*mark)?;
    }
    Ok(all)
}

fn expand_next<N: Ledger, L: Ledger>(
    implementation: &Implementation,
    given: &mut GivenNames,
    records: &mut Records,
    found: Found,
    tally: &mut Tally<N, L>,
) -> Result<(), Stop>
    ensures records { Gives (λ _. records.new) result (expand_next (kept implementation.now.prelude) records.old ([], found)) }
    ensures fuel { OnOk result (tally.new.fuel ≡ tally.old.fuel + found_spent (kept implementation.now.prelude) records.old found
        (library_body found.opened.«data»)) }
{
    let record = record_of_one(implementation, given, records, found, tally)?;
    records.push(given.alloc(), record)?;
    Ok(())
}

// The record of an expansion, without its links.
fn without_links(linked: Linked) -> CompiledLibrary
    ensures { result ≡ linked.library }
{
    let Linked { library, .. } = linked;
    library
}

// The links of an expansion, without its record.
fn links_of(linked: Linked) -> Items<Link>
    ensures { result ≡ linked.links }
{
    let Linked { links, .. } = linked;
    links
}

// The record of a library alone.
fn record_of_one<N: Ledger, L: Ledger>(
    implementation: &Implementation,
    given: &mut GivenNames,
    records: &Records,
    found: Found,
    tally: &mut Tally<N, L>,
) -> Result<CompiledLibrary, Stop>
    ensures record { Gives (λ r. r) result (expand_found (kept implementation.now.prelude) records.now found (library_body found.opened.«data»)) }
    ensures fuel { OnOk result (tally.new.fuel ≡ tally.old.fuel + found_spent (kept implementation.now.prelude) records.now found
        (library_body found.opened.«data»)) }
{
    let linked = expand_one(implementation, given, records, found, tally)?;
    Ok(without_links(linked))
}

// The record and the links of a library behind the records that it needs. Its data go once they are syntax objects.
fn expand_one<N: Ledger, L: Ledger>(
    implementation: &Implementation,
    given: &mut GivenNames,
    records: &Records,
    found: Found,
    tally: &mut Tally<N, L>,
) -> Result<Linked, Stop>
    ensures linked { Gives (λ l. l) result (link_found (kept implementation.now.prelude) records.now found (library_body found.opened.«data»)) }
    ensures fuel { OnOk result (tally.new.fuel ≡ tally.old.fuel + found_spent (kept implementation.now.prelude) records.now found
        (library_body found.opened.«data»)) }
{
    let alloc = given.alloc();
    let marks = with_derived(alloc, found.needs.as_slice())?;
    let needed = Needed {
        records,
        marks: marks.as_slice(),
    };
    let data = library_body(found.opened.data.as_slice());
    let unexpanded = body_of(&needed, given, &found.opened, data)?;
    drop(found);
    expand_body(alloc, implementation, &needed, unexpanded, tally)
}

// The record and the links of a program behind the records that it needs. Its data go once they are syntax objects.
fn expand_program<N: Ledger, L: Ledger>(
    implementation: &Implementation,
    given: &mut GivenNames,
    records: &Records,
    found: Found,
    tally: &mut Tally<N, L>,
) -> Result<Linked, Stop>
    ensures linked { Gives (λ l. l) result (link_found (kept implementation.now.prelude) records.now found (program_body found.opened.«data»)) }
    ensures fuel { OnOk result (tally.new.fuel ≡ tally.old.fuel + found_spent (kept implementation.now.prelude) records.now found
        (program_body found.opened.«data»)) }
{
    let alloc = given.alloc();
    let marks = with_derived(alloc, found.needs.as_slice())?;
    let needed = Needed {
        records,
        marks: marks.as_slice(),
    };
    let data = program_body(found.opened.data.as_slice());
    let unexpanded = body_of(&needed, given, &found.opened, data)?;
    drop(found);
    expand_body(alloc, implementation, &needed, unexpanded, tally)
}

// The record of a program alone.
fn record_of_program<N: Ledger, L: Ledger>(
    implementation: &Implementation,
    given: &mut GivenNames,
    records: &Records,
    found: Found,
    tally: &mut Tally<N, L>,
) -> Result<CompiledLibrary, Stop>
    ensures record { Gives (λ r. r) result (expand_found (kept implementation.now.prelude) records.now found (program_body found.opened.«data»)) }
    ensures fuel { OnOk result (tally.new.fuel ≡ tally.old.fuel + found_spent (kept implementation.now.prelude) records.now found
        (program_body found.opened.«data»)) }
{
    let linked = expand_program(implementation, given, records, found, tally)?;
    Ok(without_links(linked))
}

// Records, and behind them those of libraries in the order of loading.
#[tactic(auto, using(crate::proofs::LoadedLemmas::by_value))]
fn records_behind<N: Ledger, L: Ledger>(
    implementation: &Implementation,
    given: &mut GivenNames,
    records: Records,
    libraries: NameTable<Found>,
    tally: &mut Tally<N, L>,
) -> Result<Records, Stop>
    ensures records { Gives (λ rs. rs) result (turns (expand_next (kept implementation.now.prelude)) records libraries) }
    ensures fuel { OnOk result (tally.new.fuel ≡ tally.old.fuel + each_spent (kept implementation.now.prelude) records (map (λ row. row.1) libraries)) }
{
    let mut records = records;
    for found in libraries.into_values() {
        expand_next(implementation, given, &mut records, found, tally)?;
    }
    Ok(records)
}

// The record of the derived library, and behind it those of the others.
fn all_records<N: Ledger, L: Ledger>(
    implementation: &Implementation,
    given: &mut GivenNames,
    libraries: NameTable<Found>,
    tally: &mut Tally<N, L>,
) -> Result<Records, Stop>
    ensures records { Gives (λ rs. rs) result (all_records (kept implementation.now.prelude) libraries) }
    ensures fuel { OnOk result (tally.new.fuel ≡ tally.old.fuel + all_spent (kept implementation.now.prelude) (map (λ row. row.1) libraries)) }
{
    let alloc = given.alloc();
    let derived = derived_record(alloc, implementation, tally)?;
    let records = Records::of_one(alloc, derived)?;
    records_behind(implementation, given, records, libraries, tally)
}

// A program, with the libraries that it needs when it runs before it.
fn planned_text(
    alloc: Global,
    records: &[CompiledLibrary],
    program: &CompiledLibrary,
) -> Result<String, Stop>
    ensures { Gives string_bytes result (planned_text records.now program.now) }
{
    let plan = planned(alloc, records, program)?;
    core_text(alloc, records, &plan, program)
}

/// The core text of a program behind the libraries that were loaded before it, or the first fault of a library or of the
/// program. The data of each file go once they are syntax objects.
#[tactic(auto, unfolding(crate::specs::Loaded::text_behind, crate::specs::Loaded::program_spent))]
pub fn program_text<N: Ledger, L: Ledger>(
    alloc: Global,
    implementation: &Implementation,
    found: Found,
    libraries: NameTable<Found>,
    tally: &mut Tally<N, L>,
) -> Result<String, Stop>
    ensures text { Gives string_bytes result (text_behind (kept implementation.now.prelude) libraries found) }
    ensures fuel { OnOk result (tally.new.fuel ≡ tally.old.fuel + program_spent (kept implementation.now.prelude) libraries found) }
{
    let mut given = GivenNames::new(alloc);
    let records = all_records(implementation, &mut given, libraries, tally)?;
    let program = record_of_program(implementation, &mut given, &records, found, tally)?;
    let records = records.into_records();
    let text = planned_text(alloc, &records, &program);
    // A run ends with its text. To free the records, node after node, would take some hundredths of it.
    forget(records);
    forget(program);
    text
}

/// The first fault where loading stopped: that of a library before, or this one.
#[tactic(auto, unfolding(crate::specs::Loaded::fault_behind))]
pub fn first_fault<N: Ledger, L: Ledger>(
    alloc: Global,
    implementation: &Implementation,
    libraries: NameTable<Found>,
    fault: Fault,
    tally: &mut Tally<N, L>,
) -> Stop
    ensures { Stops result (fault_behind (kept implementation.now.prelude) libraries fault) }
{
    let mut given = GivenNames::new(alloc);
    match all_records(implementation, &mut given, libraries, tally) {
        Ok(_) => Stop::Fault(fault),
        Err(stop) => stop,
    }
}

/// Records so far, and the links of their expansions.
#[derive(Drop)]
pub struct Gathered {
    pub records: Records,
    pub links: Items<Link>,
}

// The links that were gathered, without the records.
fn gathered_links(all: Gathered) -> Items<Link>
    ensures { result ≡ all.links }
{
    let Gathered { links, .. } = all;
    links
}

// Adds links at the end.
fn append(all: &mut Items<Link>, links: Items<Link>) -> Result<(), Memory>
    ensures { OnOk result (all.new ≡ all.old ++ links) }
{
    for link in links.into_vec() {
        all.push(link)?;
    }
    Ok(())
}

fn gather(alloc: Global, all: &mut Gathered, linked: Linked) -> Result<(), Memory>
    ensures { OnOk result (all.new ≡ with_linked all.old linked) }
{
    let Linked { library, links } = linked;
    all.records.push(alloc, library)?;
    append(&mut all.links, links)
}

fn link_next<N: Ledger, L: Ledger>(
    implementation: &Implementation,
    given: &mut GivenNames,
    all: &mut Gathered,
    found: Found,
    tally: &mut Tally<N, L>,
) -> Result<(), Stop>
    ensures linked { Gives (λ _. all.new) result (link_next (kept implementation.now.prelude) all.old ([], found)) }
    ensures fuel { OnOk result (tally.new.fuel ≡ tally.old.fuel + found_spent (kept implementation.now.prelude) all.old.records found
        (library_body found.opened.«data»)) }
{
    let linked = expand_one(implementation, given, &all.records, found, tally)?;
    gather(given.alloc(), all, linked)?;
    Ok(())
}

// The record of the derived library, without links.
fn derived_alone<N: Ledger, L: Ledger>(
    alloc: Global,
    implementation: &Implementation,
    tally: &mut Tally<N, L>,
) -> Result<Gathered, Stop>
    ensures linked { Gives (λ all. all) result (derived_linked (kept implementation.now.prelude)) }
    ensures fuel { OnOk result (tally.new.fuel ≡ tally.old.fuel + derived_spent (kept implementation.now.prelude)) }
{
    let derived = derived_record(alloc, implementation, tally)?;
    let records = Records::of_one(alloc, derived)?;
    let links = Items::new(alloc);
    Ok(Gathered { records, links })
}

// Those of the derived library, and behind them those of the others, in the order of loading.
#[tactic(auto, using(crate::proofs::LinkLemmas::by_value))]
fn linked_behind<N: Ledger, L: Ledger>(
    implementation: &Implementation,
    given: &mut GivenNames,
    all: Gathered,
    libraries: NameTable<Found>,
    tally: &mut Tally<N, L>,
) -> Result<Gathered, Stop>
    ensures linked { Gives (λ all. all) result (turns (link_next (kept implementation.now.prelude)) all libraries) }
    ensures fuel { OnOk result (tally.new.fuel ≡ tally.old.fuel + each_spent (kept implementation.now.prelude) all.records (map (λ row. row.1) libraries)) }
{
    let mut all = all;
    for found in libraries.into_values() {
        link_next(implementation, given, &mut all, found, tally)?;
    }
    Ok(all)
}

fn all_linked<N: Ledger, L: Ledger>(
    implementation: &Implementation,
    given: &mut GivenNames,
    libraries: NameTable<Found>,
    tally: &mut Tally<N, L>,
) -> Result<Gathered, Stop>
    ensures linked { Gives (λ all. all) result (all_linked (kept implementation.now.prelude) libraries) }
    ensures fuel { OnOk result (tally.new.fuel ≡ tally.old.fuel + all_spent (kept implementation.now.prelude) (map (λ row. row.1) libraries)) }
{
    let derived = derived_alone(given.alloc(), implementation, tally)?;
    linked_behind(implementation, given, derived, libraries, tally)
}

// The links behind a program, with the names of given libraries as they are listed so far.
#[tactic(auto, unfolding(crate::specs::Loaded::links_behind, crate::specs::Loaded::program_spent))]
fn links_of_program<N: Ledger, L: Ledger>(
    implementation: &Implementation,
    given: &mut GivenNames,
    found: Found,
    libraries: NameTable<Found>,
    tally: &mut Tally<N, L>,
) -> Result<Items<Link>, Stop>
    ensures links { Gives (λ ls. ls) result (links_behind (kept implementation.now.prelude) libraries found) }
    ensures fuel { OnOk result (tally.new.fuel ≡ tally.old.fuel + program_spent (kept implementation.now.prelude) libraries found) }
{
    let mut all = all_linked(implementation, given, libraries, tally)?;
    let linked = expand_program(implementation, given, &all.records, found, tally)?;
    append(&mut all.links, links_of(linked))?;
    Ok(gathered_links(all))
}

/// The links of the libraries that were loaded before a program, in the order of loading, and then those of the program;
/// or the first fault of a library or of the program. Of the derived library and the prelude there are none.
pub fn program_links<N: Ledger, L: Ledger>(
    alloc: Global,
    implementation: &Implementation,
    found: Found,
    libraries: NameTable<Found>,
    tally: &mut Tally<N, L>,
) -> Result<Items<Link>, Stop>
    ensures links { Gives (λ ls. ls) result (links_behind (kept implementation.now.prelude) libraries found) }
    ensures fuel { OnOk result (tally.new.fuel ≡ tally.old.fuel + program_spent (kept implementation.now.prelude) libraries found) }
{
    let mut given = GivenNames::new(alloc);
    links_of_program(implementation, &mut given, found, libraries, tally)
}
