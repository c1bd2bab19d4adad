//! The record of a library or a program, and the core text of a program, behind the records so far.

ghost use Rattle.std.specs.Prelude.{◌≡◌, ◌+◌, ◌∷◌, true, IfOk, OnOk};
ghost use Rattle.std.specs.String.{string_bytes};
ghost use Rattle.base_data.specs.Gives.{Gives};
ghost use Rattle.load_forms.specs.Form.{program_body};
ghost use Rattle.run_library.specs.Loaded.{expand_found, link_found, planned_text, found_spent};
ghost use Rattle.run_prelude.specs.Prelude.{kept};
ghost use Rattle.run_reuse.specs.Expansion.{body_in, text_after};

use base_data::datum::Datum;
use base_data::fault::Stop;
use base_data::items::Items;
use base_data::memory::Memory;
use core_language::record::CompiledLibrary;
use core_output::whole::core_text;
use core_pattern_bytes::held::HeldReading;
use core_plan::planned::planned;
use expand_forms::tally::Tally;
use expand_forms::top::Linked;
use load_files::found::Found;
use load_forms::form::{library_body, program_body};
use run_derived::implementation::Implementation;
use run_library::given::GivenNames;
use run_library::library::{body_of, expand_body};
use run_library::records::{Needed, Records};
use std::alloc::Global;
use std::sync::ledger::Ledger;

/// What a file holds.
#[derive(Clone, Copy)]
pub enum File {
    Library,
    Program,
}

/// The marks of the libraries that are needed, behind that of the derived library, which all need.
pub(crate) fn with_derived(alloc: Global, needs: &[bool]) -> Result<Items<bool>, Memory>
    ensures { IfOk result (λ ms. ms ≡ true ∷ needs.now) }
{
    let mut all = Vec::new(alloc);
    all.push(true)?;
    all.extend_from_slice(needs)?;
    Ok(Items::from_vec(all))
}

// The data of its body.
fn body_in(file: File, data: &[Datum]) -> &[Datum]
    ensures { result.now ≡ body_in file «data».now }
{
    match file {
        File::Library => library_body(data),
        File::Program => program_body(data),
    }
}

/// What an expansion is given: the implementation, and the records so far.
#[derive(Drop)]
pub struct ExpansionInputs<'a> {
    pub alloc: Global,
    pub implementation: &'a Implementation<'a>,
    pub records: &'a Records,
}

// The record and the links of what a file holds, behind the records that it needs. Its data go once they are syntax
// objects.
fn linked<N: Ledger, L: Ledger>(
    behind: &ExpansionInputs,
    file: File,
    found: Found,
    tally: &mut Tally<N, L>,
) -> Result<Linked, Stop>
    ensures linked { Gives (λ l. l) result (link_found (kept behind.now.implementation.now.prelude) behind.now.records.now found
        (body_in file found.opened.«data»)) }
    ensures fuel { OnOk result (tally.new.fuel ≡ tally.old.fuel + found_spent (kept behind.now.implementation.now.prelude) behind.now.records.now found
        (body_in file found.opened.«data»)) }
{
    let alloc = behind.alloc;
    let marks = with_derived(alloc, found.needs.as_slice())?;
    let needed = Needed {
        records: behind.records,
        marks: marks.as_slice(),
    };
    let data = body_in(file, found.opened.data.as_slice());
    let mut given = GivenNames::new(alloc);
    let unexpanded = body_of(&needed, &mut given, &found.opened, data)?;
    drop(found);
    expand_body(alloc, behind.implementation, &needed, unexpanded, tally)
}

// The record of an expansion, without its links.
fn without_links(linked: Linked) -> CompiledLibrary
    ensures { result ≡ linked.library }
{
    let Linked { library, .. } = linked;
    library
}

/// The record of what a file holds, behind those that it needs.
pub(crate) fn record_of<N: Ledger, L: Ledger>(
    behind: &ExpansionInputs,
    file: File,
    found: Found,
    tally: &mut Tally<N, L>,
) -> Result<CompiledLibrary, Stop>
    ensures record { Gives (λ r. r) result (expand_found (kept behind.now.implementation.now.prelude) behind.now.records.now found
        (body_in file found.opened.«data»)) }
    ensures fuel { OnOk result (tally.new.fuel ≡ tally.old.fuel + found_spent (kept behind.now.implementation.now.prelude) behind.now.records.now found
        (body_in file found.opened.«data»)) }
{
    let linked = linked(behind, file, found, tally)?;
    Ok(without_links(linked))
}

// A program, with the libraries that it needs when it runs before it.
fn planned_text(
    alloc: Global,
    records: &[CompiledLibrary],
    program: &CompiledLibrary,
) -> Result<String, Stop>
    ensures { Gives string_bytes result (planned_text records.now program.now) }
{
    let plan = planned(alloc, records, program)?;
    core_text(alloc, records, &plan, program)
}

/// The core text of a program behind these records, or its first fault. The data of its file go once they are syntax
/// objects.
pub(crate) fn text_after<N: Ledger, L: Ledger>(
    alloc: Global,
    implementation: &Implementation,
    records: Records,
    found: Found,
    tally: &mut Tally<N, L>,
) -> Result<String, Stop>
    ensures text { Gives string_bytes result (text_after (kept implementation.now.prelude) records found) }
    ensures fuel { OnOk result (tally.new.fuel ≡ tally.old.fuel + found_spent (kept implementation.now.prelude) records found
        (program_body found.opened.«data»)) }
{
    let records = HeldReading::new(records);
    let behind = ExpansionInputs {
        alloc,
        implementation,
        records: &records.value,
    };
    let program = record_of(&behind, File::Program, found, tally)?;
    let records = HeldReading::new(records.take().into_records());
    planned_text(alloc, &records.value, &program)
}
