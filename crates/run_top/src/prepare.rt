//! All that is to be written, before anything is.

ghost use Rattle.std.specs.Option.{option_copied};
ghost use Rattle.std.specs.Prelude.{◌≡◌, ◌≢◌, ◌+◌, Some, Ok, IfOk, IfSome, OnOk, Err, map};
ghost use Rattle.std.specs.String.{string_bytes};
ghost use Rattle.base_data.specs.FaultLine.{fault_line};
ghost use Rattle.base_data.specs.Gives.{Gives};
ghost use Rattle.load_files.specs.Load.{load};
ghost use Rattle.base_outside.specs.Causes.{Rose};
ghost use Rattle.base_outside.specs.Contents.{Paths};
ghost use Rattle.run_library.specs.Loaded.{program_spent};
ghost use Rattle.run_prelude.specs.Prelude.{kept, prelude_spent, prelude_table};
ghost use Rattle.run_top.specs.Fuel.{job_spent, loads_spent};
ghost use Rattle.run_top.specs.Whole.{libraries, report_if, held_at, source_of, map_behind, text_behind_by, of_loaded, of_job};
ghost use Rattle.run_top.specs.Prepared.{Prepares};
ghost use Rattle.run_top.specs.declared.prepare.Unfinished.TheVariants as unfinished;

use base_data::fault::{Fault, Stop};
use base_data::fault_line::fault_line;
use base_data::items::Items;
use base_data::memory::Memory;
use base_data::symbol::Symbol;
use base_outside::Files;
use core_language::share::share_library;
use eval_prims::table::PrimTable;
use eval_stage::earlier::Earlier;
use expand_forms::tally::Tally;
use expand_standing::means::Means;
use load_files::found::{Found, Loading, Source};
use load_files::halt::LoadHalt;
use load_files::load::load;
use load_import::table::NameTable;
use load_report::report::{Fate, Told, report_text};
use run_command::job::{Job, Kind};
use run_derived::implementation::Implementation;
use run_library::loaded::{first_fault, program_links, program_text};
use run_prelude::prelude::Prelude;
use run_xref::map::binding_map;
use run_xref::text::xref_text;
use std::alloc::Global;
use std::sync::ledger::Ledger;

/// What is to be written of a program without fault.
#[derive(Drop)]
pub struct Prepared {
    /// The core text, or the binding map.
    pub text: String,
    /// The report on the libraries, where it is asked for, and else nothing.
    pub report: String,
}

/// Why there is no text.
#[derive(Drop)]
pub enum Unfinished {
    /// A fault, by its line.
    Line(String),
    /// A file couldn't be read.
    Read,
    Memory,
}

impl From<Memory> for Unfinished {
    ghost from_gives = { λ _ e. e ≡ unfinished.Memory };

    fn from(_error: Memory) -> Unfinished {
        Unfinished::Memory
    }
}

// The libraries of files, each of which was expanded.
pub(crate) fn libraries(alloc: Global, loading: &Loading) -> Result<Items<Told>, Memory>
    ensures { IfOk result (λ all. all ≡ libraries loading.now) }
{
    let mut all = Items::new(alloc);
    for place in 0..loading.done.size() {
        let Some((_, found)) = loading.done.at(place) else {
            return Err(Memory);
        };
        let library = share_library(alloc, &found.opened.form.name)?;
        let fate = Fate::Expanded;
        all.push(Told { fate, library })?;
    }
    Ok(all)
}

// The report, where it is asked for.
fn report_if(alloc: Global, report: bool, loading: &Loading) -> Result<String, Memory>
    ensures { IfOk result (λ text. string_bytes text ≡ report_if report loading.now) }
{
    if !report {
        return Ok(String::new(alloc));
    }
    let told = libraries(alloc, loading)?;
    report_text(alloc, told.as_slice())
}

// The bytes of a source, where it has a path and was there.
fn held_at<'a>(path: &Symbol, source: &'a Source) -> Option<&'a Items<u8>>
    ensures { option_copied result ≡ held_at path.now source.now }
{
    if source.path == *path {
        source.held.as_ref()
    } else {
        None
    }
}

// The bytes of a file that was read.
fn source_of<'a>(sources: &'a [Source], path: &Symbol) -> &'a [u8]
    ensures { result.now ≡ source_of sources.now path.now }
{
    for source in sources {
        if let Some(held) = held_at(path, source) {
            return held.as_slice();
        }
    }
    &[]
}

// The line of a fault, whose place is that in the file that it names.
pub(crate) fn line_of(alloc: Global, sources: &[Source], fault: &Fault) -> Result<String, Memory>
    ensures { IfOk result (λ line. string_bytes line ≡ fault_line fault.now (source_of sources.now fault.now.span.file)) }
{
    let source = source_of(sources, &fault.span.file);
    fault_line(alloc, fault, source)
}

// The codes of the procedures that are texts.
pub(crate) fn prelude<N: Ledger, L: Ledger>(
    alloc: Global,
    primitives: &PrimTable,
    tally: &mut Tally<N, L>,
) -> Result<Prelude, Memory>
    ensures table { IfOk result (λ p. kept p ≡ prelude_table) }
    ensures fuel { OnOk result (tally.new.fuel ≡ tally.old.fuel + prelude_spent) }
{
    let earlier = Earlier {
        records: &[],
        needs: &[],
    };
    let means = Means {
        earlier,
        prims: primitives,
    };
    Prelude::new(alloc, &means, tally)
}

// What was loaded, what is to be written of it, and whether a report on it is asked for.
#[derive(Drop)]
struct LoadedFiles {
    loading: Loading,
    kind: Kind,
    report: bool,
}

// What is to be written of a program, and what is loaded of it.
#[derive(Drop)]
struct Unwritten {
    kind: Kind,
    found: Found,
    done: NameTable<Found>,
}

// The binding map of a program and its libraries.
fn map_text<N: Ledger, L: Ledger>(
    alloc: Global,
    implementation: &Implementation,
    unwritten: Unwritten,
    sources: &[Source],
    tally: &mut Tally<N, L>,
) -> Result<String, Stop>
    ensures text { Gives string_bytes result (map_behind (kept implementation.now.prelude) unwritten.done unwritten.found sources.now) }
    ensures fuel { OnOk result (tally.new.fuel ≡ tally.old.fuel + program_spent (kept implementation.now.prelude) unwritten.done unwritten.found) }
{
    let Unwritten { found, done, .. } = unwritten;
    let links = program_links(alloc, implementation, found, done, tally)?;
    let map = binding_map(alloc, links.as_slice())?;
    Ok(xref_text(alloc, map.as_slice(), sources)?)
}

// What is written of a program: its core text, or its binding map.
fn text_by<N: Ledger, L: Ledger>(
    alloc: Global,
    implementation: &Implementation,
    unwritten: Unwritten,
    sources: &[Source],
    tally: &mut Tally<N, L>,
) -> Result<String, Stop>
    ensures text { Gives string_bytes result (text_behind_by unwritten.kind (kept implementation.now.prelude) unwritten.done unwritten.found sources.now) }
    ensures fuel { OnOk result (tally.new.fuel ≡ tally.old.fuel + program_spent (kept implementation.now.prelude) unwritten.done unwritten.found) }
{
    match unwritten.kind {
        Kind::Core => {
            let Unwritten { found, done, .. } = unwritten;
            program_text(alloc, implementation, found, done, tally)
        }
        Kind::Xref => map_text(alloc, implementation, unwritten, sources, tally),
    }
}

// What comes of a program that was loaded.
fn of_found<N: Ledger, L: Ledger>(
    alloc: Global,
    implementation: &Implementation,
    loaded: LoadedFiles,
    found: Found,
    tally: &mut Tally<N, L>,
) -> Result<Prepared, Unfinished>
    requires { kept implementation.now.prelude ≡ prelude_table }
    ensures gives { Prepares result (of_loaded loaded.kind loaded.report (Ok (found, loaded.loading))) }
    ensures unread { result ≢ Err Unfinished.Read }
    ensures fuel { OnOk result (tally.new.fuel ≡ tally.old.fuel + loads_spent prelude_table (Ok (found, loaded.loading))) }
{
    let LoadedFiles {
        loading,
        kind,
        report,
    } = loaded;
    let report = report_if(alloc, report, &loading)?;
    let Loading { done, sources, .. } = loading;
    let unwritten = Unwritten { kind, found, done };
    match text_by(alloc, implementation, unwritten, sources.as_slice(), tally) {
        Ok(text) => Ok(Prepared { text, report }),
        Err(Stop::Fault(fault)) => Err(Unfinished::Line(line_of(
            alloc,
            sources.as_slice(),
            &fault,
        )?)),
        Err(Stop::Memory) => Err(Unfinished::Memory),
    }
}

// What comes of a fault that ended loading.
fn of_fault<N: Ledger, L: Ledger>(
    alloc: Global,
    implementation: &Implementation,
    loaded: LoadedFiles,
    fault: Fault,
    tally: &mut Tally<N, L>,
) -> Result<Prepared, Unfinished>
    requires { kept implementation.now.prelude ≡ prelude_table }
    ensures gives { Prepares result (of_loaded loaded.kind loaded.report (Err (loaded.loading, fault))) }
    ensures unread { result ≢ Err Unfinished.Read }
    ensures fuel { OnOk result (tally.new.fuel ≡ tally.old.fuel + loads_spent prelude_table (Err (loaded.loading, fault))) }
{
    let LoadedFiles { loading, .. } = loaded;
    let Loading { done, sources, .. } = loading;
    match first_fault(alloc, implementation, done, fault, tally) {
        Stop::Fault(fault) => Err(Unfinished::Line(line_of(alloc, sources.as_slice(), &fault)?)),
        Stop::Memory => Err(Unfinished::Memory),
    }
}

// What comes of a job, once the texts of procedures are expanded.
#[tactic(auto, unfolding(crate::specs::Whole::of_job))]
fn of_job<F: Files, N: Ledger, L: Ledger>(
    alloc: Global,
    implementation: &Implementation,
    job: &Job,
    files: &mut F,
    tally: &mut Tally<N, L>,
) -> Result<Prepared, Unfinished>
    requires { kept implementation.now.prelude ≡ prelude_table }
    ensures gives { IfSome (F.told files.old) (λ fs. Prepares result (of_job fs job.now)) }
    ensures read { result ≡ Err Unfinished.Read → Rose (F.faults files.old) (F.faults files.new) }
    ensures fuel { IfSome (F.told files.old) (λ fs. OnOk result
        (tally.new.fuel ≡ tally.old.fuel + loads_spent prelude_table (load fs job.now.roots job.now.program))) }
{
    let mut loading = Loading::new(alloc);
    let came = load(
        alloc,
        files,
        job.roots.as_slice(),
        &job.program,
        &mut loading,
    );
    let loaded = LoadedFiles {
        loading,
        kind: job.kind,
        report: job.report,
    };
    match came {
        Ok(found) => of_found(alloc, implementation, loaded, found, tally),
        Err(LoadHalt::Fault(fault)) => of_fault(alloc, implementation, loaded, fault, tally),
        Err(LoadHalt::Read) => Err(Unfinished::Read),
        Err(LoadHalt::Memory) => Err(Unfinished::Memory),
    }
}

/// The core text or the binding map of a job's program and its report, or why there is none.
pub(crate) fn prepare<F: Files, N: Ledger, L: Ledger>(
    alloc: Global,
    job: &Job,
    files: &mut F,
    primitives: &PrimTable,
    tally: &mut Tally<N, L>,
) -> Result<Prepared, Unfinished>
    ensures gives { IfSome (F.told files.old) (λ fs. Prepares result (of_job fs job.now)) }
    ensures read { result ≡ Err Unfinished.Read → Rose (F.faults files.old) (F.faults files.new) }
    ensures fuel { IfSome (F.told files.old) (λ fs. OnOk result (tally.new.fuel ≡ tally.old.fuel + job_spent fs job.now)) }
{
    let prelude = prelude(alloc, primitives, tally)?;
    let implementation = Implementation {
        prelude,
        primitives,
    };
    of_job(alloc, &implementation, job, files, tally)
}
