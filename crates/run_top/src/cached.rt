//! All that is to be written of a program whose libraries are kept in a store.

ghost use Rattle.std.specs.Prelude.{◌≡◌, ◌≤◌, ◌≢◌, Err, IfOk, IfSome, slice_get};
ghost use Rattle.std.specs.String.{string_bytes};
ghost use Rattle.base_outside.specs.Causes.{Rose};
ghost use Rattle.base_outside.specs.Store.{WhereTold};
ghost use Rattle.run_prelude.specs.Prelude.{kept, prelude_table};
ghost use Rattle.run_reuse.specs.Turns.{changed};
ghost use Rattle.run_top.specs.Cached.{fate_at, told_from, report_by, PreparesText, PreparesFrom, PreparesCached};
ghost use Rattle.run_top.specs.Fuel.{ComesSpending, SpendsCached, SpendsFrom};

use crate::inputs::Inputs;
use crate::prepare::{Prepared, Unfinished, libraries, line_of, prelude};
use base_data::fault::Stop;
use base_data::items::Items;
use base_data::memory::Memory;
use base_data::symbol::Symbol;
use base_outside::{Files, Store};
use core_language::share::share_library;
use eval_prims::table::PrimTable;
use expand_forms::tally::Tally;
use load_files::found::{Loading, Source};
use load_files::halt::LoadHalt;
use load_files::load::load;
use load_report::report::{Fate, Told, report_text};
use run_command::job::Job;
use run_derived::implementation::Implementation;
use run_reuse::entry::Cache;
use run_reuse::groups::groups_of;
use run_reuse::texts::{Came, LoadedLibraries, WrittenProgram, write_program};
use run_reuse::turns::Turning;
use std::alloc::Global;
use std::sync::ledger::Ledger;

/// A job whose libraries are kept in a directory.
#[derive(Drop)]
pub struct CachedJob<'a> {
    pub alloc: Global,
    pub job: &'a Job,
    pub dir: &'a Symbol,
}

/// What loading came to for a job: a program or a fault, and what was read and loaded on the way.
#[derive(Drop)]
pub struct LoadedJob {
    pub came: Came,
    pub loading: Loading,
}

// ---- the report

fn fate_at(reused: &[bool], place: usize) -> Fate
    ensures { result ≡ fate_at (slice_get reused.now place) }
{
    if place < reused.len() && reused[place] {
        Fate::Reused
    } else {
        Fate::Expanded
    }
}

// Libraries in the order of loading, each as it was come by.
fn told_by(alloc: Global, libraries: &[Told], reused: &[bool]) -> Result<Items<Told>, Memory>
    ensures { IfOk result (λ all. all ≡ told_from reused.now 0 libraries.now) }
{
    let mut all = Items::new(alloc);
    for place in 0..libraries.len() {
        let library = share_library(alloc, &libraries[place].library)?;
        let fate = fate_at(reused, place);
        all.push(Told { fate, library })?;
    }
    Ok(all)
}

// The report, where it is asked for.
fn report_by(
    alloc: Global,
    report: bool,
    libraries: &[Told],
    reused: &[bool],
) -> Result<String, Memory>
    ensures { IfOk result (λ text. string_bytes text ≡ report_by report libraries.now reused.now) }
{
    if !report {
        return Ok(String::new(alloc));
    }
    let told = told_by(alloc, libraries, reused)?;
    report_text(alloc, told.as_slice())
}

// ---- what a job comes to

// What is told of a program and its libraries: the libraries, and the files that were read.
#[derive(Drop)]
struct Tellable<'a> {
    report: bool,
    libraries: &'a [Told],
    sources: &'a [Source],
}

// The text and the report, or the line of the fault.
fn prepared(
    alloc: Global,
    tellable: &Tellable,
    written: Result<WrittenProgram, Stop>,
) -> Result<Prepared, Unfinished>
    ensures gives { PreparesText result tellable.now.report tellable.now.libraries.now tellable.now.sources.now written }
    ensures unread { result ≢ Err Unfinished.Read }
{
    match written {
        Ok(WrittenProgram { text, reused }) => {
            let report = report_by(
                alloc,
                tellable.report,
                tellable.libraries,
                reused.as_slice(),
            )?;
            Ok(Prepared { text, report })
        }
        Err(Stop::Fault(fault)) => Err(Unfinished::Line(line_of(alloc, tellable.sources, &fault)?)),
        Err(Stop::Memory) => Err(Unfinished::Memory),
    }
}

// What comes of what was loaded.
fn of_loaded<S: Store, N: Ledger, L: Ledger>(
    cached: &CachedJob,
    implementation: &Implementation,
    loaded: LoadedJob,
    store: &mut S,
    tally: &mut Tally<N, L>,
) -> Result<Prepared, Unfinished>
    requires { kept implementation.now.prelude ≡ prelude_table }
    ensures later { S.faults store.old ≤ S.faults store.new }
    ensures gives { WhereTold (S.told store.old) (S.told store.new) (λ before after.
        PreparesFrom result cached.now.job.now cached.now.dir.now loaded (changed before (S.faults store.old) after (S.faults store.new))) }
    ensures unread { result ≢ Err Unfinished.Read }
    ensures fuel { IfOk result (λ made. WhereTold (S.told store.old) (S.told store.new) (λ before after.
        ComesSpending cached.now.job.now cached.now.dir.now loaded (changed before (S.faults store.old) after (S.faults store.new))
        (record { text = string_bytes made.text; report = string_bytes made.report; fuel_before = tally.old.fuel; fuel_after = tally.new.fuel }))) }
{
    let alloc = cached.alloc;
    let LoadedJob { came, loading } = loaded;
    let libraries = libraries(alloc, &loading)?;
    let groups = groups_of(
        alloc,
        &loading.begun,
        &loading.done,
        loading.sources.as_slice(),
    )?;
    let Loading { done, sources, .. } = loading;
    let cache = Cache {
        dir: cached.dir,
        roots: cached.job.roots.as_slice(),
        sources: sources.as_slice(),
        groups: groups.as_slice(),
    };
    let turning = Turning {
        alloc,
        implementation,
        cache: &cache,
    };
    let loaded = LoadedLibraries {
        libraries: done,
        came,
    };
    let written = write_program(&turning, loaded, store, tally);
    let tellable = Tellable {
        report: cached.job.report,
        libraries: libraries.as_slice(),
        sources: sources.as_slice(),
    };
    prepared(alloc, &tellable, written)
}

// What comes of a job, once the texts of procedures are expanded.
fn of_job<F: Files, S: Store, N: Ledger, L: Ledger>(
    cached: &CachedJob,
    implementation: &Implementation,
    inputs: &mut Inputs<F, S>,
    tally: &mut Tally<N, L>,
) -> Result<Prepared, Unfinished>
    requires { kept implementation.now.prelude ≡ prelude_table }
    ensures later { S.faults inputs.old.store ≤ S.faults inputs.new.store }
    ensures gives { IfSome (F.told inputs.old.files) (λ fs. WhereTold (S.told inputs.old.store) (S.told inputs.new.store) (λ before after.
        PreparesCached result fs cached.now.job.now cached.now.dir.now (changed before (S.faults inputs.old.store) after (S.faults inputs.new.store)))) }
    ensures read { result ≡ Err Unfinished.Read → (inputs.new.store ≡ inputs.old.store) × Rose (F.faults inputs.old.files) (F.faults inputs.new.files) }
    ensures fuel { IfSome (F.told inputs.old.files) (λ fs. IfOk result (λ made. WhereTold (S.told inputs.old.store) (S.told inputs.new.store) (λ before after.
        SpendsFrom fs cached.now.job.now cached.now.dir.now (changed before (S.faults inputs.old.store) after (S.faults inputs.new.store))
        (record { text = string_bytes made.text; report = string_bytes made.report; fuel_before = tally.old.fuel; fuel_after = tally.new.fuel })))) }
{
    let mut loading = Loading::new(cached.alloc);
    let came = load(
        cached.alloc,
        &mut inputs.files,
        cached.job.roots.as_slice(),
        &cached.job.program,
        &mut loading,
    );
    let came = match came {
        Ok(found) => Came::Program(found),
        Err(LoadHalt::Fault(fault)) => Came::Fault(fault),
        Err(LoadHalt::Read) => return Err(Unfinished::Read),
        Err(LoadHalt::Memory) => return Err(Unfinished::Memory),
    };
    of_loaded(
        cached,
        implementation,
        LoadedJob { came, loading },
        &mut inputs.store,
        tally,
    )
}

/// The core text of a job's program and its report, or why there is none. What is made of its libraries is kept in the
/// store, and what the store has of them is taken, where it was made of the sources that are read now.
pub(crate) fn prepare_cached<F: Files, S: Store, N: Ledger, L: Ledger>(
    cached: &CachedJob,
    inputs: &mut Inputs<F, S>,
    primitives: &PrimTable,
    tally: &mut Tally<N, L>,
) -> Result<Prepared, Unfinished>
    ensures later { S.faults inputs.old.store ≤ S.faults inputs.new.store }
    ensures gives { IfSome (F.told inputs.old.files) (λ fs. WhereTold (S.told inputs.old.store) (S.told inputs.new.store) (λ before after.
        PreparesCached result fs cached.now.job.now cached.now.dir.now (changed before (S.faults inputs.old.store) after (S.faults inputs.new.store)))) }
    ensures read { result ≡ Err Unfinished.Read → (inputs.new.store ≡ inputs.old.store) × Rose (F.faults inputs.old.files) (F.faults inputs.new.files) }
    ensures fuel { IfSome (F.told inputs.old.files) (λ fs. IfOk result (λ made. WhereTold (S.told inputs.old.store) (S.told inputs.new.store) (λ before after.
        SpendsCached fs cached.now.job.now cached.now.dir.now (changed before (S.faults inputs.old.store) after (S.faults inputs.new.store))
        (record { text = string_bytes made.text; report = string_bytes made.report; fuel_before = tally.old.fuel; fuel_after = tally.new.fuel })))) }
{
    let prelude = prelude(cached.alloc, primitives, tally)?;
    let implementation = Implementation {
        prelude,
        primitives,
    };
    of_job(cached, &implementation, inputs, tally)
}
