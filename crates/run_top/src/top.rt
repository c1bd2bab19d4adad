//! The top call.

ghost use Rattle.std.specs.Prelude.{◌≡◌, ◌⊎◌, [], Err, IfOk};
ghost use Rattle.std.specs.String.{string_bytes};
ghost use Rattle.base_outside.specs.Causes.{Rose};
ghost use Rattle.run_top.specs.Words.{texts};
ghost use Rattle.run_top.specs.Headline.{Reports, Finishes, Complains, Headline, Complete, LeavesFiles};
ghost use Rattle.run_top.specs.Headline.{IsCoreIfCached, SaysJob, KeepsJob, KeepsStore, read_by, storage_by, sunk_by};
ghost use Rattle.run_top.specs.Fuel.{SpendsIfDone, SpendsJob};
ghost use Rattle.run_top.specs.Prepared.{PreparesBy, Writes};

use crate::cached::{CachedJob, prepare_cached};
use crate::inputs::Inputs;
use crate::made::prepare_made;
use crate::prepare::{Prepared, Unfinished, prepare};
use crate::status::Status;
use crate::words::words_asked;
use base_outside::{Files, Sink, Store};
use eval_prims::table::PrimTable;
use expand_forms::tally::Tally;
use run_command::job::Job;
use run_command::words::Words;
use std::alloc::Global;
use std::sync::ledger::Ledger;

/// The line that is written where the words are refused.
pub const USAGE: &[u8] =
    b"usage: scheme-expand [--root DIR[:DIR]...] [--cache DIR] [--report] [--write core|xref] PROGRAM | --make N\n";

/// What a run meets outside the program.
#[derive(Drop)]
pub struct Outside<F, S, O, E> {
    /// The files that it reads, and where it keeps entries with `--cache`.
    pub inputs: Inputs<F, S>,
    /// Where it writes the core text.
    pub out: O,
    /// Where it writes the line of a fault, and the report.
    pub err: E,
}

// Puts a report on `err`.
fn tell<E: Sink>(err: &mut E, report: &[u8]) -> Status
    ensures { Reports (sunk_by E.told E.faults E.puts err.old err.new) report.now result }
{
    match err.put(report) {
        Ok(()) => Status::Done,
        Err(_) => Status::WriteFault,
    }
}

// Puts a text on `out`, and behind it a report on `err`.
fn finish<O: Sink, E: Sink>(out: &mut O, err: &mut E, text: &[u8], report: &[u8]) -> Status
    ensures { Finishes (sunk_by O.told O.faults O.puts out.old out.new)
        (sunk_by E.told E.faults E.puts err.old err.new) text.now report.now result }
{
    match out.put(text) {
        Ok(()) => tell(err, report),
        Err(_) => Status::WriteFault,
    }
}

// Puts a line on `err`, for a status.
fn complain<O: Sink, E: Sink>(out: &mut O, err: &mut E, line: &[u8], status: Status) -> Status
    ensures { Complains (sunk_by O.told O.faults O.puts out.old out.new)
        (sunk_by E.told E.faults E.puts err.old err.new) line.now status result }
{
    match err.put(line) {
        Ok(()) => status,
        Err(_) => Status::WriteFault,
    }
}

// Writes what was prepared, or the line of its fault.
fn write<O: Sink, E: Sink>(
    out: &mut O,
    err: &mut E,
    prepared: &Result<Prepared, Unfinished>,
) -> Status
    ensures { Writes prepared.now (sunk_by O.told O.faults O.puts out.old out.new)
        (sunk_by E.told E.faults E.puts err.old err.new) result }
{
    match prepared {
        Ok(made) => finish(out, err, made.text.as_bytes(), made.report.as_bytes()),
        Err(Unfinished::Line(line)) => complain(out, err, line.as_bytes(), Status::Fault),
        Err(Unfinished::Read) => Status::ReadFault,
        Err(Unfinished::Memory) => Status::Memory,
    }
}

// What comes of a job, with its cache or without one.
fn prepared<F: Files, S: Store, N: Ledger, L: Ledger>(
    alloc: Global,
    job: &Job,
    inputs: &mut Inputs<F, S>,
    primitives: &PrimTable,
    tally: &mut Tally<N, L>,
) -> Result<Prepared, Unfinished>
    requires { IsCoreIfCached job.now }
    ensures gives { PreparesBy (SaysJob (F.told inputs.old.files)
        (storage_by S.told S.faults inputs.old.store inputs.new.store)
        job.now job.now.cache) result }
    ensures store { KeepsJob (F.told inputs.old.files)
        (storage_by S.told S.faults inputs.old.store inputs.new.store)
        job.now job.now.cache (inputs.new.store ≡ inputs.old.store) }
    ensures read { result ≡ Err Unfinished.Read → Rose (F.faults inputs.old.files) (F.faults inputs.new.files) }
    ensures fuel { IfOk result (λ made. SpendsJob (F.told inputs.old.files)
        (storage_by S.told S.faults inputs.old.store inputs.new.store)
        job.now job.now.cache
        (record { text = string_bytes made.text; report = string_bytes made.report; fuel_before = tally.old.fuel; fuel_after = tally.new.fuel })) }
{
    match &job.cache {
        Some(dir) => {
            let cached = CachedJob { alloc, job, dir };
            prepare_cached(&cached, inputs, primitives, tally)
        }
        None => prepare(alloc, job, &mut inputs.files, primitives, tally),
    }
}

fn run_words<F: Files, S: Store, O: Sink, E: Sink, N: Ledger, L: Ledger>(
    alloc: Global,
    words: &[String],
    outside: &mut Outside<F, S, O, E>,
    primitives: &PrimTable,
    tally: &mut Tally<N, L>,
) -> Status
    ensures headline { Headline (record {
      files = read_by F.told F.faults outside.old.inputs.files outside.new.inputs.files;
      store = storage_by S.told S.faults outside.old.inputs.store outside.new.inputs.store;
      out = sunk_by O.told O.faults O.puts outside.old.out outside.new.out;
      err = sunk_by E.told E.faults E.puts outside.old.err outside.new.err;
    }) (texts words.now) result }
    ensures files { LeavesFiles (texts words.now) outside.old.inputs.files outside.new.inputs.files }
    ensures store { KeepsStore (F.told outside.old.inputs.files)
        (storage_by S.told S.faults outside.old.inputs.store outside.new.inputs.store)
        (texts words.now) (outside.new.inputs.store ≡ outside.old.inputs.store) }
    ensures fuel { SpendsIfDone (record {
      files = read_by F.told F.faults outside.old.inputs.files outside.new.inputs.files;
      store = storage_by S.told S.faults outside.old.inputs.store outside.new.inputs.store;
      out = sunk_by O.told O.faults O.puts outside.old.out outside.new.out;
      err = sunk_by E.told E.faults E.puts outside.old.err outside.new.err;
    }) (texts words.now) tally.old.fuel tally.new.fuel result }
{
    let Outside { inputs, out, err } = outside;
    match words_asked(alloc, words) {
        Ok(Words::Expand(job)) => {
            let prepared = prepared(alloc, &job, inputs, primitives, tally);
            write(out, err, &prepared)
        }
        Ok(Words::Make(count)) => {
            let prepared = prepare_made(alloc, count, primitives, tally);
            write(out, err, &prepared)
        }
        Ok(Words::Usage) => complain(out, err, USAGE, Status::Usage),
        Err(_) => Status::Memory,
    }
}

/// All that the program does: it reads the program that the words name, and writes its core text or its binding map
/// on `out` and after it, where it is asked for, the report on `err`; or the line of its first fault on `err`. With
/// `--make` it reads no file, and writes one line on what came of libraries made in memory. All text is made
/// before the first write: `out` gets at most one put, and `err` at most one behind it.
/// With `--cache` it takes the records of libraries from the store, where they were made of the sources that it reads, and
/// puts there those that it makes; without it the store is left as it was.
/// `primitives` computes those that transformers call. `tally` counts the nodes that changes of syntax trees make, and the
/// fuel that evaluations spend: with status 0 it has risen by just that of the expansions of the derived library, of
/// each library that isn't reused, and of the program, behind that of the texts of procedures.
pub fn run<F: Files, S: Store, O: Sink, E: Sink, N: Ledger, L: Ledger>(
    alloc: Global,
    words: &[String],
    outside: &mut Outside<F, S, O, E>,
    primitives: &PrimTable,
    tally: &mut Tally<N, L>,
) -> Status
    ensures headline { Headline (record {
      files = read_by F.told F.faults outside.old.inputs.files outside.new.inputs.files;
      store = storage_by S.told S.faults outside.old.inputs.store outside.new.inputs.store;
      out = sunk_by O.told O.faults O.puts outside.old.out outside.new.out;
      err = sunk_by E.told E.faults E.puts outside.old.err outside.new.err;
    }) (texts words.now) result }
    ensures complete { Complete (F.told outside.old.inputs.files) (texts words.now)
        (Rose (F.faults outside.old.inputs.files) (F.faults outside.new.inputs.files)
        ⊎ (Rose (O.faults outside.old.out) (O.faults outside.new.out) ⊎ Rose (E.faults outside.old.err) (E.faults outside.new.err))) result }
    ensures files { LeavesFiles (texts words.now) outside.old.inputs.files outside.new.inputs.files }
    ensures store { KeepsStore (F.told outside.old.inputs.files)
        (storage_by S.told S.faults outside.old.inputs.store outside.new.inputs.store)
        (texts words.now) (outside.new.inputs.store ≡ outside.old.inputs.store) }
    ensures fuel { SpendsIfDone (record {
      files = read_by F.told F.faults outside.old.inputs.files outside.new.inputs.files;
      store = storage_by S.told S.faults outside.old.inputs.store outside.new.inputs.store;
      out = sunk_by O.told O.faults O.puts outside.old.out outside.new.out;
      err = sunk_by E.told E.faults E.puts outside.old.err outside.new.err;
    }) (texts words.now) tally.old.fuel tally.new.fuel result }
{
    run_words(alloc, words, outside, primitives, tally)
}
