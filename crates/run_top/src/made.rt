//! The expansion of libraries that are made in memory.

ghost use Rattle.std.specs.Prelude.{◌≡◌, ◌≢◌, ◌≤◌, ◌+◌, [], Some, Ok, Err, IfOk, OnOk, ℕ};
ghost use Rattle.run_make.specs.Made.{made_files};
ghost use Rattle.base_outside.specs.Causes.{Rose};
ghost use Rattle.base_outside.specs.Contents.{Paths, at_path, read_of};
ghost use Rattle.base_outside.specs.Files.{file_reading};
ghost use Rattle.run_top.specs.Fuel.{job_spent};
ghost use Rattle.run_top.specs.Prepared.{Prepares};
ghost use Rattle.run_top.specs.Whole.{made_job, of_job, of_made};
ghost use Rattle.run_top.specs.declared.prepare.Unfinished.TheVariants as unfinished;

use crate::prepare::{Prepared, Unfinished, prepare};
use base_data::items::Items;
use base_data::memory::Memory;
use base_data::symbol::Symbol;
use base_outside::{FileAnswer, Files, MemFiles, OutsideError};
use eval_prims::table::PrimTable;
use expand_forms::tally::Tally;
use run_command::job::{Job, Kind};
use run_make::made::{PROGRAM, made_files};
use run_make::summary::summary;
use std::alloc::Global;
use std::marker::Model;
use std::sync::ledger::Ledger;

// Files in memory, of which no read fails.
#[derive(Drop)]
struct MadeFiles {
    files: MemFiles,
}

impl Model for MadeFiles {
    ghost use Rattle.std.specs.Prelude.{◌≡◌, []};
    ghost use Rattle.base_outside.specs.Contents.{Paths};

    ghost Value = { Paths };

    ghost view = { λ m. m.files.contents };

    ghost invariant = { λ m. m.files.calls.fails ≡ [] };
}

impl MadeFiles {
    // The files of so many libraries and a program.
    fn new(alloc: Global, count: u32) -> Result<MadeFiles, Memory>
        ensures { IfOk result (λ files. files ≡ made_files count) }
    {
        let pairs = made_files(alloc, count)?;
        let files = MemFiles::new(alloc, pairs, Vec::new(alloc));
        Ok(MadeFiles { files })
    }
}

impl Files for MadeFiles {
    ghost told = { λ files. Some files };

    ghost faults = { λ files. 0 };

    fn read(&mut self, path: &str, max: usize) -> Result<FileAnswer, OutsideError>
        ensures same { Some self.new ≡ Some self.old }
        ensures answer { IfOk result (λ answer. file_reading answer ≡ read_of (at_path self.old path.now) max) }
        ensures later { 0 ≤ 0 }
        ensures failed { result ≡ Err OutsideError.Failed → Rose 0 0 }
    {
        self.files.read(path, max)
    }
}

fn made_job(alloc: Global) -> Result<Job, Memory>
    ensures { IfOk result (λ job. job ≡ made_job) }
{
    let mut roots = Items::new(alloc);
    roots.push(Symbol::new(alloc, ".")?)?;
    let program = Symbol::new(alloc, PROGRAM)?;
    Ok(Job {
        roots,
        cache: None,
        report: false,
        kind: Kind::Core,
        program,
    })
}

// What comes of the made program.
fn expanded<N: Ledger, L: Ledger>(
    alloc: Global,
    count: u32,
    primitives: &PrimTable,
    tally: &mut Tally<N, L>,
) -> Result<Prepared, Unfinished>
    ensures gives { Prepares result (of_job (made_files count) made_job) }
    ensures unread { result ≢ Err Unfinished.Read }
    ensures fuel { OnOk result (tally.new.fuel ≡ tally.old.fuel + job_spent (made_files count) made_job) }
{
    let job = made_job(alloc)?;
    let mut files = MadeFiles::new(alloc, count)?;
    prepare(alloc, &job, &mut files, primitives, tally)
}

/// The line on the core text of so many libraries and a program that are made in memory, or why there is none.
#[tactic(auto, unfolding(crate::specs::Whole::of_made))]
pub(crate) fn prepare_made<N: Ledger, L: Ledger>(
    alloc: Global,
    count: u32,
    primitives: &PrimTable,
    tally: &mut Tally<N, L>,
) -> Result<Prepared, Unfinished>
    ensures gives { Prepares result (of_made count) }
    ensures unread { result ≢ Err Unfinished.Read }
    ensures fuel { OnOk result (tally.new.fuel ≡ tally.old.fuel + job_spent (made_files count) made_job) }
{
    match expanded(alloc, count, primitives, tally) {
        Ok(made) => {
            let text = summary(alloc, count, made.text.as_str())?;
            let report = String::new(alloc);
            Ok(Prepared { text, report })
        }
        Err(unfinished) => Err(unfinished),
    }
}
