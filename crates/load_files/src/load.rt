//! A program and the libraries of files that it imports.

ghost use Rattle.std.specs.Prelude.{◌≡◌, ◌≤◌, [], ◌∷◌, length, Some, Err, IfOk};
ghost use Rattle.base_outside.specs.Causes.{Rose};
ghost use Rattle.base_outside.specs.Contents.{Paths, bytes};
ghost use Rattle.load_files.specs.Found.{nothing_loaded};
ghost use Rattle.load_files.specs.Load.{load, program_from, at_start, file_limit};
ghost use Rattle.base_data.specs.Gives.{StopsWith};
ghost use Rattle.base_data.specs.declared.fault.FaultKind.TheVariants as kind;
ghost use Rattle.load_files.specs.Gives.{LoadsAfter};

use crate::found::{Found, Loading};
use crate::halt::LoadHalt;
use crate::open::{FILE_LIMIT, add_source, at_start, program_in};
use crate::search::{PathContents, Search, read_at};
use crate::walk::load_all;
use base_data::fault::{FaultKind, Stop};
use base_data::items::Items;
use base_data::memory::Memory;
use base_data::symbol::Symbol;
use base_outside::Files;
use std::alloc::Global;

// The program of a source, and all that it imports.
fn load_source<F: Files>(
    search: &Search,
    files: &mut F,
    path: &Symbol,
    held: Items<u8>,
    loading: &mut Loading,
) -> Result<Found, LoadHalt>
    requires start { loading.old ≡ nothing_loaded }
    requires within { length held ≤ file_limit }
    ensures same { F.told files.new ≡ F.told files.old }
    ensures given { (fs : Paths) → F.told files.old ≡ Some fs → LoadsAfter result loading.new (program_from fs search.now.roots.now path.now (bytes held)) }
    ensures later { F.faults files.old ≤ F.faults files.new }
    ensures failed { result ≡ Err LoadHalt.Read → Rose (F.faults files.old) (F.faults files.new) }
{
    let read = program_in(search.alloc, path, held.as_slice());
    add_source(loading, path, held)?;
    match read {
        Ok(opened) => load_all(search, files, opened, loading),
        Err(stop) => Err(LoadHalt::from(stop)),
    }
}

// A program that isn't there has its path as the word of its fault.
fn not_there(alloc: Global, path: &Symbol) -> Stop
    ensures { StopsWith result (at_start kind.LibraryNotFound path.now (path.now ∷ [])) }
{
    match one_word(alloc, path) {
        Ok(words) => at_start(FaultKind::LibraryNotFound, path, words),
        Err(memory) => Stop::from(memory),
    }
}

fn one_word(alloc: Global, word: &Symbol) -> Result<Items<Symbol>, Memory>
    ensures { IfOk result (λ words. words ≡ word.now ∷ []) }
{
    let mut words = Items::new(alloc);
    words.push(word.share()?)?;
    Ok(words)
}

/// A program and the libraries of files that it imports, directly or not, each after those that it
/// imports itself; or the first fault, with what was loaded before it.
#[tactic(auto, unfolding(crate::specs::Load::load))]
pub fn load<F: Files>(
    alloc: Global,
    files: &mut F,
    roots: &[Symbol],
    path: &Symbol,
    loading: &mut Loading,
) -> Result<Found, LoadHalt>
    requires { loading.old ≡ nothing_loaded }
    ensures same { F.told files.new ≡ F.told files.old }
    ensures given { (fs : Paths) → F.told files.old ≡ Some fs → LoadsAfter result loading.new (load fs roots.now path.now) }
    ensures later { F.faults files.old ≤ F.faults files.new }
    ensures failed { result ≡ Err LoadHalt.Read → Rose (F.faults files.old) (F.faults files.new) }
{
    match read_at(files, path, FILE_LIMIT) {
        Ok(PathContents::Bytes(held)) => {
            let search = Search { alloc, roots };
            load_source(&search, files, path, held, loading)
        }
        Ok(PathContents::Longer) => {
            let words = Items::new(alloc);
            Err(LoadHalt::from(at_start(FaultKind::TooLong, path, words)))
        }
        Ok(PathContents::Absent) => Err(LoadHalt::from(not_there(alloc, path))),
        Err(error) => Err(LoadHalt::from(error)),
    }
}
