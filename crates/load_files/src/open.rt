//! Opening files: from bytes to what a library or program says before its body.

ghost use Rattle.std.specs.Prelude.{◌≡◌, ◌≢◌, ◌≤◌, ◌<◌, ◌^◌, ℕ, [], ◌∷◌, ◌++◌, length, Some, Ok, IfOk, OnOk, Err, if◌then◌else◌};
ghost use Rattle.base_data.specs.Gives.{Gives, StopsWith};
ghost use Rattle.base_outside.specs.Causes.{Rose};
ghost use Rattle.base_outside.specs.Contents.{Paths};
ghost use Rattle.load_files.specs.Found.{with_source, with_sources, with_begun};
ghost use Rattle.load_files.specs.Load.{file_limit, too_many, at_start, differs, most, opened, library_in, begun, opened_from, opened_with, open_file, lifted, program_in};
ghost use Rattle.load_files.specs.Search.{IsSoughtWithin};
ghost use Rattle.load_files.specs.Gives.{LoadsAfter};

use crate::found::{Loading, Opened, Source};
use crate::halt::LoadHalt;
use crate::refer::{about, library_word};
use crate::search::{Search, Sought, look_for};
use base_data::datum::Datum;
use base_data::fault::{Fault, FaultKind, Stop};
use base_data::items::Items;
use base_data::library::LibName;
use base_data::memory::Memory;
use base_data::symbol::Symbol;
use base_outside::Files;
use load_file_names::file::file_of;
use load_forms::form::{LibraryForm, read_library, read_program};
use load_forms::set::start;
use load_import::set::ImportSet;
use read_reader::read::read_all;
use std::alloc::Global;

/// The most bytes of a file.
pub const FILE_LIMIT: usize = 4_194_304;

// The most bytes of all files of a run.
const RUN_LIMIT: usize = 67_108_864;

// The most libraries of files of a run.
pub const MOST_LIBRARIES: usize = 1024;

// The most bytes of the next file.
fn most(bytes: usize) -> usize
    ensures given { result ≡ most bytes }
    ensures few { result ≤ file_limit }
{
    FILE_LIMIT.min(RUN_LIMIT.saturating_sub(bytes))
}

/// A reference to a library beyond the most.
pub(crate) fn too_many(alloc: Global, set: &ImportSet) -> Stop
    ensures { StopsWith result (too_many set.now) }
{
    match set.place.share() {
        Ok(span) => Stop::Fault(Fault {
            kind: FaultKind::TooManyLibraries,
            span,
            words: Items::new(alloc),
        }),
        Err(memory) => Stop::from(memory),
    }
}

/// A fault of a file that was not read, at its start.
pub(crate) fn at_start(kind: FaultKind, path: &Symbol, words: Items<Symbol>) -> Stop
    ensures { StopsWith result (at_start kind path.now words) }
{
    match start(path) {
        Ok(span) => Stop::Fault(Fault { kind, span, words }),
        Err(memory) => Stop::from(memory),
    }
}

// A file whose library has another name than the one asked for.
fn differs(alloc: Global, form: &LibraryForm) -> Stop
    ensures { StopsWith result (differs form.now) }
{
    match fault_of_name(alloc, form) {
        Ok(fault) => Stop::Fault(fault),
        Err(memory) => Stop::from(memory),
    }
}

fn fault_of_name(alloc: Global, form: &LibraryForm) -> Result<Fault, Memory>
    ensures { IfOk result (λ fault. fault ≡ differs form.now) }
{
    let span = form.name_span.share()?;
    let mut words = Items::new(alloc);
    words.push(library_word(alloc, &form.name)?)?;
    Ok(Fault {
        kind: FaultKind::NameDiffers,
        span,
        words,
    })
}

// A library, whose name is the one asked for.
fn opened(
    alloc: Global,
    name: &LibName,
    path: &Symbol,
    data: Vec<Datum>,
    form: LibraryForm,
) -> Result<Opened, Stop>
    ensures { Gives (λ o. o) result (opened name.now path.now «data».items form) }
{
    if form.name != *name {
        return Err(differs(alloc, &form));
    }
    let path = path.share()?;
    let data = Items::from_vec(data);
    Ok(Opened { path, form, data })
}

// The library that a source is.
#[tactic(auto, unfolding(crate::specs::Load::library_in))]
fn library_in(alloc: Global, name: &LibName, path: &Symbol, held: &[u8]) -> Result<Opened, Stop>
    requires { length held.now < 2 ^ 32 }
    ensures { Gives (λ o. o) result (library_in name.now path.now held.now) }
{
    let data = read_all(alloc, path, held)?;
    let form = read_library(alloc, path, &data)?;
    opened(alloc, name, path, data, form)
}

/// The program that a source is.
#[tactic(auto, unfolding(crate::specs::Load::program_in))]
pub(crate) fn program_in(alloc: Global, path: &Symbol, held: &[u8]) -> Result<Opened, Stop>
    requires { length held.now < 2 ^ 32 }
    ensures { Gives (λ o. o) result (program_in path.now held.now) }
{
    let data = read_all(alloc, path, held)?;
    let form = read_program(alloc, path, &data)?;
    let path = path.share()?;
    let data = Items::from_vec(data);
    Ok(Opened { path, form, data })
}

/// Keeps a source that was read.
pub fn add_source(loading: &mut Loading, path: &Symbol, held: Items<u8>) -> Result<(), Memory>
    ensures { OnOk result (loading.new ≡ with_source loading.old path.now held) }
{
    let Some(bytes) = loading.bytes.checked_add(held.as_slice().len()) else {
        return Err(Memory);
    };
    let path = path.share()?;
    let held = Some(held);
    loading.sources.push(Source { path, held })?;
    loading.bytes = bytes;
    Ok(())
}

// The library of a file that was found, with what was read.
fn opened_at(
    alloc: Global,
    loading: &mut Loading,
    set: &ImportSet,
    path: Symbol,
    held: Items<u8>,
) -> Result<Opened, LoadHalt>
    requires { length held < 2 ^ 32 }
    ensures given { LoadsAfter result loading.new (opened_from loading.old set.now (Sought.Bytes path held)) }
    ensures unread { result ≢ Err LoadHalt.Read }
{
    let read = library_in(alloc, &set.library, &path, held.as_slice());
    add_source(loading, &path, held)?;
    let opened = match read {
        Ok(opened) => opened,
        Err(stop) => return Err(LoadHalt::from(stop)),
    };
    let file = file_of(alloc, &set.library)?;
    loading.begun.put_first(file, ())?;
    Ok(opened)
}

fn opened_from(
    alloc: Global,
    loading: &mut Loading,
    set: &ImportSet,
    sought: Sought,
) -> Result<Opened, LoadHalt>
    requires { IsSoughtWithin file_limit sought }
    ensures given { LoadsAfter result loading.new (opened_from loading.old set.now sought) }
    ensures unread { result ≢ Err LoadHalt.Read }
{
    match sought {
        Sought::Nowhere => Err(LoadHalt::from(about(alloc, FaultKind::LibraryNotFound, set))),
        Sought::Longer(path) => {
            let words = Items::new(alloc);
            Err(LoadHalt::from(at_start(FaultKind::TooLong, &path, words)))
        }
        Sought::Bytes(path, held) => opened_at(alloc, loading, set, path, held),
    }
}

/// Opens the file of a library that isn't begun yet.
#[tactic(auto, unfolding(crate::specs::Load::open_file))]
pub(crate) fn open_file<F: Files>(
    search: &Search,
    files: &mut F,
    set: &ImportSet,
    loading: &mut Loading,
) -> Result<Opened, LoadHalt>
    ensures same { F.told files.new ≡ F.told files.old }
    ensures given { (fs : Paths) → F.told files.old ≡ Some fs → LoadsAfter result loading.new (open_file fs search.now.roots.now set.now loading.old) }
    ensures later { F.faults files.old ≤ F.faults files.new }
    ensures failed { result ≡ Err LoadHalt.Read → Rose (F.faults files.old) (F.faults files.new) }
{
    let alloc = search.alloc;
    if MOST_LIBRARIES <= loading.begun.size() {
        return Err(LoadHalt::from(too_many(alloc, set)));
    }
    let file = file_of(alloc, &set.library)?;
    let max = most(loading.bytes);
    let sought = look_for(search, files, &file, max, &mut loading.sources)?;
    opened_from(alloc, loading, set, sought)
}
