//! The walk over files, by a stack of those that are open.

ghost use Rattle.std.specs.Prelude.{◌≡◌, ◌≢◌, ◌≤◌, ◌+◌, ℕ, List, [], reverse, Some, Ok, Err, IfOk, OnErr};
ghost use Rattle.base_data.specs.Gives.{Gives};
ghost use Rattle.base_outside.specs.Causes.{Rose};
ghost use Rattle.base_outside.specs.Contents.{Paths};
ghost use Rattle.load_files.specs.Found.{most_libraries, no_needs, found_of};
ghost use Rattle.load_files.specs.Load.{load_file, settled};
ghost use Rattle.load_files.specs.Stack.{first_of, next_of, known_next, returned, descended, meaning, unwind};
ghost use Rattle.load_files.specs.Gives.{LoadsAfter, Turns};

use crate::found::{Found, Loading, Open, Opened, next_import};
use crate::halt::LoadHalt;
use crate::open::{MOST_LIBRARIES, open_file, too_many};
use crate::refer::{Known, about, known_of, with_needs};
use crate::search::Search;
use base_data::fault::{FaultKind, Stop};
use base_data::items::Items;
use base_data::memory::Memory;
use base_outside::Files;
use load_file_names::file::file_of;
use load_forms::version::version_fits;
use load_import::set::ImportSet;
use std::alloc::Global;

/// What comes of a turn.
#[derive(Drop)]
pub enum Turn {
    /// The walk goes on in this file.
    On(Open),
    /// The outermost file is loaded.
    Done(Found),
}

// A file whose imports are all still to be loaded.
fn first_of(alloc: Global, room: usize, opened: Opened) -> Result<Open, Memory>
    ensures { IfOk result (λ o. o ≡ first_of room opened) }
{
    let needs = Items::from_vec(vec![in alloc; false; MOST_LIBRARIES]?);
    Ok(Open {
        opened,
        room,
        next: 0,
        needs,
    })
}

// A file whose next import is loaded.
fn next_of(at: Open, needs: Items<bool>) -> Result<Open, Memory>
    ensures { IfOk result (λ o. o ≡ next_of at needs (at.next + 1)) }
{
    let Open {
        opened,
        room,
        next,
        ..
    } = at;
    match next.checked_add(1) {
        Some(next) => Ok(Open {
            opened,
            room,
            next,
            needs,
        }),
        None => Err(Memory),
    }
}

// A library that was new is loaded now, and its version is looked at. The answer is what is needed then.
#[tactic(auto, unfolding(crate::specs::Load::settled))]
fn settled(
    alloc: Global,
    set: &ImportSet,
    needs: &[bool],
    found: Found,
    loading: &mut Loading,
) -> Result<Items<bool>, LoadHalt>
    ensures given { LoadsAfter result loading.new (settled set.now needs.now found loading.old) }
    ensures unread { result ≢ Err LoadHalt.Read }
{
    let fits = version_fits(found.opened.form.version.as_slice(), &set.version);
    let more = with_needs(alloc, needs, &found)?;
    let file = file_of(alloc, &set.library)?;
    loading.done.put_first(file, found)?;
    if fits {
        Ok(more)
    } else {
        Err(LoadHalt::from(about(alloc, FaultKind::VersionRefused, set)))
    }
}

// All imports of a file are loaded.
fn found_of(at: Open, loading: &Loading) -> Found
    ensures { result ≡ found_of at.opened at.needs loading.now }
{
    let Open { opened, needs, .. } = at;
    Found {
        opened,
        place: loading.done.size(),
        needs,
    }
}

// What is known of the next import of a file, if one is left.
fn known_next(alloc: Global, at: &Open, loading: &Loading) -> Result<Option<Known>, Stop>
    ensures { Gives (λ k. k) result (known_next at.now loading.now) }
{
    match next_import(at) {
        Some(import) => {
            let known = known_of(alloc, loading, at.needs.as_slice(), &import.set)?;
            Ok(Some(known))
        }
        None => Ok(None),
    }
}

// A file that was opened in another is loaded: the other goes on.
fn back_in(
    alloc: Global,
    outer: Open,
    found: Found,
    loading: &mut Loading,
) -> Result<Open, LoadHalt>
    ensures given { LoadsAfter result loading.new (returned outer found loading.old) }
    ensures unread { result ≢ Err LoadHalt.Read }
{
    let needs = match next_import(&outer) {
        Some(import) => {
            let needs = outer.needs.as_slice();
            settled(alloc, &import.set, needs, found, loading)?
        }
        None => return Err(LoadHalt::Memory),
    };
    Ok(next_of(outer, needs)?)
}

// All imports of a file are loaded: the walk goes on in the file that it was opened in.
fn close(
    alloc: Global,
    at: Open,
    stack: &mut Vec<Open>,
    loading: &mut Loading,
) -> Result<Turn, LoadHalt>
    ensures given { (fs : Paths) (roots : List (List ℕ)) → Turns (meaning fs roots) result stack.new.items loading.new
        (unwind fs roots (reverse stack.old.items) (found_of at.opened at.needs loading.old, loading.old)) }
    ensures unread { result ≢ Err LoadHalt.Read }
{
    let found = found_of(at, loading);
    let Some(outer) = stack.pop() else {
        return Ok(Turn::Done(found));
    };
    match back_in(alloc, outer, found, loading) {
        Ok(outer) => Ok(Turn::On(outer)),
        Err(halt) => Err(halt),
    }
}

// The library of the next import is new: the walk goes on in its file.
fn descend<F: Files>(
    search: &Search,
    files: &mut F,
    at: &Open,
    loading: &mut Loading,
) -> Result<Open, LoadHalt>
    ensures same { F.told files.new ≡ F.told files.old }
    ensures given { (fs : Paths) → F.told files.old ≡ Some fs → LoadsAfter result loading.new (descended fs search.now.roots.now at.now loading.old) }
    ensures later { F.faults files.old ≤ F.faults files.new }
    ensures failed { result ≡ Err LoadHalt.Read → Rose (F.faults files.old) (F.faults files.new) }
{
    let alloc = search.alloc;
    let Some(import) = next_import(at) else {
        return Err(LoadHalt::Memory);
    };
    if at.room == 0 {
        return Err(LoadHalt::from(too_many(alloc, &import.set)));
    }
    let opened = open_file(search, files, &import.set, loading)?;
    Ok(first_of(alloc, at.room - 1, opened)?)
}

// The walk goes on in a file inside this one.
fn enter<F: Files>(
    search: &Search,
    files: &mut F,
    at: Open,
    stack: &mut Vec<Open>,
    loading: &mut Loading,
) -> Result<Turn, LoadHalt>
    requires { known_next at loading.old ≡ Ok (Some Known.New) }
    ensures same { F.told files.new ≡ F.told files.old }
    ensures given { (fs : Paths) → F.told files.old ≡ Some fs
        → Turns (meaning fs search.now.roots.now) result stack.new.items loading.new
        (meaning fs search.now.roots.now at (reverse stack.old.items) loading.old) }
    ensures later { F.faults files.old ≤ F.faults files.new }
    ensures failed { result ≡ Err LoadHalt.Read → Rose (F.faults files.old) (F.faults files.new) }
{
    match descend(search, files, &at, loading) {
        Ok(inner) => match stack.push(at) {
            Ok(()) => Ok(Turn::On(inner)),
            Err(_) => Err(LoadHalt::Memory),
        },
        Err(halt) => Err(halt),
    }
}

// The next import of a file needs nothing more.
fn passed(at: Open) -> Result<Turn, LoadHalt>
    ensures given { IfOk result (λ t. t ≡ Turn.On (next_of at at.needs (at.next + 1))) }
    ensures err { OnErr result (result ≡ Err LoadHalt.Memory) }
{
    let Open {
        opened,
        room,
        next,
        needs,
    } = at;
    let Some(next) = next.checked_add(1) else {
        return Err(LoadHalt::Memory);
    };
    Ok(Turn::On(Open {
        opened,
        room,
        next,
        needs,
    }))
}

// The next import of a file is loaded, and more is needed.
fn passed_with(at: Open, needs: Items<bool>) -> Result<Turn, LoadHalt>
    ensures given { IfOk result (λ t. t ≡ Turn.On (next_of at needs (at.next + 1))) }
    ensures err { OnErr result (result ≡ Err LoadHalt.Memory) }
{
    match next_of(at, needs) {
        Ok(next) => Ok(Turn::On(next)),
        Err(_) => Err(LoadHalt::Memory),
    }
}

// One turn of the walk: the next reference of a file is looked at, or the file is closed.
fn step<F: Files>(
    search: &Search,
    files: &mut F,
    at: Open,
    stack: &mut Vec<Open>,
    loading: &mut Loading,
) -> Result<Turn, LoadHalt>
    ensures same { F.told files.new ≡ F.told files.old }
    ensures given { (fs : Paths) → F.told files.old ≡ Some fs
        → Turns (meaning fs search.now.roots.now) result stack.new.items loading.new
        (meaning fs search.now.roots.now at (reverse stack.old.items) loading.old) }
    ensures later { F.faults files.old ≤ F.faults files.new }
    ensures failed { result ≡ Err LoadHalt.Read → Rose (F.faults files.old) (F.faults files.new) }
{
    let alloc = search.alloc;
    match known_next(alloc, &at, loading) {
        Err(stop) => Err(LoadHalt::from(stop)),
        Ok(None) => close(alloc, at, stack, loading),
        Ok(Some(Known::New)) => enter(search, files, at, stack, loading),
        Ok(Some(Known::Builtin)) => passed(at),
        Ok(Some(Known::Joined)) => passed(at),
        Ok(Some(Known::Loaded(needs))) => passed_with(at, needs),
    }
}

// The walk over a file and all that it imports.
fn walk<F: Files>(
    search: &Search,
    files: &mut F,
    first: Open,
    loading: &mut Loading,
) -> Result<Found, LoadHalt>
    ensures same { F.told files.new ≡ F.told files.old }
    ensures given { (fs : Paths) → F.told files.old ≡ Some fs → LoadsAfter result loading.new (meaning fs search.now.roots.now first [] loading.old) }
    ensures later { F.faults files.old ≤ F.faults files.new }
    ensures failed { result ≡ Err LoadHalt.Read → Rose (F.faults files.old) (F.faults files.new) }
{
    let mut stack = Vec::new(search.alloc);
    let mut at = first;
    for _turn in 0..u64::MAX {
        match step(search, files, at, &mut stack, loading)? {
            Turn::On(next) => at = next,
            Turn::Done(found) => return Ok(found),
        }
    }
    Err(LoadHalt::Memory)
}

/// A file and all that it imports, directly or not, each library after those that it imports itself.
pub(crate) fn load_all<F: Files>(
    search: &Search,
    files: &mut F,
    opened: Opened,
    loading: &mut Loading,
) -> Result<Found, LoadHalt>
    ensures same { F.told files.new ≡ F.told files.old }
    ensures given { (fs : Paths) → F.told files.old ≡ Some fs
        → LoadsAfter result loading.new (load_file fs search.now.roots.now most_libraries opened loading.old) }
    ensures later { F.faults files.old ≤ F.faults files.new }
    ensures failed { result ≡ Err LoadHalt.Read → Rose (F.faults files.old) (F.faults files.new) }
{
    let first = first_of(search.alloc, MOST_LIBRARIES, opened)?;
    walk(search, files, first, loading)
}
