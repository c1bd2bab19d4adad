//! A reference to a library, and what is known of it.

ghost use Rattle.std.specs.Prelude.{◌≡◌, ℕ, [], ◌∷◌, ◌++◌, ◌==◌, Some, IfOk, is_some, slice_get, ◌||◌};
ghost use Rattle.base_data.specs.Gives.{Gives, StopsWith};
ghost use Rattle.load_builtin.specs.Exports.{exports};
ghost use Rattle.load_report.specs.Name.{name_text};
ghost use Rattle.load_files.specs.Found.{is_marked, is_needed_by, marks_with, with_needs};
ghost use Rattle.load_files.specs.Load.{about, builtin_version, fitting, joined, by_begun, by_done, known_of};

use crate::found::{Found, Loading};
use base_data::fault::{Fault, FaultKind, Stop};
use base_data::items::Items;
use base_data::library::LibName;
use base_data::memory::Memory;
use base_data::symbol::Symbol;
use load_builtin::library::Library;
use load_file_names::file::file_of;
use load_forms::version::version_fits;
use load_import::set::ImportSet;
use load_report::name::put_library_name;
use std::alloc::Global;

/// The version of each library that this implementation gives.
pub const VERSION: [u64; 1] = [6];

/// What is known of the library that a reference names.
#[derive(Drop)]
pub enum Known {
    /// It is given with the implementation.
    Builtin,
    /// It is loaded, and who refers to it needs it already.
    Joined,
    /// It is loaded. These are needed by who refers to it.
    Loaded(Items<bool>),
    /// It isn't begun.
    New,
}

/// A fault at a reference about its library.
pub fn about(alloc: Global, kind: FaultKind, set: &ImportSet) -> Stop
    ensures { StopsWith result (about kind set.now) }
{
    match fault_about(alloc, kind, set) {
        Ok(fault) => Stop::Fault(fault),
        Err(memory) => Stop::from(memory),
    }
}

fn fault_about(alloc: Global, kind: FaultKind, set: &ImportSet) -> Result<Fault, Memory>
    ensures { IfOk result (λ fault. fault ≡ about kind set.now) }
{
    let span = set.place.share()?;
    let mut words = Items::new(alloc);
    words.push(library_word(alloc, &set.library)?)?;
    Ok(Fault { kind, span, words })
}

/// The name of a library, as a word of a fault.
pub(crate) fn library_word(alloc: Global, library: &LibName) -> Result<Symbol, Memory>
    ensures { IfOk result (λ s. s ≡ name_text library.now) }
{
    let mut text = String::new(alloc);
    put_library_name(&mut text, library)?;
    Symbol::from_string(text)
}

/// Whether this implementation gives a library.
pub fn is_builtin(library: &LibName) -> bool
    ensures { result ≡ is_some (exports library.now) }
{
    match library {
        LibName::User(parts) => Library::named(parts.as_slice()).is_some(),
        LibName::Core | LibName::Derived | LibName::Prelude | LibName::Program => false,
    }
}

/// A version fits a reference, or it is refused.
pub fn check_version(alloc: Global, version: &[u64], set: &ImportSet) -> Result<(), Stop>
    ensures { Gives (λ u. u) result (fitting version.now set.now tt) }
{
    if version_fits(version, &set.version) {
        Ok(())
    } else {
        Err(about(alloc, FaultKind::VersionRefused, set))
    }
}

// Whether a library is another, or one that the other needs.
fn is_needed_by(found: &Found, place: usize) -> bool
    ensures { result ≡ is_needed_by found.now place }
{
    place == found.place || is_marked(found.needs.as_slice(), place)
}

fn is_marked(marks: &[bool], place: usize) -> bool
    ensures { result ≡ is_marked (slice_get marks.now place) }
{
    if place < marks.len() {
        marks[place]
    } else {
        false
    }
}

fn either(one: bool, other: bool) -> bool
    ensures { result ≡ (one || other) }
{
    one || other
}

/// Marks, with those of a library and of what it needs.
pub(crate) fn with_needs(
    alloc: Global,
    needs: &[bool],
    found: &Found,
) -> Result<Items<bool>, Memory>
    ensures { IfOk result (λ more. more ≡ with_needs needs.now found.now) }
{
    let mut more = Items::new(alloc);
    for (place, mark) in needs.iter().enumerate() {
        more.push(either(*mark, is_needed_by(found, place)))?;
    }
    Ok(more)
}

// A library that is loaded, whose version must fit.
fn loaded(alloc: Global, needs: &[bool], set: &ImportSet, found: &Found) -> Result<Known, Stop>
    ensures { Gives (λ k. k) result (fitting found.now.opened.form.version set.now (joined needs.now found.now)) }
{
    check_version(alloc, found.opened.form.version.as_slice(), set)?;
    if is_marked(needs, found.place) {
        return Ok(Known::Joined);
    }
    Ok(Known::Loaded(with_needs(alloc, needs, found)?))
}

fn builtin(alloc: Global, set: &ImportSet) -> Result<Known, Stop>
    ensures { Gives (λ k. k) result (fitting builtin_version set.now Known.Builtin) }
{
    check_version(alloc, &VERSION, set)?;
    Ok(Known::Builtin)
}

fn by_begun(alloc: Global, set: &ImportSet, is_begun: bool) -> Result<Known, Stop>
    ensures { Gives (λ k. k) result (by_begun set.now is_begun) }
{
    if is_begun {
        Err(about(alloc, FaultKind::ImportCycle, set))
    } else {
        Ok(Known::New)
    }
}

/// What is known of the library that a reference names: it is given with the implementation, it is
/// loaded, it is being loaded, which is a cycle, or it is new.
#[tactic(auto, unfolding(crate::specs::Load::known_of))]
pub(crate) fn known_of(
    alloc: Global,
    loading: &Loading,
    needs: &[bool],
    set: &ImportSet,
) -> Result<Known, Stop>
    ensures { Gives (λ k. k) result (known_of loading.now needs.now set.now) }
{
    if is_builtin(&set.library) {
        return builtin(alloc, set);
    }
    let file = file_of(alloc, &set.library)?;
    match loading.done.get(&file) {
        Some(found) => loaded(alloc, needs, set, found),
        None => by_begun(alloc, set, loading.begun.get(&file).is_some()),
    }
}
