//! The references of a record: the other libraries whose variables its lines mention.

ghost use Rattle.std.specs.Prelude.{◌≡◌, [], IfOk, OnOk};
ghost use Rattle.base_data.specs.Same.{same_library};
ghost use Rattle.law_core.specs.Follows.{names_of, refers_to_earlier, run_references};
ghost use Rattle.law_core.specs.Words.{among, each};
ghost use Rattle.expand_follows.specs.Pieces.{with_libraries, with_library};

use crate::earlier::NeededEarlier;
use crate::names::scan_lines;
use base_data::items::Items;
use base_data::library::LibName;
use base_data::memory::Memory;
use base_data::name::Label;
use core_language::record::CompiledLibrary;
use core_language::share::share_library;
use indexmap::IndexSet;
use std::alloc::Global;

// Adds the library of a label, but for its own, where it isn't there.
fn add_library(
    alloc: Global,
    libraries: &mut IndexSet<LibName>,
    own: &LibName,
    label: &Label,
) -> Result<(), Memory>
    ensures { OnOk result (libraries.new.keys ≡ with_library own.now libraries.old.keys label.now) }
{
    let library: &LibName = &label.0.library;
    if *library == *own || libraries.contains(library) {
        return Ok(());
    }
    let library = share_library(alloc, library)?;
    libraries.insert(library)?;
    Ok(())
}

// The other libraries that labels are of, each once, in order of first place.
fn libraries_of(
    alloc: Global,
    own: &LibName,
    mentioned: &[Label],
) -> Result<IndexSet<LibName>, Memory>
    ensures { IfOk result (λ s. s.keys ≡ with_libraries own.now [] mentioned.now) }
{
    let mut libraries = IndexSet::new(alloc);
    for label in mentioned {
        add_library(alloc, &mut libraries, own, label)?;
    }
    Ok(libraries)
}

fn are_earlier(refs: &[LibName], earlier: &NeededEarlier) -> bool
    ensures { result ≡ each (among same_library (names_of earlier.now)) refs.now }
{
    for name in refs {
        if !earlier.has_name(name) {
            return false;
        }
    }
    true
}

// The libraries that its lines mention, but for its own.
#[tactic(auto, using(crate::proofs::ReferenceLemmas::libraries_joined))]
fn run_references(alloc: Global, one: &CompiledLibrary) -> Result<IndexSet<LibName>, Memory>
    ensures { IfOk result (λ s. s.keys ≡ run_references one.now) }
{
    let mut bound = Items::new(alloc);
    let mut mentioned = Items::new(alloc);
    scan_lines(&mut bound, &mut mentioned, one.run.as_slice())?;
    libraries_of(alloc, &one.name, mentioned.as_slice())
}

/// Whether the references of a record are the other libraries whose variables its lines mention, each once in order of
/// first mention, and all of them have earlier records.
pub(crate) fn refers_to_earlier(
    alloc: Global,
    one: &CompiledLibrary,
    earlier: &NeededEarlier,
) -> Result<bool, Memory>
    ensures { IfOk result (λ b. b ≡ refers_to_earlier one.now earlier.now) }
{
    let libraries = run_references(alloc, one)?;
    if one.refs.as_slice() != libraries.as_slice() {
        return Ok(false);
    }
    Ok(are_earlier(one.refs.as_slice(), earlier))
}
