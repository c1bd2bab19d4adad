//! The libraries that the imports of a form name, each with its names and those that are still to be joined.

ghost use Rattle.std.specs.Option.{option_copied};
ghost use Rattle.std.specs.Prelude.{◌≡◌, ◌++◌, ℕ, List, Some, IfOk, OnOk, OnErr, is_some, if◌then◌else◌};
ghost use Rattle.base_data.specs.Gives.{Gives};
ghost use Rattle.base_data.specs.Same.{same_library};
ghost use Rattle.base_data.specs.declared.library.LibName.{LibName};
ghost use Rattle.load_import.specs.Names.{Labelled};
ghost use Rattle.load_import.specs.Shared.{steps_joined, IsEnough, IsEnoughIf};
ghost use Rattle.load_import.specs.Sources.{source_in, names_in, AreEnough};
ghost use Rattle.load_import.specs.declared.sources.ImportSource.{ImportSource};

use crate::imported::Names;
use crate::names::rows;
use crate::set::ImportSet;
use crate::shared::{Exports, join_set};
use base_data::fault::Stop;
use base_data::imported_name::ImportedName;
use base_data::items::Items;
use base_data::library::LibName;
use base_data::map::NameMap;
use base_data::memory::Memory;
use base_data::span::Span;
use std::alloc::Global;

/// A library that a form imports from.
#[derive(Drop)]
pub struct ImportSource {
    pub exports: Exports,
    /// These names are enough to join all of the library: the others are joined.
    pub fresh: Items<ImportedName>,
}

/// Libraries that a form imports from, by their names.
pub type Sources = NameMap<LibName, ImportSource>;

/// Whether a library is there.
pub fn has_source(sources: &Sources, library: &LibName) -> bool
    ensures { result ≡ is_some (source_in library.now sources.now.entries) }
{
    sources.get(library).is_some()
}

/// The names of a library, where it is there.
pub fn names_in<'a>(sources: &'a Sources, library: &LibName) -> Option<&'a Exports>
    ensures { option_copied result ≡ names_in library.now sources.now.entries }
{
    match sources.get(library) {
        None => None,
        Some(source) => Some(&source.exports),
    }
}

/// Puts a library in, of which no name is joined. After a refusal all is as before.
pub fn add_source(
    alloc: Global,
    sources: &mut Sources,
    library: LibName,
    exports: Exports,
) -> Result<(), Memory>
    ensures names { OnOk result ((l : LibName) → names_in l sources.new.entries
        ≡ (if same_library library l then Some exports else names_in l sources.old.entries)) }
    ensures enough { OnOk result ((all : Labelled) → AreEnough all sources.old.entries → AreEnough all sources.new.entries) }
    ensures err { OnErr result (sources.new.entries ≡ sources.old.entries) }
{
    let fresh = rows(alloc, exports.names())?;
    sources.insert(library, ImportSource { exports, fresh })?;
    Ok(())
}

// Joins the names that an import set gives; the answer is what is enough of its library then, where that changes.
fn join_from(
    alloc: Global,
    sources: &Sources,
    all: &mut Names,
    set: &ImportSet,
    span: &Span,
) -> Result<Option<Items<ImportedName>>, Stop>
    requires { AreEnough all.old sources.now.entries }
    ensures given { (names : Labelled) → names_in set.now.library sources.now.entries ≡ Some names
        → Gives (λ _. all.new) result (steps_joined span.now all.old names set.now.steps) }
    ensures front { OnOk result ((tail : Labelled) × (all.new ≡ all.old ++ tail)) }
    ensures fresh { IfOk result (λ f. (s : ImportSource) → source_in set.now.library sources.now.entries ≡ Some s → IsEnoughIf all.new s.exports f) }
{
    match sources.get(&set.library) {
        Some(source) => join_set(alloc, all, source, set.steps.as_slice(), span),
        None => Err(Stop::Memory),
    }
}

// Of a library these names are enough now.
fn keep_fresh(
    sources: &mut Sources,
    library: &LibName,
    fresh: Items<ImportedName>,
) -> Result<(), Memory>
    ensures names { OnOk result ((l : LibName) → names_in l sources.new.entries ≡ names_in l sources.old.entries) }
    ensures enough { OnOk result ((all : Labelled) → AreEnough all sources.old.entries
        → ((s : ImportSource) → source_in library.now sources.old.entries ≡ Some s → IsEnough all s.exports fresh) → AreEnough all sources.new.entries) }
{
    let Some(source) = sources.get_mut(library) else {
        return Err(Memory);
    };
    source.fresh = fresh;
    Ok(())
}

/// Joins the names that an import set gives of its library, which must be there, to those of a form.
pub fn join_source(
    alloc: Global,
    sources: &mut Sources,
    all: &mut Names,
    set: &ImportSet,
    span: &Span,
) -> Result<(), Stop>
    requires { AreEnough all.old sources.old.entries }
    ensures given { (names : Labelled) → names_in set.now.library sources.old.entries ≡ Some names
        → Gives (λ _. all.new) result (steps_joined span.now all.old names set.now.steps) }
    ensures names { OnOk result ((l : LibName) → names_in l sources.new.entries ≡ names_in l sources.old.entries) }
    ensures enough { OnOk result (AreEnough all.new sources.new.entries) }
{
    match join_from(alloc, sources, all, set, span)? {
        Some(fresh) => Ok(keep_fresh(sources, &set.library, fresh)?),
        None => Ok(()),
    }
}
