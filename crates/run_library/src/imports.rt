//! The names that the imports of a form give.

ghost use Rattle.std.specs.Prelude.{◌≡◌, [], true, IfOk, IfErr, OnOk, is_some, option_map, map};
ghost use Rattle.base_data.specs.Gives.{Gives, Stops};
ghost use Rattle.load_import.specs.Names.{Labelled, joined};
ghost use Rattle.load_import.specs.Sources.{names_in, AreEnough};
ghost use Rattle.load_import.specs.Turns.{turns};
ghost use Rattle.run_derived.specs.Derived.{relabelled_in};
ghost use Rattle.run_library.specs.Imports.{named, record_referred, record_exports, referred, refer, given_names, exported, import_into, form_names};
ghost use Rattle.run_library.specs.Listed.{AreListed};
ghost use Rattle.run_library.specs.Records.{needed_records};
ghost use Rattle.load_files.specs.Load.{fitting, builtin_version};

use crate::given::GivenNames;
use crate::records::Needed;
use base_data::fault::{FaultKind, Stop};
use base_data::imported_name::ImportedName;
use base_data::items::Items;
use base_data::library::LibName;
use base_data::map::new_map;
use base_data::memory::Memory;
use base_data::span::Span;
use core_language::record::CompiledLibrary;
use core_language::share::share_library;
use load_files::refer::{VERSION, about, check_version, is_builtin};
use load_forms::set::Import;
use load_import::imported::Names;
use load_import::set::ImportSet;
use load_import::shared::Exports;
use load_import::sources::{Sources, add_source, has_source, join_source};
use run_derived::derived::relabelled;
use std::alloc::Global;

/// The names that the imports of a form give, each once and in order, with their labels. First each library
/// must be there in a version that fits, and then each name is looked for.
#[tactic(auto, unfolding(crate::specs::Imports::form_names))]
pub(crate) fn form_names(
    needed: &Needed,
    given: &mut GivenNames,
    imports: &[Import],
) -> Result<Names, Stop>
    ensures { Gives (λ names. names) result (form_names (needed_records needed.now.records.now needed.now.marks.now) imports.now) }
{
    refer_all(given.alloc(), needed, imports)?;
    import_all(needed, given, imports)
}

fn refer_all(alloc: Global, needed: &Needed, imports: &[Import]) -> Result<(), Stop>
    ensures { Gives (λ u. u) result (turns (refer (needed_records needed.now.records.now needed.now.marks.now)) tt imports.now) }
{
    for import in imports {
        referred(alloc, needed, &import.set)?;
    }
    Ok(())
}

fn referred(alloc: Global, needed: &Needed, set: &ImportSet) -> Result<(), Stop>
    ensures { Gives (λ u. u) result (referred (needed_records needed.now.records.now needed.now.marks.now) set.now) }
{
    if is_builtin(&set.library) {
        check_version(alloc, &VERSION, set)
    } else {
        record_referred(alloc, set, needed.named(&set.library))
    }
}

fn record_referred(
    alloc: Global,
    set: &ImportSet,
    one: Option<&CompiledLibrary>,
) -> Result<(), Stop>
    ensures { Gives (λ u. u) result (record_referred set.now (option_map (λ r. r.now) one.entry)) }
{
    match one {
        Some(record) => check_version(alloc, record.version.as_slice(), set),
        None => Err(about(alloc, FaultKind::LibraryNotFound, set)),
    }
}

#[tactic(auto, using(crate::proofs::SourceLemmas::no_names, crate::proofs::SourceLemmas::none_enough))]
fn import_all(needed: &Needed, given: &mut GivenNames, imports: &[Import]) -> Result<Names, Stop>
    ensures { Gives (λ names. names) result (turns (import_into (needed_records needed.now.records.now needed.now.marks.now)) [] imports.now) }
{
    let alloc = given.alloc();
    let mut names = Names::new(alloc);
    let mut sources = new_map(alloc);
    for import in imports {
        import_into(needed, given, &mut sources, &mut names, import)?;
    }
    Ok(names)
}

// The names of a library are listed with its first import set, and then each set asks the list.
fn import_into(
    needed: &Needed,
    given: &mut GivenNames,
    sources: &mut Sources,
    names: &mut Names,
    import: &Import,
) -> Result<(), Stop>
    requires listed { AreListed (needed_records needed.now.records.now needed.now.marks.now) sources.old.entries }
    requires enough { AreEnough names.old sources.old.entries }
    ensures names { Gives (λ _. names.new) result (import_into (needed_records needed.now.records.now needed.now.marks.now) names.old import.now) }
    ensures listed { OnOk result (AreListed (needed_records needed.now.records.now needed.now.marks.now) sources.new.entries) }
    ensures enough { OnOk result (AreEnough names.new sources.new.entries) }
{
    list_source(needed, given, sources, import)?;
    join_source(given.alloc(), sources, names, &import.set, &import.span)
}

// Lists the names of the library of an import, unless they are listed.
fn list_source(
    needed: &Needed,
    given: &mut GivenNames,
    sources: &mut Sources,
    import: &Import,
) -> Result<(), Stop>
    requires { AreListed (needed_records needed.now.records.now needed.now.marks.now) sources.old.entries }
    ensures stop { IfErr result (λ stop. Stops stop (joined import.now.span []
        (exported (needed_records needed.now.records.now needed.now.marks.now) import.now.set.library))) }
    ensures listed { OnOk result (AreListed (needed_records needed.now.records.now needed.now.marks.now) sources.new.entries) }
    ensures there { OnOk result (is_some (names_in import.now.set.library sources.new.entries) ≡ true) }
    ensures enough { OnOk result ((all : Labelled) → AreEnough all sources.old.entries → AreEnough all sources.new.entries) }
{
    let library = &import.set.library;
    if has_source(sources, library) {
        return Ok(());
    }
    let exports = exported(needed, given, library, &import.span)?;
    let alloc = given.alloc();
    let name = share_library(alloc, library)?;
    add_source(alloc, sources, name, exports)?;
    Ok(())
}

// What a library exports, each name once. The names of a library that is given with the implementation are listed once a run.
#[tactic(auto, using(crate::proofs::GivenLemmas::gives_given, crate::proofs::GivenLemmas::gives_own))]
fn exported(
    needed: &Needed,
    given: &mut GivenNames,
    library: &LibName,
    span: &Span,
) -> Result<Exports, Stop>
    ensures { Gives (λ e. e) result (joined span.now [] (exported (needed_records needed.now.records.now needed.now.marks.now) library.now)) }
{
    if is_builtin(library) {
        return given.exported(needed.named(&LibName::Derived), library, span);
    }
    own_exports(given.alloc(), needed.named(library), span)
}

// What a record exports, each name once.
fn own_exports(alloc: Global, one: Option<&CompiledLibrary>, span: &Span) -> Result<Exports, Stop>
    ensures { Gives (λ e. e) result (joined span.now [] (record_exports (option_map (λ r. r.now) one.entry))) }
{
    let names = record_exports(alloc, one)?;
    Exports::new(alloc, names.as_slice(), span)
}

// The names of the implementation, behind the record of the derived library.
pub(crate) fn given_names(
    alloc: Global,
    derived: Option<&CompiledLibrary>,
    names: Items<ImportedName>,
) -> Result<Items<ImportedName>, Memory>
    ensures { IfOk result (λ es. es ≡ given_names (option_map (λ r. r.now) derived.entry) names) }
{
    match derived {
        None => Ok(names),
        Some(derived) => all_relabelled(alloc, derived, names.as_slice()),
    }
}

fn all_relabelled(
    alloc: Global,
    derived: &CompiledLibrary,
    names: &[ImportedName],
) -> Result<Items<ImportedName>, Memory>
    ensures { IfOk result (λ es. es ≡ map (λ e. relabelled_in derived.now e) names.now) }
{
    let mut all = Items::new(alloc);
    for name in names {
        let one = relabelled(derived, name)?;
        all.push(one)?;
    }
    Ok(all)
}

fn record_exports(
    alloc: Global,
    one: Option<&CompiledLibrary>,
) -> Result<Items<ImportedName>, Memory>
    ensures { IfOk result (λ names. names ≡ record_exports (option_map (λ r. r.now) one.entry)) }
{
    match one {
        Some(record) => share_names(alloc, record.exports.as_slice()),
        None => Ok(Items::new(alloc)),
    }
}

pub(crate) fn share_names(
    alloc: Global,
    names: &[ImportedName],
) -> Result<Items<ImportedName>, Memory>
    ensures { IfOk result (λ shared. shared ≡ names.now) }
{
    let mut shared = Items::new(alloc);
    for name in names {
        shared.push(name.share()?)?;
    }
    Ok(shared)
}
