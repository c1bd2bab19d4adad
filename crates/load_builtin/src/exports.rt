//! What the libraries that this implementation gives export.

ghost use Rattle.std.specs.Prelude.{◌≡◌, ◌≤◌, ◌<◌, ◌++◌, map, IfOk, OnOk};
ghost use Rattle.std.specs.List.{flat_map};
ghost use Rattle.load_builtin.specs.Libraries.{run_numbers};
ghost use Rattle.load_builtin.specs.Exports.{exports, export, derived_place, definition_from, label_of, label_at, library_exports};
ghost use Rattle.base_data.specs.Op.{name_count, op_text};
ghost use Rattle.base_data.specs.declared.library.LibName.TheVariants as name;

use crate::library::{Library, Run};
use base_data::imported_name::ImportedName;
use base_data::items::Items;
use base_data::library::LibName;
use base_data::memory::Memory;
use base_data::name::{Label, Name};
use base_data::op::{Op, names, op_text};
use base_data::symbol::Symbol;
use std::alloc::Global;
use std::rc::Rc;

/// The definitions of the derived library, in order, each with the number of its name where it is
/// exported. `case-clauses`, `lv-formals` and `lv-clauses` are not.
pub const DERIVED: [Option<u16>; 18] = [
    Some(names::SYNTAX_RULES),
    Some(names::LET),
    Some(names::LET_STAR),
    Some(names::AND),
    Some(names::OR),
    Some(names::COND),
    None,
    Some(names::CASE),
    Some(names::WHEN),
    Some(names::UNLESS),
    Some(names::WITH_SYNTAX),
    Some(names::DO),
    Some(names::LET_STAR_VALUES),
    None,
    None,
    Some(names::LET_VALUES),
    Some(names::ASSERT),
    Some(names::IDENTIFIER_SYNTAX),
];

// The libraries that labels are named by.
#[derive(Drop)]
struct BuiltinLibraries {
    core: Rc<LibName>,
    derived: Rc<LibName>,
}

/// The names that a library exports, each with its label, where this implementation gives it.
pub fn exports(alloc: Global, name: &LibName) -> Result<Option<Items<ImportedName>>, Memory>
    ensures { IfOk result (λ r. r ≡ exports name.now) }
{
    let LibName::User(parts) = name else {
        return Ok(None);
    };
    let Some(library) = Library::named(parts.as_slice()) else {
        return Ok(None);
    };
    let names = library_exports(alloc, library)?;
    Ok(Some(names))
}

fn library_exports(alloc: Global, library: Library) -> Result<Items<ImportedName>, Memory>
    ensures { IfOk result (λ r. r ≡ library_exports library) }
{
    let libraries = BuiltinLibraries {
        core: Rc::new(alloc, LibName::Core)?,
        derived: Rc::new(alloc, LibName::Derived)?,
    };
    let mut names = Items::new(alloc);
    for run in library.runs() {
        add_run(alloc, &libraries, *run, &mut names)?;
    }
    Ok(names)
}

fn add_run(
    alloc: Global,
    libraries: &BuiltinLibraries,
    run: Run,
    names: &mut Items<ImportedName>,
) -> Result<(), Memory>
    requires run { run.to ≤ name_count }
    requires core { libraries.now.core.value ≡ name.Core }
    requires derived { libraries.now.derived.value ≡ name.Derived }
    ensures { OnOk result (names.new ≡ names.old ++ map export (run_numbers run)) }
{
    for number in run.from..run.to {
        let name = Symbol::new(alloc, op_text(&Op(number)))?;
        let label = label_of(libraries, number)?;
        names.push(ImportedName { name, label })?;
    }
    Ok(())
}

fn label_of(libraries: &BuiltinLibraries, number: u16) -> Result<Label, Memory>
    requires core { libraries.now.core.value ≡ name.Core }
    requires derived { libraries.now.derived.value ≡ name.Derived }
    ensures { IfOk result (λ label. label ≡ label_of number) }
{
    match definition(&DERIVED, number) {
        Some(place) => label_in(&libraries.derived, place as u64),
        None => label_in(&libraries.core, number as u64),
    }
}

fn label_in(library: &Rc<LibName>, number: u64) -> Result<Label, Memory>
    ensures { IfOk result (λ label. label ≡ label_at library.now.value number) }
{
    let library = library.clone()?;
    Ok(Label(Name { library, number }))
}

// The place of a name among some definitions.
fn definition(definitions: &[Option<u16>], number: u16) -> Option<usize>
    ensures { result ≡ definition_from 0 number definitions.now }
{
    for (place, definition) in definitions.iter().enumerate() {
        if *definition == Some(number) {
            return Some(place);
        }
    }
    None
}

/// The report name of an op. It takes no memory.
pub fn op_name(op: Op) -> &'static str
    requires { op.0 < name_count }
    ensures { result.now ≡ op_text op.0 }
{
    op_text(&op)
}
