//! Library forms and programs.

ghost use Rattle.std.specs.Prelude.{◌≡◌, [], ◌++◌, IfOk, Ok, Some, drop, option_map};
ghost use Rattle.base_data.specs.Gives.{Gives, Stops, StopsWith};
ghost use Rattle.load_forms.specs.Form.{behind_word, form_of, first_place, not_library, bad_form, import_specs, export_specs, library_with, library_of, library_parts, library_in, read_library, library_body, body_in, program_of, read_program, program_body};
ghost use Rattle.load_forms.specs.Name.{named};
ghost use Rattle.std.specs.Prelude.{codes};

use crate::export::{Export, export_spec, exported};
use crate::name::{VersionedName, named};
use crate::set::{Import, datum_place, import_spec, start};
use crate::words::is_word;
use base_data::datum::Datum;
use base_data::fault::{Fault, FaultKind, Stop};
use base_data::items::Items;
use base_data::library::LibName;
use base_data::span::Span;
use base_data::symbol::Symbol;
use load_import::set::NameAt;
use load_import::table::NameTable;
use std::alloc::Global;

/// What a library or a program says before its body.
#[derive(Drop)]
pub struct LibraryForm {
    pub name: LibName,
    pub name_span: Span,
    pub version: Items<u64>,
    /// Each external name with the internal one.
    pub exports: NameTable<NameAt>,
    pub imports: Items<Import>,
}

// What stands in a library form before its body.
#[derive(Drop)]
struct LibraryHead<'a> {
    name: &'a Datum,
    exports: &'a Datum,
    imports: &'a Datum,
}

// What stands in the export form of a library, and in its import form.
#[derive(Drop)]
struct Specs<'a> {
    exports: &'a [Datum],
    imports: &'a [Datum],
}

/// The library that the data of a file are.
pub fn read_library(alloc: Global, file: &Symbol, items: &[Datum]) -> Result<LibraryForm, Stop>
    ensures { Gives (λ form. form) result (read_library file.now items.now) }
{
    let [datum] = items else {
        return Err(not_library(alloc, file, items));
    };
    match form_of(datum, "library") {
        Some(parts) => library_in(alloc, file, items, parts),
        None => Err(not_library(alloc, file, items)),
    }
}

fn library_in(
    alloc: Global,
    file: &Symbol,
    items: &[Datum],
    parts: &[Datum],
) -> Result<LibraryForm, Stop>
    ensures { Gives (λ form. form) result (library_in file.now (not_library file.now items.now) parts.now) }
{
    let [name, exports, imports, ..] = parts else {
        return Err(not_library(alloc, file, items));
    };
    let head = LibraryHead {
        name,
        exports,
        imports,
    };
    library_parts(alloc, file, items, &head)
}

fn library_parts(
    alloc: Global,
    file: &Symbol,
    items: &[Datum],
    head: &LibraryHead,
) -> Result<LibraryForm, Stop>
    ensures { Gives (λ form. form) result (library_parts file.now (not_library file.now items.now) head.now.name.now
        (named head.now.name.now) (form_of (codes "export") head.now.exports.now) (form_of (codes "import") head.now.imports.now)) }
{
    let Some(named) = named(alloc, head.name)? else {
        return Err(not_library(alloc, file, items));
    };
    let Some(exports) = form_of(head.exports, "export") else {
        return Err(not_library(alloc, file, items));
    };
    let Some(imports) = form_of(head.imports, "import") else {
        return Err(not_library(alloc, file, items));
    };
    let place = datum_place(file, head.name)?;
    let specs = Specs { exports, imports };
    library_of(alloc, file, place, named, &specs)
}

fn library_of(
    alloc: Global,
    file: &Symbol,
    place: Span,
    named: VersionedName,
    specs: &Specs,
) -> Result<LibraryForm, Stop>
    ensures { Gives (λ form. form) result (library_of file.now place specs.now.exports.now specs.now.imports.now named) }
{
    let exports = export_specs(alloc, file, specs.exports)?;
    let imports = import_specs(alloc, file, specs.imports)?;
    let exports = exported(alloc, exports.as_slice())?;
    Ok(LibraryForm {
        name: named.name,
        name_span: place,
        version: named.version,
        exports,
        imports,
    })
}

/// The forms of a library's body.
pub fn library_body(items: &[Datum]) -> &[Datum]
    ensures { result.now ≡ library_body items.now }
{
    let Some(datum) = items.first() else {
        return &[];
    };
    match form_of(datum, "library") {
        Some([_, _, _, body @ ..]) => body,
        _ => &[],
    }
}

/// The program that the data of a file are.
pub fn read_program(alloc: Global, file: &Symbol, items: &[Datum]) -> Result<LibraryForm, Stop>
    ensures { Gives (λ form. form) result (read_program file.now items.now) }
{
    let Some(first) = items.first() else {
        return Err(not_library(alloc, file, items));
    };
    let Some(specs) = form_of(first, "import") else {
        return Err(not_library(alloc, file, items));
    };
    let place = datum_place(file, first)?;
    program_of(alloc, file, place, specs)
}

fn program_of(
    alloc: Global,
    file: &Symbol,
    place: Span,
    specs: &[Datum],
) -> Result<LibraryForm, Stop>
    ensures { Gives (λ form. form) result (program_of file.now place specs.now) }
{
    let imports = import_specs(alloc, file, specs)?;
    Ok(LibraryForm {
        name: LibName::Program,
        name_span: place,
        version: Items::new(alloc),
        exports: NameTable::new(alloc),
        imports,
    })
}

/// The forms of a program's body.
pub fn program_body(items: &[Datum]) -> &[Datum]
    ensures { result.now ≡ program_body items.now }
{
    match items {
        [_, body @ ..] => body,
        [] => items,
    }
}

// What stands behind a word at the front of a list.
fn form_of<'a>(datum: &'a Datum, word: &str) -> Option<&'a [Datum]>
    ensures { option_map (λ ds. ds.now) result ≡ form_of word.now datum.now }
{
    let (head, others) = datum.as_list()?.split_first()?;
    if is_word(head, word) {
        Some(others)
    } else {
        None
    }
}

fn import_specs(alloc: Global, file: &Symbol, specs: &[Datum]) -> Result<Items<Import>, Stop>
    ensures { Gives (λ list. list) result (import_specs file.now [] specs.now) }
{
    let mut list = Items::new(alloc);
    for spec in specs {
        let Some(import) = import_spec(alloc, file, spec)? else {
            return Err(bad_form(alloc, file, spec));
        };
        list.push(import)?;
    }
    Ok(list)
}

fn export_specs(alloc: Global, file: &Symbol, specs: &[Datum]) -> Result<Items<Export>, Stop>
    ensures { Gives (λ list. list) result (export_specs file.now [] specs.now) }
{
    let mut list = Items::new(alloc).into_vec();
    for spec in specs {
        let Some(exports) = export_spec(alloc, file, spec)? else {
            return Err(bad_form(alloc, file, spec));
        };
        list.append(&mut exports.into_vec())?;
    }
    Ok(Items::from_vec(list))
}

fn not_library(alloc: Global, file: &Symbol, items: &[Datum]) -> Stop
    ensures { StopsWith result (not_library file.now items.now) }
{
    let span = match items.first() {
        Some(first) => datum_place(file, first),
        None => start(file),
    };
    match span {
        Ok(span) => fault(alloc, FaultKind::NotLibrary, span),
        Err(memory) => Stop::from(memory),
    }
}

fn bad_form(alloc: Global, file: &Symbol, spec: &Datum) -> Stop
    ensures { StopsWith result (bad_form file.now spec.now) }
{
    match datum_place(file, spec) {
        Ok(span) => fault(alloc, FaultKind::BadForm, span),
        Err(memory) => Stop::from(memory),
    }
}

fn fault(alloc: Global, kind: FaultKind, span: Span) -> Stop
    ensures { StopsWith result (record { kind = kind; span = span; words = [] }) }
{
    let words = Items::new(alloc);
    Stop::Fault(Fault { kind, span, words })
}
