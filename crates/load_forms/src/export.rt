//! Export specs.

ghost use Rattle.std.specs.Prelude.{◌≡◌, [], ◌++◌, IfOk, Ok, Err, if◌then◌else◌};
ghost use Rattle.load_import.specs.Table.{same_text};
ghost use Rattle.base_data.specs.Gives.{Gives, Stops, StopsWith};
ghost use Rattle.load_forms.specs.All.{all_of};
ghost use Rattle.load_forms.specs.Export.{export_pair_in, export_pair, export_renames, export_by, export_spec, export_twice, add_by, add_export, exported};

use crate::set::name_at;
use crate::words::is_word;
use base_data::datum::Datum;
use base_data::fault::{Fault, FaultKind, Stop};
use base_data::items::Items;
use base_data::memory::Memory;
use base_data::symbol::Symbol;
use load_import::set::NameAt;
use load_import::table::NameTable;
use std::alloc::Global;

/// An identifier of the library, and the name that it is exported as.
#[derive(Drop)]
pub struct Export {
    pub internal: NameAt,
    pub external: NameAt,
}

fn export_pair(file: &Symbol, datum: &Datum) -> Result<Option<Export>, Memory>
    ensures { IfOk result (λ r. r ≡ export_pair file.now datum.now) }
{
    match datum.as_list() {
        Some(items) => export_pair_in(file, items),
        None => Ok(None),
    }
}

fn export_pair_in(file: &Symbol, items: &[Datum]) -> Result<Option<Export>, Memory>
    ensures { IfOk result (λ r. r ≡ export_pair_in file.now items.now) }
{
    let [internal, external] = items else {
        return Ok(None);
    };
    let Some(internal) = name_at(file, internal)? else {
        return Ok(None);
    };
    let Some(external) = name_at(file, external)? else {
        return Ok(None);
    };
    Ok(Some(Export { internal, external }))
}

fn export_pairs(
    alloc: Global,
    file: &Symbol,
    items: &[Datum],
) -> Result<Option<Items<Export>>, Memory>
    ensures { IfOk result (λ r. r ≡ all_of (export_pair file.now) [] items.now) }
{
    let mut list = Items::new(alloc);
    for item in items {
        let Some(export) = export_pair(file, item)? else {
            return Ok(None);
        };
        list.push(export)?;
    }
    Ok(Some(list))
}

fn export_renames(
    alloc: Global,
    file: &Symbol,
    items: &[Datum],
) -> Result<Option<Items<Export>>, Memory>
    ensures { IfOk result (λ r. r ≡ export_renames file.now items.now) }
{
    let Some((head, pairs)) = items.split_first() else {
        return Ok(None);
    };
    if is_word(head, "rename") {
        export_pairs(alloc, file, pairs)
    } else {
        Ok(None)
    }
}

/// What an export spec exports, where a datum is one.
pub(crate) fn export_spec(
    alloc: Global,
    file: &Symbol,
    datum: &Datum,
) -> Result<Option<Items<Export>>, Memory>
    ensures { IfOk result (λ r. r ≡ export_spec file.now datum.now) }
{
    if let Some(internal) = name_at(file, datum)? {
        let Some(external) = name_at(file, datum)? else {
            return Ok(None);
        };
        let mut list = Items::new(alloc);
        list.push(Export { internal, external })?;
        return Ok(Some(list));
    }
    match datum.as_list() {
        Some(items) => export_renames(alloc, file, items),
        None => Ok(None),
    }
}

/// External names with the internal ones, each once.
pub fn exported(alloc: Global, exports: &[Export]) -> Result<NameTable<NameAt>, Stop>
    ensures { Gives (λ t. t) result (exported exports.now) }
{
    let mut names = NameTable::new(alloc);
    for export in exports {
        add_export(alloc, &mut names, export)?;
    }
    Ok(names)
}

fn add_export(alloc: Global, names: &mut NameTable<NameAt>, export: &Export) -> Result<(), Stop>
    ensures { Gives (λ _. names.new) result (add_export names.old export.now) }
{
    if let Some(other) = names.get(&export.external.name) {
        return again(alloc, other, export);
    }
    let internal = share_name(&export.internal)?;
    names.put_first(export.external.name.share()?, internal)?;
    Ok(())
}

// An external name that is there already.
fn again(alloc: Global, other: &NameAt, export: &Export) -> Result<(), Stop>
    ensures { Gives (λ u. u) result (if same_text other.now.name export.now.internal.name then Ok tt else Err (export_twice export.now.external)) }
{
    if other.name == export.internal.name {
        Ok(())
    } else {
        Err(export_twice(alloc, &export.external))
    }
}

fn share_name(id: &NameAt) -> Result<NameAt, Memory>
    ensures { IfOk result (λ n. n ≡ id.now) }
{
    let name = id.name.share()?;
    let span = id.span.share()?;
    Ok(NameAt { name, span })
}

fn export_twice(alloc: Global, external: &NameAt) -> Stop
    ensures { StopsWith result (export_twice external.now) }
{
    match twice_made(alloc, external) {
        Ok(fault) => Stop::Fault(fault),
        Err(memory) => Stop::from(memory),
    }
}

fn twice_made(alloc: Global, external: &NameAt) -> Result<Fault, Memory>
    ensures { IfOk result (λ fault. fault ≡ export_twice external.now) }
{
    let span = external.span.share()?;
    let mut words = Items::new(alloc);
    words.push(external.name.share()?)?;
    Ok(Fault {
        kind: FaultKind::ExportTwice,
        span,
        words,
    })
}
