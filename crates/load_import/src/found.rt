//! The names of an import set, found by their places.

ghost use Rattle.std.specs.List.{cons_option};
ghost use Rattle.std.specs.List.Sorted.{IsStrictlyIncreasing};
ghost use Rattle.std.specs.Prelude.{◌≡◌, ℕ, List, [], ◌∷◌, ◌++◌, IfOk, OnOk, slice_get};
ghost use Rattle.load_import.specs.Names.{only};
ghost use Rattle.load_import.specs.Shared.{AreOwn, places_of, among, names_at};

use crate::imported::Names;
use crate::set::NameAt;
use base_data::imported_name::ImportedName;
use base_data::items::Items;
use base_data::memory::Memory;
use base_data::name::Label;
use base_data::symbol::Symbol;
use std::alloc::Global;

// An element more, where there is one.
fn push_some<T: Drop>(items: &mut Items<T>, item: Option<T>) -> Result<(), Memory>
    ensures { OnOk result (items.new ≡ items.old ++ cons_option item []) }
{
    match item {
        Some(item) => items.push(item),
        None => Ok(()),
    }
}

// The places of the identifiers' names.
fn places(alloc: Global, names: &Names, ids: &[NameAt]) -> Result<Items<usize>, Memory>
    ensures places { IfOk result (λ ps. ps ≡ places_of ids.now names.now) }
    ensures own { IfOk result (λ _. AreOwn names.now) }
{
    let count = names.at_most(ids.len());
    let mut places = Items::from_vec(Vec::with_capacity(alloc, count)?);
    for id in ids {
        push_some(&mut places, names.place_of(&id.name))?;
    }
    Ok(places)
}

// Places in order, each once.
fn in_order(places: Items<usize>) -> Items<usize>
    ensures rises { IsStrictlyIncreasing result }
    ensures same { (n : ℕ) → among n result ≡ among n places }
{
    let mut list = places.into_vec();
    list.sort_unstable();
    list.dedup();
    Items::from_vec(list)
}

fn share_name(name: &Symbol, label: &Label) -> Result<ImportedName, Memory>
    ensures { IfOk result (λ n. n ≡ record { name = name.now; label = label.now }) }
{
    let name = name.share()?;
    let label = label.share()?;
    Ok(ImportedName { name, label })
}

fn row_at(names: &Names, place: usize) -> Result<Option<ImportedName>, Memory>
    ensures { IfOk result (λ r. r ≡ slice_get names.now place) }
{
    match names.at(place) {
        Some((name, label)) => Ok(Some(share_name(name, label)?)),
        None => Ok(None),
    }
}

// The names at these places.
fn names_at(alloc: Global, names: &Names, places: &[usize]) -> Result<Items<ImportedName>, Memory>
    ensures { IfOk result (λ rows. rows ≡ names_at names.now places.now) }
{
    let mut rows = Items::new(alloc);
    for place in places {
        let row = row_at(names, *place)?;
        push_some(&mut rows, row)?;
    }
    Ok(rows)
}

/// The names that are among the identifiers', in their own order.
pub(crate) fn found(
    alloc: Global,
    names: &Names,
    ids: &[NameAt],
) -> Result<Items<ImportedName>, Memory>
    ensures { IfOk result (λ rows. rows ≡ only ids.now names.now) }
{
    let places = in_order(places(alloc, names, ids)?);
    names_at(alloc, names, places.as_slice())
}
