//! Names of libraries, and their versions.

ghost use Rattle.std.specs.Prelude.{◌≡◌, [], IfOk};
ghost use Rattle.load_forms.specs.Name.{leading, behind, int_of_atom, int_of, number_of_int, number, version, version_in, named_by, named};
ghost use Rattle.load_forms.specs.All.{all_of};

use base_data::atom::Atom;
use base_data::datum::Datum;
use base_data::items::Items;
use base_data::library::LibName;
use base_data::memory::Memory;
use base_data::symbol::Symbol;
use std::alloc::Global;

/// The name of a library, and its version.
#[derive(Drop)]
pub struct VersionedName {
    pub name: LibName,
    pub version: Items<u64>,
}

/// The identifiers at the front of a list.
pub(crate) fn leading(alloc: Global, items: &[Datum]) -> Result<Items<Symbol>, Memory>
    ensures { IfOk result (λ parts. parts ≡ leading items.now) }
{
    let mut parts = Items::new(alloc);
    for item in items {
        let Some(symbol) = item.as_symbol() else {
            return Ok(parts);
        };
        parts.push(symbol.share()?)?;
    }
    Ok(parts)
}

/// What comes after the identifiers at the front of a list.
pub fn behind(items: &[Datum]) -> &[Datum]
    ensures { result.now ≡ behind items.now }
{
    let mut left = items;
    loop {
        let Some((first, others)) = left.split_first() else {
            return left;
        };
        if first.as_symbol().is_none() {
            return left;
        }
        left = others;
    }
}

fn int_of_atom(atom: &Atom) -> Option<i128>
    ensures { result ≡ int_of_atom atom.now }
{
    match atom {
        Atom::Int(number) => Some(*number),
        _ => None,
    }
}

/// The integer that a datum is.
pub(crate) fn int_of(datum: &Datum) -> Option<i128>
    ensures { result ≡ int_of datum.now }
{
    int_of_atom(datum.as_atom()?)
}

/// A number of a version.
pub fn number(datum: &Datum) -> Option<u64>
    ensures { result ≡ number datum.now }
{
    number_of_int(int_of(datum)?)
}

fn number_of_int(number: i128) -> Option<u64>
    ensures { result ≡ number_of_int number }
{
    u64::try_from(number).ok()
}

fn numbers(alloc: Global, items: &[Datum]) -> Result<Option<Items<u64>>, Memory>
    ensures { IfOk result (λ r. r ≡ all_of number [] items.now) }
{
    let mut list = Items::new(alloc);
    for item in items {
        let Some(number) = number(item) else {
            return Ok(None);
        };
        list.push(number)?;
    }
    Ok(Some(list))
}

fn version(alloc: Global, datum: &Datum) -> Result<Option<Items<u64>>, Memory>
    ensures { IfOk result (λ r. r ≡ version datum.now) }
{
    match datum.as_list() {
        Some(items) => numbers(alloc, items),
        None => Ok(None),
    }
}

fn version_in(alloc: Global, items: &[Datum]) -> Result<Option<Items<u64>>, Memory>
    ensures { IfOk result (λ r. r ≡ version_in items.now) }
{
    match items {
        [] => Ok(Some(Items::new(alloc))),
        [last] => version(alloc, last),
        _ => Ok(None),
    }
}

/// The name and version of a library, where a datum is one.
pub fn named(alloc: Global, datum: &Datum) -> Result<Option<VersionedName>, Memory>
    ensures { IfOk result (λ r. r ≡ named datum.now) }
{
    match datum.as_list() {
        Some(items) => named_by(alloc, items),
        None => Ok(None),
    }
}

fn named_by(alloc: Global, items: &[Datum]) -> Result<Option<VersionedName>, Memory>
    ensures { IfOk result (λ r. r ≡ named_by (leading items.now) (version_in (behind items.now))) }
{
    let parts = leading(alloc, items)?;
    if parts.as_slice().is_empty() {
        return Ok(None);
    }
    match version_in(alloc, behind(items))? {
        Some(version) => {
            let name = LibName::User(parts);
            Ok(Some(VersionedName { name, version }))
        }
        None => Ok(None),
    }
}
