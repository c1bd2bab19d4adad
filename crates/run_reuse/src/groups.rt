//! Which sources are those of a library, among all that a run has read.

ghost use Rattle.std.specs.Prelude.{◌≡◌, ◌-◌, ◌∷◌, ◌++◌, [], IfOk, OnOk, is_some, slice_get, if◌then◌else◌};
ghost use Rattle.std.specs.List.{flat_map};
ghost use Rattle.load_files.specs.Found.{places_from};
ghost use Rattle.run_reuse.specs.Groups.{AreGroups, chosen, group_behind, group_of, groups_from, or_skip, picked, places, places_if, places_on};

use base_data::items::Items;
use base_data::memory::Memory;
use base_data::symbol::Symbol;
use load_files::found::{Found, Source};
use load_import::table::NameTable;
use std::alloc::Global;

/// Where the sources of a file stand: the paths under earlier roots, at which nothing stood, and its own path last.
#[derive(Clone, Copy)]
pub struct Group {
    pub first: usize,
    pub own: usize,
}

// Adds the group of a file, where it was there.
fn add_file(groups: &mut Items<Group>, source: &Source, group: Group) -> Result<(), Memory>
    ensures { OnOk result (groups.new ≡ groups.old ++ (if is_some source.now.held then group ∷ [] else [])) }
{
    if source.held.is_none() {
        return Ok(());
    }
    groups.push(group)?;
    Ok(())
}

// The first place of the next group, behind a source.
fn first_behind(source: &Source, first: usize, next: usize) -> usize
    ensures { result ≡ (if is_some source.now.held then next else first) }
{
    if source.held.is_some() { next } else { first }
}

// The groups of the files that were read, in order.
fn all_groups(alloc: Global, sources: &[Source]) -> Result<Items<Group>, Memory>
    ensures { IfOk result (λ gs. gs ≡ groups_from 0 0 sources.now) }
{
    let mut groups = Items::new(alloc);
    let mut first = 0;
    for place in 0..sources.len() {
        let source = &sources[place];
        add_file(&mut groups, source, Group { first, own: place })?;
        first = first_behind(source, first, place + 1);
    }
    Ok(groups)
}

// That of a library which was begun in this place.
fn group_behind(groups: &[Group], begun: Option<usize>) -> Option<Group>
    ensures { result ≡ group_behind groups.now begun }
{
    let Some(begun) = begun else {
        return None;
    };
    if begun < groups.len() && begun + 1 < groups.len() {
        Some(groups[begun + 1])
    } else {
        None
    }
}

// That of the library at a place.
fn group_of(
    all: &Items<Group>,
    begun: &NameTable<()>,
    done: &NameTable<Found>,
    place: usize,
) -> Option<Group>
    ensures { result ≡ group_of all.now begun.now (slice_get done.now place) }
{
    let (file, _) = done.at(place)?;
    group_behind(all.as_slice(), begun.place_of(file))
}

/// The groups of libraries, in the order of loading.
pub fn groups_of(
    alloc: Global,
    begun: &NameTable<()>,
    done: &NameTable<Found>,
    sources: &[Source],
) -> Result<Items<Group>, Memory>
    ensures { IfOk result (λ gs. AreGroups (groups_from 0 0 sources.now) begun.now done.now gs) }
{
    let all = all_groups(alloc, sources)?;
    let mut groups = Items::new(alloc);
    for place in 0..done.size() {
        let Some(group) = group_of(&all, begun, done, place) else {
            // Each library that is loaded was begun when its file was read, so this isn't come to.
            return Err(Memory);
        };
        groups.push(group)?;
    }
    Ok(groups)
}

// Adds the places from one up to another.
fn add_places(all: &mut Items<usize>, first: usize, end: usize) -> Result<(), Memory>
    ensures { OnOk result (all.new ≡ all.old ++ places_on first (end - first)) }
{
    for place in first..end {
        all.push(place)?;
    }
    Ok(())
}

// Adds the places of a group.
fn add_group(all: &mut Items<usize>, group: Group) -> Result<(), Memory>
    ensures { OnOk result (all.new ≡ all.old ++ places group) }
{
    if group.own < group.first {
        return Ok(());
    }
    add_places(all, group.first, group.own)?;
    all.push(group.own)?;
    Ok(())
}

fn add_group_at(all: &mut Items<usize>, groups: &[Group], place: usize) -> Result<(), Memory>
    ensures { OnOk result (all.new ≡ all.old ++ places_if (slice_get groups.now place)) }
{
    if place < groups.len() {
        return add_group(all, groups[place]);
    }
    Ok(())
}

fn add_group_where(
    all: &mut Items<usize>,
    groups: &[Group],
    place: usize,
    mark: bool,
) -> Result<(), Memory>
    ensures { OnOk result (all.new ≡ all.old ++ (if mark then places_if (slice_get groups.now place) else [])) }
{
    if mark {
        return add_group_at(all, groups, place);
    }
    Ok(())
}

// Adds the places of the groups of the libraries that are marked, in the order of loading.
fn add_marked(all: &mut Items<usize>, groups: &[Group], marks: &[bool]) -> Result<(), Memory>
    ensures { OnOk result (all.new ≡ all.old ++ flat_map (λ p. places_if (slice_get groups.now p)) (places_from 0 marks.now)) }
{
    for (place, mark) in marks.iter().enumerate() {
        add_group_where(all, groups, place, *mark)?;
    }
    Ok(())
}

/// The places of the sources of all that a library needs, in the order of loading, and then of its own.
pub(crate) fn chosen(alloc: Global, groups: &[Group], found: &Found) -> Result<Items<usize>, Memory>
    ensures { IfOk result (λ ps. ps ≡ chosen groups.now found.now) }
{
    let mut all = Items::new(alloc);
    add_marked(&mut all, groups, found.needs.as_slice())?;
    add_group_at(&mut all, groups, found.place)?;
    Ok(all)
}

// Another owner of a source, whose bytes are copied.
fn share_source(alloc: Global, source: &Source) -> Result<Source, Memory>
    ensures { IfOk result (λ s. s ≡ source.now) }
{
    let path = source.path.share()?;
    let held = share_held(alloc, &source.held)?;
    Ok(Source { path, held })
}

fn share_held(alloc: Global, held: &Option<Items<u8>>) -> Result<Option<Items<u8>>, Memory>
    ensures { IfOk result (λ h. h ≡ held.now) }
{
    match held {
        None => Ok(None),
        Some(held) => {
            let bytes = Vec::from_slice(alloc, held.as_slice())?;
            Ok(Some(Items::from_vec(bytes)))
        }
    }
}

/// The sources at some places.
pub(crate) fn picked(
    alloc: Global,
    sources: &[Source],
    places: &[usize],
) -> Result<Items<Source>, Memory>
    ensures { IfOk result (λ ss. ss ≡ picked sources.now places.now) }
{
    let mut all = Items::new(alloc);
    for place in places {
        add_source_at(alloc, &mut all, sources, *place)?;
    }
    Ok(all)
}

// Adds another owner of a source.
fn add_source(alloc: Global, all: &mut Items<Source>, source: &Source) -> Result<(), Memory>
    ensures { OnOk result (all.new ≡ all.old ++ source.now ∷ []) }
{
    let source = share_source(alloc, source)?;
    all.push(source)?;
    Ok(())
}

fn add_source_at(
    alloc: Global,
    all: &mut Items<Source>,
    sources: &[Source],
    place: usize,
) -> Result<(), Memory>
    ensures { OnOk result (all.new ≡ all.old ++ or_skip (slice_get sources.now place) []) }
{
    if place < sources.len() {
        return add_source(alloc, all, &sources[place]);
    }
    Ok(())
}

/// Other owners of these.
pub(crate) fn share_all(alloc: Global, symbols: &[Symbol]) -> Result<Items<Symbol>, Memory>
    ensures { IfOk result (λ ss. ss ≡ symbols.now) }
{
    let mut all = Items::new(alloc);
    for symbol in symbols {
        let symbol = symbol.share()?;
        all.push(symbol)?;
    }
    Ok(all)
}
