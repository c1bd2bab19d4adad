//! Entries as bytes.

ghost use Rattle.std.specs.Prelude.{◌≡◌, IfOk, OnOk, Some, None, option_map, if◌then◌else◌};
ghost use Rattle.base_bytes.specs.Codec.{blob, listed, optional, some_get};
ghost use Rattle.base_bytes.specs.Puts.{Puts, PutsIf};
ghost use Rattle.core_cache.specs.Entry as spell;
ghost use Rattle.core_cache.specs.EntryLaws.{RoundTrip, NothingElse};

use base_bytes::libraries::RecentLibraries;
use base_bytes::numbers::{put_u64, u64_at};
use base_bytes::spelled::Spelled;
use base_bytes::texts::{blob_at, put_blob};
use base_data::items::Items;
use base_data::memory::Memory;
use base_data::symbol::Symbol;
use core_language::record::CompiledLibrary;
use core_pattern_bytes::held::HeldReading;
use core_record_bytes::record::{put_record, record_at};
use load_files::found::Source;
use std::alloc::Global;

/// A library that was expanded: the path of its file, the roots of the run, the sources of all that it needs with
/// its own last, and its record.
#[derive(Drop)]
pub struct Entry {
    pub path: Symbol,
    pub roots: Items<Symbol>,
    pub sources: Items<Source>,
    pub stored: CompiledLibrary,
}

/// What is encoded of an entry with a spelling is decoded to that entry.
pub fn an_entry_is_decoded()
    ensures { RoundTrip }
{}

/// No bytes are decoded but those that are encoded of an entry with a spelling.
pub fn nothing_else_is_decoded()
    ensures { NothingElse }
{}

/// The bytes of a file, where it was there.
fn put_held(out: &mut Vec<u8>, held: &Option<Items<u8>>) -> Result<(), Memory>
    ensures { OnOk result (Puts (optional blob) held.now out.old.items out.new.items) }
{
    match held {
        None => {
            out.push(0)?;
            Ok(())
        }
        Some(bytes) => {
            out.push(1)?;
            put_blob(out, bytes.as_slice())
        }
    }
}

/// The bytes of a file, where it was there, in their place among those of an entry.
pub(crate) fn held_in(bytes: &[u8]) -> Option<(Option<&[u8]>, &[u8])>
    ensures { option_map (λ x. (option_map (λ h. h.now) x.0, x.1.now)) result ≡ (optional blob).get bytes.now }
{
    match bytes {
        [] => None,
        [0, rest @ ..] => Some((None, rest)),
        [1, rest @ ..] => {
            let (held, rest) = blob_at(rest)?;
            Some((Some(held), rest))
        }
        [_, ..] => None,
    }
}

fn copied(alloc: Global, bytes: &[u8]) -> Result<Items<u8>, Memory>
    ensures { IfOk result (λ i. i ≡ bytes.now) }
{
    let mut list = Vec::new(alloc);
    list.extend_from_slice(bytes)?;
    Ok(Items::from_vec(list))
}

fn held_of(alloc: Global, held: Option<&[u8]>) -> Result<Option<Items<u8>>, Memory>
    ensures { IfOk result (λ o. o ≡ option_map (λ h. h.now) held.entry) }
{
    match held {
        None => Ok(None),
        Some(bytes) => {
            let bytes = copied(alloc, bytes)?;
            Ok(Some(bytes))
        }
    }
}

fn held_at(alloc: Global, bytes: &[u8]) -> Result<Option<(Option<Items<u8>>, &[u8])>, Memory>
    ensures { IfOk result (λ o. option_map (λ x. (x.0, x.1.now)) o ≡ (optional blob).get bytes.now) }
{
    let Some((held, rest)) = held_in(bytes) else {
        return Ok(None);
    };
    let held = held_of(alloc, held)?;
    Ok(Some((held, rest)))
}

#[tactic(auto, unfolding(crate::specs::Entry::source))]
fn put_source(out: &mut Vec<u8>, source: &Source) -> Result<(), Memory>
    ensures { OnOk result (Puts spell.source source.now out.old.items out.new.items) }
{
    source.path.put(out)?;
    put_held(out, &source.held)
}

#[tactic(auto, unfolding(crate::specs::Entry::source))]
fn source_at<'a>(
    libraries: &mut RecentLibraries,
    bytes: &'a [u8],
) -> Result<Option<(Source, &'a [u8])>, Memory>
    ensures { IfOk result (λ o. option_map (λ x. (x.0, x.1.now)) o ≡ spell.source.get bytes.now) }
{
    let Some((path, rest)) = Symbol::at(libraries, bytes)? else {
        return Ok(None);
    };
    let Some((held, rest)) = held_at(libraries.alloc(), rest)? else {
        return Ok(None);
    };
    Ok(Some((Source { path, held }, rest)))
}

fn put_sources(out: &mut Vec<u8>, sources: &[Source]) -> Result<(), Memory>
    ensures { OnOk result (Puts (listed spell.source) sources.now out.old.items out.new.items) }
{
    put_u64(out, sources.len() as u64)?;
    for source in sources {
        put_source(out, source)?;
    }
    Ok(())
}

fn sources_at<'a>(
    libraries: &mut RecentLibraries,
    bytes: &'a [u8],
) -> Result<Option<(Vec<Source>, &'a [u8])>, Memory>
    ensures { IfOk result (λ o. option_map (λ x. (x.0.items, x.1.now)) o ≡ (listed spell.source).get bytes.now) }
{
    match u64_at(bytes) {
        Some((count, rest)) => some_sources(libraries, count, rest),
        None => Ok(None),
    }
}

fn some_sources<'a>(
    libraries: &mut RecentLibraries,
    count: u64,
    bytes: &'a [u8],
) -> Result<Option<(Vec<Source>, &'a [u8])>, Memory>
    ensures { IfOk result (λ o. option_map (λ x. (x.0.items, x.1.now)) o ≡ some_get spell.source.get count bytes.now) }
{
    let mut list = Vec::new(libraries.alloc());
    let mut rest = bytes;
    for _ in 0..count {
        let Some((source, after)) = source_at(libraries, rest)? else {
            return Ok(None);
        };
        list.push(source)?;
        rest = after;
    }
    Ok(Some((list, rest)))
}

#[tactic(auto, unfolding(crate::specs::Entry::entry))]
fn put_entry(out: &mut Vec<u8>, alloc: Global, entry: &Entry) -> Result<bool, Memory>
    ensures { IfOk result (λ b. PutsIf spell.entry entry.now out.old.items out.new.items b) }
{
    entry.path.put(out)?;
    entry.roots.put(out)?;
    put_sources(out, entry.sources.as_slice())?;
    put_record(out, alloc, &entry.stored)
}

#[tactic(auto, unfolding(crate::specs::Entry::entry))]
fn entry_at<'a>(
    libraries: &mut RecentLibraries,
    bytes: &'a [u8],
) -> Result<Option<(HeldReading<Entry>, &'a [u8])>, Memory>
    ensures { IfOk result (λ o. option_map (λ x. (x.0.value, x.1.now)) o ≡ spell.entry.get bytes.now) }
{
    let Some((path, rest)) = Symbol::at(libraries, bytes)? else {
        return Ok(None);
    };
    let Some((roots, rest)) = Spelled::at(libraries, rest)? else {
        return Ok(None);
    };
    let Some((sources, rest)) = sources_at(libraries, rest)? else {
        return Ok(None);
    };
    let Some((stored, rest)) = record_at(libraries, &[], rest)? else {
        return Ok(None);
    };
    let entry = Entry {
        path,
        roots,
        sources: Items::from_vec(sources),
        stored: stored.take(),
    };
    Ok(Some((HeldReading::new(entry), rest)))
}

/// The spelling of an entry, or nothing where its record has none.
pub fn encode_entry(alloc: Global, entry: &Entry) -> Result<Option<Vec<u8>>, Memory>
    ensures { IfOk result (λ o. option_map (λ v. v.items) o ≡ (if spell.has_spelling entry.now then Some (spell.encode entry.now) else None)) }
{
    let mut out = Vec::new(alloc);
    if put_entry(&mut out, alloc, entry)? {
        Ok(Some(out))
    } else {
        Ok(None)
    }
}

/// The entry that all of the bytes spell, or nothing where they spell none.
pub fn decode_entry(alloc: Global, bytes: &[u8]) -> Result<Option<Entry>, Memory>
    ensures { IfOk result (λ o. o ≡ spell.decode bytes.now) }
{
    let mut libraries = RecentLibraries::new(alloc);
    match entry_at(&mut libraries, bytes)? {
        Some((entry, rest)) => {
            if rest.is_empty() {
                Ok(Some(entry.take()))
            } else {
                Ok(None)
            }
        }
        None => Ok(None),
    }
}
