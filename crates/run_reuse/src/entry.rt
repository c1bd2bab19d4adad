//! The entries of a run.

ghost use Rattle.std.specs.Prelude.{◌≡◌, IfOk, option_map, slice_get};
ghost use Rattle.std.specs.String.{string_bytes};
ghost use Rattle.core_cache.specs.Fitting.{stored_in};
ghost use Rattle.run_reuse.specs.Entries.{bytes_of, entry_in, held_or_none, if_fits, own_source, place_of, spelled};
ghost use Rattle.run_reuse.specs.Groups.{chosen, picked};

use crate::groups::{Group, chosen, picked, share_all};
use base_data::items::Items;
use base_data::memory::Memory;
use base_data::symbol::Symbol;
use core_cache::entry::{Entry, encode_entry};
use core_cache::fitting::sealed_record;
use core_cache::place::place;
use core_cache::seal::seal;
use core_language::record::CompiledLibrary;
use core_record_bytes::record::Decoding;
use load_files::found::{Found, Source};
use std::alloc::Global;
use std::marker::Model;

/// The most bytes of an entry.
pub const ENTRY_LIMIT: usize = 8_388_608;

/// What entries of a run are made of beside their records, and where they are kept.
#[derive(Drop)]
pub struct Cache<'a> {
    /// The directory.
    pub dir: &'a Symbol,
    pub roots: &'a [Symbol],
    /// All that the run has read.
    pub sources: &'a [Source],
    /// Those of each library, in the order of loading.
    pub groups: &'a [Group],
}

impl<'a> Model for Cache<'a> {
    ghost use Rattle.run_reuse.specs.Entries.{CacheInputs};

    ghost Value = { CacheInputs };

    ghost view = { λ c. record { dir = c.dir.now; roots = c.roots.now; sources = c.sources.now; groups = c.groups.now } };
}

// The bytes of a file, or none where it wasn't there.
fn held_bytes(source: &Source) -> &[u8]
    ensures { result.now ≡ held_or_none source.now.held }
{
    match &source.held {
        Some(held) => held.as_slice(),
        None => &[],
    }
}

fn bytes_at<'a>(sources: &'a [Source], place: usize) -> &'a [u8]
    ensures { result.now ≡ bytes_of (slice_get sources.now place) }
{
    if place < sources.len() {
        held_bytes(&sources[place])
    } else {
        &[]
    }
}

impl<'a> Cache<'a> {
    // The bytes of a library's own file.
    fn own_source(&self, found: &Found) -> &'a [u8]
        ensures { result.now ≡ own_source self.now found.now }
    {
        if found.place < self.groups.len() {
            bytes_at(self.sources, self.groups[found.place].own)
        } else {
            &[]
        }
    }

    // Where the entry of a library is kept.
    fn place_of(&self, alloc: Global, found: &Found) -> Result<String, Memory>
        ensures { IfOk result (λ s. string_bytes s ≡ place_of self.now found.now) }
    {
        let source = self.own_source(found);
        place(alloc, self.dir.as_str(), found.opened.path.as_str(), source)
    }

    /// A library whose turn it is.
    pub(crate) fn due(&self, alloc: Global, found: Found) -> Result<Due, Memory>
        ensures { IfOk result (λ d. (d.found ≡ found) × (string_bytes d.place ≡ place_of self.now found)) }
    {
        let place = self.place_of(alloc, &found)?;
        Ok(Due { found, place })
    }

    /// The entry of a library, but for its record.
    pub(crate) fn unmade(&self, alloc: Global, found: &Found) -> Result<Unmade, Memory>
        ensures { IfOk result (λ u. u ≡ record {
          path = found.now.opened.path;
          roots = self.now.roots;
          sources = picked self.now.sources (chosen self.now.groups found.now);
        }) }
    {
        let path = found.opened.path.share()?;
        let roots = share_all(alloc, self.roots)?;
        let chosen = chosen(alloc, self.groups, found)?;
        let sources = picked(alloc, self.sources, chosen.as_slice())?;
        Ok(Unmade {
            path,
            roots,
            sources,
        })
    }

    /// The record of the entry that the bytes are, sealed, where it is an entry of a library's roots and sources.
    pub(crate) fn record_in(
        &self,
        decoding: &Decoding,
        found: &Found,
        bytes: &[u8],
    ) -> Result<Option<CompiledLibrary>, Memory>
        ensures { IfOk result (λ o. o ≡ if_fits self.now found.now (entry_in bytes.now)) }
    {
        let chosen = chosen(decoding.alloc, self.groups, found)?;
        record_sealed(decoding, bytes, self.roots, self.sources, chosen.as_slice())
    }
}

// The record of the entry that the bytes are, sealed, where it is an entry of these roots, and of the sources at these
// places.
fn record_sealed(
    decoding: &Decoding,
    bytes: &[u8],
    roots: &[Symbol],
    sources: &[Source],
    chosen: &[usize],
) -> Result<Option<CompiledLibrary>, Memory>
    ensures { IfOk result (λ o. o ≡ stored_in roots.now sources.now chosen.now (entry_in bytes.now)) }
{
    sealed_record(decoding, bytes, roots, sources, chosen)
}

/// A library whose turn it is, and where its entry is kept.
#[derive(Drop)]
pub struct Due {
    pub found: Found,
    pub place: String,
}

/// An entry without its record.
#[derive(Drop)]
pub struct Unmade {
    pub path: Symbol,
    pub roots: Items<Symbol>,
    pub sources: Items<Source>,
}

impl Unmade {
    /// The entry with its record. It takes no memory.
    pub fn with(self, stored: CompiledLibrary) -> Entry
        ensures { result ≡ record { path = self.path; roots = self.roots; sources = self.sources; stored = stored } }
    {
        let Unmade {
            path,
            roots,
            sources,
        } = self;
        Entry {
            path,
            roots,
            sources,
            stored,
        }
    }
}

/// The bytes of an entry, where it has a spelling.
pub(crate) fn spelled(alloc: Global, entry: &Entry) -> Result<Option<Vec<u8>>, Memory>
    ensures { IfOk result (λ o. option_map (λ v. v.items) o ≡ spelled entry.now) }
{
    match encode_entry(alloc, entry)? {
        Some(body) => {
            let sealed = seal(alloc, &body)?;
            Ok(Some(sealed))
        }
        None => Ok(None),
    }
}
