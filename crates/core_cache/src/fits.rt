//! Whether an entry is of the roots and sources of a run.

ghost use Rattle.std.specs.Prelude.{◌≡◌, slice_get};
ghost use Rattle.core_cache.specs.Fits.{are_at, fits, is_source, same_held, same_source};
ghost use Rattle.core_cache.specs.FitsLaws.{FitsExactly};

use crate::entry::Entry;
use base_data::items::Items;
use base_data::symbol::Symbol;
use load_files::found::Source;

fn same_held(a: &Option<Items<u8>>, b: &Option<Items<u8>>) -> bool
    ensures { result ≡ same_held a.now b.now }
{
    match (a, b) {
        (None, None) => true,
        (Some(a), Some(b)) => a.as_slice() == b.as_slice(),
        (None, Some(_)) => false,
        (Some(_), None) => false,
    }
}

fn same_source(a: &Source, b: &Source) -> bool
    ensures { result ≡ same_source a.now b.now }
{
    a.path == b.path && same_held(&a.held, &b.held)
}

/// Whether this source stands at a place.
fn is_at(source: &Source, sources: &[Source], place: usize) -> bool
    ensures { result ≡ is_source source.now (slice_get sources.now place) }
{
    if place < sources.len() {
        same_source(source, &sources[place])
    } else {
        false
    }
}

/// Whether the sources are those at the places, in their order.
fn are_at(sources: &[Source], chosen: &[usize], kept: &[Source]) -> bool
    ensures { result ≡ are_at sources.now chosen.now kept.now }
{
    let mut places = chosen;
    let mut left = kept;
    while let [place, further @ ..] = places {
        let [source, after @ ..] = left else {
            return false;
        };
        if !is_at(source, sources, *place) {
            return false;
        }
        places = further;
        left = after;
    }
    left.is_empty()
}

/// Whether an entry is of these roots, and of the sources at these places, in their order. It takes no memory.
#[tactic(auto, unfolding(crate::specs::Fits::fits))]
pub fn fits(entry: &Entry, roots: &[Symbol], sources: &[Source], chosen: &[usize]) -> bool
    ensures { result ≡ fits entry.now roots.now sources.now chosen.now }
{
    entry.roots.as_slice() == roots && are_at(sources, chosen, entry.sources.as_slice())
}

/// An entry fits exactly where its roots and its sources are the same.
pub fn an_entry_fits_exactly()
    ensures { FitsExactly }
{}
