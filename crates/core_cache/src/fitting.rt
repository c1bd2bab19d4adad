//! The record of an entry that fits. The sources of the entry are compared where they stand among its bytes, and
//! no value is made of them.

ghost use Rattle.std.specs.Prelude.{◌≡◌, IfOk, Some, length, option_map, slice_get};
ghost use Rattle.std.specs.Cmp.Lexicographic.{pointwise};
ghost use Rattle.base_bytes.specs.Codec as spec;
ghost use Rattle.base_bytes.specs.Codec.{listed, some_get};
ghost use Rattle.core_cache.specs.Entry as spell;
ghost use Rattle.core_cache.specs.Fits.{are_at, is_source, same_held, same_source, same_text};
ghost use Rattle.core_cache.specs.Fitting.{behind, front, sealed_record, source_of};

use crate::entry::held_in;
use crate::seal::{behind_seal, is_sealed};
use base_bytes::numbers::u64_at;
use base_bytes::texts::text_at;
use base_data::items::Items;
use base_data::memory::Memory;
use base_data::symbol::Symbol;
use core_language::record::CompiledLibrary;
use core_record_bytes::record::{Decoding, decode_beside};
use load_files::found::Source;

/// A source where it stands among the bytes of an entry.
#[derive(Drop)]
struct SourceBytes<'a> {
    path: &'a str,
    held: Option<&'a [u8]>,
}

#[tactic(auto, unfolding(crate::specs::Entry::source))]
fn source_at(bytes: &[u8]) -> Option<(SourceBytes<'_>, &[u8])>
    ensures { option_map (λ x. (source_of x.0.path.now (option_map (λ h. h.now) x.0.held), x.1.now)) result ≡ spell.source.get bytes.now }
{
    let (path, rest) = text_at(bytes)?;
    let (held, rest) = held_in(rest)?;
    Some((SourceBytes { path, held }, rest))
}

fn is_text(found: &str, text: &Symbol) -> bool
    ensures { result ≡ same_text found.now text.now }
{
    found.as_bytes() == text.as_str().as_bytes()
}

fn is_held(found: &Option<&[u8]>, held: &Option<Items<u8>>) -> bool
    ensures { result ≡ same_held (option_map (λ h. h.now) found.now) held.now }
{
    match (found, held) {
        (None, None) => true,
        (Some(found), Some(held)) => *found == held.as_slice(),
        (None, Some(_)) => false,
        (Some(_), None) => false,
    }
}

fn is_source(found: &SourceBytes<'_>, source: &Source) -> bool
    ensures { result ≡ same_source (source_of found.now.path.now (option_map (λ h. h.now) found.now.held)) source.now }
{
    is_text(found.path, &source.path) && is_held(&found.held, &source.held)
}

/// Whether what was found is the source at a place.
fn is_at(found: &SourceBytes<'_>, sources: &[Source], place: usize) -> bool
    ensures { result ≡ is_source (source_of found.now.path.now (option_map (λ h. h.now) found.now.held)) (slice_get sources.now place) }
{
    if place < sources.len() {
        is_source(found, &sources[place])
    } else {
        false
    }
}

/// The bytes behind a source, where it is the one at a place.
fn behind_source<'a>(bytes: &'a [u8], sources: &[Source], place: usize) -> Option<&'a [u8]>
    ensures { option_map (λ r. r.now) result ≡ behind (λ s. is_source s (slice_get sources.now place)) (spell.source.get bytes.now) }
{
    let (found, rest) = source_at(bytes)?;
    if is_at(&found, sources, place) {
        Some(rest)
    } else {
        None
    }
}

/// The bytes behind as many sources as there are places, where they are those at the places, in their order.
fn behind_each<'a>(bytes: &'a [u8], sources: &[Source], chosen: &[usize]) -> Option<&'a [u8]>
    ensures { option_map (λ r. r.now) result
        ≡ behind (are_at sources.now chosen.now) (some_get spell.source.get (length chosen.now) bytes.now) }
{
    let mut rest = bytes;
    for place in chosen {
        let Some(after) = behind_source(rest, sources, *place) else {
            return None;
        };
        rest = after;
    }
    Some(rest)
}

/// The bytes behind the sources, where they are those at the places, in their order.
fn behind_sources<'a>(bytes: &'a [u8], sources: &[Source], chosen: &[usize]) -> Option<&'a [u8]>
    ensures { option_map (λ r. r.now) result ≡ behind (are_at sources.now chosen.now) ((listed spell.source).get bytes.now) }
{
    let Some((count, rest)) = u64_at(bytes) else {
        return None;
    };
    if count != chosen.len() as u64 {
        return None;
    }
    behind_each(rest, sources, chosen)
}

/// The bytes behind a text, where it is this one.
fn behind_text<'a>(bytes: &'a [u8], text: &Symbol) -> Option<&'a [u8]>
    ensures { option_map (λ r. r.now) result ≡ behind (λ t. same_text t text.now) (spec.text.get bytes.now) }
{
    let (found, rest) = text_at(bytes)?;
    if is_text(found, text) {
        Some(rest)
    } else {
        None
    }
}

/// The bytes behind as many texts as there are roots, where they are the roots.
fn behind_texts<'a>(bytes: &'a [u8], roots: &[Symbol]) -> Option<&'a [u8]>
    ensures { option_map (λ r. r.now) result
        ≡ behind (λ texts. pointwise same_text texts roots.now) (some_get spec.text.get (length roots.now) bytes.now) }
{
    let mut rest = bytes;
    for root in roots {
        let Some(after) = behind_text(rest, root) else {
            return None;
        };
        rest = after;
    }
    Some(rest)
}

/// The bytes behind the roots, where they are these.
fn behind_roots<'a>(bytes: &'a [u8], roots: &[Symbol]) -> Option<&'a [u8]>
    ensures { option_map (λ r. r.now) result ≡ behind (λ texts. pointwise same_text texts roots.now) ((listed spec.text).get bytes.now) }
{
    let Some((count, rest)) = u64_at(bytes) else {
        return None;
    };
    if count != roots.len() as u64 {
        return None;
    }
    behind_texts(rest, roots)
}

/// The bytes of the record: those behind a path, these roots, and the sources at these places.
fn behind_front<'a>(
    bytes: &'a [u8],
    roots: &[Symbol],
    sources: &[Source],
    chosen: &[usize],
) -> Option<&'a [u8]>
    ensures { option_map (λ r. r.now) result ≡ front roots.now sources.now chosen.now bytes.now }
{
    let (_, rest) = text_at(bytes)?;
    let rest = behind_roots(rest, roots)?;
    behind_sources(rest, sources, chosen)
}

/// The record of the entry that the bytes are, sealed, where its roots and its sources are these: the sources at these
/// places, in their order. Each byte of the sources is compared once, and none is copied. The seal is looked at last, so
/// that an entry of other sources costs no digest.
pub fn sealed_record(
    decoding: &Decoding,
    bytes: &[u8],
    roots: &[Symbol],
    sources: &[Source],
    chosen: &[usize],
) -> Result<Option<CompiledLibrary>, Memory>
    ensures { IfOk result (λ o. o ≡ sealed_record roots.now sources.now chosen.now bytes.now) }
{
    let body = behind_seal(bytes);
    let Some(rest) = behind_front(body, roots, sources, chosen) else {
        return Ok(None);
    };
    if is_sealed(bytes) {
        decode_beside(decoding, rest)
    } else {
        Ok(None)
    }
}
