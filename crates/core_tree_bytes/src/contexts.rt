//! Marks and stamps as bytes.

ghost use Rattle.std.specs.Prelude.{◌≡◌, IfOk, OnOk, option_map};
ghost use Rattle.base_bytes.specs.Codec.{listed, some_get};
ghost use Rattle.base_bytes.specs.Names.{mark};
ghost use Rattle.base_bytes.specs.Puts.{Puts};
ghost use Rattle.core_codec.specs.Contexts as spell;

use base_bytes::libraries::RecentLibraries;
use base_bytes::numbers::{put_u64, u64_at};
use base_bytes::room::{MOST_AHEAD, list_for};
use base_bytes::spelled::{Spelled, all_at, put_all};
use base_data::memory::Memory;
use base_data::name::{FrameNo, Mark};
use std::alloc::Global;
use stx_tree::marks::Marks;
use stx_tree::stamp::Stamp;

/// The marks and the stamps of a leaf, both with the newest first.
#[derive(Drop)]
pub struct ContextLists {
    pub marks: Marks,
    pub stamps: Vec<Stamp>,
}

/// Adds marks, the newest first.
pub fn put_marks(out: &mut Vec<u8>, alloc: Global, marks: &Marks) -> Result<(), Memory>
    ensures { OnOk result (Puts (listed mark) marks.now out.old.items out.new.items) }
{
    let marks = marks.to_vec(alloc)?;
    put_all(out, marks.as_slice())
}

/// The marks that the bytes begin with, and the bytes behind them.
pub fn marks_at<'a>(
    libraries: &mut RecentLibraries,
    bytes: &'a [u8],
) -> Result<Option<(Marks, &'a [u8])>, Memory>
    ensures { IfOk result (λ o. option_map (λ x. (x.0, x.1.now)) o ≡ (listed mark).get bytes.now) }
{
    let found: Option<(Vec<Mark>, &[u8])> = all_at(libraries, bytes)?;
    let Some((marks, rest)) = found else {
        return Ok(None);
    };
    let marks = Marks::from_vec(libraries.alloc(), marks)?;
    Ok(Some((marks, rest)))
}

#[tactic(auto, unfolding(core_codec::specs::Contexts::stamp))]
fn put_stamp(out: &mut Vec<u8>, alloc: Global, stamp: &Stamp) -> Result<(), Memory>
    ensures { OnOk result (Puts spell.stamp stamp.now out.old.items out.new.items) }
{
    stamp.frame.put(out)?;
    put_marks(out, alloc, &stamp.marks)
}

#[tactic(auto, unfolding(core_codec::specs::Contexts::stamp))]
fn stamp_at<'a>(
    libraries: &mut RecentLibraries,
    bytes: &'a [u8],
) -> Result<Option<(Stamp, &'a [u8])>, Memory>
    ensures { IfOk result (λ o. option_map (λ x. (x.0, x.1.now)) o ≡ spell.stamp.get bytes.now) }
{
    let Some((frame, rest)) = FrameNo::at(libraries, bytes)? else {
        return Ok(None);
    };
    let Some((marks, rest)) = marks_at(libraries, rest)? else {
        return Ok(None);
    };
    Ok(Some((Stamp { frame, marks }, rest)))
}

fn put_stamps(out: &mut Vec<u8>, alloc: Global, stamps: &[Stamp]) -> Result<(), Memory>
    ensures { OnOk result (Puts (listed spell.stamp) stamps.now out.old.items out.new.items) }
{
    put_u64(out, stamps.len() as u64)?;
    for stamp in stamps {
        put_stamp(out, alloc, stamp)?;
    }
    Ok(())
}

fn stamps_at<'a>(
    libraries: &mut RecentLibraries,
    bytes: &'a [u8],
) -> Result<Option<(Vec<Stamp>, &'a [u8])>, Memory>
    ensures { IfOk result (λ o. option_map (λ x. (x.0.items, x.1.now)) o ≡ (listed spell.stamp).get bytes.now) }
{
    match u64_at(bytes) {
        Some((count, rest)) => some_stamps(libraries, count, rest),
        None => Ok(None),
    }
}

fn some_stamps<'a>(
    libraries: &mut RecentLibraries,
    count: u64,
    bytes: &'a [u8],
) -> Result<Option<(Vec<Stamp>, &'a [u8])>, Memory>
    ensures { IfOk result (λ o. option_map (λ x. (x.0.items, x.1.now)) o ≡ some_get spell.stamp.get count bytes.now) }
{
    let mut list = list_for(libraries.alloc(), count, MOST_AHEAD)?;
    let mut rest = bytes;
    for _ in 0..count {
        let Some((stamp, after)) = stamp_at(libraries, rest)? else {
            return Ok(None);
        };
        list.push(stamp)?;
        rest = after;
    }
    Ok(Some((list, rest)))
}

impl ContextLists {
    #[tactic(auto, unfolding(core_codec::specs::Contexts::context))]
    pub fn put(&self, out: &mut Vec<u8>, alloc: Global) -> Result<(), Memory>
        ensures { OnOk result (Puts spell.context (context_of self.now) out.old.items out.new.items) }
    {
        put_marks(out, alloc, &self.marks)?;
        put_stamps(out, alloc, &self.stamps)
    }

    #[tactic(auto, unfolding(core_codec::specs::Contexts::context))]
    pub fn at<'a>(
        libraries: &mut RecentLibraries,
        bytes: &'a [u8],
    ) -> Result<Option<(ContextLists, &'a [u8])>, Memory>
        ensures { IfOk result (λ o. option_map (λ x. (context_of x.0, x.1.now)) o ≡ spell.context.get bytes.now) }
    {
        let Some((marks, rest)) = marks_at(libraries, bytes)? else {
            return Ok(None);
        };
        let Some((stamps, rest)) = stamps_at(libraries, rest)? else {
            return Ok(None);
        };
        Ok(Some((ContextLists { marks, stamps }, rest)))
    }
}

ghost use Rattle.core_tree_bytes.specs.Contexts.{context_of};
