//! A store of which one put is torn: it writes a part of its piece and fails.

ghost use Rattle.std.specs.Prelude.{◌≡◌, ◌≤◌, Some, IfOk, OnOk};
ghost use Rattle.base_outside.specs.Calls.{faulted};
ghost use Rattle.base_outside.specs.Causes.{Rose};
ghost use Rattle.base_outside.specs.Contents.{at_path, read_of};
ghost use Rattle.base_outside.specs.Store.{store_reading, Puts, WhereTold};
ghost use Rattle.base_outside.specs.Torn.{turn_of, left_after, GetsAt, PutsAt, Tears};

use crate::causes::OutsideError;
use crate::store::{MemStore, Store, StoreAnswer};
use std::marker::Model;

/// Where a put goes.
#[derive(Clone, Copy)]
pub enum PutTurn {
    Within,
    Tear,
    Stopped,
}

/// A store in memory of which one put is torn, as by a machine that stops half way.
#[derive(Drop)]
pub struct TornStore {
    inner: MemStore,
    left: Option<u64>,
    keep: usize,
    stop: bool,
}

impl Model for TornStore {
    ghost use Rattle.base_outside.specs.Torn.{TornRecord};

    ghost Value = { TornRecord };

    ghost view = { λ t. record { inner = t.inner; left = t.left; keep = t.keep; stop = t.stop } };
}

// The torn put: a pair is added, and it fails all the same.
fn tear(store: &mut MemStore, place: &str, part: &[u8]) -> Result<(), OutsideError>
    ensures tears { Tears place.now part.now store.old result store.new }
    ensures later { store.old.calls.faults ≤ store.new.calls.faults }
{
    match store.add(place, part) {
        Ok(()) => Err(store.fail()),
        Err(_) => Err(OutsideError::Memory),
    }
}

impl TornStore {
    /// The first `good` puts go to `inner`. The next writes the first `keep` bytes of its piece, or all
    /// where they are fewer, and fails. Behind it every call fails and changes nothing with `stop`, and
    /// goes to `inner` without. Each failure counts; the torn put is no numbered call of `inner`. It
    /// takes no memory.
    pub fn new(inner: MemStore, good: u64, keep: usize, stop: bool) -> TornStore
        ensures { result ≡ record { inner = inner; left = Some good; keep = keep; stop = stop } }
    {
        TornStore {
            inner,
            left: Some(good),
            keep,
            stop,
        }
    }

    /// The store within, as the calls left it.
    pub fn into_inner(self) -> MemStore
        ensures { result ≡ self.inner }
    {
        self.inner
    }

    fn turn(&self) -> PutTurn
        ensures { result ≡ turn_of self.now }
    {
        match self.left {
            None if self.stop => PutTurn::Stopped,
            Some(0) => PutTurn::Tear,
            _ => PutTurn::Within,
        }
    }
}

impl Store for TornStore {
    ghost told = { λ t. Some t.inner.contents };

    ghost faults = { λ t. t.inner.calls.faults };

    fn get(&mut self, place: &str, max: usize) -> Result<StoreAnswer, OutsideError>
        ensures same { Some self.new.inner.contents ≡ Some self.old.inner.contents }
        ensures answer { IfOk result
            (λ answer. store_reading answer ≡ read_of (at_path self.old.inner.contents place.now) max) }
        ensures later { self.old.inner.calls.faults ≤ self.new.inner.calls.faults }
        ensures failed { result ≡ Err OutsideError.Failed →
            Rose self.old.inner.calls.faults self.new.inner.calls.faults }

        ensures turn { GetsAt (turn_of self.old) self.old.inner result self.new.inner }
        ensures rest { self.new ≡ record self.old { inner = self.new.inner } }
    {
        match self.turn() {
            PutTurn::Stopped => Err(self.inner.fail()),
            _ => self.inner.get(place, max),
        }
    }

    fn put(&mut self, place: &str, bytes: &[u8]) -> Result<(), OutsideError>
        ensures puts { WhereTold (Some self.old.inner.contents) (Some self.new.inner.contents)
            (Puts result place.now bytes.now) }
        ensures later { self.old.inner.calls.faults ≤ self.new.inner.calls.faults }
        ensures failed { result ≡ Err OutsideError.Failed →
            Rose self.old.inner.calls.faults self.new.inner.calls.faults }

        ensures turn { PutsAt self.old place.now bytes.now result self.new.inner }
        ensures rest { self.new ≡
            record self.old { inner = self.new.inner; left = left_after self.old.left } }
    {
        let turn = self.turn();
        self.left = self.left.and_then(|left| left.checked_sub(1));
        match turn {
            PutTurn::Within => self.inner.put(place, bytes),
            PutTurn::Tear => tear(&mut self.inner, place, &bytes[..self.keep.min(bytes.len())]),
            PutTurn::Stopped => Err(self.inner.fail()),
        }
    }
}
