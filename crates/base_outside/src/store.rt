//! A store: a finite map from places to bytes, of which a put sets one.

ghost use Rattle.std.specs.Prelude.{◌≡◌, ◌≤◌, ℕ, Option, Some, IfSome, IfOk, OnOk, OnErr, ◌∷◌, [], ◌++◌};
ghost use Rattle.base_outside.specs.Calls.{CountsCall, uncalled, faulted};
ghost use Rattle.base_outside.specs.Causes.{Rose};
ghost use Rattle.base_outside.specs.Contents.{Paths, at_path, paths_of, read_of};
ghost use Rattle.base_outside.specs.Files.{file_reading};
ghost use Rattle.base_outside.specs.Store.{store_reading, Sets, Puts, WhereTold};

use crate::calls::Calls;
use crate::causes::OutsideError;
use crate::contents::read_pairs;
use crate::files::FileAnswer;
use base_data::memory::Memory;
use std::alloc::Global;
use std::marker::Model;

/// What a `get` answers.
#[derive(Drop)]
pub enum StoreAnswer {
    /// All the bytes at the place.
    Found(Vec<u8>),
    /// There are more bytes at the place than were asked for.
    Longer,
    /// There is nothing at the place.
    Absent,
}

impl From<FileAnswer> for StoreAnswer {
    ghost from_gives = { λ answer got. store_reading got ≡ file_reading answer };

    fn from(answer: FileAnswer) -> StoreAnswer {
        match answer {
            FileAnswer::Bytes(held) => StoreAnswer::Found(held),
            FileAnswer::Longer => StoreAnswer::Longer,
            FileAnswer::Absent => StoreAnswer::Absent,
        }
    }
}

/// A finite map from places to bytes, which keeps what was made for a later run.
pub trait Store {
    /// The bytes at each place, where they are told.
    ghost told: { Self → Option Paths };

    /// How many calls have failed.
    ghost faults: { Self → ℕ };

    /// The bytes at a place, if they are at most `max`. It answers `Failed` only where the count rose,
    /// and after an error as after an answer the store is as it was.
    fn get(&mut self, place: &str, max: usize) -> Result<StoreAnswer, OutsideError>
        ensures same { told self.new ≡ told self.old }
        ensures answer { IfSome (told self.old)
            (λ held. IfOk result (λ answer. store_reading answer ≡ read_of (at_path held place.now) max)) }
        ensures later { faults self.old ≤ faults self.new }
        ensures failed { result ≡ Err OutsideError.Failed →
            Rose (faults self.old) (faults self.new) };

    /// Sets the bytes at a place. It answers `Failed` only where the count rose; then the place may
    /// hold anything or nothing, and every other what it held. After `Memory` all is as it was.
    fn put(&mut self, place: &str, bytes: &[u8]) -> Result<(), OutsideError>
        ensures puts { WhereTold (told self.old) (told self.new) (Puts result place.now bytes.now) }
        ensures later { faults self.old ≤ faults self.new }
        ensures failed { result ≡ Err OutsideError.Failed →
            Rose (faults self.old) (faults self.new) };
}

/// A store in memory, of which the calls with listed numbers fail.
#[derive(Drop)]
pub struct MemStore {
    alloc: Global,
    pairs: Vec<(String, Vec<u8>)>,
    calls: Calls,
}

impl Model for MemStore {
    ghost use Rattle.base_outside.specs.Calls.{KeptMap};
    ghost use Rattle.base_outside.specs.Contents.{paths_of};

    ghost Value = { KeptMap };

    ghost view = { λ m. record { contents = paths_of m.pairs.items; calls = m.calls } };
}

// Adds a pair behind the others.
fn add_pair(
    alloc: Global,
    pairs: &mut Vec<(String, Vec<u8>)>,
    place: &str,
    bytes: &[u8],
) -> Result<(), Memory>
    ensures ok { OnOk result (paths_of pairs.new.items ≡ paths_of pairs.old.items
        ++ (place.now, bytes.now) ∷ []) }
    ensures err { OnErr result (pairs.new.items ≡ pairs.old.items) }
{
    let place = String::from_str(alloc, place)?;
    let bytes = Vec::from_slice(alloc, bytes)?;
    pairs.push((place, bytes))?;
    Ok(())
}

impl MemStore {
    /// A store of these places and bytes; of two pairs with one place the last counts. Calls of `get`
    /// and `put` are numbered together, from 0, and `fails` lists those that fail. It takes no memory.
    pub fn new(alloc: Global, entries: Vec<(String, Vec<u8>)>, fails: Vec<u64>) -> MemStore
        ensures { result ≡ record { contents = paths_of entries.items; calls = uncalled fails.items } }
    {
        MemStore {
            alloc,
            pairs: entries,
            calls: Calls::new(fails),
        }
    }

    /// Adds a pair, and counts no call.
    pub(crate) fn add(&mut self, place: &str, bytes: &[u8]) -> Result<(), Memory>
        ensures sets { OnOk result (Sets place.now bytes.now self.old.contents self.new.contents) }
        ensures kept { OnErr result (self.new.contents ≡ self.old.contents) }
        ensures calls { self.new.calls ≡ self.old.calls }
    {
        add_pair(self.alloc, &mut self.pairs, place, bytes)
    }

    /// Counts a failure that is no call of its own.
    pub(crate) fn fail(&mut self) -> OutsideError
        ensures error { result ≡ OutsideError.Failed }
        ensures contents { self.new.contents ≡ self.old.contents }
        ensures calls { self.new.calls ≡ faulted self.old.calls }
        ensures later { self.old.calls.faults ≤ self.new.calls.faults }
    {
        self.calls.fail()
    }
}

impl Store for MemStore {
    ghost told = { λ m. Some m.contents };

    ghost faults = { λ m. m.calls.faults };

    fn get(&mut self, place: &str, max: usize) -> Result<StoreAnswer, OutsideError>
        ensures same { Some self.new.contents ≡ Some self.old.contents }
        ensures answer { IfOk result
            (λ answer. store_reading answer ≡ read_of (at_path self.old.contents place.now) max) }
        ensures later { self.old.calls.faults ≤ self.new.calls.faults }
        ensures failed { result ≡ Err OutsideError.Failed →
            Rose self.old.calls.faults self.new.calls.faults }

        // Exactly the listed calls fail.
        ensures calls { CountsCall self.old.calls result self.new.calls }
    {
        self.calls.count()?;
        let answer = read_pairs(self.alloc, &self.pairs, place, max)?;
        Ok(answer.into())
    }

    fn put(&mut self, place: &str, bytes: &[u8]) -> Result<(), OutsideError>
        ensures puts { WhereTold (Some self.old.contents) (Some self.new.contents)
            (Puts result place.now bytes.now) }
        ensures later { self.old.calls.faults ≤ self.new.calls.faults }
        ensures failed { result ≡ Err OutsideError.Failed →
            Rose self.old.calls.faults self.new.calls.faults }

        // Exactly the listed calls fail, and one that fails sets nothing.
        ensures calls { CountsCall self.old.calls result self.new.calls }
        ensures kept { OnErr result (self.new.contents ≡ self.old.contents) }
    {
        self.calls.count()?;
        self.add(place, bytes)?;
        Ok(())
    }
}
