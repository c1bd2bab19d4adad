//! A sink: bytes to which pieces are added.

ghost use Rattle.std.specs.Prelude.{◌≡◌, ◌≤◌, ◌<◌, ℕ, List, Option, Some, IfErr, OnErr, OnOk, length, max, option_map, find, reverse, ◌==◌, option_copied};
ghost use Rattle.base_outside.specs.Causes.{Rose, raised};
ghost use Rattle.base_outside.specs.Sink.{Gains, taken_of, empty_sink, listed, allowed, taken_next, after_put, answer_of};

use crate::causes::failed;
use base_data::memory::Memory;
use std::alloc::Global;
use std::marker::Model;

/// A put took so many bytes of its piece, fewer than all.
#[derive(Clone, Copy, Debug, PartialEq, Eq)]
pub struct PutFailed {
    pub taken: usize,
}

/// Bytes to which pieces are added.
pub trait Sink {
    /// The bytes that it has, where they are told.
    ghost told: { Self → Option (List ℕ) };

    /// How many puts have failed.
    ghost faults: { Self → ℕ };

    /// How many puts it was asked for.
    ghost puts: { Self → ℕ };

    /// Adds a piece. Where it fails it added only a part of it from the front, and the count rose. It
    /// takes no memory.
    fn put(&mut self, bytes: &[u8]) -> Result<(), PutFailed>
        ensures gains { Gains (told self.old) (told self.new) (taken_of result bytes.now) }
        ensures short { IfErr result (λ error. error.taken < length bytes.now) }
        ensures later { faults self.old ≤ faults self.new }
        ensures failed { OnErr result (Rose (faults self.old) (faults self.new)) }
        ensures counted { puts self.new ≡ raised (puts self.old) };
}

/// A sink in memory, of which the puts with listed numbers take only so many bytes.
#[derive(Drop)]
pub struct MemSink {
    bytes: Vec<u8>,
    room: usize,
    fails: Vec<(u64, usize)>,
    next: u64,
    faults: u64,
}

impl Model for MemSink {
    ghost use Rattle.std.specs.Prelude.{◌+◌, ◌≤◌, vec_len, vec_capacity};
    ghost use Rattle.base_outside.specs.Sink.{SinkRecord};

    ghost Value = { SinkRecord };

    ghost view = { λ m. record {
      bytes = m.bytes.items;
      room = m.room;
      fails = m.fails.items;
      next = m.next;
      faults = m.faults;
    } };

    ghost invariant = { λ m. vec_len m.bytes + m.room ≤ vec_capacity m.bytes };
}

impl MemSink {
    /// An empty sink without room. Puts are numbered from 0. Each pair of `fails` has the number of one
    /// that fails and how many bytes it takes, or one less than all where that is fewer; of two with one
    /// number the last counts. A put of nothing takes nothing and succeeds. It takes no memory.
    pub fn new(alloc: Global, fails: Vec<(u64, usize)>) -> MemSink
        ensures { result ≡ empty_sink fails.items }
    {
        MemSink {
            bytes: Vec::new(alloc),
            room: 0,
            fails,
            next: 0,
            faults: 0,
        }
    }

    /// Makes room for `n` more bytes. A piece is added as far as there is room.
    pub fn reserve(&mut self, n: usize) -> Result<(), Memory>
        ensures ok { OnOk result (self.new ≡ record self.old { room = max self.old.room n }) }
        ensures err { OnErr result (self.new ≡ self.old) }
    {
        self.bytes.reserve(n)?;
        self.room = self.room.max(n);
        Ok(())
    }

    /// The bytes that it has.
    pub fn bytes(&self) -> &[u8]
        ensures { result.now ≡ self.now.bytes }
    {
        &self.bytes
    }
}

fn last_fail(fails: &[(u64, usize)], number: u64) -> Option<&(u64, usize)>
    ensures { option_copied result ≡ find (λ fail. fail.0 == number) (reverse fails.now) }
{
    fails.iter().rev().find(|fail| fail.0 == number)
}

// How much of a piece of `len` bytes a call may take.
fn allowed(fails: &[(u64, usize)], number: u64, len: usize) -> usize
    ensures { result ≡ allowed (listed fails.now number) len }
{
    match last_fail(fails, number) {
        Some(fail) => fail.1.min(len.saturating_sub(1)),
        None => len,
    }
}

impl Sink for MemSink {
    ghost told = { λ m. Some m.bytes };

    ghost faults = { λ m. m.faults };

    ghost puts = { λ m. m.next };

    fn put(&mut self, bytes: &[u8]) -> Result<(), PutFailed>
        ensures gains { Gains (Some self.old.bytes) (Some self.new.bytes)
            (taken_of result bytes.now) }
        ensures short { IfErr result (λ error. error.taken < length bytes.now) }
        ensures later { self.old.faults ≤ self.new.faults }
        ensures failed { OnErr result (Rose self.old.faults self.new.faults) }
        ensures counted { self.new.next ≡ raised self.old.next }

        // Exactly the listed puts fail, and those of pieces that don't fit.
        ensures answer { result ≡ answer_of
            (taken_next self.old (length bytes.now)) (length bytes.now) }
        ensures after { self.new ≡ after_put self.old bytes.now }
    {
        let number = self.next;
        self.next = number.saturating_add(1);
        let taken = allowed(&self.fails, number, bytes.len()).min(self.room);
        self.bytes.extend_from_slice(&bytes[..taken]).unwrap();
        self.room -= taken;
        if taken < bytes.len() {
            failed(&mut self.faults);
            return Err(PutFailed { taken });
        }
        Ok(())
    }
}
