//! The calls of a version in memory, of which those with listed numbers fail.

ghost use Rattle.std.specs.Prelude.{◌≡◌, ◌≤◌, ◌↔◌, IsErr, IfErr, IsTrue};
ghost use Rattle.base_outside.specs.Calls.{uncalled, fails_now, called, faulted};

use crate::causes::{OutsideError, failed};
use std::marker::Model;

/// The numbers of the calls that fail, the number of the next call, and how many have failed.
#[derive(Drop)]
pub(crate) struct Calls {
    fails: Vec<u64>,
    next: u64,
    faults: u64,
}

impl Model for Calls {
    ghost use Rattle.base_outside.specs.Calls.{CallRecord};

    ghost Value = { CallRecord };

    ghost view = { λ c. record { fails = c.fails.items; next = c.next; faults = c.faults } };
}

impl Calls {
    pub(crate) fn new(fails: Vec<u64>) -> Calls
        ensures { result ≡ uncalled fails.items }
    {
        Calls {
            fails,
            next: 0,
            faults: 0,
        }
    }

    /// Counts the next call. Where it is listed it fails.
    pub(crate) fn count(&mut self) -> Result<(), OutsideError>
        ensures listed { IsErr result ↔ IsTrue (fails_now self.old) }
        ensures error { IfErr result (λ error. error ≡ OutsideError.Failed) }
        ensures calls { self.new ≡ called self.old }
        ensures later { self.old.faults ≤ self.new.faults }
    {
        let number = self.next;
        self.next = number.saturating_add(1);
        if self.fails.contains(&number) {
            return Err(failed(&mut self.faults));
        }
        Ok(())
    }

    /// Counts a failure that is no call of its own.
    pub(crate) fn fail(&mut self) -> OutsideError
        ensures error { result ≡ OutsideError.Failed }
        ensures calls { self.new ≡ faulted self.old }
        ensures later { self.old.faults ≤ self.new.faults }
    {
        failed(&mut self.faults)
    }
}
