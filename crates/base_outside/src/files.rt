//! Files: a finite map from paths to bytes that a read doesn't change.

ghost use Rattle.std.specs.Prelude.{◌≡◌, ◌≤◌, ℕ, Option, Some, IfSome, IfOk};
ghost use Rattle.base_outside.specs.Causes.{Rose};
ghost use Rattle.base_outside.specs.Contents.{Paths, at_path, paths_of, read_of};
ghost use Rattle.base_outside.specs.Calls.{CountsCall, uncalled};
ghost use Rattle.base_outside.specs.Files.{file_reading};

use crate::calls::Calls;
use crate::causes::OutsideError;
use crate::contents::read_pairs;
use std::alloc::Global;
use std::marker::Model;

/// What a read answers.
#[derive(Drop)]
pub enum FileAnswer {
    /// All the bytes at the path.
    Bytes(Vec<u8>),
    /// There are more bytes at the path than were asked for.
    Longer,
    /// There is nothing at the path.
    Absent,
}

/// A finite map from paths to bytes, as the texts of libraries and programs stand in (R6RS 7.1, 8.1).
pub trait Files {
    /// The bytes at each path, where they are told.
    ghost told: { Self → Option Paths };

    /// How many calls have failed.
    ghost faults: { Self → ℕ };

    /// The bytes at a path, if they are at most `max`. It answers `Failed` only where the count rose,
    /// and after an error as after an answer the files are as they were.
    fn read(&mut self, path: &str, max: usize) -> Result<FileAnswer, OutsideError>
        ensures same { told self.new ≡ told self.old }
        ensures answer { IfSome (told self.old)
            (λ files. IfOk result (λ answer. file_reading answer ≡ read_of (at_path files path.now) max)) }
        ensures later { faults self.old ≤ faults self.new }
        ensures failed { result ≡ Err OutsideError.Failed →
            Rose (faults self.old) (faults self.new) };
}

/// Files in memory, of which the reads with listed numbers fail.
#[derive(Drop)]
pub struct MemFiles {
    alloc: Global,
    pairs: Vec<(String, Vec<u8>)>,
    calls: Calls,
}

impl Model for MemFiles {
    ghost use Rattle.base_outside.specs.Calls.{KeptMap};
    ghost use Rattle.base_outside.specs.Contents.{paths_of};

    ghost Value = { KeptMap };

    ghost view = { λ m. record { contents = paths_of m.pairs.items; calls = m.calls } };
}

impl MemFiles {
    /// Files of these paths and bytes; of two pairs with one path the last counts. Reads are numbered
    /// from 0, and `fails` lists those that fail. It takes no memory.
    pub fn new(alloc: Global, files: Vec<(String, Vec<u8>)>, fails: Vec<u64>) -> MemFiles
        ensures { result ≡ record { contents = paths_of files.items; calls = uncalled fails.items } }
    {
        MemFiles {
            alloc,
            pairs: files,
            calls: Calls::new(fails),
        }
    }
}

impl Files for MemFiles {
    ghost told = { λ m. Some m.contents };

    ghost faults = { λ m. m.calls.faults };

    fn read(&mut self, path: &str, max: usize) -> Result<FileAnswer, OutsideError>
        ensures same { Some self.new.contents ≡ Some self.old.contents }
        ensures answer { IfOk result
            (λ answer. file_reading answer ≡ read_of (at_path self.old.contents path.now) max) }
        ensures later { self.old.calls.faults ≤ self.new.calls.faults }
        ensures failed { result ≡ Err OutsideError.Failed →
            Rose self.old.calls.faults self.new.calls.faults }

        // Exactly the listed calls fail.
        ensures calls { CountsCall self.old.calls result self.new.calls }
    {
        self.calls.count()?;
        Ok(read_pairs(self.alloc, &self.pairs, path, max)?)
    }
}
