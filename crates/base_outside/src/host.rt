//! The adapters over the system, the trusted edge: what a file holds, and what becomes of bytes that were
//! written, no proof can tell.

ghost use Rattle.std.specs.Prelude.{◌≡◌, ◌≤◌, ◌<◌, ◌^◌, None, IfOk, IfErr, IfSome, OnErr, Some, length, take, unwrap_or};
ghost use Rattle.base_outside.specs.Causes.{Rose, raised};
ghost use Rattle.base_outside.specs.Contents.{read_of};
ghost use Rattle.base_outside.specs.Files.{file_reading};
ghost use Rattle.base_outside.specs.Host.{Writes};
ghost use Rattle.base_outside.specs.Sink.{Gains, taken_of};

use crate::causes::{OutsideError, failed};
use crate::files::{FileAnswer, Files};
use crate::sink::{PutFailed, Sink};
use crate::store::{Store, StoreAnswer};
use std::alloc::Global;
use std::fs::File;
use std::io::{ErrorKind, Read, Write};
use std::marker::Model;
use std::path::Path;
use std::rt::Files as System;
use std::{fs, io};

/// Files of the system. Only a file that isn't there is `Absent`: a directory, and every other refusal
/// of the system, is a failure.
#[derive(Drop)]
pub struct HostFiles<R> {
    alloc: Global,
    rt: R,
    faults: u64,
}

impl<R> Model for HostFiles<R> {
    ghost use Rattle.std.specs.Prelude.{ℕ};

    ghost Value = { ℕ };

    ghost view = { λ m. m.faults };
}

impl<R: System> HostFiles<R> {
    pub fn new(alloc: Global, rt: R) -> HostFiles<R>
        ensures { result ≡ 0 }
    {
        HostFiles {
            alloc,
            rt,
            faults: 0,
        }
    }
}

// The first bytes of a file, at most `limit` of them.
fn first_bytes<F: Read + Drop>(alloc: Global, file: F, limit: u64) -> io::Result<Vec<u8>>
    ensures bytes { IfSome (F.remaining file)
        (λ held. IfOk result (λ first. first.items ≡ take limit held)) }
    ensures small { IfOk result (λ first. length first.items < 2 ^ 63) }
{
    let mut first = Vec::new(alloc);
    file.take(limit).read_to_end(&mut first)?;
    Ok(first)
}

fn answer_of(held: Vec<u8>, max: usize) -> FileAnswer
    ensures { file_reading result ≡ read_of (Some held.items) max }
{
    if held.len() > max {
        FileAnswer::Longer
    } else {
        FileAnswer::Bytes(held)
    }
}

// What a file gives, of which one byte more than `max` is read at most.
fn read_file<F: Read + Drop>(alloc: Global, file: F, max: usize) -> io::Result<FileAnswer>
    ensures { IfSome (F.remaining file)
        (λ held. IfOk result (λ answer. file_reading answer ≡ read_of (Some held) max)) }
{
    let limit = (max as u64).saturating_add(1);
    let first = first_bytes(alloc, file, limit)?;
    Ok(answer_of(first, max))
}

fn read_path<R: System>(alloc: Global, rt: &R, path: &str, max: usize) -> io::Result<FileAnswer> {
    match File::open(rt, path) {
        Ok(file) => read_file(alloc, file, max),
        Err(error) if error.kind() == ErrorKind::NotFound => Ok(FileAnswer::Absent),
        Err(error) => Err(error),
    }
}

// Want of memory is told apart; every other error counts.
fn cause(error: &io::Error, faults: &mut u64) -> OutsideError
    ensures later { faults.old ≤ faults.new }
    ensures failed { result ≡ OutsideError.Failed → Rose faults.old faults.new }
{
    match error.kind() {
        ErrorKind::OutOfMemory => OutsideError::Memory,
        _ => failed(faults),
    }
}

impl<R: System> Files for HostFiles<R> {
    ghost told = { λ m. None };

    ghost faults = { λ m. m };

    fn read(&mut self, path: &str, max: usize) -> Result<FileAnswer, OutsideError> {
        match read_path(self.alloc, &self.rt, path, max) {
            Ok(answer) => Ok(answer),
            Err(error) => Err(cause(&error, &mut self.faults)),
        }
    }
}

/// A store in the system's files. A place is a path, whose folder is made where it is missing. A piece is written to a
/// file of its own beside its place, which then takes the place's name: so a stop leaves the place as it was or with
/// the whole piece, and two runs don't mix theirs.
#[derive(Drop)]
pub struct HostStore<R> {
    alloc: Global,
    rt: R,
    faults: u64,
}

impl<R> Model for HostStore<R> {
    ghost use Rattle.std.specs.Prelude.{ℕ};

    ghost Value = { ℕ };

    ghost view = { λ m. m.faults };
}

impl<R: System> HostStore<R> {
    pub fn new(alloc: Global, rt: R) -> HostStore<R>
        ensures { result ≡ 0 }
    {
        HostStore {
            alloc,
            rt,
            faults: 0,
        }
    }
}

// So many names are tried for the file of a piece: each run that was stopped may have left one.
const NAMES: u32 = 1000;

// Writes all of a piece to a new file.
fn write_new<R: System>(rt: &R, path: &str, bytes: &[u8]) -> io::Result<()> {
    let mut file = File::create_new(rt, path)?;
    file.write_all(bytes)
}

// Writes a piece to a new file and gives it the name of its place. Where that fails the new file goes.
fn write_beside<R: System>(rt: &R, beside: &str, path: &str, bytes: &[u8]) -> io::Result<()> {
    let written = match write_new(rt, beside, bytes) {
        Err(error) if error.kind() == ErrorKind::AlreadyExists => return Err(error),
        Ok(()) => fs::rename(rt, beside, path),
        Err(error) => Err(error),
    };
    if written.is_err() {
        let _ = fs::remove_file(rt, beside);
    }
    written
}

// Writes a piece under the first name that is free.
fn write_path<R: System>(alloc: Global, rt: &R, path: &str, bytes: &[u8]) -> io::Result<()> {
    for number in 0..NAMES {
        let beside = format!(in alloc; "{path}.{number}")?;
        match write_beside(rt, &beside, path, bytes) {
            Err(error) if error.kind() == ErrorKind::AlreadyExists => {}
            result => return result,
        }
    }
    Err(io::Error::from(ErrorKind::AlreadyExists))
}

// Writes a piece, and makes the folder of its place where that is missing.
fn write_under<R: System>(alloc: Global, rt: &R, path: &str, bytes: &[u8]) -> io::Result<()> {
    match write_path(alloc, rt, path, bytes) {
        Err(error) if error.kind() == ErrorKind::NotFound => {}
        result => return result,
    }
    if let Some(folder) = Path::new(path).parent() {
        fs::create_dir_all(rt, folder)?;
    }
    write_path(alloc, rt, path, bytes)
}

impl<R: System> Store for HostStore<R> {
    ghost told = { λ m. None };

    ghost faults = { λ m. m };

    fn get(&mut self, place: &str, max: usize) -> Result<StoreAnswer, OutsideError> {
        match read_path(self.alloc, &self.rt, place, max) {
            Ok(answer) => Ok(answer.into()),
            Err(error) => Err(cause(&error, &mut self.faults)),
        }
    }

    fn put(&mut self, place: &str, bytes: &[u8]) -> Result<(), OutsideError> {
        match write_under(self.alloc, &self.rt, place, bytes) {
            Ok(()) => Ok(()),
            Err(_) => Err(failed(&mut self.faults)),
        }
    }
}

/// A sink over a writer, as over standard output. A writer that refuses, or that takes nothing of a
/// piece, is a failure; one that was interrupted is asked again.
#[derive(Drop)]
pub struct HostSink<W> {
    writer: W,
    faults: u64,
    puts: u64,
}

impl<W> Model for HostSink<W> {
    ghost use Rattle.base_outside.specs.Host.{WrittenPuts};

    ghost Value = { WrittenPuts W };

    ghost view = { λ m. record { writer = m.writer; faults = m.faults; puts = m.puts } };
}

impl<W: Write> HostSink<W> {
    pub fn new(writer: W) -> HostSink<W>
        ensures { result ≡ record { writer = writer; faults = 0; puts = 0 } }
    {
        HostSink {
            writer,
            faults: 0,
            puts: 0,
        }
    }
}

// Lets a writer take a part of a piece, and says how much it took, or that it refused.
#[tactic(auto, using(crate::proofs::Streams::gains_nothing))]
fn write_part<W: Write>(writer: &mut W, piece: &[u8]) -> Option<usize>
    ensures within { IfSome result (λ taken. taken ≤ length piece.now) }
    ensures gains { Gains (W.contents writer.old) (W.contents writer.new)
        (take (unwrap_or result 0) piece.now) }
{
    match writer.write(piece) {
        Ok(0) => None,
        Ok(taken) => Some(taken),
        Err(error) if error.kind() == ErrorKind::Interrupted => Some(0),
        Err(_) => None,
    }
}

// Writes until all is taken or the writer refuses, and says how much it took.
#[tactic(auto, using(crate::proofs::Streams::gains_more))]
fn write_some<W: Write>(writer: &mut W, piece: &[u8]) -> usize
    ensures within { result ≤ length piece.now }
    ensures gains { Gains (W.contents writer.old) (W.contents writer.new) (take result piece.now) }
{
    let mut taken = 0;
    for _ in 0..u64::MAX {
        if taken == piece.len() {
            break;
        }
        match write_part(writer, &piece[taken..]) {
            Some(more) => taken += more,
            None => break,
        }
    }
    taken
}

// Writes a piece and flushes it. Where only the flush fails, the last byte counts as not taken.
#[tactic(auto, using(crate::proofs::Streams::gains_kept))]
fn write_piece<W: Write>(writer: &mut W, piece: &[u8]) -> Result<(), PutFailed>
    ensures writes { Writes result (W.contents writer.old) (W.contents writer.new) piece.now }
    ensures short { IfErr result (λ error. error.taken < length piece.now) }
{
    if piece.is_empty() {
        return Ok(());
    }
    let taken = write_some(writer, piece);
    if taken < piece.len() {
        return Err(PutFailed { taken });
    }
    match writer.flush() {
        Ok(()) => Ok(()),
        Err(_) => Err(PutFailed {
            taken: piece.len() - 1,
        }),
    }
}

impl<W: Write> Sink for HostSink<W> {
    ghost told = { λ m. None };

    ghost faults = { λ m. m.faults };

    ghost puts = { λ m. m.puts };

    fn put(&mut self, bytes: &[u8]) -> Result<(), PutFailed>
        ensures gains { Gains None None (taken_of result bytes.now) }
        ensures short { IfErr result (λ error. error.taken < length bytes.now) }
        ensures later { self.old.faults ≤ self.new.faults }
        ensures failed { OnErr result (Rose self.old.faults self.new.faults) }
        ensures counted { self.new.puts ≡ raised self.old.puts }

        // The writer may tell what it holds, as one in memory does.
        ensures writes { Writes result (W.contents self.old.writer) (W.contents self.new.writer) bytes.now }
    {
        self.puts = self.puts.saturating_add(1);
        let result = write_piece(&mut self.writer, bytes);
        if result.is_err() {
            failed(&mut self.faults);
        }
        result
    }
}
