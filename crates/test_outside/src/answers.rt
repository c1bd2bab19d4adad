use base_outside::{
    FileAnswer, Files, HostFiles, HostSink, HostStore, MemFiles, MemSink, MemStore, OutsideError,
    PutFailed, Sink, Store, StoreAnswer, TornStore,
};
use std::alloc::{AllocError, Global};
use std::io::{ErrorKind, Write};
use std::path::PathBuf;
use std::process::Abort;
use std::test::Fail;
use std::{env, fs, io, process};

/// A list of pairs in memory.
fn pairs(alloc: Global, texts: &[(&str, &[u8])]) -> Result<Vec<(String, Vec<u8>)>, AllocError> {
    let mut all = Vec::new(alloc);
    for text in texts {
        let path = String::from_str(alloc, text.0)?;
        all.push((path, Vec::from_slice(alloc, text.1)?))?;
    }
    Ok(all)
}

/// The bytes of an answer, or a word for another answer.
fn read(answer: &Result<FileAnswer, OutsideError>) -> &[u8] {
    match answer {
        Ok(FileAnswer::Bytes(held)) => held.as_slice(),
        Ok(FileAnswer::Longer) => b"longer",
        Ok(FileAnswer::Absent) => b"absent",
        Err(OutsideError::Failed) => b"failed",
        Err(OutsideError::Memory) => b"memory",
    }
}

fn got(answer: &Result<StoreAnswer, OutsideError>) -> &[u8] {
    match answer {
        Ok(StoreAnswer::Found(held)) => held.as_slice(),
        Ok(StoreAnswer::Longer) => b"longer",
        Ok(StoreAnswer::Absent) => b"absent",
        Err(OutsideError::Failed) => b"failed",
        Err(OutsideError::Memory) => b"memory",
    }
}

fn done(answer: &Result<(), OutsideError>) -> &'static [u8] {
    match answer {
        Ok(()) => b"done",
        Err(OutsideError::Failed) => b"failed",
        Err(OutsideError::Memory) => b"memory",
    }
}

/// How much a put took of its piece.
fn taken(answer: Result<(), PutFailed>, piece: &[u8]) -> usize {
    match answer {
        Ok(()) => piece.len(),
        Err(error) => error.taken,
    }
}

fn same(rt: &impl Abort, told: &str, found: &[u8], expected: &[u8]) {
    assert_eq!(rt; found, expected, "{told}");
}

/// Reads each path up to a limit.
fn check_files(rt: &impl Abort, files: &mut impl Files, rows: &[(&str, usize, &[u8])]) {
    for (path, max, expected) in rows {
        same(rt, path, read(&files.read(path, *max)), expected);
    }
}

#[test]
fn files_in_memory_answer_by_their_last_pairs(rt: HostRuntime) -> Result<(), Fail> {
    let alloc = rt.alloc();
    let held = pairs(alloc, &[("a", b"first"), ("b", b"12345"), ("a", b"last")])?;
    let mut files = MemFiles::new(alloc, held, vec![in alloc; 2]?);
    check_files(
        &rt,
        &mut files,
        &[
            ("a", 4, b"last"),
            ("b", 5, b"12345"),
            ("a", 4, b"failed"),
            ("b", 4, b"longer"),
            ("c", 9, b"absent"),
            ("a", 3, b"longer"),
        ],
    );
    Ok(())
}

/// What is put at the place a, or how much is asked for, and the answer.
fn check_store(rt: &impl Abort, store: &mut MemStore, rows: &[(Option<&[u8]>, usize, &[u8])]) {
    for (piece, max, expected) in rows {
        match piece {
            Some(piece) => same(rt, "put", done(&store.put("a", piece)), expected),
            None => same(rt, "get", got(&store.get("a", *max)), expected),
        }
    }
}

#[test]
fn a_store_in_memory_keeps_what_was_put(rt: HostRuntime) -> Result<(), Fail> {
    let alloc = rt.alloc();
    let held = pairs(alloc, &[("a", b"first"), ("a", b"last")])?;
    let mut store = MemStore::new(alloc, held, vec![in alloc; 1, 4]?);
    check_store(
        &rt,
        &mut store,
        &[
            (None, 4, b"last"),
            (Some(b"new"), 0, b"failed"),
            (None, 3, b"longer"),
            (Some(b"new"), 0, b"done"),
            (None, 3, b"failed"),
            (None, 3, b"new"),
        ],
    );
    Ok(())
}

/// The room that is made, the piece, and how much of it is taken.
fn check_sink(
    rt: &impl Abort,
    sink: &mut MemSink,
    rows: &[(usize, &[u8], usize)],
) -> Result<(), Fail> {
    for (room, piece, expected) in rows {
        sink.reserve(*room)?;
        assert_eq!(rt; taken(sink.put(piece), piece), *expected);
    }
    Ok(())
}

#[test]
fn a_sink_in_memory_takes_what_it_may(rt: HostRuntime) -> Result<(), Fail> {
    let alloc = rt.alloc();
    let mut sink = MemSink::new(alloc, vec![in alloc; (2, 3), (2, 10), (3, 0), (4, 99)]?);
    check_sink(
        &rt,
        &mut sink,
        &[
            (0, b"a", 0),
            (40, b"twelve bytes", 12),
            (0, b"twelve bytes", 10),
            (0, b"", 0),
            (0, b"abc", 2),
            (0, b"room for sixteen", 16),
        ],
    )?;
    sink.reserve(4)?;
    assert_eq!(rt; sink.put(b"abcdef"), Err(PutFailed { taken: 4 }));
    same(
        &rt,
        "held",
        sink.bytes(),
        b"twelve bytestwelve bytabroom for sixteenabcd",
    );
    Ok(())
}

const PIECE: &[u8] = b"twelve bytes";

/// How a store is torn: after so many puts, of which piece this much is kept, and whether it stops then.
type Tear = (u64, usize, bool);

/// What the put of this number answers, or where none is asked, what is left at its place.
fn expected(tear: &Tear, number: u64, is_answer: bool) -> &'static [u8] {
    let (good, keep, stop) = tear;
    let is_torn = number == *good;
    let is_stopped = *stop && number > *good;
    match (is_answer, is_torn, is_stopped) {
        (true, false, false) => b"done",
        (true, _, _) => b"failed",
        (false, true, _) => &PIECE[..(*keep).min(12)],
        (false, _, true) => b"absent",
        (false, _, false) => PIECE,
    }
}

const PLACES: [(u64, &str); 3] = [(0, "a"), (1, "b"), (2, "c")];

/// Puts the piece at three places of a store that is torn, and compares each answer.
fn check_puts(rt: &impl Abort, torn: &mut TornStore, tear: &Tear, places: &[(u64, &str)]) {
    for (number, place) in places {
        same(
            rt,
            place,
            done(&torn.put(place, PIECE)),
            expected(tear, *number, true),
        );
    }
}

/// Compares what is left at three places.
fn check_left(rt: &impl Abort, left: &mut MemStore, tear: &Tear, places: &[(u64, &str)]) {
    for (number, place) in places {
        same(
            rt,
            place,
            got(&left.get(place, 99)),
            expected(tear, *number, false),
        );
    }
}

fn check_tear(rt: &impl Abort, alloc: Global, tear: &Tear) -> Result<(), Fail> {
    let inner = MemStore::new(alloc, vec![in alloc]?, vec![in alloc]?);
    let mut torn = TornStore::new(inner, tear.0, tear.1, tear.2);
    check_puts(rt, &mut torn, tear, &PLACES);
    assert_eq!(rt; torn.get("d", 9).is_err(), tear.2);
    check_left(rt, &mut torn.into_inner(), tear, &PLACES);
    Ok(())
}

fn check_tears(rt: &impl Abort, alloc: Global, tears: &[Tear]) -> Result<(), Fail> {
    for tear in tears {
        check_tear(rt, alloc, tear)?;
    }
    Ok(())
}

#[test]
fn a_torn_store_writes_a_part_and_fails(rt: HostRuntime) -> Result<(), Fail> {
    check_tears(
        &rt,
        rt.alloc(),
        &[
            (0, 0, false),
            (0, 7, false),
            (0, 100, false),
            (1, 0, false),
            (1, 7, false),
            (1, 100, false),
            (2, 0, false),
            (2, 7, false),
            (2, 100, false),
            (0, 0, true),
            (0, 7, true),
            (0, 100, true),
            (1, 0, true),
            (1, 7, true),
            (1, 100, true),
            (2, 0, true),
            (2, 7, true),
            (2, 100, true),
        ],
    )
}

/// An empty folder for one test.
fn folder(rt: &HostRuntime, name: &str) -> Result<String, Fail> {
    let alloc = rt.alloc();
    let base: PathBuf = env::temp_dir(rt)?;
    let id = process::id(rt.process());
    let path = format!(in alloc; "{}/base_outside-{name}-{id}", base.as_path().display())?;
    fs::create_dir_all(rt, path.as_str())?;
    Ok(path)
}

#[test]
fn files_of_the_system(rt: HostRuntime) -> Result<(), Fail> {
    let alloc = rt.alloc();
    let top = folder(&rt, "files")?;
    let file = format!(in alloc; "{top}/file")?;
    fs::write(&rt, file.as_str(), b"12345".as_slice())?;
    let below_a_file = format!(in alloc; "{file}/x")?;
    let missing = format!(in alloc; "{top}/missing")?;
    let mut files = HostFiles::new(alloc, rt.clone()?);
    check_files(
        &rt,
        &mut files,
        &[
            (file.as_str(), 5, b"12345"),
            (file.as_str(), 4, b"longer"),
            (file.as_str(), usize::MAX, b"12345"),
            (missing.as_str(), 5, b"absent"),
            (top.as_str(), 5, b"failed"),
            (below_a_file.as_str(), 5, b"failed"),
        ],
    );
    fs::remove_dir_all(&rt, top.as_str())?;
    Ok(())
}

#[test]
fn a_store_of_the_system_makes_its_folders(rt: HostRuntime) -> Result<(), Fail> {
    let alloc = rt.alloc();
    let top = folder(&rt, "store")?;
    let place = format!(in alloc; "{top}/x/y/z")?;
    let below_a_file = format!(in alloc; "{place}/w")?;
    let mut store = HostStore::new(alloc, rt.clone()?);
    same(&rt, "absent", got(&store.get(&place, 9)), b"absent");
    same(&rt, "new", done(&store.put(&place, b"old bytes")), b"done");
    same(&rt, "old", done(&store.put(&place, b"new")), b"done");
    same(&rt, "found", got(&store.get(&place, 3)), b"new");
    same(
        &rt,
        "below a file",
        done(&store.put(&below_a_file, b"new")),
        b"failed",
    );
    same(&rt, "a folder", done(&store.put(&top, b"new")), b"failed");
    fs::remove_dir_all(&rt, top.as_str())?;
    Ok(())
}

/// A writer that takes three bytes at a time, is interrupted before each, and refuses when it is full.
#[derive(Drop)]
struct Narrow<'a> {
    held: &'a mut Vec<u8>,
    room: usize,
    is_interrupted: bool,
    can_flush: bool,
}

impl Write for Narrow<'_> {
    fn write(&mut self, buf: &[u8]) -> io::Result<usize> {
        self.is_interrupted = !self.is_interrupted;
        if self.is_interrupted {
            return Err(io::Error::from(ErrorKind::Interrupted));
        }
        if self.room == 0 {
            return Err(io::Error::from(ErrorKind::BrokenPipe));
        }
        let taken = buf.len().min(self.room).min(3);
        self.held.extend_from_slice(&buf[..taken])?;
        self.room -= taken;
        Ok(taken)
    }

    fn flush(&mut self) -> io::Result<()> {
        if self.can_flush {
            Ok(())
        } else {
            Err(io::Error::from(ErrorKind::BrokenPipe))
        }
    }
}

/// Puts the piece into a writer with this room, and compares how much is taken and what is held.
fn check_writer(
    rt: &impl Abort,
    alloc: Global,
    room: usize,
    can_flush: bool,
    expected: usize,
) -> Result<(), Fail> {
    let mut held = Vec::new(alloc);
    let mut sink = HostSink::new(Narrow {
        held: &mut held,
        room,
        is_interrupted: false,
        can_flush,
    });
    assert_eq!(rt; sink.put(b""), Ok(()));
    assert_eq!(rt; taken(sink.put(PIECE), PIECE), expected, "room for {room}");
    drop(sink);
    same(rt, "held", &held, &PIECE[..room.min(12)]);
    Ok(())
}

fn check_writers(
    rt: &impl Abort,
    alloc: Global,
    rows: &[(usize, bool, usize)],
) -> Result<(), Fail> {
    for (room, can_flush, expected) in rows {
        check_writer(rt, alloc, *room, *can_flush, *expected)?;
    }
    Ok(())
}

#[test]
fn a_sink_of_the_system_counts_what_was_taken(rt: HostRuntime) -> Result<(), Fail> {
    // the room of the writer, whether it can flush, and how much is taken
    check_writers(
        &rt,
        rt.alloc(),
        &[
            (20, true, 12),
            (12, true, 12),
            (10, true, 10),
            (0, true, 0),
            (12, false, 11),
        ],
    )
}
