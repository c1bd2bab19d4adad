//! The outside: the files that a run reads, the store that it keeps its work in, and the sinks that it
//! writes to.
//!
//! R6RS 7.1 and 8.1 speak of libraries and programs as texts. These texts stand in files, and what is made
//! of them is put on standard output. Three traits say what the rest of the expander may take for granted
//! of that:
//!
//! - `Files` are a finite map from paths to bytes that a read doesn't change;
//! - a `Store` is a finite map from places to bytes, of which a `put` sets one;
//! - a `Sink` is the bytes that it has, to which a `put` adds a piece, or a part of it from the front.
//!
//! The outside may also fail. So each of them counts its faults: the count never falls, and a call answers
//! that it failed only where the count rose in that call. A caller that says so of its own failures can't
//! make one up.
//!
//! ```text
//! files.read("a.sls", 5)        Bytes of the file, if it has 5 bytes or fewer; else Longer
//! files.read("gone.sls", 5)     Absent
//! sink.put(b"(define x 1)")     Ok, or PutFailed { taken: 4 } where "(def" was added
//! ```
//!
//! **Each answer is the one that the map or the bytes give, and a failure is one that the count shows.**
//!
//! Contents are told optionally. `MemFiles`, `MemStore` and `MemSink`, the versions in memory, tell them,
//! and fail at exactly the calls that they were given; with them a whole run is a function of plain data.
//! `TornStore` tears one put of a store in memory, as a machine does that stops half way. `HostFiles`,
//! `HostStore` and `HostSink` are a few lines over the system and tell nothing of content: they are the
//! trusted edge, and what the system does behind them no proof can say.
//!
//! What a run means is said of the map that `Files` tell and of the bytes that its sinks gain, so this is
//! the first link of the chain from the bytes of a program to the core text that is written, and the last.
#![tactic(auto)]

mod calls;
mod causes;
mod contents;
mod files;
mod host;
mod sink;
mod store;
mod torn;

pub use causes::OutsideError;
pub use files::{FileAnswer, Files, MemFiles};
pub use host::{HostFiles, HostSink, HostStore};
pub use sink::{MemSink, PutFailed, Sink};
pub use store::{MemStore, Store, StoreAnswer};
pub use torn::TornStore;
