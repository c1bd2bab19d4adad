//! Libraries in the order of loading, each compiled: its record is reused from a store, or expanded and kept in it.
//!
//! ```text
//! (a)   asks for its entry; there is none: it is expanded, and its entry is put
//! (b)   asks for its entry; it was made of the very sources that this run has read for (b) and for all that (b) needs,
//!       and its record follows those before it: the record is reused
//! ```
//!
//! An entry tells the sources that its record was made of, and among them the paths at which nothing stood; a digest only
//! finds it. So whatever is edited, and whatever becomes of the store, an entry of other sources is passed over. A call
//! of the store that fails costs a library its expansion at most.
//!
//! The promise, on `take_turns`: the records are those that the store had for the sources of this run and those of
//! expansion, each behind the ones before it; what is put is the entry of what was expanded; and the fuel rises by just
//! what the expansions spend. That over an honest store all of them are those of expansion, and that it is honest
//! afterwards, `law_local` says.
#![tactic(auto)]

pub mod entry;
pub mod expansion;
pub mod groups;
pub mod progress;
pub mod texts;
pub mod turns;
