//! Runs over a store that runs have written.
//!
//! The promise of `run_top` has a premise where there is a cache: that the store is honest. Here it is told that this holds
//! of every store that only runs of this program have written, from an empty one on:
//!
//! ```text
//! nothing                                    honest
//! run 1, over some files                     leaves an honest store
//! the files are edited; run 2, other words   writes what it would without a cache, leaves an honest store
//! an entry is cut short by a full disk       still honest: it has no right seal
//! run 3 ..                                   writes what it would without a cache
//! ```
//!
//! One premise is left: that what lies at a place after a failure, or was put there by somebody else, is no entry with a
//! right seal and a wrong record.
//!
//! Here are no calls to make: each function stands for the law that it ensures.

ghost use Rattle.law_run.specs.Said.{RunsSayTheSame, QuietRunsAreHonest, CallsSayTheSame, RunsLeaveOthers};

/// Over a store that was empty once and that only runs have written since, a run gives the text or the fault that one
/// without a cache gives.
pub fn runs_say_the_same()
    ensures { RunsSayTheSame }
{}

/// Where no call of the store failed in a run, the premises on what failed puts leave hold of it.
pub fn quiet_runs_are_honest()
    ensures { QuietRunsAreHonest }
{}

/// A call with a cache, none of whose calls of the store fail, gives over such a store the text or the fault that the
/// definition gives for its words.
pub fn calls_say_the_same()
    ensures { CallsSayTheSame }
{}

/// Over every store, wherever a run ends, each place but those of its libraries holds what it held.
pub fn runs_leave_others()
    ensures { RunsLeaveOthers }
{}
