//! The law that a cache changes nothing.
//!
//! `run_reuse` lets each library take its turn: its record is reused from a store, or it is expanded and its entry is put.
//! Here this is tied to what `law_local` says of sources and entries. The sources that an entry of a run is made of
//! are those that the files give for its library and all that it needs; so over an honest store the records of a run are
//! those of expansion, and the store that it leaves is honest.
//!
//! A put that fails may leave anything at its place. That nothing unsound with a right seal lies there is a premise: who
//! has not been a run of this program can't write a right seal but by meaning to.
#![tactic(auto)]

ghost use Rattle.std.specs.Prelude.{◌≡◌, List, ℕ, Result, Ok, Err};
ghost use Rattle.base_data.specs.declared.fault.Fault.{Fault};
ghost use Rattle.eval_code.specs.Codes.{Codes};
ghost use Rattle.load_files.specs.Load.{load};
ghost use Rattle.load_files.specs.declared.found.Found.{Found};
ghost use Rattle.load_files.specs.declared.found.Loading.{Loading};
ghost use Rattle.base_outside.specs.Contents.{Paths};
ghost use Rattle.run_reuse.specs.Entries.{CacheInputs};
ghost use Rattle.run_reuse.specs.Turns.{TurnState, ReuseTurns};
ghost use Rattle.law_local.specs.Behind.{RunBase};
ghost use Rattle.law_reuse.specs.Due.{StoredExactly, KeptAreFitting, FittingAreReused};
ghost use Rattle.law_reuse.specs.Failing.{FailuresAreCounted};
ghost use Rattle.law_reuse.specs.Kept.{EntriesAreKept, AllButFailedAreKept};
ghost use Rattle.law_reuse.specs.Limits.{EntryLimitIsWritten};
ghost use Rattle.law_reuse.specs.Others.{LeavesOthers};
ghost use Rattle.law_reuse.specs.Runs.{SourcesAreThoseOfFiles, SourcesAreThere, CacheChangesNothing, HoldsWhereNothingFails};

/// The sources of an entry of a run are those that the files give under the roots for its library and all that it needs.
pub fn sources_are_those_of_files()
    ensures loaded { (files : Paths) (roots : List (List ℕ)) (path : List ℕ) (program : Found) (s : Loading)
        → load files roots path ≡ Ok (program, s) → SourcesAreThoseOfFiles files roots s }
    ensures stopped { (files : Paths) (roots : List (List ℕ)) (path : List ℕ) (s : Loading) (f : Fault)
        → load files roots path ≡ Err (s, f) → SourcesAreThoseOfFiles files roots s }
    ensures there { (files : Paths) (roots : List (List ℕ)) (path : List ℕ) (program : Found) (s : Loading)
        → load files roots path ≡ Ok (program, s) → SourcesAreThere s }
{}

/// Over an honest store a run with a cache writes the text that one without writes, or has its first fault; and from an
/// honest store it leaves an honest one, wherever it ends.
pub fn a_cache_changes_nothing()
    ensures loaded { (prelude : Result Codes Fault) (files : Paths) (roots : List (List ℕ)) (path : List ℕ) (program : Found) (s : Loading)
        → load files roots path ≡ Ok (program, s) → CacheChangesNothing prelude roots s }
    ensures stopped { (prelude : Result Codes Fault) (files : Paths) (roots : List (List ℕ)) (path : List ℕ) (s : Loading) (f : Fault)
        → load files roots path ≡ Err (s, f) → CacheChangesNothing prelude roots s }
{}

/// What a store has for a library is exactly the record of an entry at its place that is of the run's roots and sources,
/// where that record can stand for the library's.
pub fn fitting_entries_are_stored()
    ensures { (k : CacheInputs) (prelude : Result Codes Fault) → StoredExactly k prelude }
{}

/// The entry of a library that a run has kept is of the roots and sources of that run, and so of each run that reads the
/// same.
pub fn kept_entries_fit()
    ensures loaded { (files : Paths) (roots : List (List ℕ)) (path : List ℕ) (program : Found) (s : Loading)
        → load files roots path ≡ Ok (program, s) → KeptAreFitting files roots s }
    ensures stopped { (files : Paths) (roots : List (List ℕ)) (path : List ℕ) (s : Loading) (f : Fault)
        → load files roots path ≡ Err (s, f) → KeptAreFitting files roots s }
{}

/// Over an honest store it is the record of each such entry, where the records that expansion gives suit their libraries.
pub fn fitting_entries_are_reused()
    ensures loaded { (base : RunBase) (files : Paths) (roots : List (List ℕ)) (path : List ℕ) (program : Found) (s : Loading)
        → load files roots path ≡ Ok (program, s) → FittingAreReused base files roots s }
    ensures stopped { (base : RunBase) (files : Paths) (roots : List (List ℕ)) (path : List ℕ) (s : Loading) (f : Fault)
        → load files roots path ≡ Err (s, f) → FittingAreReused base files roots s }
{}

/// Whatever a run comes to, whatever its store holds and whichever calls of it fail, every place of it but those of the
/// run's libraries holds what it held.
pub fn other_places_are_kept()
    ensures { (k : CacheInputs) (prelude : Result Codes Fault) → LeavesOthers k prelude }
{}

/// Over an honest store, where no call of it fails, the place of each library that has a record holds its entry afterwards,
/// if that has a spelling within the limit and no other library of the run lies there.
pub fn entries_are_kept()
    ensures loaded { (base : RunBase) (files : Paths) (roots : List (List ℕ)) (path : List ℕ) (program : Found) (s : Loading)
        → load files roots path ≡ Ok (program, s) → EntriesAreKept base files roots s }
    ensures stopped { (base : RunBase) (files : Paths) (roots : List (List ℕ)) (path : List ℕ) (s : Loading) (f : Fault)
        → load files roots path ≡ Err (s, f) → EntriesAreKept base files roots s }
{}

/// Where calls of the store fail, each such library's place holds its entry all the same, unless its own put failed.
pub fn all_but_failed_are_kept()
    ensures { (base : RunBase) (files : Paths) (roots : List (List ℕ)) (path : List ℕ) (program : Found) (s : Loading)
        → load files roots path ≡ Ok (program, s) → AllButFailedAreKept base files roots s }
{}

/// Where no call of the store failed, the premise on what failed puts leave holds.
pub fn no_failure_leaves_nothing_foreign()
    ensures { (k : CacheInputs) (prelude : Result Codes Fault) → HoldsWhereNothingFails k prelude }
{}

/// As many libraries as are expanded although the store had a record for them, and as many entries as are not put, so
/// many calls of the store have failed at least: a get that failed is no reason to leave out a put.
pub fn failures_are_counted()
    ensures { (k : CacheInputs) (prelude : Result Codes Fault) (s last : TurnState) (fs : List Found) (turns : ReuseTurns k prelude s fs last)
        → FailuresAreCounted k prelude s last fs turns }
{}

/// An entry has at most 8,388,608 bytes.
pub fn entry_limit_is_written()
    ensures { EntryLimitIsWritten }
{}
