//! The law that what is kept of a library may be taken again.
//!
//! In a run each library is expanded behind the record of the derived library and those of the libraries that it
//! needs. An entry keeps the sources of all these libraries and of its own, in the order of loading, and its record:
//!
//! ```text
//! run              (a), (b), (c), which needs (a), (d), which needs (a) and (c)
//! entry of (d)     the sources of (a), (c) and (d), and the record of (d)
//! ```
//!
//! The promise: these sources, expanded alone behind the derived library, give the records that the run gave, or the
//! fault. An entry is *sound* where its sources give its record. So a sound entry holds the very record that a run
//! with the same sources would make, and the entry of what a run made is sound. The derived library has no entry:
//! each run expands it anew.
#![tactic(auto)]

ghost use Rattle.std.specs.Prelude.{◌≡◌, ℕ, List, Ok, Err};
ghost use Rattle.base_data.specs.declared.fault.Fault.{Fault};
ghost use Rattle.base_outside.specs.Contents.{Paths};
ghost use Rattle.load_files.specs.Load.{load};
ghost use Rattle.load_files.specs.declared.found.Found.{Found};
ghost use Rattle.load_files.specs.declared.found.Loading.{Loading};
ghost use Rattle.law_local.specs.Behind.{RunBase, AreThoseOfRuns};
ghost use Rattle.law_local.specs.Local.{group_of, ReuseIsRight};
ghost use Rattle.law_local.specs.Reuse.{CacheModel, ReadsBack, ReuseChangesNothing};

/// The records of libraries behind the derived one are those that a run makes.
pub fn records_are_those_of_runs()
    ensures { (base : RunBase) → AreThoseOfRuns base }
{}

/// A library's sources and those of all that it needs give its record, whatever else is loaded.
pub fn reuse_is_right()
    ensures loaded { (base : RunBase) (files : Paths) (roots : List (List ℕ)) (path : List ℕ) (program : Found) (s : Loading)
        → load files roots path ≡ Ok (program, s) → ReuseIsRight base (group_of files roots) roots s.done }
    ensures stopped { (base : RunBase) (files : Paths) (roots : List (List ℕ)) (path : List ℕ) (s : Loading) (f : Fault)
        → load files roots path ≡ Err (s, f) → ReuseIsRight base (group_of files roots) roots s.done }
{}

/// Over an honest store the records of a run, or its first fault, are those of expansion, whatever is reused, and the
/// store that is left is honest.
pub fn reuse_changes_nothing()
    ensures loaded { (base : RunBase) (cache : CacheModel) (files : Paths) (roots : List (List ℕ)) (path : List ℕ) (program : Found) (s : Loading)
        → load files roots path ≡ Ok (program, s) → ReadsBack base cache roots (group_of files roots) s.done
        → ReuseChangesNothing base cache roots (group_of files roots) s.done }
    ensures stopped { (base : RunBase) (cache : CacheModel) (files : Paths) (roots : List (List ℕ)) (path : List ℕ) (s : Loading) (f : Fault)
        → load files roots path ≡ Err (s, f) → ReadsBack base cache roots (group_of files roots) s.done
        → ReuseChangesNothing base cache roots (group_of files roots) s.done }
{}
