//! Laws of loading, in the words of R6RS 7.1 and 7.2.
//!
//! The definition of loading goes down into the files that a file imports, and back. Here it is told what
//! stands where it ends:
//!
//! ```text
//! p.sps            (import (rnrs) (util all)) ..
//! util/all.sls     (library (util all) (export ..) (import (util stack) (util loop)))
//!
//! place 0          (util stack)
//! place 1          (util loop)
//! place 2          (util all), which needs 0 and 1
//! the program      which needs 0, 1 and 2
//! ```
//!
//! The promise: each library is loaded once, after those that it imports, each of which has a version that
//! fits; the imports are followed depth first, from the first to the last, and there is one such order. And a
//! library needs just those that it imports and what they need. Where loading stops with a fault, this holds of the
//! libraries that were loaded before. The program needs all of them, by chains of imports. Each stands in the
//! file of its name below the first root that has this file, and no other library does. What is kept of a
//! path is what the files hold there, and a path where a file is was read once.
//!
//! Here are no calls to make: each function stands for the laws that it ensures.
#![tactic(auto)]

ghost use Rattle.std.specs.Prelude.{◌≡◌, ℕ, List, length, Ok, Err};
ghost use Rattle.base_data.specs.declared.fault.Fault.{Fault};
ghost use Rattle.base_outside.specs.Contents.{Paths};
ghost use Rattle.load_files.specs.Load.{load};
ghost use Rattle.load_files.specs.declared.found.Found.{Found};
ghost use Rattle.load_files.specs.declared.found.Loading.{Loading};
ghost use Rattle.law_load.specs.Laws.{AreLoadedOnce, AreAfterTheirImports, IsAfterItsImports, AllNeedsAreClosed, NeedsAreClosed, OnlyImportsAreNeeded, OnlyTheirImportsAreNeeded};
ghost use Rattle.law_load.specs.Chains.{ChainsLeadToNeeds, NeedsAll, ImportsLeadToAll};
ghost use Rattle.law_load.specs.Files.{PartsHaveNoSlash, PartsHaveNoDot, PartsComeBack, FilesTellLibraries};
ghost use Rattle.law_load.specs.Orders.{AreInOrder, IsTheOrder};
ghost use Rattle.law_load.specs.Roots.{AllStandBelow};
ghost use Rattle.law_load.specs.Sources.{AreAsHeld, AreFoundOnce, AreFoundOnceButLast};

/// Loading puts each library into the list once, under the file of its name; its place, and that of the
/// program, is how many libraries were loaded before.
pub fn each_library_once()
    ensures libraries { (files : Paths) (roots : List (List ℕ)) (path : List ℕ) (program : Found) (s : Loading)
        → load files roots path ≡ Ok (program, s) → AreLoadedOnce s.done }
    ensures program { (files : Paths) (roots : List (List ℕ)) (path : List ℕ) (program : Found) (s : Loading)
        → load files roots path ≡ Ok (program, s) → program.place ≡ length s.done }
    ensures stopped { (files : Paths) (roots : List (List ℕ)) (path : List ℕ) (s : Loading) (f : Fault)
        → load files roots path ≡ Err (s, f) → AreLoadedOnce s.done }
{}

/// Each loaded library, and the program, comes after the libraries that it imports, and their versions
/// fit its references.
pub fn after_its_imports()
    ensures libraries { (files : Paths) (roots : List (List ℕ)) (path : List ℕ) (program : Found) (s : Loading)
        → load files roots path ≡ Ok (program, s) → AreAfterTheirImports s.done }
    ensures program { (files : Paths) (roots : List (List ℕ)) (path : List ℕ) (program : Found) (s : Loading)
        → load files roots path ≡ Ok (program, s) → IsAfterItsImports s.done program }
    ensures stopped { (files : Paths) (roots : List (List ℕ)) (path : List ℕ) (s : Loading) (f : Fault)
        → load files roots path ≡ Err (s, f) → AreAfterTheirImports s.done }
{}

/// What a library or the program needs was loaded before it, and what that needs it needs, too.
pub fn needs_are_closed()
    ensures libraries { (files : Paths) (roots : List (List ℕ)) (path : List ℕ) (program : Found) (s : Loading)
        → load files roots path ≡ Ok (program, s) → AllNeedsAreClosed s.done }
    ensures program { (files : Paths) (roots : List (List ℕ)) (path : List ℕ) (program : Found) (s : Loading)
        → load files roots path ≡ Ok (program, s) → NeedsAreClosed s.done program }
    ensures stopped { (files : Paths) (roots : List (List ℕ)) (path : List ℕ) (s : Loading) (f : Fault)
        → load files roots path ≡ Err (s, f) → AllNeedsAreClosed s.done }
{}

/// A library or the program needs nothing but what it imports, and what that needs.
pub fn only_imports_are_needed()
    ensures libraries { (files : Paths) (roots : List (List ℕ)) (path : List ℕ) (program : Found) (s : Loading)
        → load files roots path ≡ Ok (program, s) → OnlyTheirImportsAreNeeded s.done }
    ensures program { (files : Paths) (roots : List (List ℕ)) (path : List ℕ) (program : Found) (s : Loading)
        → load files roots path ≡ Ok (program, s) → OnlyImportsAreNeeded s.done program }
    ensures stopped { (files : Paths) (roots : List (List ℕ)) (path : List ℕ) (s : Loading) (f : Fault)
        → load files roots path ≡ Err (s, f) → OnlyTheirImportsAreNeeded s.done }
{}

/// What is stored of each path that was read is what the files hold there, and a path with a file was
/// read once; where loading stopped at a fault, the last one may have been read before.
pub fn each_file_read_once()
    ensures held { (files : Paths) (roots : List (List ℕ)) (path : List ℕ) (program : Found) (s : Loading)
        → load files roots path ≡ Ok (program, s) → AreAsHeld files s.sources }
    ensures once { (files : Paths) (roots : List (List ℕ)) (path : List ℕ) (program : Found) (s : Loading)
        → load files roots path ≡ Ok (program, s) → AreFoundOnce s.sources }
    ensures held_until { (files : Paths) (roots : List (List ℕ)) (path : List ℕ) (s : Loading) (f : Fault)
        → load files roots path ≡ Err (s, f) → AreAsHeld files s.sources }
    ensures once_until { (files : Paths) (roots : List (List ℕ)) (path : List ℕ) (s : Loading) (f : Fault)
        → load files roots path ≡ Err (s, f) → AreFoundOnceButLast s.sources }
{}

/// A program needs all that is loaded with it: a chain of imports leads from the program to each library.
pub fn all_is_needed()
    ensures needed { (files : Paths) (roots : List (List ℕ)) (path : List ℕ) (program : Found) (s : Loading)
        → load files roots path ≡ Ok (program, s) → NeedsAll s.done program }
    ensures chains { (files : Paths) (roots : List (List ℕ)) (path : List ℕ) (program : Found) (s : Loading)
        → load files roots path ≡ Ok (program, s) → ChainsLeadToNeeds s.done program }
    ensures all { (files : Paths) (roots : List (List ℕ)) (path : List ℕ) (program : Found) (s : Loading)
        → load files roots path ≡ Ok (program, s) → ImportsLeadToAll s.done program }
{}

/// The order of loading is depth first along the imports: a library comes after all that its own
/// imports load and before what the next import loads, at the first reference to it. There is one such
/// order.
pub fn order_is_depth_first()
    ensures follows { (files : Paths) (roots : List (List ℕ)) (path : List ℕ) (program : Found) (s : Loading)
        → load files roots path ≡ Ok (program, s) → AreInOrder s.done program }
    ensures only { (files : Paths) (roots : List (List ℕ)) (path : List ℕ) (program : Found) (s : Loading)
        → load files roots path ≡ Ok (program, s) → IsTheOrder s.done program }
{}

/// Each loaded library is what the file of its name holds below the first root that has this file.
pub fn first_root_counts()
    ensures libraries { (files : Paths) (roots : List (List ℕ)) (path : List ℕ) (program : Found) (s : Loading)
        → load files roots path ≡ Ok (program, s) → AllStandBelow files roots s.done }
    ensures stopped { (files : Paths) (roots : List (List ℕ)) (path : List ℕ) (s : Loading) (f : Fault)
        → load files roots path ≡ Err (s, f) → AllStandBelow files roots s.done }
{}

/// Libraries of different names have different files, and no part of a name has a slash or a dot in the
/// file's name.
pub fn files_tell_libraries()
    ensures no_slash { PartsHaveNoSlash }
    ensures no_dot { PartsHaveNoDot }
    ensures decoded { PartsComeBack }
    ensures told { FilesTellLibraries }
{}
