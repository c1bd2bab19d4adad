//! Laws of whole runs: the records of a run follow one another, name all that they make once, and mention only what is known.
//!
//! A record follows others where its name is new among theirs, all that it binds and makes is its own and stands once, and all that it
//! mentions is its own, or theirs, or given with the implementation. A test tells whether it does (law_core), so that it can be asked of
//! records that were kept. Expansion promises it of one library whose imports are known before it. Here it is told of all that a run makes,
//! with no premise but that the program was loaded and expanded:
//!
//! ```text
//! p.sps            (import (rnrs) (util all)) ..
//! util/all.sls     (library (util all) (export ..) (import (util stack) (util loop)))
//!
//! record 0         the derived library, follows none
//! record 1         (util stack), follows record 0
//! record 2         (util loop), follows record 0, and record 1 if it imports (util stack); so it follows 0 and 1
//! record 3         (util all), follows 0, 1 and 2
//! the program      follows 0, 1, 2 and 3
//! ```
//!
//! Four things bring this about.
//!
//! - A record that follows some records follows more of them, where its name is new among these, too.
//! - An import set selects and renames, and gives each name once. What it selects from is known: a record exports what it or an earlier
//!   one binds, or what is given; and where a library of the implementation has a name of the derived library, the record of that is there
//!   and exports it.
//! - A library form that is read exports each name once.
//! - What a library needs is loaded before it, with all that this needs, and no two libraries have one name.
//!
//! So over a whole run no two records bind one label, number two codes alike or have one row, and what each mentions is bound in one of
//! them or given.
//!
//! Nothing is computed here: each function stands for the law that it ensures.

ghost use Rattle.law_run.specs.Following.{RecordsFollowInRuns, RunsNameOnce, RunsMentionTheKnown};

/// In a run each record follows those of the derived library and of the libraries that its library
/// needs, and all that were made before it.
pub fn records_follow_in_runs()
    ensures { RecordsFollowInRuns }
{}

/// Over all records of a run no label has two bindings or two binders, no two codes have one number, and no frame has a symbol twice
/// with the same marks; and no record exports two things under one name.
pub fn runs_name_once()
    ensures { RunsNameOnce }
{}

/// What a record of a run exports, and what its frames give, is bound in a record of the run or given with the implementation. Its
/// lines and the expressions of its keywords are closed under what the lines of the run define. It refers to libraries of the run.
pub fn runs_mention_the_known()
    ensures { RunsMentionTheKnown }
{}
