//! Laws of whole runs: the records of a run stand behind one another, and its text is closed and bound once.
//!
//! A program is loaded with all that it imports. The record of the derived library is made first, behind no other;
//! then the libraries are expanded in the order of loading, each behind it and the records of those that it needs.
//! What expansion promises of one record it promises only behind records that serve, and of a library with a new
//! name. Here it is told that in a run this always holds:
//!
//! ```text
//! p.sps            (import (rnrs) (util all)) ..
//! util/all.sls     (library (util all) (export ..) (import (util stack) (util loop)))
//!
//! record 0         the derived library, behind no record
//! record 1         (util stack), behind record 0
//! record 2         (util loop), behind records 0 and 1 if it imports (util stack), else behind record 0
//! record 3         (util all), behind records 0, 1 and 2
//! the program      behind records 0, 1, 2 and 3
//! ```
//!
//! The first promise: each record of a run, and the program's, is good behind the records that its library needs,
//! and so are its keywords; it serves those behind it; its variables have indices, and its code nests at most so
//! deep; and no two of them have one name. Three things bring this about.
//!
//! - Where a library is needed, so is all that it needs, and this was loaded before it. So the records that a
//!   library needs serve, each behind those of them that come earlier.
//! - The name of a library that is loaded is a list of parts, and the library stands under the file of its name,
//!   once. So no name is that of the program or of the derived library, and no two are the same.
//! - Import sets select and rename, and make no labels. So each imported label comes from the implementation,
//!   or from a record that exports it, as that of the derived library does: it is of that record's library, or of
//!   one that was there before it.
//!
//! The second promise is of the text of a run: the lines of the libraries that the program needs when it runs, and
//! its own. This text is closed, so whatever a line of it mentions is defined in it; no label has two binders in it;
//! and no two of its variables share library and index. The first promise gives all that the law of law_text
//! asks of the records.
//!
//! More stand in modules of their own: `by_name`, that the text is closed and bound once by the names in it; `follow`,
//! that the records follow one another; `memory`, that want of memory hides no other cause; `spelled`, that the text is spelled by the
//! grammar of core text; `readable`, that each constant in it, and the whole text, is read back; `hygiene`, that each record is hygienic;
//! `stuck`, that no run ends with the fault of cells that don't fit; `maps`, that a binding map has the faults of core text; `nesting`, how
//! deep the text nests; `pass`, that the checker accepts it; `followers`, that records which follow others keep to all that is asked of
//! them; and `cached`, what runs over a store leave and say.
//!
//! Nothing is computed here: each function stands for the law that it ensures.
#![tactic(auto)]

pub mod by_name;
pub mod cached;
pub mod follow;
pub mod followers;
pub mod hygiene;
pub mod maps;
pub mod memory;
pub mod nesting;
pub mod pass;
pub mod readable;
pub mod spelled;
pub mod stuck;

ghost use Rattle.law_run.specs.Run.{RecordsStand, RunsAreClosedOnce};

/// Each record of a run is good for the records that its library needs, has an index for each variable
/// and at most 2,404 levels, and no two records have one name.
pub fn records_stand()
    ensures { RecordsStand }
{}

/// The text of every run is closed, no label has two binders in it, and no two of its variables share library and
/// index.
pub fn a_run_is_closed_and_bound_once()
    ensures { RunsAreClosedOnce }
{}
