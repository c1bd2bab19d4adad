//! Want of memory hides no other cause.
//!
//! Where memory runs out, a call answers `Memory`, and its contract promises nothing else then. Some calls
//! answer `Memory`, too, where what they are given is of no use: where a table of the run is to take a second
//! record of one library, or a frame two rows with one symbol and the same marks, or where a frame of another
//! library is to be bound in. Each such call says so. Here it is told that no run meets this.
//!
//! ```text
//! (import (only (a) x) (only (b) x))    one name for two labels: a conflict, told before any frame is made
//! (define x 1) (define x 2)             a second binder: a fault at its place, and no row comes of it
//! ```
//!
//! Three things bring this about. A frame is bound in by its own library alone, while that is expanded, and
//! each bind is told from a second binder first; so the rows of a record, which are those of its frames, can
//! be bound again one after another. Import sets give each name once. And no two libraries of a run have one
//! name, as the laws of records say.
//!
//! A run may be at fault in a file that isn't found, or in a form of its third library. What was made before is put down
//! in the same way, so the same is told of each part of a run, as far as it came.
//!
//! A use of a keyword answers so, too, where the kept transformer is a variable transformer whose cell isn't there:
//!
//! ```text
//! (define-syntax v (make-variable-transformer f))    `f` lies in a cell; each use of `v` drops the cells of its own call alone
//! ```
//!
//! From a whole state each form leads to a whole state, in which each transformer that is kept has its procedure, and every expansion of a run
//! begins in one.
//!
//! What no law says is told in `docs/TESTED.md`.

ghost use Rattle.law_run.specs.Expansion.{OwnFramesAreBound, NewLabelsAreUnbound, StartsAreNumbered, RecordsAreOnceOver};
ghost use Rattle.law_run.specs.Fitting.{RecordsFit, ExpansionsBegin};
ghost use Rattle.law_run.specs.Parts.{PartsFit, PartsBegin, ProgramsBegin, DerivedBegins};
ghost use Rattle.law_run.specs.Transformers.{WholeStatesHaveProcedures, UsesFindProcedures, MissingIsStuck, FormsStayWhole, BodiesStayWhole, StartsAreWhole, PartsStartWhole, ProgramsStartWhole, DerivedStartsWhole};
ghost use Rattle.law_run.specs.Nested.{FormsBeginWhole, ProceduresBeginWhole, BodiesBeginWhole, ItemsBeginWhole};

/// Expansion binds in frames of its own library alone, and a bind that goes through is no second binder. So the rows of
/// a record are bound again without a second binder, and it binds no label twice.
pub fn expansion_binds_once()
    ensures frames { OwnFramesAreBound }
    ensures records { RecordsAreOnceOver }
{}

/// The next name of a library is that of no label that is bound.
pub fn new_labels_are_unbound()
    ensures forms { NewLabelsAreUnbound }
    ensures starts { StartsAreNumbered }
{}

/// Each record of a run can be put into the tables of the run, and where the expansion of a library begins, its
/// frame is new and its names come once.
pub fn runs_fit()
    ensures records { RecordsFit }
    ensures starts { ExpansionsBegin }
{}

/// Of a run at fault, as far as it came, the records that were made fit into the tables of the run, and
/// the expansion that begins next has a new frame and names that come once.
pub fn parts_fit()
    ensures records { PartsFit }
    ensures next { PartsBegin }
    ensures programs { ProgramsBegin }
    ensures derived { DerivedBegins }
{}

/// In a whole state each transformer that is kept has its procedure, and a form, a body or a library
/// that is expanded in such a state leaves one, or is at fault in another way than by a missing
/// procedure.
pub fn kept_transformers_have_cells()
    ensures states { WholeStatesHaveProcedures }
    ensures uses { UsesFindProcedures }
    ensures missing { MissingIsStuck }
    ensures forms { FormsStayWhole }
    ensures bodies { BodiesStayWhole }
{}

/// Every expansion of a run, that of the derived library, of each library and of the program, begins in
/// a whole state, also where the run is at fault.
pub fn expansions_begin_whole()
    ensures starts { StartsAreWhole }
    ensures next { PartsStartWhole }
    ensures programs { ProgramsStartWhole }
    ensures derived { DerivedStartsWhole }
{}

/// What is begun directly in a form, a procedure, a body or a form of a body begins in a whole state,
/// in which the next name is of the library and of no label that is bound, also before a fault.
pub fn nested_forms_begin_whole()
    ensures forms { FormsBeginWhole }
    ensures procedures { ProceduresBeginWhole }
    ensures bodies { BodiesBeginWhole }
    ensures items { ItemsBeginWhole }
{}
