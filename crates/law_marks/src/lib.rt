//! That marks are names: only which marks are the same matters, and never which ones they are.
//!
//! A mark is taken from a counter when a keyword is used, so the marks of an expansion depend on how many uses
//! came before. The promise: nothing else does. To give all marks other names, no two of them one name, and
//! then to enter, leave or stamp, to bind, to look up, to compare, to match a pattern or to make an instance
//! of a template, is to do that first and then give the marks these names.
//!
//! `specs/Alike` has the statements, each of one renaming. The laws of trees, leaves, matches and instances
//! stand at their crates too; `marks_are_names` has all in one.
//!
//! Here are no calls to make: each function stands for the law that it ensures.
#![tactic(auto)]

ghost use Rattle.base_data.specs.declared.name.Mark.{Mark};
ghost use Rattle.stx_tree.specs.Renaming.{IsOneToOne};
ghost use Rattle.law_marks.specs.Alike.{FramesAlike, LeavesAlike, MarksAreNames};

/// To bind in a frame, and to refuse a second binder, is the same under other names of marks.
pub fn frames_keep_other_names()
    ensures { (r : Mark → Mark) → IsOneToOne r → FramesAlike r }
{}

/// What an identifier stands for is the same under other names of marks, and the row that captures it
/// is the same with its marks under these names.
pub fn leaves_keep_other_names()
    ensures { (r : Mark → Mark) → IsOneToOne r → LeavesAlike r }
{}

/// To enter, leave and stamp, to bind, to look up and compare identifiers, to match a pattern and to
/// make an instance are the same under other names of marks, one to one.
pub fn marks_are_names()
    ensures { (r : Mark → Mark) → IsOneToOne r → MarksAreNames r }
{}
