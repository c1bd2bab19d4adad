//! The laws of whole worlds. The functions here compute nothing: what they promise is the laws.

ghost use Rattle.law_whole.specs.Beginning.{FirstWorldsAreWhole, OneIsWhole, BrokenAreNotWhole};
ghost use Rattle.law_whole.specs.WholeWorld.{NeverStuck, AppliedNeverStuck};
ghost use Rattle.law_whole.specs.Evaluated.{EvalsNeverStuck, CallsNeverStuck, LibrariesNeverStuck};
ghost use Rattle.law_whole.specs.MadeReady.{WellMadeNeverStuck, RecordsNeverStuck};

/// In a whole world no evaluation meets cells that don't fit, the world stays whole, and the value that
/// results is ready there.
pub fn whole_worlds_are_never_stuck()
    ensures eval { NeverStuck }
    ensures applied { AppliedNeverStuck }
{}

/// A world stays whole where the codes of an expression are added, a procedure is called from outside,
/// or a library is evaluated; what a library leaves is whole once the values of its variables are among
/// those of libraries.
pub fn worlds_stay_whole()
    ensures evals { EvalsNeverStuck }
    ensures calls { CallsNeverStuck }
    ensures libraries { LibrariesNeverStuck }
{}

/// Core code that is well made, closed under variables of libraries and numbered anew is ready for a
/// whole world, and so is a library whose record is as expansion gives it.
pub fn well_made_code_is_never_stuck()
    ensures code { WellMadeNeverStuck }
    ensures records { RecordsNeverStuck }
{}

/// A world is whole to begin with if the texts of all procedures given in Scheme are there, closed and
/// well made, and there is such a world.
pub fn whole_worlds_begin()
    ensures first { FirstWorldsAreWhole }
    ensures one { OneIsWhole }
{}

/// No world is whole in which a procedure has no code, the variables around others are nowhere, or a
/// place in a pair has no cell.
pub fn broken_worlds_are_not_whole()
    ensures { BrokenAreNotWhole }
{}
