//! Laws of what core code means. Each function here computes nothing: what it promises is the law.

ghost use Rattle.std.specs.Prelude.{◌≡◌, Some, codes};
ghost use Rattle.base_data.specs.Op.{op_named};
ghost use Rattle.base_data.specs.declared.op.names.TheConstants as names;
ghost use Rattle.law_eval.specs.Kept.{ExpressionsEndLater, CallsEndLater, LibrariesEndLater};
ghost use Rattle.law_eval.specs.MoreFuel.{MoreIsLeft, LeftIsNotNeeded, SpentWhereMoreIsNeeded, FuelFalls, Unrolls, AnyDepth};
ghost use Rattle.law_eval.specs.Runs.{Everywhere};

/// With more fuel an evaluation whose fuel wasn't spent gives the same, with that much more left.
pub fn more_fuel_gives_the_same()
    ensures { Everywhere MoreIsLeft }
{}

/// The fuel that an evaluation leaves wasn't needed: it gives the same with less by that much.
pub fn what_is_left_was_not_needed()
    ensures { Everywhere LeftIsNotNeeded }
{}

/// An evaluation is `FuelSpent` if it needs more fuel than it has, and only then, unless with some
/// amount of fuel it would get stuck.
pub fn fuel_is_spent_where_more_is_needed()
    ensures { Everywhere SpentWhereMoreIsNeeded }
{}

/// An evaluation leaves no more fuel than it was given, also at a fault.
pub fn fuel_only_falls()
    ensures { Everywhere FuelFalls }
{}

/// What an expression means is determined by what its parts mean, and the depth that bounds the
/// definition doesn't show if it is no less than the fuel.
pub fn depth_does_not_show()
    ensures parts { Unrolls }
    ensures depth { AnyDepth }
{}

/// An evaluation changes no cell that was there and frees no name that was taken, also where it comes to a
/// fault: only variables of cells that it adds itself get values. What it reads beside that, codes, globals
/// and frames, is no part of what it can change.
pub fn old_cells_are_kept()
    ensures expressions { ExpressionsEndLater }
    ensures calls { CallsEndLater }
    ensures libraries { LibrariesEndLater }
{}

/// The primitive that is called on the elements of its last argument is the one named `apply`.
pub fn apply_is_by_name()
    ensures { op_named (codes "apply") ≡ Some names.APPLY }
{}
