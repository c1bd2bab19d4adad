//! Laws of the stage. Each function here computes nothing: what it promises is the law.

ghost use Rattle.law_stage.specs.Grows.{BeginGrows, FinishGrows, ValueGrows, VariableGrows, UseGrows};
ghost use Rattle.law_stage.specs.Uses.{UsesDropCells, KeptUsesOnlyCount};
ghost use Rattle.law_stage.specs.Reached.{WantedAreReached, ReachedAreWanted, EvaluatedInOrder, StaysClosed, ReachedAreEvaluated};

/// The cells after a use of a macro are those with which its transformer was called; where that was
/// kept before, nothing changes but the names that are taken and the fuel that is spent.
pub fn uses_drop_their_cells()
    ensures cells { UsesDropCells }
    ensures kept { KeptUsesOnlyCount }
{}

/// No call on the stage forgets a cell that it found, a library that was evaluated or a transformer
/// that was kept, or frees a name.
pub fn nothing_is_forgotten()
    ensures begins { BeginGrows }
    ensures finishes { FinishGrows }
    ensures asks { ValueGrows }
    ensures asks_variable { VariableGrows }
    ensures uses { UseGrows }
{}

/// The libraries that are evaluated for an expression are those to which a chain of references leads,
/// in the order of loading, unless the first links of all chains were evaluated before.
pub fn libraries_on_demand()
    ensures reached { WantedAreReached }
    ensures wanted { ReachedAreWanted }
    ensures in_order { EvaluatedInOrder }
    ensures closed { StaysClosed }
    ensures all { ReachedAreEvaluated }
{}
