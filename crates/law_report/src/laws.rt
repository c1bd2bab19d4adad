//! Laws of matches and instances in the report's words. Each function here computes nothing: what it promises is the law.

ghost use Rattle.std.specs.Prelude.{List};
ghost use Rattle.stx_frames.specs.Scope.{Scope};
ghost use Rattle.core_language.specs.Pattern.{PlainPattern};
ghost use Rattle.eval_value.specs.Cells.{FitsIn, WholeCells};
ghost use Rattle.eval_value.specs.declared.cell.Cell.{Cell};
ghost use Rattle.eval_value.specs.declared.value.Value.{Value};
ghost use Rattle.eval_pattern.specs.Matched.{matched, nothing};
ghost use Rattle.law_report.specs.Instances.{InstancesAreGiven};
ghost use Rattle.law_report.specs.Matching.{IsRight};

/// What the matcher finds is a match by the cases of the report, and it finds nothing only where there is none.
pub fn a_match_is_that_of_the_report()
    ensures { (fs : Scope) (cells : List Cell) → WholeCells cells → (p : PlainPattern) (v : Value) → FitsIn cells v →
        IsRight fs cells p v (matched fs cells p v (nothing 0)) }
{}

/// A template whose variables are bound to their depths gives an instance by the cases of the report, over cells that keep
/// those that were there; or it is `EllipsisLength`, and the words are the lengths of the first two variables at an ellipsis
/// that differ.
pub fn instances_are_those_of_the_report()
    ensures { InstancesAreGiven }
{}
