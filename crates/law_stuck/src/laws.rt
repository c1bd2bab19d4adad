//! Laws of steady stages. Each function here computes nothing: what it promises is the law.

ghost use Rattle.law_stuck.specs.Kinds.{EvaluationsTellOther};
ghost use Rattle.law_stuck.specs.Uses.{UsesNeverStuck, TransformersNeverStuck, AsksNeverStuck, BeginsNeverStuck, FinishesNeverStuck};

/// Whatever the world, an evaluation that ends with a fault ends with another one than that of cells
/// that don't fit.
pub fn evaluations_tell_other_faults()
    ensures { EvaluationsTellOther }
{}

/// On a stage whose code is ready no use of a macro gets stuck, and the stage is so afterwards; nor is
/// it where a keyword is bound, or asked for its transformer or its kind.
pub fn uses_never_get_stuck()
    ensures uses { UsesNeverStuck }
    ensures transformers { TransformersNeverStuck }
    ensures asks { AsksNeverStuck }
    ensures begins { BeginsNeverStuck }
    ensures finishes { FinishesNeverStuck }
{}
