//! Laws of limits. Each function here computes nothing: what it promises is the law.

ghost use Rattle.law_limits.specs.Limits.{UsesStayWithin};

/// What a use of a keyword gives is within the limits of a tree, if all trees were before it.
pub fn uses_stay_within()
    ensures { UsesStayWithin }
{}
