//! The law of all uses. The function here computes nothing: what it promises is the law.

ghost use Rattle.law_counts.specs.Counted.{UsesAreCountedInWhole};

/// The uses of keywords that the expansion of a form makes, and those that are left after it, are those that were left
/// before it. The uses that the expansion of a library makes, and those that are left at its end, are 1,000,000.
pub fn uses_are_counted_in_whole()
    ensures { UsesAreCountedInWhole }
{}
