//! The law of uses. The function here computes nothing: what it promises is the law.

ghost use Rattle.law_uses.specs.Counted.{UsesAreCounted, BodyUsesAreCounted};

/// An expansion starts with 1,000,000 uses of keywords, each use takes one, and a form is refused exactly at the first
/// use where none is left; so it is of expressions, and of forms of bodies.
pub fn uses_are_counted()
    ensures expressions { UsesAreCounted }
    ensures bodies { BodyUsesAreCounted }
{}
