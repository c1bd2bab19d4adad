//! The law of patterns in the report's words. The function here computes nothing: what it promises is the law.

ghost use Rattle.law_patterns.specs.Patterns.{PatternsAreCompiled, OthersAreBadPatterns};

/// A form that is a pattern by the cases of the report is compiled to that pattern, what is compiled is one, and any other is
/// `BadPattern`, at a literal or at a part of the form.
pub fn patterns_are_those_of_the_report()
    ensures compiled { PatternsAreCompiled }
    ensures others { OthersAreBadPatterns }
{}
