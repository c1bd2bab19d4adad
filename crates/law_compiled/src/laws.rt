//! The law of templates in the report's words. The function here computes nothing: what it promises is the law.

ghost use Rattle.law_compiled.specs.Templates.{TemplatesAreCompiled, OthersAreBadTemplates};

/// A form that is a template by the cases of the report is compiled to that template, and what is compiled is one. Any other is
/// `BadTemplate` at an ellipsis that repeats nothing or at a variable under too few ellipses, `OutOfContext` at a variable of
/// another level, or `TooDeep` where a part that lost its escapes passes a limit of trees.
pub fn templates_are_those_of_the_report()
    ensures compiled { TemplatesAreCompiled }
    ensures others { OthersAreBadTemplates }
{}
