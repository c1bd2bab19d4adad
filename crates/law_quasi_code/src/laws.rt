//! The laws of the code of quasi forms. Each function here computes nothing: what it promises is the law.

ghost use Rattle.law_quasi_code.specs.Keywords.{KeywordsMakeWords, WordsAreOfKeywords};
ghost use Rattle.law_quasi_code.specs.Values.{CodeGivesTheTemplate};
ghost use Rattle.law_quasi_code.specs.Wants.{PartsAreExpressions};

/// An identifier is the `quasiquote`, the `unquote` or the like of a template exactly where it is bound to that
/// keyword; its symbol doesn't count (R6RS 11.17; libraries 12.8).
pub fn words_are_those_of_keywords()
    ensures word { KeywordsMakeWords }
    ensures only { WordsAreOfKeywords }
{}

/// What is to be expanded of a `quasiquote` form is its expressions, in their order, where its calls don't nest
/// too deep.
pub fn parts_are_the_expressions()
    ensures { PartsAreExpressions }
{}

/// Where the code of each expression of a `quasiquote` form gives a value, and lists where they are spliced, the
/// code of the form gives the template with these values in their places (R6RS 11.17).
pub fn code_gives_the_filled_template()
    ensures { CodeGivesTheTemplate }
{}
