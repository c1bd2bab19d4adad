//! The grammar of core text (R6RS 9.1 and 11).
//!
//! The line `(define %/f/0 (lambda (%/x/1 . %/y/2) (if %/x/1 (quote ()) #t)))` is the text of core code: a definition of the
//! variable of one label, whose value is a procedure with a formal and a rest, and so on. `core_output` writes it byte for byte
//! as its definition says. Here it is said what the line means, in the words of R6RS: a relation by cases has for
//! each form of core code the datum that spells it.
//!
//! The promise: the text of core code is the text of the datum that spells it; there is one such datum; and one
//! datum spells one code, but for the numbers of its procedures, the spans of its constants, and the labels of its
//! variables, of which it tells the names. The core text of a program, read as a file, is `(import (rnrs))` and one
//! datum for each line, which spells that line: the bytes spell the data by the grammar of `law_grammar`, and the data
//! spell core code by this one.
//!
//! Here are no calls to make: each function stands for the law that it ensures.
#![tactic(auto)]

ghost use Rattle.law_core_grammar.specs.Bound.{BoundHaveNames, NamesAreGenerated, NamesTellApart};
ghost use Rattle.law_core_grammar.specs.Examples.{SpellingExamples};
ghost use Rattle.law_core_grammar.specs.Laws.{TextsAreSpellings, LineTextsAreSpellings, CodeIsSpelled, LinesAreSpelled, OneSpelling, OneCodeByNames, OneLineByNames, OneCode, OneLine, SpellingsCanBeRead, CoreTextIsReadBack, CoreTextTellsItsLines};

use law_grammar::spellings_are_read_by_the_grammar;

/// Core code has a spelling if its variables have names and it has no form of `syntax` or
/// `syntax-case`; so has a line of a program.
pub fn core_code_is_spelled()
    ensures code { CodeIsSpelled }
    ensures lines { LinesAreSpelled }
{}

/// The text of core code, or of a line, is that of the datum that spells it.
pub fn core_texts_are_spellings()
    ensures code { TextsAreSpellings }
    ensures lines { LineTextsAreSpellings }
{}

/// Core code has one spelling at most.
pub fn a_code_has_one_spelling()
    ensures { OneSpelling }
{}

/// A datum spells one core code, once each variable is replaced by its name and spans and the numbers
/// of procedures are left out.
pub fn a_datum_spells_one_code_by_names()
    ensures code { OneCodeByNames }
    ensures lines { OneLineByNames }
{}

/// A datum spells one core code, if no two variables have one name and spans and the numbers of
/// procedures are left out.
pub fn a_datum_spells_one_code()
    ensures code { OneCode }
    ensures lines { OneLine }
{}

/// The core text of a program whose lines can be spelled and whose constants can be read is read as
/// `(import (rnrs))` and one datum for each line, which spells it.
pub fn core_text_is_read_back()
    ensures spellings { SpellingsCanBeRead }
    ensures whole { CoreTextIsReadBack }
{
    spellings_are_read_by_the_grammar();
}

/// Two programs with one core text have the same lines, once each variable is replaced by its name and
/// spans and the numbers of procedures are left out.
pub fn core_text_tells_its_lines()
    ensures { CoreTextTellsItsLines }
{
    spellings_are_read_by_the_grammar();
}

/// Each variable that is bound with an index has a generated name, and no two variables have one name
/// if no two share library and index.
pub fn names_are_told_by_bindings()
    ensures given { BoundHaveNames }
    ensures generated { NamesAreGenerated }
    ensures apart { NamesTellApart }
{}

/// Examples of core code with its spelling and text, and of core code that has none.
pub fn examples_are_spelled()
    ensures { SpellingExamples }
{}
