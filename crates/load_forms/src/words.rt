//! The words of library forms. They are compared as symbols.

ghost use Rattle.std.specs.Prelude.{◌≡◌};
ghost use Rattle.load_forms.specs.Words.{is_word, is_text, set_word, connective_of};

use base_data::datum::Datum;

/// What selects and moves the names of an import set.
#[derive(Clone, Copy, PartialEq, Eq)]
pub enum StepWord {
    Only,
    Except,
    Prefix,
    Rename,
}

/// What an import set or an import spec can begin with.
#[derive(Clone, Copy, PartialEq, Eq)]
pub enum SetWord {
    Library,
    For,
    Step(StepWord),
}

/// What a version reference, or a part of one, can begin with.
#[derive(Clone, Copy, PartialEq, Eq)]
pub enum Connective {
    And,
    Or,
    Not,
}

/// Whether a datum is this symbol.
pub(crate) fn is_word(datum: &Datum, word: &str) -> bool
    ensures { result ≡ is_word word.now datum.now }
{
    match datum.as_symbol() {
        Some(symbol) => symbol.as_str() == word,
        None => false,
    }
}

/// The word that an import set begins with, where it begins with one.
pub(crate) fn set_word(datum: &Datum) -> Option<SetWord>
    ensures { result ≡ set_word datum.now }
{
    if is_word(datum, "library") {
        Some(SetWord::Library)
    } else if is_word(datum, "for") {
        Some(SetWord::For)
    } else if is_word(datum, "only") {
        Some(SetWord::Step(StepWord::Only))
    } else if is_word(datum, "except") {
        Some(SetWord::Step(StepWord::Except))
    } else if is_word(datum, "prefix") {
        Some(SetWord::Step(StepWord::Prefix))
    } else if is_word(datum, "rename") {
        Some(SetWord::Step(StepWord::Rename))
    } else {
        None
    }
}

/// The word that a version reference, or a part of one, begins with.
pub(crate) fn connective_of(datum: &Datum) -> Option<Connective>
    ensures { result ≡ connective_of datum.now }
{
    if is_word(datum, "and") {
        Some(Connective::And)
    } else if is_word(datum, "or") {
        Some(Connective::Or)
    } else if is_word(datum, "not") {
        Some(Connective::Not)
    } else {
        None
    }
}
