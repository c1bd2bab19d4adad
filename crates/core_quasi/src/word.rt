//! What the heads of lists do in templates.

ghost use Rattle.std.specs.Prelude.{◌≡◌, IfOk};
ghost use Rattle.core_quasi.specs.Words.{is_number, quote_word, syntax_word, numbered, labelled, word_of, head_word, inner, reach, counts};

use base_data::library::LibName;
use base_data::memory::Memory;
use base_data::name::Label;
use core_language::core_form::CoreForm;
use core_shapes::lists::{is_id, split_first};
use std::alloc::Global;
use stx_object::syn::Syn;
use stx_scope::scope::Frames;

/// Which identifiers are looked for.
#[derive(Clone, Copy, PartialEq, Eq)]
pub enum Family {
    /// `quasiquote`, `unquote` and `unquote-splicing`.
    Quote,
    /// `quasisyntax`, `unsyntax`, `unsyntax-splicing` and `...`.
    Syntax,
}

/// What an identifier does as the head of a list.
#[derive(Clone, Copy, PartialEq, Eq)]
pub enum QuasiWord {
    /// `quasiquote`, `quasisyntax`: the elements are one level further in.
    Raise,
    /// `unquote`, `unsyntax`: the elements are one level further out; at level 0 they are expressions.
    Lower,
    /// `unquote-splicing`, `unsyntax-splicing`: as `Lower`, and the values of the expressions are lists, whose
    /// elements take the place of the form.
    Splice,
    /// `...` before a template of `quasisyntax`: nothing is looked for in it.
    Escape,
    /// Every other form.
    Plain,
}

/// What is reached behind the head of a list.
#[derive(Clone, Copy, PartialEq, Eq)]
pub enum Reach {
    /// At level 0 behind `unquote` or `unsyntax`, the operand.
    Operand,
    /// At level 0 behind `unquote-splicing` or `unsyntax-splicing`, which only elements may begin with.
    Refused,
    Elements,
}

impl QuasiWord {
    /// What is reached behind this head, in a list at this level.
    pub(crate) fn reach(self, level: u64) -> Reach
        ensures { result ≡ reach self level }
    {
        if level > 0 {
            return Reach::Elements;
        }
        match self {
            QuasiWord::Lower => Reach::Operand,
            QuasiWord::Splice => Reach::Refused,
            _ => Reach::Elements,
        }
    }

    /// The level of the elements of a list with this head, from the list's own.
    pub(crate) fn inner(self, level: u64) -> Result<u64, Memory>
        ensures { IfOk result (λ n. n ≡ inner self level) }
    {
        match self {
            QuasiWord::Raise => match level.checked_add(1) {
                Some(raised) => Ok(raised),
                None => Err(Memory),
            },
            QuasiWord::Lower => Ok(level.saturating_sub(1)),
            QuasiWord::Splice => Ok(level.saturating_sub(1)),
            QuasiWord::Escape => Ok(level),
            QuasiWord::Plain => Ok(level),
        }
    }

    /// Whether a list with this head counts in levels.
    pub(crate) fn counts(self) -> bool
        ensures { result ≡ counts self }
    {
        match self {
            QuasiWord::Raise => true,
            QuasiWord::Lower => true,
            QuasiWord::Splice => true,
            QuasiWord::Escape => false,
            QuasiWord::Plain => false,
        }
    }
}

fn is_number(form: CoreForm, number: u64) -> bool
    ensures { result ≡ is_number form number }
{
    number == u64::from(form.number())
}

fn quote_word(number: u64) -> QuasiWord
    ensures { result ≡ quote_word number }
{
    if is_number(CoreForm::Quasiquote, number) {
        return QuasiWord::Raise;
    }
    if is_number(CoreForm::Unquote, number) {
        return QuasiWord::Lower;
    }
    if is_number(CoreForm::UnquoteSplicing, number) {
        return QuasiWord::Splice;
    }
    QuasiWord::Plain
}

fn syntax_word(number: u64) -> QuasiWord
    ensures { result ≡ syntax_word number }
{
    if is_number(CoreForm::Quasisyntax, number) {
        return QuasiWord::Raise;
    }
    if is_number(CoreForm::Unsyntax, number) {
        return QuasiWord::Lower;
    }
    if is_number(CoreForm::UnsyntaxSplicing, number) {
        return QuasiWord::Splice;
    }
    if is_number(CoreForm::Ellipsis, number) {
        return QuasiWord::Escape;
    }
    QuasiWord::Plain
}

fn numbered(family: Family, number: u64) -> QuasiWord
    ensures { result ≡ numbered family number }
{
    match family {
        Family::Quote => quote_word(number),
        Family::Syntax => syntax_word(number),
    }
}

fn labelled(family: Family, label: &Option<Label>) -> QuasiWord
    ensures { result ≡ labelled family label.now }
{
    match label {
        None => QuasiWord::Plain,
        Some(label) => {
            if *label.0.library == LibName::Core {
                numbered(family, label.0.number)
            } else {
                QuasiWord::Plain
            }
        }
    }
}

/// The word of a form. An identifier is known by what it stands for; what is no identifier is plain.
pub(crate) fn word_of(
    alloc: Global,
    family: Family,
    form: &Syn,
    frames: &Frames,
) -> Result<QuasiWord, Memory>
    ensures { IfOk result (λ w. w ≡ word_of family frames.now form.now) }
{
    if !is_id(alloc, form)? {
        return Ok(QuasiWord::Plain);
    }
    let label = frames.stands(form)?;
    Ok(labelled(family, &label))
}

/// The word of the first element of a list; what is no list, or the empty list, is plain.
pub(crate) fn head_word(
    alloc: Global,
    family: Family,
    form: &Syn,
    frames: &Frames,
) -> Result<QuasiWord, Memory>
    ensures { IfOk result (λ w. w ≡ head_word (word_of family frames.now) form.now) }
{
    let Some(parts) = split_first(alloc, form)? else {
        return Ok(QuasiWord::Plain);
    };
    word_of(alloc, family, &parts.first, frames)
}
