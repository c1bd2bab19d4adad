//! The parts of lists in templates.

ghost use Rattle.std.specs.Prelude.{◌≡◌, ◌≤◌, length, option_map, IfOk};
ghost use Rattle.base_data.specs.declared.fault.BareStop.TheVariants as stop;
ghost use Rattle.core_quasi.specs.Parts.{bad, rest_at, counts_at, splits, operands, taken_by, taken_at, first_word, operand_of};
ghost use Rattle.core_quasi.specs.Words.{word_of};

use crate::word::{Family, QuasiWord, head_word, word_of};
use base_data::fault::{Bare, BareStop, FaultKind};
use base_data::items::Items;
use base_data::memory::Memory;
use core_shapes::lists::{proper, share_all, split_first};
use std::alloc::Global;
use stx_object::syn::Syn;
use stx_scope::scope::Frames;

/// What an element of a list or vector gives.
#[derive(Drop)]
pub enum QuasiTaken {
    /// The value of each of these expressions.
    Each(Items<Syn>),
    /// The elements of the values of these expressions.
    Spliced(Items<Syn>),
    /// A part of its own.
    Kept,
}

/// A list of a template.
#[derive(Drop)]
pub(crate) struct ListParts<'a> {
    pub(crate) form: &'a Syn,
    pub(crate) elements: &'a [Syn],
    /// What ends it.
    pub(crate) tail: &'a Syn,
}

/// The fault of a template that the reports have no meaning for.
pub(crate) fn bad(alloc: Global) -> BareStop
    ensures { result ≡ stop.Fault bad }
{
    BareStop::Fault(Bare {
        kind: FaultKind::BadForm,
        words: Items::new(alloc),
    })
}

/// The list behind so many elements.
#[tactic(auto, using(crate::proofs::Rests::rest_on, crate::proofs::Rests::rest_none))]
pub(crate) fn rest_at(alloc: Global, form: &Syn, count: usize) -> Result<Syn, Memory>
    ensures { IfOk result (λ t. t ≡ rest_at count form.now) }
{
    let mut rest = form.share()?;
    let mut left = count;
    while left > 0 {
        let Some(next) = split_first(alloc, &rest)? else {
            return Ok(rest);
        };
        rest = next.rest;
        left -= 1;
    }
    Ok(rest)
}

/// Whether the last two elements of a list are its tail.
pub(crate) fn splits(
    alloc: Global,
    family: Family,
    forms: &[Syn],
    ends: bool,
    frames: &Frames,
) -> Result<bool, Memory>
    ensures { IfOk result (λ b. b ≡ splits (word_of family frames.now) ends forms.now) }
{
    if !ends || forms.len() < 3 {
        return Ok(false);
    }
    let word = word_of(alloc, family, &forms[forms.len() - 2], frames)?;
    Ok(word.counts())
}

/// The operands of a form.
fn operands(alloc: Global, form: &Syn) -> Result<Option<Items<Syn>>, Memory>
    ensures { IfOk result (λ es. es ≡ operands form.now) }
{
    let Some(parts) = proper(alloc, form)? else {
        return Ok(None);
    };
    let [_head, operands @ ..] = parts.as_slice() else {
        return Ok(None);
    };
    let operands = share_all(alloc, operands)?;
    Ok(Some(operands))
}

fn taken_by(alloc: Global, word: QuasiWord, form: &Syn) -> Result<QuasiTaken, Memory>
    ensures { IfOk result (λ x. x ≡ taken_by word (operands form.now)) }
{
    match word {
        QuasiWord::Lower => match operands(alloc, form)? {
            Some(operands) => Ok(QuasiTaken::Each(operands)),
            None => Ok(QuasiTaken::Kept),
        },
        QuasiWord::Splice => match operands(alloc, form)? {
            Some(operands) => Ok(QuasiTaken::Spliced(operands)),
            None => Ok(QuasiTaken::Kept),
        },
        _ => Ok(QuasiTaken::Kept),
    }
}

/// What an element of a list or vector at this level gives.
pub(crate) fn taken_at(
    alloc: Global,
    family: Family,
    form: &Syn,
    level: u64,
    frames: &Frames,
) -> Result<QuasiTaken, Memory>
    ensures { IfOk result (λ x. x ≡ taken_at (word_of family frames.now) level form.now) }
{
    if level > 0 {
        return Ok(QuasiTaken::Kept);
    }
    let word = head_word(alloc, family, form, frames)?;
    taken_by(alloc, word, form)
}

/// The word of the first of these.
pub(crate) fn first_word(
    alloc: Global,
    family: Family,
    forms: &[Syn],
    frames: &Frames,
) -> Result<QuasiWord, Memory>
    ensures { IfOk result (λ w. w ≡ first_word (word_of family frames.now) forms.now) }
{
    let [head, ..] = forms else {
        return Ok(QuasiWord::Plain);
    };
    word_of(alloc, family, head, frames)
}

/// The only operand behind the head, where the list ends in the empty list.
pub(crate) fn operand_of(forms: &[Syn], ends: bool) -> Option<&Syn>
    ensures { option_map (λ t. t.now) result ≡ operand_of ends forms.now }
{
    if !ends {
        return None;
    }
    match forms {
        [_head, operand] => Some(operand),
        _ => None,
    }
}
