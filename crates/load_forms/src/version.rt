//! Version references: which versions fit.
//!
//! `(1 (>= 2))` fits the version (1 3 7): its first numbers fit. `(or (1) (not (2)))` fits what `(1)` fits,
//! and what `(2)` doesn't.

ghost use Rattle.std.specs.Prelude.{◌≡◌, ◌&&◌, option_map};
ghost use Rattle.base_data.specs.Datum.{chain, nil};
ghost use Rattle.load_forms.specs.Version.{fits, all_fit, first_fit, at_place, further, agrees, number_fits, all_numbers, compared, by_sign, is_wanted, both, version_fits, is_reference, joined, wants, single};

use crate::name::number;
use crate::words::{Connective, connective_of, is_word};
use base_data::datum::Datum;

/// Whether a version fits a reference. It takes no memory.
pub fn version_fits(version: &[u64], reference: &Datum) -> bool
    ensures { result ≡ version_fits version.now reference.now }
{
    match fits(version, reference) {
        Some(answer) => answer,
        None => false,
    }
}

/// Whether a datum is a version reference.
pub(crate) fn is_reference(datum: &Datum) -> bool
    ensures { result ≡ is_reference datum.now }
{
    fits(&[], datum).is_some()
}

// Whether an answer is the one that is wanted.
fn agrees(wanted: bool, answer: bool) -> bool
    ensures { result ≡ agrees wanted answer }
{
    if wanted { answer } else { !answer }
}

// Whether all that came before are wanted, and this answer too.
fn and_agrees(all: bool, wanted: bool, answer: bool) -> bool
    ensures { result ≡ (all && agrees wanted answer) }
{
    all && agrees(wanted, answer)
}

// The answer that `and`, `or` and `not` ask of their parts.
fn wants(which: Connective) -> bool
    ensures { result ≡ wants which }
{
    match which {
        Connective::And => true,
        Connective::Or => false,
        Connective::Not => false,
    }
}

// The only element of a list.
#[tactic(auto, using(crate::proofs::VersionLemmas::single_none, crate::proofs::VersionLemmas::single_many))]
fn single(parts: &[Datum]) -> Option<&Datum>
    ensures { option_map (λ d. d.now) result ≡ single (chain parts.now nil) }
{
    match parts {
        [part] => Some(part),
        _ => None,
    }
}

// What they make of whether all parts give the answer that they ask; `not` has one part.
fn joined(parts: &[Datum], answer: Option<bool>, which: Connective) -> Option<bool>
    ensures { result ≡ joined (chain parts.now nil) answer which }
{
    match which {
        Connective::And => answer,
        Connective::Or => Some(!answer?),
        Connective::Not => {
            let _part = single(parts)?;
            answer
        }
    }
}

// Whether a version fits, where the datum is a reference.
#[cycle(fits)]
fn fits(version: &[u64], reference: &Datum) -> Option<bool>
    ensures { result ≡ fits version.now reference.now }
{
    let items = reference.as_list()?;
    let Some((head, parts)) = items.split_first() else {
        return Some(true);
    };
    match connective_of(head) {
        None => first_fit(version, items),
        Some(which) => {
            let answer = all_fit(wants(which), version, parts);
            joined(parts, answer, which)
        }
    }
}

// Whether a version's fit with each reference is the one that is wanted.
#[cycle(fits)]
fn all_fit(wanted: bool, version: &[u64], references: &[Datum]) -> Option<bool>
    ensures { result ≡ all_fit wanted version.now (chain references.now nil) }
{
    let mut all = true;
    for reference in references {
        let answer = fits(version, reference)?;
        all = and_agrees(all, wanted, answer);
    }
    Some(all)
}

// Whether the first numbers of a version fit.
fn first_fit(version: &[u64], parts: &[Datum]) -> Option<bool>
    ensures { result ≡ first_fit version.now (chain parts.now nil) }
{
    let mut left = version;
    let mut all = true;
    for part in parts {
        let answer = next_fits(left, part)?;
        all = and_agrees(all, true, answer);
        left = further(left);
    }
    Some(all)
}

// Whether the next number fits a part.
fn next_fits(version: &[u64], part: &Datum) -> Option<bool>
    ensures { result ≡ at_place version.now (λ n. number_fits n part.now) }
{
    match version.first() {
        Some(number) => number_fits(*number, part),
        None => {
            number_fits(0, part)?;
            Some(false)
        }
    }
}

// The numbers behind the next one.
fn further(version: &[u64]) -> &[u64]
    ensures { result.now ≡ further version.now }
{
    match version {
        [_, others @ ..] => others,
        [] => version,
    }
}

// Whether a number fits a part of a reference.
#[cycle(number)]
fn number_fits(n: u64, part: &Datum) -> Option<bool>
    ensures { result ≡ number_fits n part.now }
{
    if let Some(other) = number(part) {
        return Some(n == other);
    }
    let items = part.as_list()?;
    let (head, parts) = items.split_first()?;
    match connective_of(head) {
        None => compared(n, head, parts),
        Some(which) => {
            let answer = all_numbers(wants(which), n, parts);
            joined(parts, answer, which)
        }
    }
}

#[cycle(number)]
fn all_numbers(wanted: bool, n: u64, parts: &[Datum]) -> Option<bool>
    ensures { result ≡ all_numbers wanted n (chain parts.now nil) }
{
    let mut all = true;
    for part in parts {
        let answer = number_fits(n, part)?;
        all = and_agrees(all, wanted, answer);
    }
    Some(all)
}

fn compared(n: u64, sign: &Datum, parts: &[Datum]) -> Option<bool>
    ensures { result ≡ compared n sign.now (chain parts.now nil) }
{
    let other = number(single(parts)?)?;
    if is_word(sign, ">=") {
        Some(other <= n)
    } else if is_word(sign, "<=") {
        Some(n <= other)
    } else {
        None
    }
}
