//! Makes lists and adds what was read to them, by calls that are never inlined.

ghost use Rattle.std.specs.Prelude.{◌≡◌, ◌∷◌, ◌++◌, [], IfOk, OnOk};
ghost use Rattle.core_code_bytes.specs.Seen.{held_there};

use crate::nodes::Boxed;
use base_bytes::room::{MOST_AHEAD, list_for};
use base_data::memory::Memory;
use base_data::name::Label;
use core_language::code::{Clause, Core, Init, Lambda};
use core_language::formals::Formals;
use core_language::pattern::Pattern;
use core_pattern_bytes::held::HeldReading;
use std::alloc::Global;
use std::boxed::Box;

/// The variable of a `letrec`, and the expression of its value.
#[derive(Drop)]
pub(crate) struct InitParts {
    pub label: Label,
    pub value: Boxed,
}

/// The formals and the body of a procedure's case.
#[derive(Drop)]
pub(crate) struct CaseParts {
    pub formals: HeldReading<Box<Formals>>,
    pub body: Boxed,
}

/// The pattern of a clause, and what it gives.
#[derive(Drop)]
pub(crate) struct ClauseParts {
    pub pattern: HeldReading<Box<Pattern>>,
    pub outcome: FenderAndOutput,
}

/// The fender and the output of a clause.
#[derive(Drop)]
pub(crate) struct FenderAndOutput {
    pub fender: Option<Boxed>,
    pub output: Boxed,
}

/// An empty list with room for as many values as are counted, or for a few.
#[inline(never)]
pub(crate) fn list_of<T>(alloc: Global, count: u64) -> Result<HeldReading<Vec<T>>, Memory>
    ensures { IfOk result (λ list. list.value.items ≡ []) }
{
    let list = list_for(alloc, count, MOST_AHEAD)?;
    Ok(HeldReading::new(list))
}

#[inline(never)]
pub(crate) fn add_part(list: &mut Vec<Core>, part: Boxed) -> Result<(), Memory>
    ensures { OnOk result (list.new.items ≡ list.old.items ++ part.value.value ∷ []) }
{
    list.push(Box::into_inner(part.take()))?;
    Ok(())
}

#[inline(never)]
pub(crate) fn add_init(list: &mut Vec<Init>, parts: InitParts) -> Result<(), Memory>
    ensures { OnOk result (list.new.items ≡ list.old.items ++ record { label = parts.label; value = parts.value.value.value } ∷ []) }
{
    let init = Init {
        label: parts.label,
        value: Box::into_inner(parts.value.take()),
    };
    list.push(init)?;
    Ok(())
}

#[inline(never)]
pub(crate) fn add_case(list: &mut Vec<Lambda>, parts: CaseParts) -> Result<(), Memory>
    ensures { OnOk result (list.new.items ≡ list.old.items ++ record { formals = parts.formals.value.value; body = parts.body.value.value } ∷ []) }
{
    let case = Lambda {
        formals: Box::into_inner(parts.formals.take()),
        body: Box::into_inner(parts.body.take()),
    };
    list.push(case)?;
    Ok(())
}

fn fender_of(fender: Option<Boxed>) -> Option<Core>
    ensures { result ≡ held_there fender }
{
    match fender {
        Some(fender) => Some(Box::into_inner(fender.take())),
        None => None,
    }
}

#[inline(never)]
pub(crate) fn add_clause(list: &mut Vec<Clause>, parts: ClauseParts) -> Result<(), Memory>
    ensures { OnOk result (list.new.items ≡ list.old.items ++ record {
      pattern = parts.pattern.value.value;
      fender = held_there parts.outcome.fender;
      output = parts.outcome.output.value.value;
    } ∷ []) }
{
    let clause = Clause {
        pattern: Box::into_inner(parts.pattern.take()),
        fender: fender_of(parts.outcome.fender),
        output: Box::into_inner(parts.outcome.output.take()),
    };
    list.push(clause)?;
    Ok(())
}
