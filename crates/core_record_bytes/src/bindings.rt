//! Bindings as bytes.

ghost use Rattle.std.specs.Prelude.{◌≡◌, IfOk, OnOk, option_map};
ghost use Rattle.base_bytes.specs.Codec.{checked, listed, optional, some_get, u32, ◌then◌};
ghost use Rattle.base_bytes.specs.Names.{label};
ghost use Rattle.base_bytes.specs.Puts.{Puts, PutsIf};
ghost use Rattle.core_codec.specs.Records as spell;

use base_bytes::libraries::RecentLibraries;
use base_bytes::names::{op_at, put_op};
use base_bytes::numbers::{bool_at, put_bool, put_u32, put_u64, u32_at, u64_at};
use base_bytes::room::list_for;
use base_bytes::spelled::Spelled;
use base_data::memory::Memory;
use base_data::name::Label;
use base_data::symbol::Symbol;
use core_code_bytes::at::core_at;
use core_code_bytes::put::put_core;
use core_language::binding::{Binding, Expression, VarInfo};
use core_language::core_form::CoreForm;
use core_pattern_bytes::held::HeldReading;
use std::alloc::Global;
use std::cmp::Ordering;

/// One more than how many core expressions core code may have round one.
pub(crate) const MAX_CORE: u32 = 8193;

#[tactic(auto, unfolding(core_codec::specs::Records::core_form))]
fn put_core_form(out: &mut Vec<u8>, form: CoreForm) -> Result<(), Memory>
    ensures { OnOk result (Puts spell.core_form form out.old.items out.new.items) }
{
    out.push(form.place())?;
    Ok(())
}

#[tactic(auto, unfolding(core_codec::specs::Records::core_form))]
fn core_form_at(bytes: &[u8]) -> Option<(CoreForm, &[u8])>
    ensures { option_map (λ x. (x.0, x.1.now)) result ≡ spell.core_form.get bytes.now }
{
    match bytes {
        [] => None,
        [place, rest @ ..] => match CoreForm::at_place(*place) {
            Some(form) => Some((form, rest)),
            None => None,
        },
    }
}

#[tactic(auto, unfolding(core_codec::specs::Records::variable))]
fn put_variable(out: &mut Vec<u8>, variable: &VarInfo) -> Result<(), Memory>
    ensures { OnOk result (Puts spell.variable variable.now out.old.items out.new.items) }
{
    variable.symbol.put(out)?;
    variable.index.put(out)?;
    put_u32(out, variable.level)?;
    put_bool(out, variable.top)?;
    put_bool(out, variable.assigned)
}

#[tactic(auto, unfolding(core_codec::specs::Records::variable))]
fn variable_at<'a>(
    libraries: &mut RecentLibraries,
    bytes: &'a [u8],
) -> Result<Option<(VarInfo, &'a [u8])>, Memory>
    ensures { IfOk result (λ o. option_map (λ x. (x.0, x.1.now)) o ≡ spell.variable.get bytes.now) }
{
    let Some((symbol, rest)) = Symbol::at(libraries, bytes)? else {
        return Ok(None);
    };
    let Some((index, rest)) = Spelled::at(libraries, rest)? else {
        return Ok(None);
    };
    let Some((level, rest)) = u32_at(rest) else {
        return Ok(None);
    };
    let Some((top, rest)) = bool_at(rest) else {
        return Ok(None);
    };
    let Some((assigned, rest)) = bool_at(rest) else {
        return Ok(None);
    };
    let variable = VarInfo {
        symbol,
        index,
        level,
        top,
        assigned,
    };
    Ok(Some((variable, rest)))
}

/// The expression of a keyword, where it has one.
fn put_expression(
    out: &mut Vec<u8>,
    alloc: Global,
    expression: &Option<Expression>,
) -> Result<bool, Memory>
    ensures { IfOk result (λ b. PutsIf (optional spell.code) expression.now out.old.items out.new.items b) }
{
    match expression {
        None => {
            out.push(0)?;
            Ok(true)
        }
        Some(expression) => {
            out.push(1)?;
            put_core(out, alloc, MAX_CORE, expression.code())
        }
    }
}

fn expression_at<'a>(
    libraries: &mut RecentLibraries,
    bytes: &'a [u8],
) -> Result<Option<(Option<Expression>, &'a [u8])>, Memory>
    ensures { IfOk result (λ o. option_map (λ x. (x.0, x.1.now)) o ≡ (optional spell.code).get bytes.now) }
{
    match bytes {
        [] => Ok(None),
        [0, rest @ ..] => Ok(Some((None, rest))),
        [1, rest @ ..] => match core_at(libraries, MAX_CORE, rest)? {
            Some((core, rest)) => {
                let expression = Expression::new(libraries.alloc(), core)?;
                Ok(Some((Some(expression), rest)))
            }
            None => Ok(None),
        },
        [_, ..] => Ok(None),
    }
}

#[tactic(auto, unfolding(core_codec::specs::Records::binding))]
fn put_binding(out: &mut Vec<u8>, alloc: Global, binding: &Binding) -> Result<bool, Memory>
    ensures { IfOk result (λ b. PutsIf spell.binding binding.now out.old.items out.new.items b) }
{
    match binding {
        Binding::Variable(variable) => {
            out.push(0)?;
            put_variable(out, variable)?;
            Ok(true)
        }
        Binding::PatternVariable { level, depth } => {
            out.push(1)?;
            put_u32(out, *level)?;
            put_u32(out, *depth)?;
            Ok(true)
        }
        Binding::Macro { level, expression } => {
            out.push(2)?;
            put_u32(out, *level)?;
            put_expression(out, alloc, expression)
        }
        Binding::Core(form) => {
            out.push(3)?;
            put_core_form(out, *form)?;
            Ok(true)
        }
        Binding::Primitive(op) => {
            out.push(4)?;
            put_op(out, op)
        }
    }
}

#[tactic(auto, unfolding(core_codec::specs::Records::binding))]
fn binding_at<'a>(
    libraries: &mut RecentLibraries,
    bytes: &'a [u8],
) -> Result<Option<(Binding, &'a [u8])>, Memory>
    ensures { IfOk result (λ o. option_map (λ x. (x.0, x.1.now)) o ≡ spell.binding.get bytes.now) }
{
    match bytes {
        [0, rest @ ..] => match variable_at(libraries, rest)? {
            Some((variable, rest)) => Ok(Some((Binding::Variable(variable), rest))),
            None => Ok(None),
        },
        [1, rest @ ..] => match levels_at(rest) {
            Some((levels, rest)) => {
                let binding = Binding::PatternVariable {
                    level: levels.level,
                    depth: levels.depth,
                };
                Ok(Some((binding, rest)))
            }
            None => Ok(None),
        },
        [2, rest @ ..] => match keyword_at(libraries, rest)? {
            Some((keyword, rest)) => {
                let binding = Binding::Macro {
                    level: keyword.level,
                    expression: keyword.expression,
                };
                Ok(Some((binding, rest)))
            }
            None => Ok(None),
        },
        [3, rest @ ..] => match core_form_at(rest) {
            Some((form, rest)) => Ok(Some((Binding::Core(form), rest))),
            None => Ok(None),
        },
        [4, rest @ ..] => match op_at(rest) {
            Some((op, rest)) => Ok(Some((Binding::Primitive(op), rest))),
            None => Ok(None),
        },
        _ => Ok(None),
    }
}

/// The level and the depth of a pattern variable.
#[derive(Drop)]
struct Levels {
    level: u32,
    depth: u32,
}

fn levels_at(bytes: &[u8]) -> Option<(Levels, &[u8])>
    ensures { option_map (λ x. ((x.0.level, x.0.depth), x.1.now)) result ≡ (u32 then u32).get bytes.now }
{
    let (level, rest) = u32_at(bytes)?;
    let (depth, rest) = u32_at(rest)?;
    Some((Levels { level, depth }, rest))
}

/// The level of a keyword, and its expression.
#[derive(Drop)]
struct KeywordRow {
    level: u32,
    expression: Option<Expression>,
}

fn keyword_at<'a>(
    libraries: &mut RecentLibraries,
    bytes: &'a [u8],
) -> Result<Option<(KeywordRow, &'a [u8])>, Memory>
    ensures { IfOk result (λ o. option_map (λ x. ((x.0.level, x.0.expression), x.1.now)) o ≡ (u32 then optional spell.code).get bytes.now) }
{
    let Some((level, rest)) = u32_at(bytes) else {
        return Ok(None);
    };
    match expression_at(libraries, rest)? {
        Some((expression, rest)) => Ok(Some((KeywordRow { level, expression }, rest))),
        None => Ok(None),
    }
}

/// Whether each label comes after that of the binding before it.
fn bindings_rise(bindings: &[(Label, Binding)]) -> bool
    ensures { result ≡ spell.bindings_rise bindings.now }
{
    match bindings {
        [] => true,
        [first, rest @ ..] => bindings_rise_on(&first.0, rest),
    }
}

fn is_less(ordering: Ordering) -> bool
    ensures { result ≡ spell.is_less ordering }
{
    match ordering {
        Ordering::Less => true,
        Ordering::Equal => false,
        Ordering::Greater => false,
    }
}

fn bindings_rise_on(label: &Label, bindings: &[(Label, Binding)]) -> bool
    ensures { result ≡ spell.bindings_rise_on label.now bindings.now }
{
    let mut before = label;
    let mut left = bindings;
    while let [next, rest @ ..] = left {
        if !is_less(before.0.cmp(&next.0.0)) {
            return false;
        }
        before = &next.0;
        left = rest;
    }
    true
}

/// Adds bindings, which rise by their labels.
pub(crate) fn put_bindings(
    out: &mut Vec<u8>,
    alloc: Global,
    bindings: &[(Label, Binding)],
) -> Result<bool, Memory>
    ensures { IfOk result (λ b.
        PutsIf (checked spell.bindings_rise (listed (label then spell.binding))) bindings.now out.old.items out.new.items b) }
{
    if !bindings_rise(bindings) {
        return Ok(false);
    }
    put_all(out, alloc, bindings)
}

fn put_all(out: &mut Vec<u8>, alloc: Global, bindings: &[(Label, Binding)]) -> Result<bool, Memory>
    ensures { IfOk result (λ b. PutsIf (listed (label then spell.binding)) bindings.now out.old.items out.new.items b) }
{
    put_u64(out, bindings.len() as u64)?;
    for row in bindings {
        if !put_row(out, alloc, row)? {
            return Ok(false);
        }
    }
    Ok(true)
}

fn put_row(out: &mut Vec<u8>, alloc: Global, row: &(Label, Binding)) -> Result<bool, Memory>
    ensures { IfOk result (λ b. PutsIf (label then spell.binding) row.now out.old.items out.new.items b) }
{
    row.0.put(out)?;
    put_binding(out, alloc, &row.1)
}

/// The bindings that the bytes begin with, where they rise by their labels, and the bytes behind them.
pub(crate) fn bindings_at<'a>(
    libraries: &mut RecentLibraries,
    bytes: &'a [u8],
) -> Result<Option<(HeldReading<Vec<(Label, Binding)>>, &'a [u8])>, Memory>
    ensures { IfOk result (λ o. option_map (λ x. (x.0.value.items, x.1.now)) o
        ≡ (checked spell.bindings_rise (listed (label then spell.binding))).get bytes.now) }
{
    let Some((bindings, rest)) = all_at(libraries, bytes)? else {
        return Ok(None);
    };
    if !bindings_rise(&bindings.value) {
        return Ok(None);
    }
    Ok(Some((bindings, rest)))
}

fn all_at<'a>(
    libraries: &mut RecentLibraries,
    bytes: &'a [u8],
) -> Result<Option<(HeldReading<Vec<(Label, Binding)>>, &'a [u8])>, Memory>
    ensures { IfOk result (λ o. option_map (λ x. (x.0.value.items, x.1.now)) o ≡ (listed (label then spell.binding)).get bytes.now) }
{
    match u64_at(bytes) {
        Some((count, rest)) => some_bindings(libraries, count, rest),
        None => Ok(None),
    }
}

fn some_bindings<'a>(
    libraries: &mut RecentLibraries,
    count: u64,
    bytes: &'a [u8],
) -> Result<Option<(HeldReading<Vec<(Label, Binding)>>, &'a [u8])>, Memory>
    ensures { IfOk result (λ o. option_map (λ x. (x.0.value.items, x.1.now)) o ≡ some_get (label then spell.binding).get count bytes.now) }
{
    let list = list_for(libraries.alloc(), count, bytes.len() / 16)?;
    let mut list = HeldReading::new(list);
    let mut rest = bytes;
    for _ in 0..count {
        let Some((row, after)) = row_at(libraries, rest)? else {
            return Ok(None);
        };
        list.value.push(row)?;
        rest = after;
    }
    Ok(Some((list, rest)))
}

fn row_at<'a>(
    libraries: &mut RecentLibraries,
    bytes: &'a [u8],
) -> Result<Option<((Label, Binding), &'a [u8])>, Memory>
    ensures { IfOk result (λ o. option_map (λ x. (x.0, x.1.now)) o ≡ (label then spell.binding).get bytes.now) }
{
    let Some((label, rest)) = Label::at(libraries, bytes)? else {
        return Ok(None);
    };
    match binding_at(libraries, rest)? {
        Some((binding, rest)) => Ok(Some(((label, binding), rest))),
        None => Ok(None),
    }
}
