//! The walk over a form, which keeps the names on its way.

ghost use Rattle.std.specs.Prelude.{◌≡◌, length, IsTrue};
ghost use Rattle.base_data.specs.Datum.{chain, elements, nil, is_tail, symbol_text};
ghost use Rattle.check_verdict.specs.Survey.{Takes, IsConstant};
ghost use Rattle.check_verdict.specs.Walk.{is_itself, is_quotation, is_armed, is_row, is_define, formals, last_formal, init_names, expression, expressions, one, assigned, init, procedure, cases, inits, recursive, definition, line_form};
ghost use Rattle.check_verdict.specs.declared.survey.WalkHalt.TheVariants as halt;

use crate::form::{Form, form_of, is_itself, is_quoted, name_in};
use crate::primitives::Primitives;
use crate::survey::{Survey, WalkHalt};
use base_data::atom::Atom;
use base_data::datum::{Datum, Node};

/// Whether there is one datum, which is quoted.
fn is_quotation(items: &[Datum]) -> bool
    ensures { result ≡ is_quotation (chain items.now nil) }
{
    match items {
        [] => false,
        [datum] => is_quoted(datum),
        [_, _, ..] => false,
    }
}

fn constant(atom: &Atom) -> Result<(), WalkHalt>
    ensures { IsConstant result (is_itself atom.now) }
{
    if is_itself(atom) {
        Ok(())
    } else {
        Err(WalkHalt::Refused)
    }
}

// How many data there are.
#[tactic(auto, using(crate::proofs::Same::chain_length))]
fn count(items: &[Datum]) -> usize
    ensures { result ≡ length (elements (chain items.now nil)) }
{
    items.len()
}

/// Whether there are as many data as `if` takes.
fn is_armed(items: &[Datum]) -> bool
    ensures { result ≡ is_armed (chain items.now nil) }
{
    let count = count(items);
    count == 2 || count == 3
}

/// Whether there are as many data as a sequence has: one or more.
fn is_row(items: &[Datum]) -> bool
    ensures { result ≡ is_row (chain items.now nil) }
{
    1 <= count(items)
}

fn is_define(head: &Datum) -> bool
    ensures { result ≡ is_define (symbol_text head.now) }
{
    match head.as_symbol() {
        Some(keyword) => keyword.as_str() == "define",
        None => false,
    }
}

/// The end of formals.
fn last_formal(survey: &mut Survey, tail: &Datum) -> Result<(), WalkHalt>
    ensures { Takes result survey.new (last_formal tail.now survey.old) }
{
    if tail.is_nil() {
        return Ok(());
    }
    let Some(name) = name_in(tail) else {
        return Err(WalkHalt::Refused);
    };
    survey.take_formal(name)?;
    Ok(())
}

/// Formals in a list, and its tail.
fn formals_in(survey: &mut Survey, items: &[Datum], tail: &Datum) -> Result<(), WalkHalt>
    requires { IsTrue (is_tail tail.now) }
    ensures { Takes result survey.new (formals (chain items.now tail.now) survey.old) }
{
    for item in items {
        let Some(name) = name_in(item) else {
            return Err(WalkHalt::Refused);
        };
        survey.take_formal(name)?;
    }
    last_formal(survey, tail)
}

/// Formals: `(x ...)`, `(x ... . r)` or `r`.
fn formals(survey: &mut Survey, datum: &Datum) -> Result<(), WalkHalt>
    ensures { Takes result survey.new (formals datum.now survey.old) }
{
    match &datum.node {
        Node::List(items, tail) => formals_in(survey, items, tail),
        Node::Atom(_) | Node::Symbol(_) | Node::Vector(_) => last_formal(survey, datum),
    }
}

/// The names of pairs of a name and an expression are in scope from here.
fn init_names(survey: &mut Survey, items: &[Datum]) -> Result<(), WalkHalt>
    ensures { Takes result survey.new (init_names (chain items.now nil) survey.old) }
{
    for item in items {
        let Some(first) = item.first() else {
            return Err(WalkHalt::Refused);
        };
        let Some(name) = name_in(first) else {
            return Err(WalkHalt::Refused);
        };
        survey.enter(name)?;
    }
    Ok(())
}

/// The names of the bindings of a `letrec` are in scope from here.
fn binding_names(survey: &mut Survey, datum: &Datum) -> Result<(), WalkHalt>
    ensures { Takes result survey.new (init_names datum.now survey.old) }
{
    match datum.as_list() {
        Some(items) => init_names(survey, items),
        None => Err(WalkHalt::Refused),
    }
}

/// An expression.
#[cycle(walk)]
pub(crate) fn expression(
    survey: &mut Survey,
    primitives: &Primitives,
    datum: &Datum,
) -> Result<(), WalkHalt>
    ensures { Takes result survey.new (expression datum.now survey.old) }
{
    if let Some(symbol) = datum.as_symbol() {
        return survey.identifier(primitives, symbol);
    }
    if let Some(items) = datum.as_list() {
        return form(survey, primitives, items);
    }
    match datum.as_atom() {
        Some(atom) => constant(atom),
        None => Err(WalkHalt::Refused),
    }
}

#[cycle(walk)]
fn form(survey: &mut Survey, primitives: &Primitives, items: &[Datum]) -> Result<(), WalkHalt>
    ensures { Takes result survey.new (expression (chain items.now nil) survey.old) }
{
    let [head, operands @ ..] = items else {
        return Err(WalkHalt::Refused);
    };
    match form_of(head) {
        Form::Quote => {
            if is_quotation(operands) {
                Ok(())
            } else {
                Err(WalkHalt::Refused)
            }
        }
        Form::If => {
            if is_armed(operands) {
                expressions(survey, primitives, operands)
            } else {
                Err(WalkHalt::Refused)
            }
        }
        Form::Assignment => assigned(survey, primitives, operands),
        Form::Sequence => {
            if is_row(operands) {
                expressions(survey, primitives, operands)
            } else {
                Err(WalkHalt::Refused)
            }
        }
        Form::Lambda => procedure(survey, primitives, operands),
        Form::CaseLambda => cases(survey, primitives, operands),
        Form::Letrec => recursive(survey, primitives, operands),
        Form::Application => {
            expression(survey, primitives, head)?;
            expressions(survey, primitives, operands)
        }
    }
}

#[cycle(walk)]
fn expressions(
    survey: &mut Survey,
    primitives: &Primitives,
    items: &[Datum],
) -> Result<(), WalkHalt>
    ensures { Takes result survey.new (expressions (chain items.now nil) survey.old) }
{
    for item in items {
        expression(survey, primitives, item)?;
    }
    Ok(())
}

#[cycle(walk)]
fn one(survey: &mut Survey, primitives: &Primitives, items: &[Datum]) -> Result<(), WalkHalt>
    ensures { Takes result survey.new (one (chain items.now nil) survey.old) }
{
    match items {
        [] => Err(WalkHalt::Refused),
        [datum] => expression(survey, primitives, datum),
        [_, _, ..] => Err(WalkHalt::Refused),
    }
}

#[cycle(walk)]
fn assigned(survey: &mut Survey, primitives: &Primitives, items: &[Datum]) -> Result<(), WalkHalt>
    ensures { Takes result survey.new (assigned (chain items.now nil) survey.old) }
{
    let [first, others @ ..] = items else {
        return Err(WalkHalt::Refused);
    };
    let Some(name) = name_in(first) else {
        return Err(WalkHalt::Refused);
    };
    survey.mention(name)?;
    one(survey, primitives, others)
}

#[cycle(walk)]
fn init(survey: &mut Survey, primitives: &Primitives, items: &[Datum]) -> Result<(), WalkHalt>
    ensures { Takes result survey.new (init (chain items.now nil) survey.old) }
{
    let [first, others @ ..] = items else {
        return Err(WalkHalt::Refused);
    };
    let Some(name) = name_in(first) else {
        return Err(WalkHalt::Refused);
    };
    survey.bind(name)?;
    one(survey, primitives, others)
}

#[cycle(walk)]
fn procedure(survey: &mut Survey, primitives: &Primitives, items: &[Datum]) -> Result<(), WalkHalt>
    ensures { Takes result survey.new (procedure (chain items.now nil) survey.old) }
{
    let [first, others @ ..] = items else {
        return Err(WalkHalt::Refused);
    };
    let size = survey.scope.size();
    formals(survey, first)?;
    one(survey, primitives, others)?;
    survey.scope.keep(size);
    Ok(())
}

#[cycle(walk)]
fn case(survey: &mut Survey, primitives: &Primitives, item: &Datum) -> Result<(), WalkHalt>
    ensures { Takes result survey.new (procedure item.now survey.old) }
{
    match item.as_list() {
        Some(parts) => procedure(survey, primitives, parts),
        None => Err(WalkHalt::Refused),
    }
}

#[cycle(walk)]
fn cases(survey: &mut Survey, primitives: &Primitives, items: &[Datum]) -> Result<(), WalkHalt>
    ensures { Takes result survey.new (cases (chain items.now nil) survey.old) }
{
    for item in items {
        case(survey, primitives, item)?;
    }
    Ok(())
}

#[cycle(walk)]
fn binding(survey: &mut Survey, primitives: &Primitives, item: &Datum) -> Result<(), WalkHalt>
    ensures { Takes result survey.new (init item.now survey.old) }
{
    match item.as_list() {
        Some(parts) => init(survey, primitives, parts),
        None => Err(WalkHalt::Refused),
    }
}

#[cycle(walk)]
fn inits(survey: &mut Survey, primitives: &Primitives, items: &[Datum]) -> Result<(), WalkHalt>
    ensures { Takes result survey.new (inits (chain items.now nil) survey.old) }
{
    for item in items {
        binding(survey, primitives, item)?;
    }
    Ok(())
}

/// The bindings of a `letrec`.
#[cycle(walk)]
fn bindings(survey: &mut Survey, primitives: &Primitives, datum: &Datum) -> Result<(), WalkHalt>
    ensures { Takes result survey.new (inits datum.now survey.old) }
{
    match datum.as_list() {
        Some(items) => inits(survey, primitives, items),
        None => Err(WalkHalt::Refused),
    }
}

#[cycle(walk)]
fn recursive(survey: &mut Survey, primitives: &Primitives, items: &[Datum]) -> Result<(), WalkHalt>
    ensures { Takes result survey.new (recursive (chain items.now nil) survey.old) }
{
    let [first, others @ ..] = items else {
        return Err(WalkHalt::Refused);
    };
    let size = survey.scope.size();
    binding_names(survey, first)?;
    bindings(survey, primitives, first)?;
    one(survey, primitives, others)?;
    survey.scope.keep(size);
    Ok(())
}

fn definition(survey: &mut Survey, primitives: &Primitives, items: &[Datum]) -> Result<(), WalkHalt>
    ensures { Takes result survey.new (definition (chain items.now nil) survey.old) }
{
    let [first, others @ ..] = items else {
        return Err(WalkHalt::Refused);
    };
    let Some(name) = name_in(first) else {
        return Err(WalkHalt::Refused);
    };
    survey.define(name)?;
    one(survey, primitives, others)
}

/// A list that is the form of a line.
fn line_list(survey: &mut Survey, primitives: &Primitives, items: &[Datum]) -> Result<(), WalkHalt>
    ensures { Takes result survey.new (line_form (chain items.now nil) survey.old) }
{
    match items {
        [] => Err(WalkHalt::Refused),
        [head, operands @ ..] => {
            if is_define(head) {
                definition(survey, primitives, operands)
            } else {
                form(survey, primitives, items)
            }
        }
    }
}

/// The form of a line.
pub(crate) fn line_form(
    survey: &mut Survey,
    primitives: &Primitives,
    datum: &Datum,
) -> Result<(), WalkHalt>
    ensures { Takes result survey.new (line_form datum.now survey.old) }
{
    match datum.as_list() {
        Some(items) => line_list(survey, primitives, items),
        None => expression(survey, primitives, datum),
    }
}
