//! The text of core expressions and of lines.

ghost use Rattle.std.specs.Prelude.{◌≡◌, ◌++◌, OnOk, codes};
ghost use Rattle.std.specs.String.{string_bytes};
ghost use Rattle.core_language.specs.Core.{cores};
ghost use Rattle.core_language.specs.CoreView.{inits, cases};
ghost use Rattle.read_printer.specs.DatumText.{datum_text};
ghost use Rattle.core_output.specs.CoreText.{report_name, quote_text, quoted_text, quoted_atom, formals_text, formals_of, lone_rest, rest_name, further_names, name_of, letrec_word, lambda_word, case_open, case_close, text, further_text, inits_text, further_inits, cases_text, line_text, lines_text};

use crate::names::VariableNames;
use base_data::atom::Atom;
use base_data::datum::{Datum, Node};
use base_data::name::Label;
use base_data::op::{NAME_COUNT, Op, op_text};
use core_language::code::{Code, Core, CoreNode, Init, Lambda};
use core_language::formals::Formals;
use core_language::record::Line;
use read_printer::datum_text::{put_atom, put_datum};
use std::alloc::AllocError;

fn put_name(out: &mut String, names: &VariableNames, label: &Label) -> Result<(), AllocError>
    ensures { OnOk result (string_bytes out.new ≡ string_bytes out.old ++ name_of names.now label.now) }
{
    out.push_str(names.name(label))
}

/// Adds the report name of a primitive. Past the table of names there is none.
fn put_op(out: &mut String, op: &Op) -> Result<(), AllocError>
    ensures { OnOk result (string_bytes out.new ≡ string_bytes out.old ++ report_name op.now.0) }
{
    if op.0 < NAME_COUNT {
        out.push_str(op_text(op))
    } else {
        Ok(())
    }
}

fn put_quote(out: &mut String, datum: &Datum) -> Result<(), AllocError>
    ensures { OnOk result (string_bytes out.new ≡ string_bytes out.old ++ quote_text (datum_text datum.now)) }
{
    out.push_str("(quote ")?;
    put_datum(out, datum)?;
    out.push_str(")")
}

fn put_quoted_atom(out: &mut String, atom: &Atom) -> Result<(), AllocError>
    ensures { OnOk result (string_bytes out.new ≡ string_bytes out.old ++ quoted_atom atom.now) }
{
    match atom {
        Atom::Nil => out.push_str("(quote ())"),
        _ => put_atom(out, atom),
    }
}

/// Adds a quoted datum. Atoms but the empty list stand alone.
fn put_quoted(out: &mut String, datum: &Datum) -> Result<(), AllocError>
    ensures { OnOk result (string_bytes out.new ≡ string_bytes out.old ++ quoted_text datum.now) }
{
    match &datum.node {
        Node::Atom(atom) => put_quoted_atom(out, atom),
        Node::Symbol(_) => put_quote(out, datum),
        Node::List(_, _) => put_quote(out, datum),
        Node::Vector(_) => put_quote(out, datum),
    }
}

fn put_further_names(
    out: &mut String,
    names: &VariableNames,
    labels: &[Label],
) -> Result<(), AllocError>
    ensures { OnOk result (string_bytes out.new ≡ string_bytes out.old ++ further_names names.now labels.now) }
{
    for label in labels {
        out.push_str(" ")?;
        put_name(out, names, label)?;
    }
    Ok(())
}

fn put_rest(out: &mut String, names: &VariableNames, rest: &Option<Label>) -> Result<(), AllocError>
    ensures { OnOk result (string_bytes out.new ≡ string_bytes out.old ++ rest_name names.now rest.now) }
{
    match rest {
        None => Ok(()),
        Some(label) => {
            out.push_str(" . ")?;
            put_name(out, names, label)
        }
    }
}

fn put_lone_rest(
    out: &mut String,
    names: &VariableNames,
    rest: &Option<Label>,
) -> Result<(), AllocError>
    ensures { OnOk result (string_bytes out.new ≡ string_bytes out.old ++ lone_rest names.now rest.now) }
{
    match rest {
        None => out.push_str("()"),
        Some(label) => put_name(out, names, label),
    }
}

fn put_parameters(
    out: &mut String,
    names: &VariableNames,
    required: &[Label],
    rest: &Option<Label>,
) -> Result<(), AllocError>
    ensures { OnOk result (string_bytes out.new ≡ string_bytes out.old ++ formals_of names.now required.now rest.now) }
{
    match required {
        [] => put_lone_rest(out, names, rest),
        [first, others @ ..] => {
            out.push_str("(")?;
            put_name(out, names, first)?;
            put_further_names(out, names, others)?;
            put_rest(out, names, rest)?;
            out.push_str(")")
        }
    }
}

fn put_formals(out: &mut String, names: &VariableNames, formals: &Formals) -> Result<(), AllocError>
    ensures { OnOk result (string_bytes out.new ≡ string_bytes out.old ++ formals_text names.now formals.now) }
{
    put_parameters(out, names, formals.required.as_slice(), &formals.rest)
}

fn letrec_word(in_order: bool) -> &'static str
    ensures { result.now ≡ letrec_word in_order }
{
    if in_order { "(letrec* (" } else { "(letrec (" }
}

fn lambda_word(plain: bool) -> &'static str
    ensures { result.now ≡ lambda_word plain }
{
    if plain { "(lambda" } else { "(case-lambda" }
}

fn case_open(plain: bool) -> &'static str
    ensures { result.now ≡ case_open plain }
{
    if plain { " " } else { " (" }
}

fn case_close(plain: bool) -> &'static str
    ensures { result.now ≡ case_close plain }
{
    if plain { "" } else { ")" }
}

/// Adds the text of a core expression. It recurses as deep as expressions stand in one another.
#[cycle(put)]
fn put(out: &mut String, names: &VariableNames, core: &Core) -> Result<(), AllocError>
    ensures { OnOk result (string_bytes out.new ≡ string_bytes out.old ++ text names.now core.now) }
{
    match &core.node {
        CoreNode::Quote(datum) => put_quoted(out, datum),
        CoreNode::Ref(label) => put_name(out, names, label),
        CoreNode::Prim(op) => put_op(out, op),
        CoreNode::If(test, then, None) => {
            out.push_str("(if ")?;
            put(out, names, test)?;
            out.push_str(" ")?;
            put(out, names, then)?;
            out.push_str(")")
        }
        CoreNode::If(test, then, Some(other)) => {
            out.push_str("(if ")?;
            put(out, names, test)?;
            out.push_str(" ")?;
            put(out, names, then)?;
            out.push_str(" ")?;
            put(out, names, other)?;
            out.push_str(")")
        }
        CoreNode::Set(label, value) => {
            out.push_str("(set! ")?;
            put_name(out, names, label)?;
            out.push_str(" ")?;
            put(out, names, value)?;
            out.push_str(")")
        }
        CoreNode::Seq(parts) => {
            out.push_str("(begin")?;
            put_further(out, names, parts)?;
            out.push_str(")")
        }
        CoreNode::Lambda(code) => put_code(out, names, code),
        CoreNode::Letrec(in_order, list, body) => {
            out.push_str(letrec_word(*in_order))?;
            put_inits(out, names, list)?;
            out.push_str(") ")?;
            put(out, names, body)?;
            out.push_str(")")
        }
        CoreNode::App(operator, operands) => {
            out.push_str("(")?;
            put(out, names, operator)?;
            put_further(out, names, operands)?;
            out.push_str(")")
        }
        CoreNode::Syntax(_, _) | CoreNode::SyntaxCase(_, _, _) => Ok(()),
    }
}

#[cycle(put)]
fn put_further(out: &mut String, names: &VariableNames, parts: &[Core]) -> Result<(), AllocError>
    ensures { OnOk result (string_bytes out.new ≡ string_bytes out.old ++ further_text names.now (cores parts.now)) }
{
    for part in parts {
        out.push_str(" ")?;
        put(out, names, part)?;
    }
    Ok(())
}

#[cycle(put)]
fn put_code(out: &mut String, names: &VariableNames, code: &Code) -> Result<(), AllocError>
    ensures { OnOk result (string_bytes out.new ≡ string_bytes out.old
        ++ (lambda_word code.now.plain ++ cases_text names.now code.now.plain code.now.cases ++ codes ")")) }
{
    out.push_str(lambda_word(code.plain))?;
    put_cases(out, names, code.plain, &code.cases)?;
    out.push_str(")")
}

#[cycle(put)]
fn put_cases(
    out: &mut String,
    names: &VariableNames,
    plain: bool,
    list: &[Lambda],
) -> Result<(), AllocError>
    ensures { OnOk result (string_bytes out.new ≡ string_bytes out.old ++ cases_text names.now plain (cases list.now)) }
{
    for case in list {
        out.push_str(case_open(plain))?;
        put_formals(out, names, &case.formals)?;
        out.push_str(" ")?;
        put(out, names, &case.body)?;
        out.push_str(case_close(plain))?;
    }
    Ok(())
}

#[cycle(put)]
fn put_inits(out: &mut String, names: &VariableNames, list: &[Init]) -> Result<(), AllocError>
    ensures { OnOk result (string_bytes out.new ≡ string_bytes out.old ++ inits_text names.now (inits list.now)) }
{
    match list {
        [] => Ok(()),
        [first, others @ ..] => {
            out.push_str("(")?;
            put_name(out, names, &first.label)?;
            out.push_str(" ")?;
            put(out, names, &first.value)?;
            out.push_str(")")?;
            put_further_inits(out, names, others)
        }
    }
}

#[cycle(put)]
fn put_further_inits(
    out: &mut String,
    names: &VariableNames,
    list: &[Init],
) -> Result<(), AllocError>
    ensures { OnOk result (string_bytes out.new ≡ string_bytes out.old ++ further_inits names.now (inits list.now)) }
{
    for init in list {
        out.push_str(" (")?;
        put_name(out, names, &init.label)?;
        out.push_str(" ")?;
        put(out, names, &init.value)?;
        out.push_str(")")?;
    }
    Ok(())
}

fn put_line(out: &mut String, names: &VariableNames, line: &Line) -> Result<(), AllocError>
    ensures { OnOk result (string_bytes out.new ≡ string_bytes out.old ++ line_text names.now line.now) }
{
    match line {
        Line::Define(label, core) => {
            out.push_str("(define ")?;
            put_name(out, names, label)?;
            out.push_str(" ")?;
            put(out, names, core)?;
            out.push_str(")\n")
        }
        Line::Expr(core) => {
            put(out, names, core)?;
            out.push_str("\n")
        }
    }
}

/// Adds the text of lines.
pub(crate) fn put_lines(
    out: &mut String,
    names: &VariableNames,
    lines: &[Line],
) -> Result<(), AllocError>
    ensures { OnOk result (string_bytes out.new ≡ string_bytes out.old ++ lines_text names.now lines.now) }
{
    for line in lines {
        put_line(out, names, line)?;
    }
    Ok(())
}
