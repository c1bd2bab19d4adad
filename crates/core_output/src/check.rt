//! Whether core code has a text.

ghost use Rattle.base_data.specs.Gives.{Gives, StopsWith};
ghost use Rattle.core_language.specs.Core.{cores};
ghost use Rattle.core_language.specs.CoreView.{inits, cases};
ghost use Rattle.core_output.specs.Syntax.{checked, all_checked, inits_checked, cases_checked, line_checked, lines_checked, unwritten};

use base_data::fault::{Fault, FaultKind, Stop};
use base_data::items::Items;
use base_data::span::Span;
use core_language::code::{Code, Core, CoreNode, Init, Lambda};
use core_language::record::Line;
use std::alloc::Global;

/// The fault of a form without a text.
fn unwritten(alloc: Global, span: &Span) -> Stop
    ensures { StopsWith result (unwritten span.now) }
{
    match span.share() {
        Ok(span) => Stop::Fault(Fault {
            kind: FaultKind::SyntaxInRunCode,
            span,
            words: Items::new(alloc),
        }),
        Err(_) => Stop::Memory,
    }
}

/// Stops at the first form without a text.
#[cycle(check)]
fn check(alloc: Global, core: &Core) -> Result<(), Stop>
    ensures { Gives (λ _. tt) result (checked core.now) }
{
    match &core.node {
        CoreNode::Quote(_) | CoreNode::Ref(_) | CoreNode::Prim(_) => Ok(()),
        CoreNode::If(test, then, None) => {
            check(alloc, test)?;
            check(alloc, then)
        }
        CoreNode::If(test, then, Some(other)) => {
            check(alloc, test)?;
            check(alloc, then)?;
            check(alloc, other)
        }
        CoreNode::Set(_, value) => check(alloc, value),
        CoreNode::Seq(parts) => check_all(alloc, parts),
        CoreNode::Lambda(code) => check_code(alloc, code),
        CoreNode::Letrec(_, inits, body) => {
            check_inits(alloc, inits)?;
            check(alloc, body)
        }
        CoreNode::App(operator, operands) => {
            check(alloc, operator)?;
            check_all(alloc, operands)
        }
        CoreNode::Syntax(_, span) | CoreNode::SyntaxCase(_, _, span) => Err(unwritten(alloc, span)),
    }
}

#[cycle(check)]
fn check_all(alloc: Global, parts: &[Core]) -> Result<(), Stop>
    ensures { Gives (λ _. tt) result (all_checked (cores parts.now)) }
{
    for part in parts {
        check(alloc, part)?;
    }
    Ok(())
}

#[cycle(check)]
fn check_inits(alloc: Global, list: &[Init]) -> Result<(), Stop>
    ensures { Gives (λ _. tt) result (inits_checked (inits list.now)) }
{
    for init in list {
        check(alloc, &init.value)?;
    }
    Ok(())
}

#[cycle(check)]
fn check_code(alloc: Global, code: &Code) -> Result<(), Stop>
    ensures { Gives (λ _. tt) result (cases_checked code.now.cases) }
{
    check_cases(alloc, &code.cases)
}

#[cycle(check)]
fn check_cases(alloc: Global, list: &[Lambda]) -> Result<(), Stop>
    ensures { Gives (λ _. tt) result (cases_checked (cases list.now)) }
{
    for case in list {
        check(alloc, &case.body)?;
    }
    Ok(())
}

fn check_line(alloc: Global, line: &Line) -> Result<(), Stop>
    ensures { Gives (λ _. tt) result (line_checked line.now) }
{
    match line {
        Line::Define(_, core) => check(alloc, core),
        Line::Expr(core) => check(alloc, core),
    }
}

/// Stops at the first form without a text in these lines.
pub(crate) fn check_lines(alloc: Global, lines: &[Line]) -> Result<(), Stop>
    ensures { Gives (λ _. tt) result (lines_checked lines.now) }
{
    for line in lines {
        check_line(alloc, line)?;
    }
    Ok(())
}
