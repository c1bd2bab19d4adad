//! Core forms, each of its parts.

ghost use Rattle.std.specs.Prelude.{◌≡◌, ◌∷◌, [], None, Some, IfOk, false, true};
ghost use Rattle.core_language.specs.Core.{assignment, call, cores, letrec, matching, one_armed, procedure, two_armed};
ghost use Rattle.core_language.specs.CoreView.{cases, clauses, inits};

use base_data::memory::Memory;
use base_data::name::{CodeNo, Label};
use base_data::span::Span;
use core_language::code::{Clause, Code, Core, CoreNode, Init, Lambda};
use std::alloc::Global;
use std::rc::Rc;

/// The one case of a procedure.
fn one_case(alloc: Global, case: Lambda) -> Result<Vec<Lambda>, Memory>
    ensures { IfOk result (λ cs. cs.items ≡ case ∷ []) }
{
    match Vec::with_capacity(alloc, 1) {
        Ok(mut cases) => {
            cases.push(case)?;
            Ok(cases)
        }
        Err(_) => {
            drop(case);
            Err(Memory)
        }
    }
}

/// A procedure of one case.
pub(crate) fn procedure_of_case(alloc: Global, number: CodeNo, case: Lambda) -> Result<Core, Memory>
    ensures { IfOk result (λ c. c ≡ procedure number (cases (case ∷ [])) true) }
{
    let cases = one_case(alloc, case)?;
    let code = Rc::new(
        alloc,
        Code {
            number,
            cases,
            plain: true,
        },
    )?;
    Ok(Core {
        node: CoreNode::Lambda(code),
    })
}

/// A procedure of some cases.
pub(crate) fn procedure_of_cases(
    alloc: Global,
    number: CodeNo,
    list: Vec<Lambda>,
) -> Result<Core, Memory>
    ensures { IfOk result (λ c. c ≡ procedure number (cases list.items) false) }
{
    let code = Rc::new(
        alloc,
        Code {
            number,
            cases: list,
            plain: false,
        },
    )?;
    Ok(Core {
        node: CoreNode::Lambda(code),
    })
}

/// An application.
pub(crate) fn call_of(operator: Box<Core>, operands: Vec<Core>) -> Core
    ensures { result ≡ call operator.value (cores operands.items) }
{
    Core {
        node: CoreNode::App(operator, operands),
    }
}

/// A form of `if` with no alternate.
pub(crate) fn one_armed_of(test: Box<Core>, consequent: Box<Core>) -> Core
    ensures { result ≡ one_armed test.value consequent.value }
{
    Core {
        node: CoreNode::If(test, consequent, None),
    }
}

/// A form of `if` with an alternate.
pub(crate) fn two_armed_of(test: Box<Core>, consequent: Box<Core>, other: Box<Core>) -> Core
    ensures { result ≡ two_armed test.value consequent.value other.value }
{
    Core {
        node: CoreNode::If(test, consequent, Some(other)),
    }
}

/// An assignment.
pub(crate) fn assignment_of(label: &Label, value: Box<Core>) -> Result<Core, Memory>
    ensures { IfOk result (λ c. c ≡ assignment label.now value.value) }
{
    let label = label.share()?;
    Ok(Core {
        node: CoreNode::Set(label, value),
    })
}

/// A form of `letrec`, or of `letrec*` where `star` is true.
pub(crate) fn letrec_of(
    alloc: Global,
    star: bool,
    values: Vec<Init>,
    body: Core,
) -> Result<Core, Memory>
    ensures { IfOk result (λ c. c ≡ letrec star (inits values.items) body) }
{
    let body = Box::new(alloc, body)?;
    Ok(Core {
        node: CoreNode::Letrec(star, values, body),
    })
}

/// A form of `syntax-case`.
pub(crate) fn matching_of(
    subject: Box<Core>,
    list: Vec<Clause>,
    span: &Span,
) -> Result<Core, Memory>
    ensures { IfOk result (λ c. c ≡ matching subject.value (clauses list.items) span.now) }
{
    let span = span.share()?;
    Ok(Core {
        node: CoreNode::SyntaxCase(subject, list, span),
    })
}
