//! Puts core expressions that were read in their places.
//!
//! These calls are never inlined: so neither the expression nor what drops the one before it takes room in the frames of
//! the calls that read core code within core code.

ghost use Rattle.std.specs.Prelude.{◌≡◌, Some};
ghost use Rattle.core_language.specs.Core.{cores};
ghost use Rattle.core_language.specs.CoreView as view;
ghost use Rattle.core_code_bytes.specs.Seen.{assignment_case, call_case, held_there, if_case, lambda_case, letrec_case, matching_case, node_cases, sequence_case, unboxed};

use base_data::name::Label;
use base_data::span::Span;
use core_language::code::{Clause, Code, Core, CoreNode, Init};
use core_pattern_bytes::held::HeldReading;
use std::boxed::Box;
use std::rc::Rc;

/// A core expression that is being read.
pub(crate) type Boxed = HeldReading<Box<Core>>;

fn taken(core: Option<Boxed>) -> Option<Box<Core>>
    ensures { unboxed result ≡ held_there core }
{
    match core {
        Some(core) => Some(core.take()),
        None => None,
    }
}

#[inline(never)]
pub(crate) fn put_if(node: &mut CoreNode, test: Boxed, consequent: Boxed, other: Option<Boxed>)
    ensures { node_cases node.new ≡ if_case test.value.value consequent.value.value (held_there other) }
{
    *node = CoreNode::If(test.take(), consequent.take(), taken(other));
}

#[inline(never)]
pub(crate) fn put_assignment(node: &mut CoreNode, label: Label, value: Boxed)
    ensures { node_cases node.new ≡ assignment_case label value.value.value }
{
    *node = CoreNode::Set(label, value.take());
}

#[inline(never)]
pub(crate) fn put_sequence(node: &mut CoreNode, parts: HeldReading<Vec<Core>>)
    ensures { node_cases node.new ≡ sequence_case (cores parts.value.items) }
{
    *node = CoreNode::Seq(parts.take());
}

#[inline(never)]
pub(crate) fn put_lambda(node: &mut CoreNode, code: HeldReading<Rc<Code>>)
    ensures { node_cases node.new ≡ lambda_case code.value.value.number code.value.value.cases code.value.value.plain }
{
    *node = CoreNode::Lambda(code.take());
}

#[inline(never)]
pub(crate) fn put_letrec(
    node: &mut CoreNode,
    star: bool,
    inits: HeldReading<Vec<Init>>,
    body: Boxed,
)
    ensures { node_cases node.new ≡ letrec_case star (view.inits inits.value.items) body.value.value }
{
    *node = CoreNode::Letrec(star, inits.take(), body.take());
}

#[inline(never)]
pub(crate) fn put_call(node: &mut CoreNode, operator: Boxed, operands: HeldReading<Vec<Core>>)
    ensures { node_cases node.new ≡ call_case operator.value.value (cores operands.value.items) }
{
    *node = CoreNode::App(operator.take(), operands.take());
}

#[inline(never)]
pub(crate) fn put_matching(
    node: &mut CoreNode,
    subject: Boxed,
    clauses: HeldReading<Vec<Clause>>,
    span: Span,
)
    ensures { node_cases node.new ≡ matching_case subject.value.value (view.clauses clauses.value.items) span }
{
    *node = CoreNode::SyntaxCase(subject.take(), clauses.take(), span);
}
