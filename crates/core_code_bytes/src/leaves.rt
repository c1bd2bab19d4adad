//! Reads what has no core code in it: expressions without parts, and the parts of others that are no expressions.
//!
//! All this is read by calls that are never inlined: so the values that they hand on take no room in the frames of the
//! calls that read core code within core code.

ghost use Rattle.std.specs.Prelude.{◌≡◌, IfOk, option_map};
ghost use Rattle.base_bytes.specs.Codec as spec;
ghost use Rattle.base_bytes.specs.Codec.{◌then◌};
ghost use Rattle.base_bytes.specs.Names.{code_number, label, op, span};
ghost use Rattle.core_codec.specs.Code as code;
ghost use Rattle.core_codec.specs.Trees.{datum};
ghost use Rattle.core_code_bytes.specs.Seen.{if_read, instance_case, node_cases, primitive_case, quote_case, reference_case};

use crate::formals::formals_at;
use base_bytes::libraries::RecentLibraries;
use base_bytes::names::op_at;
use base_bytes::numbers::{bool_at, u64_at};
use base_bytes::spelled::Spelled;
use base_data::memory::Memory;
use base_data::name::{CodeNo, Label};
use base_data::span::Span;
use core_language::code::CoreNode;
use core_language::formals::Formals;
use core_language::pattern::Pattern;
use core_language::template::Template;
use core_pattern_bytes::held::HeldReading;
use core_pattern_bytes::patterns::boxed_at as pattern_at;
use core_pattern_bytes::templates::template_at;
use core_tree_bytes::data::datum_at;
use std::boxed::Box;

/// How high data may be, and patterns and templates.
const MAX_DATUM: u32 = 1000;

const MAX_PATTERN: u32 = 2000;

/// Reads the datum of a quotation.
#[inline(never)]
pub(crate) fn read_quote<'a>(
    libraries: &mut RecentLibraries,
    left: &mut &'a [u8],
    node: &mut CoreNode,
) -> Result<bool, Memory>
    ensures { IfOk result (λ b. if_read b (node_cases node.new) left.new.now ≡ option_map quote_case ((datum 1000).get left.old.now)) }
{
    match datum_at(libraries, MAX_DATUM, *left)? {
        Some((datum, rest)) => {
            *left = rest;
            *node = CoreNode::Quote(datum);
            Ok(true)
        }
        None => Ok(false),
    }
}

/// Reads the label of a reference.
#[inline(never)]
pub(crate) fn read_reference<'a>(
    libraries: &mut RecentLibraries,
    left: &mut &'a [u8],
    node: &mut CoreNode,
) -> Result<bool, Memory>
    ensures { IfOk result (λ b. if_read b (node_cases node.new) left.new.now ≡ option_map reference_case (label.get left.old.now)) }
{
    match Label::at(libraries, *left)? {
        Some((label, rest)) => {
            *left = rest;
            *node = CoreNode::Ref(label);
            Ok(true)
        }
        None => Ok(false),
    }
}

/// Reads the number of a primitive.
#[inline(never)]
pub(crate) fn read_primitive<'a>(left: &mut &'a [u8], node: &mut CoreNode) -> bool
    ensures { if_read result (node_cases node.new) left.new.now ≡ option_map primitive_case (op.get left.old.now) }
{
    match op_at(*left) {
        Some((op, rest)) => {
            *left = rest;
            *node = CoreNode::Prim(op);
            true
        }
        None => false,
    }
}

/// The template of a `syntax`, and the span of its form.
#[derive(Drop)]
struct InstanceParts {
    template: Template,
    span: Span,
}

fn instance_at<'a>(
    libraries: &mut RecentLibraries,
    bytes: &'a [u8],
) -> Result<Option<(InstanceParts, &'a [u8])>, Memory>
    ensures { IfOk result (λ o. option_map (λ x. ((x.0.template, x.0.span), x.1.now)) o ≡ (code.template 2000 then span).get bytes.now) }
{
    let Some((template, rest)) = template_at(libraries, MAX_PATTERN, bytes)? else {
        return Ok(None);
    };
    match Span::at(libraries, rest)? {
        Some((span, rest)) => Ok(Some((InstanceParts { template, span }, rest))),
        None => Ok(None),
    }
}

/// Reads the template of a `syntax`, and the span of its form.
#[inline(never)]
pub(crate) fn read_instance<'a>(
    libraries: &mut RecentLibraries,
    left: &mut &'a [u8],
    node: &mut CoreNode,
) -> Result<bool, Memory>
    ensures { IfOk result (λ b. if_read b (node_cases node.new) left.new.now ≡ option_map instance_case ((code.template 2000 then span).get left.old.now)) }
{
    match instance_at(libraries, *left)? {
        Some((parts, rest)) => {
            *left = rest;
            *node = CoreNode::Syntax(parts.template, parts.span);
            Ok(true)
        }
        None => Ok(false),
    }
}

/// The label that the bytes begin with.
#[inline(never)]
pub(crate) fn label_in<'a>(
    libraries: &mut RecentLibraries,
    left: &mut &'a [u8],
) -> Result<Option<Label>, Memory>
    ensures { IfOk result (λ o. option_map (λ x. (x, left.new.now)) o ≡ label.get left.old.now) }
{
    match Label::at(libraries, *left)? {
        Some((label, rest)) => {
            *left = rest;
            Ok(Some(label))
        }
        None => Ok(None),
    }
}

/// The number of a procedure that the bytes begin with.
#[inline(never)]
pub(crate) fn number_in<'a>(
    libraries: &mut RecentLibraries,
    left: &mut &'a [u8],
) -> Result<Option<CodeNo>, Memory>
    ensures { IfOk result (λ o. option_map (λ x. (x, left.new.now)) o ≡ code_number.get left.old.now) }
{
    match CodeNo::at(libraries, *left)? {
        Some((number, rest)) => {
            *left = rest;
            Ok(Some(number))
        }
        None => Ok(None),
    }
}

#[inline(never)]
pub(crate) fn span_in<'a>(
    libraries: &mut RecentLibraries,
    left: &mut &'a [u8],
) -> Result<Option<Span>, Memory>
    ensures { IfOk result (λ o. option_map (λ x. (x, left.new.now)) o ≡ span.get left.old.now) }
{
    match Span::at(libraries, *left)? {
        Some((span, rest)) => {
            *left = rest;
            Ok(Some(span))
        }
        None => Ok(None),
    }
}

#[inline(never)]
pub(crate) fn formals_in<'a>(
    libraries: &mut RecentLibraries,
    left: &mut &'a [u8],
) -> Result<Option<HeldReading<Box<Formals>>>, Memory>
    ensures { IfOk result (λ o. option_map (λ x. (x.value.value, left.new.now)) o ≡ code.formals.get left.old.now) }
{
    match formals_at(libraries, *left)? {
        Some((formals, rest)) => {
            *left = rest;
            let formals = Box::new(libraries.alloc(), formals)?;
            Ok(Some(HeldReading::new(formals)))
        }
        None => Ok(None),
    }
}

#[inline(never)]
pub(crate) fn pattern_in<'a>(
    libraries: &mut RecentLibraries,
    left: &mut &'a [u8],
) -> Result<Option<HeldReading<Box<Pattern>>>, Memory>
    ensures { IfOk result (λ o. option_map (λ x. (x.value.value, left.new.now)) o ≡ (code.pattern 2000).get left.old.now) }
{
    match pattern_at(libraries, MAX_PATTERN, *left)? {
        Some((pattern, rest)) => {
            *left = rest;
            Ok(Some(pattern))
        }
        None => Ok(None),
    }
}

pub(crate) fn bool_in<'a>(left: &mut &'a [u8]) -> Option<bool>
    ensures { option_map (λ x. (x, left.new.now)) result ≡ spec.bool.get left.old.now }
{
    match bool_at(*left) {
        Some((flag, rest)) => {
            *left = rest;
            Some(flag)
        }
        None => None,
    }
}

/// How many values follow.
pub(crate) fn count_in<'a>(left: &mut &'a [u8]) -> Option<u64>
    ensures { option_map (λ x. (x, left.new.now)) result ≡ spec.u64.get left.old.now }
{
    match u64_at(*left) {
        Some((count, rest)) => {
            *left = rest;
            Some(count)
        }
        None => None,
    }
}
