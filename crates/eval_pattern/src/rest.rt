//! Lists whose last elements a variable under an ellipsis takes as one tree.
//!
//! The pattern `(_ (e1 e2 ...) c1 c2 ...)` of `cond` takes one clause of many, and the others go on as they are into the next
//! use. So they are not taken apart: `c2 ...` takes the rest of the list.

ghost use Rattle.std.specs.Prelude.{◌≡◌, [], Some, IfOk, IfSome, IsTrue, true};
ghost use Rattle.base_data.specs.declared.atom.Atom.TheVariants.{Nil};
ghost use Rattle.core_language.specs.Pattern as plain;
ghost use Rattle.core_language.specs.PatternView.{elements_of, repeated_on};
ghost use Rattle.eval_pattern.specs.Matched.{matched, nothing};
ghost use Rattle.eval_pattern.specs.Rests.{ending, rest_pattern, IsRestPattern, IsTree, Takes, Tells};

use crate::columns::PatternBinds;
use crate::front::front_of;
use crate::matching::{MatchContext, in_order};
use base_data::atom::Atom;
use base_data::items::Items;
use base_data::memory::Memory;
use base_data::name::Label;
use base_region::region::Region;
use core_language::pattern::{Elements, Pattern, PatternNode, Repeated};
use eval_value::cell::Cell;
use eval_value::value::Value;
use std::alloc::Global;
use stx_object::syn::Syn;
use stx_scope::scope::Frames;

/// What a list pattern takes that ends in a variable under an ellipsis.
#[derive(Drop)]
pub struct RestBinds<'a> {
    /// The binds of the patterns before the variable.
    pub found: PatternBinds,
    /// The variable.
    pub label: &'a Label,
    /// The list that it takes, and the number of its elements.
    pub rest: Syn,
    pub count: u64,
}

/// What is told of a pattern and a tree.
#[derive(Drop)]
pub enum RestMatch<'a> {
    /// Nothing: the pattern doesn't end so, or the tree is no list that ends in Nil.
    Untold,
    /// The pattern doesn't take the tree.
    Refused,
    Taken(RestBinds<'a>),
}

/// A list pattern that ends in a variable under an ellipsis.
#[derive(Drop)]
struct RestPattern<'a> {
    before: &'a [Pattern],
    label: &'a Label,
}

fn variable(pattern: &Pattern) -> Option<&Label>
    ensures { IfSome result (λ l. pattern.now ≡ plain.variable l.now) }
{
    match &pattern.node {
        PatternNode::Variable(label) => Some(label),
        _ => None,
    }
}

fn variable_of(repeated: &Repeated) -> Option<&Label>
    ensures { IfSome result (λ l. repeated_on (Some repeated.now) ≡ ending l.now) }
{
    if !repeated.after.is_empty() {
        return None;
    }
    variable(&repeated.pattern)
}

fn is_nil(value: &Atom) -> bool
    ensures { IsTrue result → value.now ≡ Nil }
{
    match value {
        Atom::Nil => true,
        _ => false,
    }
}

fn is_end(tail: &Pattern) -> bool
    ensures { IsTrue result → tail.now ≡ plain.atom Nil }
{
    match &tail.node {
        PatternNode::Atom(atom) => is_nil(atom),
        _ => false,
    }
}

fn rest_of<'a>(elements: &'a Elements, tail: &Pattern) -> Option<RestPattern<'a>>
    ensures { IfSome result (λ r. IsRestPattern r (plain.list (elements_of elements.now) tail.now)) }
{
    if !is_end(tail) {
        return None;
    }
    let Some(repeated) = &elements.repeated else {
        return None;
    };
    let Some(label) = variable_of(repeated) else {
        return None;
    };
    Some(RestPattern {
        before: elements.before.as_slice(),
        label,
    })
}

fn rest_pattern(pattern: &Pattern) -> Option<RestPattern>
    ensures { IfSome result (λ r. IsRestPattern r pattern.now) }
{
    match &pattern.node {
        PatternNode::List(elements, tail) => rest_of(elements, tail),
        _ => None,
    }
}

// The variable takes what is behind the elements before it.
fn taken<'a>(found: PatternBinds, label: &'a Label, rest: Value) -> RestMatch<'a>
    ensures { Takes result found label.now rest }
{
    match rest {
        Value::Syn(rest) => match rest.length() {
            None => RestMatch::Untold,
            Some(count) => RestMatch::Taken(RestBinds {
                found,
                label,
                rest,
                count,
            }),
        },
        _ => RestMatch::Untold,
    }
}

#[tactic(auto, using(crate::proofs::RestLemmas::rest_short, crate::proofs::RestLemmas::rest_refused, crate::proofs::RestLemmas::rest_told))]
fn rest_matched<'a>(
    context: &MatchContext,
    pattern: &RestPattern<'a>,
    value: &Value,
) -> Result<RestMatch<'a>, Memory>
    requires cells { context.now.cells.now.list ≡ [] }
    requires tree { IsTree value.now }
    ensures { IfOk result (λ m. Tells m (matched context.now.frames.now [] (rest_pattern pattern.now.before.now pattern.now.label.now)
        value.now (nothing 0))) }
{
    let front = front_of(
        context.alloc,
        value,
        Some(pattern.before.len()),
        context.cells,
    )?;
    let mut found = PatternBinds {
        binds: Items::new(context.alloc),
        taken: 0,
    };
    if front.elements.as_slice().len() < pattern.before.len() {
        return Ok(RestMatch::Refused);
    }
    if !in_order(
        context,
        pattern.before,
        front.elements.as_slice(),
        &mut found,
    )? {
        return Ok(RestMatch::Refused);
    }
    Ok(taken(found, pattern.label, front.rest))
}

/// What a list pattern that ends in a variable under an ellipsis takes of a value without cells. The elements of the variable are
/// counted and stay one list.
pub fn matches_rest<'a>(
    alloc: Global,
    pattern: &'a Pattern,
    value: &Value,
    cells: &Region<Cell>,
    frames: &Frames,
) -> Result<RestMatch<'a>, Memory>
    requires cells { cells.now.list ≡ [] }
    requires tree { IsTree value.now }
    ensures { IfOk result (λ m. Tells m (matched frames.now [] pattern.now value.now (nothing 0))) }
{
    let Some(pattern) = rest_pattern(pattern) else {
        return Ok(RestMatch::Untold);
    };
    let context = MatchContext {
        alloc,
        cells,
        frames,
    };
    rest_matched(&context, &pattern, value)
}
