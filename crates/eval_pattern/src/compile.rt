//! Patterns of forms.

ghost use Rattle.std.specs.Prelude.{◌≡◌, ◌++◌, ◌∷◌, [], true, false, map, option_map, IfOk, OnOk};
ghost use Rattle.base_data.specs.Act.{GivesAfter};
ghost use Rattle.base_data.specs.Gives.{Gives, StopsWith};
ghost use Rattle.stx_tree.specs.Tree.{is_pair};
ghost use Rattle.core_language.specs.Pattern.{list, vector};
ghost use Rattle.core_language.specs.PatternView.{repeated_on, elements_of};
ghost use Rattle.eval_pattern.specs.Compile.{seen, bad, is_no_keyword, may_be_literal, literals_checked, is_literal, is_known, new_variable, leaf_pattern, with_part, dots_of, parts_of, with_repeated, inner_depth, behind_ellipsis, added, pattern, with_pattern, walked, forms_walked, list_pattern, vector_pattern, compiled};

use crate::keywords::{first_ellipsis, is_form};
use base_data::fault::{FaultKind, Stop};
use base_data::items::Items;
use base_data::memory::Memory;
use base_data::name::{FreeNames, Label};
use base_data::span::Span;
use core_language::core_form::CoreForm;
use core_language::pattern::{Elements, Pattern, PatternNode, Repeated};
use core_shapes::at::fault_at;
use core_shapes::lists::{is_id, parts_of};
use std::alloc::Global;
use stx_object::syn::{OpenedTree, Syn};
use stx_scope::same::same_binder;
use stx_scope::scope::Frames;

/// What forms are read with as patterns.
#[derive(Drop)]
pub struct PatternContext<'a> {
    pub alloc: Global,
    /// They say what identifiers stand for.
    pub frames: &'a Frames,
    pub literals: &'a [Syn],
    /// Where a form without a span stands.
    pub place: &'a Span,
}

/// A variable of a pattern: its identifier, its label, and the number of ellipses round it.
#[derive(Drop)]
pub struct PatternVariable {
    pub id: Syn,
    pub label: Label,
    pub depth: u32,
}

/// A pattern and its variables, from left to right.
#[derive(Drop)]
pub struct Compiled {
    pub pattern: Pattern,
    pub variables: Items<PatternVariable>,
}

/// Forms that are elements of a list or vector, round which so many ellipses stand.
#[derive(Drop)]
struct ElementForms<'a> {
    forms: &'a [Syn],
    depth: u32,
}

/// The patterns of elements so far: those before the ellipsis, the one that it stands behind, and those
/// after it.
#[derive(Drop)]
pub(crate) struct PatternParts {
    pub(crate) before: Items<Pattern>,
    pub(crate) repeated: Option<Pattern>,
    pub(crate) after: Items<Pattern>,
}

/// The pattern of a form, whose variables get the next names as labels, from left to right.
///
/// An identifier with the binder of a literal is that literal. It is `BadPattern`, at what comes first,
/// where a literal is no identifier, or is an ellipsis or an underscore; where a variable comes again;
/// and where an ellipsis is the whole form, or stands first, as tail, or twice in one list or vector.
pub fn compile_pattern(
    context: &PatternContext,
    form: &Syn,
    names: &mut FreeNames,
) -> Result<Compiled, Stop>
    ensures { GivesAfter (λ c. c) result names.new (compiled (seen context.now) form.now names.old) }
{
    check_literals(context)?;
    let mut variables = Items::new(context.alloc);
    let pattern = pattern(context, form, 0, &mut variables, names)?;
    Ok(Compiled { pattern, variables })
}

/// Finds the first of the literals that may be none.
pub fn check_literals(context: &PatternContext) -> Result<(), Stop>
    ensures { Gives (λ _. tt) result (literals_checked context.now.frames.now context.now.place.now context.now.literals.now) }
{
    for literal in context.literals {
        if !may_be_literal(context.alloc, literal, context.frames)? {
            return Err(bad_pattern(context, literal));
        }
    }
    Ok(())
}

/// `BadPattern` at a form.
fn bad_pattern(context: &PatternContext, form: &Syn) -> Stop
    ensures { StopsWith result (bad context.now.place.now form.now) }
{
    fault_at(
        context.alloc,
        FaultKind::BadPattern,
        form,
        context.place,
        None,
    )
}

fn may_be_literal(alloc: Global, form: &Syn, frames: &Frames) -> Result<bool, Memory>
    ensures { IfOk result (λ b. b ≡ may_be_literal frames.now form.now) }
{
    if !is_id(alloc, form)? {
        return Ok(false);
    }
    let label = frames.stands(form)?;
    Ok(is_no_keyword(&label))
}

fn is_no_keyword(label: &Option<Label>) -> bool
    ensures { result ≡ is_no_keyword label.now }
{
    if is_form(CoreForm::Ellipsis, label) {
        return false;
    }
    !is_form(CoreForm::Underscore, label)
}

fn is_literal(alloc: Global, literals: &[Syn], form: &Syn) -> Result<bool, Memory>
    ensures { IfOk result (λ b. b ≡ is_literal literals.now form.now) }
{
    for literal in literals {
        if same_binder(alloc, literal, form)? {
            return Ok(true);
        }
    }
    Ok(false)
}

fn is_known(alloc: Global, variables: &[PatternVariable], form: &Syn) -> Result<bool, Memory>
    ensures { IfOk result (λ b. b ≡ is_known variables.now form.now) }
{
    for variable in variables {
        if same_binder(alloc, &variable.id, form)? {
            return Ok(true);
        }
    }
    Ok(false)
}

fn new_variable(
    context: &PatternContext,
    form: &Syn,
    depth: u32,
    variables: &mut Items<PatternVariable>,
    names: &mut FreeNames,
) -> Result<Pattern, Stop>
    ensures { GivesAfter (λ p. p) result (variables.new, names.new) (new_variable context.now.place.now form.now depth (variables.old, names.old)) }
{
    if is_known(context.alloc, variables.as_slice(), form)? {
        return Err(bad_pattern(context, form));
    }
    let id = form.share()?;
    let label = Label(names.next()?);
    let own = label.share()?;
    variables.push(PatternVariable {
        id,
        label: own,
        depth,
    })?;
    Ok(Pattern {
        node: PatternNode::Variable(label),
    })
}

fn leaf_pattern(
    context: &PatternContext,
    form: &Syn,
    depth: u32,
    variables: &mut Items<PatternVariable>,
    names: &mut FreeNames,
) -> Result<Pattern, Stop>
    ensures { GivesAfter (λ p. p) result (variables.new, names.new) (leaf_pattern (seen context.now) form.now depth (variables.old, names.old)) }
{
    let label = context.frames.stands(form)?;
    if is_form(CoreForm::Ellipsis, &label) {
        return Err(bad_pattern(context, form));
    }
    if is_form(CoreForm::Underscore, &label) {
        return Ok(Pattern {
            node: PatternNode::Any,
        });
    }
    if is_literal(context.alloc, context.literals, form)? {
        let form = form.share()?;
        return Ok(Pattern {
            node: PatternNode::Literal(form),
        });
    }
    new_variable(context, form, depth, variables, names)
}

fn push_part(parts: &mut PatternParts, pattern: Pattern) -> Result<(), Memory>
    ensures { OnOk result (parts.new ≡ with_part parts.old.repeated parts.old pattern) }
{
    match parts.repeated {
        None => parts.before.push(pattern),
        Some(_) => parts.after.push(pattern),
    }
}

/// Adds the pattern that an ellipsis stands behind.
fn repeat_part(
    context: &PatternContext,
    parts: &mut PatternParts,
    pattern: Pattern,
    ellipsis: &Syn,
) -> Result<(), Stop>
    ensures { Gives (λ _. parts.new) result (with_repeated context.now.place.now ellipsis.now parts.old.repeated parts.old pattern) }
{
    match parts.repeated {
        None => {
            drop(parts.repeated.replace(pattern));
            Ok(())
        }
        Some(_) => {
            drop(pattern);
            Err(bad_pattern(context, ellipsis))
        }
    }
}

/// Adds the pattern of an element, which may have an ellipsis behind it.
fn add_part(
    context: &PatternContext,
    parts: &mut PatternParts,
    pattern: Pattern,
    ellipsis: Option<&Syn>,
) -> Result<(), Stop>
    ensures { Gives (λ _. parts.new) result (added context.now.place.now (option_map (λ e. e.now) ellipsis.entry) parts.old pattern) }
{
    match ellipsis {
        None => {
            push_part(parts, pattern)?;
            Ok(())
        }
        Some(ellipsis) => repeat_part(context, parts, pattern, ellipsis),
    }
}

/// The number of ellipses round the variables of an element.
fn inner_depth(depth: u32, ellipsis: Option<&Syn>) -> Result<u32, Memory>
    ensures { IfOk result (λ n. n ≡ inner_depth depth (option_map (λ e. e.now) ellipsis.entry)) }
{
    match ellipsis {
        None => Ok(depth),
        Some(_) => match depth.checked_add(1) {
            None => Err(Memory),
            Some(inner) => Ok(inner),
        },
    }
}

/// The forms behind the ellipsis that they begin with, if they do.
fn behind_ellipsis<'a>(ellipsis: Option<&Syn>, forms: &'a [Syn]) -> &'a [Syn]
    ensures { result.now ≡ behind_ellipsis (option_map (λ e. e.now) ellipsis.entry) forms.now }
{
    match ellipsis {
        None => forms,
        Some(_) => match forms {
            [] => forms,
            [_, behind @ ..] => behind,
        },
    }
}

fn repeated_from(
    alloc: Global,
    repeated: Option<Pattern>,
    after: Items<Pattern>,
) -> Result<Option<Repeated>, Memory>
    ensures { IfOk result (λ r. repeated_on r ≡ dots_of repeated after) }
{
    match repeated {
        None => Ok(None),
        Some(pattern) => {
            let pattern = Box::new(alloc, pattern)?;
            let after = after.into_vec();
            Ok(Some(Repeated { pattern, after }))
        }
    }
}

fn elements_from(alloc: Global, parts: PatternParts) -> Result<Elements, Memory>
    ensures { IfOk result (λ e. elements_of e ≡ parts_of parts) }
{
    let PatternParts {
        before,
        repeated,
        after,
    } = parts;
    let repeated = repeated_from(alloc, repeated, after)?;
    let before = before.into_vec();
    Ok(Elements { before, repeated })
}

fn list_from(alloc: Global, parts: PatternParts, tail: Pattern) -> Result<Pattern, Memory>
    ensures { IfOk result (λ p. p ≡ list (parts_of parts) tail) }
{
    match elements_from(alloc, parts) {
        Ok(elements) => list_with(alloc, elements, tail),
        Err(memory) => {
            drop(tail);
            Err(memory)
        }
    }
}

fn list_with(alloc: Global, elements: Elements, tail: Pattern) -> Result<Pattern, Memory>
    ensures { IfOk result (λ p. p ≡ list (elements_of elements) tail) }
{
    let tail = Box::new(alloc, tail)?;
    Ok(Pattern {
        node: PatternNode::List(elements, tail),
    })
}

fn vector_from(alloc: Global, parts: PatternParts) -> Result<Pattern, Memory>
    ensures { IfOk result (λ p. p ≡ vector (parts_of parts)) }
{
    let elements = elements_from(alloc, parts)?;
    Ok(Pattern {
        node: PatternNode::Vector(elements),
    })
}

/// The pattern of a form, round which so many ellipses stand.
#[cycle(pattern)]
fn pattern(
    context: &PatternContext,
    form: &Syn,
    depth: u32,
    variables: &mut Items<PatternVariable>,
    names: &mut FreeNames,
) -> Result<Pattern, Stop>
    ensures { GivesAfter (λ p. p) result (variables.new, names.new) (pattern (seen context.now) form.now depth (variables.old, names.old)) }
{
    match form.open(context.alloc)? {
        OpenedTree::Atom(atom) => Ok(Pattern {
            node: PatternNode::Atom(atom),
        }),
        OpenedTree::Symbol(_) => leaf_pattern(context, form, depth, variables, names),
        OpenedTree::Pair(_, _) => list_pattern(context, form, depth, variables, names),
        OpenedTree::Vector(forms) => vector_pattern(context, &forms, depth, variables, names),
    }
}

#[cycle(pattern)]
fn list_pattern(
    context: &PatternContext,
    form: &Syn,
    depth: u32,
    variables: &mut Items<PatternVariable>,
    names: &mut FreeNames,
) -> Result<Pattern, Stop>
    requires { is_pair form.now ≡ true }
    ensures { GivesAfter (λ p. p) result (variables.new, names.new) (list_pattern (seen context.now) form.now depth (variables.old, names.old)) }
{
    let parts = parts_of(context.alloc, form)?;
    let elements = elements(context, parts.elements.as_slice(), depth, variables, names)?;
    match pattern(context, &parts.tail, depth, variables, names) {
        Ok(tail) => Ok(list_from(context.alloc, elements, tail)?),
        Err(stop) => {
            drop(elements);
            Err(stop)
        }
    }
}

#[cycle(pattern)]
fn vector_pattern(
    context: &PatternContext,
    forms: &[Syn],
    depth: u32,
    variables: &mut Items<PatternVariable>,
    names: &mut FreeNames,
) -> Result<Pattern, Stop>
    ensures { GivesAfter (λ p. p) result (variables.new, names.new) (vector_pattern (seen context.now) forms.now depth (variables.old, names.old)) }
{
    let elements = elements(context, forms, depth, variables, names)?;
    let vector = vector_from(context.alloc, elements)?;
    Ok(vector)
}

/// The patterns of the elements of a list or vector.
#[cycle(pattern)]
fn elements(
    context: &PatternContext,
    forms: &[Syn],
    depth: u32,
    variables: &mut Items<PatternVariable>,
    names: &mut FreeNames,
) -> Result<PatternParts, Stop>
    ensures { GivesAfter (λ p. p) result (variables.new, names.new) (forms_walked (seen context.now) depth forms.now (variables.old, names.old)) }
{
    let mut parts = PatternParts {
        before: Items::new(context.alloc),
        repeated: None,
        after: Items::new(context.alloc),
    };
    let elements = ElementForms { forms, depth };
    match add_elements(context, &elements, &mut parts, variables, names) {
        Ok(()) => Ok(parts),
        Err(stop) => {
            drop(parts);
            Err(stop)
        }
    }
}

/// Adds the patterns of elements. An ellipsis is taken with the element before it.
#[cycle(pattern)]
fn add_elements(
    context: &PatternContext,
    elements: &ElementForms,
    parts: &mut PatternParts,
    variables: &mut Items<PatternVariable>,
    names: &mut FreeNames,
) -> Result<(), Stop>
    ensures { GivesAfter (λ _. parts.new) result (variables.new, names.new)
        (walked (seen context.now) elements.now.depth false parts.old (map (with_pattern (seen context.now)) elements.now.forms.now)
        (variables.old, names.old)) }
{
    let mut left = elements.forms;
    while let Some((form, behind)) = left.split_first() {
        let ellipsis = first_ellipsis(behind, context.frames)?;
        let inner = inner_depth(elements.depth, ellipsis)?;
        let pattern = pattern(context, form, inner, variables, names)?;
        add_part(context, parts, pattern, ellipsis)?;
        left = behind_ellipsis(ellipsis, behind);
    }
    Ok(())
}
