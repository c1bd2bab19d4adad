//! Core code that is closed: each label in it lies in the scope of its binder, or is one of the top.

ghost use Rattle.std.specs.List.{flat_map};
ghost use Rattle.std.specs.Prelude.{◌≡◌, ◌++◌, ◌∷◌, [], true, IfOk, OnOk};
ghost use Rattle.core_language.specs.Core.{cores, letrec};
ghost use Rattle.core_language.specs.CoreView.{inits, cases, clauses};
ghost use Rattle.core_language.specs.Labels.{same_label, with_labels};
ghost use Rattle.core_language.specs.References.{formals_labels};
ghost use Rattle.core_language.specs.TemplateView.{items};
ghost use Rattle.law_core.specs.Parts.{init_labels};
ghost use Rattle.law_core.specs.Records.{defined};
ghost use Rattle.law_core.specs.Scope.{closed, all_closed, inits_closed, cases_closed, clauses_closed, template_labels, item_labels};
ghost use Rattle.law_core.specs.Words.{among, each};
ghost use Rattle.expand_follows.specs.Scope.{case_closed, output_closed, under, values_closed};

use crate::earlier::NeededEarlier;
use base_data::items::Items;
use base_data::memory::Memory;
use base_data::name::Label;
use core_language::code::{Clause, Code, Core, CoreNode, Init, Lambda};
use core_language::formals::Formals;
use core_language::template::{Template, TemplateItem, TemplateNode};
use core_well_made::labels::LabelSet;
use core_well_made::scan::add_variables;
use std::alloc::Global;

/// The labels of the top that code may mention: those that earlier records define, and those that a record defines
/// itself, where its code runs among its lines.
#[derive(Drop)]
pub struct Top<'a> {
    pub alloc: Global,
    pub earlier: &'a NeededEarlier<'a>,
    pub own: &'a LabelSet,
}

// Whether a label is in scope, or of the top.
#[tactic(auto, using(core_well_made::proofs::Sets::among_joined, core_well_made::proofs::Sets::has_is_among))]
fn is_known(scope: &LabelSet, top: &Top, label: &Label) -> bool
    ensures { result ≡ among same_label (under scope.now top.now.earlier.now top.now.own.now) label.now }
{
    scope.has(label) || top.earlier.has_defined(label) || top.own.has(label)
}

// Whether the variables of a template are known.
#[cycle(instance)]
#[tactic(auto, using(core_well_made::proofs::Lists::each_joined))]
fn is_instance_closed(scope: &LabelSet, top: &Top, template: &Template) -> bool
    ensures { result ≡ each (among same_label (under scope.now top.now.earlier.now top.now.own.now)) (template_labels template.now) }
{
    match &template.node {
        TemplateNode::Variable(label, _) => is_known(scope, top, label),
        TemplateNode::Constant(_) => true,
        TemplateNode::List(items, tail) => {
            are_items_closed(scope, top, items) && is_instance_closed(scope, top, tail)
        }
        TemplateNode::Vector(items) => are_items_closed(scope, top, items),
    }
}

#[cycle(instance)]
#[tactic(auto, using(core_well_made::proofs::Lists::each_joined))]
fn are_items_closed(scope: &LabelSet, top: &Top, list: &[TemplateItem]) -> bool
    ensures { result ≡ each (among same_label (under scope.now top.now.earlier.now top.now.own.now)) (item_labels (items list.now)) }
{
    for item in list {
        if !is_instance_closed(scope, top, &item.template) {
            return false;
        }
    }
    true
}

// Formals come into scope.
#[tactic(auto, using(core_language::proofs::LabelLemmas::with_labels_joined))]
fn enter_formals(scope: &mut LabelSet, formals: &Formals) -> Result<(), Memory>
    ensures { OnOk result (scope.new ≡ with_labels scope.old (formals_labels formals.now)) }
{
    scope.add_each(formals.required.as_slice())?;
    match &formals.rest {
        None => Ok(()),
        Some(rest) => scope.add(rest),
    }
}

// The variables of a `letrec` come into scope.
fn enter_inits(scope: &mut LabelSet, list: &[Init]) -> Result<(), Memory>
    ensures { OnOk result (scope.new ≡ with_labels scope.old (init_labels (inits list.now))) }
{
    for init in list {
        scope.add(&init.label)?;
    }
    Ok(())
}

/// Whether core code is closed: each label that it mentions lies in scope, or is defined at the top. The scope is left
/// as it was.
#[cycle(closed)]
pub(crate) fn is_closed(scope: &mut LabelSet, top: &Top, core: &Core) -> Result<bool, Memory>
    ensures closed { IfOk result (λ b. b ≡ closed (under scope.old top.now.earlier.now top.now.own.now) core.now) }
    ensures kept { OnOk result (scope.new ≡ scope.old) }
{
    match &core.node {
        CoreNode::Quote(_) | CoreNode::Prim(_) => Ok(true),
        CoreNode::Ref(label) => Ok(is_known(scope, top, label)),
        CoreNode::If(test, then, None) => {
            if !is_closed(scope, top, test)? {
                return Ok(false);
            }
            is_closed(scope, top, then)
        }
        CoreNode::If(test, then, Some(other)) => {
            if !is_closed(scope, top, test)? {
                return Ok(false);
            }
            if !is_closed(scope, top, then)? {
                return Ok(false);
            }
            is_closed(scope, top, other)
        }
        CoreNode::Set(label, value) => {
            if !is_known(scope, top, label) {
                return Ok(false);
            }
            is_closed(scope, top, value)
        }
        CoreNode::Seq(parts) => are_closed(scope, top, parts),
        CoreNode::Lambda(code) => is_code_closed(scope, top, code),
        CoreNode::Letrec(_, inits, body) => is_letrec_closed(scope, top, inits, body),
        CoreNode::App(operator, operands) => {
            if !is_closed(scope, top, operator)? {
                return Ok(false);
            }
            are_closed(scope, top, operands)
        }
        CoreNode::Syntax(template, _) => Ok(is_instance_closed(scope, top, template)),
        CoreNode::SyntaxCase(subject, clauses, _) => {
            if !is_closed(scope, top, subject)? {
                return Ok(false);
            }
            are_clauses_closed(scope, top, clauses)
        }
    }
}

#[cycle(closed)]
fn are_closed(scope: &mut LabelSet, top: &Top, parts: &[Core]) -> Result<bool, Memory>
    ensures closed { IfOk result (λ b. b ≡ all_closed (under scope.old top.now.earlier.now top.now.own.now) (cores parts.now)) }
    ensures kept { OnOk result (scope.new ≡ scope.old) }
{
    for part in parts {
        if !is_closed(scope, top, part)? {
            return Ok(false);
        }
    }
    Ok(true)
}

#[cycle(closed)]
fn is_code_closed(scope: &mut LabelSet, top: &Top, code: &Code) -> Result<bool, Memory>
    ensures closed { IfOk result (λ b. b ≡ cases_closed (under scope.old top.now.earlier.now top.now.own.now) code.now.cases) }
    ensures kept { OnOk result (scope.new ≡ scope.old) }
{
    are_cases_closed(scope, top, &code.cases)
}

#[cycle(closed)]
fn are_cases_closed(scope: &mut LabelSet, top: &Top, list: &[Lambda]) -> Result<bool, Memory>
    ensures closed { IfOk result (λ b. b ≡ cases_closed (under scope.old top.now.earlier.now top.now.own.now) (cases list.now)) }
    ensures kept { OnOk result (scope.new ≡ scope.old) }
{
    for case in list {
        if !is_case_closed(scope, top, case)? {
            return Ok(false);
        }
    }
    Ok(true)
}

// The scope of a formal is the body of its case.
#[cycle(closed)]
#[tactic(auto, using(crate::proofs::ClosedLemmas::closed_inside, core_well_made::proofs::Sets::with_labels_kept))]
fn is_case_closed(scope: &mut LabelSet, top: &Top, case: &Lambda) -> Result<bool, Memory>
    ensures closed { IfOk result (λ b. b ≡ case_closed (under scope.old top.now.earlier.now top.now.own.now) case.now.formals case.now.body) }
    ensures kept { OnOk result (scope.new ≡ scope.old) }
{
    let outer = scope.len();
    enter_formals(scope, &case.formals)?;
    let closed = is_closed(scope, top, &case.body)?;
    scope.truncate(outer);
    Ok(closed)
}

// The scope of a variable of a `letrec` is the whole `letrec`.
#[cycle(closed)]
#[tactic(auto, using(crate::proofs::ClosedLemmas::closed_inside, crate::proofs::ClosedLemmas::inits_closed_inside, core_well_made::proofs::Sets::with_labels_kept))]
fn is_letrec_closed(
    scope: &mut LabelSet,
    top: &Top,
    list: &[Init],
    body: &Core,
) -> Result<bool, Memory>
    ensures closed { IfOk result (λ b. b ≡ closed (under scope.old top.now.earlier.now top.now.own.now) (letrec true (inits list.now) body.now)) }
    ensures kept { OnOk result (scope.new ≡ scope.old) }
{
    let outer = scope.len();
    enter_inits(scope, list)?;
    let closed = are_parts_closed(scope, top, list, body)?;
    scope.truncate(outer);
    Ok(closed)
}

#[cycle(closed)]
fn are_parts_closed(
    scope: &mut LabelSet,
    top: &Top,
    list: &[Init],
    body: &Core,
) -> Result<bool, Memory>
    ensures closed { IfOk result (λ b. b ≡ values_closed (under scope.old top.now.earlier.now top.now.own.now) (inits list.now) body.now) }
    ensures kept { OnOk result (scope.new ≡ scope.old) }
{
    if !are_inits_closed(scope, top, list)? {
        return Ok(false);
    }
    is_closed(scope, top, body)
}

#[cycle(closed)]
fn are_inits_closed(scope: &mut LabelSet, top: &Top, list: &[Init]) -> Result<bool, Memory>
    ensures closed { IfOk result (λ b. b ≡ inits_closed (under scope.old top.now.earlier.now top.now.own.now) (inits list.now)) }
    ensures kept { OnOk result (scope.new ≡ scope.old) }
{
    for init in list {
        if !is_closed(scope, top, &init.value)? {
            return Ok(false);
        }
    }
    Ok(true)
}

#[cycle(closed)]
#[tactic(auto, using(crate::proofs::ClosedLemmas::clauses_closed_more))]
fn are_clauses_closed(scope: &mut LabelSet, top: &Top, list: &[Clause]) -> Result<bool, Memory>
    ensures closed { IfOk result (λ b. b ≡ clauses_closed (under scope.old top.now.earlier.now top.now.own.now) (clauses list.now)) }
    ensures kept { OnOk result (scope.new ≡ scope.old) }
{
    for clause in list {
        if !is_clause_closed(scope, top, clause)? {
            return Ok(false);
        }
    }
    Ok(true)
}

// The scope of a pattern variable is the fender and the output of its clause.
#[cycle(closed)]
#[tactic(auto, using(crate::proofs::ClosedLemmas::output_closed_inside, core_well_made::proofs::Sets::with_labels_kept))]
fn is_clause_closed(scope: &mut LabelSet, top: &Top, clause: &Clause) -> Result<bool, Memory>
    ensures closed { IfOk result (λ b. b ≡ clauses_closed (under scope.old top.now.earlier.now top.now.own.now) (clauses (clause.now ∷ []))) }
    ensures kept { OnOk result (scope.new ≡ scope.old) }
{
    let outer = scope.len();
    let mut variables = Items::new(top.alloc);
    add_variables(&mut variables, &clause.pattern)?;
    scope.add_each(variables.as_slice())?;
    let closed = is_output_closed(scope, top, clause)?;
    scope.truncate(outer);
    Ok(closed)
}

#[cycle(closed)]
fn is_output_closed(scope: &mut LabelSet, top: &Top, clause: &Clause) -> Result<bool, Memory>
    ensures closed { IfOk result (λ b. b ≡ output_closed (under scope.old top.now.earlier.now top.now.own.now) clause.now.fender clause.now.output) }
    ensures kept { OnOk result (scope.new ≡ scope.old) }
{
    match &clause.fender {
        None => is_closed(scope, top, &clause.output),
        Some(fender) => {
            if !is_closed(scope, top, fender)? {
                return Ok(false);
            }
            is_closed(scope, top, &clause.output)
        }
    }
}
