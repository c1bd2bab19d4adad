//! The labels that core code references or assigns and doesn't bind.

ghost use Rattle.std.specs.Prelude.{◌≡◌, IfOk, OnOk, ◌∷◌, []};
ghost use Rattle.core_language.specs.Labels.{with_labels};
ghost use Rattle.core_language.specs.Pattern.{patterns};
ghost use Rattle.core_language.specs.PatternView.{elements_of, repeated_on};
ghost use Rattle.core_language.specs.Core.{cores};
ghost use Rattle.core_language.specs.CoreView.{inits, cases, clauses};
ghost use Rattle.core_language.specs.References.{references, binders, all_binders, init_binders, case_binders, clause_binders, mentions, all_mentions, init_mentions, case_mentions, clause_mentions, variables, all_variables, formals_labels};

use crate::code::{Clause, Code, Core, CoreNode, Init, Lambda};
use crate::formals::Formals;
use crate::labels::Labels;
use crate::pattern::{Elements, Pattern, PatternNode, Repeated};
use base_data::memory::Memory;
use base_data::name::Label;
use std::alloc::Global;

/// The labels that core code references or assigns and that no binder in it binds, each once, in the
/// order of their first places. Of a run line these are its top-level variables.
pub fn references(alloc: Global, core: &Core) -> Result<Vec<Label>, Memory>
    ensures { IfOk result (λ ls. ls.items ≡ references core.now) }
{
    let mut bound = Labels::new(alloc);
    let mut mentioned = Labels::new(alloc);
    scan(&mut bound, &mut mentioned, core)?;
    mentioned.without(alloc, &bound)
}

/// Adds the labels that core code binds, and those that it references or assigns.
#[cycle(scan)]
#[tactic(auto, using(crate::proofs::LabelLemmas::with_labels_joined))]
fn scan(bound: &mut Labels, mentioned: &mut Labels, core: &Core) -> Result<(), Memory>
    ensures bound { OnOk result (bound.new ≡ with_labels bound.old (binders core.now)) }
    ensures mentioned { OnOk result (mentioned.new ≡ with_labels mentioned.old (mentions core.now)) }
{
    match &core.node {
        CoreNode::Quote(_) | CoreNode::Prim(_) | CoreNode::Syntax(_, _) => Ok(()),
        CoreNode::Ref(label) => mentioned.add(label),
        CoreNode::If(test, then, None) => {
            scan(bound, mentioned, test)?;
            scan(bound, mentioned, then)
        }
        CoreNode::If(test, then, Some(other)) => {
            scan(bound, mentioned, test)?;
            scan(bound, mentioned, then)?;
            scan(bound, mentioned, other)
        }
        CoreNode::Set(label, value) => {
            mentioned.add(label)?;
            scan(bound, mentioned, value)
        }
        CoreNode::Seq(parts) => scan_all(bound, mentioned, parts),
        CoreNode::Lambda(code) => scan_code(bound, mentioned, code),
        CoreNode::Letrec(_, inits, body) => {
            scan_inits(bound, mentioned, inits)?;
            scan(bound, mentioned, body)
        }
        CoreNode::App(operator, operands) => {
            scan(bound, mentioned, operator)?;
            scan_all(bound, mentioned, operands)
        }
        CoreNode::SyntaxCase(subject, clauses, _) => {
            scan(bound, mentioned, subject)?;
            scan_clauses(bound, mentioned, clauses)
        }
    }
}

#[cycle(scan)]
#[tactic(auto, using(crate::proofs::LabelLemmas::with_labels_joined))]
fn scan_all(bound: &mut Labels, mentioned: &mut Labels, parts: &[Core]) -> Result<(), Memory>
    ensures bound { OnOk result (bound.new ≡ with_labels bound.old (all_binders (cores parts.now))) }
    ensures mentioned { OnOk result (mentioned.new ≡ with_labels mentioned.old (all_mentions (cores parts.now))) }
{
    for part in parts {
        scan(bound, mentioned, part)?;
    }
    Ok(())
}

#[cycle(scan)]
#[tactic(auto, using(crate::proofs::LabelLemmas::with_labels_joined))]
fn scan_inits(bound: &mut Labels, mentioned: &mut Labels, list: &[Init]) -> Result<(), Memory>
    ensures bound { OnOk result (bound.new ≡ with_labels bound.old (init_binders (inits list.now))) }
    ensures mentioned { OnOk result (mentioned.new ≡ with_labels mentioned.old (init_mentions (inits list.now))) }
{
    for init in list {
        bound.add(&init.label)?;
        scan(bound, mentioned, &init.value)?;
    }
    Ok(())
}

#[cycle(scan)]
fn scan_code(bound: &mut Labels, mentioned: &mut Labels, code: &Code) -> Result<(), Memory>
    ensures bound { OnOk result (bound.new ≡ with_labels bound.old (case_binders code.now.cases)) }
    ensures mentioned { OnOk result (mentioned.new ≡ with_labels mentioned.old (case_mentions code.now.cases)) }
{
    scan_cases(bound, mentioned, &code.cases)
}

#[cycle(scan)]
#[tactic(auto, using(crate::proofs::LabelLemmas::with_labels_joined))]
fn scan_cases(bound: &mut Labels, mentioned: &mut Labels, list: &[Lambda]) -> Result<(), Memory>
    ensures bound { OnOk result (bound.new ≡ with_labels bound.old (case_binders (cases list.now))) }
    ensures mentioned { OnOk result (mentioned.new ≡ with_labels mentioned.old (case_mentions (cases list.now))) }
{
    for case in list {
        scan_formals(bound, &case.formals)?;
        scan(bound, mentioned, &case.body)?;
    }
    Ok(())
}

#[cycle(scan)]
#[tactic(auto, using(crate::proofs::LabelLemmas::with_labels_joined, crate::proofs::LabelLemmas::clause_binders_more, crate::proofs::LabelLemmas::clause_mentions_more))]
fn scan_clauses(bound: &mut Labels, mentioned: &mut Labels, list: &[Clause]) -> Result<(), Memory>
    ensures bound { OnOk result (bound.new ≡ with_labels bound.old (clause_binders (clauses list.now))) }
    ensures mentioned { OnOk result (mentioned.new ≡ with_labels mentioned.old (clause_mentions (clauses list.now))) }
{
    for clause in list {
        scan_clause(bound, mentioned, clause)?;
    }
    Ok(())
}

#[cycle(scan)]
#[tactic(auto, using(crate::proofs::LabelLemmas::with_labels_joined))]
fn scan_clause(bound: &mut Labels, mentioned: &mut Labels, clause: &Clause) -> Result<(), Memory>
    ensures bound { OnOk result (bound.new ≡ with_labels bound.old (clause_binders (clauses (clause.now ∷ [])))) }
    ensures mentioned { OnOk result (mentioned.new ≡ with_labels mentioned.old (clause_mentions (clauses (clause.now ∷ [])))) }
{
    scan_pattern(bound, &clause.pattern)?;
    match &clause.fender {
        None => scan(bound, mentioned, &clause.output),
        Some(fender) => {
            scan(bound, mentioned, fender)?;
            scan(bound, mentioned, &clause.output)
        }
    }
}

#[tactic(auto, using(crate::proofs::LabelLemmas::with_labels_joined))]
fn scan_formals(bound: &mut Labels, formals: &Formals) -> Result<(), Memory>
    ensures { OnOk result (bound.new ≡ with_labels bound.old (formals_labels formals.now)) }
{
    bound.add_each(formals.required.as_slice())?;
    match &formals.rest {
        None => Ok(()),
        Some(label) => bound.add(label),
    }
}

/// Adds the pattern variables of a pattern.
#[cycle(pattern)]
#[tactic(auto, using(crate::proofs::LabelLemmas::with_labels_joined))]
fn scan_pattern(bound: &mut Labels, pattern: &Pattern) -> Result<(), Memory>
    ensures { OnOk result (bound.new ≡ with_labels bound.old (variables pattern.now)) }
{
    match &pattern.node {
        PatternNode::Any | PatternNode::Literal(_) | PatternNode::Atom(_) => Ok(()),
        PatternNode::Variable(label) => bound.add(label),
        PatternNode::List(elements, tail) => {
            scan_elements(bound, elements)?;
            scan_pattern(bound, tail)
        }
        PatternNode::Vector(elements) => scan_elements(bound, elements),
    }
}

#[cycle(pattern)]
#[tactic(auto, using(crate::proofs::LabelLemmas::with_labels_joined, crate::proofs::LabelLemmas::variables_on))]
fn scan_elements(bound: &mut Labels, elements: &Elements) -> Result<(), Memory>
    ensures { OnOk result (bound.new ≡ with_labels bound.old (all_variables (elements_of elements.now))) }
{
    scan_patterns(bound, &elements.before)?;
    scan_repeated(bound, &elements.repeated)
}

#[cycle(pattern)]
#[tactic(auto, using(crate::proofs::LabelLemmas::with_labels_joined))]
fn scan_repeated(bound: &mut Labels, repeated: &Option<Repeated>) -> Result<(), Memory>
    ensures { OnOk result (bound.new ≡ with_labels bound.old (all_variables (repeated_on repeated.now))) }
{
    match repeated {
        None => Ok(()),
        Some(repeated) => {
            scan_pattern(bound, &repeated.pattern)?;
            scan_patterns(bound, &repeated.after)
        }
    }
}

#[cycle(pattern)]
#[tactic(auto, using(crate::proofs::LabelLemmas::with_labels_joined))]
fn scan_patterns(bound: &mut Labels, list: &[Pattern]) -> Result<(), Memory>
    ensures { OnOk result (bound.new ≡ with_labels bound.old (all_variables (patterns list.now))) }
{
    for pattern in list {
        scan_pattern(bound, pattern)?;
    }
    Ok(())
}
