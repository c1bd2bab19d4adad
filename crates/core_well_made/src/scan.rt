//! The labels that core code binds and those that it mentions, each as often as it does, in the order of their places.

ghost use Rattle.std.specs.Prelude.{◌≡◌, ◌++◌, ◌∷◌, [], OnOk};
ghost use Rattle.core_language.specs.Core.{cores};
ghost use Rattle.core_language.specs.CoreView.{inits, cases, clauses};
ghost use Rattle.core_language.specs.Pattern.{patterns};
ghost use Rattle.core_language.specs.PatternView.{elements_of, repeated_on};
ghost use Rattle.core_language.specs.References.{binders, all_binders, init_binders, case_binders, clause_binders};
ghost use Rattle.core_language.specs.References.{mentions, all_mentions, init_mentions, case_mentions, clause_mentions, variables, all_variables, formals_labels};

use base_data::items::Items;
use base_data::memory::Memory;
use base_data::name::Label;
use core_language::code::{Clause, Code, Core, CoreNode, Init, Lambda};
use core_language::formals::Formals;
use core_language::pattern::{Elements, Pattern, PatternNode, Repeated};
use std::alloc::Global;

/// Adds a label at the end.
pub fn add(labels: &mut Items<Label>, label: &Label) -> Result<(), Memory>
    ensures { OnOk result (labels.new ≡ labels.old ++ label.now ∷ []) }
{
    let label = label.share()?;
    labels.push(label)
}

/// Adds each of the labels at the end.
fn add_each(all: &mut Items<Label>, labels: &[Label]) -> Result<(), Memory>
    ensures { OnOk result (all.new ≡ all.old ++ labels.now) }
{
    for label in labels {
        add(all, label)?;
    }
    Ok(())
}

/// Adds the labels of formals.
#[tactic(auto, using(crate::proofs::Lists::joined))]
pub(crate) fn add_formals(all: &mut Items<Label>, formals: &Formals) -> Result<(), Memory>
    ensures { OnOk result (all.new ≡ all.old ++ formals_labels formals.now) }
{
    add_each(all, formals.required.as_slice())?;
    match &formals.rest {
        None => Ok(()),
        Some(rest) => add(all, rest),
    }
}

/// Adds the pattern variables of a pattern, from left to right.
#[cycle(pattern)]
#[tactic(auto, using(crate::proofs::Lists::joined))]
pub fn add_variables(all: &mut Items<Label>, pattern: &Pattern) -> Result<(), Memory>
    ensures { OnOk result (all.new ≡ all.old ++ variables pattern.now) }
{
    match &pattern.node {
        PatternNode::Any | PatternNode::Literal(_) | PatternNode::Atom(_) => Ok(()),
        PatternNode::Variable(label) => add(all, label),
        PatternNode::List(elements, tail) => {
            add_elements(all, elements)?;
            add_variables(all, tail)
        }
        PatternNode::Vector(elements) => add_elements(all, elements),
    }
}

#[cycle(pattern)]
#[tactic(auto, using(crate::proofs::Lists::joined, core_language::proofs::LabelLemmas::variables_on))]
fn add_elements(all: &mut Items<Label>, elements: &Elements) -> Result<(), Memory>
    ensures { OnOk result (all.new ≡ all.old ++ all_variables (elements_of elements.now)) }
{
    add_patterns(all, &elements.before)?;
    add_repeated(all, &elements.repeated)
}

#[cycle(pattern)]
#[tactic(auto, using(crate::proofs::Lists::joined))]
fn add_repeated(all: &mut Items<Label>, repeated: &Option<Repeated>) -> Result<(), Memory>
    ensures { OnOk result (all.new ≡ all.old ++ all_variables (repeated_on repeated.now)) }
{
    match repeated {
        None => Ok(()),
        Some(repeated) => {
            add_variables(all, &repeated.pattern)?;
            add_patterns(all, &repeated.after)
        }
    }
}

#[cycle(pattern)]
#[tactic(auto, using(crate::proofs::Lists::joined))]
fn add_patterns(all: &mut Items<Label>, list: &[Pattern]) -> Result<(), Memory>
    ensures { OnOk result (all.new ≡ all.old ++ all_variables (patterns list.now)) }
{
    for pattern in list {
        add_variables(all, pattern)?;
    }
    Ok(())
}

/// Adds the labels that core code binds, and those that it references or assigns.
#[cycle(scan)]
#[tactic(auto, using(crate::proofs::Lists::joined))]
pub fn scan(
    bound: &mut Items<Label>,
    mentioned: &mut Items<Label>,
    core: &Core,
) -> Result<(), Memory>
    ensures bound { OnOk result (bound.new ≡ bound.old ++ binders core.now) }
    ensures mentioned { OnOk result (mentioned.new ≡ mentioned.old ++ mentions core.now) }
{
    match &core.node {
        CoreNode::Quote(_) | CoreNode::Prim(_) | CoreNode::Syntax(_, _) => Ok(()),
        CoreNode::Ref(label) => add(mentioned, label),
        CoreNode::If(test, then, None) => {
            scan(bound, mentioned, test)?;
            scan(bound, mentioned, then)
        }
        CoreNode::If(test, then, Some(other)) => {
            scan(bound, mentioned, test)?;
            scan(bound, mentioned, then)?;
            scan(bound, mentioned, other)
        }
        CoreNode::Set(label, value) => {
            add(mentioned, label)?;
            scan(bound, mentioned, value)
        }
        CoreNode::Seq(parts) => scan_all(bound, mentioned, parts),
        CoreNode::Lambda(code) => scan_code(bound, mentioned, code),
        CoreNode::Letrec(_, inits, body) => {
            scan_inits(bound, mentioned, inits)?;
            scan(bound, mentioned, body)
        }
        CoreNode::App(operator, operands) => {
            scan(bound, mentioned, operator)?;
            scan_all(bound, mentioned, operands)
        }
        CoreNode::SyntaxCase(subject, clauses, _) => {
            scan(bound, mentioned, subject)?;
            scan_clauses(bound, mentioned, clauses)
        }
    }
}

#[cycle(scan)]
#[tactic(auto, using(crate::proofs::Lists::joined))]
fn scan_all(
    bound: &mut Items<Label>,
    mentioned: &mut Items<Label>,
    parts: &[Core],
) -> Result<(), Memory>
    ensures bound { OnOk result (bound.new ≡ bound.old ++ all_binders (cores parts.now)) }
    ensures mentioned { OnOk result (mentioned.new ≡ mentioned.old ++ all_mentions (cores parts.now)) }
{
    for part in parts {
        scan(bound, mentioned, part)?;
    }
    Ok(())
}

#[cycle(scan)]
#[tactic(auto, using(crate::proofs::Lists::joined))]
fn scan_inits(
    bound: &mut Items<Label>,
    mentioned: &mut Items<Label>,
    list: &[Init],
) -> Result<(), Memory>
    ensures bound { OnOk result (bound.new ≡ bound.old ++ init_binders (inits list.now)) }
    ensures mentioned { OnOk result (mentioned.new ≡ mentioned.old ++ init_mentions (inits list.now)) }
{
    for init in list {
        add(bound, &init.label)?;
        scan(bound, mentioned, &init.value)?;
    }
    Ok(())
}

#[cycle(scan)]
fn scan_code(
    bound: &mut Items<Label>,
    mentioned: &mut Items<Label>,
    code: &Code,
) -> Result<(), Memory>
    ensures bound { OnOk result (bound.new ≡ bound.old ++ case_binders code.now.cases) }
    ensures mentioned { OnOk result (mentioned.new ≡ mentioned.old ++ case_mentions code.now.cases) }
{
    scan_cases(bound, mentioned, &code.cases)
}

#[cycle(scan)]
#[tactic(auto, using(crate::proofs::Lists::joined))]
fn scan_cases(
    bound: &mut Items<Label>,
    mentioned: &mut Items<Label>,
    list: &[Lambda],
) -> Result<(), Memory>
    ensures bound { OnOk result (bound.new ≡ bound.old ++ case_binders (cases list.now)) }
    ensures mentioned { OnOk result (mentioned.new ≡ mentioned.old ++ case_mentions (cases list.now)) }
{
    for case in list {
        add_formals(bound, &case.formals)?;
        scan(bound, mentioned, &case.body)?;
    }
    Ok(())
}

#[cycle(scan)]
#[tactic(auto, using(crate::proofs::Lists::joined, core_language::proofs::LabelLemmas::clause_binders_more, core_language::proofs::LabelLemmas::clause_mentions_more))]
fn scan_clauses(
    bound: &mut Items<Label>,
    mentioned: &mut Items<Label>,
    list: &[Clause],
) -> Result<(), Memory>
    ensures bound { OnOk result (bound.new ≡ bound.old ++ clause_binders (clauses list.now)) }
    ensures mentioned { OnOk result (mentioned.new ≡ mentioned.old ++ clause_mentions (clauses list.now)) }
{
    for clause in list {
        scan_clause(bound, mentioned, clause)?;
    }
    Ok(())
}

#[cycle(scan)]
#[tactic(auto, using(crate::proofs::Lists::joined))]
fn scan_clause(
    bound: &mut Items<Label>,
    mentioned: &mut Items<Label>,
    clause: &Clause,
) -> Result<(), Memory>
    ensures bound { OnOk result (bound.new ≡ bound.old ++ clause_binders (clauses (clause.now ∷ []))) }
    ensures mentioned { OnOk result (mentioned.new ≡ mentioned.old ++ clause_mentions (clauses (clause.now ∷ []))) }
{
    add_variables(bound, &clause.pattern)?;
    match &clause.fender {
        None => scan(bound, mentioned, &clause.output),
        Some(fender) => {
            scan(bound, mentioned, fender)?;
            scan(bound, mentioned, &clause.output)
        }
    }
}
