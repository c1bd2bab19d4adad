//! What a record binds and what its lines define.

ghost use Rattle.std.specs.List.{flat_map};
ghost use Rattle.std.specs.Prelude.{◌≡◌, [], IfOk, OnOk};
ghost use Rattle.core_language.specs.Labels.{same_label, with_labels};
ghost use Rattle.law_core.specs.Follows.{binds_what_it_defines, is_recorded, tops, top_label};
ghost use Rattle.law_core.specs.Records.{defined, line_labels};
ghost use Rattle.law_core.specs.Words.{among, each};
ghost use Rattle.expand_follows.specs.Pieces.{is_top};

use base_data::memory::Memory;
use base_data::name::Label;
use core_language::binding::Binding;
use core_language::record::{CompiledLibrary, Line};
use core_well_made::labels::LabelSet;
use std::alloc::Global;

fn add_defined(set: &mut LabelSet, line: &Line) -> Result<(), Memory>
    ensures { OnOk result (set.new ≡ with_labels set.old (line_labels line.now)) }
{
    match line {
        Line::Define(label, _) => set.add(label),
        Line::Expr(_) => Ok(()),
    }
}

/// The labels that the lines of a record define, each once.
#[tactic(auto, using(core_language::proofs::LabelLemmas::with_labels_joined))]
pub(crate) fn defined_set(alloc: Global, one: &CompiledLibrary) -> Result<LabelSet, Memory>
    ensures { IfOk result (λ s. s ≡ with_labels [] (defined one.now)) }
{
    let mut set = LabelSet::new(alloc);
    for line in one.run.as_slice() {
        add_defined(&mut set, line)?;
    }
    Ok(set)
}

fn is_top(binding: &Binding) -> bool
    ensures { result ≡ is_top binding.now }
{
    match binding {
        Binding::Variable(variable) => variable.top,
        Binding::PatternVariable { .. } | Binding::Macro { .. } => false,
        Binding::Core(_) | Binding::Primitive(_) => false,
    }
}

#[tactic(auto, using(crate::proofs::DefinesLemmas::top_label_is))]
fn add_top(set: &mut LabelSet, row: &(Label, Binding)) -> Result<(), Memory>
    ensures { OnOk result (set.new ≡ with_labels set.old (top_label row.now)) }
{
    if is_top(&row.1) {
        return set.add(&row.0);
    }
    Ok(())
}

// The labels of its variables of the top, each once.
#[tactic(auto, using(core_language::proofs::LabelLemmas::with_labels_joined))]
fn top_set(alloc: Global, one: &CompiledLibrary) -> Result<LabelSet, Memory>
    ensures { IfOk result (λ s. s ≡ with_labels [] (tops one.now)) }
{
    let mut set = LabelSet::new(alloc);
    for row in one.bindings.as_slice() {
        add_top(&mut set, row)?;
    }
    Ok(set)
}

fn is_recorded(row: &(Label, Binding)) -> bool
    ensures { result ≡ is_recorded row.now }
{
    match &row.1 {
        Binding::Variable(_) => true,
        Binding::PatternVariable { .. } => true,
        Binding::Macro { expression, .. } => expression.is_some(),
        Binding::Core(_) => false,
        Binding::Primitive(_) => false,
    }
}

fn are_recorded(bindings: &[(Label, Binding)]) -> bool
    ensures { result ≡ each is_recorded bindings.now }
{
    for row in bindings {
        if !is_recorded(row) {
            return false;
        }
    }
    true
}

// Whether a binding is one of a variable of the top that a line defines, or another one.
#[tactic(auto, using(crate::proofs::DefinesLemmas::top_label_is, crate::proofs::DefinesLemmas::top_among))]
fn is_defined(row: &(Label, Binding), defines: &LabelSet) -> bool
    ensures { result ≡ each (among same_label defines.now) (top_label row.now) }
{
    if is_top(&row.1) {
        return defines.has(&row.0);
    }
    true
}

// Whether each variable of the top is one that a line defines.
#[tactic(auto, using(core_well_made::proofs::Lists::each_joined))]
fn tops_are_defined(bindings: &[(Label, Binding)], defines: &LabelSet) -> bool
    ensures { result ≡ each (among same_label defines.now) (flat_map top_label bindings.now) }
{
    for row in bindings {
        if !is_defined(row, defines) {
            return false;
        }
    }
    true
}

#[tactic(auto, using(crate::proofs::DefinesLemmas::one_among))]
fn is_line_among(line: &Line, tops: &LabelSet) -> bool
    ensures { result ≡ each (among same_label tops.now) (line_labels line.now) }
{
    match line {
        Line::Define(label, _) => tops.has(label),
        Line::Expr(_) => true,
    }
}

// Whether each label that a line defines is a variable of the top.
#[tactic(auto, using(core_well_made::proofs::Lists::each_joined))]
fn defined_are_tops(lines: &[Line], tops: &LabelSet) -> bool
    ensures { result ≡ each (among same_label tops.now) (flat_map line_labels lines.now) }
{
    for line in lines {
        if !is_line_among(line, tops) {
            return false;
        }
    }
    true
}

/// Whether a record binds variables, pattern variables, and keywords with their expressions, and nothing else; and whether
/// its variables of the top level are those that its lines define.
#[tactic(auto, using(core_well_made::proofs::Sets::each_among_with))]
pub(crate) fn binds_what_it_defines(
    alloc: Global,
    one: &CompiledLibrary,
    defines: &LabelSet,
) -> Result<bool, Memory>
    requires { defines.now ≡ with_labels [] (defined one.now) }
    ensures { IfOk result (λ b. b ≡ binds_what_it_defines one.now) }
{
    if !are_recorded(one.bindings.as_slice()) {
        return Ok(false);
    }
    if !tops_are_defined(one.bindings.as_slice(), defines) {
        return Ok(false);
    }
    let tops = top_set(alloc, one)?;
    Ok(defined_are_tops(one.run.as_slice(), &tops))
}
