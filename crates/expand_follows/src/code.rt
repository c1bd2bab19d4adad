//! The code of a record: its lines, and the expressions of its keywords.

ghost use Rattle.std.specs.List.{flat_map};
ghost use Rattle.std.specs.Prelude.{◌≡◌, ◌++◌, [], map, IfOk, OnOk, option_map};
ghost use Rattle.core_language.specs.Labels.{with_labels};
ghost use Rattle.law_core.specs.Follows.{has_good_code, keyword_of, line_variables, suits};
ghost use Rattle.law_core.specs.Records.{defined, line_core};
ghost use Rattle.law_core.specs.Words.{each};
ghost use Rattle.expand_follows.specs.Pieces.{all_there, index_in_table, expand_transformer_in, once_there, suits_if, with_indices, with_line, with_lines};

use crate::closed::{Top, is_closed};
use crate::names::{expand_transformer_in, line_core};
use base_data::items::Items;
use base_data::map::NameMap;
use base_data::memory::Memory;
use base_data::name::Label;
use core_language::binding::Binding;
use core_language::code::Core;
use core_language::record::{CompiledLibrary, Line};
use core_well_made::labels::LabelSet;
use core_well_made::once::once;
use core_well_made::parts::{NotedParts, gather};
use core_well_made::scan::add;
use core_well_made::well_made::is_well_made;
use std::alloc::Global;

// Whether core code is well made, and closed under the labels of the top.
fn suits(top: &Top, core: &Core) -> Result<bool, Memory>
    ensures { IfOk result (λ b. b ≡ suits (flat_map defined top.now.earlier.now ++ top.now.own.now) core.now) }
{
    if !is_well_made(top.alloc, core)? {
        return Ok(false);
    }
    let mut scope = LabelSet::new(top.alloc);
    is_closed(&mut scope, top, core)
}

fn keyword_suits(top: &Top, binding: &Binding) -> Result<bool, Memory>
    ensures { IfOk result (λ b. b ≡ suits_if (flat_map defined top.now.earlier.now ++ top.now.own.now) (expand_transformer_in binding.now)) }
{
    match expand_transformer_in(binding) {
        Some(core) => suits(top, core),
        None => Ok(true),
    }
}

fn lines_suit(top: &Top, lines: &[Line]) -> Result<bool, Memory>
    ensures { IfOk result (λ b. b ≡ each (suits (flat_map defined top.now.earlier.now ++ top.now.own.now)) (map line_core lines.now)) }
{
    for line in lines {
        if !suits(top, line_core(line))? {
            return Ok(false);
        }
    }
    Ok(true)
}

#[tactic(auto, using(crate::proofs::CodeLemmas::keyword_suits_more))]
fn keywords_suit(top: &Top, bindings: &[(Label, Binding)]) -> Result<bool, Memory>
    ensures { IfOk result (λ b. b ≡ each (suits (flat_map defined top.now.earlier.now ++ top.now.own.now)) (flat_map keyword_of bindings.now)) }
{
    for row in bindings {
        if !keyword_suits(top, &row.1)? {
            return Ok(false);
        }
    }
    Ok(true)
}

#[tactic(auto, using(crate::proofs::CodeLemmas::no_label))]
fn gather_line(alloc: Global, all: &mut NotedParts, line: &Line) -> Result<(), Memory>
    ensures { OnOk result (all.new ≡ with_line all.old line.now) }
{
    match line {
        Line::Define(label, core) => {
            add(&mut all.variables, label)?;
            gather(alloc, all, core)
        }
        Line::Expr(core) => gather(alloc, all, core),
    }
}

// The variables that its lines define or bind.
fn run_variables(alloc: Global, lines: &[Line]) -> Result<Items<Label>, Memory>
    ensures { IfOk result (λ ls. ls ≡ flat_map line_variables lines.now) }
{
    let mut all = NotedParts::new(alloc);
    for line in lines {
        gather_line(alloc, &mut all, line)?;
    }
    let NotedParts { variables, .. } = all;
    Ok(variables)
}

fn index_in(own: &NameMap<Label, Option<u64>>, label: &Label) -> Option<u64>
    ensures { result ≡ index_in_table own.now.entries label.now }
{
    match own.get(label) {
        Some(index) => *index,
        None => None,
    }
}

// The indices of variables, or nothing where one has none.
#[tactic(auto, using(crate::proofs::Indices::behind_end, crate::proofs::Indices::behind_more, crate::proofs::Indices::behind_none))]
fn indices_of(
    alloc: Global,
    variables: &[Label],
    own: &NameMap<Label, Option<u64>>,
) -> Result<Option<Vec<u64>>, Memory>
    ensures { IfOk result (λ o. option_map (λ v. v.items) o ≡ all_there (map (index_in_table own.now.entries) variables.now)) }
{
    let mut indices = Vec::new(alloc);
    for label in variables {
        let Some(index) = index_in(own, label) else {
            return Ok(None);
        };
        indices.push(index)?;
    }
    Ok(Some(indices))
}

// Whether each variable that its lines define or bind has an index of its own.
#[tactic(auto, using(crate::proofs::Indices::once_there_some, crate::proofs::Indices::once_there_none))]
fn is_indexed(
    alloc: Global,
    lines: &[Line],
    own: &NameMap<Label, Option<u64>>,
) -> Result<bool, Memory>
    ensures { IfOk result (λ b. b ≡ once_there (map (index_in_table own.now.entries) (flat_map line_variables lines.now))) }
{
    let variables = run_variables(alloc, lines)?;
    match indices_of(alloc, variables.as_slice(), own)? {
        Some(indices) => once(alloc, indices),
        None => Ok(false),
    }
}

/// Whether the lines of a record are well made, and closed under what it and the earlier records define; whether each
/// variable in them has an index of its own; and whether the expressions of its keywords are well made, and closed under
/// what the earlier records define.
#[tactic(auto, using(crate::proofs::CodeLemmas::each_suits_with, crate::proofs::CodeLemmas::each_suits_alone, crate::proofs::Indices::table_indices))]
pub(crate) fn has_good_code(
    one: &CompiledLibrary,
    own: &NameMap<Label, Option<u64>>,
    top: &Top,
) -> Result<bool, Memory>
    requires own { own.now.entries ≡ with_indices [] one.now.bindings }
    requires top { top.now.own.now ≡ with_labels [] (defined one.now) }
    ensures { IfOk result (λ b. b ≡ has_good_code one.now top.now.earlier.now) }
{
    if !lines_suit(top, one.run.as_slice())? {
        return Ok(false);
    }
    if !is_indexed(top.alloc, one.run.as_slice(), own)? {
        return Ok(false);
    }
    let none = LabelSet::new(top.alloc);
    let before = Top {
        alloc: top.alloc,
        earlier: top.earlier,
        own: &none,
    };
    keywords_suit(&before, one.bindings.as_slice())
}
