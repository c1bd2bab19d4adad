//! Whether core code is well made.

ghost use Rattle.std.specs.Prelude.{◌≡◌, [], ◌&&◌, not, IfOk};
ghost use Rattle.core_language.specs.Labels.{same_label};
ghost use Rattle.core_language.specs.References.{binders, mentions};
ghost use Rattle.law_core.specs.WellMade.{is_well_made};
ghost use Rattle.law_core.specs.Words.{among, each, once};

use crate::labels::LabelSet;
use crate::once::once;
use crate::parts::{NotedParts, gather};
use crate::scan::scan;
use crate::templates::{DepthSet, templates_suit};
use base_data::items::Items;
use base_data::memory::Memory;
use base_data::name::Label;
use core_language::code::Core;
use std::alloc::Global;

fn none_among(labels: &[Label], others: &LabelSet) -> bool
    ensures { result ≡ each (λ l. not (among same_label others.now l)) labels.now }
{
    for label in labels {
        if others.has(label) {
            return false;
        }
    }
    true
}

// Whether none of the labels that core code mentions is one of its pattern variables.
fn is_unmentioned(
    alloc: Global,
    mentioned: &Items<Label>,
    variables: &Items<Label>,
) -> Result<bool, Memory>
    ensures { IfOk result (λ b. b ≡ each (λ l. not (among same_label variables.now l)) mentioned.now) }
{
    let mut set = LabelSet::new(alloc);
    set.add_each(variables.as_slice())?;
    Ok(none_among(mentioned.as_slice(), &set))
}

// Whether no label has two binders in core code, and no pattern variable is mentioned.
fn is_bound_well(alloc: Global, core: &Core, variables: &Items<Label>) -> Result<bool, Memory>
    ensures { IfOk result (λ b. b ≡ (once same_label (binders core.now) && each (λ l. not (among same_label variables.now l)) (mentions core.now))) }
{
    let mut bound = Items::new(alloc);
    let mut mentioned = Items::new(alloc);
    scan(&mut bound, &mut mentioned, core)?;
    if !once(alloc, bound.into_vec())? {
        return Ok(false);
    }
    is_unmentioned(alloc, &mentioned, variables)
}

/// Whether core code that stands under no pattern variables is well made: each expression is of its form, no label has
/// two binders, no two procedures have one number, no pattern variable is referenced or assigned, and each template
/// suits the pattern variables round it.
pub fn is_well_made(alloc: Global, core: &Core) -> Result<bool, Memory>
    ensures { IfOk result (λ b. b ≡ is_well_made [] core.now) }
{
    let mut parts = NotedParts::new(alloc);
    gather(alloc, &mut parts, core)?;
    let NotedParts {
        numbers,
        pattern_variables,
        formed,
        ..
    } = parts;
    if !formed {
        return Ok(false);
    }
    if !once(alloc, numbers.into_vec())? {
        return Ok(false);
    }
    if !is_bound_well(alloc, core, &pattern_variables)? {
        return Ok(false);
    }
    let mut variables = DepthSet::new(alloc);
    templates_suit(&mut variables, core)
}
