//! The labels that a record knows.

ghost use Rattle.std.specs.List.{flat_map};
ghost use Rattle.std.specs.Prelude.{◌≡◌, [], map, IfOk, OnOk, is_some};
ghost use Rattle.load_builtin.specs.Exports.{definition_from, derived_place};
ghost use Rattle.law_core.specs.Follows.{bound_labels, is_given, knows_its_labels};
ghost use Rattle.law_core.specs.Words.{each};
ghost use Rattle.expand_follows.specs.Pieces.{index_of_binding, known_by, with_index, with_indices};

use crate::earlier::NeededEarlier;
use base_data::imported_name::ImportedName;
use base_data::library::LibName;
use base_data::map::{NameMap, new_map};
use base_data::memory::Memory;
use base_data::name::Label;
use base_data::op::NAME_COUNT;
use core_language::binding::Binding;
use core_language::record::CompiledLibrary;
use load_builtin::exports::DERIVED;
use std::alloc::Global;
use stx_tree::frame_row::FrameRow;

// Whether a name is among some definitions.
fn is_among(definitions: &[Option<u16>], number: u16) -> bool
    ensures { result ≡ is_some (definition_from 0 number definitions.now) }
{
    for definition in definitions {
        if *definition == Some(number) {
            return true;
        }
    }
    false
}

// Whether the derived library defines a name.
fn is_derived(number: u16) -> bool
    ensures { result ≡ is_some (derived_place number) }
{
    is_among(&DERIVED, number)
}

fn is_given(label: &Label) -> bool
    ensures { result ≡ is_given label.now }
{
    if *label.0.library != LibName::Core {
        return false;
    }
    if label.0.number >= NAME_COUNT as u64 {
        return false;
    }
    !is_derived(label.0.number as u16)
}

/// The labels of bindings, each with the index of its variable.
pub(crate) fn own_indices(
    alloc: Global,
    bindings: &[(Label, Binding)],
) -> Result<NameMap<Label, Option<u64>>, Memory>
    ensures { IfOk result (λ m. m.entries ≡ with_indices [] bindings.now) }
{
    let mut indices: NameMap<Label, Option<u64>> = new_map(alloc);
    for row in bindings {
        put_index(&mut indices, &row.0, &row.1)?;
    }
    Ok(indices)
}

fn index_of_binding(binding: &Binding) -> Option<u64>
    ensures { result ≡ index_of_binding binding.now }
{
    match binding {
        Binding::Variable(variable) => variable.index,
        Binding::PatternVariable { .. } => None,
        Binding::Macro { .. } => None,
        Binding::Core(_) => None,
        Binding::Primitive(_) => None,
    }
}

// The first binding of a label counts.
fn put_index(
    indices: &mut NameMap<Label, Option<u64>>,
    label: &Label,
    binding: &Binding,
) -> Result<(), Memory>
    ensures { OnOk result (indices.new.entries ≡ with_index indices.old.entries (label.now, binding.now)) }
{
    if indices.get(label).is_some() {
        return Ok(());
    }
    let label = label.share()?;
    let index = index_of_binding(binding);
    indices.insert(label, index)?;
    Ok(())
}

// What the implementation gives is asked first, since most rows are of it, and it takes no table.
fn is_known(own: &NameMap<Label, Option<u64>>, earlier: &NeededEarlier, label: &Label) -> bool
    ensures { result ≡ known_by own.now.entries (flat_map bound_labels earlier.now) label.now }
{
    is_given(label) || (own.get(label).is_some() || earlier.has_bound(label))
}

fn exports_are_known(
    exports: &[ImportedName],
    own: &NameMap<Label, Option<u64>>,
    earlier: &NeededEarlier,
) -> bool
    ensures { result ≡ each (known_by own.now.entries (flat_map bound_labels earlier.now)) (map (λ e. e.label) exports.now) }
{
    for row in exports {
        if !is_known(own, earlier, &row.label) {
            return false;
        }
    }
    true
}

fn rows_are_known(
    rows: &[FrameRow],
    own: &NameMap<Label, Option<u64>>,
    earlier: &NeededEarlier,
) -> bool
    ensures { result ≡ each (known_by own.now.entries (flat_map bound_labels earlier.now)) (map (λ f. f.label) rows.now) }
{
    for row in rows {
        if !is_known(own, earlier, &row.label) {
            return false;
        }
    }
    true
}

/// Whether each label that a record exports, or that its frames give, is bound in it or in an earlier record, or given with
/// the implementation.
#[tactic(auto, using(crate::proofs::KnownLemmas::each_known))]
pub(crate) fn knows_its_labels(
    one: &CompiledLibrary,
    own: &NameMap<Label, Option<u64>>,
    earlier: &NeededEarlier,
) -> bool
    requires { own.now.entries ≡ with_indices [] one.now.bindings }
    ensures { result ≡ knows_its_labels one.now earlier.now }
{
    exports_are_known(one.exports.as_slice(), own, earlier)
        && rows_are_known(one.frames.as_slice(), own, earlier)
}
