//! The name of a record, and what it names.

ghost use Rattle.std.specs.List.{flat_map};
ghost use Rattle.std.specs.Option.{option_copied};
ghost use Rattle.std.specs.Prelude.{◌≡◌, ◌++◌, ◌∷◌, [], ◌&&◌, map, IfOk, OnOk};
ghost use Rattle.core_language.specs.References.{binders, mentions};
ghost use Rattle.base_data.specs.Same.{same_library};
ghost use Rattle.core_language.specs.Labels.{same_label};
ghost use Rattle.law_core.specs.Follows.{all_binders, all_numbers, bound_labels, export_names, has_new_name, keyword_of, names_its_own};
ghost use Rattle.law_core.specs.Parts.{parts};
ghost use Rattle.law_core.specs.Records.{line_binders, line_core, same_text};
ghost use Rattle.law_core.specs.Words.{each, once};
ghost use Rattle.core_well_made.specs.Parts.{noted_all};
ghost use Rattle.expand_follows.specs.Pieces.{all_once, all_own, binders_in, expand_transformer_in, mentions_in, parts_in};

use crate::earlier::NeededEarlier;
use crate::keys::rows_once;
use base_data::imported_name::ImportedName;
use base_data::items::Items;
use base_data::library::LibName;
use base_data::memory::Memory;
use base_data::name::{CodeNo, Label};
use base_data::symbol::Symbol;
use core_language::binding::Binding;
use core_language::code::Core;
use core_language::record::{CompiledLibrary, Line};
use core_well_made::once::once;
use core_well_made::parts::{NotedParts, gather};
use core_well_made::scan::{add, scan};
use std::alloc::Global;
use stx_tree::frame_row::FrameRow;

/// The core code of a line.
pub(crate) fn line_core(line: &Line) -> &Core
    ensures { result.now ≡ line_core line.now }
{
    match line {
        Line::Define(_, core) => core,
        Line::Expr(core) => core,
    }
}

/// The expression of a keyword, where a binding is one.
pub(crate) fn expand_transformer_in(binding: &Binding) -> Option<&Core>
    ensures { option_copied result ≡ expand_transformer_in binding.now }
{
    match binding {
        Binding::Macro { expression, .. } => match expression {
            Some(expression) => Some(expression.code()),
            None => None,
        },
        Binding::Variable(_) => None,
        Binding::PatternVariable { .. } => None,
        Binding::Core(_) => None,
        Binding::Primitive(_) => None,
    }
}

/// Adds the labels that a line binds, with the one that it defines, and the labels that it mentions.
#[tactic(auto, using(core_well_made::proofs::Lists::joined))]
fn scan_line(
    bound: &mut Items<Label>,
    mentioned: &mut Items<Label>,
    line: &Line,
) -> Result<(), Memory>
    ensures bound { OnOk result (bound.new ≡ bound.old ++ line_binders line.now) }
    ensures mentioned { OnOk result (mentioned.new ≡ mentioned.old ++ mentions (line_core line.now)) }
{
    match line {
        Line::Define(label, core) => {
            add(bound, label)?;
            scan(bound, mentioned, core)
        }
        Line::Expr(core) => scan(bound, mentioned, core),
    }
}

fn scan_keyword(
    bound: &mut Items<Label>,
    mentioned: &mut Items<Label>,
    binding: &Binding,
) -> Result<(), Memory>
    ensures bound { OnOk result (bound.new ≡ bound.old ++ binders_in (expand_transformer_in binding.now)) }
    ensures mentioned { OnOk result (mentioned.new ≡ mentioned.old ++ mentions_in (expand_transformer_in binding.now)) }
{
    match expand_transformer_in(binding) {
        Some(core) => scan(bound, mentioned, core),
        None => Ok(()),
    }
}

/// Adds the labels that lines bind or define, and those that they mention.
#[tactic(auto, using(core_well_made::proofs::Lists::joined))]
pub(crate) fn scan_lines(
    bound: &mut Items<Label>,
    mentioned: &mut Items<Label>,
    lines: &[Line],
) -> Result<(), Memory>
    ensures bound { OnOk result (bound.new ≡ bound.old ++ flat_map line_binders lines.now) }
    ensures mentioned { OnOk result (mentioned.new ≡ mentioned.old ++ flat_map mentions (map line_core lines.now)) }
{
    for line in lines {
        scan_line(bound, mentioned, line)?;
    }
    Ok(())
}

#[tactic(auto, using(core_well_made::proofs::Lists::joined, crate::proofs::CodeLemmas::keyword_binders_more))]
fn scan_keywords(
    bound: &mut Items<Label>,
    mentioned: &mut Items<Label>,
    bindings: &[(Label, Binding)],
) -> Result<(), Memory>
    ensures bound { OnOk result (bound.new ≡ bound.old ++ flat_map binders (flat_map keyword_of bindings.now)) }
{
    for row in bindings {
        scan_keyword(bound, mentioned, &row.1)?;
    }
    Ok(())
}

// All that is bound in the code of a record.
fn all_binders(alloc: Global, one: &CompiledLibrary) -> Result<Items<Label>, Memory>
    ensures { IfOk result (λ ls. ls ≡ all_binders one.now) }
{
    let mut bound = Items::new(alloc);
    let mut mentioned = Items::new(alloc);
    scan_lines(&mut bound, &mut mentioned, one.run.as_slice())?;
    scan_keywords(&mut bound, &mut mentioned, one.bindings.as_slice())?;
    Ok(bound)
}

fn gather_keyword(alloc: Global, all: &mut NotedParts, binding: &Binding) -> Result<(), Memory>
    ensures { OnOk result (all.new ≡ noted_all all.old (parts_in (expand_transformer_in binding.now))) }
{
    match expand_transformer_in(binding) {
        Some(core) => gather(alloc, all, core),
        None => Ok(()),
    }
}

#[tactic(auto, using(core_well_made::proofs::Lists::noted_joined))]
fn gather_lines(alloc: Global, all: &mut NotedParts, lines: &[Line]) -> Result<(), Memory>
    ensures { OnOk result (all.new ≡ noted_all all.old (flat_map parts (map line_core lines.now))) }
{
    for line in lines {
        gather(alloc, all, line_core(line))?;
    }
    Ok(())
}

#[tactic(auto, using(core_well_made::proofs::Lists::noted_joined, crate::proofs::CodeLemmas::keyword_parts_more))]
fn gather_keywords(
    alloc: Global,
    all: &mut NotedParts,
    bindings: &[(Label, Binding)],
) -> Result<(), Memory>
    ensures { OnOk result (all.new ≡ noted_all all.old (flat_map parts (flat_map keyword_of bindings.now))) }
{
    for row in bindings {
        gather_keyword(alloc, all, &row.1)?;
    }
    Ok(())
}

// The numbers of all its codes.
#[tactic(auto, using(core_well_made::proofs::Noted::numbers_of))]
fn all_numbers(alloc: Global, one: &CompiledLibrary) -> Result<Items<CodeNo>, Memory>
    ensures { IfOk result (λ ns. ns ≡ all_numbers one.now) }
{
    let mut all = NotedParts::new(alloc);
    gather_lines(alloc, &mut all, one.run.as_slice())?;
    gather_keywords(alloc, &mut all, one.bindings.as_slice())?;
    let NotedParts { numbers, .. } = all;
    Ok(numbers)
}

// ---- whose names they are

fn are_own_labels(name: &LibName, labels: &[Label]) -> bool
    ensures { result ≡ each (λ l. same_library l.0.library name.now) labels.now }
{
    for label in labels {
        if *label.0.library != *name {
            return false;
        }
    }
    true
}

fn are_own_bindings(name: &LibName, bindings: &[(Label, Binding)]) -> bool
    ensures { result ≡ each (λ l. same_library l.0.library name.now) (map (λ b. b.0) bindings.now) }
{
    for row in bindings {
        if *row.0.0.library != *name {
            return false;
        }
    }
    true
}

fn are_own_numbers(name: &LibName, numbers: &[CodeNo]) -> bool
    ensures { result ≡ each (λ n. same_library n.0.library name.now) numbers.now }
{
    for number in numbers {
        if *number.0.library != *name {
            return false;
        }
    }
    true
}

fn are_own_rows(name: &LibName, rows: &[FrameRow]) -> bool
    ensures { result ≡ each (λ f. same_library f.frame.0.library name.now) rows.now }
{
    for row in rows {
        if *row.frame.0.library != *name {
            return false;
        }
    }
    true
}

// ---- what stands once

fn add_name(names: &mut Items<Symbol>, name: &Symbol) -> Result<(), Memory>
    ensures { OnOk result (names.new ≡ names.old ++ name.now ∷ []) }
{
    let name = name.share()?;
    names.push(name)
}

fn names_of_exports(alloc: Global, exports: &[ImportedName]) -> Result<Items<Symbol>, Memory>
    ensures { IfOk result (λ ns. ns ≡ map (λ e. e.name) exports.now) }
{
    let mut names = Items::new(alloc);
    for row in exports {
        add_name(&mut names, &row.name)?;
    }
    Ok(names)
}

fn labels_of_bindings(alloc: Global, bindings: &[(Label, Binding)]) -> Result<Items<Label>, Memory>
    ensures { IfOk result (λ ls. ls ≡ map (λ b. b.0) bindings.now) }
{
    let mut labels = Items::new(alloc);
    for row in bindings {
        add(&mut labels, &row.0)?;
    }
    Ok(labels)
}

fn exports_once(alloc: Global, one: &CompiledLibrary) -> Result<bool, Memory>
    ensures { IfOk result (λ b. b ≡ once same_text (export_names one.now)) }
{
    let names = names_of_exports(alloc, one.exports.as_slice())?;
    once(alloc, names.into_vec())
}

fn bindings_once(alloc: Global, one: &CompiledLibrary) -> Result<bool, Memory>
    ensures { IfOk result (λ b. b ≡ once same_label (bound_labels one.now)) }
{
    let labels = labels_of_bindings(alloc, one.bindings.as_slice())?;
    once(alloc, labels.into_vec())
}

/// Whether the name of a record is new: no earlier record has it, and it is neither that of the core forms nor that of the
/// prelude. No external name stands twice among its exports.
pub(crate) fn has_new_name(
    alloc: Global,
    one: &CompiledLibrary,
    earlier: &NeededEarlier,
) -> Result<bool, Memory>
    ensures { IfOk result (λ b. b ≡ has_new_name one.now earlier.now) }
{
    if earlier.has_name(&one.name) {
        return Ok(false);
    }
    if one.name == LibName::Core || one.name == LibName::Prelude {
        return Ok(false);
    }
    exports_once(alloc, one)
}

// Whether all that it binds, its codes and the frames of its rows are named by its own library.
fn are_own(one: &CompiledLibrary, bound: &[Label], numbers: &[CodeNo]) -> bool
    requires bound { bound.now ≡ all_binders one.now }
    requires numbers { numbers.now ≡ all_numbers one.now }
    ensures { result ≡ all_own one.now }
{
    are_own_bindings(&one.name, one.bindings.as_slice())
        && (are_own_labels(&one.name, bound)
            && (are_own_numbers(&one.name, numbers)
                && are_own_rows(&one.name, one.frames.as_slice())))
}

// Whether each of them stands once.
fn stand_once(
    alloc: Global,
    one: &CompiledLibrary,
    bound: Items<Label>,
    numbers: Items<CodeNo>,
) -> Result<bool, Memory>
    requires bound { bound ≡ all_binders one.now }
    requires numbers { numbers ≡ all_numbers one.now }
    ensures { IfOk result (λ b. b ≡ all_once one.now) }
{
    if !bindings_once(alloc, one)? {
        return Ok(false);
    }
    if !once(alloc, bound.into_vec())? {
        return Ok(false);
    }
    if !once(alloc, numbers.into_vec())? {
        return Ok(false);
    }
    rows_once(alloc, one.frames.as_slice())
}

/// Whether a record names its own: all that it binds, its codes, and the frames of its rows are named by its library, and
/// each stands once.
#[tactic(auto, using(crate::proofs::Own::names_its_own_by))]
pub(crate) fn names_its_own(alloc: Global, one: &CompiledLibrary) -> Result<bool, Memory>
    ensures { IfOk result (λ b. b ≡ names_its_own one.now) }
{
    let bound = all_binders(alloc, one)?;
    let numbers = all_numbers(alloc, one)?;
    if !are_own(one, bound.as_slice(), numbers.as_slice()) {
        return Ok(false);
    }
    stand_once(alloc, one, bound, numbers)
}
