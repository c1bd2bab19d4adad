//! What the records of a run bind and define, in tables.

ghost use Rattle.std.specs.List.{flat_map};
ghost use Rattle.std.specs.Option.{option_copied};
ghost use Rattle.std.specs.Prelude.{◌≡◌, [], ◌∷◌, ◌++◌, length, map, slice_get, List, Some, OnOk};
ghost use Rattle.base_data.specs.Same.{same_library};
ghost use Rattle.core_language.specs.Labels.{same_label};
ghost use Rattle.core_language.specs.declared.record.CompiledLibrary.{CompiledLibrary};
ghost use Rattle.law_core.specs.Follows.{bound_labels, names_of};
ghost use Rattle.law_core.specs.Records.{defined, line_labels};
ghost use Rattle.law_core.specs.Words.{among};
ghost use Rattle.expand_standing.specs.Ready.{needed_records};
ghost use Rattle.expand_follows.specs.Earlier.{ArePlaces, adds, adds_labels, is_needed, mark_at};

use base_data::library::LibName;
use base_data::map::{NameMap, new_map};
use base_data::memory::Memory;
use base_data::name::Label;
use core_language::binding::Binding;
use core_language::record::{CompiledLibrary, Line};
use core_language::share::share_library;
use std::alloc::Global;
use std::marker::Model;

/// For each name the place of the record of a run that has it, and for each label the place of the one that binds it and
/// of the one that defines it. So asking for one costs the same, however many records there are.
#[derive(Drop)]
pub struct Places {
    names: NameMap<LibName, usize>,
    bound: NameMap<Label, usize>,
    defined: NameMap<Label, usize>,
}

// Notes the place of a label, which has none yet.
fn put_label(labels: &mut NameMap<Label, usize>, label: &Label, place: usize) -> Result<(), Memory>
    ensures { OnOk result (adds_labels labels.old.entries (label.now ∷ []) place ≡ Some labels.new.entries) }
{
    if labels.get(label).is_some() {
        return Err(Memory);
    }
    let label = label.share()?;
    labels.insert(label, place)?;
    Ok(())
}

fn put_bound(
    labels: &mut NameMap<Label, usize>,
    bindings: &[(Label, Binding)],
    place: usize,
) -> Result<(), Memory>
    ensures { OnOk result (adds_labels labels.old.entries (map (λ b. b.0) bindings.now) place ≡ Some labels.new.entries) }
{
    for row in bindings {
        put_label(labels, &row.0, place)?;
    }
    Ok(())
}

fn put_line(labels: &mut NameMap<Label, usize>, line: &Line, place: usize) -> Result<(), Memory>
    ensures { OnOk result (adds_labels labels.old.entries (line_labels line.now) place ≡ Some labels.new.entries) }
{
    match line {
        Line::Define(label, _) => put_label(labels, label, place),
        Line::Expr(_) => Ok(()),
    }
}

fn put_defined(labels: &mut NameMap<Label, usize>, run: &[Line], place: usize) -> Result<(), Memory>
    ensures { OnOk result (adds_labels labels.old.entries (flat_map line_labels run.now) place ≡ Some labels.new.entries) }
{
    for line in run {
        put_line(labels, line, place)?;
    }
    Ok(())
}

fn put_name(
    alloc: Global,
    names: &mut NameMap<LibName, usize>,
    name: &LibName,
    place: usize,
) -> Result<(), Memory>
    ensures { OnOk result (adds same_library names.old.entries (name.now ∷ []) place ≡ Some names.new.entries) }
{
    if names.get(name).is_some() {
        return Err(Memory);
    }
    let name = share_library(alloc, name)?;
    names.insert(name, place)?;
    Ok(())
}

impl Places {
    /// The places in no records. It takes no memory.
    #[tactic(auto, using(crate::proofs::Tables::no_places))]
    pub fn new(alloc: Global) -> Places
        ensures { ArePlaces result [] }
    {
        Places {
            names: new_map(alloc),
            bound: new_map(alloc),
            defined: new_map(alloc),
        }
    }

    /// Notes what a record has that stands at this place, behind the others. Records of a run share no name and no label; of
    /// two that did, the second would be refused with `Memory`.
    pub fn push(&mut self, alloc: Global, one: &CompiledLibrary, place: usize) -> Result<(), Memory>
        ensures { OnOk result ((rs : List CompiledLibrary) → ArePlaces self.old rs → place ≡ length rs → ArePlaces self.new (rs ++ one.now ∷ [])) }
    {
        put_name(alloc, &mut self.names, &one.name, place)?;
        put_bound(&mut self.bound, one.bindings.as_slice(), place)?;
        put_defined(&mut self.defined, one.run.as_slice(), place)?;
        Ok(())
    }
}

/// The records that a library needs, of those of a run.
#[derive(Drop)]
pub struct NeededEarlier<'a> {
    /// All records of the run.
    records: &'a [CompiledLibrary],
    places: &'a Places,
    /// A mark for each place. Those beyond the marks are not needed.
    marks: &'a [bool],
}

impl<'a> Model for NeededEarlier<'a> {
    ghost use Rattle.std.specs.Prelude.{List};
    ghost use Rattle.std.specs.Coded.{coded_list};
    ghost use Rattle.core_language.specs.declared.record.CompiledLibrary.{CompiledLibrary};
    ghost use Rattle.core_language.specs.contracts.record.CompiledLibrary as of_record;
    ghost use Rattle.expand_standing.specs.Ready.{needed_records};
    ghost use Rattle.expand_follows.specs.Earlier.{ArePlaces};

    ghost Value = { List CompiledLibrary };

    ghost coded = { coded_list of_record.the_row.coded };

    ghost view = { λ e. needed_records e.marks.now e.records.now };

    ghost invariant = { λ e. ArePlaces e.places.now e.records.now };
}

fn is_marked(marks: &[bool], place: usize) -> bool
    ensures { result ≡ mark_at (slice_get marks.now place) }
{
    if place < marks.len() {
        marks[place]
    } else {
        false
    }
}

// Whether a place is that of a record that is needed.
fn is_needed(place: Option<&usize>, marks: &[bool]) -> bool
    ensures { result ≡ is_needed marks.now (option_copied place.entry) }
{
    match place {
        Some(place) => is_marked(marks, *place),
        None => false,
    }
}

impl<'a> NeededEarlier<'a> {
    /// The records of a run that are marked, asked through the places of all of them.
    pub fn new(
        records: &'a [CompiledLibrary],
        places: &'a Places,
        marks: &'a [bool],
    ) -> NeededEarlier<'a>
        requires { ArePlaces places.now records.now }
        ensures { result ≡ needed_records marks.now records.now }
    {
        NeededEarlier {
            records,
            places,
            marks,
        }
    }

    /// Whether a needed record has this name.
    pub(crate) fn has_name(&self, name: &LibName) -> bool
        ensures { result ≡ among same_library (names_of self.now) name.now }
    {
        is_needed(self.places.names.get(name), self.marks)
    }

    /// Whether a needed record binds this label.
    pub(crate) fn has_bound(&self, label: &Label) -> bool
        ensures { result ≡ among same_label (flat_map bound_labels self.now) label.now }
    {
        is_needed(self.places.bound.get(label), self.marks)
    }

    /// Whether a needed record defines this label.
    pub(crate) fn has_defined(&self, label: &Label) -> bool
        ensures { result ≡ among same_label (flat_map defined self.now) label.now }
    {
        is_needed(self.places.defined.get(label), self.marks)
    }
}
