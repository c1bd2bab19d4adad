//! The places of the records that a program needs.

ghost use Rattle.std.specs.Prelude.{◌≡◌, [], IfOk, OnOk, option_map};
ghost use Rattle.base_data.specs.declared.library.LibName.{LibName};
ghost use Rattle.core_plan.specs.Places.{place_of, place_in};
ghost use Rattle.core_plan.specs.Plan.{IsPlan};
ghost use Rattle.core_plan.specs.Work.{work_of, no_marks, reach, reach_there, reach_each, follow, marked_from};

use base_data::library::LibName;
use base_data::memory::Memory;
use core_language::record::CompiledLibrary;
use std::alloc::Global;
use std::collections::BTreeMap;

// What is known of a plan: which records are reached, and those whose references wait.
#[derive(Drop)]
struct PlanProgress {
    marks: Vec<bool>,
    waiting: Vec<usize>,
}

/// The places of the records that the program needs when it runs, rising.
pub fn run_plan<'a>(
    alloc: Global,
    records: &'a [CompiledLibrary],
    program: &'a CompiledLibrary,
) -> Result<Vec<usize>, Memory>
    ensures { IfOk result (λ plan. IsPlan records.now program.now plan.items) }
{
    let places = places(alloc, records)?;
    let mut progress = begun(alloc, records)?;
    reach_each(records, &places, program.refs.as_slice(), &mut progress)?;
    while let Some(place) = progress.waiting.pop() {
        follow(records, &places, place, &mut progress)?;
    }
    marked(alloc, progress.marks.as_slice())
}

// Where each library's record stands: the first of that name.
fn places<'a>(
    alloc: Global,
    records: &'a [CompiledLibrary],
) -> Result<BTreeMap<&'a LibName, usize>, Memory>
    ensures { IfOk result (λ m. (name : LibName) → place_in m.entries name ≡ place_of records.now name) }
{
    let mut places = BTreeMap::new(alloc);
    let mut left = records.len();
    while left > 0 {
        left -= 1;
        places.insert(&records[left].name, left)?;
    }
    Ok(places)
}

// Nothing is reached.
fn begun(alloc: Global, records: &[CompiledLibrary]) -> Result<PlanProgress, Memory>
    ensures { IfOk result (λ p. work_of p ≡ record { marks = no_marks records.now; waiting = [] }) }
{
    let marks = vec![in alloc; false; records.len()]?;
    let waiting = Vec::new(alloc);
    Ok(PlanProgress { marks, waiting })
}

// A record that is reached for the first time is marked, and its references wait.
#[tactic(auto, unfolding(crate::specs::Work::reach))]
fn reach(place: usize, progress: &mut PlanProgress) -> Result<(), Memory>
    ensures { OnOk result (work_of progress.new ≡ reach place (work_of progress.old)) }
{
    if place >= progress.marks.len() {
        return Ok(());
    }
    if progress.marks[place] {
        return Ok(());
    }
    progress.marks[place] = true;
    progress.waiting.push(place)?;
    Ok(())
}

fn reach_there(place: Option<&usize>, progress: &mut PlanProgress) -> Result<(), Memory>
    ensures { OnOk result (work_of progress.new ≡ reach_there (option_map (λ p. p.now) place.entry) (work_of progress.old)) }
{
    match place {
        Some(place) => reach(*place, progress),
        None => Ok(()),
    }
}

// The records of these libraries, one after another.
#[tactic(auto, using(crate::proofs::WorkLemmas::each_on, crate::proofs::WorkLemmas::each_end))]
fn reach_each<'a>(
    records: &'a [CompiledLibrary],
    places: &BTreeMap<&'a LibName, usize>,
    names: &'a [LibName],
    progress: &mut PlanProgress,
) -> Result<(), Memory>
    requires { (name : LibName) → place_in places.now.entries name ≡ place_of records.now name }
    ensures { OnOk result (work_of progress.new ≡ reach_each records.now names.now (work_of progress.old)) }
{
    for name in names {
        reach_there(places.get(&name), progress)?;
    }
    Ok(())
}

// What the record at a place refers to.
#[tactic(auto, unfolding(crate::specs::Work::follow))]
fn follow<'a>(
    records: &'a [CompiledLibrary],
    places: &BTreeMap<&'a LibName, usize>,
    place: usize,
    progress: &mut PlanProgress,
) -> Result<(), Memory>
    requires { (name : LibName) → place_in places.now.entries name ≡ place_of records.now name }
    ensures { OnOk result (work_of progress.new ≡ follow records.now place (work_of progress.old)) }
{
    match records.get(place) {
        Some(record) => reach_each(records, places, record.refs.as_slice(), progress),
        None => Ok(()),
    }
}

// The places that are marked.
#[tactic(auto, using(crate::proofs::MarkLemmas::marked_yes, crate::proofs::MarkLemmas::marked_no, crate::proofs::MarkLemmas::marked_end))]
fn marked(alloc: Global, marks: &[bool]) -> Result<Vec<usize>, Memory>
    ensures { IfOk result (λ plan. plan.items ≡ marked_from 0 marks.now) }
{
    let mut plan = Vec::new(alloc);
    for (place, mark) in marks.iter().enumerate() {
        if *mark {
            plan.push(place)?;
        }
    }
    Ok(plan)
}
