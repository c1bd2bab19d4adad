use base_data::items::Items;
use base_data::library::LibName;
use base_data::memory::Memory;
use base_data::symbol::Symbol;
use core_language::record::CompiledLibrary;
use core_plan::plan::run_plan;
use std::alloc::Global;
use std::fmt::Write;
use std::mem::forget;
use std::process::Abort;
use std::test::Fail;

// Libraries with their references, the references of the program, and the places in the plan.
const PLANS: &str = "a:b b:a c: / a => 0 1
a: / z,a => 0
a:a b: / a,a => 0";

fn library(alloc: Global, name: &str) -> Result<LibName, Memory> {
    let mut parts = Items::new(alloc);
    parts.push(Symbol::new(alloc, name)?)?;
    Ok(LibName::User(parts))
}

// The libraries of these names, parted by commas.
fn libraries(alloc: Global, names: &str) -> Result<Items<LibName>, Memory> {
    let mut libraries = Items::new(alloc);
    for name in names.split(",") {
        if !name.is_empty() {
            libraries.push(library(alloc, name)?)?;
        }
    }
    Ok(libraries)
}

// The record of a library with its references, parted by commas.
fn record(alloc: Global, name: LibName, refs: &str) -> Result<CompiledLibrary, Memory> {
    let path = Symbol::new(alloc, "f")?;
    let refs = libraries(alloc, refs)?;
    Ok(CompiledLibrary {
        path,
        name,
        version: Items::new(alloc),
        exports: Items::new(alloc),
        bindings: Items::new(alloc),
        frames: Items::new(alloc),
        run: Items::new(alloc),
        refs,
    })
}

fn put_record(
    alloc: Global,
    records: &mut Vec<CompiledLibrary>,
    spelt: &str,
) -> Result<(), Memory> {
    let (name, refs) = spelt.split_once(":").unwrap_or((spelt, ""));
    let name = library(alloc, name)?;
    match record(alloc, name, refs) {
        Ok(record) => put(records, record),
        Err(memory) => Err(memory),
    }
}

fn put(records: &mut Vec<CompiledLibrary>, record: CompiledLibrary) -> Result<(), Memory> {
    match records.push(record) {
        Ok(()) => Ok(()),
        Err(refused) => {
            forget(refused);
            Err(Memory)
        }
    }
}

fn put_records(
    alloc: Global,
    records: &mut Vec<CompiledLibrary>,
    libraries: &str,
) -> Result<(), Memory> {
    for spelt in libraries.split(" ") {
        put_record(alloc, records, spelt)?;
    }
    Ok(())
}

// Puts the places of the plan of these libraries.
fn put_plan(
    alloc: Global,
    records: &[CompiledLibrary],
    program: &CompiledLibrary,
    told: &mut String,
) -> Result<(), Fail> {
    for place in &run_plan(alloc, records, program)? {
        if !told.is_empty() {
            told.push_str(" ")?;
        }
        write!(told, "{place}")?;
    }
    Ok(())
}

fn put_plan_for(
    alloc: Global,
    records: &[CompiledLibrary],
    refs: &str,
    told: &mut String,
) -> Result<(), Fail> {
    match record(alloc, LibName::Program, refs) {
        Ok(program) => {
            let put = put_plan(alloc, records, &program, told);
            forget(program);
            put
        }
        Err(memory) => Err(Fail::from(memory)),
    }
}

fn put_plan_of(alloc: Global, libraries: &str, refs: &str, told: &mut String) -> Result<(), Fail> {
    let mut records = Vec::new(alloc);
    let put = match put_records(alloc, &mut records, libraries) {
        Ok(()) => put_plan_for(alloc, records.as_slice(), refs, told),
        Err(memory) => Err(Fail::from(memory)),
    };
    forget(records);
    put
}

// Whether the plan of these libraries for these references has these places.
fn is_planned(alloc: Global, libraries: &str, refs: &str, places: &str) -> Result<bool, Fail> {
    let mut told = String::new(alloc);
    put_plan_of(alloc, libraries, refs, &mut told)?;
    Ok(told.as_str() == places)
}

fn check(rt: &impl Abort, alloc: Global, rows: &str) -> Result<(), Fail> {
    for row in rows.split("\n") {
        let (graph, places) = row.split_once(" => ").ok_or("no plan")?;
        let (libraries, refs) = graph.split_once(" / ").ok_or("no references")?;
        assert!(rt; is_planned(alloc, libraries, refs, places)?, "{row}");
    }
    Ok(())
}

#[test]
fn plans_have_what_chains_of_references_reach(rt: HostRuntime) -> Result<(), Fail> {
    check(&rt, rt.alloc(), PLANS)
}
