//! The core text of a program with its planned libraries.

ghost use Rattle.std.specs.Prelude.{◌≡◌, ◌++◌, OnOk, slice_get, option_map};
ghost use Rattle.std.specs.String.{string_bytes};
ghost use Rattle.base_data.specs.Gives.{Gives};
ghost use Rattle.core_output.specs.CoreText.{lines_text};
ghost use Rattle.core_output.specs.Whole.{named_by, plan_names, record_checked, plan_checked, record_text, plan_text, all_text, core_text};

use crate::check::check_lines;
use crate::names::VariableNames;
use crate::text::put_lines;
use base_data::fault::Stop;
use base_data::memory::Memory;
use core_language::record::CompiledLibrary;
use std::alloc::{AllocError, Global};

fn record_at(records: &[CompiledLibrary], place: usize) -> Option<&CompiledLibrary>
    ensures { option_map (λ r. r.now) result ≡ slice_get records.now place }
{
    if place < records.len() {
        Some(&records[place])
    } else {
        None
    }
}

fn add_record(names: &mut VariableNames, library: Option<&CompiledLibrary>) -> Result<(), Memory>
    ensures { OnOk result (names.new ≡ named_by names.old (option_map (λ r. r.now) library.entry)) }
{
    match library {
        None => Ok(()),
        Some(library) => names.add_all(library.bindings.as_slice()),
    }
}

fn add_plan(
    names: &mut VariableNames,
    records: &[CompiledLibrary],
    plan: &[usize],
) -> Result<(), Memory>
    ensures { OnOk result (names.new ≡ plan_names records.now names.old plan.now) }
{
    for place in plan {
        let library = record_at(records, *place);
        add_record(names, library)?;
    }
    Ok(())
}

fn check_record(alloc: Global, library: Option<&CompiledLibrary>) -> Result<(), Stop>
    ensures { Gives (λ _. tt) result (record_checked (option_map (λ r. r.now) library.entry)) }
{
    match library {
        None => Ok(()),
        Some(library) => check_lines(alloc, library.run.as_slice()),
    }
}

fn check_plan(alloc: Global, records: &[CompiledLibrary], plan: &[usize]) -> Result<(), Stop>
    ensures { Gives (λ _. tt) result (plan_checked records.now plan.now) }
{
    for place in plan {
        let library = record_at(records, *place);
        check_record(alloc, library)?;
    }
    Ok(())
}

fn put_record(
    out: &mut String,
    names: &VariableNames,
    library: Option<&CompiledLibrary>,
) -> Result<(), AllocError>
    ensures { OnOk result (string_bytes out.new ≡ string_bytes out.old ++ record_text names.now (option_map (λ r. r.now) library.entry)) }
{
    match library {
        None => Ok(()),
        Some(library) => put_lines(out, names, library.run.as_slice()),
    }
}

fn put_plan(
    out: &mut String,
    names: &VariableNames,
    records: &[CompiledLibrary],
    plan: &[usize],
) -> Result<(), AllocError>
    ensures { OnOk result (string_bytes out.new ≡ string_bytes out.old ++ plan_text records.now names.now plan.now) }
{
    for place in plan {
        let library = record_at(records, *place);
        put_record(out, names, library)?;
    }
    Ok(())
}

/// Adds the lines of the planned records, and those of the program.
fn put_all(
    out: &mut String,
    names: &VariableNames,
    records: &[CompiledLibrary],
    plan: &[usize],
    program: &CompiledLibrary,
) -> Result<(), Memory>
    ensures { OnOk result (string_bytes out.new ≡ string_bytes out.old ++ (plan_text records.now names.now plan.now ++ lines_text names.now program.now.run)) }
{
    put_plan(out, names, records, plan)?;
    put_lines(out, names, program.run.as_slice())?;
    Ok(())
}

/// The core text of a program, with the records at the places of the plan before it. It stops at the
/// first form of `syntax` or `syntax-case` in the order of the text.
pub fn core_text(
    alloc: Global,
    records: &[CompiledLibrary],
    plan: &[usize],
    program: &CompiledLibrary,
) -> Result<String, Stop>
    ensures { Gives string_bytes result (core_text records.now plan.now program.now) }
{
    check_plan(alloc, records, plan)?;
    check_lines(alloc, program.run.as_slice())?;
    let mut names = VariableNames::new(alloc);
    add_plan(&mut names, records, plan)?;
    names.add_all(program.bindings.as_slice())?;
    let mut out = String::from_str(alloc, "(import (rnrs))\n")?;
    put_all(&mut out, &names, records, plan, program)?;
    Ok(out)
}
