use base_data::fault::BareStop;
use base_data::memory::Memory;
use eval_ops::basics::basics;
use eval_ops::characters::characters;
use eval_ops::data::{data, trees};
use eval_ops::equality::equality;
use eval_ops::lists::{appended, gathered, indexed, lists};
use eval_ops::numbers::numbers;
use eval_ops::parts::{parts, unpacked};
use eval_ops::raised::raising;
use eval_ops::strings::{number_strings, string_comparisons, strings};
use eval_ops::syntax::{identifiers, temporaries};
use eval_prims::made::PrimResult;
use eval_prims::prim_call::PrimCall;
use eval_prims::rows::{
    APPENDED, BASICS, CHARACTERS, DATA, EQUALITY, GATHERED, IDENTIFIERS, INDEXED, LISTS,
    NUMBER_STRINGS, NUMBERS, PARTS, RAISING, STRING_COMPARISONS, STRINGS, TEMPORARIES, TREES,
    UNPACKED,
};
use eval_prims::table::{PrimRow, PrimTable};
use std::alloc::Global;
use stx_scope::scope::Frames;

fn first_rows(alloc: Global, rows: &mut Vec<PrimRow>) -> Result<(), Memory> {
    rows.push(PrimRow::new(BASICS, Box::new(alloc, basics)?))?;
    rows.push(PrimRow::new(NUMBERS, Box::new(alloc, numbers)?))?;
    rows.push(PrimRow::new(CHARACTERS, Box::new(alloc, characters)?))?;
    rows.push(PrimRow::new(PARTS, Box::new(alloc, parts)?))?;
    rows.push(PrimRow::new(GATHERED, Box::new(alloc, gathered)?))?;
    rows.push(PrimRow::new(LISTS, Box::new(alloc, lists)?))?;
    Ok(())
}

fn middle_rows(alloc: Global, rows: &mut Vec<PrimRow>) -> Result<(), Memory> {
    rows.push(PrimRow::new(APPENDED, Box::new(alloc, appended)?))?;
    rows.push(PrimRow::new(INDEXED, Box::new(alloc, indexed)?))?;
    rows.push(PrimRow::new(UNPACKED, Box::new(alloc, unpacked)?))?;
    rows.push(PrimRow::new(STRINGS, Box::new(alloc, strings)?))?;
    rows.push(PrimRow::new(NUMBER_STRINGS, Box::new(alloc, number_strings)?))?;
    rows.push(PrimRow::new(STRING_COMPARISONS, Box::new(alloc, string_comparisons)?))?;
    Ok(())
}

fn last_rows(alloc: Global, rows: &mut Vec<PrimRow>) -> Result<(), Memory> {
    rows.push(PrimRow::new(EQUALITY, Box::new(alloc, equality)?))?;
    rows.push(PrimRow::new(IDENTIFIERS, Box::new(alloc, identifiers)?))?;
    rows.push(PrimRow::new(DATA, Box::new(alloc, data)?))?;
    rows.push(PrimRow::new(TREES, Box::new(alloc, trees)?))?;
    rows.push(PrimRow::new(TEMPORARIES, Box::new(alloc, temporaries)?))?;
    rows.push(PrimRow::new(RAISING, Box::new(alloc, raising)?))?;
    Ok(())
}

fn put_rows(alloc: Global, rows: &mut Vec<PrimRow>) -> Result<(), Memory> {
    first_rows(alloc, rows)?;
    middle_rows(alloc, rows)?;
    last_rows(alloc, rows)
}

/// All rows, in order, each with its function.
pub fn full_rows(alloc: Global) -> Result<Vec<PrimRow>, Memory> {
    let mut rows = Vec::new(alloc);
    match put_rows(alloc, &mut rows) {
        Ok(()) => Ok(rows),
        Err(memory) => Err(memory),
    }
}

/// The table of these rows, where they are in order.
pub fn full_table(alloc: Global) -> Result<Option<PrimTable>, Memory> {
    let rows = full_rows(alloc)?;
    Ok(PrimTable::fill(rows).ok())
}

/// A call, of whose answer nothing is promised here: its definition would be carried along.
pub fn called(alloc: Global, table: &PrimTable, call: &PrimCall) -> Result<PrimResult, BareStop> {
    let frames = Frames::new(alloc);
    table.call(alloc, call, &frames)
}
