use base_data::atom::Atom;
use base_data::fault::BareStop;
use base_data::memory::Memory;
use base_region::region::Region;
use eval_value::cell::{Cell, add_cell};
use eval_value::to_syntax::to_syntax;
use eval_value::value::Value;
use std::alloc::Global;
use std::test::Fail;

/// What reading a value comes to: the size of the tree, the fuel that is left, and the number of the fault.
type ReadOutcome = (u32, u64, u16);

const FUEL_SPENT: ReadOutcome = (0, 0, 38);

const TOO_DEEP: ReadOutcome = (0, 0, 32);

fn outcome(
    alloc: Global,
    cells: &Region<Cell>,
    value: &Value,
    fuel: u64,
) -> Result<ReadOutcome, Memory> {
    match to_syntax(alloc, cells, value, fuel) {
        Ok((tree, left)) => Ok((tree.size(), left, 0)),
        Err(BareStop::Fault(fault)) => Ok((0, 0, fault.kind.number())),
        Err(BareStop::Memory) => Err(Memory),
    }
}

/// So many pairs, each of the one before and 1, or of 1 and the one before.
fn many(alloc: Global, cells: &mut Region<Cell>, count: u64, deep: bool) -> Result<Value, Memory> {
    let mut value = Value::Atom(Atom::Nil);
    for _ in 0..count {
        let one = Value::Atom(Atom::Int(1));
        let cell = if deep {
            Cell::Pair(value, one)
        } else {
            Cell::Pair(one, value)
        };
        value = Value::Pair(add_cell(cells, cell)?);
    }
    Ok(value)
}

fn both_read(
    alloc: Global,
    cells: &Region<Cell>,
    value: &Value,
) -> Result<(ReadOutcome, ReadOutcome), Memory> {
    let enough = outcome(alloc, cells, value, 1_000_000)?;
    let less = outcome(alloc, cells, value, 999_999)?;
    Ok((enough, less))
}

fn many_read_in(
    alloc: Global,
    cells: &mut Region<Cell>,
    deep: bool,
) -> Result<(ReadOutcome, ReadOutcome), Memory> {
    let value = many(alloc, cells, 1_000_000, deep)?;
    both_read(alloc, cells, &value)
}

/// What reading a million pairs comes to with enough fuel, and with one unit less.
fn many_read(alloc: Global, deep: bool) -> Result<(ReadOutcome, ReadOutcome), Memory> {
    let mut cells = Region::new(alloc);
    let level = cells.mark();
    let answers = many_read_in(alloc, &mut cells, deep);
    cells.release(level);
    answers
}

#[test]
fn long_and_deep_values_are_read_without_recursion(rt: HostRuntime) -> Result<(), Fail> {
    let long = many_read(rt.alloc(), false)?;
    assert_eq!(rt; long.0, (1_000_001, 0, 0));
    assert_eq!(rt; long.1, FUEL_SPENT);
    let deep = many_read(rt.alloc(), true)?;
    assert_eq!(rt; deep.0, TOO_DEEP);
    assert_eq!(rt; deep.1, FUEL_SPENT);
    Ok(())
}
