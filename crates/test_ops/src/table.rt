use crate::calls::{called, full_rows, full_table};
use base_data::atom::Atom;
use base_data::fault::BareStop;
use base_data::memory::Memory;
use base_data::op::{Op, names};
use base_region::region::Region;
use eval_prims::made::PrimResult;
use eval_prims::prim_call::PrimCall;
use eval_prims::table::{PrimRow, PrimTable};
use eval_value::cell::Cell;
use eval_value::value::Value;
use std::alloc::Global;
use std::process::Abort;
use std::test::Fail;

/// The place at which rows are refused, and how many rows come back.
fn refused(rows: Vec<PrimRow>) -> Option<(usize, usize)> {
    match PrimTable::fill(rows) {
        Ok(_) => None,
        Err((place, rows)) => Some((place, rows.len())),
    }
}

fn swap_first(rows: &mut Vec<PrimRow>) {
    if rows.len() >= 2 {
        rows.swap(0, 1);
    }
}

#[test]
fn rows_out_of_order_are_refused(rt: HostRuntime) -> Result<(), Fail> {
    let mut rows = full_rows(rt.alloc())?;
    swap_first(&mut rows);
    assert!(rt; refused(rows) == Some((0, 18)));
    Ok(())
}

#[test]
fn missing_rows_are_refused(rt: HostRuntime) -> Result<(), Fail> {
    let mut rows = full_rows(rt.alloc())?;
    let _ = rows.pop();
    assert!(rt; refused(rows) == Some((17, 17)));
    Ok(())
}

/// What a call costs: its op, how many arguments it has, the limit and the cost.
#[derive(Clone, Copy)]
struct Price {
    op: u16,
    count: u64,
    limit: u64,
    cost: u64,
}

/// `list`, `+`, `car`, `div` with a wrong number of arguments, and an op without a row.
const PRICES: [Price; 9] = [
    Price {
        op: names::LIST,
        count: 3,
        limit: 10,
        cost: 3,
    },
    Price {
        op: names::LIST,
        count: 3,
        limit: 2,
        cost: 3,
    },
    Price {
        op: names::PLUS,
        count: 5,
        limit: 10,
        cost: 3,
    },
    Price {
        op: names::PLUS,
        count: 5,
        limit: 2,
        cost: 3,
    },
    Price {
        op: names::PLUS,
        count: 5,
        limit: 1,
        cost: 2,
    },
    Price {
        op: names::PLUS,
        count: 0,
        limit: 10,
        cost: 0,
    },
    Price {
        op: names::CAR,
        count: 3,
        limit: 10,
        cost: 0,
    },
    Price {
        op: names::DIV,
        count: 4,
        limit: 10,
        cost: 0,
    },
    Price {
        op: names::PARENT_RTD,
        count: 4,
        limit: 10,
        cost: 0,
    },
];

fn ones(alloc: Global, count: u64) -> Result<Vec<Value>, Memory> {
    let mut values = Vec::new(alloc);
    for _ in 0..count {
        values.push(Value::Atom(Atom::Int(1)))?;
    }
    Ok(values)
}

fn price_of(alloc: Global, table: &PrimTable, price: Price) -> Result<u64, Memory> {
    if price.limit == u64::MAX {
        return Ok(0);
    }
    let args = ones(alloc, price.count)?;
    let cells: Region<Cell> = Region::new(alloc);
    let call = PrimCall {
        op: Op(price.op),
        args: &args,
        cells: &cells,
    };
    table.cost(alloc, &call, price.limit)
}

fn check_prices(
    rt: &impl Abort,
    alloc: Global,
    table: &PrimTable,
    rows: &[Price],
) -> Result<(), Memory> {
    for row in rows {
        assert_eq!(rt; price_of(alloc, table, *row)?, row.cost);
    }
    Ok(())
}

/// Those that cost nothing: the rows of `cons`, `string-ref`, `number->string`, `identifier?` and `error`.
const FREE: [u16; 57] = [
    44, 47, 51, 52, 53, 54, 55, 56, 57, 58, 59, 60, 61, 62, 63, 64, 65, 66, 67, 68, 69, 70, 71, 72,
    73, 74, 75, 76, 77, 78, 79, 80, 88, 90, 98, 100, 101, 118, 140, 141, 142, 143, 146, 148, 166,
    167, 173, 177, 185, 187, 189, 215, 218, 219, 220, 228, 230,
];

/// Those that cost their arguments above two: of the rows of `+` and `char=?` those that take five.
const COUNTED: [u16; 17] = [
    29, 30, 31, 33, 34, 35, 36, 37, 46, 83, 84, 85, 86, 87, 134, 135, 176,
];

/// Those of the same rows that don't take five arguments: a wrong count costs nothing.
const FEWER: [u16; 12] = [38, 82, 93, 95, 102, 116, 136, 137, 139, 145, 147, 190];

/// Whether a call of each of these ops with five arguments has this cost.
fn each_costs(alloc: Global, table: &PrimTable, ops: &[u16], cost: u64) -> Result<bool, Memory> {
    for op in ops {
        let price = Price {
            op: *op,
            count: 5,
            limit: 10,
            cost,
        };
        if price_of(alloc, table, price)? != cost {
            return Ok(false);
        }
    }
    Ok(true)
}

fn check_ops(rt: &impl Abort, alloc: Global, table: &PrimTable) -> Result<(), Memory> {
    assert!(rt; each_costs(alloc, table, &FREE, 0)?);
    assert!(rt; each_costs(alloc, table, &COUNTED, 3)?);
    assert!(rt; each_costs(alloc, table, &FEWER, 0)?);
    Ok(())
}

/// A call of `list-tail` on the empty list: its op, and how much is to be taken off.
#[derive(Clone, Copy)]
struct TailCall {
    op: u16,
    number: i128,
}

const TAIL: TailCall = TailCall {
    op: names::LIST_TAIL,
    number: 2_000_000,
};

/// More than any limit.
const LONGEST_TAIL: TailCall = TailCall {
    op: names::LIST_TAIL,
    number: 99_999_999_999_999_999_999_999,
};

fn tail_arguments(alloc: Global, tail: TailCall) -> Result<Vec<Value>, Memory> {
    let mut args = Vec::new(alloc);
    args.push(Value::Atom(Atom::Nil))?;
    args.push(Value::Atom(Atom::Int(tail.number)))?;
    Ok(args)
}

/// What such a call costs, where the limit is 1,000,000,000.
fn tail_cost(alloc: Global, table: &PrimTable, tail: TailCall) -> Result<u64, Memory> {
    let args = tail_arguments(alloc, tail)?;
    let cells: Region<Cell> = Region::new(alloc);
    let call = PrimCall {
        op: Op(tail.op),
        args: &args,
        cells: &cells,
    };
    table.cost(alloc, &call, 1_000_000_000)
}

fn is_refused(outcome: &Result<PrimResult, BareStop>) -> bool {
    match outcome {
        Err(BareStop::Fault(fault)) => fault.kind.name() == "PrimFault",
        _ => false,
    }
}

/// Whether such a call is refused.
fn tail_is_refused(alloc: Global, table: &PrimTable, tail: TailCall) -> Result<bool, Memory> {
    let args = tail_arguments(alloc, tail)?;
    let cells: Region<Cell> = Region::new(alloc);
    let call = PrimCall {
        op: Op(tail.op),
        args: &args,
        cells: &cells,
    };
    let outcome = called(alloc, table, &call);
    Ok(is_refused(&outcome))
}

/// `list-tail` costs what it is to take off, also where the list has less, and is refused then.
fn check_tails(rt: &impl Abort, alloc: Global, table: &PrimTable) -> Result<(), Memory> {
    assert_eq!(rt; tail_cost(alloc, table, TAIL)?, 2_000_000);
    assert_eq!(rt; tail_cost(alloc, table, LONGEST_TAIL)?, 1_000_000_001);
    assert!(rt; tail_is_refused(alloc, table, LONGEST_TAIL)?);
    Ok(())
}

fn check_table(rt: &impl Abort, alloc: Global, table: &PrimTable) -> Result<(), Memory> {
    check_prices(rt, alloc, table, &PRICES)?;
    check_ops(rt, alloc, table)?;
    check_tails(rt, alloc, table)
}

fn told(checked: Result<(), Memory>) -> Result<(), Fail> {
    Ok(checked?)
}

// (the table is owned where no call can stop: each way out that drops it costs the proof much)
fn check(rt: &impl Abort, alloc: Global) -> Result<(), Fail> {
    match full_table(alloc)? {
        Some(table) => told(check_table(rt, alloc, &table)),
        None => Err("rows in order are refused".into()),
    }
}

#[test]
fn calls_cost_what_their_rows_say_up_to_the_limit(rt: HostRuntime) -> Result<(), Fail> {
    check(&rt, rt.alloc())
}
