use base_data::atom::Atom;
use base_data::datum::{Datum, Node};
use base_data::memory::Memory;
use base_data::symbol::Symbol;
use base_region::region::Region;
use eval_value::cell::Cell;
use eval_value::from_datum::from_datum;
use eval_value::value::Value;
use std::alloc::Global;
use std::test::Fail;

fn atom(value: Atom) -> Datum {
    Datum {
        span: None,
        node: Node::Atom(value),
    }
}

/// The list of an atom and 1.
fn with_one(alloc: Global, first: Atom) -> Result<Datum, Memory> {
    let mut items = Vec::new(alloc);
    items.push(atom(first))?;
    items.push(atom(Atom::Int(1)))?;
    let nil = Datum {
        span: None,
        node: Node::Atom(Atom::Nil),
    };
    let tail = Box::new(alloc, nil)?;
    Ok(Datum {
        span: None,
        node: Node::List(items, tail),
    })
}

/// The place of the pair that is the value of a datum.
fn stored_in(alloc: Global, cells: &mut Region<Cell>, datum: &Datum) -> Result<u64, Fail> {
    match from_datum(alloc, cells, datum)? {
        Value::Pair(place) => Ok(place.0),
        _ => Err("no pair".into()),
    }
}

/// The same, and the number of cells.
fn stored(alloc: Global, datum: &Datum) -> (Result<u64, Fail>, u64) {
    let mut cells = Region::new(alloc);
    let found = stored_in(alloc, &mut cells, datum);
    (found, cells.len())
}

#[test]
fn a_datum_adds_its_parts_first(rt: HostRuntime) -> Result<(), Fail> {
    let alloc = rt.alloc();
    let text = Atom::Str(Symbol::new(alloc, "a")?);
    let (place, count) = stored(alloc, &with_one(alloc, text)?);
    assert_eq!(rt; place?, 2);
    assert_eq!(rt; count, 3);
    let (place, count) = stored(alloc, &with_one(alloc, Atom::Int(1))?);
    assert_eq!(rt; place?, 1);
    assert_eq!(rt; count, 2);
    Ok(())
}
