ghost use Rattle.std.specs.Prelude.{◌≡◌, ◌<◌};

use base_data::items::Items;
use base_data::library::LibName;
use base_data::map::new_map;
use base_data::memory::Memory;
use base_data::name::{FrameNo, Label, Name};
use base_data::op::Op;
use base_data::op::names::CAR;
use base_data::symbol::Symbol;
use base_fuel::fuel::{Counted, Fuel};
use core_language::binding::Binding;
use core_language::record::CompiledLibrary;
use expand_standing::expansion::Expansion;
use expand_standing::ready::ReadyRecords;
use expand_standing::standing::Standing;
use expand_standing::start::{Environment, Supplies};
use std::alloc::Global;
use std::marker::Brand;
use std::mem::forget;
use std::process::Abort;
use std::rc::Rc;
use std::sync::ledger::{Blank, Ledger};
use std::test::Fail;
use stx_object::syn::Syn;
use stx_tree::frame_row::FrameRow;
use stx_tree::marks::Marks;
use stx_tree::stamp::Stamp;

// The name of the library of one word.
fn library(alloc: Global, word: &str) -> Result<LibName, Memory> {
    let mut parts = Items::new(alloc);
    parts.push(Symbol::new(alloc, word)?)?;
    Ok(LibName::User(parts))
}

fn name(alloc: Global, word: &str, number: u64) -> Result<Name, Memory> {
    Ok(Name {
        library: Rc::new(alloc, library(alloc, word)?)?,
        number,
    })
}

// The row in which a word stands for the label of its library.
fn row(alloc: Global, word: &str) -> Result<FrameRow, Memory> {
    let frame = FrameNo(name(alloc, word, 0)?);
    let label = Label(name(alloc, word, 1)?);
    let symbol = Symbol::new(alloc, word)?;
    Ok(FrameRow {
        frame,
        symbol,
        marks: Marks::new(alloc),
        label,
    })
}

fn rows(alloc: Global, word: &str) -> Result<Items<FrameRow>, Memory> {
    let mut rows = Items::new(alloc);
    rows.push(row(alloc, word)?)?;
    Ok(rows)
}

// The label is bound to the primitive `car`.
fn put_binding(
    alloc: Global,
    bindings: &mut Items<(Label, Binding)>,
    word: &str,
) -> Result<(), Memory> {
    let label = Label(name(alloc, word, 1)?);
    bindings.push((label, Binding::Primitive(Op(CAR))))
}

// The record of a library of one word, which is bound to `car`.
fn record(alloc: Global, word: &str) -> Result<CompiledLibrary, Memory> {
    let path = Symbol::new(alloc, "f")?;
    let name = library(alloc, word)?;
    let frames = rows(alloc, word)?;
    let mut bindings = Items::new(alloc);
    match put_binding(alloc, &mut bindings, word) {
        Ok(()) => Ok(CompiledLibrary {
            path,
            name,
            version: Items::new(alloc),
            exports: Items::new(alloc),
            bindings,
            frames,
            run: Items::new(alloc),
            refs: Items::new(alloc),
        }),
        Err(memory) => {
            forget(bindings);
            Err(memory)
        }
    }
}

fn put(alloc: Global, records: &mut ReadyRecords, word: &str) -> Result<(), Memory> {
    match record(alloc, word) {
        Ok(record) => records.push(alloc, record),
        Err(memory) => Err(memory),
    }
}

// At most so many expansions are begun.
const MOST: u64 = 3;

// The records so far, and the fuel of expansions.
#[derive(Drop)]
struct TestRun<L: Ledger> {
    alloc: Global,
    records: ReadyRecords,
    fuel: Fuel<L>,
}

// An expansion behind those of the records that are marked.
fn begun<L: Ledger>(run: &mut TestRun<L>, needs: &[bool]) -> Result<Expansion<L>, Memory> {
    let Some(unspent) = run.fuel.begin() else {
        return Err(Memory);
    };
    let environment = Environment {
        earlier: &run.records,
        needs,
        imports: &[],
    };
    let codes = new_map(run.alloc);
    let supplies = Supplies { codes, unspent };
    Expansion::start(run.alloc, LibName::Program, &environment, supplies)
}

// The word in the frame of its library.
fn leaf(alloc: Global, word: &str) -> Result<Syn, Memory> {
    let frame = FrameNo(name(alloc, word, 0)?);
    let mut stamps = Vec::new(alloc);
    stamps.push(Stamp {
        frame,
        marks: Marks::new(alloc),
    })?;
    let symbol = Symbol::new(alloc, word)?;
    Syn::whole_leaf(alloc, None, &symbol, Marks::new(alloc), stamps)
}

fn is_car(standing: &Standing) -> bool {
    match standing {
        Standing::Primitive(op) => op.0 == CAR,
        _ => false,
    }
}

// Whether the leaf stands for `car` there.
fn stands<L: Ledger>(expansion: &mut Expansion<L>, leaf: &Syn) -> Result<bool, Memory> {
    match expansion.standing(leaf) {
        Ok(standing) => {
            let is_car = is_car(&standing);
            forget(standing);
            Ok(is_car)
        }
        Err(memory) => Err(memory),
    }
}

// Whether the word stands for `car` there.
fn finds<L: Ledger>(
    alloc: Global,
    expansion: &mut Expansion<L>,
    word: &str,
) -> Result<bool, Memory> {
    match leaf(alloc, word) {
        Ok(leaf) => {
            let found = stands(expansion, &leaf);
            forget(leaf);
            found
        }
        Err(memory) => Err(memory),
    }
}

// The words of `a b c` that an expansion finds, behind those that stand there.
fn put_found<L: Ledger>(
    alloc: Global,
    expansion: &mut Expansion<L>,
    words: &mut String,
) -> Result<(), Memory> {
    for word in "a b c".split(" ") {
        if finds(alloc, expansion, word)? {
            words.push_str(word)?;
        }
    }
    words.push_str(".")?;
    Ok(())
}

fn put_last<L: Ledger>(run: &mut TestRun<L>, words: &mut String) -> Result<(), Memory> {
    match begun(run, &[true, false, true]) {
        Ok(mut third) => {
            let put = put_found(run.alloc, &mut third, words);
            forget(third);
            put
        }
        Err(memory) => Err(memory),
    }
}

fn while_two_are_held<L: Ledger>(
    run: &mut TestRun<L>,
    first: &mut Expansion<L>,
    second: &mut Expansion<L>,
    words: &mut String,
) -> Result<(), Memory> {
    put(run.alloc, &mut run.records, "c")?;
    put_found(run.alloc, first, words)?;
    put_found(run.alloc, second, words)?;
    put_last(run, words)
}

fn while_one_is_held<L: Ledger>(
    run: &mut TestRun<L>,
    first: &mut Expansion<L>,
    words: &mut String,
) -> Result<(), Memory> {
    put(run.alloc, &mut run.records, "b")?;
    match begun(run, &[true, true]) {
        Ok(mut second) => {
            let put = while_two_are_held(run, first, &mut second, words);
            forget(second);
            put
        }
        Err(memory) => Err(memory),
    }
}

// What expansions find that are begun between records and held while others come.
fn put_all<L: Ledger>(run: &mut TestRun<L>, words: &mut String) -> Result<(), Memory> {
    put(run.alloc, &mut run.records, "a")?;
    match begun(run, &[true]) {
        Ok(mut first) => {
            let put = while_one_is_held(run, &mut first, words);
            forget(first);
            put
        }
        Err(memory) => Err(memory),
    }
}

fn shared_by<L: Ledger>(alloc: Global, blank: Blank, words: &mut String) -> Result<(), Memory>
    requires name { blank.name ≡ L.name }
    requires parts { (blank.parts ≡ L.parts) × (4 < L.parts) }
{
    match ReadyRecords::new(alloc) {
        Ok(records) => {
            let Counted { book: _, fuel } = Fuel::<L>::open(blank, MOST);
            let mut run = TestRun {
                alloc,
                records,
                fuel,
            };
            let put = put_all(&mut run, words);
            forget(run);
            put
        }
        Err(memory) => Err(memory),
    }
}

fn shared(alloc: Global, words: &mut String) -> Result<(), Memory> {
    shared_by::<Brand>(alloc, Blank::new(5), words)
}

#[test]
fn a_record_is_put_in_while_expansions_share_the_tables(rt: HostRuntime) -> Result<(), Fail> {
    let mut words = String::new(rt.alloc());
    shared(rt.alloc(), &mut words)?;
    assert!(rt; words.as_str() == "a.ab.ac.");
    Ok(())
}
