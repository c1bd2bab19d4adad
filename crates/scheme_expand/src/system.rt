//! A run over the system, with all primitives.

ghost use Rattle.std.specs.Prelude.{◌≡◌, ◌<◌};

use base_data::memory::Memory;
use base_data::steps::Steps;
use base_fuel::fuel::{Counted, Fuel};
use base_outside::{HostFiles, HostSink, HostStore};
use eval_ops::basics::basics;
use eval_ops::characters::characters;
use eval_ops::data::{data, trees};
use eval_ops::equality::equality;
use eval_ops::lists::{appended, gathered, indexed, lists};
use eval_ops::numbers::numbers;
use eval_ops::parts::{parts, unpacked};
use eval_ops::raised::raising;
use eval_ops::strings::{number_strings, string_comparisons, strings};
use eval_ops::syntax::{identifiers, temporaries};
use eval_prims::rows::{
    APPENDED, BASICS, CHARACTERS, DATA, EQUALITY, GATHERED, IDENTIFIERS, INDEXED, LISTS,
    NUMBER_STRINGS, NUMBERS, PARTS, RAISING, STRING_COMPARISONS, STRINGS, TEMPORARIES, TREES,
    UNPACKED,
};
use eval_prims::table::{PrimRow, PrimTable};
use expand_forms::tally::Tally;
use expand_standing::means::Counts;
use run_top::inputs::Inputs;
use run_top::status::Status;
use run_top::top;
use run_top::top::Outside;
use std::alloc::Global;
use std::marker::Brand;
use std::sync::ledger::{Blank, Book, Ledger};

// At most so many libraries are expanded in one run.
const MOST_EXPANSIONS: u64 = 1_000_000_000;

// The rows with one more.
fn with_row(rows: Vec<PrimRow>, row: PrimRow) -> Result<Vec<PrimRow>, Memory> {
    let mut rows = rows;
    rows.push(row)?;
    Ok(rows)
}

// What is counted, borrowed for one time. A function makes it, since what is made and lent in one function isn't seen to
// be borrowed for as long as it is lent.
fn tally_of<'a, N: Ledger, L: Ledger>(
    nodes: &'a mut Steps<N>,
    book: &'a mut Book<L>,
    fuel: Fuel<L>,
) -> Tally<'a, N, L> {
    let counts = Counts { nodes, book };
    Tally { counts, fuel }
}

fn run_tallied<N: Ledger, L: Ledger>(
    rt: &HostRuntime,
    words: &[String],
    prims: &PrimTable,
    tally: &mut Tally<N, L>,
) -> Result<Status, Memory> {
    let alloc = rt.alloc();
    let mut outside = Outside {
        inputs: Inputs {
            files: HostFiles::new(alloc, rt.clone()?),
            store: HostStore::new(alloc, rt.clone()?),
        },
        out: HostSink::new(rt.stdout()),
        err: HostSink::new(rt.stderr()),
    };
    Ok(top::run(alloc, words, &mut outside, prims, tally))
}

fn run_counted<N: Ledger, L: Ledger>(
    rt: &HostRuntime,
    words: &[String],
    prims: &PrimTable,
    nodes: Blank,
    steps: Blank,
) -> Result<Status, Memory>
    requires name { nodes.name ≡ N.name }
    requires parts { (nodes.parts ≡ N.parts) × (0 < N.parts) }
    requires step_name { steps.name ≡ L.name }
    requires step_parts { (steps.parts ≡ L.parts) × (1000000001 < L.parts) }
{
    let mut nodes = Steps::<N>::open(nodes);
    let Counted { mut book, fuel } = Fuel::<L>::open(steps, MOST_EXPANSIONS);
    let mut tally = tally_of(&mut nodes, &mut book, fuel);
    run_tallied(rt, words, prims, &mut tally)
}

// A run whose nodes and fuel nobody counts. Rows in order always fill the table.
fn run_with(rt: &HostRuntime, words: &[String], rows: Vec<PrimRow>) -> Result<Status, Memory> {
    let Ok(prims) = PrimTable::fill(rows) else {
        return Ok(Status::Memory);
    };
    run_counted::<Brand, Brand>(rt, words, &prims, Blank::new(1), Blank::new(1_000_000_002))
}

// The primitives are boxed here, since a call that handed boxes back would hide what they hold.
fn run_boxed(rt: &HostRuntime, alloc: Global, words: &[String]) -> Result<Status, Memory> {
    let rows = Vec::new(alloc);
    let rows = with_row(rows, PrimRow::new(BASICS, Box::new(alloc, basics)?))?;
    let rows = with_row(rows, PrimRow::new(NUMBERS, Box::new(alloc, numbers)?))?;
    let rows = with_row(rows, PrimRow::new(CHARACTERS, Box::new(alloc, characters)?))?;
    let rows = with_row(rows, PrimRow::new(PARTS, Box::new(alloc, parts)?))?;
    let rows = with_row(rows, PrimRow::new(GATHERED, Box::new(alloc, gathered)?))?;
    let rows = with_row(rows, PrimRow::new(LISTS, Box::new(alloc, lists)?))?;
    let rows = with_row(rows, PrimRow::new(APPENDED, Box::new(alloc, appended)?))?;
    let rows = with_row(rows, PrimRow::new(INDEXED, Box::new(alloc, indexed)?))?;
    let rows = with_row(rows, PrimRow::new(UNPACKED, Box::new(alloc, unpacked)?))?;
    let rows = with_row(rows, PrimRow::new(STRINGS, Box::new(alloc, strings)?))?;
    let rows = with_row(
        rows,
        PrimRow::new(NUMBER_STRINGS, Box::new(alloc, number_strings)?),
    )?;
    let rows = with_row(
        rows,
        PrimRow::new(STRING_COMPARISONS, Box::new(alloc, string_comparisons)?),
    )?;
    let rows = with_row(rows, PrimRow::new(EQUALITY, Box::new(alloc, equality)?))?;
    let rows = with_row(
        rows,
        PrimRow::new(IDENTIFIERS, Box::new(alloc, identifiers)?),
    )?;
    let rows = with_row(rows, PrimRow::new(DATA, Box::new(alloc, data)?))?;
    let rows = with_row(rows, PrimRow::new(TREES, Box::new(alloc, trees)?))?;
    let rows = with_row(
        rows,
        PrimRow::new(TEMPORARIES, Box::new(alloc, temporaries)?),
    )?;
    let rows = with_row(rows, PrimRow::new(RAISING, Box::new(alloc, raising)?))?;
    run_with(rt, words, rows)
}

/// Runs the program over the system's files and streams.
pub(crate) fn run_over_system(rt: &HostRuntime, words: &[String]) -> Result<Status, Memory> {
    run_boxed(rt, rt.alloc(), words)
}
