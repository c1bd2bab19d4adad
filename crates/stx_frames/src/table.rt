//! The rows of one frame, indexed by symbol and marks.

ghost use Rattle.std.specs.Option.{option_copied};
ghost use Rattle.std.specs.Prelude.{◌≡◌, List, [], ◌∷◌, ◌++◌, length, Err, IfOk, OnOk, OnErr};
ghost use Rattle.base_data.specs.Gives.{BareGives, BareStops};
ghost use Rattle.stx_frames.specs.Rows.{Row, label_in, row_of, rows_of, put_row, second_binder};
ghost use Rattle.stx_frames.specs.Listed.{row_from, rows_from};

use crate::key::Key;
use base_data::fault::{Bare, BareStop, FaultKind};
use base_data::items::Items;
use base_data::map::{NameMap, new_map};
use base_data::memory::Memory;
use base_data::name::{FrameNo, Label};
use base_data::symbol::Symbol;
use std::alloc::Global;
use std::marker::Model;
use stx_tree::frame_row::FrameRow;

/// So many rows are looked through one by one. Most frames have one, for which an index would take more memory than it
/// does.
const FEW: usize = 4;

/// The rows of one frame, seen as a list in the order of binding.
#[derive(Drop)]
pub struct FrameTable {
    first: Vec<(Key, Label)>,
    later: NameMap<Key, Label>,
}

impl Model for FrameTable {
    ghost use Rattle.std.specs.Prelude.{List, ◌++◌};
    ghost use Rattle.std.specs.Coded.{coded_list};
    ghost use Rattle.stx_frames.specs.Rows.{Row, row_code, rows_of};

    ghost Value = { List Row };

    ghost coded = { coded_list row_code };

    ghost view = { λ t. rows_of (t.first.items ++ t.later.entries) };
}

/// The fault of a binder that is there already.
fn duplicate(alloc: Global, symbol: Symbol) -> BareStop
    ensures { BareStops {A = List Row} result (Err (second_binder symbol)) }
{
    let mut words = Items::new(alloc);
    match words.push(symbol) {
        Ok(()) => BareStop::Fault(Bare {
            kind: FaultKind::Duplicate,
            words,
        }),
        Err(_) => BareStop::Memory,
    }
}

/// The label of the first row with this key, which is looked for row by row.
fn find_among<'a>(rows: &'a [(Key, Label)], key: &Key) -> Option<&'a Label>
    ensures { option_copied result ≡ label_in (rows_of rows.now) key.now.symbol key.now.marks }
{
    for row in rows {
        if *key == row.0 {
            return Some(&row.1);
        }
    }
    None
}

/// Puts a row at the end of a list. A refusal changes nothing. Most frames have one row, for which a list that grows
/// by itself would keep room for four.
fn push_row(rows: &mut Vec<(Key, Label)>, key: Key, label: Label) -> Result<(), Memory>
    ensures ok { OnOk result (rows.new.items ≡ rows.old.items ++ (key, label) ∷ []) }
    ensures err { OnErr result (rows.new.items ≡ rows.old.items) }
{
    if rows.is_empty() {
        rows.reserve_exact(1)?;
    }
    rows.push((key, label))?;
    Ok(())
}

fn copy(alloc: Global, frame: &FrameNo, key: &Key, label: &Label) -> Result<FrameRow, Memory>
    ensures { IfOk result (λ r. r ≡ row_from frame.now (row_of (key.now, label.now))) }
{
    let frame = frame.share()?;
    let symbol = key.symbol.share()?;
    let marks = key.marks.share(alloc)?;
    let label = label.share()?;
    Ok(FrameRow {
        frame,
        symbol,
        marks,
        label,
    })
}

/// Puts copies of rows at the end of a list.
fn put_first(
    list: &mut Vec<FrameRow>,
    alloc: Global,
    frame: &FrameNo,
    rows: &[(Key, Label)],
) -> Result<(), Memory>
    ensures { OnOk result (list.new.items ≡ list.old.items ++ rows_from frame.now (rows_of rows.now)) }
{
    for row in rows {
        let row = copy(alloc, frame, &row.0, &row.1)?;
        list.push(row)?;
    }
    Ok(())
}

/// Puts copies of rows at the end of a list.
fn put_later(
    list: &mut Vec<FrameRow>,
    alloc: Global,
    frame: &FrameNo,
    rows: &NameMap<Key, Label>,
) -> Result<(), Memory>
    ensures { OnOk result (list.new.items ≡ list.old.items ++ rows_from frame.now (rows_of rows.now.entries)) }
{
    for i in 0..rows.len() {
        let Some((key, label)) = rows.get_index(i) else {
            return Err(Memory);
        };
        let row = copy(alloc, frame, key, label)?;
        list.push(row)?;
    }
    Ok(())
}

impl FrameTable {
    /// No rows. It takes no memory.
    pub fn new(alloc: Global) -> FrameTable
        ensures { result ≡ [] }
    {
        FrameTable {
            first: Vec::new(alloc),
            later: new_map(alloc),
        }
    }

    /// How many rows there are.
    pub fn size(&self) -> usize
        ensures { result ≡ length self.now }
    {
        self.first.len() + self.later.len()
    }

    /// The label of the row with this symbol and these marks. It takes no memory.
    pub fn find(&self, key: &Key) -> Option<&Label>
        ensures { option_copied result ≡ label_in self.now key.now.symbol key.now.marks }
    {
        match find_among(&self.first, key) {
            Some(label) => Some(label),
            None => self.later.get(key),
        }
    }

    /// Puts a row at the end. It is `Duplicate` exactly where a row has the same symbol and marks. A
    /// refusal changes nothing.
    pub fn put(&mut self, alloc: Global, key: Key, label: Label) -> Result<(), BareStop>
        ensures row { BareGives (λ _. self.new) result (put_row self.old (row_of (key, label))) }
        ensures err { OnErr result (self.new ≡ self.old) }
    {
        if self.find(&key).is_some() {
            return Err(duplicate(alloc, key.symbol));
        }
        if self.first.len() < FEW && self.later.is_empty() {
            return match push_row(&mut self.first, key, label) {
                Ok(()) => Ok(()),
                Err(_) => Err(BareStop::Memory),
            };
        }
        match self.later.insert(key, label) {
            Ok(_) => Ok(()),
            Err(_) => Err(BareStop::Memory),
        }
    }

    /// The rows, with their frame.
    pub fn copies(&self, alloc: Global, frame: &FrameNo) -> Result<Items<FrameRow>, Memory>
        ensures { IfOk result (λ rs. rs ≡ rows_from frame.now self.now) }
    {
        let mut list = Vec::with_capacity(alloc, self.size())?;
        put_first(&mut list, alloc, frame, &self.first)?;
        put_later(&mut list, alloc, frame, &self.later)?;
        Ok(Items::from_vec(list))
    }
}
