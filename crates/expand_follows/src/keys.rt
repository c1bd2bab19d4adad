//! Rows of frames by their keys: a frame, a symbol and marks.

ghost use Rattle.std.specs.Prelude.{◌≡◌, map, IfOk};
ghost use Rattle.law_core.specs.Follows.{key_of, same_key};
ghost use Rattle.law_core.specs.Words.{once};
ghost use Rattle.expand_follows.specs.Keys.{key_alike, key_fed, same_key_equiv, same_key_per};

use base_data::memory::Memory;
use core_well_made::once::once;
use std::alloc::Global;
use std::hash::{Hash, Hasher};
use std::marker::Model;
use stx_tree::frame_row::FrameRow;

/// A row, which is asked for its key alone.
#[derive(Drop)]
struct RowKey<'a> {
    row: &'a FrameRow,
}

impl<'a> Model for RowKey<'a> {
    ghost use Rattle.law_core.specs.Follows.{Key, key_of};
    ghost use Rattle.expand_follows.specs.Keys.{key_code};

    ghost Value = { Key };

    ghost coded = { key_code };

    ghost view = { λ k. key_of k.row.now };
}

impl<'a> PartialEq for RowKey<'a> {
    ghost eq = { same_key };

    ghost laws = { same_key_per };

    fn eq(&self, other: &RowKey<'a>) -> bool {
        let (a, b) = (self.row, other.row);
        a.frame == b.frame && (a.symbol == b.symbol && a.marks == b.marks)
    }
}

impl<'a> Eq for RowKey<'a> {
    ghost laws = { same_key_equiv };
}

/// The library of the frame isn't hashed, since all frames of a record are of one, nor are marks, which most rows lack.
impl<'a> Hash for RowKey<'a> {
    ghost hash_input = { key_fed };

    ghost respects_eq = { key_alike };

    fn hash<H: Hasher>(&self, state: &mut H) {
        let row = self.row;
        row.symbol.hash(state);
        row.frame.0.number.hash(state);
    }
}

fn keys_of_rows(alloc: Global, rows: &[FrameRow]) -> Result<Vec<RowKey<'_>>, Memory>
    ensures { IfOk result (λ ks. ks.items ≡ map key_of rows.now) }
{
    let mut keys = Vec::new(alloc);
    for row in rows {
        keys.push(RowKey { row })?;
    }
    Ok(keys)
}

/// Whether no two rows have one key.
pub(crate) fn rows_once(alloc: Global, rows: &[FrameRow]) -> Result<bool, Memory>
    ensures { IfOk result (λ b. b ≡ once same_key (map key_of rows.now)) }
{
    let keys = keys_of_rows(alloc, rows)?;
    once(alloc, keys)
}
