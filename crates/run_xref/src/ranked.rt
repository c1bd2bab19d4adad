//! Rows in order, each once.

ghost use Rattle.std.specs.Prelude.{◌≡◌};
ghost use Rattle.run_xref.specs.Ranked.{ranked};

use crate::rows::LinkRow;
use base_data::items::Items;

/// Rows in order, each once. It takes no memory.
pub(crate) fn ranked(rows: Items<LinkRow>) -> Items<LinkRow>
    ensures { result ≡ ranked rows }
{
    let mut list = rows.into_vec();
    list.sort_unstable();
    list.dedup();
    Items::from_vec(list)
}
