//! The line and the column of an offset, by what the whole source has.

ghost use Rattle.std.specs.Prelude.{◌≡◌, ◌≤◌, ℕ, List, length};
ghost use Rattle.base_data.specs.Place.{place};
ghost use Rattle.law_places.specs.Lines.{line, column};

use base_data::place::line_and_column;

/// The line and the column of an offset, both from 1: 1 plus the number of line ends that end at or
/// before it, and 1 plus the number of characters that begin at or after the end of the last of
/// these, or the start of the source, and before the offset (R6RS 4.2.2). It takes no memory.
pub fn counted_place(source: &[u8], offset: u32) -> (u64, u64)
    requires { offset ≤ length source.now }
    ensures line { result.0 ≡ line source.now offset }
    ensures column { result.1 ≡ column source.now offset }
{
    line_and_column(source, offset)
}

/// The place that `base_data` defines by its walk is the counted line and column, for every source and
/// every offset in it.
pub fn every_place_is_counted()
    ensures { (source : List ℕ) (offset : ℕ) → offset ≤ length source
        → place source offset ≡ (line source offset, column source offset) }
{}
