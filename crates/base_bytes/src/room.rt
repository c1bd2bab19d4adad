//! Lists with room for what they are to hold.

ghost use Rattle.std.specs.Prelude.{◌≡◌, [], IfOk};

use base_data::memory::Memory;
use std::alloc::Global;

/// A list of what may be nested has room for so many values at most before it holds one, since each level of bytes that
/// were forged can count more than follow.
pub const MOST_AHEAD: usize = 16;

/// An empty list with room for so many values, or for the most that are given room ahead.
pub fn list_for<T>(alloc: Global, count: u64, most: usize) -> Result<Vec<T>, Memory>
    ensures { IfOk result (λ list. list.items ≡ []) }
{
    let room = if count < most as u64 {
        count as usize
    } else {
        most
    };
    let list = Vec::with_capacity(alloc, room)?;
    Ok(list)
}
