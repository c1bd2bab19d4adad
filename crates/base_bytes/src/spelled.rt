//! Types each value of which has a spelling, and lists, options and pairs of them.

ghost use Rattle.std.specs.Prelude.{◌≡◌, IfOk, OnOk, option_map};
ghost use Rattle.base_bytes.specs.Codec.{Codec, optional, listed, ◌then◌, some_get};
ghost use Rattle.base_bytes.specs.Puts.{Puts};

use crate::libraries::RecentLibraries;
use crate::numbers::{put_u64, u64_at};
use crate::room::list_for;
use base_data::items::Items;
use base_data::memory::Memory;

/// A type each value of which has a spelling.
pub trait Spelled: Sized + Drop {
    ghost codec: { Codec Self };

    /// Adds the spelling.
    fn put(&self, out: &mut Vec<u8>) -> Result<(), Memory>
        ensures { OnOk result (Puts codec self.now out.old.items out.new.items) };

    /// The value that the bytes begin with, and the bytes behind it.
    fn at<'a>(
        libraries: &mut RecentLibraries,
        bytes: &'a [u8],
    ) -> Result<Option<(Self, &'a [u8])>, Memory>
        ensures { IfOk result (λ o. option_map (λ x. (x.0, x.1.now)) o ≡ codec.get bytes.now) };
}

impl<T: Spelled> Spelled for Option<T> {
    ghost codec = { optional T.codec };

    fn put(&self, out: &mut Vec<u8>) -> Result<(), Memory> {
        match self {
            None => {
                out.push(0)?;
                Ok(())
            }
            Some(value) => {
                out.push(1)?;
                value.put(out)
            }
        }
    }

    fn at<'a>(
        libraries: &mut RecentLibraries,
        bytes: &'a [u8],
    ) -> Result<Option<(Self, &'a [u8])>, Memory> {
        match bytes {
            [] => Ok(None),
            [0, rest @ ..] => Ok(Some((None, rest))),
            [1, rest @ ..] => match T::at(libraries, rest)? {
                Some((value, rest)) => Ok(Some((Some(value), rest))),
                None => Ok(None),
            },
            [_, ..] => Ok(None),
        }
    }
}

impl<A: Spelled, B: Spelled> Spelled for (A, B) {
    ghost codec = { A.codec then B.codec };

    fn put(&self, out: &mut Vec<u8>) -> Result<(), Memory> {
        self.0.put(out)?;
        self.1.put(out)
    }

    fn at<'a>(
        libraries: &mut RecentLibraries,
        bytes: &'a [u8],
    ) -> Result<Option<(Self, &'a [u8])>, Memory> {
        let Some((first, rest)) = A::at(libraries, bytes)? else {
            return Ok(None);
        };
        let Some((second, rest)) = B::at(libraries, rest)? else {
            return Ok(None);
        };
        Ok(Some(((first, second), rest)))
    }
}

impl<T: Spelled> Spelled for Items<T> {
    ghost codec = { listed T.codec };

    fn put(&self, out: &mut Vec<u8>) -> Result<(), Memory> {
        put_all(out, self.as_slice())
    }

    fn at<'a>(
        libraries: &mut RecentLibraries,
        bytes: &'a [u8],
    ) -> Result<Option<(Self, &'a [u8])>, Memory> {
        match all_at(libraries, bytes)? {
            Some((list, rest)) => Ok(Some((Items::from_vec(list), rest))),
            None => Ok(None),
        }
    }
}

/// Adds the count and the values.
pub fn put_all<T: Spelled>(out: &mut Vec<u8>, items: &[T]) -> Result<(), Memory>
    ensures { OnOk result (Puts (listed T.codec) items.now out.old.items out.new.items) }
{
    put_u64(out, items.len() as u64)?;
    for item in items {
        item.put(out)?;
    }
    Ok(())
}

/// The count and the values that the bytes begin with.
pub fn all_at<'a, T: Spelled>(
    libraries: &mut RecentLibraries,
    bytes: &'a [u8],
) -> Result<Option<(Vec<T>, &'a [u8])>, Memory>
    ensures { IfOk result (λ o. option_map (λ x. (x.0.items, x.1.now)) o ≡ (listed T.codec).get bytes.now) }
{
    let Some((count, rest)) = u64_at(bytes) else {
        return Ok(None);
    };
    some_at(libraries, count, rest)
}

/// So many values.
fn some_at<'a, T: Spelled>(
    libraries: &mut RecentLibraries,
    count: u64,
    bytes: &'a [u8],
) -> Result<Option<(Vec<T>, &'a [u8])>, Memory>
    ensures { IfOk result (λ o. option_map (λ x. (x.0.items, x.1.now)) o ≡ some_get T.codec.get count bytes.now) }
{
    let mut list = list_for(libraries.alloc(), count, bytes.len() / 16)?;
    let mut rest = bytes;
    for _ in 0..count {
        let Some((value, after)) = T::at(libraries, rest)? else {
            return Ok(None);
        };
        list.push(value)?;
        rest = after;
    }
    Ok(Some((list, rest)))
}
