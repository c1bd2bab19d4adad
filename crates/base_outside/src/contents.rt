//! Pairs of a path and its bytes in memory, read as a finite map.

ghost use Rattle.std.specs.Option.{option_copied};
ghost use Rattle.std.specs.Prelude.{◌≡◌, option_map, IfOk, find, reverse, string_bytes};
ghost use Rattle.std.specs.Str.{bytes_eq};
ghost use Rattle.base_outside.specs.Contents.{at_path, paths_of, read_of};
ghost use Rattle.base_outside.specs.Files.{file_reading};

use crate::files::FileAnswer;
use base_data::memory::Memory;
use std::alloc::Global;

fn last_pair<'a>(pairs: &'a [(String, Vec<u8>)], path: &str) -> Option<&'a (String, Vec<u8>)>
    ensures { option_copied result ≡
        find (λ pair. bytes_eq (string_bytes pair.0) path.now) (reverse pairs.now) }
{
    pairs.iter().rev().find(|pair| pair.0.as_str() == path)
}

/// The bytes of the last pair with a path.
#[tactic(auto, using(crate::proofs::Pairs::at_path_of))]
pub(crate) fn bytes_at<'a>(pairs: &'a [(String, Vec<u8>)], path: &str) -> Option<&'a Vec<u8>>
    ensures { option_map (λ held. held.now.items) result ≡ at_path (paths_of pairs.now) path.now }
{
    match last_pair(pairs, path) {
        Some(pair) => Some(&pair.1),
        None => None,
    }
}

/// What reading a path gives, at most `max` bytes of it.
pub(crate) fn read_pairs(
    alloc: Global,
    pairs: &[(String, Vec<u8>)],
    path: &str,
    max: usize,
) -> Result<FileAnswer, Memory>
    ensures { IfOk result
        (λ answer. file_reading answer ≡ read_of (at_path (paths_of pairs.now) path.now) max) }
{
    let Some(held) = bytes_at(pairs, path) else {
        return Ok(FileAnswer::Absent);
    };
    if held.len() > max {
        return Ok(FileAnswer::Longer);
    }
    Ok(FileAnswer::Bytes(Vec::from_slice(alloc, held)?))
}
