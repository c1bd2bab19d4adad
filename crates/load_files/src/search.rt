//! Looking for a file under the roots.

ghost use Rattle.std.specs.Prelude.{◌≡◌, ◌≤◌, ℕ, length, [], ◌∷◌, ◌++◌, Some, IfOk, IfSome, Result, Err};
ghost use Rattle.base_outside.specs.Causes.{Rose};
ghost use Rattle.base_outside.specs.Files.{file_reading};
ghost use Rattle.base_outside.specs.Contents.{Paths, at_path, read_of};
ghost use Rattle.load_files.specs.Found.{absent_at};
ghost use Rattle.load_files.specs.Load.{look_for};
ghost use Rattle.load_files.specs.Search.{answer_reading, capped, IsWithin, IsSoughtWithin};

use crate::found::Source;
use base_data::items::Items;
use base_data::memory::Memory;
use base_data::symbol::Symbol;
use base_outside::{FileAnswer, Files, OutsideError};
use load_file_names::file::path_below;
use std::alloc::Global;

/// How libraries are looked for: under these roots, and what is found takes this memory.
#[derive(Drop)]
pub struct Search<'a> {
    pub alloc: Global,
    pub roots: &'a [Symbol],
}

/// What there is under the roots.
#[derive(Drop)]
pub enum Sought {
    /// The path under the first root that has the file, and its bytes.
    Bytes(Symbol, Items<u8>),
    /// That path, where the file is too long.
    Longer(Symbol),
    /// No root has the file.
    Nowhere,
}

/// What there is at a path.
#[derive(Drop)]
pub enum PathContents {
    Bytes(Items<u8>),
    Longer,
    Absent,
}

// Files that tell nothing of content may give more than was asked for: that is too long as well.
fn capped(answer: FileAnswer, max: usize) -> PathContents
    ensures reading { answer_reading result ≡ capped max (file_reading answer) }
    ensures within { IsWithin max result }
{
    match answer {
        FileAnswer::Bytes(held) => {
            if held.len() <= max {
                PathContents::Bytes(Items::from_vec(held))
            } else {
                PathContents::Longer
            }
        }
        FileAnswer::Longer => PathContents::Longer,
        FileAnswer::Absent => PathContents::Absent,
    }
}

/// What there is at a path, if it has at most so many bytes.
pub(crate) fn read_at<F: Files>(
    files: &mut F,
    path: &Symbol,
    max: usize,
) -> Result<PathContents, OutsideError>
    ensures same { F.told files.new ≡ F.told files.old }
    ensures answer { (fs : Paths) → F.told files.old ≡ Some fs → IfOk result (λ answer. answer_reading answer ≡ read_of (at_path fs path.now) max) }
    ensures within { IfOk result (IsWithin max) }
    ensures later { F.faults files.old ≤ F.faults files.new }
    ensures failed { result ≡ Err OutsideError.Failed → Rose (F.faults files.old) (F.faults files.new) }
{
    match files.read(path.as_str(), max) {
        Ok(answer) => Ok(capped(answer, max)),
        Err(error) => Err(error),
    }
}

fn absent_at(path: Symbol) -> Source
    ensures { result ≡ absent_at path }
{
    Source { path, held: None }
}

/// Looks for a file under the first root that has it. The paths where it isn't are kept as sources.
pub(crate) fn look_for<F: Files>(
    search: &Search,
    files: &mut F,
    file: &Symbol,
    max: usize,
    sources: &mut Items<Source>,
) -> Result<Sought, OutsideError>
    ensures same { F.told files.new ≡ F.told files.old }
    ensures found { (fs : Paths) → F.told files.old ≡ Some fs
        → IfOk result (λ sought. look_for fs max file.now sources.old search.now.roots.now ≡ (sources.new, sought)) }
    ensures within { IfOk result (IsSoughtWithin max) }
    ensures later { F.faults files.old ≤ F.faults files.new }
    ensures failed { result ≡ Err OutsideError.Failed → Rose (F.faults files.old) (F.faults files.new) }
{
    for root in search.roots {
        let path = path_below(search.alloc, root, file)?;
        match read_at(files, &path, max)? {
            PathContents::Bytes(held) => return Ok(Sought::Bytes(path, held)),
            PathContents::Longer => return Ok(Sought::Longer(path)),
            PathContents::Absent => sources.push(absent_at(path))?,
        }
    }
    Ok(Sought::Nowhere)
}
