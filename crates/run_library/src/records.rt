//! Records of libraries in the order of loading, each found by its name.

ghost use Rattle.std.specs.Option.{option_copied};
ghost use Rattle.std.specs.Prelude.{◌≡◌, [], ◌∷◌, ◌++◌, IfOk, OnOk, OnErr, slice_get};
ghost use Rattle.load_files.specs.Found.{is_marked};
ghost use Rattle.run_library.specs.Chosen.{named_at};
ghost use Rattle.run_library.specs.Imports.{named};
ghost use Rattle.run_library.specs.Records.{first_place, place_in, with_place, needed_records};

use base_data::library::LibName;
use base_data::map::{NameMap, new_map};
use base_data::memory::Memory;
use core_language::record::CompiledLibrary;
use core_language::share::share_library;
use expand_standing::ready::ReadyRecords;
use std::alloc::Global;
use std::marker::Model;

/// Records, and for each name the place of its first. So looking for a library costs the same, however many
/// libraries there are.
#[derive(Drop)]
pub struct Records {
    list: ReadyRecords,
    places: NameMap<LibName, usize>,
}

impl Model for Records {
    ghost use Rattle.std.specs.Prelude.{List};
    ghost use Rattle.std.specs.Coded.{coded_list};
    ghost use Rattle.core_language.specs.declared.record.CompiledLibrary.{CompiledLibrary};
    ghost use Rattle.core_language.specs.contracts.record.CompiledLibrary as records;
    ghost use Rattle.run_library.specs.Records.{ArePlaces};

    ghost Value = { List CompiledLibrary };

    ghost coded = { coded_list records.the_row.coded };

    ghost view = { λ r. r.list };

    ghost invariant = { λ r. ArePlaces r.places.entries r.list };
}

impl Records {
    /// No records.
    pub fn new(alloc: Global) -> Result<Records, Memory>
        ensures { IfOk result (λ r. r ≡ []) }
    {
        let list = ReadyRecords::new(alloc)?;
        Ok(Records {
            list,
            places: new_map(alloc),
        })
    }

    /// Puts a record at the end. A second record of one library is refused as want of memory is. After a refusal
    /// the records are as before, and all else is refused.
    pub fn push(&mut self, alloc: Global, last: CompiledLibrary) -> Result<(), Memory>
        ensures ok { OnOk result (self.new ≡ self.old ++ last ∷ []) }
        ensures err { OnErr result (self.new ≡ self.old) }
    {
        let place = self.list.as_slice().len();
        let count = self.places.len();
        let name = share_library(alloc, &last.name)?;
        put_place(&mut self.places, name, place)?;
        match self.list.push(alloc, last) {
            Ok(()) => Ok(()),
            Err(memory) => {
                self.places.truncate(count);
                Err(memory)
            }
        }
    }

    /// One record.
    pub(crate) fn of_one(alloc: Global, only: CompiledLibrary) -> Result<Records, Memory>
        ensures { IfOk result (λ r. r ≡ only ∷ []) }
    {
        let mut records = Records::new(alloc)?;
        records.push(alloc, only)?;
        Ok(records)
    }

    /// The records, ready for the expansion of one more.
    pub fn ready(&self) -> &ReadyRecords
        ensures { result.now ≡ self.now }
    {
        &self.list
    }

    /// The records alone. It takes no memory.
    pub fn into_records(self) -> Vec<CompiledLibrary>
        ensures { result.items ≡ self }
    {
        self.list.into_records()
    }

    fn at(&self, place: usize) -> Option<&CompiledLibrary>
        ensures { option_copied result ≡ slice_get self.now place }
    {
        let records = self.list.as_slice();
        if place < records.len() {
            Some(&records[place])
        } else {
            None
        }
    }

    // The place of the first record of a library.
    fn place_of(&self, name: &LibName) -> Option<usize>
        ensures { result ≡ first_place name.now self.now }
    {
        match self.places.get(name) {
            Some(place) => Some(*place),
            None => None,
        }
    }

    // The record at a place, where it is that of a library.
    fn named_at(&self, place: usize, name: &LibName) -> Option<&CompiledLibrary>
        ensures { option_copied result ≡ named_at name.now (slice_get self.now place) }
    {
        let Some(record) = self.at(place) else {
            return None;
        };
        if record.name == *name {
            Some(record)
        } else {
            None
        }
    }

    // The record of a library, by asking each that is needed.
    fn sought(&self, needs: &[bool], name: &LibName) -> Option<&CompiledLibrary>
        ensures { option_copied result ≡ named name.now (needed_records self.now needs.now) }
    {
        for (place, mark) in needs.iter().enumerate() {
            if *mark {
                if let Some(record) = self.named_at(place, name) {
                    return Some(record);
                }
            }
        }
        None
    }

    /// The record of a library, among those that are needed.
    pub fn named(&self, needs: &[bool], name: &LibName) -> Option<&CompiledLibrary>
        ensures { option_copied result ≡ named name.now (needed_records self.now needs.now) }
    {
        let Some(place) = self.place_of(name) else {
            return None;
        };
        if is_marked(needs, place) {
            self.at(place)
        } else {
            // Loading gives no library two records, so this isn't come to.
            self.sought(needs, name)
        }
    }
}

/// The records of a run that a library needs: those that are marked.
#[derive(Drop)]
pub struct Needed<'a> {
    pub records: &'a Records,
    /// A mark for each place. Those beyond the marks are not needed.
    pub marks: &'a [bool],
}

impl Needed<'_> {
    /// The record of a library, among these.
    pub fn named(&self, name: &LibName) -> Option<&CompiledLibrary>
        ensures { option_copied result ≡ named name.now (needed_records self.now.records.now self.now.marks.now) }
    {
        self.records.named(self.marks, name)
    }
}

fn is_marked(marks: &[bool], place: usize) -> bool
    ensures { result ≡ is_marked (slice_get marks.now place) }
{
    if place < marks.len() {
        marks[place]
    } else {
        false
    }
}

// The first place of a name stays.
fn put_place(
    places: &mut NameMap<LibName, usize>,
    name: LibName,
    place: usize,
) -> Result<(), Memory>
    ensures ok { OnOk result (places.new.entries ≡ with_place places.old.entries name place) }
    ensures err { OnErr result (places.new.entries ≡ places.old.entries) }
{
    if places.get(&name).is_some() {
        return Ok(());
    }
    places.insert(name, place)?;
    Ok(())
}
