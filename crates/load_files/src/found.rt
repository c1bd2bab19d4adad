//! What loading keeps: the files that were read, and the libraries that they are.

ghost use Rattle.std.specs.Prelude.{◌≡◌, [], ◌++◌, ◌∷◌, length, drop, OnOk, option_copied, slice_get};
ghost use Rattle.load_files.specs.Found.{nothing_loaded};

use base_data::datum::Datum;
use base_data::items::Items;
use base_data::symbol::Symbol;
use load_forms::form::LibraryForm;
use load_forms::set::Import;
use load_import::table::NameTable;
use std::alloc::Global;

/// A path that was read, and the bytes there, if it was there.
#[derive(Drop)]
pub struct Source {
    pub path: Symbol,
    pub held: Option<Items<u8>>,
}

/// A library or a program as it was read: its form, and the data of its file.
#[derive(Drop)]
pub struct Opened {
    pub path: Symbol,
    pub form: LibraryForm,
    pub data: Items<Datum>,
}

/// A library or a program whose imports are loaded.
#[derive(Drop)]
pub struct Found {
    pub opened: Opened,
    /// How many libraries were loaded before it.
    pub place: usize,
    /// Which of them it imports, directly or not.
    pub needs: Items<bool>,
}

/// What was read and loaded so far.
#[derive(Drop)]
pub struct Loading {
    /// The libraries that were begun, by their files.
    pub begun: NameTable<()>,
    /// Those that are loaded, in order.
    pub done: NameTable<Found>,
    /// The paths that were read, in order.
    pub sources: Items<Source>,
    /// How many bytes were read.
    pub bytes: usize,
}

impl Loading {
    /// Nothing is loaded. It takes no memory.
    pub fn new(alloc: Global) -> Loading
        ensures { result ≡ nothing_loaded }
    {
        Loading {
            begun: NameTable::new(alloc),
            done: NameTable::new(alloc),
            sources: Items::new(alloc),
            bytes: 0,
        }
    }
}

/// A file whose imports are being loaded.
#[derive(Drop)]
pub struct Open {
    pub opened: Opened,
    /// How many libraries may be opened one inside another from here.
    pub room: usize,
    /// The place of the import that is next.
    pub next: usize,
    /// Which libraries it imports so far, directly or not.
    pub needs: Items<bool>,
}

/// The import of an open file that is next.
pub(crate) fn next_import(at: &Open) -> Option<&Import>
    ensures { option_copied result ≡ slice_get at.now.opened.form.imports at.now.next }
{
    let imports = at.opened.form.imports.as_slice();
    if at.next < imports.len() {
        Some(&imports[at.next])
    } else {
        None
    }
}
