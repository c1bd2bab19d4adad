//! The core text of a program behind the turns of its libraries.

ghost use Rattle.std.specs.Prelude.{◌≡◌, ◌≤◌, ◌+◌, IfOk, OnOk, Ok};
ghost use Rattle.std.specs.String.{string_bytes};
ghost use Rattle.base_outside.specs.Store.{WhereTold};
ghost use Rattle.run_prelude.specs.Prelude.{kept};
ghost use Rattle.run_reuse.specs.Fuel.{WritesSpending, came_spent};
ghost use Rattle.run_reuse.specs.Texts.{Answers, TextGives, found_in};
ghost use Rattle.run_reuse.specs.Turns.{changed};
ghost use Rattle.run_reuse.specs.declared.texts.Came.TheVariants as came;

use crate::expansion::text_after;
use crate::progress::Turned;
use crate::turns::{Turning, take_turns};
use base_data::fault::{Fault, Stop};
use base_data::items::Items;
use base_outside::Store;
use expand_forms::tally::Tally;
use load_files::found::Found;
use load_import::table::NameTable;
use std::sync::ledger::Ledger;

/// What loading came to: a program, or the fault that ended it.
#[derive(Drop)]
pub enum Came {
    Program(Found),
    Fault(Fault),
}

/// What was loaded: the libraries, in the order of loading, and then the program or the fault.
#[derive(Drop)]
pub struct LoadedLibraries {
    pub libraries: NameTable<Found>,
    pub came: Came,
}

/// The core text of a program, and which of its libraries were reused.
#[derive(Drop)]
pub struct WrittenProgram {
    pub text: String,
    pub reused: Items<bool>,
}

// The core text of a program behind the libraries that took their turns.
fn program_text<N: Ledger, L: Ledger>(
    turning: &Turning,
    turned: Turned,
    found: Found,
    tally: &mut Tally<N, L>,
) -> Result<WrittenProgram, Stop>
    ensures text { TextGives (kept turning.now.implementation.now.prelude) result (came.Program found) turned }
    ensures fuel { OnOk result (tally.new.fuel ≡ tally.old.fuel + came_spent (kept turning.now.implementation.now.prelude) (came.Program found) turned) }
{
    let (records, reused) = turned.into_parts();
    let text = text_after(turning.alloc, turning.implementation, records, found, tally)?;
    Ok(WrittenProgram { text, reused })
}

// What comes of what was loaded, behind the libraries that took their turns.
fn text_behind<N: Ledger, L: Ledger>(
    turning: &Turning,
    turned: Turned,
    came: Came,
    tally: &mut Tally<N, L>,
) -> Result<WrittenProgram, Stop>
    ensures text { TextGives (kept turning.now.implementation.now.prelude) result came turned }
    ensures fuel { OnOk result (tally.new.fuel ≡ tally.old.fuel + came_spent (kept turning.now.implementation.now.prelude) came turned) }
{
    match came {
        Came::Program(found) => program_text(turning, turned, found, tally),
        Came::Fault(fault) => Err(Stop::Fault(fault)),
    }
}

/// The core text of a program, whose libraries take their turns before it; or the first fault.
pub fn write_program<S: Store, N: Ledger, L: Ledger>(
    turning: &Turning,
    loaded: LoadedLibraries,
    store: &mut S,
    tally: &mut Tally<N, L>,
) -> Result<WrittenProgram, Stop>
    ensures later { S.faults store.old ≤ S.faults store.new }
    ensures answers { WhereTold (S.told store.old) (S.told store.new) (λ before after.
        Answers turning.now.cache.now (kept turning.now.implementation.now.prelude) result loaded.came (found_in loaded.libraries)
        (changed before (S.faults store.old) after (S.faults store.new))) }
    ensures fuel { IfOk result (λ w. WhereTold (S.told store.old) (S.told store.new) (λ before after.
        WritesSpending turning.now.cache.now (kept turning.now.implementation.now.prelude) loaded.came (found_in loaded.libraries)
        (changed before (S.faults store.old) after (S.faults store.new)) (Ok (string_bytes w.text, w.reused)) tally.old.fuel tally.new.fuel)) }
{
    let LoadedLibraries { libraries, came } = loaded;
    match take_turns(turning, libraries, store, tally) {
        Ok(turned) => text_behind(turning, turned, came, tally),
        Err(stop) => Err(stop),
    }
}
