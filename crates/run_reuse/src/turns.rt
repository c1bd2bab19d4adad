//! The turns of libraries.

ghost use Rattle.std.specs.Prelude.{◌≡◌, ◌≤◌, ◌+◌, IfOk, IfSome, OnOk, Some, false, map};
ghost use Rattle.std.specs.String.{string_bytes};
ghost use Rattle.base_data.specs.Gives.{Gives};
ghost use Rattle.run_derived.specs.Derived.{derived_record};
ghost use Rattle.load_forms.specs.Form.{library_body};
ghost use Rattle.run_library.specs.Loaded.{expand_found, found_spent};
ghost use Rattle.base_outside.specs.Contents.{at_path};
ghost use Rattle.base_outside.specs.Store.{WhereTold};
ghost use Rattle.run_prelude.specs.Prelude.{kept};
ghost use Rattle.run_reuse.specs.Entries.{entry_in, if_fits, if_short, if_suits, spelled, suits};
ghost use Rattle.run_reuse.specs.Fuel.{TurnSpends, TurnsSpend, progress_spent, turn_spent};
ghost use Rattle.run_reuse.specs.Progress.{with_record};
ghost use Rattle.run_reuse.specs.Turns.{Asked, Keeps, PutsEntry, Records, TakesTurn, TakeTurns, TakeFrom, changed, state};

use crate::entry::{Cache, Due, ENTRY_LIMIT, spelled};
use crate::expansion::{ExpansionInputs, File, record_of, with_derived};
use crate::progress::Turned;
use base_data::fault::Stop;
use base_data::memory::Memory;
use base_outside::{OutsideError, Store, StoreAnswer};
use core_cache::entry::Entry;
use core_language::record::CompiledLibrary;
use core_pattern_bytes::held::HeldReading;
use core_record_bytes::record::Decoding;
use expand_follows::follows::follows;
use expand_forms::tally::Tally;
use load_files::found::Found;
use load_import::table::NameTable;
use run_derived::derived::derived_record;
use run_derived::implementation::Implementation;
use std::alloc::Global;
use std::sync::ledger::Ledger;

/// What each turn of a run is given.
#[derive(Drop)]
pub struct Turning<'a> {
    pub alloc: Global,
    pub implementation: &'a Implementation<'a>,
    pub cache: &'a Cache<'a>,
}

/// The record of a library, and whether it was reused.
#[derive(Drop)]
pub struct Recorded {
    pub library: CompiledLibrary,
    pub reused: bool,
}

// The record of an entry that was made of an expansion.
fn of_expansion(entry: Entry) -> Recorded
    ensures { result ≡ record { library = entry.stored; reused = false } }
{
    let Entry { stored, .. } = entry;
    Recorded {
        library: stored,
        reused: false,
    }
}

// Whether a record can stand for that of a library.
fn suits(
    alloc: Global,
    turned: &Turned,
    found: &Found,
    one: &CompiledLibrary,
) -> Result<bool, Memory>
    ensures { IfOk result (λ b. b ≡ suits turned.now.records found.now one.now) }
{
    let form = &found.opened.form;
    if one.name != form.name {
        return Ok(false);
    }
    if one.version != form.version {
        return Ok(false);
    }
    if one.path != found.opened.path {
        return Ok(false);
    }
    let marks = with_derived(alloc, found.needs.as_slice())?;
    follows(alloc, one, &turned.earlier(marks.as_slice()))
}

// The record of what a store held, where it can stand for that of a library.
fn stored_in(
    turning: &Turning,
    turned: &Turned,
    found: &Found,
    held: &[u8],
) -> Result<Option<CompiledLibrary>, Memory>
    ensures { IfOk result (λ o. o ≡ if_suits turned.now.records found.now (if_fits turning.now.cache.now found.now (entry_in held.now))) }
{
    let decoding = Decoding {
        alloc: turning.alloc,
        beside: turned.last_rows(),
    };
    let Some(stored) = turning.cache.record_in(&decoding, found, held)? else {
        return Ok(None);
    };
    let stored = HeldReading::new(stored);
    if suits(turning.alloc, turned, found, &stored.value)? {
        Ok(Some(stored.take()))
    } else {
        Ok(None)
    }
}

// The record that a store has for a library, where it can be reused. A call that fails is passed over.
fn ask<S: Store>(
    turning: &Turning,
    turned: &Turned,
    due: &Due,
    store: &mut S,
) -> Result<Option<CompiledLibrary>, Memory>
    ensures same { S.told store.new ≡ S.told store.old }
    ensures later { S.faults store.old ≤ S.faults store.new }
    ensures answer { IfSome (S.told store.old) (λ before. Asked result (S.faults store.old) (S.faults store.new)
        (if_short turning.now.cache.now turned.now.records due.now.found (at_path before (string_bytes due.now.place)))) }
{
    match store.get(due.place.as_str(), ENTRY_LIMIT) {
        Ok(StoreAnswer::Found(held)) => stored_in(turning, turned, &due.found, &held),
        Ok(StoreAnswer::Longer) => Ok(None),
        Ok(StoreAnswer::Absent) => Ok(None),
        Err(OutsideError::Failed) => Ok(None),
        Err(OutsideError::Memory) => Err(Memory),
    }
}

// Puts the bytes of an entry, unless they are too many. A call that fails is passed over.
fn put<S: Store>(place: &str, piece: &[u8], store: &mut S) -> Result<(), Memory>
    ensures later { S.faults store.old ≤ S.faults store.new }
    ensures put { WhereTold (S.told store.old) (S.told store.new) (λ before after.
        PutsEntry result place.now (Some piece.now) (changed before (S.faults store.old) after (S.faults store.new))) }
{
    if piece.len() > ENTRY_LIMIT {
        return Ok(());
    }
    match store.put(place, piece) {
        Ok(()) => Ok(()),
        Err(OutsideError::Failed) => Ok(()),
        Err(OutsideError::Memory) => Err(Memory),
    }
}

// Puts an entry, where it has a spelling.
fn keep<S: Store>(alloc: Global, place: &str, entry: &Entry, store: &mut S) -> Result<(), Memory>
    ensures later { S.faults store.old ≤ S.faults store.new }
    ensures put { WhereTold (S.told store.old) (S.told store.new) (λ before after.
        PutsEntry result place.now (spelled entry.now) (changed before (S.faults store.old) after (S.faults store.new))) }
{
    let spelling = spelled(alloc, entry)?;
    match spelling {
        Some(piece) => put(place, &piece, store),
        None => Ok(()),
    }
}

// The record of a library, which is expanded behind the records so far.
fn expanded<N: Ledger, L: Ledger>(
    turning: &Turning,
    turned: &Turned,
    found: Found,
    tally: &mut Tally<N, L>,
) -> Result<CompiledLibrary, Stop>
    ensures record { Gives (λ r. r) result (expand_found (kept turning.now.implementation.now.prelude) turned.now.records found
        (library_body found.opened.«data»)) }
    ensures fuel { OnOk result (tally.new.fuel ≡ tally.old.fuel + found_spent (kept turning.now.implementation.now.prelude) turned.now.records found
        (library_body found.opened.«data»)) }
{
    let behind = ExpansionInputs {
        alloc: turning.alloc,
        implementation: turning.implementation,
        records: turned.records(),
    };
    record_of(&behind, File::Library, found, tally)
}

// The record of a library, which is expanded, and whose entry is put.
fn expand_and_keep<S: Store, N: Ledger, L: Ledger>(
    turning: &Turning,
    turned: &Turned,
    due: Due,
    store: &mut S,
    tally: &mut Tally<N, L>,
) -> Result<Recorded, Stop>
    ensures later { S.faults store.old ≤ S.faults store.new }
    ensures kept { WhereTold (S.told store.old) (S.told store.new) (λ before after.
        Keeps turning.now.cache.now (kept turning.now.implementation.now.prelude) turned.now.records due.found (string_bytes due.place) result
        (changed before (S.faults store.old) after (S.faults store.new))) }
    ensures fuel { IfOk result (λ r. tally.new.fuel ≡ tally.old.fuel + turn_spent
        (kept turning.now.implementation.now.prelude) turned.now.records due.found r.reused) }
{
    let Due { found, place } = due;
    let unmade = turning.cache.unmade(turning.alloc, &found)?;
    let stored = expanded(turning, turned, found, tally)?;
    let entry = unmade.with(stored);
    keep(turning.alloc, place.as_str(), &entry, store)?;
    Ok(of_expansion(entry))
}

// The record that a library's turn gives: the one that its entry has, or else the one of its expansion.
fn ask_or_expand<S: Store, N: Ledger, L: Ledger>(
    turning: &Turning,
    turned: &Turned,
    found: Found,
    store: &mut S,
    tally: &mut Tally<N, L>,
) -> Result<Recorded, Stop>
    ensures later { S.faults store.old ≤ S.faults store.new }
    ensures turn { WhereTold (S.told store.old) (S.told store.new) (λ before after.
        Records turning.now.cache.now (kept turning.now.implementation.now.prelude) result (state turned.now before (S.faults store.old))
        found after (S.faults store.new)) }
    ensures fuel { IfOk result (λ r. tally.new.fuel ≡ tally.old.fuel + turn_spent
        (kept turning.now.implementation.now.prelude) turned.now.records found r.reused) }
{
    let due = turning.cache.due(turning.alloc, found)?;
    let stored = ask(turning, turned, &due, store)?;
    match stored {
        Some(library) => Ok(Recorded {
            library,
            reused: true,
        }),
        None => expand_and_keep(turning, turned, due, store, tally),
    }
}

// The progress, and the record that a turn gives behind it.
fn with_recorded(alloc: Global, turned: Turned, recorded: Recorded) -> Result<Turned, Memory>
    ensures { IfOk result (λ t. t ≡ with_record turned recorded.library recorded.reused) }
{
    let Recorded { library, reused } = recorded;
    turned.with(alloc, library, reused)
}

// The turn of one library.
fn take_turn<S: Store, N: Ledger, L: Ledger>(
    turning: &Turning,
    turned: Turned,
    found: Found,
    store: &mut S,
    tally: &mut Tally<N, L>,
) -> Result<Turned, Stop>
    ensures later { S.faults store.old ≤ S.faults store.new }
    ensures turn { WhereTold (S.told store.old) (S.told store.new) (λ before after.
        TakesTurn turning.now.cache.now (kept turning.now.implementation.now.prelude) result (state turned before (S.faults store.old))
        found after (S.faults store.new)) }
    ensures fuel { IfOk result (λ t. TurnSpends (kept turning.now.implementation.now.prelude) turned found t tally.old.fuel tally.new.fuel) }
{
    let recorded = ask_or_expand(turning, &turned, found, store, tally)?;
    let turned = with_recorded(turning.alloc, turned, recorded)?;
    Ok(turned)
}

// The turns of libraries, one after another.
fn take_each<S: Store, N: Ledger, L: Ledger>(
    turning: &Turning,
    turned: Turned,
    libraries: NameTable<Found>,
    store: &mut S,
    tally: &mut Tally<N, L>,
) -> Result<Turned, Stop>
    ensures later { S.faults store.old ≤ S.faults store.new }
    ensures turns { WhereTold (S.told store.old) (S.told store.new) (λ before after.
        TakeTurns turning.now.cache.now (kept turning.now.implementation.now.prelude) result (state turned before (S.faults store.old))
        (map (λ row. row.1) libraries) after (S.faults store.new)) }
    ensures fuel { IfOk result (λ t. TurnsSpend (kept turning.now.implementation.now.prelude) turned
        (map (λ row. row.1) libraries) t tally.old.fuel tally.new.fuel) }
{
    let mut turned = turned;
    for found in libraries.into_values() {
        turned = take_turn(turning, turned, found, store, tally)?;
    }
    Ok(turned)
}

/// The record of the derived library, and behind it those of others, in the order of loading.
pub(crate) fn take_turns<S: Store, N: Ledger, L: Ledger>(
    turning: &Turning,
    libraries: NameTable<Found>,
    store: &mut S,
    tally: &mut Tally<N, L>,
) -> Result<Turned, Stop>
    ensures later { S.faults store.old ≤ S.faults store.new }
    ensures turns { WhereTold (S.told store.old) (S.told store.new) (λ before after.
        TakeFrom turning.now.cache.now (kept turning.now.implementation.now.prelude) (derived_record (kept turning.now.implementation.now.prelude))
        result (map (λ row. row.1) libraries) (changed before (S.faults store.old) after (S.faults store.new))) }
    ensures fuel { IfOk result (λ t. tally.new.fuel ≡ tally.old.fuel + progress_spent (kept turning.now.implementation.now.prelude)
        (map (λ row. row.1) libraries) t) }
{
    let derived = derived_record(turning.alloc, turning.implementation, tally)?;
    let turned = Turned::new(turning.alloc, derived)?;
    take_each(turning, turned, libraries, store, tally)
}
