//! What a run has come to, one library after another.

ghost use Rattle.std.specs.Prelude.{◌≡◌, [], ◌∷◌, ◌++◌, Bool, IfOk};
ghost use Rattle.run_reuse.specs.Progress.{begun, with_record};
ghost use Rattle.run_library.specs.Records.{needed_records};

use base_data::items::Items;
use base_data::memory::Memory;
use core_language::record::CompiledLibrary;
use core_pattern_bytes::held::HeldReading;
use expand_follows::earlier::{NeededEarlier, Places};
use run_library::records::Records;
use std::alloc::Global;
use std::marker::Model;
use stx_tree::frame_row::FrameRow;

/// The records so far, that of the derived library first, what they bind and define, and which of the others were reused.
#[derive(Drop)]
pub struct Turned {
    records: HeldReading<Records>,
    places: Places,
    reused: Items<bool>,
}

impl Model for Turned {
    ghost use Rattle.expand_follows.specs.Earlier.{ArePlaces};
    ghost use Rattle.run_reuse.specs.Progress.{ReuseProgress, progress_code};

    ghost Value = { ReuseProgress };

    ghost coded = { progress_code };

    ghost view = { λ t. record { records = t.records.value; reused = t.reused } };

    ghost invariant = { λ t. ArePlaces t.places t.records.value };
}

impl Turned {
    /// The derived library alone.
    pub fn new(alloc: Global, derived: CompiledLibrary) -> Result<Turned, Memory>
        ensures { IfOk result (λ t. t ≡ begun derived) }
    {
        let mut places = Places::new(alloc);
        places.push(alloc, &derived, 0)?;
        let mut records = Records::new(alloc)?;
        records.push(alloc, derived)?;
        let reused = Items::new(alloc);
        Ok(Turned {
            records: HeldReading::new(records),
            places,
            reused,
        })
    }

    pub fn records(&self) -> &Records
        ensures { result.now ≡ self.now.records }
    {
        &self.records.value
    }

    /// The rows of the last record, with which those of the next are likely to share symbols.
    pub(crate) fn last_rows(&self) -> &[FrameRow] {
        match self.records.value.ready().as_slice().last() {
            Some(last) => last.frames.as_slice(),
            None => &[],
        }
    }

    /// The records that are marked.
    #[tactic(auto, using(run_library::proofs::PlaceLemmas::at_marks))]
    pub fn earlier<'a>(&'a self, marks: &'a [bool]) -> NeededEarlier<'a>
        ensures { result ≡ needed_records self.now.records marks.now }
    {
        NeededEarlier::new(self.records.value.ready().as_slice(), &self.places, marks)
    }

    /// The records, and one more behind them.
    pub fn with(self, alloc: Global, last: CompiledLibrary, reused: bool) -> Result<Turned, Memory>
        ensures { IfOk result (λ t. t ≡ with_record self last reused) }
    {
        let Turned {
            mut records,
            mut places,
            reused: mut flags,
        } = self;
        let place = records.value.ready().as_slice().len();
        places.push(alloc, &last, place)?;
        records.value.push(alloc, last)?;
        flags.push(reused)?;
        Ok(Turned {
            records,
            places,
            reused: flags,
        })
    }

    /// The records, and which of them were reused but for the first. It takes no memory.
    pub(crate) fn into_parts(self) -> (Records, Items<bool>)
        ensures records { result.0 ≡ self.records }
        ensures reused { result.1 ≡ self.reused }
    {
        let Turned {
            records,
            reused,
            ..
        } = self;
        (records.take(), reused)
    }
}
