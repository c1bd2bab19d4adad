//! Records of libraries, whose frames and bindings are ready for all that need them.

ghost use Rattle.std.specs.Prelude.{◌≡◌, ◌∷◌, ◌++◌, [], map, IfOk, OnOk, OnErr};
ghost use Rattle.stx_frames.specs.Scope.{adopted};
ghost use Rattle.expand_standing.specs.Ready.{frames_part, bindings_part, needed_records, AreReady};
ghost use Rattle.expand_standing.specs.Start.{rows_of, bindings_of};

use base_data::items::Items;
use base_data::memory::Memory;
use core_known::given::GivenBindings;
use core_known::known::KnownBindings;
use core_known::shared::SharedBindings;
use core_language::record::CompiledLibrary;
use core_language::share::share_library;
use std::alloc::Global;
use std::marker::Model;
use std::rc::Rc;
use stx_frames::given::GivenFrames;
use stx_frames::shared::SharedFrames;
use stx_scope::scope::Frames;

/// The tables of a run, which each expansion shares while it lasts.
#[derive(Drop)]
pub struct Tables {
    frames: Rc<SharedFrames>,
    bindings: Rc<SharedBindings>,
}

/// The records of a run, in the order of coming.
#[derive(Drop)]
pub struct ReadyRecords {
    records: Vec<CompiledLibrary>,
    /// None are left once memory was refused: then all else is refused as well.
    tables: Option<Tables>,
}

impl Model for ReadyRecords {
    ghost use Rattle.std.specs.Prelude.{List, IfSome};
    ghost use Rattle.std.specs.Coded.{coded_list};
    ghost use Rattle.core_language.specs.declared.record.CompiledLibrary.{CompiledLibrary};
    ghost use Rattle.core_language.specs.contracts.record.CompiledLibrary as of_record;
    ghost use Rattle.expand_standing.specs.Ready.{AreReady};

    ghost Value = { List CompiledLibrary };

    ghost coded = { coded_list of_record.the_row.coded };

    ghost view = { λ r. r.records.items };

    ghost invariant = { λ r. IfSome r.tables (λ t. AreReady r.records.items t.frames.value t.bindings.value) };
}

/// The frames of a record.
fn frames_of(alloc: Global, one: &CompiledLibrary) -> Result<GivenFrames, Memory>
    ensures { IfOk result (λ g. g ≡ frames_part one.now) }
{
    let library = share_library(alloc, &one.name)?;
    let library = Rc::new(alloc, library)?;
    GivenFrames::new(alloc, library, one.frames.as_slice())
}

/// What a record binds.
fn bindings_in(alloc: Global, one: &CompiledLibrary) -> Result<GivenBindings, Memory>
    ensures { IfOk result (λ g. g ≡ bindings_part one.now) }
{
    let library = share_library(alloc, &one.name)?;
    let library = Rc::new(alloc, library)?;
    GivenBindings::new(alloc, library, one.bindings.as_slice())
}

/// The frames of all the records, in a table of their own.
fn frames_anew(alloc: Global, records: &[CompiledLibrary]) -> Result<SharedFrames, Memory>
    ensures { IfOk result (λ s. s ≡ map frames_part records.now) }
{
    let mut table = SharedFrames::new(alloc);
    for one in records {
        let given = frames_of(alloc, one)?;
        table.push(&given)?;
    }
    Ok(table)
}

/// What all the records bind, in a table of its own.
fn bindings_anew(alloc: Global, records: &[CompiledLibrary]) -> Result<SharedBindings, Memory>
    ensures { IfOk result (λ s. s ≡ map bindings_part records.now) }
{
    let mut table = SharedBindings::new(alloc);
    for one in records {
        let bound = bindings_in(alloc, one)?;
        table.push(&bound)?;
    }
    Ok(table)
}

/// The table of the frames, or one that is made anew while an expansion shares it.
fn own_frames(
    alloc: Global,
    shared: Rc<SharedFrames>,
    records: &[CompiledLibrary],
) -> Result<SharedFrames, Memory>
    requires { shared.value ≡ map frames_part records.now }
    ensures { IfOk result (λ s. s ≡ shared.value) }
{
    match Rc::try_unwrap(shared) {
        Ok(table) => Ok(table),
        Err(_) => frames_anew(alloc, records),
    }
}

/// The table of what is bound, or one that is made anew while an expansion shares it.
fn own_bindings(
    alloc: Global,
    shared: Rc<SharedBindings>,
    records: &[CompiledLibrary],
) -> Result<SharedBindings, Memory>
    requires { shared.value ≡ map bindings_part records.now }
    ensures { IfOk result (λ s. s ≡ shared.value) }
{
    match Rc::try_unwrap(shared) {
        Ok(table) => Ok(table),
        Err(_) => bindings_anew(alloc, records),
    }
}

/// The tables of the records, with one more record's part in each.
fn with_record(
    alloc: Global,
    tables: Tables,
    records: &[CompiledLibrary],
    one: &CompiledLibrary,
) -> Result<Tables, Memory>
    requires { AreReady records.now tables.frames.value tables.bindings.value }
    ensures frames { IfOk result (λ t. t.frames.value ≡ tables.frames.value ++ frames_part one.now ∷ []) }
    ensures bindings { IfOk result (λ t. t.bindings.value ≡ tables.bindings.value ++ bindings_part one.now ∷ []) }
{
    let given = frames_of(alloc, one)?;
    let bound = bindings_in(alloc, one)?;
    let Tables { frames, bindings } = tables;
    let mut frames = own_frames(alloc, frames, records)?;
    frames.push(&given)?;
    let frames = Rc::new(alloc, frames)?;
    let mut bindings = own_bindings(alloc, bindings, records)?;
    bindings.push(&bound)?;
    let bindings = Rc::new(alloc, bindings)?;
    Ok(Tables { frames, bindings })
}

impl ReadyRecords {
    /// No records.
    pub fn new(alloc: Global) -> Result<ReadyRecords, Memory>
        ensures { IfOk result (λ r. r ≡ []) }
    {
        let frames = Rc::new(alloc, SharedFrames::new(alloc))?;
        let bindings = Rc::new(alloc, SharedBindings::new(alloc))?;
        Ok(ReadyRecords {
            records: Vec::new(alloc),
            tables: Some(Tables { frames, bindings }),
        })
    }

    /// Puts a record at the end. While an expansion shares the tables, they are made anew. Refused as want of
    /// memory are a second record of one library, one with rows of frames that aren't its library's or with
    /// labels that aren't, one that binds a label twice, and one that has two rows with one frame, symbol and
    /// marks. After a refusal the records are as before, and all else is refused.
    pub fn push(&mut self, alloc: Global, last: CompiledLibrary) -> Result<(), Memory>
        ensures ok { OnOk result (self.new ≡ self.old ++ last ∷ []) }
        ensures err { OnErr result (self.new ≡ self.old) }
    {
        let Some(tables) = self.tables.take() else {
            return Err(Memory);
        };
        let tables = with_record(alloc, tables, &self.records, &last)?;
        self.records.push(last)?;
        self.tables = Some(tables);
        Ok(())
    }

    pub fn as_slice(&self) -> &[CompiledLibrary]
        ensures { result.now ≡ self.now }
    {
        &self.records
    }

    pub fn into_records(self) -> Vec<CompiledLibrary>
        ensures { result.items ≡ self }
    {
        self.records
    }

    /// The frames of the records that are marked.
    pub(crate) fn frames(&self, alloc: Global, needs: Rc<Items<bool>>) -> Result<Frames, Memory>
        ensures { IfOk result (λ fs. fs ≡ adopted [] (rows_of (needed_records needs.value self.now))) }
    {
        let Some(tables) = &self.tables else {
            return Err(Memory);
        };
        let shared = tables.frames.clone()?;
        Ok(Frames::over(alloc, shared, needs))
    }

    /// What the records bind that are marked.
    pub(crate) fn bindings(
        &self,
        alloc: Global,
        needs: Rc<Items<bool>>,
    ) -> Result<KnownBindings, Memory>
        ensures { IfOk result (λ bs. bs ≡ bindings_of (needed_records needs.value self.now)) }
    {
        let Some(tables) = &self.tables else {
            return Err(Memory);
        };
        let shared = tables.bindings.clone()?;
        Ok(KnownBindings::over(alloc, shared, needs))
    }
}
