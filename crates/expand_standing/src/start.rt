//! The state that the expansion of a library begins with (R6RS 7.1).

ghost use Rattle.std.specs.Prelude.{◌≡◌, ◌++◌, [], IfOk, OnOk, map};
ghost use Rattle.stx_frames.specs.Scope.{adopted};
ghost use Rattle.eval_code.specs.Codes as table;
ghost use Rattle.core_records.specs.Frame.{record_frame};
ghost use Rattle.expand_standing.specs.Ready.{needed_records};
ghost use Rattle.expand_standing.specs.Start.{second_name, first_frame, import_row, rows_of, bindings_of, started};

use crate::expansion::Expansion;
use crate::in_scope::InScope;
use crate::ready::ReadyRecords;
use base_data::imported_name::ImportedName;
use base_data::items::Items;
use base_data::library::LibName;
use base_data::map::NameMap;
use base_data::memory::Memory;
use base_data::name::{CodeNo, FrameNo, FreeNames, Name};
use base_fuel::fuel::Unspent;
use core_known::known::KnownBindings;
use core_language::code::Code;
use core_language::labels::Labels;
use core_records::frame::record_frame;
use eval_stage::stage::Stage;
use std::alloc::Global;
use std::rc::Rc;
use std::sync::ledger::Ledger;
use stx_scope::scope::Frames;
use stx_tree::frame_row::FrameRow;
use stx_tree::marks::Marks;

/// At most so many uses of keywords are expanded in one library.
const MOST_USES: u32 = 1_000_000;

/// The marks, for both tables.
fn marks_of(alloc: Global, needs: &[bool]) -> Result<Rc<Items<bool>>, Memory>
    ensures { IfOk result (λ m. m.value ≡ needs.now) }
{
    let mut marks = Items::new(alloc);
    for mark in needs {
        marks.push(*mark)?;
    }
    let marks = Rc::new(alloc, marks)?;
    Ok(marks)
}

/// The row of an imported name in the library's frame.
fn import_row(alloc: Global, frame: &FrameNo, import: &ImportedName) -> Result<FrameRow, Memory>
    ensures { IfOk result (λ r. r ≡ import_row frame.now import.now) }
{
    let frame = frame.share()?;
    let symbol = import.name.share()?;
    let label = import.label.share()?;
    Ok(FrameRow {
        frame,
        symbol,
        marks: Marks::new(alloc),
        label,
    })
}

fn import_rows(
    alloc: Global,
    frame: &FrameNo,
    imports: &[ImportedName],
) -> Result<Vec<FrameRow>, Memory>
    ensures { IfOk result (λ rs. rs.items ≡ map (import_row frame.now) imports.now) }
{
    let mut rows = Vec::new(alloc);
    for import in imports {
        let row = import_row(alloc, frame, import)?;
        rows.push(row)?;
    }
    Ok(rows)
}

/// Adds the imported names in a frame that is new.
fn adopt_imports(
    alloc: Global,
    frames: &mut Frames,
    frame: &FrameNo,
    imports: &[ImportedName],
) -> Result<(), Memory>
    ensures { OnOk result (frames.new ≡ adopted frames.old (map (import_row frame.now) imports.now)) }
{
    if frames.has_frame(frame) {
        return Err(Memory);
    }
    let rows = import_rows(alloc, frame, imports)?;
    frames.adopt(rows.as_slice())
}

/// Adds rows of frames that are new; that one is there is refused as want of memory is.
fn adopt_new(frames: &mut Frames, rows: &[FrameRow]) -> Result<(), Memory>
    ensures { OnOk result (frames.new ≡ adopted frames.old rows.now) }
{
    if !frames.are_new(rows) {
        return Err(Memory);
    }
    frames.adopt(rows)
}

/// Adds the frame of what record forms introduce, and then the imported names.
#[tactic(auto, using(crate::proofs::Adopted::adopted_append))]
fn adopt_both(
    alloc: Global,
    frames: &mut Frames,
    records: &[FrameRow],
    frame: &FrameNo,
    imports: &[ImportedName],
) -> Result<(), Memory>
    ensures { OnOk result (frames.new ≡ adopted frames.old (records.now ++ map (import_row frame.now) imports.now)) }
{
    adopt_new(frames, records)?;
    adopt_imports(alloc, frames, frame, imports)
}

/// The library's frame.
fn frame_of(library: &Rc<LibName>) -> Result<FrameNo, Memory>
    ensures { IfOk result (λ f. f ≡ first_frame library.now.value) }
{
    let library = library.clone()?;
    Ok(FrameNo(Name { library, number: 0 }))
}

/// The library's names but the first, which is that of its frame.
fn names_of(library: &Rc<LibName>) -> Result<FreeNames, Memory>
    ensures { IfOk result (λ n. n ≡ second_name library.now.value) }
{
    let library = library.clone()?;
    let mut names = FreeNames::new(library);
    let _frame = names.next()?;
    Ok(names)
}

/// What a library is expanded in.
#[derive(Drop)]
pub struct Environment<'a> {
    /// The records of a run.
    pub earlier: &'a ReadyRecords,
    /// Which of them the library needs.
    pub needs: &'a [bool],
    /// The names that it imports, with their labels.
    pub imports: &'a [ImportedName],
}

/// What an expansion begins with, but for the codes.
#[derive(Drop)]
struct Beginning {
    library: Rc<LibName>,
    names: FreeNames,
    frames: Frames,
    bindings: KnownBindings,
}

/// What the marked records bind, then what record forms introduce, and the imports.
#[tactic(auto, using(crate::proofs::Adopted::adopted_append))]
fn first_frames(
    alloc: Global,
    environment: &Environment,
    marks: Rc<Items<bool>>,
    records: &[FrameRow],
    frame: &FrameNo,
) -> Result<Frames, Memory>
    ensures { IfOk result (λ fs. fs ≡ adopted [] (rows_of (needed_records marks.value environment.now.earlier.now)
        ++ (records.now ++ map (import_row frame.now) environment.now.imports.now))) }
{
    let mut frames = environment.earlier.frames(alloc, marks)?;
    adopt_both(alloc, &mut frames, records, frame, environment.imports)?;
    Ok(frames)
}

/// What an expansion begins with, where what record forms introduce is in these rows.
fn begin_over(
    alloc: Global,
    library: LibName,
    environment: &Environment,
    records: &[FrameRow],
) -> Result<Beginning, Memory>
    ensures library { IfOk result (λ b. b.library.value ≡ library) }
    ensures names { IfOk result (λ b. b.names ≡ second_name library) }
    ensures frames { IfOk result (λ b. b.frames ≡ adopted []
        (rows_of (needed_records environment.now.needs.now environment.now.earlier.now)
        ++ (records.now ++ map (import_row (first_frame library)) environment.now.imports.now))) }
    ensures bindings { IfOk result (λ b. b.bindings ≡ bindings_of (needed_records environment.now.needs.now environment.now.earlier.now)) }
{
    let library = Rc::new(alloc, library)?;
    let names = names_of(&library)?;
    let frame = frame_of(&library)?;
    let marks = marks_of(alloc, environment.needs)?;
    let bindings = environment.earlier.bindings(alloc, marks.clone()?)?;
    let frames = first_frames(alloc, environment, marks, records, &frame)?;
    Ok(Beginning {
        library,
        names,
        frames,
        bindings,
    })
}

fn begin(alloc: Global, library: LibName, environment: &Environment) -> Result<Beginning, Memory>
    ensures library { IfOk result (λ b. b.library.value ≡ library) }
    ensures names { IfOk result (λ b. b.names ≡ second_name library) }
    ensures frames { IfOk result (λ b. b.frames ≡ adopted []
        (rows_of (needed_records environment.now.needs.now environment.now.earlier.now)
        ++ (record_frame ++ map (import_row (first_frame library)) environment.now.imports.now))) }
    ensures bindings { IfOk result (λ b. b.bindings ≡ bindings_of (needed_records environment.now.needs.now environment.now.earlier.now)) }
{
    let records = record_frame(alloc)?;
    begin_over(alloc, library, environment, records.as_slice())
}

/// What the evaluations of an expansion begin with: the codes of procedures that are texts, and what they spend.
#[derive(Drop)]
pub struct Supplies<L: Ledger> {
    pub codes: NameMap<CodeNo, Rc<Code>>,
    pub unspent: Unspent<L>,
}

/// The state before the first form. It takes no memory.
fn expansion_with<L: Ledger>(
    alloc: Global,
    beginning: Beginning,
    supplies: Supplies<L>,
) -> Expansion<L>
    ensures { result ≡ record {
      library = beginning.library.value;
      names = beginning.names;
      frames = beginning.frames;
      bindings = beginning.bindings;
      exports = [];
      assigned = [];
      uses_left = 1000000;
      record_types = 0;
      index = 0;
      scope = [];
      cells = [];
      codes = table.seen supplies.codes.entries;
      globals = [];
      evaluated = [];
      keywords = [];
      spent = 0;
      links = [];
    } }
{
    let Beginning {
        library,
        names,
        frames,
        bindings,
    } = beginning;
    let Supplies { codes, unspent } = supplies;
    Expansion {
        alloc,
        library,
        stage: Stage::new(alloc, names, frames, codes, unspent),
        bindings,
        exports: Labels::new(alloc),
        assigned: Labels::new(alloc),
        uses_left: MOST_USES,
        record_types: 0,
        index: 0,
        scope: InScope::new(alloc),
        links: Items::new(alloc),
    }
}

impl<L: Ledger> Expansion<L> {
    /// The state that the expansion of a library begins with. Two
    /// imports of one name are refused as want of memory is.
    #[tactic(auto, unfolding(crate::specs::Start::started))]
    pub fn start(
        alloc: Global,
        library: LibName,
        environment: &Environment,
        supplies: Supplies<L>,
    ) -> Result<Expansion<L>, Memory>
        ensures { IfOk result (λ e. e ≡ started library (needed_records environment.now.needs.now environment.now.earlier.now)
            environment.now.imports.now (table.seen supplies.codes.entries)) }
    {
        match begin(alloc, library, environment) {
            Ok(beginning) => Ok(expansion_with(alloc, beginning, supplies)),
            Err(memory) => Err(memory),
        }
    }

    /// The library's frame, which holds imports and definitions.
    pub fn first_frame(&self) -> Result<FrameNo, Memory>
        ensures { IfOk result (λ f. f ≡ first_frame self.now.library) }
    {
        frame_of(&self.library)
    }
}
