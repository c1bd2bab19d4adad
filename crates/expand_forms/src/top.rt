//! The body of a library or program (R6RS 7.1 and 8), and the record that comes of it.

ghost use Rattle.std.specs.Prelude.{◌≡◌, [], IfOk, OnOk};
ghost use Rattle.base_data.specs.Act.{GivesAfter};
ghost use Rattle.base_data.specs.Gives.{Gives};
ghost use Rattle.eval_stage.specs.Libraries.{earlier_in};
ghost use Rattle.expand_forms.specs.Body.{finish_one, finish_all, splice};
ghost use Rattle.expand_forms.specs.Expression.{inside, full_room};
ghost use Rattle.expand_forms.specs.Top.{export, all_exports, exports, with_label_of, with_labels_of, code_of, with_lines_of, refs_of, record_of, linked_in, spent_in, kind_of, top_at, body_at, first_pass, second_pass, top};

use crate::at::{FormAt, ItemAt};
use crate::body::{begun, finish_one, item};
use crate::expression::{stamp_all, with_room};
use crate::inside::ROOM;
use crate::site::Site;
use base_data::fault::{FaultKind, Stop};
use base_data::imported_name::ImportedName;
use base_data::items::Items;
use base_data::library::LibName;
use base_data::memory::Memory;
use base_data::name::{FrameNo, Label};
use base_data::span::Span;
use base_data::steps::Steps;
use base_data::symbol::Symbol;
use core_language::code::Core;
use core_language::link::Link;
use core_language::record::{CompiledLibrary, Line};
use core_language::references::references;
use core_language::share::share_library;
use eval_stage::libraries::LibraryList;
use expand_heads::taken::{BodyAt, BodyKind, Taken, Waiting};
use expand_standing::expansion::Expansion;
use expand_standing::means::{Counts, Means};
use std::alloc::Global;
use std::sync::ledger::Ledger;
use stx_object::syn::Syn;

/// The body of a library or program (R6RS 7.1 and 8), with what its record has of its form.
#[derive(Drop)]
pub struct LibraryBody {
    /// The path of the file.
    pub path: Symbol,
    /// The numbers of its version (R6RS 7.1), from left to right; there may be none.
    pub version: Items<u64>,
    /// Where a form without a span stands.
    pub place: Span,
    /// External names, each with the identifier that it stands for.
    pub exports: Items<(Symbol, Syn)>,
    pub forms: Items<Syn>,
}

/// What a body has besides its exports and its forms, and the frame in which it is expanded.
#[derive(Drop)]
pub struct TopAt {
    pub path: Symbol,
    pub version: Items<u64>,
    /// The frame of imports and definitions.
    pub frame: FrameNo,
    pub place: Span,
}

/// The record of a library or program, and its links in the order in which they were noted.
#[derive(Drop)]
pub struct Linked {
    pub library: CompiledLibrary,
    pub links: Items<Link>,
}

/// The label that an export stands for, with its external name.
#[tactic(auto, unfolding(crate::specs::Top::export))]
fn export<N: Ledger, L: Ledger>(
    state: &mut Expansion<L>,
    at: &TopAt,
    external: &Symbol,
    id: &Syn,
    nodes: &mut Steps<N>,
) -> Result<ImportedName, Stop>
    ensures { GivesAfter (λ e. e) result state.new (export at.now (external.now, id.now) state.old) }
{
    let id = id.stamp(state.alloc(), at.frame.share()?, nodes)?;
    match state.stands(&id)? {
        None => Err(state.fault_word(FaultKind::ExportUnbound, &id, &id, &at.place)),
        Some(label) => {
            let name = external.share()?;
            Ok(ImportedName { name, label })
        }
    }
}

fn all_exports<N: Ledger, L: Ledger>(
    state: &mut Expansion<L>,
    at: &TopAt,
    list: &[(Symbol, Syn)],
    nodes: &mut Steps<N>,
) -> Result<Items<ImportedName>, Stop>
    ensures { GivesAfter (λ es. es) result state.new (all_exports at.now list.now state.old) }
{
    let mut done = Items::new(state.alloc());
    for (external, id) in list {
        let one = export(state, at, external, id, nodes)?;
        done.push(one)?;
    }
    Ok(done)
}

/// The exports, which are looked for between the two passes.
#[tactic(auto, unfolding(crate::specs::Top::exports))]
fn exports<N: Ledger, L: Ledger>(
    state: &mut Expansion<L>,
    at: &TopAt,
    list: &[(Symbol, Syn)],
    nodes: &mut Steps<N>,
) -> Result<Items<ImportedName>, Stop>
    ensures { GivesAfter (λ es. es) result state.new (exports at.now list.now state.old) }
{
    let done = all_exports(state, at, list, nodes)?;
    state.export_labels(done.as_slice())?;
    Ok(done)
}

fn add_label(
    alloc: Global,
    own: &LibName,
    done: &mut LibraryList,
    label: &Label,
) -> Result<(), Memory>
    ensures { OnOk result (done.new ≡ with_label_of own.now done.old label.now) }
{
    if *label.0.library == *own {
        return Ok(());
    }
    done.add(alloc, &label.0.library)
}

fn add_labels(
    alloc: Global,
    own: &LibName,
    done: &mut LibraryList,
    labels: &[Label],
) -> Result<(), Memory>
    ensures { OnOk result (done.new ≡ with_labels_of own.now done.old labels.now) }
{
    for label in labels {
        add_label(alloc, own, done, label)?;
    }
    Ok(())
}

fn code_of(line: &Line) -> &Core
    ensures { result.now ≡ code_of line.now }
{
    match line {
        Line::Define(_, core) => core,
        Line::Expr(core) => core,
    }
}

/// The other libraries whose variables the lines mention, each once in order of first place.
fn refs_of(alloc: Global, own: &LibName, lines: &[Line]) -> Result<Items<LibName>, Memory>
    ensures { IfOk result (λ ks. ks ≡ refs_of own.now lines.now) }
{
    let mut done = LibraryList::new(alloc);
    for line in lines {
        let labels = references(alloc, code_of(line))?;
        add_labels(alloc, own, &mut done, labels.as_slice())?;
    }
    done.into_items(alloc)
}

fn record_of<L: Ledger>(
    state: &mut Expansion<L>,
    at: TopAt,
    exports: Items<ImportedName>,
    lines: Vec<Line>,
) -> Result<CompiledLibrary, Memory>
    ensures given { IfOk result (λ r. r ≡ record_of at exports lines.items state.old) }
    ensures links { state.new.links ≡ state.old.links }
    ensures spent { OnOk result (state.new.spent ≡ state.old.spent) }
{
    let alloc = state.alloc();
    let name = share_library(alloc, state.library())?;
    let refs = refs_of(alloc, &name, lines.as_slice())?;
    let frames = state.own_rows()?;
    let bindings = state.own_bindings()?;
    Ok(CompiledLibrary {
        path: at.path,
        name,
        version: at.version,
        exports,
        bindings,
        frames,
        run: Items::from_vec(lines),
        refs,
    })
}

fn kind_of(library: &LibName) -> BodyKind
    ensures { result ≡ kind_of library.now }
{
    match library {
        LibName::Core => BodyKind::Library,
        LibName::Derived => BodyKind::Library,
        LibName::Prelude => BodyKind::Library,
        LibName::Program => BodyKind::Program,
        LibName::User(_) => BodyKind::Library,
    }
}

/// The line of one that has waited, which is dropped here.
fn finish_next<N: Ledger, L: Ledger>(
    state: &mut Expansion<L>,
    one: Waiting,
    at: &FormAt<Means>,
    counts: &mut Counts<N, L>,
) -> Result<Line, Stop>
    ensures { GivesAfter (λ l. l) result state.new (finish_one (inside (earlier_in at.now.means.now.earlier) at.now.room) at.now.site.now.level one state.old) }
{
    finish_one(state, &one, at, counts)
}

/// The second pass, as `finish_all`. What has waited is dropped as soon as it is done: the forms of a long body
/// and their core code aren't kept side by side.
#[tactic(auto, using(crate::proofs::Taking::each_none))]
fn finish_each<N: Ledger, L: Ledger>(
    state: &mut Expansion<L>,
    waiting: Items<Waiting>,
    at: &FormAt<Means>,
    counts: &mut Counts<N, L>,
) -> Result<Vec<Line>, Stop>
    ensures { GivesAfter (λ v. v.items) result state.new
        (finish_all (inside (earlier_in at.now.means.now.earlier) at.now.room) at.now.site.now.level waiting state.old) }
{
    let waiting = waiting.into_vec();
    let mut lines = with_room(state.alloc(), waiting.len());
    let mut left = waiting.into_iter();
    while let Some(one) = left.next() {
        let line = finish_next(state, one, at, counts)?;
        lines.push(line)?;
    }
    Ok(lines)
}

/// The second pass, over what has waited since the first.
fn finish_taken<N: Ledger, L: Ledger>(
    state: &mut Expansion<L>,
    place: &Span,
    taken: Taken,
    means: &Means,
    counts: &mut Counts<N, L>,
) -> Result<Vec<Line>, Stop>
    ensures { GivesAfter (λ v. v.items) result state.new
        (finish_all (inside (earlier_in means.now.earlier) full_room) 0 taken.waiting state.old) }
{
    let Taken { waiting, kept, .. } = taken;
    drop(kept);
    let site = Site {
        place,
        level: 0,
        depth: 0,
    };
    let second = FormAt {
        site: &site,
        room: ROOM,
        means,
    };
    finish_each(state, waiting, &second, counts)
}

fn body_at<L: Ledger>(state: &Expansion<L>, at: &TopAt) -> Result<BodyAt, Memory>
    ensures { IfOk result (λ b. b ≡ body_at at.now state.now.library) }
{
    let frame = at.frame.share()?;
    let place = at.place.share()?;
    let kind = kind_of(state.library());
    Ok(BodyAt {
        frame,
        place,
        level: 0,
        kind,
    })
}

/// The first pass over forms, as `splice`. Each is dropped as soon as it is done: a use and what it expands to
/// aren't kept side by side.
#[tactic(auto, using(crate::proofs::Taking::gather_none))]
fn splice_each<N: Ledger, L: Ledger>(
    state: &mut Expansion<L>,
    at: &ItemAt<Means>,
    taken: &mut Taken,
    forms: Items<Syn>,
    counts: &mut Counts<N, L>,
) -> Result<(), Stop>
    ensures { GivesAfter (λ _. taken.new) result state.new
        (splice (inside (earlier_in at.now.means.now.earlier) at.now.room) at.now.body.now at.now.depth taken.old forms state.old) }
{
    let mut left = forms.into_vec().into_iter();
    while let Some(form) = left.next() {
        item(state, at, taken, &form, counts)?;
    }
    Ok(())
}

/// The first pass over the body of a library or program.
#[tactic(auto, unfolding(crate::specs::Top::first_pass))]
fn first_pass<N: Ledger, L: Ledger>(
    state: &mut Expansion<L>,
    at: &TopAt,
    forms: Items<Syn>,
    means: &Means,
    counts: &mut Counts<N, L>,
) -> Result<Taken, Stop>
    ensures { GivesAfter (λ t. t) result state.new (first_pass (inside (earlier_in means.now.earlier) full_room) at.now forms state.old) }
{
    let stamped = stamp_all(state.alloc(), &at.frame, forms.as_slice(), counts.nodes)?;
    drop(forms);
    let body = body_at(state, at)?;
    let mut taken = begun(state.alloc());
    let items = ItemAt {
        body: &body,
        depth: 0,
        room: ROOM,
        means,
    };
    splice_each(state, &items, &mut taken, stamped, counts)?;
    Ok(taken)
}

/// The body of a library or program, whose frame of imports and definitions this is: its record and links. Of the
/// state that is left its fuel is known alone.
#[tactic(auto, unfolding(crate::specs::Top::top, crate::specs::Top::second_pass))]
pub fn top<N: Ledger, L: Ledger>(
    state: &mut Expansion<L>,
    frame: FrameNo,
    body: LibraryBody,
    means: &Means,
    counts: &mut Counts<N, L>,
) -> Result<Linked, Stop>
    ensures linked { Gives (λ r. r) result (linked_in (top
        (inside (earlier_in means.now.earlier) full_room) (top_at frame body) body.exports body.forms state.old)) }
    ensures spent { OnOk result (state.new.spent ≡ spent_in
        (top (inside (earlier_in means.now.earlier) full_room) (top_at frame body) body.exports body.forms state.old)) }
{
    let LibraryBody {
        path,
        version,
        place,
        exports: list,
        forms,
    } = body;
    let at = TopAt {
        path,
        version,
        frame,
        place,
    };
    let taken = first_pass(state, &at, forms, means, counts)?;
    let exports = exports(state, &at, list.as_slice(), counts.nodes)?;
    let lines = finish_taken(state, &at.place, taken, means, counts)?;
    let library = record_of(state, at, exports, lines)?;
    let links = state.take_links();
    Ok(Linked { library, links })
}
