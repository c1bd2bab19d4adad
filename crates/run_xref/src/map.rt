//! The binding map.

ghost use Rattle.std.specs.Prelude.{◌≡◌, map, IfOk};
ghost use Rattle.run_xref.specs.Binders.{row_by};
ghost use Rattle.run_xref.specs.Map.{binding_map};
ghost use Rattle.run_xref.specs.Rows.{pair_at, target_at};

use crate::binders::{aim, binders_of};
use crate::files::{at_of, files_of, span_at};
use crate::pair::Pair;
use crate::ranked::ranked;
use crate::rows::{Aim, At, LinkRow};
use base_data::items::Items;
use base_data::memory::Memory;
use base_data::name::Label;
use core_language::link::{Link, Target};
use indexmap::IndexMap;
use load_import::table::NameTable;
use std::alloc::Global;

fn row_of(files: &NameTable<()>, binders: &IndexMap<Label, At>, link: &Link) -> LinkRow
    ensures { result ≡ row_by files.now binders.now.entries link.now }
{
    LinkRow {
        at: at_of(files, &link.span),
        aim: aim(binders, link),
    }
}

fn rows_of(
    alloc: Global,
    files: &NameTable<()>,
    binders: &IndexMap<Label, At>,
    links: &[Link],
) -> Result<Items<LinkRow>, Memory>
    ensures { IfOk result (λ rows. rows ≡ map (row_by files.now binders.now.entries) links.now) }
{
    let mut rows = Items::new(alloc);
    for link in links {
        rows.push(row_of(files, binders, link))?;
    }
    Ok(rows)
}

fn target_at(alloc: Global, files: &NameTable<()>, aim: Aim) -> Result<Target, Memory>
    ensures { IfOk result (λ t. t ≡ target_at files.now aim) }
{
    match aim {
        Aim::Place(at) => Ok(Target::Place(span_at(alloc, files, at)?)),
        Aim::Nowhere => Ok(Target::Nowhere),
        Aim::Prim(op) => Ok(Target::Prim(op)),
    }
}

fn pair_at(alloc: Global, files: &NameTable<()>, row: LinkRow) -> Result<Pair, Memory>
    ensures { IfOk result (λ p. p ≡ pair_at files.now row) }
{
    let span = span_at(alloc, files, row.at)?;
    let target = target_at(alloc, files, row.aim)?;
    Ok(Pair { span, target })
}

fn pairs_at(alloc: Global, files: &NameTable<()>, rows: &[LinkRow]) -> Result<Items<Pair>, Memory>
    ensures { IfOk result (λ ps. ps ≡ map (pair_at files.now) rows.now) }
{
    let mut pairs = Items::new(alloc);
    for row in rows {
        let pair = pair_at(alloc, files, *row)?;
        pairs.push(pair)?;
    }
    Ok(pairs)
}

/// The binding map: what each linked identifier leads to, each pair once. A link that binds or refers leads to the
/// first identifier that binds its label, and nowhere if none does. Files stand in the order of first links, and in a
/// file pairs in that of `from`, of `to` and of the targets: places, then `Nowhere`, then primitives by number.
#[tactic(auto, unfolding(crate::specs::Map::binding_map))]
pub fn binding_map(alloc: Global, links: &[Link]) -> Result<Items<Pair>, Memory>
    ensures { IfOk result (λ pairs. pairs ≡ binding_map links.now) }
{
    let files = files_of(alloc, links)?;
    let binders = binders_of(alloc, &files, links)?;
    let rows = ranked(rows_of(alloc, &files, &binders, links)?);
    pairs_at(alloc, &files, rows.as_slice())
}
