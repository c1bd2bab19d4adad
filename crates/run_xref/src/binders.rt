//! The first identifier that binds each label.

ghost use Rattle.std.specs.Prelude.{◌≡◌, [], IfOk, OnOk};
ghost use Rattle.run_xref.specs.Binders.{binder_at, aim_by, with_place, with_binder, with_binders};
ghost use Rattle.run_xref.specs.Links.{is_binder};

use crate::files::at_of;
use crate::rows::{Aim, At};
use base_data::memory::Memory;
use base_data::name::Label;
use core_language::link::{Link, LinkKind};
use indexmap::IndexMap;
use load_import::table::NameTable;
use std::alloc::Global;

fn is_binder(kind: &LinkKind) -> bool
    ensures { result ≡ is_binder kind.now }
{
    matches!(kind, LinkKind::Bind)
}

/// Takes a span for a label, unless the label has one.
fn put_place(binders: &mut IndexMap<Label, At>, label: Label, at: At) -> Result<(), Memory>
    ensures { OnOk result (binders.new.entries ≡ with_place binders.old.entries label at) }
{
    if binders.get(&label).is_some() {
        return Ok(());
    }
    binders.insert(label, at)?;
    Ok(())
}

/// Takes the span of a link for its label, unless the label has one. Only links that bind count.
fn put_binder(
    binders: &mut IndexMap<Label, At>,
    files: &NameTable<()>,
    link: &Link,
) -> Result<(), Memory>
    ensures { OnOk result (binders.new.entries ≡ with_binder files.now binders.old.entries link.now) }
{
    if !is_binder(&link.kind) {
        return Ok(());
    }
    let label = link.label.share()?;
    put_place(binders, label, at_of(files, &link.span))
}

/// Where each label is bound first.
pub(crate) fn binders_of(
    alloc: Global,
    files: &NameTable<()>,
    links: &[Link],
) -> Result<IndexMap<Label, At>, Memory>
    ensures { IfOk result (λ b. b.entries ≡ with_binders files.now [] links.now) }
{
    let mut binders = IndexMap::new(alloc);
    for link in links {
        put_binder(&mut binders, files, link)?;
    }
    Ok(binders)
}

/// What an identifier leads to that stands for a label in such a way.
pub(crate) fn aim(binders: &IndexMap<Label, At>, link: &Link) -> Aim
    ensures { result ≡ aim_by binders.now.entries link.now.label link.now.kind }
{
    match &link.kind {
        LinkKind::Bind => binder_at(binders, &link.label),
        LinkKind::Refer => binder_at(binders, &link.label),
        LinkKind::Prim(op) => Aim::Prim(*op),
    }
}

fn binder_at(binders: &IndexMap<Label, At>, label: &Label) -> Aim
    ensures { result ≡ binder_at binders.now.entries label.now }
{
    match binders.get(label) {
        None => Aim::Nowhere,
        Some(at) => Aim::Place(*at),
    }
}
