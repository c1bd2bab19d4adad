//! Links: which identifiers of sources stand for which labels.

ghost use Rattle.std.specs.Prelude.{◌≡◌, [], OnOk};
ghost use Rattle.stx_tree.specs.Tree.{span_of};
ghost use Rattle.expand_standing.specs.State.{noted};

use crate::expansion::Expansion;
use base_data::items::Items;
use base_data::memory::Memory;
use base_data::name::Label;
use core_language::link::{Link, LinkKind};
use std::mem::replace;
use std::sync::ledger::Ledger;
use stx_object::syn::Syn;

impl<L: Ledger> Expansion<L> {
    /// Links an identifier that has a span to what it stands for. What templates add has none.
    pub fn note(&mut self, id: &Syn, label: &Label, kind: LinkKind) -> Result<(), Memory>
        ensures { OnOk result (self.new ≡ noted (span_of id.now) label.now kind self.old) }
    {
        match id.span() {
            None => Ok(()),
            Some(span) => {
                let span = span.share()?;
                let label = label.share()?;
                self.links.push(Link { span, label, kind })
            }
        }
    }

    /// The links, in the order in which they were noted; none are left.
    pub fn take_links(&mut self) -> Items<Link>
        ensures links { result ≡ self.old.links }
        ensures left { self.new ≡ record self.old { links = [] } }
    {
        let none = Items::new(self.alloc);
        replace(&mut self.links, none)
    }
}
