//! What is in scope.

ghost use Rattle.std.specs.Prelude.{◌≡◌, [], length, take, OnOk};
ghost use Rattle.core_language.specs.Labels.{has_label};
ghost use Rattle.expand_standing.specs.InScope.{with_local, cut, is_in_scope};

use crate::expansion::Expansion;
use crate::standing::Variable;
use base_data::memory::Memory;
use base_data::name::Label;
use indexmap::IndexSet;
use std::alloc::Global;
use std::marker::Model;
use std::sync::ledger::Ledger;

/// The labels that are in scope, each once, in the order of coming: what came last goes first.
#[derive(Drop)]
pub struct InScope {
    set: IndexSet<Label>,
}

impl Model for InScope {
    ghost use Rattle.std.specs.Prelude.{List};
    ghost use Rattle.base_data.specs.declared.name.Label.{Label};

    ghost Value = { List Label };

    ghost view = { λ l. l.set.keys };
}

impl InScope {
    /// No labels. It takes no memory.
    pub(crate) fn new(alloc: Global) -> InScope
        ensures { result ≡ [] }
    {
        InScope {
            set: IndexSet::new(alloc),
        }
    }

    pub(crate) fn has(&self, label: &Label) -> bool
        ensures { result ≡ has_label self.now label.now }
    {
        self.set.contains(label)
    }

    fn len(&self) -> usize
        ensures { result ≡ length self.now }
    {
        self.set.len()
    }

    fn truncate(&mut self, len: usize)
        ensures { self.new ≡ take len self.old }
    {
        self.set.truncate(len)
    }

    /// The label of a binder comes into scope, but for those of the top.
    pub(crate) fn add_local(&mut self, label: &Label, top: bool) -> Result<(), Memory>
        ensures { OnOk result (self.new ≡ with_local top label.now self.old) }
    {
        if top {
            return Ok(());
        }
        let label = label.share()?;
        match self.set.insert(label) {
            Ok(_) => Ok(()),
            Err(_) => Err(Memory),
        }
    }
}

impl<L: Ledger> Expansion<L> {
    /// How many labels are in scope, but for those of the top. It takes no memory.
    pub fn in_scope(&self) -> usize
        ensures { result ≡ length self.now.scope }
    {
        self.scope.len()
    }

    /// Only the first labels stay in scope. It takes no memory.
    pub fn cut_scope(&mut self, len: usize)
        ensures { self.new ≡ cut len self.old }
    {
        self.scope.truncate(len)
    }

    /// Nothing is in scope until `restore_scope` puts back what this gives. It takes no memory.
    pub fn take_scope(&mut self) -> InScope
        ensures taken { result ≡ self.old.scope }
        ensures left { self.new ≡ record self.old { scope = [] } }
    {
        std::mem::replace(&mut self.scope, InScope::new(self.alloc))
    }

    /// What was in scope is so again. It takes no memory.
    pub fn restore_scope(&mut self, scope: InScope)
        ensures { self.new ≡ record self.old { scope = scope } }
    {
        self.scope = scope;
    }

    /// Whether a variable of the library is in scope. It takes no memory.
    pub fn is_in_scope(&self, variable: &Variable) -> bool
        ensures { result ≡ is_in_scope self.now variable.now }
    {
        variable.top || self.scope.has(&variable.label)
    }
}
