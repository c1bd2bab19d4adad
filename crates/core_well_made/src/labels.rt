//! Sets of labels, of which those that came last can go again.

ghost use Rattle.std.specs.Prelude.{◌≡◌, [], length, take, OnOk};
ghost use Rattle.core_language.specs.Labels.{has_label, with_label, with_labels};

use base_data::map::{NameSet, new_set};
use base_data::memory::Memory;
use base_data::name::Label;
use std::alloc::Global;
use std::marker::Model;

/// Labels, each once, in the order of coming.
#[derive(Drop)]
pub struct LabelSet {
    set: NameSet<Label>,
}

impl Model for LabelSet {
    ghost use Rattle.std.specs.Prelude.{List};
    ghost use Rattle.base_data.specs.declared.name.Label.{Label};

    ghost Value = { List Label };

    ghost view = { λ l. l.set.keys };
}

impl LabelSet {
    /// No labels. It takes no memory.
    pub fn new(alloc: Global) -> LabelSet
        ensures { result ≡ [] }
    {
        LabelSet {
            set: new_set(alloc),
        }
    }

    /// Whether the label is there. It takes no memory.
    pub fn has(&self, label: &Label) -> bool
        ensures { result ≡ has_label self.now label.now }
    {
        self.set.contains(label)
    }

    pub fn len(&self) -> usize
        ensures { result ≡ length self.now }
    {
        self.set.len()
    }

    /// Leaves the first labels alone.
    pub fn truncate(&mut self, len: usize)
        ensures { self.new ≡ take len self.old }
    {
        self.set.truncate(len)
    }

    /// Puts the label at the end, where it isn't there.
    pub fn add(&mut self, label: &Label) -> Result<(), Memory>
        ensures { OnOk result (self.new ≡ with_label self.old label.now) }
    {
        let label = label.share()?;
        match self.set.insert(label) {
            Ok(_) => Ok(()),
            Err(_) => Err(Memory),
        }
    }

    /// Puts each of the labels at the end, where it isn't there.
    pub fn add_each(&mut self, labels: &[Label]) -> Result<(), Memory>
        ensures { OnOk result (self.new ≡ with_labels self.old labels.now) }
    {
        for label in labels {
            self.add(label)?;
        }
        Ok(())
    }
}
