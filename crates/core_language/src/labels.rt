//! Lists of labels, each once.

ghost use Rattle.std.specs.Prelude.{◌≡◌, ◌++◌, [], IfOk, OnOk};
ghost use Rattle.core_language.specs.Labels.{has_label, with_label, with_labels, without};

use base_data::memory::Memory;
use base_data::name::Label;
use indexmap::IndexSet;
use std::alloc::Global;
use std::marker::Model;

/// So many labels are looked through one by one. Most lists have one or two, for which a table would take more memory
/// than they do.
const FEW: usize = 8;

/// Labels, each once, in the order of coming.
#[derive(Drop)]
pub struct Labels {
    first: Vec<Label>,
    later: IndexSet<Label>,
}

impl Model for Labels {
    ghost use Rattle.std.specs.Prelude.{List, ◌++◌};
    ghost use Rattle.base_data.specs.declared.name.Label.{Label};

    ghost Value = { List Label };

    ghost view = { λ l. l.first.items ++ l.later.keys };
}

/// Whether the label is one of these, which are looked through one by one.
fn is_among(labels: &[Label], label: &Label) -> bool
    ensures { result ≡ has_label labels.now label.now }
{
    labels.contains(label)
}

/// Puts at the end of a list those labels that aren't among the others.
fn put_without(left: &mut Vec<Label>, labels: &[Label], others: &Labels) -> Result<(), Memory>
    ensures { OnOk result (left.new.items ≡ left.old.items ++ without others.now labels.now) }
{
    for label in labels {
        if !others.has(label) {
            let label = label.share()?;
            left.push(label)?;
        }
    }
    Ok(())
}

impl Labels {
    /// No labels. It takes no memory.
    pub fn new(alloc: Global) -> Labels
        ensures { result ≡ [] }
    {
        Labels {
            first: Vec::new(alloc),
            later: IndexSet::new(alloc),
        }
    }

    /// Whether the label is there. It takes no memory.
    pub fn has(&self, label: &Label) -> bool
        ensures { result ≡ has_label self.now label.now }
    {
        is_among(&self.first, label) || self.later.contains(label)
    }

    /// Puts the label at the end, where it isn't there.
    pub fn add(&mut self, label: &Label) -> Result<(), Memory>
        ensures { OnOk result (self.new ≡ with_label self.old label.now) }
    {
        if is_among(&self.first, label) {
            return Ok(());
        }
        let label = label.share()?;
        if self.first.len() < FEW && self.later.is_empty() {
            self.first.push(label)?;
            return Ok(());
        }
        self.later.insert(label)?;
        Ok(())
    }

    /// Puts each of the labels at the end, where it isn't there.
    pub fn add_each(&mut self, labels: &[Label]) -> Result<(), Memory>
        ensures { OnOk result (self.new ≡ with_labels self.old labels.now) }
    {
        for label in labels {
            self.add(label)?;
        }
        Ok(())
    }

    /// The labels that aren't among these.
    #[tactic(auto, using(crate::proofs::MemberLemmas::without_joined))]
    pub fn without(&self, alloc: Global, others: &Labels) -> Result<Vec<Label>, Memory>
        ensures { IfOk result (λ ls. ls.items ≡ without others.now self.now) }
    {
        let mut left = Vec::new(alloc);
        put_without(&mut left, &self.first, others)?;
        put_without(&mut left, self.later.as_slice(), others)?;
        Ok(left)
    }
}
