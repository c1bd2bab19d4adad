//! Bindings: what labels are bound to, as a finite map.

ghost use Rattle.std.specs.Prelude.{◌≡◌, [], ◌∷◌, ◌++◌, None, true, OnOk, OnErr};
ghost use Rattle.std.specs.Option.{option_copied};
ghost use Rattle.core_language.specs.Bindings.{bound_to, are_new};

use crate::binding::Binding;
use base_data::map::{NameMap, new_map};
use base_data::memory::Memory;
use base_data::name::Label;
use std::alloc::Global;
use std::marker::Model;

/// A finite map from labels, seen as a list in the order of coming.
#[derive(Drop)]
pub struct Bindings {
    rows: NameMap<Label, Binding>,
}

impl Model for Bindings {
    ghost use Rattle.std.specs.Prelude.{List};
    ghost use Rattle.base_data.specs.declared.name.Label.{Label};
    ghost use Rattle.core_language.specs.declared.binding.Binding.{Binding};
    ghost use Rattle.core_language.specs.Bindings.{bindings_code};

    ghost Value = { List (Label × Binding) };

    ghost coded = { bindings_code };

    ghost view = { λ b. b.rows.entries };
}

impl Bindings {
    /// No bindings. It takes no memory.
    pub fn new(alloc: Global) -> Bindings
        ensures { result ≡ [] }
    {
        Bindings {
            rows: new_map(alloc),
        }
    }

    /// What a label is bound to. It takes no memory.
    pub fn get(&self, label: &Label) -> Option<&Binding>
        ensures { option_copied result ≡ bound_to self.now label.now }
    {
        self.rows.get(label)
    }

    /// Binds a label that isn't bound. A refusal changes nothing.
    pub fn add(&mut self, label: Label, binding: Binding) -> Result<(), Memory>
        requires { bound_to self.old label ≡ None }
        ensures ok { OnOk result (self.new ≡ self.old ++ (label, binding) ∷ []) }
        ensures err { OnErr result (self.new ≡ self.old) }
    {
        match self.rows.insert(label, binding) {
            Ok(_) => Ok(()),
            Err(_) => Err(Memory),
        }
    }

    /// Binds labels of which none is bound and no two are the same. A refusal changes nothing.
    pub fn adopt(&mut self, rows: Vec<(Label, Binding)>) -> Result<(), Memory>
        requires { are_new self.old rows.items ≡ true }
        ensures ok { OnOk result (self.new ≡ self.old ++ rows.items) }
        ensures err { OnErr result (self.new ≡ self.old) }
    {
        let count = self.rows.len();
        let mut rows = rows;
        rows.reverse();
        while let Some((label, binding)) = rows.pop() {
            match self.add(label, binding) {
                Ok(()) => {}
                Err(_) => {
                    self.rows.truncate(count);
                    return Err(Memory);
                }
            }
        }
        Ok(())
    }
}
