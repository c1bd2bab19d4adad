//! The names of variables, each made once.

ghost use Rattle.std.specs.Prelude.{◌≡◌, [], OnOk};
ghost use Rattle.core_output.specs.CoreText.{name_of};
ghost use Rattle.core_output.specs.Naming.{with_name, with_names, with_index};

use base_data::map::{NameMap, new_map};
use base_data::memory::Memory;
use base_data::name::Label;
use base_data::symbol::Symbol;
use core_language::binding::{Binding, VarInfo};
use core_naming::put_generated_name;
use std::alloc::Global;
use std::marker::Model;

/// The texts of variables' names.
#[derive(Drop)]
pub struct VariableNames {
    alloc: Global,
    texts: NameMap<Label, Symbol>,
}

impl Model for VariableNames {
    ghost use Rattle.std.specs.Coded.{coded_list, coded×, coded_ℕ};
    ghost use Rattle.base_data.specs.contracts.name.Label as labels;
    ghost use Rattle.core_output.specs.CoreText.{VariableNames};

    ghost Value = { VariableNames };

    ghost coded = { coded_list (coded× labels.the_row.coded (coded_list coded_ℕ)) };

    ghost view = { λ n. n.texts.entries };
}

impl VariableNames {
    /// No names. It takes no memory.
    pub fn new(alloc: Global) -> VariableNames
        ensures { result ≡ [] }
    {
        VariableNames {
            alloc,
            texts: new_map(alloc),
        }
    }

    /// The name of a variable. It takes no memory.
    pub fn name(&self, label: &Label) -> &str
        ensures { result.now ≡ name_of self.now label.now }
    {
        match self.texts.get(label) {
            Some(text) => text.as_str(),
            None => "",
        }
    }

    fn add_variable(&mut self, label: &Label, info: &VarInfo) -> Result<(), Memory>
        ensures { OnOk result (self.new ≡ with_index self.old label.now info.now.symbol info.now.index) }
    {
        let Some(number) = info.index else {
            return Ok(());
        };
        let mut text = String::new(self.alloc);
        put_generated_name(&mut text, &label.0.library, info.symbol.as_str(), number)?;
        let text = Symbol::from_string(text)?;
        let label = label.share()?;
        match self.texts.insert(label, text) {
            Ok(_) => Ok(()),
            Err(_) => Err(Memory),
        }
    }

    /// Adds the name of a label that is bound to a variable with an index.
    fn add(&mut self, label: &Label, binding: &Binding) -> Result<(), Memory>
        ensures { OnOk result (self.new ≡ with_name self.old label.now binding.now) }
    {
        match binding {
            Binding::Variable(info) => self.add_variable(label, info),
            _ => Ok(()),
        }
    }

    /// Adds the names of the variables among these bindings.
    pub(crate) fn add_all(&mut self, bindings: &[(Label, Binding)]) -> Result<(), Memory>
        ensures { OnOk result (self.new ≡ with_names self.old bindings.now) }
    {
        for row in bindings {
            self.add(&row.0, &row.1)?;
        }
        Ok(())
    }
}
