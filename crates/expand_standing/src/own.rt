//! What a library itself binds and exports.

ghost use Rattle.std.specs.Prelude.{◌≡◌, ◌++◌, IfOk, OnOk};
ghost use Rattle.base_data.specs.Act.{GivesAfter};
ghost use Rattle.stx_frames.specs.Listed.{rows_in};
ghost use Rattle.core_language.specs.Labels.{has_label};
ghost use Rattle.expand_standing.specs.Own.{export_labels, mark_assigned, labels_with, with_assigned, with_expression, completed, own_row, own_bindings};

use crate::expansion::Expansion;
use base_data::fault::Stop;
use base_data::imported_name::ImportedName;
use base_data::items::Items;
use base_data::library::LibName;
use base_data::memory::Memory;
use base_data::name::{Label, Name};
use core_language::binding::{Binding, Expression, VarInfo};
use core_language::labels::Labels;
use std::rc::Rc;
use std::sync::ledger::Ledger;
use stx_tree::frame_row::FrameRow;

fn add_labels(labels: &mut Labels, exports: &[ImportedName]) -> Result<(), Memory>
    ensures { OnOk result (labels.new ≡ labels_with labels.old exports.now) }
{
    for export in exports {
        labels.add(&export.label)?;
    }
    Ok(())
}

fn with_assigned(assigned: bool, binding: &Binding) -> Result<Binding, Memory>
    ensures { IfOk result (λ b. b ≡ with_assigned assigned binding.now) }
{
    match binding {
        Binding::Variable(info) => Ok(Binding::Variable(VarInfo {
            symbol: info.symbol.share()?,
            index: info.index,
            level: info.level,
            top: info.top,
            assigned,
        })),
        Binding::PatternVariable { level: _, depth: _ } => binding.share(),
        Binding::Macro {
            level: _,
            expression: _,
        } => binding.share(),
        Binding::Core(_) => binding.share(),
        Binding::Primitive(_) => binding.share(),
    }
}

fn with_expression(expression: Option<Expression>, binding: Binding) -> Binding
    ensures { result ≡ with_expression expression binding }
{
    match binding {
        Binding::Macro {
            level,
            expression: _,
        } => Binding::Macro { level, expression },
        other => other,
    }
}

impl<L: Ledger> Expansion<L> {
    /// What a label of the library is bound to in its record.
    fn completed(&self, label: &Label, binding: &Binding) -> Result<Binding, Memory>
        ensures { IfOk result (λ b. b ≡ completed self.now label.now binding.now) }
    {
        let binding = with_assigned(self.assigned.has(label), binding)?;
        let expression = self.stage.expression(label)?;
        Ok(with_expression(expression, binding))
    }

    /// The library that is expanded.
    pub fn library(&self) -> &LibName
        ensures { result.now ≡ self.now.library }
    {
        &self.library
    }

    /// Takes the labels that the library exports, each with its external name.
    pub fn export_labels(&mut self, exports: &[ImportedName]) -> Result<(), Stop>
        ensures { GivesAfter (λ _. tt) result self.new (export_labels exports.now self.old) }
    {
        let mut labels = Labels::new(self.alloc);
        add_labels(&mut labels, exports)?;
        self.exports = labels;
        Ok(())
    }

    /// Whether the library exports the label. It takes no memory.
    pub fn has_export(&self, label: &Label) -> bool
        ensures { result ≡ has_label self.now.exports label.now }
    {
        self.exports.has(label)
    }

    /// Takes a variable as assigned.
    pub fn mark_assigned(&mut self, label: &Label) -> Result<Label, Stop>
        ensures { GivesAfter (λ l. l) result self.new (mark_assigned label.now self.old) }
    {
        let given = label.share()?;
        self.assigned.add(label)?;
        Ok(given)
    }

    fn add_own_row(
        &self,
        library: &Rc<LibName>,
        number: u64,
        rows: &mut Items<(Label, Binding)>,
    ) -> Result<(), Memory>
        requires { library.now.value ≡ self.now.names.library }
        ensures { OnOk result (rows.new ≡ rows.old ++ own_row self.now number) }
    {
        let label = Label(Name {
            library: library.clone()?,
            number,
        });
        match self.bindings.get(&label) {
            None => Ok(()),
            Some(binding) => {
                let binding = self.completed(&label, binding)?;
                rows.push((label, binding))
            }
        }
    }

    /// What the library's labels are bound to, rising by number. It takes one name more.
    #[tactic(auto, unfolding(crate::specs::Own::own_bindings))]
    pub fn own_bindings(&mut self) -> Result<Items<(Label, Binding)>, Memory>
        ensures rows { IfOk result (λ rows. rows ≡ own_bindings self.old) }
        ensures links { self.new.links ≡ self.old.links }
        ensures spent { OnOk result (self.new.spent ≡ self.old.spent) }
    {
        let Ok(next) = self.stage.fresh() else {
            return Err(Memory);
        };
        let mut rows = Items::new(self.alloc);
        for number in 0..next.number {
            self.add_own_row(&next.library, number, &mut rows)?;
        }
        Ok(rows)
    }

    /// The rows of the library's frames, by frame and then in the order of binding.
    pub fn own_rows(&self) -> Result<Items<FrameRow>, Memory>
        ensures { IfOk result (λ rows. rows ≡ rows_in self.now.library self.now.frames) }
    {
        let rows = self.stage.frames().rows(&self.library)?;
        Ok(Items::from_vec(rows))
    }
}
