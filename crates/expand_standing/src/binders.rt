//! Binding identifiers in frames.

ghost use Rattle.std.specs.Prelude.{◌≡◌, ◌∷◌, ◌++◌, [], IfOk, OnOk};
ghost use Rattle.base_data.specs.Act.{GivesAfter};
ghost use Rattle.expand_standing.specs.Binders.{bind_variable, bind_as, put_row, put_variable, StopsAt, bind_all, bind_rest, bind_spec, bind_specs, bind_formals, variable_for, index_at, next_index};

use crate::expansion::{Expansion, symbol_in};
use base_data::fault::{Bare, BareStop, Fault, FaultKind, Stop};
use base_data::items::Items;
use base_data::memory::Memory;
use base_data::name::{FrameNo, Label, Name};
use base_data::span::Span;
use core_language::binding::{Binding, VarInfo};
use core_language::formals::Formals;
use core_language::link::LinkKind;
use core_shapes::at::place_of;
use core_shapes::lists::is_id;
use core_shapes::shape::{BindingSpec, FormalIds};
use std::sync::ledger::Ledger;
use stx_object::syn::Syn;

/// Where identifiers are bound.
#[derive(Drop)]
pub struct BinderContext<'a> {
    pub frame: &'a FrameNo,
    /// Where an identifier without a span stands.
    pub place: &'a Span,
    pub level: u32,
}

/// A variable of a `letrec`, with the form of its value.
#[derive(Drop)]
pub struct BoundSpec {
    pub label: Label,
    pub init: Syn,
}

/// The number among the variables of level 0.
fn index_at(level: u32, index: u64) -> Option<u64>
    ensures { result ≡ index_at level index }
{
    if level == 0 { Some(index) } else { None }
}

/// The number of the next variable of level 0, after one of this level.
fn next_index(level: u32, index: u64) -> Result<u64, Memory>
    ensures { IfOk result (λ n. n ≡ next_index level index) }
{
    if level != 0 {
        return Ok(index);
    }
    match index.checked_add(1) {
        Some(next) => Ok(next),
        None => Err(Memory),
    }
}

impl<L: Ledger> Expansion<L> {
    fn variable_for(&self, id: &Syn, level: u32, top: bool) -> Result<VarInfo, Memory>
        ensures { IfOk result (λ v. v ≡ variable_for id.now level top self.now.index) }
    {
        let symbol = symbol_in(self.alloc, id)?;
        Ok(VarInfo {
            symbol,
            index: index_at(level, self.index),
            level,
            top,
            assigned: false,
        })
    }

    /// Binds an identifier in a frame to a label. A second binder of one identifier is at fault.
    #[tactic(auto, using(crate::proofs::Rows::stops_at_row))]
    pub fn bind_row(
        &mut self,
        frame: &FrameNo,
        id: &Syn,
        label: &Label,
        place: &Span,
    ) -> Result<(), Stop>
        ensures { GivesAfter (λ _. tt) result self.new (put_row id.now place.now frame.now label.now self.old) }
    {
        match self.stage.bind(frame.share()?, id, label.share()?) {
            Ok(()) => Ok(()),
            Err(stop) => Err(stopped_at(stop, id, place)),
        }
    }

    /// Adds a row to the bindings. A label that has one is refused as want of memory is; no label of a new name has.
    pub(crate) fn add_row(&mut self, label: Label, binding: Binding) -> Result<(), Memory>
        ensures { OnOk result (self.new ≡ record self.old { bindings = self.old.bindings ++ (label, binding) ∷ [] }) }
    {
        if self.bindings.get(&label).is_some() {
            return Err(Memory);
        }
        self.bindings.add(label, binding)
    }

    fn add_binding(&mut self, label: Label, info: VarInfo) -> Result<(), Stop>
        ensures { GivesAfter (λ _. tt) result self.new (put_variable label info self.old) }
    {
        let next = next_index(info.level, self.index)?;
        self.scope.add_local(&label, info.top)?;
        self.add_row(label, Binding::Variable(info))?;
        self.index = next;
        Ok(())
    }

    fn bind_as(
        &mut self,
        context: &BinderContext,
        id: &Syn,
        top: bool,
        name: Name,
    ) -> Result<Label, Stop>
        ensures { GivesAfter (λ l. l) result self.new (bind_as context.now.frame.now context.now.place.now context.now.level id.now top name self.old) }
    {
        let label = Label(name);
        let info = self.variable_for(id, context.level, top)?;
        self.bind_row(context.frame, id, &label, context.place)?;
        let bound = label.share()?;
        self.add_binding(bound, info)?;
        self.note(id, &label, LinkKind::Bind)?;
        Ok(label)
    }

    /// Binds an identifier in a frame to a new variable.
    #[tactic(auto, unfolding(crate::specs::Binders::bind_variable))]
    pub fn bind_variable(
        &mut self,
        context: &BinderContext,
        top: bool,
        id: &Syn,
    ) -> Result<Label, Stop>
        ensures { GivesAfter (λ l. l) result self.new (bind_variable context.now.frame.now context.now.place.now context.now.level top id.now self.old) }
    {
        if !is_id(self.alloc, id)? {
            return Err(self.fault_form(FaultKind::BadForm, id, context.place));
        }
        let name = self.fresh()?;
        self.bind_as(context, id, top, name)
    }

    /// Binds identifiers in order.
    fn bind_all(&mut self, context: &BinderContext, ids: &[Syn]) -> Result<Items<Label>, Stop>
        ensures { GivesAfter (λ ls. ls) result self.new (bind_all context.now.frame.now context.now.place.now context.now.level ids.now self.old) }
    {
        let mut labels = Items::new(self.alloc);
        for id in ids {
            let label = self.bind_variable(context, false, id)?;
            labels.push(label)?;
        }
        Ok(labels)
    }

    #[tactic(auto, unfolding(crate::specs::Binders::bind_spec))]
    fn bind_spec(&mut self, context: &BinderContext, spec: &BindingSpec) -> Result<BoundSpec, Stop>
        ensures { GivesAfter (λ b. b) result self.new (bind_spec context.now.frame.now context.now.place.now context.now.level spec.now self.old) }
    {
        let label = self.bind_variable(context, false, &spec.id)?;
        let init = spec.init.share()?;
        Ok(BoundSpec { label, init })
    }

    /// Binds the variables of a `letrec` in order.
    pub fn bind_specs(
        &mut self,
        context: &BinderContext,
        specs: &[BindingSpec],
    ) -> Result<Items<BoundSpec>, Stop>
        ensures { GivesAfter (λ bs. bs) result self.new (bind_specs context.now.frame.now context.now.place.now context.now.level specs.now self.old) }
    {
        let mut done = Items::new(self.alloc);
        for spec in specs {
            let one = self.bind_spec(context, spec)?;
            done.push(one)?;
        }
        Ok(done)
    }

    fn bind_rest(
        &mut self,
        context: &BinderContext,
        id: &Option<Syn>,
    ) -> Result<Option<Label>, Stop>
        ensures { GivesAfter (λ l. l) result self.new (bind_rest context.now.frame.now context.now.place.now context.now.level id.now self.old) }
    {
        match id {
            None => Ok(None),
            Some(id) => {
                let label = self.bind_variable(context, false, id)?;
                Ok(Some(label))
            }
        }
    }

    /// Binds the formals of a procedure, from left to right.
    #[tactic(auto, unfolding(crate::specs::Binders::bind_formals))]
    pub fn bind_formals(
        &mut self,
        context: &BinderContext,
        ids: &FormalIds,
    ) -> Result<Formals, Stop>
        ensures { GivesAfter (λ f. f) result self.new (bind_formals context.now.frame.now context.now.place.now context.now.level ids.now self.old) }
    {
        let required = self.bind_all(context, ids.required.as_slice())?;
        let rest = self.bind_rest(context, &ids.rest)?;
        Ok(Formals { required, rest })
    }
}

/// A fault of a form, at its place.
fn stopped_at(stop: BareStop, form: &Syn, place: &Span) -> Stop
    ensures { StopsAt result stop form.now place.now }
{
    match stop {
        BareStop::Memory => Stop::Memory,
        BareStop::Fault(Bare { kind, words }) => match place_of(form, place) {
            Ok(span) => Stop::Fault(Fault { kind, span, words }),
            Err(memory) => Stop::from(memory),
        },
    }
}
