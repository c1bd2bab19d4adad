//! Patterns and templates in an expansion (libraries report 12.4).

ghost use Rattle.std.specs.Prelude.{◌≡◌, true, IfOk};
ghost use Rattle.base_data.specs.Act.{GivesAfter};
ghost use Rattle.base_data.specs.Gives.{Gives};
ghost use Rattle.expand_standing.specs.Patterns.{pattern_of, check_literals, put_pattern_variable, bind_pattern_variable, bind_pattern, has_variables, has_item_variables, is_outside, if_outside, first_outside, all_outside, template_of};
ghost use Rattle.core_language.specs.TemplateView.{items};
ghost use Rattle.stx_scope.specs.Stands.{stands};
ghost use Rattle.stx_tree.specs.Tree.{is_pair};
ghost use Rattle.eval_template.specs.Compile.{compiled};

use crate::binders::BinderContext;
use crate::expansion::Expansion;
use crate::in_scope::InScope;
use base_data::fault::{FaultKind, Stop};
use base_data::memory::Memory;
use base_data::name::Label;
use base_data::span::Span;
use core_language::binding::Binding;
use core_language::template::{Template, TemplateItem, TemplateNode};
use core_shapes::lists::parts_of;
use eval_pattern::compile::{Compiled, PatternVariable};
use eval_template::compile::{TemplateContext, compile_template};
use std::sync::ledger::Ledger;
use stx_object::syn::{OpenedTree, Syn};

/// Whether all pattern variables of a template are in scope.
#[cycle(has)]
fn has_variables(scope: &InScope, template: &Template) -> bool
    ensures { result ≡ has_variables scope.now template.now }
{
    match &template.node {
        TemplateNode::Variable(label, _) => scope.has(label),
        TemplateNode::Constant(_) => true,
        TemplateNode::List(list, tail) => {
            if has_item_variables(scope, list) {
                has_variables(scope, tail)
            } else {
                false
            }
        }
        TemplateNode::Vector(list) => has_item_variables(scope, list),
    }
}

#[cycle(has)]
fn has_item_variables(scope: &InScope, list: &[TemplateItem]) -> bool
    ensures { result ≡ has_item_variables scope.now (items list.now) }
{
    for item in list {
        if !has_variables(scope, &item.template) {
            return false;
        }
    }
    true
}

impl<L: Ledger> Expansion<L> {
    /// The pattern of a form. The library's next names are the labels of its variables.
    #[tactic(auto, using(crate::proofs::Staged::staged_gives))]
    pub fn pattern(&mut self, form: &Syn, literals: &[Syn], place: &Span) -> Result<Compiled, Stop>
        ensures { GivesAfter (λ c. c) result self.new (pattern_of literals.now place.now form.now self.old) }
    {
        self.stage.pattern(form, literals, place)
    }

    /// It is `BadPattern` at the first literal that can't be one.
    #[tactic(auto, using(crate::proofs::Staged::staged_gives))]
    pub fn check_literals(&self, literals: &[Syn], place: &Span) -> Result<(), Stop>
        ensures { GivesAfter (λ _. tt) result self.now (check_literals place.now literals.now self.now) }
    {
        self.stage.check_literals(literals, place)
    }

    fn put_pattern_variable(&mut self, label: &Label, level: u32, depth: u32) -> Result<(), Stop>
        ensures { GivesAfter (λ _. tt) result self.new (put_pattern_variable label.now level depth self.old) }
    {
        self.scope.add_local(label, false)?;
        let label = label.share()?;
        self.add_row(label, Binding::PatternVariable { level, depth })?;
        Ok(())
    }

    #[tactic(auto, unfolding(crate::specs::Patterns::bind_pattern_variable))]
    fn bind_pattern_variable(
        &mut self,
        context: &BinderContext,
        variable: &PatternVariable,
    ) -> Result<(), Stop>
        ensures { GivesAfter (λ _. tt) result self.new (bind_pattern_variable context.now.frame.now context.now.place.now context.now.level
            variable.now self.old) }
    {
        self.bind_row(context.frame, &variable.id, &variable.label, context.place)?;
        self.put_pattern_variable(&variable.label, context.level, variable.depth)
    }

    /// Binds the variables of a pattern.
    pub fn bind_pattern(
        &mut self,
        context: &BinderContext,
        variables: &[PatternVariable],
    ) -> Result<(), Stop>
        ensures { GivesAfter (λ _. tt) result self.new (bind_pattern context.now.frame.now context.now.place.now context.now.level variables.now self.old) }
    {
        for variable in variables {
            self.bind_pattern_variable(context, variable)?;
        }
        Ok(())
    }

    /// Whether what stands for a label is a pattern variable out of scope.
    fn is_outside(&self, label: &Option<Label>) -> bool
        ensures { result ≡ is_outside self.now label.now }
    {
        match label {
            None => false,
            Some(label) => match self.bindings.get(label) {
                Some(Binding::PatternVariable { level: _, depth: _ }) => !self.scope.has(label),
                _ => false,
            },
        }
    }

    #[cycle(outside)]
    #[tactic(auto, using(crate::proofs::Outside::outside_atom, crate::proofs::Outside::outside_leaf, crate::proofs::Outside::outside_vector, eval_pattern::proofs::Levels::pair_opened))]
    fn first_outside(&mut self, form: &Syn) -> Result<Option<Syn>, Memory>
        ensures first { IfOk result (λ t. t ≡ first_outside self.old form.now) }
        ensures unchanged { self.new ≡ self.old }
    {
        match form.open(self.alloc)? {
            OpenedTree::Atom(_) => Ok(None),
            OpenedTree::Symbol(_) => self.leaf_outside(form),
            OpenedTree::Pair(_, _) => self.list_outside(form),
            OpenedTree::Vector(forms) => self.all_outside(&forms),
        }
    }

    fn leaf_outside(&mut self, leaf: &Syn) -> Result<Option<Syn>, Memory>
        ensures first { IfOk result (λ t. t ≡ if_outside (is_outside self.old (stands self.old.frames leaf.now)) leaf.now) }
        ensures unchanged { self.new ≡ self.old }
    {
        let label = self.stands(leaf)?;
        if self.is_outside(&label) {
            return Ok(Some(leaf.share()?));
        }
        Ok(None)
    }

    #[cycle(outside)]
    #[tactic(auto, using(crate::proofs::Outside::outside_list, eval_pattern::proofs::Sizes::elements_within, eval_pattern::proofs::Sizes::tail_smaller))]
    fn list_outside(&mut self, form: &Syn) -> Result<Option<Syn>, Memory>
        requires { is_pair form.now ≡ true }
        ensures first { IfOk result (λ t. t ≡ first_outside self.old form.now) }
        ensures unchanged { self.new ≡ self.old }
    {
        let parts = parts_of(self.alloc, form)?;
        match self.all_outside(parts.elements.as_slice())? {
            Some(first) => Ok(Some(first)),
            None => self.first_outside(&parts.tail),
        }
    }

    #[cycle(outside)]
    #[tactic(auto, using(crate::proofs::Outside::form_smaller))]
    fn all_outside(&mut self, forms: &[Syn]) -> Result<Option<Syn>, Memory>
        ensures first { IfOk result (λ t. t ≡ all_outside self.old forms.now) }
        ensures unchanged { self.new ≡ self.old }
    {
        for form in forms {
            if let Some(first) = self.first_outside(form)? {
                return Ok(Some(first));
            }
        }
        Ok(None)
    }

    /// The template of a form at a level, in scope or not.
    fn compiled_template(&self, form: &Syn, place: &Span, level: u32) -> Result<Template, Stop>
        ensures { Gives (λ t. t) result (compiled (record
            { frames = self.now.frames; bindings = self.now.bindings; level = level; place = place.now }) form.now) }
    {
        let context = TemplateContext {
            alloc: self.alloc,
            frames: self.stage.frames(),
            bindings: &self.bindings,
            level,
            place,
        };
        compile_template(&context, form)
    }

    /// The template of a form at a level (libraries report 12.4). Where it has no other fault, it is
    /// `OutOfContext` at the first pattern variable that isn't in scope.
    #[tactic(auto, unfolding(crate::specs::Patterns::template_of))]
    pub fn template(&mut self, form: &Syn, place: &Span, level: u32) -> Result<Template, Stop>
        ensures { GivesAfter (λ t. t) result self.new (template_of place.now level form.now self.old) }
    {
        let template = self.compiled_template(form, place, level)?;
        if has_variables(&self.scope, &template) {
            return Ok(template);
        }
        match self.first_outside(form)? {
            Some(id) => Err(self.fault_word(FaultKind::OutOfContext, &id, &id, place)),
            None => Err(self.fault_form(FaultKind::OutOfContext, form, place)),
        }
    }
}
