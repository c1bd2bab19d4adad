//! Keywords whose uses a transformer expands (R6RS 9 and libraries report 12).

ghost use Rattle.std.specs.Prelude.{◌≡◌, ◌+◌, ◌≤◌, ◌++◌, ◌∷◌, [], None, IfOk, OnOk, OnErr};
ghost use Rattle.base_data.specs.Act.{GivesAfter};
ghost use Rattle.core_language.specs.Bindings.{bound_to};
ghost use Rattle.eval_stage.specs.Libraries.{earlier_in};
ghost use Rattle.eval_stage.specs.Transformers as stage;
ghost use Rattle.expand_standing.specs.State.{on_stage};
ghost use Rattle.expand_standing.specs.Uses.{macro_expression, use_keyword, asks_variable, put_keyword, bind_keyword_as, bind_keyword, bind_keywords, evaluate_transformer};

use crate::binders::{BinderContext, BoundSpec};
use crate::expansion::Expansion;
use crate::means::{Counts, Means};
use base_data::fault::{FaultKind, Stop};
use base_data::items::Items;
use base_data::memory::Memory;
use base_data::name::{Label, Name};
use base_data::span::Span;
use core_language::binding::{Binding, Expression};
use core_language::code::Core;
use core_shapes::at::place_of;
use core_shapes::lists::is_id;
use core_shapes::shape::BindingSpec;
use eval_stage::context::StageContext;
use eval_stage::earlier::Earlier;
use eval_stage::uses::{BoundKeyword, MacroUse};
use std::sync::ledger::Ledger;
use stx_object::syn::Syn;

/// A keyword that waits for its expression, which stands at the place.
#[derive(Drop)]
pub struct KeywordAt<'a> {
    pub label: &'a Label,
    pub place: &'a Span,
}

impl<L: Ledger> Expansion<L> {
    /// How many uses of keywords are left.
    pub fn uses_left(&self) -> u32
        ensures { result ≡ self.now.uses_left }
    {
        self.uses_left
    }

    /// From now on so many uses are left.
    pub fn leave_uses(&mut self, left: u32)
        ensures { self.new ≡ record self.old { uses_left = left } }
    {
        self.uses_left = left;
    }

    /// The expression of a keyword's record; an own keyword's stands on the stage.
    fn macro_expression(&self, label: &Label) -> Result<Option<Expression>, Memory>
        ensures { IfOk result (λ e. e ≡ macro_expression (bound_to self.now.bindings label.now)) }
    {
        match self.bindings.get(label) {
            Some(
                Binding::Macro {
                    level: _,
                    expression: Some(expression),
                },
            ) => Ok(Some(expression.share()?)),
            _ => Ok(None),
        }
    }

    /// What comes of a use of a keyword. It makes two nodes.
    #[tactic(auto, unfolding(crate::specs::Uses::use_keyword), using(crate::proofs::Staged::staged_gives))]
    pub fn use_keyword<N: Ledger>(
        &mut self,
        used: MacroUse<&Label>,
        means: &Means,
        counts: &mut Counts<N, L>,
    ) -> Result<Syn, Stop>
        ensures given { GivesAfter (λ t. t) result self.new
            (use_keyword (earlier_in means.now.earlier) used.entry.place.now used.entry.form.now used.entry.keyword.now used.entry.frame self.old) }
        ensures made { OnOk result (counts.new.nodes.now ≡ counts.old.nodes.now + 2) }
        ensures refused { OnErr result (counts.new.nodes.now ≤ counts.old.nodes.now + 1) }
    {
        let MacroUse {
            keyword: label,
            form,
            frame,
            place,
        } = used;
        let expression = self.macro_expression(label)?;
        let earlier = Earlier {
            records: means.earlier.records,
            needs: means.earlier.needs,
        };
        let context = StageContext {
            earlier,
            prims: means.prims,
            place,
        };
        let keyword = BoundKeyword {
            label,
            expression: &expression,
        };
        let one = MacroUse {
            keyword,
            form,
            frame,
            place,
        };
        self.stage.used(&context, one, counts.nodes, counts.book)
    }

    /// Whether an assignment to a keyword is a use of it.
    #[tactic(auto, unfolding(crate::specs::Uses::asks_variable), using(crate::proofs::Staged::staged_gives))]
    pub fn asks_variable<N: Ledger>(
        &mut self,
        place: &Span,
        label: &Label,
        means: &Means,
        counts: &mut Counts<N, L>,
    ) -> Result<bool, Stop>
        ensures { GivesAfter (λ b. b) result self.new (asks_variable (earlier_in means.now.earlier) place.now label.now self.old) }
    {
        let expression = self.macro_expression(label)?;
        let earlier = Earlier {
            records: means.earlier.records,
            needs: means.earlier.needs,
        };
        let context = StageContext {
            earlier,
            prims: means.prims,
            place,
        };
        self.stage
            .is_variable_transformer(&context, label, &expression, counts.book)
    }

    fn put_keyword(&mut self, label: &Label, level: u32) -> Result<(), Stop>
        ensures { GivesAfter (λ _. tt) result self.new (put_keyword label.now level self.old) }
    {
        let label = label.share()?;
        self.add_row(
            label,
            Binding::Macro {
                level,
                expression: None,
            },
        )?;
        Ok(())
    }

    #[tactic(auto, using(crate::proofs::Staged::staged_gives))]
    fn begin_keyword(&mut self, label: &Label, place: &Span) -> Result<(), Stop>
        ensures { GivesAfter (λ _. tt) result self.new (on_stage (stage.begin_keyword label.now place.now) self.old) }
    {
        self.stage.begin_keyword(label, place)
    }

    fn bind_keyword_as(
        &mut self,
        context: &BinderContext,
        spec: &BindingSpec,
        name: Name,
    ) -> Result<BoundSpec, Stop>
        ensures { GivesAfter (λ b. b) result self.new (bind_keyword_as context.now.frame.now context.now.place.now context.now.level spec.now name self.old) }
    {
        let label = Label(name);
        self.bind_row(context.frame, &spec.id, &label, context.place)?;
        self.put_keyword(&label, context.level)?;
        let at = place_of(&spec.init, context.place)?;
        self.begin_keyword(&label, &at)?;
        let init = spec.init.share()?;
        Ok(BoundSpec { label, init })
    }

    /// Binds an identifier in a frame to a new keyword, which waits for its expression.
    #[tactic(auto, unfolding(crate::specs::Uses::bind_keyword))]
    pub fn bind_keyword(
        &mut self,
        context: &BinderContext,
        spec: &BindingSpec,
    ) -> Result<BoundSpec, Stop>
        ensures { GivesAfter (λ b. b) result self.new (bind_keyword context.now.frame.now context.now.place.now context.now.level spec.now self.old) }
    {
        if !is_id(self.alloc, &spec.id)? {
            return Err(self.fault_form(FaultKind::BadForm, &spec.id, context.place));
        }
        let name = self.fresh()?;
        self.bind_keyword_as(context, spec, name)
    }

    /// Binds the keywords of `let-syntax` or `letrec-syntax` in order.
    pub fn bind_keywords(
        &mut self,
        context: &BinderContext,
        specs: &[BindingSpec],
    ) -> Result<Items<BoundSpec>, Stop>
        ensures { GivesAfter (λ bs. bs) result self.new (bind_keywords context.now.frame.now context.now.place.now context.now.level specs.now self.old) }
    {
        let mut done = Items::new(self.alloc);
        for spec in specs {
            let one = self.bind_keyword(context, spec)?;
            done.push(one)?;
        }
        Ok(done)
    }

    /// Evaluates the expression of a keyword, and keeps what it gives.
    #[tactic(auto, unfolding(crate::specs::Uses::evaluate_transformer), using(crate::proofs::Staged::staged_gives))]
    pub fn evaluate_transformer<N: Ledger>(
        &mut self,
        keyword: &KeywordAt,
        code: Core,
        means: &Means,
        counts: &mut Counts<N, L>,
    ) -> Result<(), Stop>
        ensures { GivesAfter (λ _. tt) result self.new (evaluate_transformer
            (earlier_in means.now.earlier) keyword.now.place.now keyword.now.label.now code self.old) }
    {
        let earlier = Earlier {
            records: means.earlier.records,
            needs: means.earlier.needs,
        };
        let context = StageContext {
            earlier,
            prims: means.prims,
            place: keyword.place,
        };
        self.stage
            .evaluate_transformer(&context, keyword.label, code, counts.book)
    }
}
