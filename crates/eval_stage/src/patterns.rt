//! Patterns, whose variables take names of the stage.

ghost use Rattle.base_data.specs.Act.{GivesAfter};
ghost use Rattle.eval_stage.specs.Patterns.{pattern_of, check_literals};

use crate::stage::Stage;
use base_data::fault::Stop;
use base_data::span::Span;
use eval_pattern::compile as patterns;
use eval_pattern::compile::{Compiled, PatternContext, compile_pattern};
use std::sync::ledger::Ledger;
use stx_object::syn::Syn;

impl<L: Ledger> Stage<L> {
    /// The pattern of a form. The next names are the labels of its variables. Faults are those of eval_pattern.
    #[tactic(auto, unfolding(crate::specs::Patterns::pattern_of), using(crate::proofs::OnParts::named_gives))]
    pub fn pattern(&mut self, form: &Syn, literals: &[Syn], place: &Span) -> Result<Compiled, Stop>
        ensures { GivesAfter (λ c. c) result self.new (pattern_of literals.now place.now form.now self.old) }
    {
        let context = PatternContext {
            alloc: self.alloc,
            frames: &self.world.frames,
            literals,
            place,
        };
        compile_pattern(&context, form, &mut self.world.store.names)
    }

    /// It is `BadPattern` at the first literal that is no identifier, or is an ellipsis or an underscore.
    #[tactic(auto, unfolding(crate::specs::Patterns::check_literals), using(crate::proofs::OnParts::unchanged_gives))]
    pub fn check_literals(&self, literals: &[Syn], place: &Span) -> Result<(), Stop>
        ensures { GivesAfter (λ _. tt) result self.now (check_literals place.now literals.now self.now) }
    {
        let context = PatternContext {
            alloc: self.alloc,
            frames: &self.world.frames,
            literals,
            place,
        };
        patterns::check_literals(&context)
    }
}
