//! What evaluates transformers during an expansion.

ghost use Rattle.std.specs.Prelude.{List};
ghost use Rattle.base_data.specs.Act.{GivesAfter};
ghost use Rattle.core_language.specs.declared.record.CompiledLibrary.{CompiledLibrary};
ghost use Rattle.eval_stage.specs.Libraries.{earlier_in};
ghost use Rattle.expand_standing.specs.Uses.{use_keyword, asks_variable, evaluate_transformer};

use base_data::fault::Stop;
use base_data::name::Label;
use base_data::span::Span;
use core_language::code::Core;
use eval_stage::uses::MacroUse;
use expand_standing::expansion::Expansion;
use expand_standing::means::{Counts, Means};
use expand_standing::uses::KeywordAt;
use std::sync::ledger::Ledger;
use stx_object::syn::Syn;

/// What has the transformers of keywords evaluated and called (R6RS libraries 12.3). Expansion asks for no more
/// of the primitives than this: its functions call one another, and the check takes no boxed closure in such a
/// cycle.
pub trait Transformers {
    /// The records before the library.
    ghost records: { Self → List CompiledLibrary };

    /// What comes of a use of the keyword with this label. Faults of evaluation stand at its place.
    fn use_keyword<N: Ledger, L: Ledger>(
        &self,
        state: &mut Expansion<L>,
        used: MacroUse<&Label>,
        counts: &mut Counts<N, L>,
    ) -> Result<Syn, Stop>
        ensures { GivesAfter (λ t. t) result state.new (use_keyword
            (records self.now) used.entry.place.now used.entry.form.now used.entry.keyword.now used.entry.frame state.old) };

    /// Whether an assignment to a keyword is a use of it.
    fn asks_variable<N: Ledger, L: Ledger>(
        &self,
        state: &mut Expansion<L>,
        place: &Span,
        label: &Label,
        counts: &mut Counts<N, L>,
    ) -> Result<bool, Stop>
        ensures { GivesAfter (λ b. b) result state.new (asks_variable (records self.now) place.now label.now state.old) };

    /// Evaluates the expression of a keyword, of which this is the code, and keeps what it gives.
    fn evaluate_transformer<N: Ledger, L: Ledger>(
        &self,
        state: &mut Expansion<L>,
        keyword: &KeywordAt,
        code: Core,
        counts: &mut Counts<N, L>,
    ) -> Result<(), Stop>
        ensures { GivesAfter (λ _. tt) result state.new (evaluate_transformer (records self.now) keyword.now.place.now keyword.now.label.now code state.old) };
}

impl<'a> Transformers for Means<'a> {
    ghost records = { λ m. earlier_in m.earlier };

    fn use_keyword<N: Ledger, L: Ledger>(
        &self,
        state: &mut Expansion<L>,
        used: MacroUse<&Label>,
        counts: &mut Counts<N, L>,
    ) -> Result<Syn, Stop> {
        state.use_keyword(used, self, counts)
    }

    fn asks_variable<N: Ledger, L: Ledger>(
        &self,
        state: &mut Expansion<L>,
        place: &Span,
        label: &Label,
        counts: &mut Counts<N, L>,
    ) -> Result<bool, Stop> {
        state.asks_variable(place, label, self, counts)
    }

    fn evaluate_transformer<N: Ledger, L: Ledger>(
        &self,
        state: &mut Expansion<L>,
        keyword: &KeywordAt,
        code: Core,
        counts: &mut Counts<N, L>,
    ) -> Result<(), Stop> {
        state.evaluate_transformer(keyword, code, self, counts)
    }
}
