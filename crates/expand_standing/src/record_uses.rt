//! Uses of the record forms (R6RS libraries 6.2).

ghost use Rattle.std.specs.Prelude.{◌≡◌, ◌+◌, ◌≤◌, OnOk, OnErr};
ghost use Rattle.base_data.specs.Act.{GivesAfter};
ghost use Rattle.expand_standing.specs.RecordUses.{defines_type, count_record_type, record_tree, record_marked, use_record};

use crate::expansion::Expansion;
use base_data::fault::Stop;
use base_data::name::Mark;
use base_data::span::Span;
use base_data::steps::Steps;
use core_language::core_form::CoreForm;
use core_records::context::RecordContext;
use core_records::forms::record_forms;
use core_records::names::record_uid;
use eval_stage::uses::MacroUse;
use std::sync::ledger::Ledger;
use stx_object::syn::Syn;

/// Whether it is `define-record-type`.
fn defines_type(form: CoreForm) -> bool
    ensures { result ≡ defines_type form }
{
    matches!(form, CoreForm::DefineRecordType)
}

impl<L: Ledger> Expansion<L> {
    /// How many uses of `define-record-type` there were before this use. The other forms aren't counted.
    #[tactic(auto, unfolding(crate::specs::RecordUses::count_record_type))]
    fn count_record_type(&mut self, which: CoreForm) -> Result<u64, Stop>
        ensures { GivesAfter (λ n. n) result self.new (count_record_type which self.old) }
    {
        let before = self.record_types;
        if !defines_type(which) {
            return Ok(before);
        }
        let Some(next) = before.checked_add(1) else {
            return Err(Stop::Memory);
        };
        self.record_types = next;
        Ok(before)
    }

    #[tactic(auto, unfolding(crate::specs::RecordUses::record_tree), using(crate::proofs::Staged::at_state_gives))]
    fn record_tree(
        &self,
        form: &Syn,
        which: CoreForm,
        before: u64,
        place: &Span,
    ) -> Result<Syn, Stop>
        ensures { GivesAfter (λ t. t) result self.now (record_tree place.now form.now which before self.now) }
    {
        let uid = record_uid(self.alloc, self.library(), form, before)?;
        let context = RecordContext {
            alloc: self.alloc,
            frames: self.frames(),
            place,
            uid: &uid,
        };
        record_forms(&context, form, which)
    }

    #[tactic(auto, unfolding(crate::specs::RecordUses::record_marked))]
    fn record_marked<N: Ledger>(
        &mut self,
        used: MacroUse<CoreForm>,
        mark: Mark,
        nodes: &mut Steps<N>,
    ) -> Result<Syn, Stop>
        ensures given { GivesAfter (λ t. t) result self.new
            (record_marked used.entry.place.now used.entry.form.now used.entry.keyword used.entry.frame mark self.old) }
        ensures made { OnOk result (nodes.new ≡ nodes.old + 2) }
        ensures refused { OnErr result (nodes.new ≤ nodes.old + 1) }
    {
        let MacroUse {
            keyword: which,
            form,
            frame,
            place,
        } = used;
        let before = self.count_record_type(which)?;
        let entered = form.enter(self.alloc, mark.share()?, nodes)?;
        let made = self.record_tree(&entered, which, before, place)?;
        let left = made.leave(self.alloc, mark, frame, nodes)?;
        Ok(left)
    }

    /// What comes of a use of a record form. Its faults are those of `record_forms`. The uses are counted by the
    /// caller; nothing is evaluated. A use makes two nodes, as that of a keyword does.
    #[tactic(auto, unfolding(crate::specs::RecordUses::use_record))]
    pub fn use_record<N: Ledger>(
        &mut self,
        used: MacroUse<CoreForm>,
        nodes: &mut Steps<N>,
    ) -> Result<Syn, Stop>
        ensures given { GivesAfter (λ t. t) result self.new (use_record used.entry.place.now used.entry.form.now used.entry.keyword used.entry.frame self.old) }
        ensures made { OnOk result (nodes.new ≡ nodes.old + 2) }
        ensures refused { OnErr result (nodes.new ≤ nodes.old + 1) }
    {
        let mark = Mark(self.fresh()?);
        self.record_marked(used, mark, nodes)
    }
}
