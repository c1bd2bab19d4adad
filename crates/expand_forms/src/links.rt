//! Links of references, and of the targets of assignments (R6RS 11.4.1 and 11.4.4).

ghost use Rattle.std.specs.Prelude.{◌≡◌, OnOk};
ghost use Rattle.core_language.specs.declared.link.LinkKind.TheVariants as links;
ghost use Rattle.expand_standing.specs.State.{noted};
ghost use Rattle.expand_forms.specs.ExpandUses.{linked, linked_code, linked_primitive, target_span, first_span};

use base_data::library::LibName;
use base_data::memory::Memory;
use base_data::name::{Label, Name};
use base_data::op::Op;
use core_language::code::{Core, CoreNode};
use core_language::link::LinkKind;
use expand_heads::plan::Plan;
use expand_standing::expansion::Expansion;
use std::rc::Rc;
use std::sync::ledger::Ledger;
use stx_object::syn::{OpenedTree, Syn};

/// Links an identifier to a primitive.
fn link_primitive<L: Ledger>(state: &mut Expansion<L>, id: &Syn, op: Op) -> Result<(), Memory>
    ensures { OnOk result (state.new ≡ linked_primitive id.now op state.old) }
{
    let library = Rc::new(state.alloc(), LibName::Core)?;
    let label = Label(Name {
        library,
        number: u64::from(op.0),
    });
    state.note(id, &label, LinkKind::Prim(op))
}

/// Links a form that is a reference to a variable or a primitive.
fn link_code<L: Ledger>(state: &mut Expansion<L>, form: &Syn, core: &Core) -> Result<(), Memory>
    ensures { OnOk result (state.new ≡ linked_code form.now core.now state.old) }
{
    match &core.node {
        CoreNode::Ref(label) => state.note(form, label, LinkKind::Refer),
        CoreNode::Prim(op) => link_primitive(state, form, *op),
        _ => Ok(()),
    }
}

/// Links the first element of a list to the variable that it stands for.
fn link_first<L: Ledger>(state: &mut Expansion<L>, list: &Syn, label: &Label) -> Result<(), Memory>
    ensures { OnOk result (state.new ≡ noted (first_span list.now) label.now links.Refer state.old) }
{
    match list.open(state.alloc())? {
        OpenedTree::Pair(id, _) => state.note(&id, label, LinkKind::Refer),
        _ => Ok(()),
    }
}

/// Links the target of an assignment to the variable that it stands for.
fn link_target<L: Ledger>(state: &mut Expansion<L>, form: &Syn, label: &Label) -> Result<(), Memory>
    ensures { OnOk result (state.new ≡ noted (target_span form.now) label.now links.Refer state.old) }
{
    match form.open(state.alloc())? {
        OpenedTree::Pair(_, rest) => link_first(state, &rest, label),
        _ => Ok(()),
    }
}

/// Links a form that is a reference, or the target of one that is an assignment.
pub(crate) fn link<L: Ledger>(
    state: &mut Expansion<L>,
    form: &Syn,
    plan: &Plan,
) -> Result<(), Memory>
    ensures { OnOk result (state.new ≡ linked form.now plan.now state.old) }
{
    match plan {
        Plan::Done(core) => link_code(state, form, core),
        Plan::Assignment(label, _) => link_target(state, form, label),
        _ => Ok(()),
    }
}
