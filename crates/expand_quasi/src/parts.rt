//! What is to be expanded of quasi forms.

ghost use Rattle.std.specs.Prelude.{◌≡◌, ◌∷◌, ◌++◌, [], map, IfOk, OnOk};
ghost use Rattle.core_quasi.specs.Plan.{quasis};
ghost use Rattle.expand_quasi.specs.Parts.{part, with_made, quasi_parts, all_quasi_parts, insert_part, inserts_parts};

use base_data::items::Items;
use base_data::memory::Memory;
use core_quasi::plan::{Quasi, QuasiNode};
use core_quasi::quasi_syntax::Insert;
use expand_heads::depth::{MOST_ROUND, deeper};
use std::alloc::Global;
use stx_object::syn::Syn;

/// A form that is to be expanded.
#[derive(Drop)]
pub struct PartForm {
    pub form: Syn,
    /// The number of core forms and applications round it.
    pub depth: u16,
}

fn push_part(form: &Syn, depth: u16, parts: &mut Items<PartForm>) -> Result<(), Memory>
    ensures { OnOk result (parts.new ≡ parts.old ++ part form.now depth ∷ []) }
{
    let form = form.share()?;
    parts.push(PartForm { form, depth })
}

/// A form that is made at this depth: where it is too deep, the quasi form stands for it.
fn push_made(form: &Syn, depth: u16, parts: &mut Items<PartForm>) -> Result<(), Memory>
    ensures { OnOk result (parts.new ≡ with_made form.now depth parts.old) }
{
    if depth > MOST_ROUND {
        return push_part(form, depth, parts);
    }
    Ok(())
}

/// Adds the parts of the plan of a `quasiquote` form.
#[cycle(parts)]
pub(crate) fn push_quasi(
    form: &Syn,
    quasi: &Quasi,
    depth: u16,
    parts: &mut Items<PartForm>,
) -> Result<(), Memory>
    ensures { OnOk result (parts.new ≡ quasi_parts form.now depth parts.old quasi.now) }
{
    match &quasi.node {
        QuasiNode::Constant(_) => push_made(form, depth, parts),
        QuasiNode::Expression(expression) => push_part(expression, depth, parts),
        QuasiNode::Call(_, list) => {
            let inner = deeper(depth);
            push_made(form, inner, parts)?;
            push_all_quasi(form, list, inner, parts)
        }
    }
}

#[cycle(parts)]
#[tactic(auto, using(crate::proofs::Walks::parts_on))]
fn push_all_quasi(
    form: &Syn,
    list: &[Quasi],
    depth: u16,
    parts: &mut Items<PartForm>,
) -> Result<(), Memory>
    ensures { OnOk result (parts.new ≡ all_quasi_parts form.now depth parts.old (quasis list.now)) }
{
    for quasi in list {
        push_quasi(form, quasi, depth, parts)?;
    }
    Ok(())
}

fn push_inserts(inserts: &[Insert], depth: u16, parts: &mut Items<PartForm>) -> Result<(), Memory>
    ensures { OnOk result (parts.new ≡ parts.old ++ map (insert_part depth) inserts.now) }
{
    for insert in inserts {
        push_part(&insert.expression, depth, parts)?;
    }
    Ok(())
}

/// The parts of a `quasisyntax` form with these inserts.
pub(crate) fn inserts_parts(
    alloc: Global,
    form: &Syn,
    inserts: &[Insert],
    depth: u16,
) -> Result<Items<PartForm>, Memory>
    ensures { IfOk result (λ ps. ps ≡ inserts_parts form.now depth inserts.now) }
{
    let mut parts = Items::new(alloc);
    if inserts.is_empty() {
        push_made(form, depth, &mut parts)?;
        return Ok(parts);
    }
    let inner = deeper(deeper(depth));
    push_made(form, inner, &mut parts)?;
    push_inserts(inserts, inner, &mut parts)?;
    Ok(parts)
}
