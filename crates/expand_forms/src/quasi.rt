//! `quasiquote` and `quasisyntax` (R6RS 11.17; R6RS libraries 12.8).

ghost use Rattle.std.specs.Prelude.{◌≡◌};
ghost use Rattle.base_data.specs.Act.{GivesAfter};
ghost use Rattle.expand_quasi.specs.Form.{parts_of};
ghost use Rattle.expand_forms.specs.Expression.{inside};
ghost use Rattle.expand_forms.specs.Quasi.{parts_in_order, quasi_made, quasi_form};

use crate::at::FormAt;
use crate::expression::expression;
use crate::transformers::Transformers;
use base_data::fault::Stop;
use core_language::code::Core;
use core_quasi::word::Family;
use expand_heads::context::FormContext;
use expand_quasi::form::{QuasiForm, code_of, form_of, parts_of};
use expand_quasi::parts::PartForm;
use expand_standing::expansion::Expansion;
use expand_standing::means::Counts;
use std::marker::Model;
use std::sync::ledger::Ledger;
use stx_object::syn::Syn;

/// A `quasiquote` or `quasisyntax`, and its template.
#[derive(Drop)]
pub(crate) struct TemplateForm<'a> {
    /// The whole form.
    pub form: &'a Syn,
    /// Which of the two it is.
    pub which: Family,
    pub template: &'a Syn,
}

impl<'a> Model for TemplateForm<'a> {
    ghost use Rattle.expand_forms.specs.Forms.{TemplateForm, template_code};

    ghost Value = { TemplateForm };

    ghost coded = { template_code };

    ghost view = { λ f. record { form = f.form.now; which = f.which; template = f.template.now } };
}

/// The parts in order, each at its own depth: that of `at` is not looked at.
#[cycle(form)]
fn parts_in_order<M: Transformers, N: Ledger, L: Ledger>(
    state: &mut Expansion<L>,
    parts: &[PartForm],
    at: &FormAt<M>,
    counts: &mut Counts<N, L>,
) -> Result<Vec<Core>, Stop>
    ensures { GivesAfter (λ c. c.items) result state.new
        (parts_in_order (inside (M.records at.now.means.now) at.now.room) at.now.site.now.place at.now.site.now.level parts.now state.old) }
{
    let mut done = Vec::new(state.alloc());
    for part in parts {
        let site = at.site.at_depth(part.depth);
        let inner = FormAt { site: &site, ..*at };
        let core = expression(state, &part.form, &inner, counts)?;
        done.push(core)?;
    }
    Ok(done)
}

/// The code of the parts of a template, in order.
#[cycle(form)]
fn cores_of<M: Transformers, N: Ledger, L: Ledger>(
    state: &mut Expansion<L>,
    form: &Syn,
    quasi: &QuasiForm,
    at: &FormAt<M>,
    counts: &mut Counts<N, L>,
) -> Result<Vec<Core>, Stop>
    ensures { GivesAfter (λ c. c.items) result state.new
        (parts_in_order (inside (M.records at.now.means.now) at.now.room) at.now.site.now.place at.now.site.now.level
        (parts_of form.now at.now.site.now.depth quasi.now) state.old) }
{
    let site = at.site;
    let parts = parts_of(state.alloc(), form, quasi, site.depth)?;
    parts_in_order(state, parts.as_slice(), at, counts)
}

/// The parts of a template that comes to this, in order, and the code of them all.
#[cycle(form)]
fn quasi_made<M: Transformers, N: Ledger, L: Ledger>(
    state: &mut Expansion<L>,
    form: &Syn,
    quasi: &QuasiForm,
    at: &FormAt<M>,
    counts: &mut Counts<N, L>,
) -> Result<Core, Stop>
    ensures { GivesAfter (λ c. c) result state.new (quasi_made (inside (M.records at.now.means.now) at.now.room) at.now.site.now form.now quasi.now state.old) }
{
    let site = at.site;
    let cores = cores_of(state, form, quasi, at, counts)?;
    let context = FormContext {
        form,
        place: site.place,
        level: site.level,
    };
    code_of(state, &context, quasi, cores, counts.nodes)
}

/// What the template comes to, its parts in order, and the code of them all.
#[cycle(form)]
#[tactic(auto, unfolding(crate::specs::Quasi::quasi_form))]
pub(crate) fn quasi_form<M: Transformers, N: Ledger, L: Ledger>(
    state: &mut Expansion<L>,
    parts: &TemplateForm,
    at: &FormAt<M>,
    counts: &mut Counts<N, L>,
) -> Result<Core, Stop>
    ensures { GivesAfter (λ c. c) result state.new (quasi_form (inside (M.records at.now.means.now) at.now.room) at.now.site.now parts.now state.old) }
{
    let site = at.site;
    let quasi = form_of(state, parts.form, parts.which, parts.template, site.place)?;
    let core = quasi_made(state, parts.form, &quasi, at, counts);
    drop(quasi);
    core
}
