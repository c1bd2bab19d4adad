//! `quasiquote` and `quasisyntax` forms.

ghost use Rattle.std.specs.Prelude.{◌≡◌, ◌+◌, ◌≤◌, IfOk, OnOk, OnErr};
ghost use Rattle.base_data.specs.Act.{GivesAfter};
ghost use Rattle.core_quasi.specs.declared.word.Family.TheVariants as family;
ghost use Rattle.expand_quasi.specs.Form.{form_of, parts_of, code_of, nodes_of};
ghost use Rattle.expand_quasi.specs.Inserted.{syntax_code, stamps_of};

use crate::filled::plan_code;
use crate::inserted::{dots, inserted, plain_instance};
use crate::parts::{PartForm, inserts_parts, push_quasi};
use base_data::fault::Stop;
use base_data::items::Items;
use base_data::memory::Memory;
use base_data::span::Span;
use base_data::steps::Steps;
use core_language::code::Core;
use core_quasi::plan::Quasi;
use core_quasi::quasi::quasi;
use core_quasi::quasi_syntax::{QuasiContext, QuasiSyntax, quasi_syntax};
use core_quasi::word::Family;
use expand_heads::context::FormContext;
use expand_standing::expansion::Expansion;
use std::alloc::Global;
use std::sync::ledger::Ledger;
use stx_object::syn::Syn;

/// What a quasi form comes to.
#[derive(Drop)]
pub enum QuasiForm {
    /// `quasiquote`.
    Quote(Quasi),
    /// `quasisyntax`.
    Syntax(QuasiSyntax),
}

fn quote_form<L: Ledger>(
    state: &Expansion<L>,
    form: &Syn,
    template: &Syn,
    place: &Span,
) -> Result<QuasiForm, Stop>
    ensures { GivesAfter (λ q. q) result state.now (form_of place.now form.now family.Quote template.now state.now) }
{
    let plan = quasi(state.alloc(), template, form, place, state.frames())?;
    Ok(QuasiForm::Quote(plan))
}

fn syntax_form<L: Ledger>(
    state: &Expansion<L>,
    form: &Syn,
    template: &Syn,
    place: &Span,
) -> Result<QuasiForm, Stop>
    ensures { GivesAfter (λ q. q) result state.now (form_of place.now form.now family.Syntax template.now state.now) }
{
    let dots = dots(state.alloc())?;
    let context = QuasiContext {
        alloc: state.alloc(),
        frames: state.frames(),
        dots: &dots,
    };
    let quasi = quasi_syntax(&context, template, form, place)?;
    Ok(QuasiForm::Syntax(quasi))
}

/// What a form with this template comes to. It is `BadForm` at the form where R6RS has no meaning for the template,
/// and `TooDeep` at the form where a template of `syntax` would pass a limit of trees.
pub fn form_of<L: Ledger>(
    state: &Expansion<L>,
    form: &Syn,
    which: Family,
    template: &Syn,
    place: &Span,
) -> Result<QuasiForm, Stop>
    ensures { GivesAfter (λ q. q) result state.now (form_of place.now form.now which template.now state.now) }
{
    match which {
        Family::Quote => quote_form(state, form, template, place),
        Family::Syntax => syntax_form(state, form, template, place),
    }
}

/// What is to be expanded of a form that stands at a depth, in order.
pub fn parts_of(
    alloc: Global,
    form: &Syn,
    quasi: &QuasiForm,
    depth: u16,
) -> Result<Items<PartForm>, Memory>
    ensures { IfOk result (λ ps. ps ≡ parts_of form.now depth quasi.now) }
{
    match quasi {
        QuasiForm::Quote(plan) => {
            let mut parts = Items::new(alloc);
            push_quasi(form, plan, depth, &mut parts)?;
            Ok(parts)
        }
        QuasiForm::Syntax(quasi) => inserts_parts(alloc, form, quasi.inserts.as_slice(), depth),
    }
}

fn syntax_code<N: Ledger, L: Ledger>(
    state: &mut Expansion<L>,
    context: &FormContext,
    quasi: &QuasiSyntax,
    codes: Vec<Core>,
    nodes: &mut Steps<N>,
) -> Result<Core, Stop>
    ensures given { GivesAfter (λ c. c) result state.new
        (syntax_code context.now.place.now context.now.level context.now.form.now quasi.now codes.items quasi.now.inserts state.old) }
    ensures made { OnOk result (nodes.new ≡ nodes.old + stamps_of quasi.now.inserts) }
    ensures refused { OnErr result (nodes.new ≤ nodes.old + stamps_of quasi.now.inserts) }
{
    if quasi.inserts.as_slice().is_empty() {
        return plain_instance(state, context, quasi);
    }
    inserted(state, context, quasi, codes, nodes)
}

/// The code of a form, whose parts have these codes. A fault of the template of a `quasisyntax` form is at its part.
/// It makes one node where a `quasisyntax` form has inserts, and else none.
pub fn code_of<N: Ledger, L: Ledger>(
    state: &mut Expansion<L>,
    context: &FormContext,
    quasi: &QuasiForm,
    codes: Vec<Core>,
    nodes: &mut Steps<N>,
) -> Result<Core, Stop>
    ensures given { GivesAfter (λ c. c) result state.new
        (code_of context.now.place.now context.now.level context.now.form.now quasi.now codes.items state.old) }
    ensures made { OnOk result (nodes.new ≡ nodes.old + nodes_of quasi.now) }
    ensures refused { OnErr result (nodes.new ≤ nodes.old + nodes_of quasi.now) }
{
    match quasi {
        QuasiForm::Quote(plan) => Ok(plan_code(state.alloc(), plan, codes)?),
        QuasiForm::Syntax(quasi) => syntax_code(state, context, quasi, codes, nodes),
    }
}
