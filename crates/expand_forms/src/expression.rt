//! Expressions (R6RS 10 and 11).

ghost use Rattle.std.specs.Prelude.{◌≡◌, [], IfOk, map};
ghost use Rattle.base_data.specs.Act.{GivesAfter};
ghost use Rattle.stx_tree.specs.Changes.{stamp};
ghost use Rattle.expand_forms.specs.Body.{body, sequence_of};
ghost use Rattle.expand_forms.specs.Expression.{inside, form_at, perform, in_order, lambda, case_lambda, all_cases, lambda_case, case_in, letrec_form, letrec_in, all_inits, one_init, application, conditional, alternate, set, in_sequence};

use crate::at::FormAt;
use crate::body::{BodyForm, body};
use crate::cores::{
    assignment_of, call_of, letrec_of, one_armed_of, procedure_of_case, procedure_of_cases,
    two_armed_of,
};
use crate::expand_uses::{PlannedForm, expand_uses};
use crate::keywords::{LetSyntaxForm, keywords_form};
use crate::patterns::{SyntaxCaseForm, syntax_case};
use crate::quasi::{TemplateForm, quasi_form};
use crate::transformers::Transformers;
use base_data::fault::{FaultKind, Stop};
use base_data::items::Items;
use base_data::memory::Memory;
use base_data::name::{CodeNo, FrameNo, Label};
use base_data::steps::Steps;
use core_language::code::{Core, CoreNode, Init, Lambda};
use core_shapes::shape::{BindingSpec, FormalIds, LambdaCase};
use expand_heads::depth::MOST_ROUND;
use expand_heads::plan::Plan;
use expand_standing::binders::{BinderContext, BoundSpec};
use expand_standing::expansion::Expansion;
use expand_standing::means::Counts;
use std::alloc::Global;
use std::marker::Model;
use std::sync::ledger::Ledger;
use stx_object::frame_stamp::FrameStamp;
use stx_object::syn::Syn;

/// The parts of an `if`.
#[derive(Drop)]
struct IfForm<'a> {
    test: &'a Syn,
    consequent: &'a Syn,
    alternate: &'a Option<Syn>,
}

impl<'a> Model for IfForm<'a> {
    ghost use Rattle.expand_forms.specs.Forms.{IfForm, if_code};

    ghost Value = { IfForm };

    ghost coded = { if_code };

    ghost view = { λ f. record { test = f.test.now; consequent = f.consequent.now; alternate = f.alternate.now } };
}

/// The test and the consequent of an `if`, expanded.
#[derive(Drop)]
struct OneArmed {
    test: Box<Core>,
    consequent: Box<Core>,
}

/// A form that makes a procedure, and the parts of one of its cases.
#[derive(Drop)]
pub struct ProcedureForm<'a> {
    /// The whole form: a `lambda`, a `case-lambda` with all its cases, or the definition of a procedure.
    pub form: &'a Syn,
    /// The formals of the case.
    pub ids: &'a FormalIds,
    /// The forms of the body of the case.
    pub forms: &'a [Syn],
}

impl<'a> Model for ProcedureForm<'a> {
    ghost use Rattle.expand_forms.specs.Forms.{ProcedureForm, procedure_code};

    ghost Value = { ProcedureForm };

    ghost coded = { procedure_code };

    ghost view = { λ f. record { form = f.form.now; ids = f.ids.now; forms = f.forms.now } };
}

/// A `letrec`, or a `letrec*` where `star` is true, and its parts.
#[derive(Drop)]
struct LetrecForm<'a> {
    /// The whole form.
    form: &'a Syn,
    star: bool,
    /// Its variables, each with the expression of its value.
    specs: &'a [BindingSpec],
    /// The forms of its body.
    forms: &'a [Syn],
}

impl<'a> Model for LetrecForm<'a> {
    ghost use Rattle.expand_forms.specs.Forms.{LetrecForm, letrec_code};

    ghost Value = { LetrecForm };

    ghost coded = { letrec_code };

    ghost view = { λ f. record { form = f.form.now; star = f.star; specs = f.specs.now; forms = f.forms.now } };
}

/// A sequence of one is that one.
#[tactic(auto, using(crate::proofs::Bodies::only_one, crate::proofs::Bodies::not_one))]
pub(crate) fn sequence_of(parts: Vec<Core>) -> Core
    ensures { result ≡ sequence_of parts.items }
{
    let mut parts = parts;
    if parts.len() == 1 {
        if let Some(only) = parts.pop() {
            return only;
        }
    }
    Core {
        node: CoreNode::Seq(parts),
    }
}

/// No elements, with room for so many where there is memory. A list that grows keeps room for four at least.
pub(crate) fn with_room<T>(alloc: Global, count: usize) -> Vec<T>
    ensures { result.items ≡ [] }
{
    match Vec::with_capacity(alloc, count) {
        Ok(items) => items,
        Err(_) => Vec::new(alloc),
    }
}

/// The forms, each stamped with a frame. Several forms share what it takes.
pub(crate) fn stamp_all<N: Ledger>(
    alloc: Global,
    frame: &FrameNo,
    forms: &[Syn],
    nodes: &mut Steps<N>,
) -> Result<Items<Syn>, Memory>
    ensures { IfOk result (λ xs. xs ≡ map (stamp frame.now) forms.now) }
{
    let mut all = Items::new(alloc);
    if let [form] = forms {
        all.push(form.stamp(alloc, frame.share()?, nodes)?)?;
        return Ok(all);
    }
    let shared = FrameStamp::new(alloc, frame)?;
    for form in forms {
        let form = shared.put(alloc, form)?;
        all.push(form)?;
    }
    Ok(all)
}

/// What a form expands to. The form takes one of the room, and is refused where none is left.
#[cycle(form)]
#[tactic(auto, using(crate::proofs::Steps::form_step, crate::proofs::Steps::form_too_deep))]
pub fn expression<M: Transformers, N: Ledger, L: Ledger>(
    state: &mut Expansion<L>,
    form: &Syn,
    at: &FormAt<M>,
    counts: &mut Counts<N, L>,
) -> Result<Core, Stop>
    ensures { GivesAfter (λ c. c) result state.new ((inside (M.records at.now.means.now) at.now.room).form at.now.site.now form.now state.old) }
{
    let site = at.site;
    if at.room == 0 {
        return Err(state.fault_form(FaultKind::TooDeep, form, site.place));
    }
    let inner = FormAt {
        room: at.room - 1,
        ..*at
    };
    form_at(state, form, &inner, counts)
}

/// An expression, in a box. Code that waits for other code lies in one: it is dropped by one call.
#[cycle(form)]
pub(crate) fn boxed<M: Transformers, N: Ledger, L: Ledger>(
    state: &mut Expansion<L>,
    form: &Syn,
    at: &FormAt<M>,
    counts: &mut Counts<N, L>,
) -> Result<Box<Core>, Stop>
    ensures { GivesAfter (λ c. c.value) result state.new ((inside (M.records at.now.means.now) at.now.room).form at.now.site.now form.now state.old) }
{
    let core = expression(state, form, at, counts)?;
    Ok(Box::new(state.alloc(), core)?)
}

/// An expression that a frame is put on.
#[cycle(form)]
pub(crate) fn expression_in<M: Transformers, N: Ledger, L: Ledger>(
    state: &mut Expansion<L>,
    frame: &FrameNo,
    form: &Syn,
    at: &FormAt<M>,
    counts: &mut Counts<N, L>,
) -> Result<Core, Stop>
    ensures { GivesAfter (λ c. c) result state.new ((inside (M.records at.now.means.now) at.now.room).form at.now.site.now
        (stamp frame.now form.now) state.old) }
{
    let form = form.stamp(state.alloc(), frame.share()?, counts.nodes)?;
    expression(state, &form, at, counts)
}

/// As `expression`, with the room that is left for the forms in it.
#[cycle(form)]
#[tactic(auto, unfolding(crate::specs::Expression::form_at), using(crate::proofs::Steps::earlier_inside))]
fn form_at<M: Transformers, N: Ledger, L: Ledger>(
    state: &mut Expansion<L>,
    form: &Syn,
    at: &FormAt<M>,
    counts: &mut Counts<N, L>,
) -> Result<Core, Stop>
    ensures { GivesAfter (λ c. c) result state.new (form_at (inside (M.records at.now.means.now) at.now.room) at.now.site.now form.now state.old) }
{
    let outer = at.site;
    if outer.depth > MOST_ROUND {
        return Err(state.fault_form(FaultKind::TooDeep, form, outer.place));
    }
    let PlannedForm { place, form, plan } = expand_uses(state, form, at, counts)?;
    let site = outer.at_place(&place);
    let there = FormAt { site: &site, ..*at };
    perform(state, &form, plan, &there, counts)
}

/// What is done with a plan: the code of one that is done is taken out of it.
#[cycle(form)]
#[tactic(auto, unfolding(crate::specs::Expression::perform))]
fn perform<M: Transformers, N: Ledger, L: Ledger>(
    state: &mut Expansion<L>,
    form: &Syn,
    plan: Plan,
    at: &FormAt<M>,
    counts: &mut Counts<N, L>,
) -> Result<Core, Stop>
    ensures { GivesAfter (λ c. c) result state.new (perform (inside (M.records at.now.means.now) at.now.room) at.now.site.now form.now plan state.old) }
{
    match plan {
        Plan::Done(core) => Ok(core),
        plan => {
            let core = perform_plan(state, form, &plan, at, counts);
            drop(plan);
            core
        }
    }
}

/// As `perform`, of a plan that is only looked at: what lies in it is dropped as a whole by the caller.
#[cycle(form)]
#[tactic(auto, unfolding(crate::specs::Expression::perform))]
fn perform_plan<M: Transformers, N: Ledger, L: Ledger>(
    state: &mut Expansion<L>,
    form: &Syn,
    plan: &Plan,
    at: &FormAt<M>,
    counts: &mut Counts<N, L>,
) -> Result<Core, Stop>
    ensures { GivesAfter (λ c. c) result state.new (perform (inside (M.records at.now.means.now) at.now.room) at.now.site.now form.now plan.now state.old) }
{
    let outer = at.site;
    let site = outer.one_deeper();
    let inner = FormAt { site: &site, ..*at };
    match plan {
        // This never comes: the caller has taken the code of a plan that is done.
        Plan::Done(_) => Err(Stop::Memory),
        Plan::Call(operator, operands) => {
            application(state, operator, operands.as_slice(), &inner, counts)
        }
        Plan::Conditional(test, consequent, alternate) => {
            let parts = IfForm {
                test,
                consequent,
                alternate,
            };
            conditional(state, &parts, &inner, counts)
        }
        Plan::Assignment(label, value) => set(state, label, value, &inner, counts),
        Plan::Sequence(forms) => in_sequence(state, forms.as_slice(), &inner, counts),
        Plan::Lambda(ids, forms) => {
            let parts = ProcedureForm {
                form,
                ids,
                forms: forms.as_slice(),
            };
            lambda(state, &parts, &inner, counts)
        }
        Plan::CaseLambda(cases) => case_lambda(state, form, cases.as_slice(), &inner, counts),
        Plan::Letrec(star, specs, forms) => {
            let parts = LetrecForm {
                form,
                star: *star,
                specs: specs.as_slice(),
                forms: forms.as_slice(),
            };
            letrec_form(state, &parts, &inner, counts)
        }
        Plan::Matching(subject, literals, cases, span) => {
            let parts = SyntaxCaseForm {
                subject,
                literals: literals.as_slice(),
                cases: cases.as_slice(),
                span,
            };
            syntax_case(state, &parts, &inner, counts)
        }
        Plan::Keywords(recursive, specs, forms) => {
            let parts = LetSyntaxForm {
                recursive: *recursive,
                specs: specs.as_slice(),
                forms: forms.as_slice(),
            };
            keywords_form(state, &parts, &inner, counts)
        }
        Plan::Quasi(which, template) => {
            let parts = TemplateForm {
                form,
                which: *which,
                template,
            };
            quasi_form(state, &parts, &inner, counts)
        }
    }
}

/// The operator and the operands, from left to right.
#[cycle(form)]
#[tactic(auto, unfolding(crate::specs::Expression::application))]
fn application<M: Transformers, N: Ledger, L: Ledger>(
    state: &mut Expansion<L>,
    operator: &Syn,
    operands: &[Syn],
    at: &FormAt<M>,
    counts: &mut Counts<N, L>,
) -> Result<Core, Stop>
    ensures { GivesAfter (λ c. c) result state.new (application
        (inside (M.records at.now.means.now) at.now.room) at.now.site.now operator.now operands.now state.old) }
{
    let operator = boxed(state, operator, at, counts)?;
    let operands = in_order(state, operands, at, counts)?;
    Ok(call_of(operator, operands))
}

#[cycle(form)]
#[tactic(auto, unfolding(crate::specs::Expression::conditional))]
fn conditional<M: Transformers, N: Ledger, L: Ledger>(
    state: &mut Expansion<L>,
    parts: &IfForm,
    at: &FormAt<M>,
    counts: &mut Counts<N, L>,
) -> Result<Core, Stop>
    ensures { GivesAfter (λ c. c) result state.new (conditional (inside (M.records at.now.means.now) at.now.room) at.now.site.now parts.now state.old) }
{
    let test = boxed(state, parts.test, at, counts)?;
    let consequent = boxed(state, parts.consequent, at, counts)?;
    let tested = OneArmed { test, consequent };
    alternate(state, tested, parts.alternate, at, counts)
}

#[cycle(form)]
fn alternate<M: Transformers, N: Ledger, L: Ledger>(
    state: &mut Expansion<L>,
    tested: OneArmed,
    other: &Option<Syn>,
    at: &FormAt<M>,
    counts: &mut Counts<N, L>,
) -> Result<Core, Stop>
    ensures { GivesAfter (λ c. c) result state.new (alternate
        (inside (M.records at.now.means.now) at.now.room) at.now.site.now tested.test.value tested.consequent.value other.now state.old) }
{
    let OneArmed { test, consequent } = tested;
    match other {
        None => Ok(one_armed_of(test, consequent)),
        Some(other) => {
            let other = boxed(state, other, at, counts)?;
            Ok(two_armed_of(test, consequent, other))
        }
    }
}

#[cycle(form)]
#[tactic(auto, unfolding(crate::specs::Expression::set))]
fn set<M: Transformers, N: Ledger, L: Ledger>(
    state: &mut Expansion<L>,
    label: &Label,
    value: &Syn,
    at: &FormAt<M>,
    counts: &mut Counts<N, L>,
) -> Result<Core, Stop>
    ensures { GivesAfter (λ c. c) result state.new (set (inside (M.records at.now.means.now) at.now.room) at.now.site.now label.now value.now state.old) }
{
    let value = boxed(state, value, at, counts)?;
    Ok(assignment_of(label, value)?)
}

#[cycle(form)]
#[tactic(auto, unfolding(crate::specs::Expression::in_sequence))]
pub(crate) fn in_sequence<M: Transformers, N: Ledger, L: Ledger>(
    state: &mut Expansion<L>,
    forms: &[Syn],
    at: &FormAt<M>,
    counts: &mut Counts<N, L>,
) -> Result<Core, Stop>
    ensures { GivesAfter (λ c. c) result state.new (in_sequence (inside (M.records at.now.means.now) at.now.room) at.now.site.now forms.now state.old) }
{
    let parts = in_order(state, forms, at, counts)?;
    Ok(sequence_of(parts))
}

#[cycle(form)]
fn in_order<M: Transformers, N: Ledger, L: Ledger>(
    state: &mut Expansion<L>,
    forms: &[Syn],
    at: &FormAt<M>,
    counts: &mut Counts<N, L>,
) -> Result<Vec<Core>, Stop>
    ensures { GivesAfter (λ c. c.items) result state.new (in_order (inside (M.records at.now.means.now) at.now.room) at.now.site.now forms.now state.old) }
{
    let mut done = with_room(state.alloc(), forms.len());
    for form in forms {
        let core = expression(state, form, at, counts)?;
        done.push(core)?;
    }
    Ok(done)
}

#[cycle(form)]
#[tactic(auto, unfolding(crate::specs::Expression::lambda))]
fn lambda<M: Transformers, N: Ledger, L: Ledger>(
    state: &mut Expansion<L>,
    parts: &ProcedureForm,
    at: &FormAt<M>,
    counts: &mut Counts<N, L>,
) -> Result<Core, Stop>
    ensures { GivesAfter (λ c. c) result state.new (lambda (inside (M.records at.now.means.now) at.now.room) at.now.site.now parts.now state.old) }
{
    let number = CodeNo(state.fresh()?);
    let case = lambda_case(state, parts, at, counts)?;
    Ok(procedure_of_case(state.alloc(), number, case)?)
}

#[cycle(form)]
#[tactic(auto, unfolding(crate::specs::Expression::case_lambda))]
fn case_lambda<M: Transformers, N: Ledger, L: Ledger>(
    state: &mut Expansion<L>,
    form: &Syn,
    cases: &[LambdaCase],
    at: &FormAt<M>,
    counts: &mut Counts<N, L>,
) -> Result<Core, Stop>
    ensures { GivesAfter (λ c. c) result state.new (case_lambda
        (inside (M.records at.now.means.now) at.now.room) at.now.site.now form.now cases.now state.old) }
{
    let number = CodeNo(state.fresh()?);
    let cases = all_cases(state, form, cases, at, counts)?;
    Ok(procedure_of_cases(state.alloc(), number, cases)?)
}

#[cycle(form)]
fn all_cases<M: Transformers, N: Ledger, L: Ledger>(
    state: &mut Expansion<L>,
    form: &Syn,
    cases: &[LambdaCase],
    at: &FormAt<M>,
    counts: &mut Counts<N, L>,
) -> Result<Vec<Lambda>, Stop>
    ensures { GivesAfter (λ c. c.items) result state.new
        (all_cases (inside (M.records at.now.means.now) at.now.room) at.now.site.now form.now cases.now state.old) }
{
    let mut done = with_room(state.alloc(), cases.len());
    for case in cases {
        let parts = ProcedureForm {
            form,
            ids: &case.formals,
            forms: case.body.as_slice(),
        };
        let one = lambda_case(state, &parts, at, counts)?;
        done.push(one)?;
    }
    Ok(done)
}

/// A case of a procedure: its formals have a frame, and so has its body.
#[cycle(form)]
#[tactic(auto, unfolding(crate::specs::Expression::lambda_case))]
fn lambda_case<M: Transformers, N: Ledger, L: Ledger>(
    state: &mut Expansion<L>,
    parts: &ProcedureForm,
    at: &FormAt<M>,
    counts: &mut Counts<N, L>,
) -> Result<Lambda, Stop>
    ensures { GivesAfter (λ c. c) result state.new (lambda_case (inside (M.records at.now.means.now) at.now.room) at.now.site.now parts.now state.old) }
{
    let outer = state.in_scope();
    let frame = state.fresh_frame()?;
    let case = case_in(state, &frame, parts, at, counts)?;
    state.cut_scope(outer);
    Ok(case)
}

/// A case whose formals have this frame.
#[cycle(form)]
fn case_in<M: Transformers, N: Ledger, L: Ledger>(
    state: &mut Expansion<L>,
    frame: &FrameNo,
    parts: &ProcedureForm,
    at: &FormAt<M>,
    counts: &mut Counts<N, L>,
) -> Result<Lambda, Stop>
    ensures { GivesAfter (λ c. c) result state.new (case_in (inside (M.records at.now.means.now) at.now.room) at.now.site.now parts.now frame.now state.old) }
{
    let site = at.site;
    let binders = BinderContext {
        frame,
        place: site.place,
        level: site.level,
    };
    let formals = state.bind_formals(&binders, parts.ids)?;
    let whole = BodyForm {
        form: parts.form,
        forms: parts.forms,
    };
    let body = body_under(state, frame, &whole, at, counts)?;
    Ok(Lambda { formals, body })
}

/// A body on whose forms a frame is put.
#[cycle(form)]
fn body_under<M: Transformers, N: Ledger, L: Ledger>(
    state: &mut Expansion<L>,
    frame: &FrameNo,
    whole: &BodyForm,
    at: &FormAt<M>,
    counts: &mut Counts<N, L>,
) -> Result<Core, Stop>
    ensures { GivesAfter (λ c. c) result state.new (body
        (inside (M.records at.now.means.now) at.now.room) at.now.site.now whole.now.form.now (map (stamp frame.now) whole.now.forms.now) state.old) }
{
    let forms = stamp_all(state.alloc(), frame, whole.forms, counts.nodes)?;
    let stamped = BodyForm {
        form: whole.form,
        forms: forms.as_slice(),
    };
    body(state, &stamped, at, counts)
}

/// As `lambda_case`, of a procedure that a definition binds. Its form takes one of the room, and is refused
/// where none is left.
#[cycle(form)]
#[tactic(auto, using(crate::proofs::Steps::procedure_step, crate::proofs::Steps::procedure_too_deep))]
pub fn procedure<M: Transformers, N: Ledger, L: Ledger>(
    state: &mut Expansion<L>,
    parts: &ProcedureForm,
    at: &FormAt<M>,
    counts: &mut Counts<N, L>,
) -> Result<Lambda, Stop>
    ensures { GivesAfter (λ c. c) result state.new ((inside (M.records at.now.means.now) at.now.room).procedure at.now.site.now parts.now state.old) }
{
    let site = at.site;
    if at.room == 0 {
        return Err(state.fault_form(FaultKind::TooDeep, parts.form, site.place));
    }
    let inner = FormAt {
        room: at.room - 1,
        ..*at
    };
    lambda_case(state, parts, &inner, counts)
}

#[cycle(form)]
#[tactic(auto, unfolding(crate::specs::Expression::letrec_form))]
fn letrec_form<M: Transformers, N: Ledger, L: Ledger>(
    state: &mut Expansion<L>,
    parts: &LetrecForm,
    at: &FormAt<M>,
    counts: &mut Counts<N, L>,
) -> Result<Core, Stop>
    ensures { GivesAfter (λ c. c) result state.new (letrec_form (inside (M.records at.now.means.now) at.now.room) at.now.site.now parts.now state.old) }
{
    let outer = state.in_scope();
    let frame = state.fresh_frame()?;
    let core = letrec_in(state, &frame, parts, at, counts)?;
    state.cut_scope(outer);
    Ok(core)
}

/// A `letrec` or `letrec*` whose variables have this frame.
#[cycle(form)]
fn letrec_in<M: Transformers, N: Ledger, L: Ledger>(
    state: &mut Expansion<L>,
    frame: &FrameNo,
    parts: &LetrecForm,
    at: &FormAt<M>,
    counts: &mut Counts<N, L>,
) -> Result<Core, Stop>
    ensures { GivesAfter (λ c. c) result state.new (letrec_in (inside (M.records at.now.means.now) at.now.room) at.now.site.now parts.now frame.now state.old) }
{
    let site = at.site;
    let binders = BinderContext {
        frame,
        place: site.place,
        level: site.level,
    };
    let bound = state.bind_specs(&binders, parts.specs)?;
    let inits = all_inits(state, frame, bound.as_slice(), at, counts)?;
    drop(bound);
    let whole = BodyForm {
        form: parts.form,
        forms: parts.forms,
    };
    let body = body_under(state, frame, &whole, at, counts)?;
    Ok(letrec_of(state.alloc(), parts.star, inits, body)?)
}

#[cycle(form)]
fn all_inits<M: Transformers, N: Ledger, L: Ledger>(
    state: &mut Expansion<L>,
    frame: &FrameNo,
    bound: &[BoundSpec],
    at: &FormAt<M>,
    counts: &mut Counts<N, L>,
) -> Result<Vec<Init>, Stop>
    ensures { GivesAfter (λ c. c.items) result state.new
        (all_inits (inside (M.records at.now.means.now) at.now.room) at.now.site.now frame.now bound.now state.old) }
{
    let mut done = with_room(state.alloc(), bound.len());
    for one in bound {
        let init = one_init(state, frame, one, at, counts)?;
        done.push(init)?;
    }
    Ok(done)
}

#[cycle(form)]
#[tactic(auto, unfolding(crate::specs::Expression::one_init))]
fn one_init<M: Transformers, N: Ledger, L: Ledger>(
    state: &mut Expansion<L>,
    frame: &FrameNo,
    bound: &BoundSpec,
    at: &FormAt<M>,
    counts: &mut Counts<N, L>,
) -> Result<Init, Stop>
    ensures { GivesAfter (λ i. i) result state.new (one_init (inside (M.records at.now.means.now) at.now.room) at.now.site.now frame.now bound.now state.old) }
{
    let label = bound.label.share()?;
    let value = expression_in(state, frame, &bound.init, at, counts)?;
    Ok(Init { label, value })
}
