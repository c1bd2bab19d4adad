//! What is to be done with a form.

ghost use Rattle.std.specs.Prelude.{◌≡◌, ◌∷◌, []};
ghost use Rattle.base_data.specs.Act.{GivesAfter};
ghost use Rattle.core_language.specs.Core.{variable, quoted};
ghost use Rattle.core_language.specs.declared.core_form.CoreForm.TheVariants as core_forms;
ghost use Rattle.core_shapes.specs.At.{place_of};
ghost use Rattle.core_language.specs.CoreView.{seen};
ghost use Rattle.core_shapes.specs.Forms.{shape};
ghost use Rattle.core_shapes.specs.Lists.{is_nil_atom};
ghost use Rattle.stx_tree.specs.Leaves.{strip};
ghost use Rattle.expand_heads.specs.declared.plan.Plan.TheVariants as plans;
ghost use Rattle.expand_heads.specs.Plan.{planned, done, plan_of, list_plan, by_head, keyword_plan, with_shape, shape_plan, application, in_sequence, assign, is_star, is_letrec_syntax, keywords_plan, operand_plan, reference, refer, variable_at, constant, target_by, target_variable};

use crate::context::FormContext;
use base_data::atom::Atom;
use base_data::fault::{FaultKind, Stop};
use base_data::items::Items;
use base_data::name::Label;
use base_data::span::Span;
use core_language::code::{Core, CoreNode};
use core_language::core_form::CoreForm;
use core_quasi::word::Family;
use core_shapes::at::place_of;
use core_shapes::forms::shape;
use core_shapes::lists::{is_id, is_nil_atom, proper};
use core_shapes::shape::{BindingSpec, FormalIds, LambdaCase, PatternCase, Shape};
use expand_standing::expansion::Expansion;
use expand_standing::standing::{Role, Standing, Variable, role_of};
use std::sync::ledger::Ledger;
use stx_object::syn::{OpenedTree, Syn};

/// A keyword whose uses give another form in their place.
#[derive(Drop)]
pub enum KeywordUse {
    /// A transformer gives it.
    Macro(Label),
    /// One of the three forms of records.
    Record(CoreForm),
}

/// What is to be done with a form.
#[derive(Drop)]
pub enum Plan {
    /// It is core code already.
    Done(Core),
    /// The operator and the operands.
    Call(Syn, Items<Syn>),
    /// The test, the consequent and the alternate.
    Conditional(Syn, Syn, Option<Syn>),
    Assignment(Label, Syn),
    /// One or more expressions.
    Sequence(Items<Syn>),
    Lambda(FormalIds, Items<Syn>),
    CaseLambda(Items<LambdaCase>),
    /// Of `letrec*` where the flag is true.
    Letrec(bool, Items<BindingSpec>, Items<Syn>),
    /// `syntax-case`: the subject, the literals, the clauses, and where the form stands.
    Matching(Syn, Items<Syn>, Items<PatternCase>, Span),
    /// `let-syntax`, or `letrec-syntax` where the flag is true: keywords, and expressions.
    Keywords(bool, Items<BindingSpec>, Items<Syn>),
    /// `quasiquote` or `quasisyntax`: the template.
    Quasi(Family, Syn),
}

/// What the head of a form asks for.
#[derive(Drop)]
pub enum HeadPlan {
    /// The form is no use of a keyword.
    Plan(Plan),
    /// A use of a keyword: the form is to be replaced by what comes of it.
    Use(KeywordUse),
    /// An assignment to a keyword, and its target: a use if the keyword is a variable transformer.
    SetUse(Label, Syn),
}

/// Whether it is `letrec*`.
fn is_star(form: CoreForm) -> bool
    ensures { result ≡ is_star form }
{
    matches!(form, CoreForm::LetrecStar)
}

/// Whether it is `letrec-syntax`.
pub(crate) fn is_letrec_syntax(form: CoreForm) -> bool
    ensures { result ≡ is_letrec_syntax form }
{
    matches!(form, CoreForm::LetrecSyntax)
}

fn done<L: Ledger>(state: &Expansion<L>, node: CoreNode) -> Result<HeadPlan, Stop>
    ensures { GivesAfter (λ p. p) result state.now (done (seen node) state.now) }
{
    Ok(HeadPlan::Plan(Plan::Done(Core { node })))
}

fn quotation<L: Ledger>(state: &Expansion<L>, datum: &Syn) -> Result<HeadPlan, Stop>
    ensures { GivesAfter (λ p. p) result state.now (done (quoted (strip datum.now)) state.now) }
{
    let datum = datum.strip(state.alloc())?;
    done(state, CoreNode::Quote(datum))
}

fn constant<L: Ledger>(
    state: &Expansion<L>,
    form: &Syn,
    atom: &Atom,
    place: &Span,
) -> Result<HeadPlan, Stop>
    ensures { GivesAfter (λ p. p) result state.now (constant place.now form.now (is_nil_atom atom.now) state.now) }
{
    if is_nil_atom(atom) {
        return Err(state.fault_form(FaultKind::BadForm, form, place));
    }
    quotation(state, form)
}

fn mention<L: Ledger>(state: &Expansion<L>, label: &Label) -> Result<HeadPlan, Stop>
    ensures { GivesAfter (λ p. p) result state.now (done (variable label.now) state.now) }
{
    let label = label.share()?;
    done(state, CoreNode::Ref(label))
}

#[tactic(auto, unfolding(crate::specs::Plan::variable_at))]
fn variable_at<L: Ledger>(
    state: &Expansion<L>,
    id: &Syn,
    variable: &Variable,
    place: &Span,
    level: u32,
) -> Result<HeadPlan, Stop>
    ensures { GivesAfter (λ p. p) result state.now (variable_at place.now level id.now variable.now state.now) }
{
    if variable.own {
        if variable.level == level {
            if state.is_in_scope(variable) {
                return mention(state, &variable.label);
            }
            return Err(state.fault_word(FaultKind::OutOfContext, id, id, place));
        }
        return Err(state.fault_word(FaultKind::OutOfContext, id, id, place));
    }
    if variable.top {
        if variable.assigned {
            return Err(state.fault_word(FaultKind::AssignedElsewhere, id, id, place));
        }
        return mention(state, &variable.label);
    }
    Err(state.fault_word(FaultKind::OutOfContext, id, id, place))
}

fn refer<L: Ledger>(
    state: &Expansion<L>,
    id: &Syn,
    standing: &Standing,
    place: &Span,
    level: u32,
) -> Result<HeadPlan, Stop>
    ensures { GivesAfter (λ p. p) result state.now (refer place.now level id.now standing.now state.now) }
{
    match standing {
        Standing::Nothing => Err(state.fault_word(FaultKind::Unbound, id, id, place)),
        Standing::Variable(variable) => variable_at(state, id, variable, place, level),
        Standing::PatternVariable => Err(state.fault_word(FaultKind::KeywordMisuse, id, id, place)),
        Standing::Primitive(op) => done(state, CoreNode::Prim(*op)),
        Standing::Core(_) => Err(state.fault_word(FaultKind::KeywordMisuse, id, id, place)),
        Standing::Keyword(label) => Ok(HeadPlan::Use(KeywordUse::Macro(label.share()?))),
    }
}

#[tactic(auto, unfolding(crate::specs::Plan::reference))]
fn reference<L: Ledger>(
    state: &mut Expansion<L>,
    id: &Syn,
    place: &Span,
    level: u32,
) -> Result<HeadPlan, Stop>
    ensures { GivesAfter (λ p. p) result state.new (reference place.now level id.now state.old) }
{
    let standing = state.standing(id)?;
    refer(state, id, &standing, place, level)
}

#[tactic(auto, unfolding(crate::specs::Plan::target_variable))]
fn target_variable<L: Ledger>(
    state: &mut Expansion<L>,
    context: &FormContext,
    id: &Syn,
    variable: &Variable,
) -> Result<Label, Stop>
    ensures { GivesAfter (λ l. l) result state.new (target_variable context.now.place.now context.now.level context.now.form.now id.now
        variable.now state.old) }
{
    let form = context.form;
    let place = context.place;
    if variable.own {
        if variable.level != context.level {
            return Err(state.fault_word(FaultKind::OutOfContext, id, id, place));
        }
        if !state.is_in_scope(variable) {
            return Err(state.fault_word(FaultKind::OutOfContext, id, id, place));
        }
        if state.has_export(&variable.label) {
            return Err(state.fault_word(FaultKind::AssignedExport, id, form, place));
        }
        return state.mark_assigned(&variable.label);
    }
    if !variable.top {
        return Err(state.fault_word(FaultKind::OutOfContext, id, id, place));
    }
    if state.has_export(&variable.label) {
        return Err(state.fault_word(FaultKind::AssignedExport, id, form, place));
    }
    Err(state.fault_word(FaultKind::AssignedImport, id, form, place))
}

fn target_by<L: Ledger>(
    state: &mut Expansion<L>,
    context: &FormContext,
    id: &Syn,
    standing: &Standing,
) -> Result<Label, Stop>
    ensures { GivesAfter (λ l. l) result state.new (target_by context.now.place.now context.now.level context.now.form.now id.now standing.now state.old) }
{
    let form = context.form;
    let place = context.place;
    match standing {
        Standing::Nothing => Err(state.fault_word(FaultKind::Unbound, id, form, place)),
        Standing::Variable(variable) => target_variable(state, context, id, variable),
        Standing::PatternVariable => Err(state.fault_word(FaultKind::KeywordMisuse, id, id, place)),
        Standing::Primitive(_) => Err(state.fault_word(FaultKind::AssignedImport, id, form, place)),
        Standing::Core(_) => Err(state.fault_word(FaultKind::KeywordMisuse, id, form, place)),
        Standing::Keyword(_) => Err(state.fault_word(FaultKind::KeywordMisuse, id, form, place)),
    }
}

#[tactic(auto, unfolding(crate::specs::Plan::assign))]
fn assign<L: Ledger>(
    state: &mut Expansion<L>,
    context: &FormContext,
    id: &Syn,
    value: Syn,
) -> Result<HeadPlan, Stop>
    ensures { GivesAfter (λ p. p) result state.new (assign context.now.place.now context.now.level context.now.form.now id.now value state.old) }
{
    let standing = state.standing(id)?;
    if let Standing::Keyword(label) = &standing {
        return Ok(HeadPlan::SetUse(label.share()?, id.share()?));
    }
    let label = target_by(state, context, id, &standing)?;
    Ok(HeadPlan::Plan(Plan::Assignment(label, value)))
}

#[tactic(auto, unfolding(crate::specs::Plan::application))]
fn application<L: Ledger>(
    state: &Expansion<L>,
    context: &FormContext,
    head: &Syn,
    rest: &Syn,
) -> Result<HeadPlan, Stop>
    ensures { GivesAfter (λ p. p) result state.now (application context.now.place.now context.now.form.now head.now rest.now state.now) }
{
    match proper(state.alloc(), rest)? {
        Some(operands) => Ok(HeadPlan::Plan(Plan::Call(head.share()?, operands))),
        None => Err(state.fault_form(FaultKind::BadForm, context.form, context.place)),
    }
}

fn in_sequence<L: Ledger>(
    state: &Expansion<L>,
    form: &Syn,
    forms: Items<Syn>,
    place: &Span,
) -> Result<HeadPlan, Stop>
    ensures { GivesAfter (λ p. p) result state.now (in_sequence place.now form.now forms state.now) }
{
    if forms.as_slice().is_empty() {
        return Err(state.fault_form(FaultKind::NoExpression, form, place));
    }
    Ok(HeadPlan::Plan(Plan::Sequence(forms)))
}

fn keywords_plan<L: Ledger>(
    state: &Expansion<L>,
    context: &FormContext,
    which: CoreForm,
    specs: Items<BindingSpec>,
    forms: Items<Syn>,
) -> Result<HeadPlan, Stop>
    ensures { GivesAfter (λ p. p) result state.now (keywords_plan context.now.place.now context.now.form.now which specs forms state.now) }
{
    if forms.as_slice().is_empty() {
        return Err(state.fault_form(FaultKind::NoExpression, context.form, context.place));
    }
    Ok(HeadPlan::Plan(Plan::Keywords(is_letrec_syntax(which), specs, forms)))
}

/// The instance of a template.
fn syntax_plan<L: Ledger>(
    state: &mut Expansion<L>,
    context: &FormContext,
    operand: &Syn,
) -> Result<HeadPlan, Stop>
    ensures { GivesAfter (λ p. p) result state.new (operand_plan context.now.place.now context.now.level context.now.form.now
        core_forms.Syntax operand.now state.old) }
{
    let template = state.template(operand, context.place, context.level)?;
    let span = place_of(context.form, context.place)?;
    done(state, CoreNode::Syntax(template, span))
}

fn operand_plan<L: Ledger>(
    state: &mut Expansion<L>,
    context: &FormContext,
    which: CoreForm,
    operand: &Syn,
) -> Result<HeadPlan, Stop>
    ensures { GivesAfter (λ p. p) result state.new (operand_plan context.now.place.now context.now.level context.now.form.now which operand.now state.old) }
{
    match which {
        CoreForm::Syntax => syntax_plan(state, context, operand),
        CoreForm::Quasiquote => Ok(HeadPlan::Plan(Plan::Quasi(Family::Quote, operand.share()?))),
        CoreForm::Quasisyntax => Ok(HeadPlan::Plan(Plan::Quasi(Family::Syntax, operand.share()?))),
        _ => Err(state.fault_form(FaultKind::BadForm, context.form, context.place)),
    }
}

/// `syntax-case`.
fn matching<L: Ledger>(
    state: &Expansion<L>,
    context: &FormContext,
    subject: Syn,
    literals: Items<Syn>,
    clauses: Items<PatternCase>,
) -> Result<HeadPlan, Stop>
    ensures { GivesAfter (λ p. p) result state.now (planned
        (plans.Matching subject literals clauses (place_of context.now.form.now context.now.place.now)) state.now) }
{
    let span = place_of(context.form, context.place)?;
    Ok(HeadPlan::Plan(Plan::Matching(subject, literals, clauses, span)))
}

#[tactic(auto, unfolding(crate::specs::Plan::shape_plan))]
fn shape_plan<L: Ledger>(
    state: &mut Expansion<L>,
    context: &FormContext,
    which: CoreForm,
    shape: Shape,
) -> Result<HeadPlan, Stop>
    ensures { GivesAfter (λ p. p) result state.new (shape_plan context.now.place.now context.now.level context.now.form.now which shape state.old) }
{
    let form = context.form;
    let place = context.place;
    match shape {
        Shape::Quote(datum) => quotation(state, &datum),
        Shape::Lambda(ids, forms) => Ok(HeadPlan::Plan(Plan::Lambda(ids, forms))),
        Shape::CaseLambda(cases) => Ok(HeadPlan::Plan(Plan::CaseLambda(cases))),
        Shape::If(test, consequent, other) => Ok(HeadPlan::Plan(Plan::Conditional(
            test, consequent, other,
        ))),
        Shape::Set(id, value) => assign(state, context, &id, value),
        Shape::Begin(forms) => in_sequence(state, form, forms, place),
        Shape::Letrec(specs, forms) => Ok(HeadPlan::Plan(Plan::Letrec(
            is_star(which),
            specs,
            forms,
        ))),
        Shape::Define(_, _) => Err(state.fault_form(FaultKind::DefinitionPlace, form, place)),
        Shape::DefineProcedure(_, _, _) => Err(state.fault_form(
            FaultKind::DefinitionPlace,
            form,
            place,
        )),
        Shape::DefineSyntax(_, _) => Err(state.fault_form(FaultKind::DefinitionPlace, form, place)),
        Shape::LetSyntax(specs, forms) => keywords_plan(state, context, which, specs, forms),
        Shape::Operand(operand) => operand_plan(state, context, which, &operand),
        Shape::SyntaxCase(subject, literals, clauses) => matching(
            state, context, subject, literals, clauses,
        ),
    }
}

fn shaped_plan<L: Ledger>(
    state: &mut Expansion<L>,
    context: &FormContext,
    which: CoreForm,
) -> Result<HeadPlan, Stop>
    ensures { GivesAfter (λ p. p) result state.new (with_shape context.now.place.now context.now.level context.now.form.now which
        (shape which context.now.form.now context.now.place.now) state.old) }
{
    let shape = shape(state.alloc(), context.form, which, context.place)?;
    shape_plan(state, context, which, shape)
}

#[tactic(auto, unfolding(crate::specs::Plan::keyword_plan))]
fn keyword_plan<L: Ledger>(
    state: &mut Expansion<L>,
    context: &FormContext,
    head: &Syn,
    which: CoreForm,
) -> Result<HeadPlan, Stop>
    ensures { GivesAfter (λ p. p) result state.new (keyword_plan context.now.place.now context.now.level context.now.form.now head.now which state.old) }
{
    let form = context.form;
    let place = context.place;
    match role_of(which) {
        Role::Expression => shaped_plan(state, context, which),
        Role::Assignment => shaped_plan(state, context, which),
        Role::Sequence => shaped_plan(state, context, which),
        Role::Definition => shaped_plan(state, context, which),
        Role::Keywords => shaped_plan(state, context, which),
        Role::Record => Err(state.fault_form(FaultKind::DefinitionPlace, form, place)),
        Role::RecordValue => Ok(HeadPlan::Use(KeywordUse::Record(which))),
        Role::Auxiliary => Err(state.fault_word(FaultKind::KeywordMisuse, head, head, place)),
    }
}

fn by_head<L: Ledger>(
    state: &mut Expansion<L>,
    context: &FormContext,
    head: &Syn,
    rest: &Syn,
    standing: &Standing,
) -> Result<HeadPlan, Stop>
    ensures { GivesAfter (λ p. p) result state.new (by_head context.now.place.now context.now.level context.now.form.now head.now rest.now
        standing.now state.old) }
{
    match standing {
        Standing::Nothing => application(state, context, head, rest),
        Standing::Variable(_) => application(state, context, head, rest),
        Standing::PatternVariable => application(state, context, head, rest),
        Standing::Primitive(_) => application(state, context, head, rest),
        Standing::Core(which) => keyword_plan(state, context, head, *which),
        Standing::Keyword(label) => Ok(HeadPlan::Use(KeywordUse::Macro(label.share()?))),
    }
}

#[tactic(auto, unfolding(crate::specs::Plan::list_plan))]
fn list_plan<L: Ledger>(
    state: &mut Expansion<L>,
    context: &FormContext,
    head: &Syn,
    rest: &Syn,
) -> Result<HeadPlan, Stop>
    ensures { GivesAfter (λ p. p) result state.new (list_plan context.now.place.now context.now.level context.now.form.now head.now rest.now state.old) }
{
    if !is_id(state.alloc(), head)? {
        return application(state, context, head, rest);
    }
    let standing = state.standing(head)?;
    by_head(state, context, head, rest, &standing)
}

/// What is to be done with a form.
#[tactic(auto, using(crate::proofs::Levels::plan_leaf, crate::proofs::Levels::plan_atom, crate::proofs::Levels::plan_pair, crate::proofs::Levels::plan_vector))]
pub fn plan_of<L: Ledger>(
    state: &mut Expansion<L>,
    form: &Syn,
    place: &Span,
    level: u32,
) -> Result<HeadPlan, Stop>
    ensures { GivesAfter (λ p. p) result state.new (plan_of place.now level form.now state.old) }
{
    match form.open(state.alloc())? {
        OpenedTree::Symbol(_) => reference(state, form, place, level),
        OpenedTree::Atom(atom) => constant(state, form, &atom, place),
        OpenedTree::Pair(head, rest) => {
            let context = FormContext { form, place, level };
            list_plan(state, &context, &head, &rest)
        }
        OpenedTree::Vector(_) => Err(state.fault_form(FaultKind::BadForm, form, place)),
    }
}
