//! The shape of a form.

ghost use Rattle.std.specs.Prelude.{◌≡◌, IfOk, [], ◌∷◌, Some};
ghost use Rattle.core_shapes.specs.declared.shape.Shape.TheVariants as shapes;
ghost use Rattle.base_data.specs.Gives.{Gives};
ghost use Rattle.core_shapes.specs.Lists.{all_of};
ghost use Rattle.core_shapes.specs.Forms.{formals, formals_before, binding, bindings, lambda_case, pattern_case, quote_shape, lambda_shape, case_lambda_shape, if_shape, set_shape, letrec_shape, let_syntax_shape, define_variable, define_procedure, define_shape, define_syntax_shape, operand_shape, syntax_case_shape, shaped, shape_of, shape};

use crate::at::fault_at;
use crate::lists::{all_ids, is_id, is_nil, parts_of, proper, share_all, split_first};
use crate::shape::{BindingSpec, FormalIds, LambdaCase, PatternCase, Shape};
use base_data::fault::{FaultKind, Stop};
use base_data::items::Items;
use base_data::memory::Memory;
use base_data::span::Span;
use core_language::core_form::CoreForm;
use std::alloc::Global;
use stx_object::syn::Syn;

/// The identifiers of a formals list: `(id ...)`, `(id ... . id)` or `id`.
#[tactic(auto, unfolding(crate::specs::Forms::formals, crate::specs::Forms::formals_before))]
fn formals(alloc: Global, form: &Syn) -> Result<Option<FormalIds>, Memory>
    ensures { IfOk result (λ f. f ≡ formals form.now) }
{
    let parts = parts_of(alloc, form)?;
    if !all_ids(alloc, parts.elements.as_slice())? {
        return Ok(None);
    }
    let required = parts.elements;
    if is_nil(alloc, &parts.tail)? {
        return Ok(Some(FormalIds {
            required,
            rest: None,
        }));
    }
    if is_id(alloc, &parts.tail)? {
        return Ok(Some(FormalIds {
            required,
            rest: Some(parts.tail),
        }));
    }
    Ok(None)
}

#[tactic(auto, unfolding(crate::specs::Forms::binding))]
fn binding(alloc: Global, form: &Syn) -> Result<Option<BindingSpec>, Memory>
    ensures { IfOk result (λ b. b ≡ binding form.now) }
{
    let Some(parts) = proper(alloc, form)? else {
        return Ok(None);
    };
    let [id, init] = parts.as_slice() else {
        return Ok(None);
    };
    if !is_id(alloc, id)? {
        return Ok(None);
    }
    Ok(Some(BindingSpec {
        id: id.share()?,
        init: init.share()?,
    }))
}

#[tactic(auto, using(crate::proofs::Walks::all_on, crate::proofs::Walks::all_none, crate::proofs::Walks::all_done))]
fn all_bindings(alloc: Global, forms: &[Syn]) -> Result<Option<Items<BindingSpec>>, Memory>
    ensures { IfOk result (λ bs. bs ≡ all_of binding [] forms.now) }
{
    let mut all = Items::new(alloc);
    for form in forms {
        let Some(one) = binding(alloc, form)? else {
            return Ok(None);
        };
        all.push(one)?;
    }
    Ok(Some(all))
}

#[tactic(auto, unfolding(crate::specs::Forms::bindings))]
fn bindings(alloc: Global, form: &Syn) -> Result<Option<Items<BindingSpec>>, Memory>
    ensures { IfOk result (λ bs. bs ≡ bindings form.now) }
{
    let Some(parts) = proper(alloc, form)? else {
        return Ok(None);
    };
    all_bindings(alloc, parts.as_slice())
}

#[tactic(auto, unfolding(crate::specs::Forms::lambda_case))]
fn lambda_case(alloc: Global, form: &Syn) -> Result<Option<LambdaCase>, Memory>
    ensures { IfOk result (λ c. c ≡ lambda_case form.now) }
{
    let Some(parts) = proper(alloc, form)? else {
        return Ok(None);
    };
    let [ids, body @ ..] = parts.as_slice() else {
        return Ok(None);
    };
    let Some(formals) = formals(alloc, ids)? else {
        return Ok(None);
    };
    let body = share_all(alloc, body)?;
    Ok(Some(LambdaCase { formals, body }))
}

#[tactic(auto, using(crate::proofs::Walks::all_on, crate::proofs::Walks::all_none, crate::proofs::Walks::all_done))]
fn lambda_cases(alloc: Global, forms: &[Syn]) -> Result<Option<Items<LambdaCase>>, Memory>
    ensures { IfOk result (λ cs. cs ≡ all_of lambda_case [] forms.now) }
{
    let mut all = Items::new(alloc);
    for form in forms {
        let Some(one) = lambda_case(alloc, form)? else {
            return Ok(None);
        };
        all.push(one)?;
    }
    Ok(Some(all))
}

#[tactic(auto, unfolding(crate::specs::Forms::pattern_case))]
fn pattern_case(alloc: Global, form: &Syn) -> Result<Option<PatternCase>, Memory>
    ensures { IfOk result (λ c. c ≡ pattern_case form.now) }
{
    let Some(parts) = proper(alloc, form)? else {
        return Ok(None);
    };
    match parts.as_slice() {
        [pattern, output] => Ok(Some(PatternCase {
            pattern: pattern.share()?,
            fender: None,
            output: output.share()?,
        })),
        [pattern, fender, output] => Ok(Some(PatternCase {
            pattern: pattern.share()?,
            fender: Some(fender.share()?),
            output: output.share()?,
        })),
        _ => Ok(None),
    }
}

#[tactic(auto, using(crate::proofs::Walks::all_on, crate::proofs::Walks::all_none, crate::proofs::Walks::all_done))]
fn pattern_cases(alloc: Global, forms: &[Syn]) -> Result<Option<Items<PatternCase>>, Memory>
    ensures { IfOk result (λ cs. cs ≡ all_of pattern_case [] forms.now) }
{
    let mut all = Items::new(alloc);
    for form in forms {
        let Some(one) = pattern_case(alloc, form)? else {
            return Ok(None);
        };
        all.push(one)?;
    }
    Ok(Some(all))
}

#[tactic(auto, unfolding(crate::specs::Forms::quote_shape))]
fn quote_shape(operands: &[Syn]) -> Result<Option<Shape>, Memory>
    ensures { IfOk result (λ s. s ≡ quote_shape operands.now) }
{
    let [datum] = operands else {
        return Ok(None);
    };
    Ok(Some(Shape::Quote(datum.share()?)))
}

#[tactic(auto, unfolding(crate::specs::Forms::operand_shape))]
fn operand_shape(operands: &[Syn]) -> Result<Option<Shape>, Memory>
    ensures { IfOk result (λ s. s ≡ operand_shape operands.now) }
{
    let [operand] = operands else {
        return Ok(None);
    };
    Ok(Some(Shape::Operand(operand.share()?)))
}

#[tactic(auto, unfolding(crate::specs::Forms::lambda_shape))]
fn lambda_shape(alloc: Global, operands: &[Syn]) -> Result<Option<Shape>, Memory>
    ensures { IfOk result (λ s. s ≡ lambda_shape operands.now) }
{
    let [ids, body @ ..] = operands else {
        return Ok(None);
    };
    let Some(formals) = formals(alloc, ids)? else {
        return Ok(None);
    };
    let body = share_all(alloc, body)?;
    Ok(Some(Shape::Lambda(formals, body)))
}

#[tactic(auto, unfolding(crate::specs::Forms::case_lambda_shape))]
fn case_lambda_shape(alloc: Global, operands: &[Syn]) -> Result<Option<Shape>, Memory>
    ensures { IfOk result (λ s. s ≡ case_lambda_shape operands.now) }
{
    let Some(cases) = lambda_cases(alloc, operands)? else {
        return Ok(None);
    };
    Ok(Some(Shape::CaseLambda(cases)))
}

#[tactic(auto, unfolding(crate::specs::Forms::if_shape))]
fn if_shape(operands: &[Syn]) -> Result<Option<Shape>, Memory>
    ensures { IfOk result (λ s. s ≡ if_shape operands.now) }
{
    match operands {
        [test, consequent] => Ok(Some(Shape::If(test.share()?, consequent.share()?, None))),
        [test, consequent, other] => {
            let other = other.share()?;
            Ok(Some(Shape::If(test.share()?, consequent.share()?, Some(other))))
        }
        _ => Ok(None),
    }
}

#[tactic(auto, unfolding(crate::specs::Forms::set_shape))]
fn set_shape(alloc: Global, operands: &[Syn]) -> Result<Option<Shape>, Memory>
    ensures { IfOk result (λ s. s ≡ set_shape operands.now) }
{
    let [target, value] = operands else {
        return Ok(None);
    };
    if !is_id(alloc, target)? {
        return Ok(None);
    }
    Ok(Some(Shape::Set(target.share()?, value.share()?)))
}

#[tactic(auto, unfolding(crate::specs::Forms::letrec_shape))]
fn letrec_shape(alloc: Global, operands: &[Syn]) -> Result<Option<Shape>, Memory>
    ensures { IfOk result (λ s. s ≡ letrec_shape operands.now) }
{
    let [specs, body @ ..] = operands else {
        return Ok(None);
    };
    let Some(bindings) = bindings(alloc, specs)? else {
        return Ok(None);
    };
    let body = share_all(alloc, body)?;
    Ok(Some(Shape::Letrec(bindings, body)))
}

#[tactic(auto, unfolding(crate::specs::Forms::let_syntax_shape))]
fn let_syntax_shape(alloc: Global, operands: &[Syn]) -> Result<Option<Shape>, Memory>
    ensures { IfOk result (λ s. s ≡ let_syntax_shape operands.now) }
{
    let [specs, body @ ..] = operands else {
        return Ok(None);
    };
    let Some(bindings) = bindings(alloc, specs)? else {
        return Ok(None);
    };
    let body = share_all(alloc, body)?;
    Ok(Some(Shape::LetSyntax(bindings, body)))
}

#[tactic(auto, unfolding(crate::specs::Forms::define_variable))]
fn define_variable(id: &Syn, values: &[Syn]) -> Result<Option<Shape>, Memory>
    ensures { IfOk result (λ s. s ≡ define_variable id.now values.now) }
{
    match values {
        [] => Ok(Some(Shape::Define(id.share()?, None))),
        [value] => {
            let value = value.share()?;
            Ok(Some(Shape::Define(id.share()?, Some(value))))
        }
        _ => Ok(None),
    }
}

#[tactic(auto, unfolding(crate::specs::Forms::define_procedure))]
fn define_procedure(alloc: Global, target: &Syn, body: &[Syn]) -> Result<Option<Shape>, Memory>
    ensures { IfOk result (λ s. s ≡ define_procedure target.now body.now) }
{
    let Some(target) = split_first(alloc, target)? else {
        return Ok(None);
    };
    if !is_id(alloc, &target.first)? {
        return Ok(None);
    }
    let Some(formals) = formals(alloc, &target.rest)? else {
        return Ok(None);
    };
    let body = share_all(alloc, body)?;
    Ok(Some(Shape::DefineProcedure(target.first, formals, body)))
}

#[tactic(auto, unfolding(crate::specs::Forms::define_shape))]
fn define_shape(alloc: Global, operands: &[Syn]) -> Result<Option<Shape>, Memory>
    ensures { IfOk result (λ s. s ≡ define_shape operands.now) }
{
    let [target, others @ ..] = operands else {
        return Ok(None);
    };
    if is_id(alloc, target)? {
        define_variable(target, others)
    } else {
        define_procedure(alloc, target, others)
    }
}

#[tactic(auto, unfolding(crate::specs::Forms::define_syntax_shape))]
fn define_syntax_shape(alloc: Global, operands: &[Syn]) -> Result<Option<Shape>, Memory>
    ensures { IfOk result (λ s. s ≡ define_syntax_shape operands.now) }
{
    let [id, value] = operands else {
        return Ok(None);
    };
    if !is_id(alloc, id)? {
        return Ok(None);
    }
    Ok(Some(Shape::DefineSyntax(id.share()?, value.share()?)))
}

#[tactic(auto, unfolding(crate::specs::Forms::syntax_case_shape))]
fn syntax_case_shape(alloc: Global, operands: &[Syn]) -> Result<Option<Shape>, Memory>
    ensures { IfOk result (λ s. s ≡ syntax_case_shape operands.now) }
{
    let [subject, literals, clauses @ ..] = operands else {
        return Ok(None);
    };
    let Some(literals) = proper(alloc, literals)? else {
        return Ok(None);
    };
    let Some(clauses) = pattern_cases(alloc, clauses)? else {
        return Ok(None);
    };
    Ok(Some(Shape::SyntaxCase(subject.share()?, literals, clauses)))
}

fn begin_shape(alloc: Global, operands: &[Syn]) -> Result<Option<Shape>, Memory>
    ensures { IfOk result (λ s. s ≡ Some (shapes.Begin operands.now)) }
{
    let forms = share_all(alloc, operands)?;
    Ok(Some(Shape::Begin(forms)))
}

/// The shape of a form of this keyword, from its operands.
#[tactic(auto, unfolding(crate::specs::Forms::shaped))]
fn shaped(alloc: Global, which: CoreForm, operands: &[Syn]) -> Result<Option<Shape>, Memory>
    ensures { IfOk result (λ s. s ≡ shaped which operands.now) }
{
    match which {
        CoreForm::Quote => quote_shape(operands),
        CoreForm::Lambda => lambda_shape(alloc, operands),
        CoreForm::CaseLambda => case_lambda_shape(alloc, operands),
        CoreForm::If => if_shape(operands),
        CoreForm::Set => set_shape(alloc, operands),
        CoreForm::Begin => begin_shape(alloc, operands),
        CoreForm::Letrec => letrec_shape(alloc, operands),
        CoreForm::LetrecStar => letrec_shape(alloc, operands),
        CoreForm::Define => define_shape(alloc, operands),
        CoreForm::DefineSyntax => define_syntax_shape(alloc, operands),
        CoreForm::LetSyntax => let_syntax_shape(alloc, operands),
        CoreForm::LetrecSyntax => let_syntax_shape(alloc, operands),
        CoreForm::Quasiquote => operand_shape(operands),
        CoreForm::Syntax => operand_shape(operands),
        CoreForm::Quasisyntax => operand_shape(operands),
        CoreForm::SyntaxCase => syntax_case_shape(alloc, operands),
        _ => Ok(None),
    }
}

#[tactic(auto, unfolding(crate::specs::Forms::shape_of))]
fn shape_of(alloc: Global, form: &Syn, which: CoreForm) -> Result<Option<Shape>, Memory>
    ensures { IfOk result (λ s. s ≡ shape_of which form.now) }
{
    let Some(parts) = proper(alloc, form)? else {
        return Ok(None);
    };
    let [_head, operands @ ..] = parts.as_slice() else {
        return Ok(None);
    };
    shaped(alloc, which, operands)
}

/// The parts of a form whose head stands for this keyword. It is `BadForm` exactly where the keyword
/// has no shape for the form; `place` is where a form without a span stands.
#[tactic(auto, unfolding(crate::specs::Forms::shape))]
pub fn shape(alloc: Global, form: &Syn, which: CoreForm, place: &Span) -> Result<Shape, Stop>
    ensures { Gives (λ s. s) result (shape which form.now place.now) }
{
    match shape_of(alloc, form, which)? {
        Some(shape) => Ok(shape),
        None => Err(fault_at(alloc, FaultKind::BadForm, form, place, None)),
    }
}
