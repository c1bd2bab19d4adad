//! Templates of forms.

ghost use Rattle.std.specs.Prelude.{◌≡◌, ◌++◌, ◌∷◌, [], false, true, drop, option_map, IfOk, OnOk};
ghost use Rattle.base_data.specs.Gives.{Gives, StopsWith};
ghost use Rattle.stx_tree.specs.Tree.{is_pair, span_of, spanned, list_of, vector_of};
ghost use Rattle.stx_tree.specs.Measures.{within};
ghost use Rattle.core_language.specs.Template.{list, vector};
ghost use Rattle.core_language.specs.TemplateView.{items};
ghost use Rattle.core_language.specs.Bindings.{bound_to};
ghost use Rattle.stx_scope.specs.Stands.{stands};
ghost use Rattle.core_shapes.specs.Lists.{tail_of, elements};
ghost use Rattle.eval_template.specs.declared.compile.CompiledForm.TheVariants.{Fixed, Varied};
ghost use Rattle.eval_template.specs.Compile.{seen, seen_id, bad, variable_made, bound_made, label_made, is_special, leaf_made, dot_count, first_label, reach, fitted, item_made, constant_of, template_of, items_of, reaches, is_fixed, all_fixed, is_changed, any_changed, tree_before, trees, StopsAt, rebuilt, fixed_list, list_joined, fixed_vector, vector_joined, unescaped, template, with_template, forms_walked, escaped_form, list_template, escaped_template, vector_template, compiled};

use base_data::fault::{Bare, BareStop, Fault, FaultKind, Stop};
use base_data::items::Items;
use base_data::memory::Memory;
use base_data::name::Label;
use base_data::span::Span;
use base_data::symbol::Symbol;
use core_known::known::KnownBindings;
use core_language::binding::Binding;
use core_language::core_form::CoreForm;
use core_language::template::{Template, TemplateItem, TemplateNode};
use core_shapes::at::{fault_at, place_of};
use core_shapes::lists::{is_nil, parts_of};
use eval_pattern::keywords::is_form;
use std::alloc::Global;
use stx_object::syn::{OpenedTree, Syn};
use stx_scope::scope::Frames;

/// What forms are read with as templates.
#[derive(Drop)]
pub struct TemplateContext<'a> {
    pub alloc: Global,
    /// They say what identifiers stand for.
    pub frames: &'a Frames,
    /// They say which labels are those of pattern variables.
    pub bindings: &'a KnownBindings,
    /// The level of the template, which is that of its pattern variables.
    pub level: u32,
    /// Where a form without a span stands.
    pub place: &'a Span,
}

/// An identifier of a template, and its symbol.
#[derive(Drop)]
pub(crate) struct Identifier<'a> {
    pub(crate) form: &'a Syn,
    pub(crate) symbol: &'a Symbol,
}

/// A pattern variable, as it is bound.
#[derive(Drop)]
pub(crate) struct TemplateVariable {
    pub(crate) label: Label,
    pub(crate) level: u32,
    pub(crate) depth: u32,
}

/// What is made of a form.
#[derive(Drop)]
pub(crate) enum CompiledForm {
    /// The tree of a part without pattern variables, and whether an escape was taken out of it.
    Fixed(bool, Syn),
    /// A template, and how many ellipses behind it have a variable of depth before them.
    Varied(Template, u32),
}

/// An element of a list or vector.
#[derive(Drop)]
pub(crate) struct TemplateElement<'a> {
    pub(crate) form: &'a Syn,
    /// The label that the form stands for.
    pub(crate) label: Option<Label>,
    /// The ellipses behind it.
    pub(crate) ellipses: &'a [Syn],
}

/// What is made of an element, and how many ellipses stand behind it.
#[derive(Drop)]
pub(crate) struct MadeItem {
    pub(crate) made: CompiledForm,
    pub(crate) ellipses: u32,
}

/// The template of a form.
///
/// It is `OutOfContext` at a pattern variable of another level, and `BadTemplate` at one under too few
/// ellipses, at an ellipsis without a variable of depth before it, and at an ellipsis that is the whole
/// form, stands first or as tail; what comes first is the fault. A list of just an ellipsis and a form
/// is that form, in which ellipses have no meaning. Whether a variable is in scope isn't looked at. Parts
/// without pattern variables lose their spans, so that a fault at one has the place of the use.
pub fn compile_template(context: &TemplateContext, form: &Syn) -> Result<Template, Stop>
    ensures { Gives (λ t. t) result (compiled (seen context.now) form.now) }
{
    let label = label_of(form, context.frames)?;
    let made = template(context, form, label, false, 0)?;
    let template = template_of(context.alloc, made)?;
    Ok(template)
}

/// `BadTemplate` at a form.
fn bad_template(context: &TemplateContext, form: &Syn) -> Stop
    ensures { StopsWith result (bad context.now.place.now form.now) }
{
    fault_at(
        context.alloc,
        FaultKind::BadTemplate,
        form,
        context.place,
        None,
    )
}

fn variable_made(
    context: &TemplateContext,
    id: &Identifier,
    under: u64,
    variable: TemplateVariable,
) -> Result<CompiledForm, Stop>
    ensures { Gives (λ m. m) result (variable_made (seen context.now) under (seen_id id.now) variable) }
{
    let TemplateVariable {
        label,
        level,
        depth,
    } = variable;
    if level != context.level {
        return Err(fault_at(
            context.alloc,
            FaultKind::OutOfContext,
            id.form,
            context.place,
            Some(id.symbol),
        ));
    }
    if under < u64::from(depth) {
        return Err(bad_template(context, id.form));
    }
    let node = TemplateNode::Variable(label, depth);
    Ok(CompiledForm::Varied(Template { node }, depth))
}

fn label_made(
    context: &TemplateContext,
    id: &Identifier,
    under: u64,
    label: Option<Label>,
) -> Result<CompiledForm, Stop>
    ensures { Gives (λ m. m) result (label_made (seen context.now) under (seen_id id.now) label) }
{
    let Some(label) = label else {
        let form = id.form.share()?;
        return Ok(CompiledForm::Fixed(false, form));
    };
    match context.bindings.get(&label) {
        Some(Binding::PatternVariable { level, depth }) => {
            let variable = TemplateVariable {
                label,
                level: *level,
                depth: *depth,
            };
            variable_made(context, id, under, variable)
        }
        _ => {
            let form = id.form.share()?;
            Ok(CompiledForm::Fixed(false, form))
        }
    }
}

fn is_special(escaped: bool, label: &Option<Label>) -> bool
    ensures { result ≡ is_special escaped label.now }
{
    if escaped {
        return false;
    }
    is_form(CoreForm::Ellipsis, label)
}

/// What is made of an identifier that stands for this.
fn leaf_made(
    context: &TemplateContext,
    id: &Identifier,
    label: Option<Label>,
    escaped: bool,
    under: u64,
) -> Result<CompiledForm, Stop>
    requires { label ≡ stands context.now.frames.now id.now.form.now }
    ensures { Gives (λ m. m) result (leaf_made (seen context.now) escaped (seen_id id.now) under) }
{
    if is_special(escaped, &label) {
        return Err(bad_template(context, id.form));
    }
    label_made(context, id, under, label)
}

/// The label that a form stands for. What is no leaf stands for none, and isn't opened where its height tells so.
#[tactic(auto, using(crate::proofs::Labels::high_stands))]
fn label_of(form: &Syn, frames: &Frames) -> Result<Option<Label>, Memory>
    ensures { IfOk result (λ l. l ≡ stands frames.now form.now) }
{
    if form.height() > 1 {
        return Ok(None);
    }
    frames.stands(form)
}

/// The label that the first form stands for.
fn first_label(forms: &[Syn], frames: &Frames) -> Result<Option<Label>, Memory>
    ensures { IfOk result (λ l. l ≡ first_label frames.now forms.now) }
{
    match forms.split_first() {
        None => Ok(None),
        Some((form, _)) => label_of(form, frames),
    }
}

/// The ellipses that forms begin with.
#[derive(Drop)]
pub(crate) struct Ellipses {
    /// How many there are.
    pub(crate) count: usize,
    /// The label of the form behind them.
    pub(crate) next: Option<Label>,
}

/// The ellipses that these forms begin with; in an escaped template there are none. No form is looked up twice.
fn ellipses_of(forms: &[Syn], escaped: bool, frames: &Frames) -> Result<Ellipses, Memory>
    ensures count { IfOk result (λ e. e.count ≡ dot_count frames.now escaped forms.now) }
    ensures next { IfOk result (λ e. e.next ≡ first_label frames.now (drop (dot_count frames.now escaped forms.now) forms.now)) }
{
    let mut count = 0;
    for form in forms {
        let label = label_of(form, frames)?;
        if !is_special(escaped, &label) {
            return Ok(Ellipses { count, next: label });
        }
        count += 1;
    }
    Ok(Ellipses { count, next: None })
}

fn reach(made: &CompiledForm) -> u32
    ensures { result ≡ reach made.now }
{
    match made {
        CompiledForm::Fixed(_, _) => 0,
        CompiledForm::Varied(_, reach) => *reach,
    }
}

/// An item with the ellipses behind it, each of which must have a variable of depth before it.
fn fitted(context: &TemplateContext, made: CompiledForm, ellipses: &[Syn]) -> Result<MadeItem, Stop>
    ensures { Gives (λ i. i) result (fitted context.now.place.now ellipses.now made) }
{
    let reach = reach(&made);
    let count = ellipses.len();
    if (reach as usize) < count {
        return Err(bad_template(context, &ellipses[reach as usize]));
    }
    Ok(MadeItem {
        made,
        ellipses: count as u32,
    })
}

/// The template of a part that stays as it is, without its spans.
fn constant_of(alloc: Global, form: &Syn) -> Result<Template, Memory>
    ensures { IfOk result (λ t. t ≡ constant_of form.now) }
{
    let form = form.unspanned(alloc)?;
    Ok(Template {
        node: TemplateNode::Constant(form),
    })
}

fn template_of(alloc: Global, made: CompiledForm) -> Result<Template, Memory>
    ensures { IfOk result (λ t. t ≡ template_of made) }
{
    match made {
        CompiledForm::Fixed(_, form) => constant_of(alloc, &form),
        CompiledForm::Varied(template, _) => Ok(template),
    }
}

#[tactic(auto, using(crate::proofs::Items::items_on))]
fn items_of(alloc: Global, made: Items<MadeItem>) -> Result<Vec<TemplateItem>, Memory>
    ensures { IfOk result (λ is. items is.items ≡ items_of made) }
{
    let mut list = Vec::new(alloc);
    for MadeItem { made, ellipses } in made.into_vec() {
        let template = template_of(alloc, made)?;
        list.push(TemplateItem { template, ellipses })?;
    }
    Ok(list)
}

fn reaches(made: &[MadeItem]) -> u32
    ensures { result ≡ reaches made.now }
{
    let mut most = 0u32;
    for item in made {
        most = most.max(reach(&item.made).saturating_sub(item.ellipses));
    }
    most
}

fn is_fixed(made: &CompiledForm) -> bool
    ensures { result ≡ is_fixed made.now }
{
    matches!(made, CompiledForm::Fixed(_, _))
}

fn all_fixed(made: &[MadeItem]) -> bool
    ensures { result ≡ all_fixed made.now }
{
    for item in made {
        if !is_fixed(&item.made) {
            return false;
        }
    }
    true
}

fn is_changed(made: &CompiledForm) -> bool
    ensures { result ≡ is_changed made.now }
{
    match made {
        CompiledForm::Fixed(changed, _) => *changed,
        CompiledForm::Varied(_, _) => false,
    }
}

fn any_changed(made: &[MadeItem]) -> bool
    ensures { result ≡ any_changed made.now }
{
    for item in made {
        if is_changed(&item.made) {
            return true;
        }
    }
    false
}

fn push_tree(trees: &mut Vec<Syn>, made: CompiledForm) -> Result<(), Memory>
    ensures { OnOk result (trees.new.items ≡ trees.old.items ++ tree_before made []) }
{
    match made {
        CompiledForm::Fixed(_, form) => {
            trees.push(form)?;
            Ok(())
        }
        CompiledForm::Varied(_, _) => Ok(()),
    }
}

#[tactic(auto, using(crate::proofs::Items::trees_on))]
fn trees_of(alloc: Global, made: Items<MadeItem>) -> Result<Vec<Syn>, Memory>
    ensures { IfOk result (λ ts. ts.items ≡ trees made) }
{
    let mut list = Vec::new(alloc);
    for MadeItem { made, ellipses: _ } in made.into_vec() {
        push_tree(&mut list, made)?;
    }
    Ok(list)
}

/// A fault of a form, at its place.
fn stopped_at(stop: BareStop, form: &Syn, place: &Span) -> Stop
    ensures { StopsAt place.now form.now result stop }
{
    match stop {
        BareStop::Memory => Stop::Memory,
        BareStop::Fault(Bare { kind, words }) => match place_of(form, place) {
            Ok(span) => Stop::Fault(Fault { kind, span, words }),
            Err(memory) => Stop::from(memory),
        },
    }
}

/// A form from which escapes were taken out, with the span that it had.
fn fixed_again(alloc: Global, form: &Syn, tree: &Syn) -> Result<CompiledForm, Memory>
    ensures { IfOk result (λ m. m ≡ Fixed true (spanned (span_of form.now) tree.now)) }
{
    let span = match form.span() {
        None => None,
        Some(span) => Some(span.share()?),
    };
    let tree = tree.spanned(alloc, span)?;
    Ok(CompiledForm::Fixed(true, tree))
}

#[tactic(auto, using(crate::proofs::Places::rebuilt_stops))]
fn list_again(
    context: &TemplateContext,
    form: &Syn,
    trees: Vec<Syn>,
    tail: Syn,
) -> Result<CompiledForm, Stop>
    ensures { Gives (λ m. m) result (rebuilt context.now.place.now form.now (within (list_of trees.items (Some tail)))) }
{
    match Syn::list(context.alloc, trees, Some(tail)) {
        Ok(tree) => {
            let made = fixed_again(context.alloc, form, &tree)?;
            Ok(made)
        }
        Err(stop) => Err(stopped_at(stop, form, context.place)),
    }
}

#[tactic(auto, using(crate::proofs::Places::rebuilt_stops))]
fn vector_again(
    context: &TemplateContext,
    form: &Syn,
    trees: Vec<Syn>,
) -> Result<CompiledForm, Stop>
    ensures { Gives (λ m. m) result (rebuilt context.now.place.now form.now (within (vector_of trees.items))) }
{
    match Syn::vector(context.alloc, trees) {
        Ok(tree) => {
            let made = fixed_again(context.alloc, form, &tree)?;
            Ok(made)
        }
        Err(stop) => Err(stopped_at(stop, form, context.place)),
    }
}

fn fixed_list(
    context: &TemplateContext,
    form: &Syn,
    items: Items<MadeItem>,
    changed: bool,
    tail: Syn,
) -> Result<CompiledForm, Stop>
    ensures { Gives (λ m. m) result (fixed_list context.now.place.now form.now items changed tail) }
{
    if changed || any_changed(items.as_slice()) {
        let trees = trees_of(context.alloc, items)?;
        return list_again(context, form, trees, tail);
    }
    let form = form.share()?;
    Ok(CompiledForm::Fixed(false, form))
}

fn fixed_vector(
    context: &TemplateContext,
    form: &Syn,
    items: Items<MadeItem>,
) -> Result<CompiledForm, Stop>
    ensures { Gives (λ m. m) result (fixed_vector context.now.place.now form.now items) }
{
    if any_changed(items.as_slice()) {
        let trees = trees_of(context.alloc, items)?;
        return vector_again(context, form, trees);
    }
    let form = form.share()?;
    Ok(CompiledForm::Fixed(false, form))
}

fn varied_list(
    alloc: Global,
    items: Items<MadeItem>,
    tail: Template,
    reach: u32,
) -> Result<CompiledForm, Memory>
    ensures { IfOk result (λ m. m ≡ Varied (list (items_of items) tail) reach) }
{
    let list = items_of(alloc, items)?;
    let tail = Box::new(alloc, tail)?;
    let node = TemplateNode::List(list, tail);
    Ok(CompiledForm::Varied(Template { node }, reach))
}

/// What is made of a list, from what is made of its elements and of what ends it.
fn list_joined(
    context: &TemplateContext,
    form: &Syn,
    items: Items<MadeItem>,
    tail: CompiledForm,
) -> Result<CompiledForm, Stop>
    ensures { Gives (λ m. m) result (list_joined context.now.place.now form.now items tail) }
{
    let reach = reaches(items.as_slice());
    match tail {
        CompiledForm::Varied(tail, own) => {
            let made = varied_list(context.alloc, items, tail, reach.max(own))?;
            Ok(made)
        }
        CompiledForm::Fixed(changed, tail) => {
            if all_fixed(items.as_slice()) {
                return fixed_list(context, form, items, changed, tail);
            }
            let tail = constant_of(context.alloc, &tail)?;
            let made = varied_list(context.alloc, items, tail, reach)?;
            Ok(made)
        }
    }
}

/// What is made of a vector, from what is made of its elements.
fn vector_joined(
    context: &TemplateContext,
    form: &Syn,
    items: Items<MadeItem>,
) -> Result<CompiledForm, Stop>
    ensures { Gives (λ m. m) result (vector_joined context.now.place.now form.now items) }
{
    if all_fixed(items.as_slice()) {
        return fixed_vector(context, form, items);
    }
    let reach = reaches(items.as_slice());
    let list = items_of(context.alloc, items)?;
    let node = TemplateNode::Vector(list);
    Ok(CompiledForm::Varied(Template { node }, reach))
}

fn unescaped(made: CompiledForm) -> CompiledForm
    ensures { result ≡ unescaped made }
{
    match made {
        CompiledForm::Fixed(_, form) => CompiledForm::Fixed(true, form),
        CompiledForm::Varied(template, reach) => CompiledForm::Varied(template, reach),
    }
}

/// The form that an ellipsis before it escapes, in a list of just these two, of which the first stands for this.
fn escaped_form<'a>(
    forms: &'a [Syn],
    first: &Option<Label>,
    escaped: bool,
    ends: bool,
) -> Option<&'a Syn>
    ensures { option_map (λ t. t.now) result ≡ escaped_form first.now escaped forms.now ends }
{
    if escaped || !ends {
        return None;
    }
    let [_, second] = forms else {
        return None;
    };
    if is_form(CoreForm::Ellipsis, first) {
        Some(second)
    } else {
        None
    }
}

/// What is made of a form that stands for this, round which so many ellipses stand.
#[cycle(template)]
fn template(
    context: &TemplateContext,
    form: &Syn,
    label: Option<Label>,
    escaped: bool,
    under: u64,
) -> Result<CompiledForm, Stop>
    requires { label ≡ stands context.now.frames.now form.now }
    ensures { Gives (λ m. m) result (template (seen context.now) form.now escaped under) }
{
    match form.open(context.alloc)? {
        OpenedTree::Atom(_) => {
            let form = form.share()?;
            Ok(CompiledForm::Fixed(false, form))
        }
        OpenedTree::Symbol(symbol) => {
            let id = Identifier {
                form,
                symbol: &symbol,
            };
            leaf_made(context, &id, label, escaped, under)
        }
        OpenedTree::Pair(_, _) => list_template(context, form, escaped, under),
        OpenedTree::Vector(forms) => vector_template(context, form, &forms, escaped, under),
    }
}

#[cycle(template)]
fn vector_template(
    context: &TemplateContext,
    form: &Syn,
    forms: &[Syn],
    escaped: bool,
    under: u64,
) -> Result<CompiledForm, Stop>
    ensures { Gives (λ m. m) result (vector_template (seen context.now) form.now forms.now escaped under) }
{
    let first = first_label(forms, context.frames)?;
    let items = elements(context, forms, first, escaped, under)?;
    vector_joined(context, form, items)
}

#[cycle(template)]
#[tactic(auto, using(crate::proofs::Levels::list_escaped, crate::proofs::Levels::list_plain, crate::proofs::Sizes::escaped_smaller, eval_pattern::proofs::Sizes::elements_within, eval_pattern::proofs::Sizes::tail_smaller))]
fn list_template(
    context: &TemplateContext,
    form: &Syn,
    escaped: bool,
    under: u64,
) -> Result<CompiledForm, Stop>
    requires { is_pair form.now ≡ true }
    ensures { Gives (λ m. m) result (template (seen context.now) form.now escaped under) }
{
    let parts = parts_of(context.alloc, form)?;
    let ends = is_nil(context.alloc, &parts.tail)?;
    let first = first_label(parts.elements.as_slice(), context.frames)?;
    if let Some(inner) = escaped_form(parts.elements.as_slice(), &first, escaped, ends) {
        let label = label_of(inner, context.frames)?;
        let made = template(context, inner, label, true, under)?;
        return Ok(unescaped(made));
    }
    let items = elements(context, parts.elements.as_slice(), first, escaped, under)?;
    let last = label_of(&parts.tail, context.frames)?;
    let tail = template(context, &parts.tail, last, escaped, under)?;
    list_joined(context, form, items, tail)
}

/// What is made of the elements of a list or vector, of which the first stands for this.
#[cycle(template)]
#[tactic(auto, using(crate::proofs::Walks::forms_on, crate::proofs::Walks::forms_stop))]
fn elements(
    context: &TemplateContext,
    forms: &[Syn],
    first: Option<Label>,
    escaped: bool,
    under: u64,
) -> Result<Items<MadeItem>, Stop>
    requires { first ≡ first_label context.now.frames.now forms.now }
    ensures { Gives (λ is. is) result (forms_walked (seen context.now) escaped under forms.now) }
{
    let mut items = Items::new(context.alloc);
    let mut label = first;
    let mut left = forms;
    while let Some((form, behind)) = left.split_first() {
        let Ellipses { count, next } = ellipses_of(behind, escaped, context.frames)?;
        let (ellipses, after) = behind.split_at(count);
        let element = TemplateElement {
            form,
            label,
            ellipses,
        };
        let made = item(context, element, escaped, under)?;
        items.push(made)?;
        label = next;
        left = after;
    }
    Ok(items)
}

/// What is made of an element, with the ellipses behind it.
#[cycle(template)]
fn item(
    context: &TemplateContext,
    element: TemplateElement,
    escaped: bool,
    under: u64,
) -> Result<MadeItem, Stop>
    requires { element.label ≡ stands context.now.frames.now element.form.now }
    ensures { Gives (λ i. i) result (item_made (seen context.now) escaped under
        (with_template (seen context.now) element.entry.form.now) element.entry.ellipses.now) }
{
    let TemplateElement {
        form,
        label,
        ellipses,
    } = element;
    let Some(inner) = under.checked_add(ellipses.len() as u64) else {
        return Err(Stop::Memory);
    };
    let made = template(context, form, label, escaped, inner)?;
    fitted(context, made, ellipses)
}
