//! Forms of a body, in the first pass (R6RS 10 and 11.3).

ghost use Rattle.std.specs.Prelude.{◌≡◌, IfOk};
ghost use Rattle.base_data.specs.Act.{GivesAfter, give};
ghost use Rattle.core_shapes.specs.Forms.{shape};
ghost use Rattle.expand_heads.specs.Kept.{heads_of};
ghost use Rattle.expand_standing.specs.Standing.{standing_by};
ghost use Rattle.expand_heads.specs.Items.{wait, kept_standing, leaf_item, leaf_by, in_time, keyword_in_time, define, define_keyword, with_waiting, define_item, set_item, target_item, alone, item_plan, list_item, headed_item, core_item, begin_item, keywords_item, is_mixed, is_top, is_changed, any_changed, same_standing, is_keyword_label};

use crate::item::{HeadItem, Item};
use crate::kept::KeptHeads;
use crate::plan::{KeywordUse, is_letrec_syntax};
use crate::taken::{BodyAt, BodyKind, KeptHead, Taken, Waiting, Waits};
use base_data::fault::{FaultKind, Stop};
use base_data::items::Items;
use base_data::memory::Memory;
use base_data::name::Label;
use base_data::symbol::Symbol;
use core_language::core_form::CoreForm;
use core_shapes::forms::shape;
use core_shapes::lists::is_id;
use core_shapes::shape::{BindingSpec, Shape};
use expand_standing::binders::{BinderContext, BoundSpec};
use expand_standing::expansion::{Expansion, symbol_in};
use expand_standing::standing::{Role, Standing, is_keyword, role_of};
use std::sync::ledger::Ledger;
use stx_object::syn::{OpenedTree, Syn};

/// A form of a body, and what is known round it.
#[derive(Drop)]
struct ItemContext<'a> {
    at: &'a BodyAt,
    depth: u16,
    form: &'a Syn,
}

/// Whether definitions and expressions may be mixed.
fn is_mixed(kind: BodyKind) -> bool
    ensures { result ≡ is_mixed kind }
{
    match kind {
        BodyKind::Lambda => false,
        BodyKind::Library => false,
        BodyKind::Program => true,
    }
}

/// Whether definitions bind variables of the top level.
fn is_top(kind: BodyKind) -> bool
    ensures { result ≡ is_top kind }
{
    match kind {
        BodyKind::Lambda => false,
        BodyKind::Library => true,
        BodyKind::Program => true,
    }
}

fn same_standing(a: &Option<Label>, b: &Option<Label>) -> bool
    ensures { result ≡ same_standing a.now b.now }
{
    match (a, b) {
        (None, None) => true,
        (None, Some(_)) => false,
        (Some(_), None) => false,
        (Some(a), Some(b)) => *a == *b,
    }
}

fn is_keyword_label<L: Ledger>(state: &Expansion<L>, label: &Option<Label>) -> Result<bool, Memory>
    ensures { IfOk result (λ b. b ≡ is_keyword_label state.now label.now) }
{
    match label {
        None => Ok(false),
        Some(label) => {
            let standing = state.label_standing(label)?;
            Ok(is_keyword(&standing))
        }
    }
}

/// Whether a head stands for another label now, where it stood for a keyword or the definition is one of a
/// keyword.
#[tactic(auto, unfolding(crate::specs::Items::is_changed))]
fn is_changed<L: Ledger>(
    state: &mut Expansion<L>,
    keyword: bool,
    kept: &KeptHead,
) -> Result<bool, Memory>
    ensures changed { IfOk result (λ b. b ≡ is_changed keyword state.old kept.now) }
    ensures unchanged { state.new ≡ state.old }
{
    if !keyword && !is_keyword_label(state, &kept.label)? {
        return Ok(false);
    }
    let now = state.stands(&kept.leaf)?;
    Ok(!same_standing(&now, &kept.label))
}

fn any_changed<L: Ledger>(
    state: &mut Expansion<L>,
    keyword: bool,
    kept: &[KeptHead],
) -> Result<bool, Memory>
    ensures changed { IfOk result (λ b. b ≡ any_changed keyword state.old kept.now) }
    ensures unchanged { state.new ≡ state.old }
{
    for one in kept {
        if is_changed(state, keyword, one)? {
            return Ok(true);
        }
    }
    Ok(false)
}

/// Whether a head of this symbol is changed.
fn is_late<L: Ledger>(
    state: &mut Expansion<L>,
    keyword: bool,
    symbol: &Symbol,
    kept: &KeptHeads,
) -> Result<bool, Memory>
    ensures changed { IfOk result (λ b. b ≡ any_changed keyword state.old (heads_of symbol.now kept.now)) }
    ensures unchanged { state.new ≡ state.old }
{
    match kept.of(symbol) {
        None => Ok(false),
        Some(heads) => any_changed(state, keyword, heads.as_slice()),
    }
}

pub fn wait<L: Ledger>(
    state: &mut Expansion<L>,
    at: &BodyAt,
    depth: u16,
    taken: &mut Taken,
    form: &Syn,
) -> Result<(), Stop>
    ensures { GivesAfter (λ _. taken.new) result state.new (wait at.now depth taken.old form.now state.old) }
{
    let waiting = Waiting {
        place: at.place.share()?,
        depth,
        what: Waits::Expression(form.share()?),
    };
    taken.waiting.push(waiting)?;
    taken.has_expression = true;
    Ok(())
}

/// What an identifier stands for whose label this is.
fn standing_by<L: Ledger>(state: &Expansion<L>, label: &Option<Label>) -> Result<Standing, Memory>
    ensures { IfOk result (λ x. x ≡ standing_by state.now label.now) }
{
    match label {
        None => Ok(Standing::Nothing),
        Some(label) => state.label_standing(label),
    }
}

/// Keeps an identifier, and gives what it stands for: its label is looked for once.
#[tactic(auto, unfolding(crate::specs::Items::kept_standing, crate::specs::Items::keep, expand_standing::specs::Standing::standing_of))]
fn keep<L: Ledger>(state: &mut Expansion<L>, taken: &mut Taken, id: &Syn) -> Result<Standing, Stop>
    ensures { GivesAfter (λ x. (taken.new, x)) result state.new (kept_standing taken.old id.now state.old) }
{
    let symbol = symbol_in(state.alloc(), id)?;
    let leaf = id.share()?;
    let label = state.stands(id)?;
    let standing = standing_by(state, &label)?;
    taken.kept.add(KeptHead {
        symbol,
        leaf,
        label,
    })?;
    Ok(standing)
}

/// The definition of a variable must not change what a head before it stands for, if that was a keyword.
#[tactic(auto, unfolding(crate::specs::Items::in_time))]
fn in_time<L: Ledger>(
    state: &mut Expansion<L>,
    at: &BodyAt,
    taken: &mut Taken,
    id: &Syn,
) -> Result<(), Stop>
    ensures { GivesAfter (λ _. taken.new) result state.new (in_time at.now taken.old id.now state.old) }
{
    let symbol = symbol_in(state.alloc(), id)?;
    if is_late(state, false, &symbol, &taken.kept)? {
        return Err(state.fault_word(FaultKind::LateDefinition, id, id, &at.place));
    }
    let moved = is_late(state, true, &symbol, &taken.kept)?;
    taken.moved = taken.moved || moved;
    Ok(())
}

/// The definition of a keyword must not stand behind any head that stands for another label now.
#[tactic(auto, unfolding(crate::specs::Items::keyword_in_time))]
fn keyword_in_time<L: Ledger>(
    state: &mut Expansion<L>,
    at: &BodyAt,
    taken: &Taken,
    id: &Syn,
) -> Result<(), Stop>
    ensures { GivesAfter (λ _. tt) result state.new (keyword_in_time at.now taken.now id.now state.old) }
{
    if taken.moved {
        return Err(state.fault_word(FaultKind::LateDefinition, id, id, &at.place));
    }
    let symbol = symbol_in(state.alloc(), id)?;
    if is_late(state, true, &symbol, &taken.kept)? {
        return Err(state.fault_word(FaultKind::LateDefinition, id, id, &at.place));
    }
    Ok(())
}

#[tactic(auto, unfolding(crate::specs::Items::define))]
fn define<L: Ledger>(
    state: &mut Expansion<L>,
    at: &BodyAt,
    taken: &mut Taken,
    form: &Syn,
    id: &Syn,
) -> Result<Label, Stop>
    ensures { GivesAfter (λ l. (taken.new, l)) result state.new (define at.now taken.old form.now id.now state.old) }
{
    if taken.has_expression && !is_mixed(at.kind) {
        return Err(state.fault_form(FaultKind::DefinitionPlace, form, &at.place));
    }
    let binders = BinderContext {
        frame: &at.frame,
        place: &at.place,
        level: at.level,
    };
    let label = state.bind_variable(&binders, is_top(at.kind), id)?;
    in_time(state, at, taken, id)?;
    Ok(label)
}

/// Binds a keyword that a form of a body defines. It waits for its expression.
#[tactic(auto, unfolding(crate::specs::Items::define_keyword))]
pub fn define_keyword<L: Ledger>(
    state: &mut Expansion<L>,
    at: &BodyAt,
    taken: &Taken,
    form: &Syn,
    spec: &BindingSpec,
) -> Result<BoundSpec, Stop>
    ensures { GivesAfter (λ b. b) result state.new (define_keyword at.now taken.now form.now spec.now state.old) }
{
    if taken.has_expression && !is_mixed(at.kind) {
        return Err(state.fault_form(FaultKind::DefinitionPlace, form, &at.place));
    }
    let binders = BinderContext {
        frame: &at.frame,
        place: &at.place,
        level: at.level,
    };
    let bound = state.bind_keyword(&binders, spec)?;
    keyword_in_time(state, at, taken, &spec.id)?;
    Ok(bound)
}

fn defined<L: Ledger>(
    state: &mut Expansion<L>,
    at: &BodyAt,
    depth: u16,
    taken: &mut Taken,
    what: Waits,
) -> Result<(), Stop>
    ensures { GivesAfter (λ _. taken.new) result state.new (give (with_waiting at.now depth taken.old what) state.old) }
{
    let place = at.place.share()?;
    taken.waiting.push(Waiting { place, depth, what })?;
    Ok(())
}

#[tactic(auto, unfolding(crate::specs::Items::define_item))]
fn define_item<L: Ledger>(
    state: &mut Expansion<L>,
    context: &ItemContext,
    taken: &mut Taken,
    shape: Shape,
) -> Result<(), Stop>
    ensures { GivesAfter (λ _. taken.new) result state.new (define_item context.now.at.now context.now.depth taken.old context.now.form.now shape state.old) }
{
    match shape {
        Shape::Define(id, value) => {
            let label = define(state, context.at, taken, context.form, &id)?;
            defined(
                state,
                context.at,
                context.depth,
                taken,
                Waits::Variable(label, value),
            )
        }
        Shape::DefineProcedure(id, ids, forms) => {
            let label = define(state, context.at, taken, context.form, &id)?;
            let whole = context.form.share()?;
            defined(
                state,
                context.at,
                context.depth,
                taken,
                Waits::Procedure(label, whole, ids, forms),
            )
        }
        _ => Err(state.fault_form(FaultKind::BadForm, context.form, &context.at.place)),
    }
}

/// A form that waits as an expression.
fn alone<L: Ledger>(
    state: &mut Expansion<L>,
    context: &ItemContext,
    taken: &mut Taken,
) -> Result<HeadItem, Stop>
    ensures { GivesAfter (λ i. (taken.new, i)) result state.new (alone (wait context.now.at.now context.now.depth taken.old context.now.form.now) state.old) }
{
    wait(state, context.at, context.depth, taken, context.form)?;
    Ok(HeadItem::Item(Item::Nothing))
}

fn target_item<L: Ledger>(
    state: &mut Expansion<L>,
    context: &ItemContext,
    taken: &mut Taken,
    standing: &Standing,
) -> Result<HeadItem, Stop>
    ensures { GivesAfter (λ i. (taken.new, i)) result state.new
        (target_item context.now.at.now context.now.depth taken.old context.now.form.now standing.now state.old) }
{
    match standing {
        Standing::Keyword(label) => Ok(HeadItem::SetUse(label.share()?)),
        _ => alone(state, context, taken),
    }
}

#[tactic(auto, unfolding(crate::specs::Items::kept_standing, crate::specs::Items::keep))]
fn set_item<L: Ledger>(
    state: &mut Expansion<L>,
    context: &ItemContext,
    taken: &mut Taken,
    which: CoreForm,
) -> Result<HeadItem, Stop>
    ensures { GivesAfter (λ i. (taken.new, i)) result state.new
        (set_item context.now.at.now context.now.depth taken.old context.now.form.now
        (shape which context.now.form.now context.now.at.now.place) state.old) }
{
    match shape(state.alloc(), context.form, which, &context.at.place) {
        Ok(Shape::Set(id, _)) => {
            let standing = keep(state, taken, &id)?;
            target_item(state, context, taken, &standing)
        }
        Ok(_) => alone(state, context, taken),
        Err(Stop::Fault(_)) => alone(state, context, taken),
        Err(Stop::Memory) => Err(Stop::Memory),
    }
}

#[tactic(auto, unfolding(crate::specs::Items::begin_item))]
fn begin_item<L: Ledger>(
    state: &mut Expansion<L>,
    context: &ItemContext,
    taken: &Taken,
    shape: Shape,
) -> Result<HeadItem, Stop>
    ensures { GivesAfter (λ i. (taken.now, i)) result state.new (begin_item context.now.at.now taken.now context.now.form.now shape state.old) }
{
    match shape {
        Shape::Begin(forms) => Ok(HeadItem::Item(Item::Forms(forms))),
        _ => Err(state.fault_form(FaultKind::BadForm, context.form, &context.at.place)),
    }
}

#[tactic(auto, unfolding(crate::specs::Items::keywords_item))]
fn keywords_item<L: Ledger>(
    state: &mut Expansion<L>,
    context: &ItemContext,
    taken: &Taken,
    which: CoreForm,
    shape: Shape,
) -> Result<HeadItem, Stop>
    ensures { GivesAfter (λ i. (taken.now, i)) result state.new (keywords_item context.now.at.now taken.now context.now.form.now which shape state.old) }
{
    match shape {
        Shape::DefineSyntax(id, init) => Ok(HeadItem::Item(Item::Keyword(BindingSpec {
            id,
            init,
        }))),
        Shape::LetSyntax(specs, forms) => Ok(HeadItem::Item(Item::Keywords(
            is_letrec_syntax(which),
            specs,
            forms,
        ))),
        _ => Err(state.fault_form(FaultKind::BadForm, context.form, &context.at.place)),
    }
}

#[tactic(auto, unfolding(crate::specs::Items::core_item))]
fn core_item<L: Ledger>(
    state: &mut Expansion<L>,
    context: &ItemContext,
    taken: &mut Taken,
    which: CoreForm,
) -> Result<HeadItem, Stop>
    ensures { GivesAfter (λ i. (taken.new, i)) result state.new
        (core_item context.now.at.now context.now.depth taken.old context.now.form.now which state.old) }
{
    match role_of(which) {
        Role::Expression => alone(state, context, taken),
        Role::Assignment => set_item(state, context, taken, which),
        Role::Sequence => {
            let shape = shape(state.alloc(), context.form, which, &context.at.place)?;
            begin_item(state, context, taken, shape)
        }
        Role::Definition => {
            let shape = shape(state.alloc(), context.form, which, &context.at.place)?;
            define_item(state, context, taken, shape)?;
            Ok(HeadItem::Item(Item::Nothing))
        }
        Role::Keywords => {
            let shape = shape(state.alloc(), context.form, which, &context.at.place)?;
            keywords_item(state, context, taken, which, shape)
        }
        Role::Record => Ok(HeadItem::Use(KeywordUse::Record(which))),
        Role::RecordValue => Ok(HeadItem::Use(KeywordUse::Record(which))),
        Role::Auxiliary => alone(state, context, taken),
    }
}

fn headed_item<L: Ledger>(
    state: &mut Expansion<L>,
    context: &ItemContext,
    taken: &mut Taken,
    standing: &Standing,
) -> Result<HeadItem, Stop>
    ensures { GivesAfter (λ i. (taken.new, i)) result state.new
        (headed_item context.now.at.now context.now.depth taken.old context.now.form.now standing.now state.old) }
{
    match standing {
        Standing::Nothing => alone(state, context, taken),
        Standing::Variable(_) => alone(state, context, taken),
        Standing::PatternVariable => alone(state, context, taken),
        Standing::Primitive(_) => alone(state, context, taken),
        Standing::Core(which) => core_item(state, context, taken, *which),
        Standing::Keyword(label) => Ok(HeadItem::Use(KeywordUse::Macro(label.share()?))),
    }
}

#[tactic(auto, unfolding(crate::specs::Items::list_item, crate::specs::Items::kept_standing, crate::specs::Items::keep))]
fn list_item<L: Ledger>(
    state: &mut Expansion<L>,
    context: &ItemContext,
    taken: &mut Taken,
    head: &Syn,
) -> Result<HeadItem, Stop>
    ensures { GivesAfter (λ i. (taken.new, i)) result state.new
        (list_item context.now.at.now context.now.depth taken.old context.now.form.now head.now state.old) }
{
    if !is_id(state.alloc(), head)? {
        return alone(state, context, taken);
    }
    let standing = keep(state, taken, head)?;
    headed_item(state, context, taken, &standing)
}

fn leaf_by<L: Ledger>(
    state: &mut Expansion<L>,
    context: &ItemContext,
    taken: &mut Taken,
    standing: &Standing,
) -> Result<HeadItem, Stop>
    ensures { GivesAfter (λ i. (taken.new, i)) result state.new
        (leaf_by context.now.at.now context.now.depth taken.old context.now.form.now standing.now state.old) }
{
    match standing {
        Standing::Nothing => alone(state, context, taken),
        Standing::Variable(_) => alone(state, context, taken),
        Standing::PatternVariable => alone(state, context, taken),
        Standing::Primitive(_) => alone(state, context, taken),
        Standing::Core(_) => alone(state, context, taken),
        Standing::Keyword(label) => Ok(HeadItem::Use(KeywordUse::Macro(label.share()?))),
    }
}

#[tactic(auto, unfolding(crate::specs::Items::leaf_item, crate::specs::Items::kept_standing, crate::specs::Items::keep))]
fn leaf_item<L: Ledger>(
    state: &mut Expansion<L>,
    context: &ItemContext,
    taken: &mut Taken,
) -> Result<HeadItem, Stop>
    ensures { GivesAfter (λ i. (taken.new, i)) result state.new (leaf_item context.now.at.now context.now.depth taken.old context.now.form.now state.old) }
{
    let standing = keep(state, taken, context.form)?;
    leaf_by(state, context, taken, &standing)
}

/// What comes of a form of a body: what else is to be done with it. A use of a keyword isn't made here.
#[tactic(auto, using(crate::proofs::Levels::item_leaf, crate::proofs::Levels::item_atom, crate::proofs::Levels::item_pair, crate::proofs::Levels::item_vector))]
pub fn item_plan<L: Ledger>(
    state: &mut Expansion<L>,
    at: &BodyAt,
    depth: u16,
    taken: &mut Taken,
    form: &Syn,
) -> Result<HeadItem, Stop>
    ensures { GivesAfter (λ i. (taken.new, i)) result state.new (item_plan at.now depth taken.old form.now state.old) }
{
    let context = ItemContext { at, depth, form };
    match form.open(state.alloc())? {
        OpenedTree::Symbol(_) => leaf_item(state, &context, taken),
        OpenedTree::Atom(_) => alone(state, &context, taken),
        OpenedTree::Pair(head, _) => list_item(state, &context, taken, &head),
        OpenedTree::Vector(_) => alone(state, &context, taken),
    }
}
