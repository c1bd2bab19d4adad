//! What a `quasisyntax` form comes to.

ghost use Rattle.std.specs.Prelude.{◌≡◌, ◌<◌, ◌++◌, ◌∷◌, [], true, length, option_map, Some, IfOk, OnOk};
ghost use Rattle.base_data.specs.Gives.{BareGives, Gives};
ghost use Rattle.stx_tree.specs.Tree.{is_pair, span_of, spanned, list_of, vector_of};
ghost use Rattle.stx_tree.specs.Measures.{within};
ghost use Rattle.core_quasi.specs.QuasiSyntax.{seen, insert_leaf, insert, no_trees, leaves, spliced, as_row, with_part, unchanged, rebuilt, list_joined, vector_joined, element, step, leaf_part, operand_or_bad, escapes, syntax_at, forms_begun, forms_walked, flat_list, last_list, split_list, vector_at, quasi_syntax};

use crate::parts::{ListParts, QuasiTaken, bad, first_word, operand_of, rest_at, splits, taken_at};
use crate::quasi::at_form;
use crate::word::{Family, QuasiWord, Reach};
use base_data::fault::{BareStop, Stop};
use base_data::items::Items;
use base_data::library::LibName;
use base_data::memory::Memory;
use base_data::name::{Mark, Name};
use base_data::span::Span;
use base_data::symbol::Symbol;
use core_shapes::lists::{is_nil, parts_of};
use std::alloc::Global;
use std::rc::Rc;
use stx_object::syn::{OpenedTree, Syn};
use stx_scope::scope::Frames;

/// What templates of `quasisyntax` are read with.
#[derive(Drop)]
pub struct QuasiContext<'a> {
    pub alloc: Global,
    /// They say what identifiers stand for.
    pub frames: &'a Frames,
    /// It stands behind the leaf of each splice, and must stand for the ellipsis where the template is compiled.
    pub dots: &'a Syn,
}

/// An expression of a template, and the leaf that stands for its value there.
#[derive(Drop)]
pub struct Insert {
    /// The symbol `v` with one mark, of the library `Core`, whose number is that of the insert.
    pub leaf: Syn,
    pub expression: Syn,
    /// 0 where the value stands, 1 where the elements of the value stand.
    pub depth: u32,
}

/// A template of `syntax`, and what is inserted in it, from left to right.
#[derive(Drop)]
pub struct QuasiSyntax {
    pub template: Syn,
    pub inserts: Items<Insert>,
}

/// What a form comes to.
#[derive(Drop)]
pub struct QuasiPart {
    /// Whether it is another form than it was.
    pub changed: bool,
    pub tree: Syn,
}

/// What elements come to, one behind the other.
#[derive(Drop)]
pub struct QuasiRow {
    pub changed: bool,
    pub trees: Items<Syn>,
}

/// What the head and the elements of a list come to.
#[derive(Drop)]
pub enum Begun {
    /// The list comes to this.
    Whole(QuasiPart),
    Trees(QuasiRow),
}

/// Adds an insert, and gives another owner of its leaf.
fn new_insert(
    alloc: Global,
    inserts: &mut Items<Insert>,
    expression: &Syn,
    depth: u32,
) -> Result<Syn, Memory>
    ensures leaf { IfOk result (λ t. t ≡ insert_leaf (length inserts.old)) }
    ensures added { OnOk result (inserts.new ≡ inserts.old ++ insert depth expression.now inserts.old ∷ []) }
{
    let library = Rc::new(alloc, LibName::Core)?;
    let number = inserts.as_slice().len() as u64;
    let symbol = Symbol::new(alloc, "v")?;
    let leaf = Syn::leaf(alloc, &symbol, Mark(Name { library, number }))?;
    let shown = leaf.share()?;
    let expression = expression.share()?;
    inserts.push(Insert {
        leaf,
        expression,
        depth,
    })?;
    Ok(shown)
}

/// Puts a leaf for each expression behind the trees.
#[tactic(auto, using(crate::proofs::InsertRows::leaves_on))]
fn push_leaves(
    alloc: Global,
    trees: &mut Items<Syn>,
    forms: &[Syn],
    inserts: &mut Items<Insert>,
) -> Result<(), Memory>
    ensures { OnOk result ((trees.new, inserts.new) ≡ leaves trees.old forms.now inserts.old) }
{
    let mut left = forms;
    while let Some((form, behind)) = left.split_first() {
        let leaf = new_insert(alloc, inserts, form, 0)?;
        trees.push(leaf)?;
        left = behind;
    }
    Ok(())
}

/// Puts a leaf and an ellipsis for each expression behind the trees.
#[tactic(auto, using(crate::proofs::InsertRows::spliced_on))]
fn push_spliced(
    alloc: Global,
    trees: &mut Items<Syn>,
    forms: &[Syn],
    dots: &Syn,
    inserts: &mut Items<Insert>,
) -> Result<(), Memory>
    ensures { OnOk result ((trees.new, inserts.new) ≡ spliced dots.now trees.old forms.now inserts.old) }
{
    let mut left = forms;
    while let Some((form, behind)) = left.split_first() {
        let leaf = new_insert(alloc, inserts, form, 1)?;
        trees.push(leaf)?;
        let dots = dots.share()?;
        trees.push(dots)?;
        left = behind;
    }
    Ok(())
}

impl QuasiRow {
    fn none(alloc: Global) -> QuasiRow
        ensures { result ≡ no_trees }
    {
        QuasiRow {
            changed: false,
            trees: Items::new(alloc),
        }
    }

    /// With a leaf more for each expression.
    fn with_each(
        self,
        alloc: Global,
        forms: &[Syn],
        inserts: &mut Items<Insert>,
    ) -> Result<QuasiRow, Memory>
        ensures { IfOk result (λ r. (r, inserts.new) ≡ as_row (leaves self.trees forms.now inserts.old)) }
    {
        let mut trees = self.trees;
        push_leaves(alloc, &mut trees, forms, inserts)?;
        Ok(QuasiRow {
            changed: true,
            trees,
        })
    }

    /// With a leaf and an ellipsis more for each expression.
    fn with_splices(
        self,
        alloc: Global,
        forms: &[Syn],
        dots: &Syn,
        inserts: &mut Items<Insert>,
    ) -> Result<QuasiRow, Memory>
        ensures { IfOk result (λ r. (r, inserts.new) ≡ as_row (spliced dots.now self.trees forms.now inserts.old)) }
    {
        let mut trees = self.trees;
        push_spliced(alloc, &mut trees, forms, dots, inserts)?;
        Ok(QuasiRow {
            changed: true,
            trees,
        })
    }

    fn with_part(self, part: QuasiPart) -> Result<QuasiRow, Memory>
        ensures { IfOk result (λ r. r ≡ with_part self part) }
    {
        let QuasiRow { changed, mut trees } = self;
        let changed = changed || part.changed;
        trees.push(part.tree)?;
        Ok(QuasiRow { changed, trees })
    }
}

fn unchanged(form: &Syn) -> Result<QuasiPart, Memory>
    ensures { IfOk result (λ p. p ≡ unchanged form.now) }
{
    let tree = form.share()?;
    Ok(QuasiPart {
        changed: false,
        tree,
    })
}

/// A form with other parts, with the span that it had.
fn changed(alloc: Global, form: &Syn, tree: &Syn) -> Result<QuasiPart, Memory>
    ensures { IfOk result (λ p. p ≡ leaf_part (spanned (span_of form.now) tree.now)) }
{
    let span = match form.span() {
        None => None,
        Some(span) => Some(span.share()?),
    };
    let tree = tree.spanned(alloc, span)?;
    Ok(QuasiPart {
        changed: true,
        tree,
    })
}

/// What a list comes to, from what its elements and its tail come to.
fn list_joined(
    alloc: Global,
    form: &Syn,
    row: QuasiRow,
    tail: QuasiPart,
) -> Result<QuasiPart, BareStop>
    ensures { BareGives (λ p. p) result (list_joined form.now row tail) }
{
    if row.changed || tail.changed {
        let tree = Syn::list(alloc, row.trees.into_vec(), Some(tail.tree))?;
        let part = changed(alloc, form, &tree)?;
        return Ok(part);
    }
    let part = unchanged(form)?;
    Ok(part)
}

/// What a vector comes to, from what its elements come to.
fn vector_joined(alloc: Global, form: &Syn, row: QuasiRow) -> Result<QuasiPart, BareStop>
    ensures { BareGives (λ p. p) result (vector_joined form.now row) }
{
    if row.changed {
        let tree = Syn::vector(alloc, row.trees.into_vec())?;
        let part = changed(alloc, form, &tree)?;
        return Ok(part);
    }
    let part = unchanged(form)?;
    Ok(part)
}

/// At level 0 the form behind `unsyntax` is an insert; there must be just one.
fn operand_or_bad(
    alloc: Global,
    operand: Option<&Syn>,
    inserts: &mut Items<Insert>,
) -> Result<Begun, BareStop>
    ensures { BareGives (λ b. (b, inserts.new)) result (operand_or_bad (option_map (λ t. t.now) operand.entry) inserts.old) }
{
    match operand {
        None => Err(bad(alloc)),
        Some(operand) => {
            let tree = new_insert(alloc, inserts, operand, 0)?;
            Ok(Begun::Whole(QuasiPart {
                changed: true,
                tree,
            }))
        }
    }
}

/// Whether a list is an ellipsis and the template that it escapes.
fn escapes(head: QuasiWord, ends: bool, forms: &[Syn]) -> bool
    ensures { result ≡ escapes head ends forms.now }
{
    if head == QuasiWord::Escape && ends {
        return matches!(forms, [_, _]);
    }
    false
}

/// What a template comes to at a level.
#[cycle(quasi_syntax)]
fn syntax_at(
    context: &QuasiContext,
    form: &Syn,
    level: u64,
    inserts: &mut Items<Insert>,
) -> Result<QuasiPart, BareStop>
    ensures { BareGives (λ p. (p, inserts.new)) result (syntax_at (seen context.now) form.now level inserts.old) }
{
    match form.open(context.alloc)? {
        OpenedTree::Atom(_) => {
            let part = unchanged(form)?;
            Ok(part)
        }
        OpenedTree::Symbol(_) => {
            let part = unchanged(form)?;
            Ok(part)
        }
        OpenedTree::Pair(_, _) => list_at(context, form, level, inserts),
        OpenedTree::Vector(forms) => vector_at(context, form, &forms, level, inserts),
    }
}

#[cycle(quasi_syntax)]
fn vector_at(
    context: &QuasiContext,
    form: &Syn,
    forms: &[Syn],
    level: u64,
    inserts: &mut Items<Insert>,
) -> Result<QuasiPart, BareStop>
    ensures { BareGives (λ p. (p, inserts.new)) result (vector_at (seen context.now) form.now forms.now level inserts.old) }
{
    let row = walked(context, forms, level, inserts)?;
    vector_joined(context.alloc, form, row)
}

/// What an ellipsis escapes stays as it is; another list is split first.
#[cycle(quasi_syntax)]
fn list_at(
    context: &QuasiContext,
    form: &Syn,
    level: u64,
    inserts: &mut Items<Insert>,
) -> Result<QuasiPart, BareStop>
    requires { is_pair form.now ≡ true }
    ensures { BareGives (λ p. (p, inserts.new)) result (syntax_at (seen context.now) form.now level inserts.old) }
{
    let parts = parts_of(context.alloc, form)?;
    let ends = is_nil(context.alloc, &parts.tail)?;
    let forms = parts.elements.as_slice();
    let head = first_word(context.alloc, Family::Syntax, forms, context.frames)?;
    if escapes(head, ends, forms) {
        let part = unchanged(form)?;
        return Ok(part);
    }
    if splits(context.alloc, Family::Syntax, forms, ends, context.frames)? {
        let before = forms.len() - 2;
        let (front, last) = forms.split_at(before);
        let rest = rest_at(context.alloc, form, before)?;
        let front = ListParts {
            form,
            elements: front,
            tail: &rest,
        };
        let last = ListParts {
            form: &rest,
            elements: last,
            tail: &parts.tail,
        };
        return split_list(context, &front, &last, level, inserts);
    }
    let list = ListParts {
        form,
        elements: forms,
        tail: &parts.tail,
    };
    flat_list(context, &list, level, inserts)
}

/// A list whose tail is the list of its last two elements.
#[cycle(quasi_syntax)]
fn split_list(
    context: &QuasiContext,
    front: &ListParts,
    last: &ListParts,
    level: u64,
    inserts: &mut Items<Insert>,
) -> Result<QuasiPart, BareStop>
    requires { 0 < length last.now.elements.now }
    ensures { BareGives (λ p. (p, inserts.new)) result (split_list (seen context.now) front.now.form.now front.now.elements.now
        (last_list (seen context.now) last.now.form.now last.now.elements.now last.now.tail.now) level inserts.old) }
{
    match open_list(context, front.elements, false, level, inserts)? {
        Begun::Whole(part) => Ok(part),
        Begun::Trees(row) => {
            let tail = flat_list(context, last, level, inserts)?;
            list_joined(context.alloc, front.form, row, tail)
        }
    }
}

/// Elements and a tail, as they are.
#[cycle(quasi_syntax)]
fn flat_list(
    context: &QuasiContext,
    list: &ListParts,
    level: u64,
    inserts: &mut Items<Insert>,
) -> Result<QuasiPart, BareStop>
    requires { 0 < length list.now.elements.now }
    ensures { BareGives (λ p. (p, inserts.new)) result (flat_list
        (seen context.now) list.now.form.now list.now.elements.now list.now.tail.now level inserts.old) }
{
    let ends = is_nil(context.alloc, list.tail)?;
    match open_list(context, list.elements, ends, level, inserts)? {
        Begun::Whole(part) => Ok(part),
        Begun::Trees(row) => {
            let tail = syntax_at(context, list.tail, level, inserts)?;
            list_joined(context.alloc, list.form, row, tail)
        }
    }
}

/// The head and the elements of a list.
#[cycle(quasi_syntax)]
fn open_list(
    context: &QuasiContext,
    forms: &[Syn],
    ends: bool,
    level: u64,
    inserts: &mut Items<Insert>,
) -> Result<Begun, BareStop>
    ensures { BareGives (λ b. (b, inserts.new)) result (forms_begun (seen context.now) forms.now ends level inserts.old) }
{
    let head = first_word(context.alloc, Family::Syntax, forms, context.frames)?;
    match head.reach(level) {
        Reach::Operand => operand_or_bad(context.alloc, operand_of(forms, ends), inserts),
        Reach::Refused => Err(bad(context.alloc)),
        Reach::Elements => {
            let inner = head.inner(level)?;
            let row = walked(context, forms, inner, inserts)?;
            Ok(Begun::Trees(row))
        }
    }
}

/// What the elements of a list or vector come to.
#[cycle(quasi_syntax)]
#[tactic(auto, using(crate::proofs::InsertWalks::row_on, crate::proofs::InsertWalks::row_stop))]
fn walked(
    context: &QuasiContext,
    forms: &[Syn],
    level: u64,
    inserts: &mut Items<Insert>,
) -> Result<QuasiRow, BareStop>
    ensures { BareGives (λ r. (r, inserts.new)) result (forms_walked (seen context.now) level forms.now inserts.old) }
{
    let mut row = QuasiRow::none(context.alloc);
    let mut left = forms;
    while let Some((form, behind)) = left.split_first() {
        row = step(context, row, form, level, inserts)?;
        left = behind;
    }
    Ok(row)
}

/// Adds what an element comes to.
#[cycle(quasi_syntax)]
fn step(
    context: &QuasiContext,
    row: QuasiRow,
    form: &Syn,
    level: u64,
    inserts: &mut Items<Insert>,
) -> Result<QuasiRow, BareStop>
    ensures { BareGives (λ r. (r, inserts.new)) result (step (seen context.now) level row (element (seen context.now) form.now) inserts.old) }
{
    match taken_at(context.alloc, Family::Syntax, form, level, context.frames)? {
        QuasiTaken::Each(forms) => {
            let row = row.with_each(context.alloc, forms.as_slice(), inserts)?;
            Ok(row)
        }
        QuasiTaken::Spliced(forms) => {
            let row = row.with_splices(context.alloc, forms.as_slice(), context.dots, inserts)?;
            Ok(row)
        }
        QuasiTaken::Kept => {
            let part = syntax_at(context, form, level, inserts)?;
            let row = row.with_part(part)?;
            Ok(row)
        }
    }
}

/// What a `quasisyntax` form with this template comes to (R6RS libraries 12.8).
///
/// Each expression is an insert, whose leaf stands for its value in the template. The form means
/// `(syntax-case (list e ...) () ((p ...) (syntax t)))`, where p is the leaf, or a list of the leaf and an ellipsis.
/// Without inserts the template is the form's own.
///
/// It is `BadForm` at the form where at level 0 `unsyntax` has another number of operands than one, or
/// `unsyntax-splicing` stands, and neither is an element of a list or vector; and `TooDeep` at the form where a part
/// of the template would pass a limit of trees. What comes first is the fault. `place` is where a form without a
/// span stands.
#[tactic(auto, using(crate::proofs::Places::form_stops))]
pub fn quasi_syntax(
    context: &QuasiContext,
    template: &Syn,
    form: &Syn,
    place: &Span,
) -> Result<QuasiSyntax, Stop>
    ensures { Gives (λ q. q) result (quasi_syntax (seen context.now) template.now form.now place.now) }
{
    let mut inserts = Items::new(context.alloc);
    match syntax_at(context, template, 0, &mut inserts) {
        Ok(part) => Ok(QuasiSyntax {
            template: part.tree,
            inserts,
        }),
        Err(stop) => Err(at_form(stop, form, place)),
    }
}
