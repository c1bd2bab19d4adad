//! The code of `quasisyntax` forms.

ghost use Rattle.std.specs.Prelude.{◌≡◌, ◌+◌, ◌≤◌, map, IfOk, OnOk, OnErr};
ghost use Rattle.base_data.specs.Act.{GivesAfter};
ghost use Rattle.expand_quasi.specs.Inserted.{dots, ellipsis, insert_variable, insert_variables, nothing_behind, listed, insert_pattern, inserts_pattern, match_of, bind_inserts, inserted_in, inserted, plain_instance};

use crate::filled::call_of;
use base_data::atom::Atom;
use base_data::fault::Stop;
use base_data::items::Items;
use base_data::library::LibName;
use base_data::memory::Memory;
use base_data::name::{FrameNo, Label, Mark, Name};
use base_data::op::{Op, names};
use base_data::span::Span;
use base_data::steps::Steps;
use base_data::symbol::Symbol;
use core_language::code::{Clause, Core, CoreNode};
use core_language::core_form::CoreForm;
use core_language::pattern::{Elements, Pattern, PatternNode, Repeated};
use core_language::template::Template;
use core_quasi::quasi_syntax::{Insert, QuasiSyntax};
use core_shapes::at::place_of;
use eval_pattern::compile::PatternVariable;
use expand_heads::context::FormContext;
use expand_standing::binders::BinderContext;
use expand_standing::expansion::Expansion;
use std::alloc::Global;
use std::rc::Rc;
use std::sync::ledger::Ledger;
use stx_object::syn::Syn;

/// The identifier that stands for the ellipsis behind splices: no leaf of a program has its mark.
pub(crate) fn dots(alloc: Global) -> Result<Syn, Memory>
    ensures { IfOk result (λ t. t ≡ dots) }
{
    let library = Rc::new(alloc, LibName::Core)?;
    let symbol = Symbol::new(alloc, "...")?;
    Syn::leaf(alloc, &symbol, Mark(Name { library, number: 0 }))
}

fn ellipsis(alloc: Global) -> Result<Label, Memory>
    ensures { IfOk result (λ l. l ≡ ellipsis) }
{
    let library = Rc::new(alloc, LibName::Core)?;
    let number = u64::from(CoreForm::Ellipsis.number());
    Ok(Label(Name { library, number }))
}

/// An insert as a pattern variable, whose label is the next name of the library.
fn insert_variable<L: Ledger>(
    state: &mut Expansion<L>,
    insert: &Insert,
) -> Result<PatternVariable, Stop>
    ensures { GivesAfter (λ v. v) result state.new (insert_variable insert.now state.old) }
{
    let label = Label(state.fresh()?);
    let id = insert.leaf.share()?;
    Ok(PatternVariable {
        id,
        label,
        depth: insert.depth,
    })
}

fn insert_variables<L: Ledger>(
    state: &mut Expansion<L>,
    inserts: &[Insert],
) -> Result<Items<PatternVariable>, Stop>
    ensures { GivesAfter (λ vs. vs) result state.new (insert_variables inserts.now state.old) }
{
    let mut done = Items::new(state.alloc());
    for insert in inserts {
        let one = insert_variable(state, insert)?;
        done.push(one)?;
    }
    Ok(done)
}

fn nothing_behind(alloc: Global) -> Result<Box<Pattern>, Memory>
    ensures { IfOk result (λ p. p.value ≡ nothing_behind) }
{
    let nil = Pattern {
        node: PatternNode::Atom(Atom::Nil),
    };
    let nil = Box::new(alloc, nil)?;
    Ok(nil)
}

/// The pattern of lists whose elements this one takes.
fn listed(alloc: Global, pattern: Pattern) -> Result<Pattern, Memory>
    ensures { IfOk result (λ p. p ≡ listed pattern) }
{
    let repeated = Repeated {
        pattern: Box::new(alloc, pattern)?,
        after: Vec::new(alloc),
    };
    let elements = Elements {
        before: Vec::new(alloc),
        repeated: Some(repeated),
    };
    let tail = nothing_behind(alloc)?;
    Ok(Pattern {
        node: PatternNode::List(elements, tail),
    })
}

/// A variable; that of a splice stands under an ellipsis.
#[tactic(auto, using(crate::proofs::Walks::under_on, crate::proofs::Walks::under_none))]
fn insert_pattern(alloc: Global, variable: &PatternVariable) -> Result<Pattern, Memory>
    ensures { IfOk result (λ p. p ≡ insert_pattern variable.now) }
{
    let label = variable.label.share()?;
    let mut pattern = Pattern {
        node: PatternNode::Variable(label),
    };
    let mut left = variable.depth;
    while left > 0 {
        pattern = listed(alloc, pattern)?;
        left -= 1;
    }
    Ok(pattern)
}

fn insert_patterns(alloc: Global, variables: &[PatternVariable]) -> Result<Vec<Pattern>, Memory>
    ensures { IfOk result (λ ps. ps.items ≡ map insert_pattern variables.now) }
{
    let mut done = Vec::new(alloc);
    for variable in variables {
        let one = insert_pattern(alloc, variable)?;
        done.push(one)?;
    }
    Ok(done)
}

/// The pattern of the list of all values.
fn inserts_pattern(alloc: Global, variables: &[PatternVariable]) -> Result<Pattern, Memory>
    ensures { IfOk result (λ p. p ≡ inserts_pattern variables.now) }
{
    let elements = Elements {
        before: insert_patterns(alloc, variables)?,
        repeated: None,
    };
    let tail = nothing_behind(alloc)?;
    Ok(Pattern {
        node: PatternNode::List(elements, tail),
    })
}

/// The match of the list of these values against the inserts.
fn match_of(
    alloc: Global,
    variables: &[PatternVariable],
    template: Template,
    span: Span,
    codes: Vec<Core>,
) -> Result<Core, Memory>
    ensures { IfOk result (λ c. c ≡ match_of variables.now template span codes.items) }
{
    let pattern = inserts_pattern(alloc, variables)?;
    let output = Core {
        node: CoreNode::Syntax(template, span.share()?),
    };
    let mut clauses = Vec::new(alloc);
    clauses.push(Clause {
        pattern,
        fender: None,
        output,
    })?;
    let subject = call_of(alloc, Op(names::LIST), codes)?;
    let subject = Box::new(alloc, subject)?;
    Ok(Core {
        node: CoreNode::SyntaxCase(subject, clauses, span),
    })
}

/// The inserts in a frame, and the ellipsis behind them.
fn bind_inserts<L: Ledger>(
    state: &mut Expansion<L>,
    frame: &FrameNo,
    variables: &[PatternVariable],
    place: &Span,
    level: u32,
) -> Result<(), Stop>
    ensures { GivesAfter (λ _. tt) result state.new (bind_inserts frame.now place.now level variables.now state.old) }
{
    let binders = BinderContext {
        frame,
        place,
        level,
    };
    state.bind_pattern(&binders, variables)?;
    let dots = dots(state.alloc())?;
    let ellipsis = ellipsis(state.alloc())?;
    state.bind_row(frame, &dots, &ellipsis, place)
}

// What a form of `quasisyntax` comes to, with the codes of its inserts.
#[derive(Drop)]
struct Inserts<'a> {
    quasi: &'a QuasiSyntax,
    codes: Vec<Core>,
}

fn inserted_in<N: Ledger, L: Ledger>(
    state: &mut Expansion<L>,
    context: &FormContext,
    inserts: Inserts,
    frame: FrameNo,
    nodes: &mut Steps<N>,
) -> Result<Core, Stop>
    ensures given { GivesAfter (λ c. c) result state.new
        (inserted_in context.now.place.now context.now.level context.now.form.now inserts.entry.quasi.now inserts.entry.codes.items frame state.old) }
    ensures made { OnOk result (nodes.new ≡ nodes.old + 1) }
    ensures refused { OnErr result (nodes.new ≤ nodes.old + 1) }
{
    let Inserts { quasi, codes } = inserts;
    let variables = insert_variables(state, quasi.inserts.as_slice())?;
    bind_inserts(
        state,
        &frame,
        variables.as_slice(),
        context.place,
        context.level,
    )?;
    let template = quasi.template.stamp(state.alloc(), frame, nodes)?;
    let template = state.template(&template, context.place, context.level)?;
    let span = place_of(context.form, context.place)?;
    Ok(match_of(state.alloc(), variables.as_slice(), template, span, codes)?)
}

/// The code of a form with inserts, whose expressions have these codes. It makes one node: the template has a frame.
#[tactic(auto, unfolding(crate::specs::Inserted::inserted))]
pub(crate) fn inserted<N: Ledger, L: Ledger>(
    state: &mut Expansion<L>,
    context: &FormContext,
    quasi: &QuasiSyntax,
    codes: Vec<Core>,
    nodes: &mut Steps<N>,
) -> Result<Core, Stop>
    ensures given { GivesAfter (λ c. c) result state.new
        (inserted context.now.place.now context.now.level context.now.form.now quasi.now codes.items state.old) }
    ensures made { OnOk result (nodes.new ≡ nodes.old + 1) }
    ensures refused { OnErr result (nodes.new ≤ nodes.old + 1) }
{
    let outer = state.in_scope();
    let frame = state.fresh_frame()?;
    let inserts = Inserts { quasi, codes };
    let core = inserted_in(state, context, inserts, frame, nodes)?;
    state.cut_scope(outer);
    Ok(core)
}

/// The code of a form without inserts.
pub(crate) fn plain_instance<L: Ledger>(
    state: &mut Expansion<L>,
    context: &FormContext,
    quasi: &QuasiSyntax,
) -> Result<Core, Stop>
    ensures { GivesAfter (λ c. c) result state.new (plain_instance context.now.place.now context.now.level context.now.form.now quasi.now state.old) }
{
    let template = state.template(&quasi.template, context.place, context.level)?;
    let span = place_of(context.form, context.place)?;
    Ok(Core {
        node: CoreNode::Syntax(template, span),
    })
}
