//! `syntax-case` (R6RS libraries 12.4).

ghost use Rattle.std.specs.Prelude.{◌≡◌};
ghost use Rattle.base_data.specs.Act.{GivesAfter, after, give};
ghost use Rattle.stx_tree.specs.Changes.{stamp};
ghost use Rattle.expand_forms.specs.Expression.{inside, fender, clause_in, pattern_clause, all_clauses, syntax_case};

use crate::at::FormAt;
use crate::cores::matching_of;
use crate::expression::{boxed, expression_in};
use crate::transformers::Transformers;
use base_data::fault::Stop;
use base_data::name::FrameNo;
use base_data::span::Span;
use core_language::code::{Clause, Core};
use core_language::pattern::Pattern;
use core_shapes::shape::PatternCase;
use eval_pattern::compile::Compiled;
use expand_standing::binders::BinderContext;
use expand_standing::expansion::Expansion;
use expand_standing::means::Counts;
use std::marker::Model;
use std::sync::ledger::Ledger;
use stx_object::syn::Syn;

/// The parts of a `syntax-case`, and where it stands.
#[derive(Drop)]
pub(crate) struct SyntaxCaseForm<'a> {
    /// The expression whose value is matched.
    pub subject: &'a Syn,
    pub literals: &'a [Syn],
    /// Its clauses.
    pub cases: &'a [PatternCase],
    /// Where the whole form stands. Its core code keeps it.
    pub span: &'a Span,
}

impl<'a> Model for SyntaxCaseForm<'a> {
    ghost use Rattle.expand_forms.specs.Forms.{SyntaxCaseForm, syntax_case_code};

    ghost Value = { SyntaxCaseForm };

    ghost coded = { syntax_case_code };

    ghost view = { λ f. record { subject = f.subject.now; literals = f.literals.now; cases = f.cases.now; span = f.span.now } };
}

/// A clause, and the frame of the variables of its pattern.
#[derive(Drop)]
struct FramedCase<'a> {
    frame: &'a FrameNo,
    case: &'a PatternCase,
}

#[cycle(form)]
fn fender<M: Transformers, N: Ledger, L: Ledger>(
    state: &mut Expansion<L>,
    frame: &FrameNo,
    form: &Option<Syn>,
    at: &FormAt<M>,
    counts: &mut Counts<N, L>,
) -> Result<Option<Core>, Stop>
    ensures { GivesAfter (λ c. c) result state.new (fender (inside (M.records at.now.means.now) at.now.room) at.now.site.now frame.now form.now state.old) }
{
    match form {
        None => Ok(None),
        Some(form) => {
            let core = expression_in(state, frame, form, at, counts)?;
            Ok(Some(core))
        }
    }
}

/// A clause: the variables of its pattern have a frame, in which its fender and its output stand.
#[cycle(form)]
#[tactic(auto, unfolding(crate::specs::Expression::pattern_clause))]
fn pattern_clause<M: Transformers, N: Ledger, L: Ledger>(
    state: &mut Expansion<L>,
    literals: &[Syn],
    case: &PatternCase,
    at: &FormAt<M>,
    counts: &mut Counts<N, L>,
) -> Result<Clause, Stop>
    ensures { GivesAfter (λ c. c) result state.new (pattern_clause
        (inside (M.records at.now.means.now) at.now.room) at.now.site.now literals.now case.now state.old) }
{
    let outer = state.in_scope();
    let frame = state.fresh_frame()?;
    let framed = FramedCase {
        frame: &frame,
        case,
    };
    let clause = clause_in(state, literals, &framed, at, counts)?;
    state.cut_scope(outer);
    Ok(clause)
}

/// A clause whose variables have this frame.
#[cycle(form)]
fn clause_in<M: Transformers, N: Ledger, L: Ledger>(
    state: &mut Expansion<L>,
    literals: &[Syn],
    framed: &FramedCase,
    at: &FormAt<M>,
    counts: &mut Counts<N, L>,
) -> Result<Clause, Stop>
    ensures { GivesAfter (λ c. c) result state.new (clause_in
        (inside (M.records at.now.means.now) at.now.room) at.now.site.now literals.now framed.now.case.now framed.now.frame.now state.old) }
{
    let site = at.site;
    let Compiled { pattern, variables } = state.pattern(
        &framed.case.pattern,
        literals,
        site.place,
    )?;
    let binders = BinderContext {
        frame: framed.frame,
        place: site.place,
        level: site.level,
    };
    match state.bind_pattern(&binders, variables.as_slice()) {
        Ok(()) => {
            drop(variables);
            clause_of(state, framed, pattern, at, counts)
        }
        Err(stop) => {
            drop(pattern);
            Err(stop)
        }
    }
}

/// A clause whose pattern is compiled, and its variables bound.
#[cycle(form)]
fn clause_of<M: Transformers, N: Ledger, L: Ledger>(
    state: &mut Expansion<L>,
    framed: &FramedCase,
    pattern: Pattern,
    at: &FormAt<M>,
    counts: &mut Counts<N, L>,
) -> Result<Clause, Stop>
    ensures { GivesAfter (λ c. c) result state.new (after
        (fender (inside (M.records at.now.means.now) at.now.room) at.now.site.now framed.now.frame.now framed.now.case.now.fender
        state.old) (λ f s. after ((inside (M.records at.now.means.now) at.now.room).form at.now.site.now
        (stamp framed.now.frame.now framed.now.case.now.output) s) (λ o. give (record { pattern = pattern; fender = f; output = o })))) }
{
    match fender(state, framed.frame, &framed.case.fender, at, counts) {
        Ok(fender) => match expression_in(state, framed.frame, &framed.case.output, at, counts) {
            Ok(output) => Ok(Clause {
                pattern,
                fender,
                output,
            }),
            Err(stop) => {
                drop(pattern);
                drop(fender);
                Err(stop)
            }
        },
        Err(stop) => {
            drop(pattern);
            Err(stop)
        }
    }
}

#[cycle(form)]
fn all_clauses<M: Transformers, N: Ledger, L: Ledger>(
    state: &mut Expansion<L>,
    literals: &[Syn],
    cases: &[PatternCase],
    at: &FormAt<M>,
    counts: &mut Counts<N, L>,
) -> Result<Vec<Clause>, Stop>
    ensures { GivesAfter (λ c. c.items) result state.new
        (all_clauses (inside (M.records at.now.means.now) at.now.room) at.now.site.now literals.now cases.now state.old) }
{
    let mut done = Vec::new(state.alloc());
    for case in cases {
        let one = pattern_clause(state, literals, case, at, counts)?;
        done.push(one)?;
    }
    Ok(done)
}

/// The subject, the literals and the clauses, in this order.
#[cycle(form)]
#[tactic(auto, unfolding(crate::specs::Expression::syntax_case))]
pub(crate) fn syntax_case<M: Transformers, N: Ledger, L: Ledger>(
    state: &mut Expansion<L>,
    parts: &SyntaxCaseForm,
    at: &FormAt<M>,
    counts: &mut Counts<N, L>,
) -> Result<Core, Stop>
    ensures { GivesAfter (λ c. c) result state.new (syntax_case (inside (M.records at.now.means.now) at.now.room) at.now.site.now parts.now state.old) }
{
    let site = at.site;
    let subject = boxed(state, parts.subject, at, counts)?;
    state.check_literals(parts.literals, site.place)?;
    let clauses = all_clauses(state, parts.literals, parts.cases, at, counts)?;
    Ok(matching_of(subject, clauses, parts.span)?)
}
