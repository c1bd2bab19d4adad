//! Definitions of keywords (R6RS 11.2.2 and 11.18).

ghost use Rattle.std.specs.Prelude.{◌≡◌, IfOk};
ghost use Rattle.base_data.specs.Act.{GivesAfter};
ghost use Rattle.expand_standing.specs.InScope.{apart};
ghost use Rattle.expand_forms.specs.Expression.{inside, keywords_form};
ghost use Rattle.expand_forms.specs.Keywords.{expand_transformer, seen_in, expand_transformer_in, expand_transformers, keywords, with_keywords, define_syntax};

use crate::at::{FormAt, ItemAt};
use crate::expression::{expression, in_sequence, stamp_all};
use crate::site::{Site, site_in};
use crate::transformers::Transformers;
use base_data::fault::Stop;
use base_data::items::Items;
use base_data::memory::Memory;
use base_data::name::FrameNo;
use base_data::steps::Steps;
use core_language::code::Core;
use core_shapes::at::place_of;
use core_shapes::shape::BindingSpec;
use expand_heads::items::define_keyword;
use expand_heads::taken::Taken;
use expand_standing::binders::{BinderContext, BoundSpec};
use expand_standing::expansion::Expansion;
use expand_standing::means::Counts;
use expand_standing::uses::KeywordAt;
use std::alloc::Global;
use std::marker::Model;
use std::sync::ledger::Ledger;
use stx_object::syn::Syn;

/// A `let-syntax`, or a `letrec-syntax` where `recursive` is true.
#[derive(Drop)]
pub(crate) struct LetSyntaxForm<'a> {
    pub recursive: bool,
    /// Its keywords, each with its expression.
    pub specs: &'a [BindingSpec],
    /// The forms in which the keywords are seen.
    pub forms: &'a [Syn],
}

impl<'a> Model for LetSyntaxForm<'a> {
    ghost use Rattle.expand_forms.specs.Forms.{LetSyntaxForm, let_syntax_code};

    ghost Value = { LetSyntaxForm };

    ghost coded = { let_syntax_code };

    ghost view = { λ f. record { recursive = f.recursive; specs = f.specs.now; forms = f.forms.now } };
}

/// The frame of the keywords of a `let-syntax`, or of a `letrec-syntax` where `recursive` is true.
#[derive(Drop)]
struct KeywordFrame<'a> {
    recursive: bool,
    frame: &'a FrameNo,
}

/// A form of a body that defines a keyword, and the keyword with its expression.
#[derive(Drop)]
pub(crate) struct KeywordDefinition<'a> {
    pub form: &'a Syn,
    pub spec: &'a BindingSpec,
}

impl<'a> Model for KeywordDefinition<'a> {
    ghost use Rattle.expand_forms.specs.Forms.{KeywordDefinition, definition_code};

    ghost Value = { KeywordDefinition };

    ghost coded = { definition_code };

    ghost view = { λ f. record { form = f.form.now; spec = f.spec.now } };
}

/// An expression with nothing in scope.
#[cycle(form)]
fn expression_apart<M: Transformers, N: Ledger, L: Ledger>(
    state: &mut Expansion<L>,
    form: &Syn,
    at: &FormAt<M>,
    counts: &mut Counts<N, L>,
) -> Result<Core, Stop>
    ensures { GivesAfter (λ c. c) result state.new (apart ((inside (M.records at.now.means.now) at.now.room).form at.now.site.now form.now) state.old) }
{
    let scope = state.take_scope();
    match expression(state, form, at, counts) {
        Ok(core) => {
            state.restore_scope(scope);
            Ok(core)
        }
        Err(stop) => {
            drop(scope);
            Err(stop)
        }
    }
}

/// Expands the expression of a keyword, one level up and with nothing in scope, and evaluates it.
#[cycle(form)]
#[tactic(auto, unfolding(crate::specs::Keywords::expand_transformer), using(crate::proofs::Steps::earlier_inside))]
fn expand_transformer<M: Transformers, N: Ledger, L: Ledger>(
    state: &mut Expansion<L>,
    bound: &BoundSpec,
    at: &FormAt<M>,
    counts: &mut Counts<N, L>,
) -> Result<(), Stop>
    ensures { GivesAfter (λ _. tt) result state.new (expand_transformer (inside (M.records at.now.means.now) at.now.room) at.now.site.now bound.now state.old) }
{
    let outer = at.site;
    let Some(up) = outer.level.checked_add(1) else {
        return Err(Stop::Memory);
    };
    let place = place_of(&bound.init, outer.place)?;
    let site = Site {
        place: outer.place,
        level: up,
        depth: outer.depth,
    };
    let above = FormAt { site: &site, ..*at };
    let core = expression_apart(state, &bound.init, &above, counts)?;
    let waiting = KeywordAt {
        label: &bound.label,
        place: &place,
    };
    at.means.evaluate_transformer(state, &waiting, core, counts)
}

/// The expressions of `letrec-syntax` see its keywords.
fn seen_in<N: Ledger>(
    alloc: Global,
    recursive: bool,
    frame: &FrameNo,
    bound: &BoundSpec,
    nodes: &mut Steps<N>,
) -> Result<BoundSpec, Memory>
    ensures { IfOk result (λ b. b ≡ seen_in recursive frame.now bound.now) }
{
    let label = bound.label.share()?;
    if recursive {
        let init = bound.init.stamp(alloc, frame.share()?, nodes)?;
        return Ok(BoundSpec { label, init });
    }
    let init = bound.init.share()?;
    Ok(BoundSpec { label, init })
}

#[cycle(form)]
fn expand_transformer_in<M: Transformers, N: Ledger, L: Ledger>(
    state: &mut Expansion<L>,
    scope: &KeywordFrame,
    bound: &BoundSpec,
    at: &FormAt<M>,
    counts: &mut Counts<N, L>,
) -> Result<(), Stop>
    ensures { GivesAfter (λ _. tt) result state.new (expand_transformer_in
        (inside (M.records at.now.means.now) at.now.room) at.now.site.now scope.now.recursive scope.now.frame.now tt bound.now state.old) }
{
    let bound = seen_in(
        state.alloc(),
        scope.recursive,
        scope.frame,
        bound,
        counts.nodes,
    )?;
    expand_transformer(state, &bound, at, counts)
}

#[cycle(form)]
fn expand_transformers<M: Transformers, N: Ledger, L: Ledger>(
    state: &mut Expansion<L>,
    scope: &KeywordFrame,
    bound: &[BoundSpec],
    at: &FormAt<M>,
    counts: &mut Counts<N, L>,
) -> Result<(), Stop>
    ensures { GivesAfter (λ _. tt) result state.new (expand_transformers
        (inside (M.records at.now.means.now) at.now.room) at.now.site.now scope.now.recursive scope.now.frame.now bound.now state.old) }
{
    for one in bound {
        expand_transformer_in(state, scope, one, at, counts)?;
    }
    Ok(())
}

/// The keywords of `let-syntax` or `letrec-syntax` in a frame.
#[cycle(form)]
#[tactic(auto, unfolding(crate::specs::Keywords::keywords))]
fn keywords<M: Transformers, N: Ledger, L: Ledger>(
    state: &mut Expansion<L>,
    scope: &KeywordFrame,
    specs: &[BindingSpec],
    at: &FormAt<M>,
    counts: &mut Counts<N, L>,
) -> Result<(), Stop>
    ensures { GivesAfter (λ _. tt) result state.new (keywords
        (inside (M.records at.now.means.now) at.now.room) at.now.site.now scope.now.recursive specs.now scope.now.frame.now state.old) }
{
    let site = at.site;
    let binders = BinderContext {
        frame: scope.frame,
        place: site.place,
        level: site.level,
    };
    let bound = state.bind_keywords(&binders, specs)?;
    expand_transformers(state, scope, bound.as_slice(), at, counts)
}

/// The forms among the keywords of `let-syntax` or `letrec-syntax`, which are evaluated.
#[cycle(form)]
pub(crate) fn with_keywords<M: Transformers, N: Ledger, L: Ledger>(
    state: &mut Expansion<L>,
    parts: &LetSyntaxForm,
    at: &FormAt<M>,
    counts: &mut Counts<N, L>,
) -> Result<Items<Syn>, Stop>
    ensures { GivesAfter (λ ts. ts) result state.new (with_keywords (inside (M.records at.now.means.now) at.now.room) at.now.site.now parts.now state.old) }
{
    let frame = state.fresh_frame()?;
    let scope = KeywordFrame {
        recursive: parts.recursive,
        frame: &frame,
    };
    keywords(state, &scope, parts.specs, at, counts)?;
    Ok(stamp_all(state.alloc(), &frame, parts.forms, counts.nodes)?)
}

/// Expressions among the keywords of `let-syntax` or `letrec-syntax`.
#[cycle(form)]
#[tactic(auto, unfolding(crate::specs::Expression::keywords_form))]
pub(crate) fn keywords_form<M: Transformers, N: Ledger, L: Ledger>(
    state: &mut Expansion<L>,
    parts: &LetSyntaxForm,
    at: &FormAt<M>,
    counts: &mut Counts<N, L>,
) -> Result<Core, Stop>
    ensures { GivesAfter (λ c. c) result state.new (keywords_form (inside (M.records at.now.means.now) at.now.room) at.now.site.now parts.now state.old) }
{
    let forms = with_keywords(state, parts, at, counts)?;
    in_sequence(state, forms.as_slice(), at, counts)
}

/// A keyword that a form of a body defines.
#[cycle(form)]
#[tactic(auto, unfolding(crate::specs::Keywords::define_syntax))]
pub(crate) fn define_syntax<M: Transformers, N: Ledger, L: Ledger>(
    state: &mut Expansion<L>,
    at: &ItemAt<M>,
    taken: &Taken,
    definition: &KeywordDefinition,
    counts: &mut Counts<N, L>,
) -> Result<(), Stop>
    ensures { GivesAfter (λ _. tt) result state.new (define_syntax
        (inside (M.records at.now.means.now) at.now.room) at.now.body.now at.now.depth taken.now definition.now state.old) }
{
    let bound = define_keyword(state, at.body, taken, definition.form, definition.spec)?;
    let site = site_in(at.body, at.depth);
    let keyword_at = FormAt {
        site: &site,
        room: at.room,
        means: at.means,
    };
    expand_transformer(state, &bound, &keyword_at, counts)
}
