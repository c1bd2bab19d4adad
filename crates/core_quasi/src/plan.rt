//! Plans: what is to be made where a `quasiquote` form stands.

use crate::maker::Maker;
use std::marker::Model;
use stx_object::syn::Syn;

/// A tree of constants, expressions and calls.
#[derive(Drop)]
#[cycle(plan)]
pub struct Quasi {
    pub node: QuasiNode,
}

/// What a plan is.
#[derive(Drop)]
#[cycle(plan)]
pub enum QuasiNode {
    /// The datum of a form, as by `quote`.
    Constant(Syn),
    /// The value of an expression.
    Expression(Syn),
    /// What the procedure makes of the values of these.
    Call(Maker, Vec<Quasi>),
}

impl Model for Quasi {
    ghost use Rattle.core_quasi.specs.Plan.{PlainQuasi, quasi_size};
    ghost use Rattle.core_quasi.specs.PlanCode.{quasi_code};

    ghost Value = { PlainQuasi };

    ghost coded = { quasi_code };

    ghost use Rattle.core_quasi.specs.PlanView.{seen};

    ghost view = { λ q. seen q.node };

    ghost size = { quasi_size };

    ghost use Rattle.core_quasi.specs.PlanFalls.{seen_falls};

    ghost size_decreases = { λ q h. seen_falls q.node };
}
