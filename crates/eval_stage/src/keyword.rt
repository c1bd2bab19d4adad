//! What a stage knows of a keyword.

use base_data::span::Span;
use core_language::binding::Expression;
use eval_value::value::Value;

/// A keyword of the library that is expanded, or an imported one that was used.
#[derive(Drop)]
pub enum Keyword {
    /// Its expression, which stands at the place, isn't evaluated yet.
    Waiting(Span),
    /// Its transformer; and its expression, if it is a keyword of the library that is expanded.
    Kept(Option<Expression>, Value),
}
