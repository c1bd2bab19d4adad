//! Pairs of a binding map.

use base_data::span::Span;
use core_language::link::Target;

/// An identifier of a source, and what it leads to.
#[derive(Drop)]
pub struct Pair {
    pub span: Span,
    pub target: Target,
}
