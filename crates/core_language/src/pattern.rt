//! Patterns of `syntax-case` (libraries report 12.4).

use base_data::atom::Atom;
use base_data::name::Label;
use std::marker::Model;
use stx_object::syn::Syn;

/// A pattern.
#[derive(Drop)]
#[cycle(pattern)]
pub struct Pattern {
    pub node: PatternNode,
}

/// What a pattern is.
#[derive(Drop)]
#[cycle(pattern)]
pub enum PatternNode {
    /// `_`, which takes everything.
    Any,
    /// A pattern variable, which takes everything as what it is bound to.
    Variable(Label),
    /// A leaf, which takes a leaf of the same binding.
    Literal(Syn),
    Atom(Atom),
    /// The elements, and the tail.
    List(Elements, Box<Pattern>),
    Vector(Elements),
}

/// The patterns of elements.
#[derive(Drop)]
#[cycle(pattern)]
pub struct Elements {
    pub before: Vec<Pattern>,
    pub repeated: Option<Repeated>,
}

/// The pattern that an ellipsis stands behind, and those after the ellipsis.
#[derive(Drop)]
#[cycle(pattern)]
pub struct Repeated {
    pub pattern: Box<Pattern>,
    pub after: Vec<Pattern>,
}

impl Model for Pattern {
    ghost use Rattle.core_language.specs.Pattern.{PlainPattern, pattern_size};
    ghost use Rattle.core_language.specs.PatternCode.{pattern_code};

    ghost Value = { PlainPattern };

    ghost coded = { pattern_code };

    ghost use Rattle.core_language.specs.PatternView.{seen};

    ghost view = { λ p. seen p.node };

    ghost size = { pattern_size };

    ghost use Rattle.core_language.specs.PatternFalls.{seen_falls};

    ghost size_decreases = { λ p h. seen_falls p.node };
}
