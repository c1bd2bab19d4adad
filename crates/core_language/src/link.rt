//! Links: which identifier stands for which.

use base_data::name::Label;
use base_data::op::Op;
use base_data::span::Span;

/// How an identifier stands for its label.
#[derive(Drop)]
pub enum LinkKind {
    /// It binds it, as a variable.
    Bind,
    /// It refers to it or assigns it, as a variable.
    Refer,
    /// It stands for a primitive.
    Prim(Op),
}

/// An identifier of a source, and the label that it stands for.
#[derive(Drop)]
pub struct Link {
    pub span: Span,
    pub label: Label,
    pub kind: LinkKind,
}

/// What an identifier leads to.
#[derive(Drop)]
pub enum Target {
    /// The identifier that binds it.
    Place(Span),
    /// It is bound by no identifier of a source.
    Nowhere,
    Prim(Op),
}
