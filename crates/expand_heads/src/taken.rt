//! What the first pass over a body leaves for the second.

use crate::kept::KeptHeads;
use base_data::items::Items;
use base_data::name::{FrameNo, Label};
use base_data::span::Span;
use base_data::symbol::Symbol;
use core_shapes::shape::FormalIds;
use stx_object::syn::Syn;

/// What has the body.
#[derive(Clone, Copy, PartialEq, Eq)]
pub enum BodyKind {
    /// A procedure, or a `letrec`.
    Lambda,
    Library,
    Program,
}

/// Where the forms of a body stand.
#[derive(Drop)]
pub struct BodyAt {
    /// The frame that the definitions bind in.
    pub frame: FrameNo,
    /// Where a form without a span stands.
    pub place: Span,
    /// Their level (R6RS 7.2): 0 at run time, and one more in the expression of a keyword.
    pub level: u32,
    /// What has the body.
    pub kind: BodyKind,
}

/// What waits.
#[derive(Drop)]
pub enum Waits {
    /// A variable, and the form of its value where there is one.
    Variable(Label, Option<Syn>),
    /// A procedure: its variable, its whole definition, its formals and the forms of its body.
    Procedure(Label, Syn, FormalIds, Items<Syn>),
    Expression(Syn),
}

/// What waits, with the place and the depth of its form.
#[derive(Drop)]
pub struct Waiting {
    pub place: Span,
    pub depth: u16,
    pub what: Waits,
}

/// An identifier that was the head of a form of the body, or such a form itself, or the target of an
/// assignment, with its symbol and with the label that it stood for then.
#[derive(Drop)]
pub struct KeptHead {
    pub symbol: Symbol,
    pub leaf: Syn,
    pub label: Option<Label>,
}

/// What was taken of a body so far.
#[derive(Drop)]
pub struct Taken {
    pub waiting: Items<Waiting>,
    pub kept: KeptHeads,
    pub has_expression: bool,
    /// Whether a head stands for another label than when it was kept.
    pub moved: bool,
}
