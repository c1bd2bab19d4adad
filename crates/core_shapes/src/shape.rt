//! Shapes: the parts of a core form, in order.

use base_data::items::Items;
use stx_object::syn::Syn;

/// The formals of a procedure: identifiers, and one for the rest of the arguments.
#[derive(Drop)]
pub struct FormalIds {
    pub required: Items<Syn>,
    pub rest: Option<Syn>,
}

/// An identifier with the expression of its value, `(id init)`.
#[derive(Drop)]
pub struct BindingSpec {
    pub id: Syn,
    pub init: Syn,
}

/// A case of `case-lambda`, `(formals form ...)`.
#[derive(Drop)]
pub struct LambdaCase {
    pub formals: FormalIds,
    pub body: Items<Syn>,
}

/// A clause of `syntax-case`, `(pattern output)` or `(pattern fender output)`.
#[derive(Drop)]
pub struct PatternCase {
    pub pattern: Syn,
    pub fender: Option<Syn>,
    pub output: Syn,
}

/// The parts of a core form. Forms that look alike share a variant.
#[derive(Drop)]
pub enum Shape {
    Quote(Syn),
    Lambda(FormalIds, Items<Syn>),
    CaseLambda(Items<LambdaCase>),
    /// The test, the consequent and the alternate.
    If(Syn, Syn, Option<Syn>),
    /// The target and the value.
    Set(Syn, Syn),
    Begin(Items<Syn>),
    /// Of `letrec` and `letrec*`.
    Letrec(Items<BindingSpec>, Items<Syn>),
    /// A variable, and its value where one is written.
    Define(Syn, Option<Syn>),
    DefineProcedure(Syn, FormalIds, Items<Syn>),
    DefineSyntax(Syn, Syn),
    /// Of `let-syntax` and `letrec-syntax`.
    LetSyntax(Items<BindingSpec>, Items<Syn>),
    /// Of `quasiquote`, `syntax` and `quasisyntax`.
    Operand(Syn),
    /// The subject, the literals and the clauses.
    SyntaxCase(Syn, Items<Syn>, Items<PatternCase>),
}
