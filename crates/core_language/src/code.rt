//! Core code: what expansion makes of a program.

use crate::formals::Formals;
use crate::pattern::Pattern;
use crate::template::Template;
use base_data::datum::Datum;
use base_data::name::{CodeNo, Label};
use base_data::op::Op;
use base_data::span::Span;
use std::marker::Model;
use std::rc::Rc;

/// A core expression.
#[derive(Drop)]
#[cycle(code)]
pub struct Core {
    pub node: CoreNode,
}

/// What a core expression is. The span of a `Syntax` or `SyntaxCase` is that of its form.
#[derive(Drop)]
#[cycle(code)]
pub enum CoreNode {
    Quote(Datum),
    /// A variable.
    Ref(Label),
    Prim(Op),
    If(Box<Core>, Box<Core>, Option<Box<Core>>),
    Set(Label, Box<Core>),
    Seq(Vec<Core>),
    Lambda(Rc<Code>),
    /// `letrec*` where the flag is true, else `letrec`.
    Letrec(bool, Vec<Init>, Box<Core>),
    App(Box<Core>, Vec<Core>),
    Syntax(Template, Span),
    SyntaxCase(Box<Core>, Vec<Clause>, Span),
}

/// A variable of a `letrec`, with the expression of its value.
#[derive(Drop)]
#[cycle(code)]
pub struct Init {
    pub label: Label,
    pub value: Core,
}

/// The code of a procedure, which its owners share. It is a `lambda` where it is plain, else a
/// `case-lambda`.
#[derive(Drop)]
#[cycle(code)]
pub struct Code {
    pub number: CodeNo,
    pub cases: Vec<Lambda>,
    pub plain: bool,
}

/// One case of a procedure.
#[derive(Drop)]
#[cycle(code)]
pub struct Lambda {
    pub formals: Formals,
    pub body: Core,
}

/// A clause of `syntax-case`.
#[derive(Drop)]
#[cycle(code)]
pub struct Clause {
    pub pattern: Pattern,
    pub fender: Option<Core>,
    pub output: Core,
}

impl Model for Core {
    ghost use Rattle.core_language.specs.Core.{PlainCore, core_size};
    ghost use Rattle.core_language.specs.CoreCode.{core_code};

    ghost Value = { PlainCore };

    ghost coded = { core_code };

    ghost use Rattle.core_language.specs.CoreView.{seen};

    ghost view = { λ c. seen c.node };

    ghost size = { core_size };

    ghost use Rattle.core_language.specs.CoreFalls.{seen_falls};

    ghost size_decreases = { λ c h. seen_falls c.node };
}

impl Model for Code {
    ghost use Rattle.core_language.specs.Core.{PlainCode, code_size};
    ghost use Rattle.core_language.specs.CoreCode.{procedure_code};

    ghost Value = { PlainCode };

    ghost coded = { procedure_code };

    ghost use Rattle.core_language.specs.CoreView.{seen_code};

    ghost view = { λ c. seen_code c.number c.cases.items c.plain };

    ghost size = { code_size };

    ghost use Rattle.core_language.specs.CoreFalls.{cases_fall};
    ghost use Rattle.std.proofs.Common.{arith};

    ghost size_decreases = { λ c h. omega (arith, cases_fall c.cases.items) };
}
