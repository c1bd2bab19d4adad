//! What labels are bound to.

ghost use Rattle.std.specs.Prelude.{◌≡◌, IfOk};

use crate::code::Core;
use crate::core_form::CoreForm;
use base_data::memory::Memory;
use base_data::op::Op;
use base_data::symbol::Symbol;
use std::alloc::Global;
use std::marker::Model;
use std::rc::Rc;

/// What a label is bound to.
#[derive(Drop)]
pub enum Binding {
    Variable(VarInfo),
    PatternVariable {
        level: u32,
        depth: u32,
    },
    /// A keyword that a program or library defines. Its expression is absent only until that was
    /// expanded.
    Macro {
        level: u32,
        expression: Option<Expression>,
    },
    Core(CoreForm),
    Primitive(Op),
}

/// A variable. Its index counts the variables of its library that are bound at level 0; a variable
/// of another level has none. It is `top` where a definition of a library or program binds it.
#[derive(Drop)]
pub struct VarInfo {
    pub symbol: Symbol,
    pub index: Option<u64>,
    pub level: u32,
    pub top: bool,
    pub assigned: bool,
}

/// The expression of a keyword, which its owners share.
#[derive(Drop)]
pub struct Expression {
    code: Rc<Core>,
}

impl Model for Expression {
    ghost use Rattle.core_language.specs.Core.{PlainCore};
    ghost use Rattle.core_language.specs.CoreCode.{core_code};

    ghost Value = { PlainCore };

    ghost coded = { core_code };

    ghost view = { λ e. e.code.value };
}

impl Expression {
    pub fn new(alloc: Global, code: Core) -> Result<Expression, Memory>
        ensures { IfOk result (λ e. e ≡ code) }
    {
        let code = Rc::new(alloc, code)?;
        Ok(Expression { code })
    }

    pub fn code(&self) -> &Core
        ensures { result.now ≡ self.now }
    {
        &self.code
    }

    /// Another owner of the same expression.
    pub fn share(&self) -> Result<Expression, Memory>
        ensures { IfOk result (λ e. e ≡ self.now) }
    {
        let code = self.code.clone()?;
        Ok(Expression { code })
    }
}

/// Another owner of the same expression, where there is one.
pub fn share_expression(expression: &Option<Expression>) -> Result<Option<Expression>, Memory>
    ensures { IfOk result (λ e. e ≡ expression.now) }
{
    match expression {
        None => Ok(None),
        Some(expression) => {
            let expression = expression.share()?;
            Ok(Some(expression))
        }
    }
}

impl VarInfo {
    /// The same once more.
    pub fn share(&self) -> Result<VarInfo, Memory>
        ensures { IfOk result (λ v. v ≡ self.now) }
    {
        let symbol = self.symbol.share()?;
        Ok(VarInfo {
            symbol,
            index: self.index,
            level: self.level,
            top: self.top,
            assigned: self.assigned,
        })
    }
}

impl Binding {
    /// The same once more.
    pub fn share(&self) -> Result<Binding, Memory>
        ensures { IfOk result (λ b. b ≡ self.now) }
    {
        match self {
            Binding::Variable(info) => {
                let info = info.share()?;
                Ok(Binding::Variable(info))
            }
            Binding::PatternVariable { level, depth } => Ok(Binding::PatternVariable {
                level: *level,
                depth: *depth,
            }),
            Binding::Macro { level, expression } => {
                let expression = share_expression(expression)?;
                Ok(Binding::Macro {
                    level: *level,
                    expression,
                })
            }
            Binding::Core(form) => Ok(Binding::Core(*form)),
            Binding::Primitive(op) => Ok(Binding::Primitive(*op)),
        }
    }
}
