//! The height of core code.

ghost use Rattle.std.specs.Prelude.{◌≡◌, ◌<◌, ◌^◌, ◌∷◌, []};
ghost use Rattle.core_language.specs.Core.{cores};
ghost use Rattle.core_language.specs.CoreView.{inits, cases, clauses};
ghost use Rattle.core_language.specs.Height.{height, highest, highest_init, highest_case, highest_clause};

use crate::code::{Clause, Code, Core, CoreNode, Init, Lambda};

/// 1 and the greatest number of core expressions round one in it. It takes no memory.
#[cycle(height)]
pub fn height(core: &Core) -> u32
    requires { height core.now < 2 ^ 32 }
    ensures { result ≡ height core.now }
{
    match &core.node {
        CoreNode::Quote(_) | CoreNode::Ref(_) | CoreNode::Prim(_) | CoreNode::Syntax(_, _) => 1,
        CoreNode::If(test, then, None) => 1 + height(test).max(height(then)),
        CoreNode::If(test, then, Some(other)) => {
            1 + height(test).max(height(then).max(height(other)))
        }
        CoreNode::Set(_, value) => 1 + height(value),
        CoreNode::Seq(parts) => 1 + highest(parts),
        CoreNode::Lambda(code) => 1 + highest_in(code),
        CoreNode::Letrec(_, inits, body) => 1 + highest_init(inits).max(height(body)),
        CoreNode::App(operator, operands) => 1 + height(operator).max(highest(operands)),
        CoreNode::SyntaxCase(subject, clauses, _) => {
            1 + height(subject).max(highest_clause(clauses))
        }
    }
}

#[cycle(height)]
fn highest(parts: &[Core]) -> u32
    requires { highest (cores parts.now) < 2 ^ 32 }
    ensures { result ≡ highest (cores parts.now) }
{
    let mut greatest = 0;
    for part in parts {
        greatest = height(part).max(greatest);
    }
    greatest
}

#[cycle(height)]
fn highest_init(list: &[Init]) -> u32
    requires { highest_init (inits list.now) < 2 ^ 32 }
    ensures { result ≡ highest_init (inits list.now) }
{
    let mut greatest = 0;
    for init in list {
        greatest = height(&init.value).max(greatest);
    }
    greatest
}

#[cycle(height)]
fn highest_in(code: &Code) -> u32
    requires { highest_case code.now.cases < 2 ^ 32 }
    ensures { result ≡ highest_case code.now.cases }
{
    highest_case(&code.cases)
}

#[cycle(height)]
fn highest_case(list: &[Lambda]) -> u32
    requires { highest_case (cases list.now) < 2 ^ 32 }
    ensures { result ≡ highest_case (cases list.now) }
{
    let mut greatest = 0;
    for case in list {
        greatest = height(&case.body).max(greatest);
    }
    greatest
}

#[cycle(height)]
fn highest_clause(list: &[Clause]) -> u32
    requires { highest_clause (clauses list.now) < 2 ^ 32 }
    ensures { result ≡ highest_clause (clauses list.now) }
{
    let mut greatest = 0;
    for clause in list {
        greatest = height_of_clause(clause).max(greatest);
    }
    greatest
}

#[cycle(height)]
fn height_of_clause(clause: &Clause) -> u32
    requires { highest_clause (clauses (clause.now ∷ [])) < 2 ^ 32 }
    ensures { result ≡ highest_clause (clauses (clause.now ∷ [])) }
{
    match &clause.fender {
        None => height(&clause.output),
        Some(fender) => height(fender).max(height(&clause.output)),
    }
}
