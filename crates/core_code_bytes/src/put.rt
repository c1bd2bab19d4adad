//! Adds core code.

ghost use Rattle.std.specs.Prelude.{◌≡◌, IfOk, map};
ghost use Rattle.base_bytes.specs.Codec as spec;
ghost use Rattle.base_bytes.specs.Codec.{checked, listed, optional, ◌then◌};
ghost use Rattle.base_bytes.specs.Names as names;
ghost use Rattle.base_bytes.specs.Names.{code_number, label};
ghost use Rattle.base_bytes.specs.Puts.{PutsIf};
ghost use Rattle.core_codec.specs.Code as code;
ghost use Rattle.core_language.specs.Core.{cores};
ghost use Rattle.core_language.specs.CoreView as view;
ghost use Rattle.core_code_bytes.specs.Seen.{choice, node_cases, unboxed, init_part, case_part, clause_part};

use crate::formals::put_formals;
use base_bytes::names::put_op;
use base_bytes::numbers::{put_bool, put_u64};
use base_bytes::spelled::Spelled;
use base_data::memory::Memory;
use base_data::span::Span;
use core_language::code::{Clause, Code, Core, CoreNode, Init, Lambda};
use core_pattern_bytes::patterns::put_pattern;
use core_pattern_bytes::templates::put_template;
use core_tree_bytes::data::put_datum;
use std::alloc::Global;
use std::boxed::Box;

/// How high data may be, and patterns and templates.
const MAX_DATUM: u32 = 1000;

const MAX_PATTERN: u32 = 2000;

/// Adds the spelling of core code that has fewer core expressions round one than the room.
#[cycle(core_put)]
#[tactic(auto, using(crate::specs::Seen::core_none, crate::specs::Seen::core_more))]
pub fn put_core(out: &mut Vec<u8>, alloc: Global, room: u32, core: &Core) -> Result<bool, Memory>
    ensures { IfOk result (λ b. PutsIf (code.core room) core.now out.old.items out.new.items b) }
{
    if room == 0 {
        return Ok(false);
    }
    put_node(out, alloc, room - 1, &core.node)
}

#[cycle(core_put)]
fn put_node(out: &mut Vec<u8>, alloc: Global, room: u32, node: &CoreNode) -> Result<bool, Memory>
    ensures { IfOk result (λ b. PutsIf (code.core_level (code.core room)) (view.seen node.now) out.old.items out.new.items b) }
{
    put_choice(out, alloc, room, node)
}

/// Adds the tag of a core expression, and its parts.
#[cycle(core_put)]
fn put_choice(out: &mut Vec<u8>, alloc: Global, room: u32, node: &CoreNode) -> Result<bool, Memory>
    ensures { IfOk result (λ b. PutsIf (choice (code.core room)) (node_cases node.now) out.old.items out.new.items b) }
{
    match node {
        CoreNode::Quote(datum) => {
            out.push(0)?;
            put_datum(out, MAX_DATUM, datum)
        }
        CoreNode::Ref(label) => {
            out.push(1)?;
            label.put(out)?;
            Ok(true)
        }
        CoreNode::Prim(op) => {
            out.push(2)?;
            put_op(out, op)
        }
        CoreNode::If(test, consequent, other) => {
            out.push(3)?;
            if !put_core(out, alloc, room, test)? {
                return Ok(false);
            }
            put_branches(out, alloc, room, consequent, other)
        }
        CoreNode::Set(label, value) => {
            out.push(4)?;
            label.put(out)?;
            put_core(out, alloc, room, value)
        }
        CoreNode::Seq(parts) => {
            out.push(5)?;
            put_sequence(out, alloc, room, parts)
        }
        CoreNode::Lambda(procedure) => {
            out.push(6)?;
            put_code(out, alloc, room, procedure)
        }
        CoreNode::Letrec(star, inits, body) => {
            out.push(7)?;
            put_bool(out, *star)?;
            put_letrec(out, alloc, room, inits, body)
        }
        CoreNode::App(operator, operands) => {
            out.push(8)?;
            put_call(out, alloc, room, operator, operands)
        }
        CoreNode::Syntax(template, span) => {
            out.push(9)?;
            if !put_template(out, alloc, MAX_PATTERN, template)? {
                return Ok(false);
            }
            span.put(out)?;
            Ok(true)
        }
        CoreNode::SyntaxCase(subject, clauses, span) => {
            out.push(10)?;
            if !put_core(out, alloc, room, subject)? {
                return Ok(false);
            }
            put_matching(out, alloc, room, clauses, span)
        }
    }
}

/// What an `if` evaluates where its test is true, and where it is false.
#[cycle(core_put)]
fn put_branches(
    out: &mut Vec<u8>,
    alloc: Global,
    room: u32,
    consequent: &Core,
    other: &Option<Box<Core>>,
) -> Result<bool, Memory>
    ensures { IfOk result (λ b.
        PutsIf (code.core room then optional (code.core room)) (consequent.now, unboxed other.now) out.old.items out.new.items b) }
{
    if !put_core(out, alloc, room, consequent)? {
        return Ok(false);
    }
    match other {
        None => {
            out.push(0)?;
            Ok(true)
        }
        Some(other) => {
            out.push(1)?;
            put_core(out, alloc, room, other)
        }
    }
}

/// The parts of a `begin`, of which there are two or more.
#[cycle(core_put)]
#[tactic(auto, unfolding(core_codec::specs::Code::core_parts), using(crate::specs::Seen::cores_there))]
fn put_sequence(out: &mut Vec<u8>, alloc: Global, room: u32, parts: &[Core]) -> Result<bool, Memory>
    ensures { IfOk result (λ b.
        PutsIf (checked code.are_two (code.core_parts (code.core room))) (cores parts.now) out.old.items out.new.items b) }
{
    if parts.len() < 2 {
        return Ok(false);
    }
    if !put_parts(out, alloc, room, parts)? {
        return Ok(false);
    }
    Ok(true)
}

/// Whether a procedure that is a `lambda` has one case.
#[tactic(auto, using(crate::specs::Seen::count_of_cases))]
fn is_procedure(procedure: &Code) -> bool
    ensures { result ≡ code.is_procedure (procedure.now.number, (procedure.now.cases, procedure.now.plain)) }
{
    if !procedure.plain {
        return true;
    }
    procedure.cases.len() == 1
}

/// A `lambda`, which has one case, or a `case-lambda`.
#[cycle(core_put)]
fn put_code(out: &mut Vec<u8>, alloc: Global, room: u32, procedure: &Code) -> Result<bool, Memory>
    ensures { IfOk result (λ b.
        PutsIf (checked code.is_procedure (code_number then code.cases (code.core room) then spec.bool))
        (procedure.now.number, (procedure.now.cases, procedure.now.plain)) out.old.items out.new.items b) }
{
    if !is_procedure(procedure) {
        return Ok(false);
    }
    if !put_procedure(out, alloc, room, procedure)? {
        return Ok(false);
    }
    Ok(true)
}

/// The number, the cases and the kind of a procedure.
#[cycle(core_put)]
fn put_procedure(
    out: &mut Vec<u8>,
    alloc: Global,
    room: u32,
    procedure: &Code,
) -> Result<bool, Memory>
    ensures { IfOk result (λ b.
        PutsIf (code_number then code.cases (code.core room) then spec.bool)
        (procedure.now.number, (procedure.now.cases, procedure.now.plain)) out.old.items out.new.items b) }
{
    procedure.number.put(out)?;
    if !put_cases(out, alloc, room, &procedure.cases)? {
        return Ok(false);
    }
    put_bool(out, procedure.plain)?;
    Ok(true)
}

/// The variables of a `letrec`, and its body.
#[cycle(core_put)]
fn put_letrec(
    out: &mut Vec<u8>,
    alloc: Global,
    room: u32,
    inits: &[Init],
    body: &Core,
) -> Result<bool, Memory>
    ensures { IfOk result (λ b.
        PutsIf (code.inits (code.core room) then code.core room) (view.inits inits.now, body.now) out.old.items out.new.items b) }
{
    if !put_inits(out, alloc, room, inits)? {
        return Ok(false);
    }
    put_core(out, alloc, room, body)
}

#[cycle(core_put)]
fn put_call(
    out: &mut Vec<u8>,
    alloc: Global,
    room: u32,
    operator: &Core,
    operands: &[Core],
) -> Result<bool, Memory>
    ensures { IfOk result (λ b.
        PutsIf (code.core room then code.core_parts (code.core room)) (operator.now, cores operands.now)
        out.old.items out.new.items b) }
{
    if !put_core(out, alloc, room, operator)? {
        return Ok(false);
    }
    put_parts(out, alloc, room, operands)
}

#[cycle(core_put)]
#[tactic(auto, unfolding(core_codec::specs::Code::core_parts), using(crate::specs::Seen::cores_there))]
fn put_parts(out: &mut Vec<u8>, alloc: Global, room: u32, parts: &[Core]) -> Result<bool, Memory>
    ensures { IfOk result (λ b. PutsIf (code.core_parts (code.core room)) (cores parts.now) out.old.items out.new.items b) }
{
    put_cores(out, alloc, room, parts)
}

#[cycle(core_put)]
fn put_cores(out: &mut Vec<u8>, alloc: Global, room: u32, cores: &[Core]) -> Result<bool, Memory>
    ensures { IfOk result (λ b. PutsIf (listed (code.core room)) cores.now out.old.items out.new.items b) }
{
    put_u64(out, cores.len() as u64)?;
    for core in cores {
        if !put_core(out, alloc, room, core)? {
            return Ok(false);
        }
    }
    Ok(true)
}

#[cycle(core_put)]
#[tactic(auto, unfolding(core_codec::specs::Code::inits), using(crate::specs::Seen::inits_are))]
fn put_inits(out: &mut Vec<u8>, alloc: Global, room: u32, inits: &[Init]) -> Result<bool, Memory>
    ensures { IfOk result (λ b. PutsIf (code.inits (code.core room)) (view.inits inits.now) out.old.items out.new.items b) }
{
    put_all_inits(out, alloc, room, inits)
}

#[cycle(core_put)]
fn put_all_inits(
    out: &mut Vec<u8>,
    alloc: Global,
    room: u32,
    inits: &[Init],
) -> Result<bool, Memory>
    ensures { IfOk result (λ b. PutsIf (listed (label then code.core room)) (map init_part inits.now) out.old.items out.new.items b) }
{
    put_u64(out, inits.len() as u64)?;
    for init in inits {
        if !put_init(out, alloc, room, init)? {
            return Ok(false);
        }
    }
    Ok(true)
}

#[cycle(core_put)]
fn put_init(out: &mut Vec<u8>, alloc: Global, room: u32, init: &Init) -> Result<bool, Memory>
    ensures { IfOk result (λ b. PutsIf (label then code.core room) (init_part init.now) out.old.items out.new.items b) }
{
    init.label.put(out)?;
    put_core(out, alloc, room, &init.value)
}

#[cycle(core_put)]
#[tactic(auto, unfolding(core_codec::specs::Code::cases), using(crate::specs::Seen::cases_are))]
fn put_cases(out: &mut Vec<u8>, alloc: Global, room: u32, cases: &[Lambda]) -> Result<bool, Memory>
    ensures { IfOk result (λ b. PutsIf (code.cases (code.core room)) (view.cases cases.now) out.old.items out.new.items b) }
{
    put_all_cases(out, alloc, room, cases)
}

#[cycle(core_put)]
fn put_all_cases(
    out: &mut Vec<u8>,
    alloc: Global,
    room: u32,
    cases: &[Lambda],
) -> Result<bool, Memory>
    ensures { IfOk result (λ b.
        PutsIf (listed (code.formals then code.core room)) (map case_part cases.now) out.old.items out.new.items b) }
{
    put_u64(out, cases.len() as u64)?;
    for case in cases {
        if !put_case(out, alloc, room, case)? {
            return Ok(false);
        }
    }
    Ok(true)
}

#[cycle(core_put)]
fn put_case(out: &mut Vec<u8>, alloc: Global, room: u32, case: &Lambda) -> Result<bool, Memory>
    ensures { IfOk result (λ b. PutsIf (code.formals then code.core room) (case_part case.now) out.old.items out.new.items b) }
{
    put_formals(out, &case.formals)?;
    put_core(out, alloc, room, &case.body)
}

/// The clauses of a `syntax-case`, and the span of its form.
#[cycle(core_put)]
fn put_matching(
    out: &mut Vec<u8>,
    alloc: Global,
    room: u32,
    clauses: &[Clause],
    span: &Span,
) -> Result<bool, Memory>
    ensures { IfOk result (λ b.
        PutsIf (code.clauses (code.core room) then names.span) (view.clauses clauses.now, span.now) out.old.items out.new.items b) }
{
    if !put_clauses(out, alloc, room, clauses)? {
        return Ok(false);
    }
    span.put(out)?;
    Ok(true)
}

#[cycle(core_put)]
#[tactic(auto, unfolding(core_codec::specs::Code::clauses), using(crate::specs::Seen::clauses_are))]
fn put_clauses(
    out: &mut Vec<u8>,
    alloc: Global,
    room: u32,
    clauses: &[Clause],
) -> Result<bool, Memory>
    ensures { IfOk result (λ b. PutsIf (code.clauses (code.core room)) (view.clauses clauses.now) out.old.items out.new.items b) }
{
    put_all_clauses(out, alloc, room, clauses)
}

#[cycle(core_put)]
fn put_all_clauses(
    out: &mut Vec<u8>,
    alloc: Global,
    room: u32,
    clauses: &[Clause],
) -> Result<bool, Memory>
    ensures { IfOk result (λ b.
        PutsIf (listed (code.pattern 2000 then optional (code.core room) then code.core room)) (map clause_part clauses.now)
        out.old.items out.new.items b) }
{
    put_u64(out, clauses.len() as u64)?;
    for clause in clauses {
        if !put_clause(out, alloc, room, clause)? {
            return Ok(false);
        }
    }
    Ok(true)
}

#[cycle(core_put)]
fn put_clause(out: &mut Vec<u8>, alloc: Global, room: u32, clause: &Clause) -> Result<bool, Memory>
    ensures { IfOk result (λ b.
        PutsIf (code.pattern 2000 then optional (code.core room) then code.core room) (clause_part clause.now)
        out.old.items out.new.items b) }
{
    if !put_pattern(out, alloc, MAX_PATTERN, &clause.pattern)? {
        return Ok(false);
    }
    if !put_fender(out, alloc, room, &clause.fender)? {
        return Ok(false);
    }
    put_core(out, alloc, room, &clause.output)
}

#[cycle(core_put)]
fn put_fender(
    out: &mut Vec<u8>,
    alloc: Global,
    room: u32,
    fender: &Option<Core>,
) -> Result<bool, Memory>
    ensures { IfOk result (λ b. PutsIf (optional (code.core room)) fender.now out.old.items out.new.items b) }
{
    match fender {
        None => {
            out.push(0)?;
            Ok(true)
        }
        Some(fender) => {
            out.push(1)?;
            put_core(out, alloc, room, fender)
        }
    }
}
