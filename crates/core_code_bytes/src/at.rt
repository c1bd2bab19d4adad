//! Reads core code.
//!
//! A forged entry can nest core code 8,192 levels deep, and each level takes the frames of the calls that read it. So an
//! expression is read into the box that is to own it, the bytes that are left are lent, and the calls that read parts answer
//! with little more than whether they could. Larger values are made, and put into their places, by calls that are never
//! inlined. What is held of an expression is given up where the bytes turn out to be no spelling, since a drop walks it by
//! recursion.

ghost use Rattle.std.specs.Prelude.{◌≡◌, ◌∷◌, ◌++◌, [], IfOk, OnOk, map, option_map};
ghost use Rattle.base_bytes.specs.Codec as spec;
ghost use Rattle.base_bytes.specs.Codec.{checked, listed, optional, some_get, ◌then◌};
ghost use Rattle.base_bytes.specs.Names.{code_number, label};
ghost use Rattle.core_codec.specs.Code as code;
ghost use Rattle.core_language.specs.Core.{cores};
ghost use Rattle.core_language.specs.CoreView as view;
ghost use Rattle.core_code_bytes.specs.Seen.{choice, node_cases, held_there, if_read, init_part, case_part, clause_part};

use crate::leaves::{
    bool_in, count_in, formals_in, label_in, number_in, pattern_in, read_instance, read_primitive,
    read_quote, read_reference, span_in,
};
use crate::lists::{
    CaseParts, ClauseParts, FenderAndOutput, InitParts, add_case, add_clause, add_init, add_part,
    list_of,
};
use crate::nodes::{
    Boxed, put_assignment, put_call, put_if, put_lambda, put_letrec, put_matching, put_sequence,
};
use base_bytes::libraries::RecentLibraries;
use base_data::memory::Memory;
use base_data::name::CodeNo;
use base_data::op::Op;
use core_language::code::{Clause, Code, Core, CoreNode, Init, Lambda};
use core_pattern_bytes::held::HeldReading;
use std::alloc::Global;
use std::boxed::Box;
use std::rc::Rc;

/// The core code that the bytes begin with, where it has fewer core expressions round one than the
/// room, and the bytes behind it.
pub fn core_at<'a>(
    libraries: &mut RecentLibraries,
    room: u32,
    bytes: &'a [u8],
) -> Result<Option<(Core, &'a [u8])>, Memory>
    ensures { IfOk result (λ o. option_map (λ x. (x.0, x.1.now)) o ≡ (code.core room).get bytes.now) }
{
    let mut left = bytes;
    match boxed_in(libraries, room, &mut left)? {
        Some(core) => Ok(Some((Box::into_inner(core.take()), left))),
        None => Ok(None),
    }
}

/// A box for an expression that is still to be read.
#[inline(never)]
fn unread(alloc: Global) -> Result<Boxed, Memory> {
    let node = CoreNode::Prim(Op(0));
    Ok(HeldReading::new(Box::new(alloc, Core { node })?))
}

/// A core expression in a box of its own.
#[cycle(core_read)]
fn boxed_in<'a>(
    libraries: &mut RecentLibraries,
    room: u32,
    left: &mut &'a [u8],
) -> Result<Option<Boxed>, Memory>
    ensures { IfOk result (λ o. option_map (λ x. (x.value.value, left.new.now)) o ≡ (code.core room).get left.old.now) }
{
    let mut core = unread(libraries.alloc())?;
    if read(libraries, room, left, &mut core.value)? {
        Ok(Some(core))
    } else {
        Ok(None)
    }
}

/// Reads core code that has fewer core expressions round one than the room.
#[cycle(core_read)]
#[tactic(auto, using(crate::specs::Seen::core_none, crate::specs::Seen::core_more))]
fn read<'a>(
    libraries: &mut RecentLibraries,
    room: u32,
    left: &mut &'a [u8],
    core: &mut Core,
) -> Result<bool, Memory>
    ensures { IfOk result (λ b. if_read b core.new left.new.now ≡ (code.core room).get left.old.now) }
{
    if room == 0 {
        return Ok(false);
    }
    read_node(libraries, room - 1, left, &mut core.node)
}

#[cycle(core_read)]
#[tactic(auto, unfolding(core_codec::specs::Code::core_level), using(crate::specs::Seen::seen_from))]
fn read_node<'a>(
    libraries: &mut RecentLibraries,
    room: u32,
    left: &mut &'a [u8],
    node: &mut CoreNode,
) -> Result<bool, Memory>
    ensures { IfOk result (λ b. if_read b (view.seen node.new) left.new.now ≡ (code.core_level (code.core room)).get left.old.now) }
{
    if read_choice(libraries, room, left, node)? {
        Ok(true)
    } else {
        Ok(false)
    }
}

/// Reads the core expression that a tag and the parts behind it spell.
#[cycle(core_read)]
fn read_choice<'a>(
    libraries: &mut RecentLibraries,
    room: u32,
    left: &mut &'a [u8],
    node: &mut CoreNode,
) -> Result<bool, Memory>
    ensures { IfOk result (λ b. if_read b (node_cases node.new) left.new.now ≡ (choice (code.core room)).get left.old.now) }
{
    let [tag, rest @ ..] = *left else {
        return Ok(false);
    };
    *left = rest;
    match *tag {
        0 => read_quote(libraries, left, node),
        1 => read_reference(libraries, left, node),
        2 => Ok(read_primitive(left, node)),
        3 => read_if(libraries, room, left, node),
        4 => read_assignment(libraries, room, left, node),
        5 => read_sequence(libraries, room, left, node),
        6 => read_lambda(libraries, room, left, node),
        7 => read_letrec(libraries, room, left, node),
        8 => read_call(libraries, room, left, node),
        9 => read_instance(libraries, left, node),
        10 => read_matching(libraries, room, left, node),
        _ => Ok(false),
    }
}

/// Reads the test of an `if`, and what is evaluated where it is true, and where it is false.
#[cycle(core_read)]
#[inline(never)]
fn read_if<'a>(
    libraries: &mut RecentLibraries,
    room: u32,
    left: &mut &'a [u8],
    node: &mut CoreNode,
) -> Result<bool, Memory>
    ensures { IfOk result (λ b. if_read b (node_cases node.new) left.new.now ≡ (choice (code.core room)).get (3 ∷ left.old.now)) }
{
    let Some(test) = boxed_in(libraries, room, left)? else {
        return Ok(false);
    };
    let Some(consequent) = boxed_in(libraries, room, left)? else {
        return Ok(false);
    };
    match other_in(libraries, room, left)? {
        Some(other) => {
            put_if(node, test, consequent, other);
            Ok(true)
        }
        None => Ok(false),
    }
}

#[cycle(core_read)]
fn other_in<'a>(
    libraries: &mut RecentLibraries,
    room: u32,
    left: &mut &'a [u8],
) -> Result<Option<Option<Boxed>>, Memory>
    ensures { IfOk result (λ o. option_map (λ x. (held_there x, left.new.now)) o ≡ (optional (code.core room)).get left.old.now) }
{
    let [tag, rest @ ..] = *left else {
        return Ok(None);
    };
    *left = rest;
    match *tag {
        0 => Ok(Some(None)),
        1 => match boxed_in(libraries, room, left)? {
            Some(core) => Ok(Some(Some(core))),
            None => Ok(None),
        },
        _ => Ok(None),
    }
}

/// Reads the variable of a `set!`, and the expression of its value.
#[cycle(core_read)]
#[inline(never)]
fn read_assignment<'a>(
    libraries: &mut RecentLibraries,
    room: u32,
    left: &mut &'a [u8],
    node: &mut CoreNode,
) -> Result<bool, Memory>
    ensures { IfOk result (λ b. if_read b (node_cases node.new) left.new.now ≡ (choice (code.core room)).get (4 ∷ left.old.now)) }
{
    let Some(label) = label_in(libraries, left)? else {
        return Ok(false);
    };
    match boxed_in(libraries, room, left)? {
        Some(value) => {
            put_assignment(node, label, value);
            Ok(true)
        }
        None => Ok(false),
    }
}

/// Reads the parts of a `begin`, of which there are two or more.
#[cycle(core_read)]
#[inline(never)]
#[tactic(auto, using(crate::specs::Seen::cores_there))]
fn read_sequence<'a>(
    libraries: &mut RecentLibraries,
    room: u32,
    left: &mut &'a [u8],
    node: &mut CoreNode,
) -> Result<bool, Memory>
    ensures { IfOk result (λ b. if_read b (node_cases node.new) left.new.now ≡ (choice (code.core room)).get (5 ∷ left.old.now)) }
{
    let Some(parts) = parts_in(libraries, room, left)? else {
        return Ok(false);
    };
    if parts.value.len() < 2 {
        return Ok(false);
    }
    put_sequence(node, parts);
    Ok(true)
}

/// Reads a `lambda` or a `case-lambda`.
#[cycle(core_read)]
#[inline(never)]
fn read_lambda<'a>(
    libraries: &mut RecentLibraries,
    room: u32,
    left: &mut &'a [u8],
    node: &mut CoreNode,
) -> Result<bool, Memory>
    ensures { IfOk result (λ b. if_read b (node_cases node.new) left.new.now ≡ (choice (code.core room)).get (6 ∷ left.old.now)) }
{
    match procedure_in(libraries, room, left)? {
        Some(procedure) => {
            put_lambda(node, procedure);
            Ok(true)
        }
        None => Ok(false),
    }
}

/// The number, the cases and the kind of a procedure. A `lambda` has one case.
#[cycle(core_read)]
#[tactic(auto, using(crate::specs::Seen::count_of_cases))]
fn procedure_in<'a>(
    libraries: &mut RecentLibraries,
    room: u32,
    left: &mut &'a [u8],
) -> Result<Option<HeldReading<Rc<Code>>>, Memory>
    ensures { IfOk result (λ o. option_map (λ x. ((x.value.value.number, (x.value.value.cases, x.value.value.plain)), left.new.now)) o
        ≡ (checked code.is_procedure (code_number then code.cases (code.core room) then spec.bool)).get left.old.now) }
{
    let Some(number) = number_in(libraries, left)? else {
        return Ok(None);
    };
    let Some(cases) = cases_in(libraries, room, left)? else {
        return Ok(None);
    };
    let Some(plain) = bool_in(left) else {
        return Ok(None);
    };
    if plain && cases.value.len() != 1 {
        return Ok(None);
    }
    let procedure = shared(libraries.alloc(), number, cases, plain)?;
    Ok(Some(procedure))
}

#[inline(never)]
fn shared(
    alloc: Global,
    number: CodeNo,
    cases: HeldReading<Vec<Lambda>>,
    plain: bool,
) -> Result<HeldReading<Rc<Code>>, Memory>
    ensures { IfOk result (λ c. c.value.value ≡ record { number = number; cases = view.cases cases.value.items; plain = plain }) }
{
    let code = Code {
        number,
        cases: cases.take(),
        plain,
    };
    Ok(HeldReading::new(Rc::new(alloc, code)?))
}

/// Reads the kind, the variables and the body of a `letrec` or a `letrec*`.
#[cycle(core_read)]
#[inline(never)]
fn read_letrec<'a>(
    libraries: &mut RecentLibraries,
    room: u32,
    left: &mut &'a [u8],
    node: &mut CoreNode,
) -> Result<bool, Memory>
    ensures { IfOk result (λ b. if_read b (node_cases node.new) left.new.now ≡ (choice (code.core room)).get (7 ∷ left.old.now)) }
{
    let Some(star) = bool_in(left) else {
        return Ok(false);
    };
    let Some(inits) = inits_in(libraries, room, left)? else {
        return Ok(false);
    };
    match boxed_in(libraries, room, left)? {
        Some(body) => {
            put_letrec(node, star, inits, body);
            Ok(true)
        }
        None => Ok(false),
    }
}

/// Reads the operator and the operands of a call.
#[cycle(core_read)]
#[inline(never)]
fn read_call<'a>(
    libraries: &mut RecentLibraries,
    room: u32,
    left: &mut &'a [u8],
    node: &mut CoreNode,
) -> Result<bool, Memory>
    ensures { IfOk result (λ b. if_read b (node_cases node.new) left.new.now ≡ (choice (code.core room)).get (8 ∷ left.old.now)) }
{
    let Some(operator) = boxed_in(libraries, room, left)? else {
        return Ok(false);
    };
    match parts_in(libraries, room, left)? {
        Some(operands) => {
            put_call(node, operator, operands);
            Ok(true)
        }
        None => Ok(false),
    }
}

/// Reads the subject and the clauses of a `syntax-case`, and the span of its form.
#[cycle(core_read)]
#[inline(never)]
fn read_matching<'a>(
    libraries: &mut RecentLibraries,
    room: u32,
    left: &mut &'a [u8],
    node: &mut CoreNode,
) -> Result<bool, Memory>
    ensures { IfOk result (λ b. if_read b (node_cases node.new) left.new.now ≡ (choice (code.core room)).get (10 ∷ left.old.now)) }
{
    let Some(subject) = boxed_in(libraries, room, left)? else {
        return Ok(false);
    };
    let Some(clauses) = clauses_in(libraries, room, left)? else {
        return Ok(false);
    };
    match span_in(libraries, left)? {
        Some(span) => {
            put_matching(node, subject, clauses, span);
            Ok(true)
        }
        None => Ok(false),
    }
}

#[cycle(core_read)]
#[tactic(auto, unfolding(core_codec::specs::Code::core_parts))]
fn parts_in<'a>(
    libraries: &mut RecentLibraries,
    room: u32,
    left: &mut &'a [u8],
) -> Result<Option<HeldReading<Vec<Core>>>, Memory>
    ensures { IfOk result (λ o. option_map (λ x. (cores x.value.items, left.new.now)) o ≡ (code.core_parts (code.core room)).get left.old.now) }
{
    match all_parts_in(libraries, room, left)? {
        Some(parts) => Ok(Some(parts)),
        None => Ok(None),
    }
}

#[cycle(core_read)]
fn all_parts_in<'a>(
    libraries: &mut RecentLibraries,
    room: u32,
    left: &mut &'a [u8],
) -> Result<Option<HeldReading<Vec<Core>>>, Memory>
    ensures { IfOk result (λ o. option_map (λ x. (x.value.items, left.new.now)) o
        ≡ (listed (code.core room)).get left.old.now) }
{
    match count_in(left) {
        Some(count) => some_parts(libraries, room, count, left),
        None => Ok(None),
    }
}

#[cycle(core_read)]
fn some_parts<'a>(
    libraries: &mut RecentLibraries,
    room: u32,
    count: u64,
    left: &mut &'a [u8],
) -> Result<Option<HeldReading<Vec<Core>>>, Memory>
    ensures { IfOk result (λ o. option_map (λ x. (x.value.items, left.new.now)) o
        ≡ some_get (code.core room).get count left.old.now) }
{
    let mut list = list_of(libraries.alloc(), count)?;
    for _ in 0..count {
        let Some(core) = boxed_in(libraries, room, left)? else {
            return Ok(None);
        };
        add_part(&mut list.value, core)?;
    }
    Ok(Some(list))
}

#[cycle(core_read)]
#[tactic(auto, unfolding(core_codec::specs::Code::inits), using(crate::specs::Seen::inits_back))]
fn inits_in<'a>(
    libraries: &mut RecentLibraries,
    room: u32,
    left: &mut &'a [u8],
) -> Result<Option<HeldReading<Vec<Init>>>, Memory>
    ensures { IfOk result (λ o. option_map (λ x. (view.inits x.value.items, left.new.now)) o ≡ (code.inits (code.core room)).get left.old.now) }
{
    match all_inits_in(libraries, room, left)? {
        Some(inits) => Ok(Some(inits)),
        None => Ok(None),
    }
}

#[cycle(core_read)]
fn all_inits_in<'a>(
    libraries: &mut RecentLibraries,
    room: u32,
    left: &mut &'a [u8],
) -> Result<Option<HeldReading<Vec<Init>>>, Memory>
    ensures { IfOk result (λ o. option_map (λ x. (map init_part x.value.items, left.new.now)) o
        ≡ (listed (label then code.core room)).get left.old.now) }
{
    match count_in(left) {
        Some(count) => some_inits(libraries, room, count, left),
        None => Ok(None),
    }
}

#[cycle(core_read)]
#[inline(never)]
fn some_inits<'a>(
    libraries: &mut RecentLibraries,
    room: u32,
    count: u64,
    left: &mut &'a [u8],
) -> Result<Option<HeldReading<Vec<Init>>>, Memory>
    ensures { IfOk result (λ o. option_map (λ x. (map init_part x.value.items, left.new.now)) o
        ≡ some_get (label then code.core room).get count left.old.now) }
{
    let mut list = list_of(libraries.alloc(), count)?;
    for _ in 0..count {
        let Some(init) = init_in(libraries, room, left)? else {
            return Ok(None);
        };
        add_init(&mut list.value, init)?;
    }
    Ok(Some(list))
}

#[cycle(core_read)]
fn init_in<'a>(
    libraries: &mut RecentLibraries,
    room: u32,
    left: &mut &'a [u8],
) -> Result<Option<InitParts>, Memory>
    ensures { IfOk result (λ o. option_map (λ x. ((x.label, x.value.value.value), left.new.now)) o ≡ (label then code.core room).get left.old.now) }
{
    let Some(label) = label_in(libraries, left)? else {
        return Ok(None);
    };
    match boxed_in(libraries, room, left)? {
        Some(value) => Ok(Some(InitParts { label, value })),
        None => Ok(None),
    }
}

#[cycle(core_read)]
#[tactic(auto, unfolding(core_codec::specs::Code::cases), using(crate::specs::Seen::cases_back))]
fn cases_in<'a>(
    libraries: &mut RecentLibraries,
    room: u32,
    left: &mut &'a [u8],
) -> Result<Option<HeldReading<Vec<Lambda>>>, Memory>
    ensures { IfOk result (λ o. option_map (λ x. (view.cases x.value.items, left.new.now)) o ≡ (code.cases (code.core room)).get left.old.now) }
{
    match all_cases_in(libraries, room, left)? {
        Some(cases) => Ok(Some(cases)),
        None => Ok(None),
    }
}

#[cycle(core_read)]
fn all_cases_in<'a>(
    libraries: &mut RecentLibraries,
    room: u32,
    left: &mut &'a [u8],
) -> Result<Option<HeldReading<Vec<Lambda>>>, Memory>
    ensures { IfOk result (λ o. option_map (λ x. (map case_part x.value.items, left.new.now)) o
        ≡ (listed (code.formals then code.core room)).get left.old.now) }
{
    match count_in(left) {
        Some(count) => some_cases(libraries, room, count, left),
        None => Ok(None),
    }
}

#[cycle(core_read)]
fn some_cases<'a>(
    libraries: &mut RecentLibraries,
    room: u32,
    count: u64,
    left: &mut &'a [u8],
) -> Result<Option<HeldReading<Vec<Lambda>>>, Memory>
    ensures { IfOk result (λ o. option_map (λ x. (map case_part x.value.items, left.new.now)) o
        ≡ some_get (code.formals then code.core room).get count left.old.now) }
{
    let mut list = list_of(libraries.alloc(), count)?;
    for _ in 0..count {
        let Some(case) = case_in(libraries, room, left)? else {
            return Ok(None);
        };
        add_case(&mut list.value, case)?;
    }
    Ok(Some(list))
}

#[cycle(core_read)]
fn case_in<'a>(
    libraries: &mut RecentLibraries,
    room: u32,
    left: &mut &'a [u8],
) -> Result<Option<CaseParts>, Memory>
    ensures { IfOk result (λ o. option_map (λ x. ((x.formals.value.value, x.body.value.value), left.new.now)) o
        ≡ (code.formals then code.core room).get left.old.now) }
{
    let Some(formals) = formals_in(libraries, left)? else {
        return Ok(None);
    };
    match boxed_in(libraries, room, left)? {
        Some(body) => Ok(Some(CaseParts { formals, body })),
        None => Ok(None),
    }
}

#[cycle(core_read)]
#[tactic(auto, unfolding(core_codec::specs::Code::clauses), using(crate::specs::Seen::clauses_back))]
fn clauses_in<'a>(
    libraries: &mut RecentLibraries,
    room: u32,
    left: &mut &'a [u8],
) -> Result<Option<HeldReading<Vec<Clause>>>, Memory>
    ensures { IfOk result (λ o. option_map (λ x. (view.clauses x.value.items, left.new.now)) o ≡ (code.clauses (code.core room)).get left.old.now) }
{
    match all_clauses_in(libraries, room, left)? {
        Some(clauses) => Ok(Some(clauses)),
        None => Ok(None),
    }
}

#[cycle(core_read)]
fn all_clauses_in<'a>(
    libraries: &mut RecentLibraries,
    room: u32,
    left: &mut &'a [u8],
) -> Result<Option<HeldReading<Vec<Clause>>>, Memory>
    ensures { IfOk result (λ o. option_map (λ x. (map clause_part x.value.items, left.new.now)) o
        ≡ (listed (code.pattern 2000 then optional (code.core room) then code.core room)).get left.old.now) }
{
    match count_in(left) {
        Some(count) => some_clauses(libraries, room, count, left),
        None => Ok(None),
    }
}

#[cycle(core_read)]
fn some_clauses<'a>(
    libraries: &mut RecentLibraries,
    room: u32,
    count: u64,
    left: &mut &'a [u8],
) -> Result<Option<HeldReading<Vec<Clause>>>, Memory>
    ensures { IfOk result (λ o. option_map (λ x. (map clause_part x.value.items, left.new.now)) o
        ≡ some_get (code.pattern 2000 then optional (code.core room) then code.core room).get count left.old.now) }
{
    let mut list = list_of(libraries.alloc(), count)?;
    for _ in 0..count {
        let Some(clause) = clause_in(libraries, room, left)? else {
            return Ok(None);
        };
        add_clause(&mut list.value, clause)?;
    }
    Ok(Some(list))
}

#[cycle(core_read)]
fn clause_in<'a>(
    libraries: &mut RecentLibraries,
    room: u32,
    left: &mut &'a [u8],
) -> Result<Option<ClauseParts>, Memory>
    ensures { IfOk result (λ o. option_map (λ x. ((x.pattern.value.value, (held_there x.outcome.fender, x.outcome.output.value.value)), left.new.now)) o
        ≡ (code.pattern 2000 then optional (code.core room) then code.core room).get left.old.now) }
{
    let Some(pattern) = pattern_in(libraries, left)? else {
        return Ok(None);
    };
    match outcome_in(libraries, room, left)? {
        Some(outcome) => Ok(Some(ClauseParts { pattern, outcome })),
        None => Ok(None),
    }
}

#[cycle(core_read)]
fn outcome_in<'a>(
    libraries: &mut RecentLibraries,
    room: u32,
    left: &mut &'a [u8],
) -> Result<Option<FenderAndOutput>, Memory>
    ensures { IfOk result (λ o. option_map (λ x. ((held_there x.fender, x.output.value.value), left.new.now)) o
        ≡ (optional (code.core room) then code.core room).get left.old.now) }
{
    let Some(fender) = other_in(libraries, room, left)? else {
        return Ok(None);
    };
    match boxed_in(libraries, room, left)? {
        Some(output) => Ok(Some(FenderAndOutput { fender, output })),
        None => Ok(None),
    }
}
