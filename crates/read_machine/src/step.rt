//! What a token makes of what is open.

ghost use Rattle.std.specs.Prelude.{◌≡◌, [], ◌∷◌, Ok, IfOk};
ghost use Rattle.base_data.specs.Gives.{Gives, StopsWith};
ghost use Rattle.read_machine.specs.Extent.{fault_at, span_at, through};
ghost use Rattle.read_machine.specs.Form.{byte_of, joined};
ghost use Rattle.read_machine.specs.Step.{list_with, bytes_with, deliver, tail_of, ended, closed, nested, opened, opened_bytes, dot_in, dotted, step, finish};

use crate::context::SourceContext;
use crate::extent::{Extent, fault_at, span_at};
use crate::form::{abbreviated, byte_of, bytevector, constant, exact, joined, named, nil, vector};
use crate::partial::{OpenParts, OpenTail, Partial, ReaderState};
use base_data::datum::Datum;
use base_data::fault::{FaultKind, Stop};
use base_data::items::Items;
use base_data::memory::Memory;
use read_lexer::token::{Bracket, Lexeme, Token};

/// The state after one more token. A fault is at the token, but
/// where a dot isn't before the last datum of its list it is at that dot.
pub fn step(
    context: &SourceContext,
    mut state: ReaderState,
    lexeme: Lexeme,
) -> Result<ReaderState, Stop>
    ensures { Gives (λ s. s) result (step context.now.file.now context.now.nesting state lexeme) }
{
    match stepped(context, &mut state, lexeme) {
        Ok(()) => Ok(state),
        Err(stop) => Err(stop),
    }
}

// The same in place. What owned the state would drop it wherever it stops.
fn stepped(context: &SourceContext, state: &mut ReaderState, lexeme: Lexeme) -> Result<(), Stop>
    ensures { Gives (λ _. state.new) result (step context.now.file.now context.now.nesting state.old lexeme) }
{
    let Lexeme { token, from, to } = lexeme;
    let at = Extent { from, to };
    match token {
        Token::Open(bracket) => {
            let parts = OpenParts::List(bracket, Items::new(context.alloc), OpenTail::Absent);
            opened(context, state, parts, at)
        }
        Token::Close(bracket) => closed(context, state, bracket, at),
        Token::OpenVector => {
            let parts = OpenParts::Vector(Items::new(context.alloc));
            opened(context, state, parts, at)
        }
        Token::OpenBytes => opened_bytes(context, state, at),
        Token::Abbreviation(kind) => { opened(context, state, OpenParts::Abbreviation(kind), at) }
        Token::SkipDatum => nested(context, state, OpenParts::Skipped, at),
        Token::Dot => dotted(context, state, at),
        Token::Atom(value) => {
            let datum = constant(context.file, value, at)?;
            deliver(context, state, datum, at)
        }
        Token::Symbol(name) => {
            let datum = named(context.file, name, at)?;
            deliver(context, state, datum, at)
        }
    }
}

/// The data, where the source ends. Where a form is open it is a fault at the innermost opening.
pub fn finish(context: &SourceContext, mut state: ReaderState) -> Result<Vec<Datum>, Stop>
    ensures { Gives (λ v. v.items) result (finish context.now.file.now state.stack state.done) }
{
    match state.stack.pop() {
        None => Ok(exact(state.done)),
        Some(form) => Err(stop_at(context, FaultKind::Unclosed, form.opening)),
    }
}

/// A form other than a comment is opened that counts.
fn opened(
    context: &SourceContext,
    state: &mut ReaderState,
    parts: OpenParts,
    at: Extent,
) -> Result<(), Stop>
    ensures { Gives (λ _. state.new) result (opened context.now.file.now context.now.nesting state.old parts at) }
{
    if let Some(wrong) = state.stack.misplaced(at) {
        return Err(stop_at(context, wrong.kind, wrong.at));
    }
    nested(context, state, parts, at)
}

/// A form is opened that counts one of nesting.
fn nested(
    context: &SourceContext,
    state: &mut ReaderState,
    parts: OpenParts,
    at: Extent,
) -> Result<(), Stop>
    ensures { Gives (λ _. state.new) result (nested context.now.file.now context.now.nesting state.old parts at) }
{
    let room = state.stack.room(context.nesting);
    if room == 0 {
        return Err(stop_at(context, FaultKind::TooNested, at));
    }
    let room = room - 1;
    let opening = at;
    state.stack.push(Partial {
        opening,
        room,
        parts,
    })?;
    Ok(())
}

/// A bytevector is opened. It doesn't count as nesting, since no form stands in it.
fn opened_bytes(context: &SourceContext, state: &mut ReaderState, at: Extent) -> Result<(), Stop>
    ensures { Gives (λ _. state.new) result (opened_bytes context.now.file.now context.now.nesting state.old at) }
{
    if let Some(wrong) = state.stack.misplaced(at) {
        return Err(stop_at(context, wrong.kind, wrong.at));
    }
    let room = state.stack.room(context.nesting);
    let opening = at;
    let parts = OpenParts::Bytes(Items::new(context.alloc));
    state.stack.push(Partial {
        opening,
        room,
        parts,
    })?;
    Ok(())
}

/// A datum is complete: it goes into what is open, and may complete abbreviations there.
fn deliver(
    context: &SourceContext,
    state: &mut ReaderState,
    mut datum: Datum,
    mut at: Extent,
) -> Result<(), Stop>
    ensures { Gives (λ _. state.new) result (deliver context.now.file.now state.old.stack state.old.done datum at) }
{
    loop {
        let Some(form) = state.stack.pop() else {
            state.done.push(datum)?;
            return Ok(());
        };
        let Partial {
            opening,
            room,
            parts,
        } = form;
        match parts {
            OpenParts::List(bracket, items, tail) => {
                let parts = list_with(context, bracket, items, tail, datum)?;
                state.stack.push(Partial {
                    opening,
                    room,
                    parts,
                })?;
                return Ok(());
            }
            OpenParts::Vector(mut items) => {
                items.push(datum)?;
                let parts = OpenParts::Vector(items);
                state.stack.push(Partial {
                    opening,
                    room,
                    parts,
                })?;
                return Ok(());
            }
            OpenParts::Bytes(bytes) => {
                let byte = byte_of(&datum);
                drop(datum);
                let parts = bytes_with(context, bytes, byte, at)?;
                state.stack.push(Partial {
                    opening,
                    room,
                    parts,
                })?;
                return Ok(());
            }
            OpenParts::Abbreviation(kind) => {
                let all = through(opening, at);
                datum = abbreviated(context, kind, opening, datum, all)?;
                at = all;
            }
            OpenParts::Skipped => return Ok(()),
        }
    }
}

/// The stop that a fault at these bytes is. No call that owns an open form makes a fault itself.
fn stop_at(context: &SourceContext, kind: FaultKind, at: Extent) -> Stop
    ensures { StopsWith result (fault_at context.now.file.now kind at) }
{
    match fault_at(context.alloc, context.file, kind, at) {
        Ok(fault) => Stop::Fault(fault),
        Err(memory) => Stop::from(memory),
    }
}

/// From where one begins to where the other ends.
fn through(first: Extent, last: Extent) -> Extent
    ensures { result ≡ through first last }
{
    let from = first.from;
    let to = last.to;
    Extent { from, to }
}

/// An open list with one more datum.
fn list_with(
    context: &SourceContext,
    bracket: Bracket,
    mut items: Items<Datum>,
    tail: OpenTail,
    datum: Datum,
) -> Result<OpenParts, Stop>
    ensures { Gives (λ p. p) result (list_with context.now.file.now bracket items tail datum) }
{
    match tail {
        OpenTail::Absent => {
            items.push(datum)?;
            Ok(OpenParts::List(bracket, items, OpenTail::Absent))
        }
        OpenTail::Dotted(dot) => Ok(OpenParts::List(bracket, items, OpenTail::Given(dot, datum))),
        OpenTail::Given(dot, _) => Err(stop_at(context, FaultKind::BadDot, dot)),
    }
}

/// An open bytevector with one more element.
fn bytes_with(
    context: &SourceContext,
    mut bytes: Items<u8>,
    byte: Option<u8>,
    at: Extent,
) -> Result<OpenParts, Stop>
    ensures { Gives (λ p. p) result (bytes_with context.now.file.now bytes byte at) }
{
    match byte {
        Some(byte) => {
            bytes.push(byte)?;
            Ok(OpenParts::Bytes(bytes))
        }
        None => Err(stop_at(context, FaultKind::BadNumber, at)),
    }
}

fn closed(
    context: &SourceContext,
    state: &mut ReaderState,
    bracket: Bracket,
    at: Extent,
) -> Result<(), Stop>
    ensures { Gives (λ _. state.new) result (closed context.now.file.now state.old.stack state.old.done bracket at) }
{
    let Some(form) = state.stack.pop() else {
        return Err(stop_at(context, FaultKind::StrayClose, at));
    };
    let all = through(form.opening, at);
    let datum = ended(context, form.parts, bracket, at, all)?;
    deliver(context, state, datum, all)
}

/// The datum that a close ends. The close stands at `at`, the datum at `all`.
fn ended(
    context: &SourceContext,
    parts: OpenParts,
    bracket: Bracket,
    at: Extent,
    all: Extent,
) -> Result<Datum, Stop>
    ensures { Gives (λ d. d) result (ended context.now.file.now parts bracket at all) }
{
    match parts {
        OpenParts::List(opened_by, items, tail) => {
            let tail = tail_of(context, tail)?;
            if bracket == opened_by {
                Ok(list_ended(context, items, tail, all)?)
            } else {
                Err(stop_at(context, FaultKind::StrayClose, at))
            }
        }
        OpenParts::Vector(items) => {
            if bracket == Bracket::Round {
                Ok(vector(context.file, items, all)?)
            } else {
                Err(stop_at(context, FaultKind::StrayClose, at))
            }
        }
        OpenParts::Bytes(bytes) => {
            if bracket == Bracket::Round {
                Ok(bytevector(context.file, bytes, all)?)
            } else {
                Err(stop_at(context, FaultKind::StrayClose, at))
            }
        }
        OpenParts::Abbreviation(_) => Err(stop_at(context, FaultKind::StrayClose, at)),
        OpenParts::Skipped => Err(stop_at(context, FaultKind::StrayClose, at)),
    }
}

/// A list that ends here, with the span of all of it.
fn list_ended(
    context: &SourceContext,
    items: Items<Datum>,
    tail: Datum,
    all: Extent,
) -> Result<Datum, Memory>
    ensures { IfOk result (λ d. d ≡ joined (span_at context.now.file.now all) items tail) }
{
    let span = span_at(context.file, all)?;
    joined(context.alloc, span, items, tail)
}

/// The tail of a list that ends here.
fn tail_of(context: &SourceContext, tail: OpenTail) -> Result<Datum, Stop>
    ensures { Gives (λ d. d) result (tail_of context.now.file.now tail) }
{
    match tail {
        OpenTail::Absent => Ok(nil()),
        OpenTail::Dotted(dot) => Err(stop_at(context, FaultKind::BadDot, dot)),
        OpenTail::Given(_, datum) => Ok(datum),
    }
}

fn dotted(context: &SourceContext, state: &mut ReaderState, at: Extent) -> Result<(), Stop>
    ensures { Gives (λ _. state.new) result (dotted context.now.file.now state.old.stack state.old.done at) }
{
    let Some(form) = state.stack.pop() else {
        return Err(stop_at(context, FaultKind::BadDot, at));
    };
    let Partial {
        opening,
        room,
        parts,
    } = form;
    match parts {
        OpenParts::List(bracket, items, tail) => {
            let tail = dot_in(context, &items, tail, at)?;
            let parts = OpenParts::List(bracket, items, tail);
            state.stack.push(Partial {
                opening,
                room,
                parts,
            })?;
            Ok(())
        }
        _ => Err(stop_at(context, FaultKind::BadDot, at)),
    }
}

/// What stands behind the elements of an open list, once a dot comes there.
fn dot_in(
    context: &SourceContext,
    items: &Items<Datum>,
    tail: OpenTail,
    at: Extent,
) -> Result<OpenTail, Stop>
    ensures { Gives (λ t. t) result (dot_in context.now.file.now items.now tail at) }
{
    match tail {
        OpenTail::Absent => {
            if items.as_slice().is_empty() {
                return Err(stop_at(context, FaultKind::BadDot, at));
            }
            Ok(OpenTail::Dotted(at))
        }
        OpenTail::Dotted(dot) => Err(stop_at(context, FaultKind::BadDot, dot)),
        OpenTail::Given(dot, _) => Err(stop_at(context, FaultKind::BadDot, dot)),
    }
}
