use crate::leaves::{frame, label, leaf, number, row};
use crate::steps::FAR;
use base_data::fault::BareStop;
use base_data::library::LibName;
use base_data::name::Label;
use std::alloc::Global;
use std::fmt::Write;
use std::rc::Rc;
use std::test::Fail;
use stx_object::syn::Syn;
use stx_scope::scope::Frames;

fn added(library: &Rc<LibName>, frames: &mut Frames, at: &str) -> Result<bool, Fail> {
    let at = frame(library, at)?;
    if frames.has_frame(&at) {
        return Ok(false);
    }
    frames.new_frame(at)?;
    Ok(true)
}

fn adopted(
    alloc: Global,
    library: &Rc<LibName>,
    frames: &mut Frames,
    words: &str,
) -> Result<bool, Fail> {
    let mut rows = Vec::new(alloc);
    rows.push(row(alloc, library, words)?)?;
    if !frames.are_new(rows.as_slice()) {
        return Ok(false);
    }
    frames.adopt(rows.as_slice())?;
    Ok(true)
}

fn bound(
    alloc: Global,
    library: &Rc<LibName>,
    frames: &mut Frames,
    words: &str,
) -> Result<&'static str, Fail> {
    let (at, rest) = words.split_once(" ").ok_or("no leaf")?;
    let (id, number) = rest.split_once(" ").ok_or("no label")?;
    let id = leaf(alloc, library, id)?;
    let label = label(library, number)?;
    match frames.bind(frame(library, at)?, &id, label) {
        Ok(()) => Ok("bound"),
        Err(BareStop::Fault(fault)) => Ok(fault.kind.name()),
        Err(BareStop::Memory) => Ok("refused"),
    }
}

fn number_of(label: Option<Label>) -> u64 {
    match label {
        Some(label) => label.0.number,
        None => 0,
    }
}

// What a leaf stands for, where it is the same with and without the memo.
fn found(frames: &mut Frames, id: &Syn) -> Result<u64, Fail> {
    let kept = number_of(frames.stands_kept(id)?);
    if kept == number_of(frames.stands(id)?) {
        return Ok(kept);
    }
    Err("a remembered answer shows".into())
}

fn told_rows(alloc: Global, library: &Rc<LibName>, frames: &Frames) -> Result<String, Fail> {
    let mut out = String::new(alloc);
    for row in &frames.rows(library)? {
        if !out.is_empty() {
            out.push_str(", ")?;
        }
        let at = row.frame.0.number;
        let number = row.label.0.number;
        write!(out, "{at} {} {number}", row.symbol.as_str())?;
    }
    if out.is_empty() {
        out.push_str("none")?;
    }
    Ok(out)
}

// Whether the leaf of the turns stands for a label, each time before x is bound with a mark of its own.
fn turned(
    alloc: Global,
    library: &Rc<LibName>,
    frames: &mut Frames,
    words: &str,
) -> Result<bool, Fail> {
    let (from, rest) = words.split_once(" ").ok_or("no end")?;
    let (to, expected) = rest.split_once(" ").ok_or("no label")?;
    let expected = number(expected)?;
    let id = leaf(alloc, library, FAR)?;
    for turn in number(from)?..number(to)? {
        if found(frames, &id)? != expected {
            return Ok(false);
        }
        let words = format!(in alloc; "20 x.{turn} {turn}")?;
        bound(alloc, library, frames, words.as_str())?;
    }
    Ok(true)
}

/// What comes of a step.
pub fn step(
    alloc: Global,
    library: &Rc<LibName>,
    frames: &mut Frames,
    verb: &str,
    words: &str,
) -> Result<String, Fail> {
    match verb {
        "frame" => Ok(format!(in alloc; "{}", added(library, frames, words)?)?),
        "adopt" => Ok(format!(in alloc; "{}", adopted(alloc, library, frames, words)?)?),
        "bind" => Ok(format!(in alloc; "{}", bound(alloc, library, frames, words)?)?),
        "find" => {
            let id = leaf(alloc, library, words)?;
            Ok(format!(in alloc; "{}", found(frames, &id)?)?)
        }
        "rows" => told_rows(alloc, library, frames),
        _ => Ok(format!(in alloc; "{}", turned(alloc, library, frames, words)?)?),
    }
}
