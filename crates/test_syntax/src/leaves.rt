//! Names by their numbers, and leaves by their marks and stamps.

use base_data::library::LibName;
use base_data::name::{FrameNo, Label, Mark, Name};
use base_data::symbol::Symbol;
use std::alloc::Global;
use std::rc::Rc;
use std::test::Fail;
use stx_object::syn::Syn;
use stx_tree::frame_row::FrameRow;
use stx_tree::marks::Marks;
use stx_tree::stamp::Stamp;

pub fn number(text: &str) -> Result<u64, Fail> {
    Ok(text.parse::<u64>().ok().ok_or("no number")?)
}

fn name(library: &Rc<LibName>, text: &str) -> Result<Name, Fail> {
    let number = number(text)?;
    let library = library.clone()?;
    Ok(Name { library, number })
}

pub fn frame(library: &Rc<LibName>, text: &str) -> Result<FrameNo, Fail> {
    Ok(FrameNo(name(library, text)?))
}

pub fn label(library: &Rc<LibName>, text: &str) -> Result<Label, Fail> {
    Ok(Label(name(library, text)?))
}

fn marks(alloc: Global, library: &Rc<LibName>, text: &str) -> Result<Marks, Fail> {
    let mut list = Vec::new(alloc);
    for spelt in text.split(".") {
        if !spelt.is_empty() {
            list.push(Mark(name(library, spelt)?))?;
        }
    }
    Ok(Marks::from_vec(alloc, list)?)
}

fn stamp(alloc: Global, library: &Rc<LibName>, text: &str) -> Result<Stamp, Fail> {
    let (number, numbers) = text.split_once(".").unwrap_or((text, ""));
    let frame = frame(library, number)?;
    let marks = marks(alloc, library, numbers)?;
    Ok(Stamp { frame, marks })
}

fn stamps(alloc: Global, library: &Rc<LibName>, text: &str) -> Result<Vec<Stamp>, Fail> {
    let mut stamps = Vec::new(alloc);
    for spelt in text.split(",") {
        if !spelt.is_empty() {
            stamps.push(stamp(alloc, library, spelt)?)?;
        }
    }
    Ok(stamps)
}

/// The leaf `SYMBOL.MARKS@STAMPS`.
pub fn leaf(alloc: Global, library: &Rc<LibName>, text: &str) -> Result<Syn, Fail> {
    let (id, frames) = text.split_once("@").unwrap_or((text, ""));
    let (symbol, numbers) = id.split_once(".").unwrap_or((id, ""));
    let symbol = Symbol::new(alloc, symbol)?;
    let marks = marks(alloc, library, numbers)?;
    let stamps = stamps(alloc, library, frames)?;
    Ok(Syn::whole_leaf(alloc, None, &symbol, marks, stamps)?)
}

/// The row `FRAME SYMBOL LABEL`, without marks.
pub fn row(alloc: Global, library: &Rc<LibName>, text: &str) -> Result<FrameRow, Fail> {
    let (at, rest) = text.split_once(" ").ok_or("no symbol")?;
    let (symbol, number) = rest.split_once(" ").ok_or("no label")?;
    Ok(FrameRow {
        frame: frame(library, at)?,
        symbol: Symbol::new(alloc, symbol)?,
        marks: Marks::new(alloc),
        label: label(library, number)?,
    })
}
