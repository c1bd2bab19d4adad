//! The frame in which the identifiers that record forms introduce stand for the names of the implementation.

ghost use Rattle.std.specs.Prelude.{◌≡◌, ◌<◌, IfOk};
ghost use Rattle.base_data.specs.Op.{op_text};
ghost use Rattle.core_records.specs.Frame.{core_row, rows_for, record_frame};

use crate::introduced::core_frame;
use base_data::library::LibName;
use base_data::memory::Memory;
use base_data::name::{Label, Name};
use base_data::op::{NAME_COUNT, Op, names, op_text};
use base_data::symbol::Symbol;
use std::alloc::Global;
use std::rc::Rc;
use stx_tree::frame_row::FrameRow;
use stx_tree::marks::Marks;

/// The numbers of the names that record forms introduce.
pub const INTRODUCED: [u16; 18] = [
    names::QUOTE,
    names::LAMBDA,
    names::BEGIN,
    names::DEFINE,
    names::DEFINE_SYNTAX,
    names::UNDERSCORE,
    names::SYNTAX_CASE,
    names::SYNTAX,
    names::MAKE_RECORD_TYPE_DESCRIPTOR,
    names::MAKE_RECORD_CONSTRUCTOR_DESCRIPTOR,
    names::RECORD_CONSTRUCTOR,
    names::RECORD_PREDICATE,
    names::RECORD_ACCESSOR,
    names::RECORD_MUTATOR,
    names::RECORD_TYPE_DESCRIPTOR,
    names::RECORD_CONSTRUCTOR_DESCRIPTOR,
    names::MUTABLE,
    names::IMMUTABLE,
];

// The name with this number; past the last there is none.
fn name_text(number: u16) -> &'static str
    ensures { result.now ≡ op_text number }
{
    if number < NAME_COUNT {
        op_text(&Op(number))
    } else {
        ""
    }
}

/// A name of the implementation, under no marks.
fn core_row(alloc: Global, number: u16) -> Result<FrameRow, Memory>
    ensures { IfOk result (λ r. r ≡ core_row number) }
{
    let frame = core_frame(alloc)?;
    let symbol = Symbol::new(alloc, name_text(number))?;
    let library = Rc::new(alloc, LibName::Core)?;
    let label = Label(Name {
        library,
        number: u64::from(number),
    });
    Ok(FrameRow {
        frame,
        symbol,
        marks: Marks::new(alloc),
        label,
    })
}

#[tactic(auto, unfolding(crate::specs::Frame::rows_for))]
fn rows_for(alloc: Global, numbers: &[u16]) -> Result<Vec<FrameRow>, Memory>
    ensures { IfOk result (λ rs. rs.items ≡ rows_for numbers.now) }
{
    let mut rows = Vec::new(alloc);
    for number in numbers {
        let row = core_row(alloc, *number)?;
        rows.push(row)?;
    }
    Ok(rows)
}

/// The rows of the frame, which every expansion adopts, in the order of the names' numbers.
#[tactic(auto, unfolding(crate::specs::Frame::record_frame))]
pub fn record_frame(alloc: Global) -> Result<Vec<FrameRow>, Memory>
    ensures { IfOk result (λ rs. rs.items ≡ record_frame) }
{
    rows_for(alloc, &INTRODUCED)
}
