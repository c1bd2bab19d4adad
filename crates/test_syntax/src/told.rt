//! Names by their numbers, and whether marks and stamps are those of a row.

use base_data::library::LibName;
use base_data::memory::Memory;
use base_data::name::{FrameNo, Mark, Name};
use std::alloc::Global;
use std::rc::Rc;
use stx_tree::marks::Marks;
use stx_tree::stamp::Stamp;

/// A frame and the marks at stamping, by their numbers.
pub type Stamped<'a> = (u64, &'a [u64]);

fn name(alloc: Global, number: u64) -> Result<Name, Memory> {
    let library = Rc::new(alloc, LibName::Program)?;
    Ok(Name { library, number })
}

pub fn mark(alloc: Global, number: u64) -> Result<Mark, Memory> {
    Ok(Mark(name(alloc, number)?))
}

pub fn frame(alloc: Global, number: u64) -> Result<FrameNo, Memory> {
    Ok(FrameNo(name(alloc, number)?))
}

fn are_marks(marks: &[Mark], numbers: &[u64]) -> bool {
    for (mark, number) in marks.iter().zip(numbers) {
        if mark.0.number != *number {
            return false;
        }
    }
    marks.len() == numbers.len()
}

pub fn has_marks(alloc: Global, marks: &Marks, numbers: &[u64]) -> Result<bool, Memory> {
    let marks = marks.to_vec(alloc)?;
    Ok(are_marks(marks.as_slice(), numbers))
}

fn is_stamp(alloc: Global, stamp: &Stamp, row: &Stamped) -> Result<bool, Memory> {
    if stamp.frame.0.number != row.0 {
        return Ok(false);
    }
    has_marks(alloc, &stamp.marks, row.1)
}

pub fn are_stamps(alloc: Global, stamps: &[Stamp], rows: &[Stamped]) -> Result<bool, Memory> {
    for (stamp, row) in stamps.iter().zip(rows) {
        if !is_stamp(alloc, stamp, row)? {
            return Ok(false);
        }
    }
    Ok(stamps.len() == rows.len())
}
