//! The frames of a library that is complete, which others share.

ghost use Rattle.std.specs.Prelude.{◌≡◌, [], IfOk};
ghost use Rattle.stx_frames.specs.Given.{are_rows_of};
ghost use Rattle.stx_frames.specs.Scope.{adopted};

use crate::frames::FrameMap;
use base_data::library::LibName;
use base_data::memory::Memory;
use std::alloc::Global;
use std::marker::Model;
use std::rc::Rc;
use stx_tree::frame_row::FrameRow;

/// A library that is complete and its frames, in tables that are made once for all that need it.
#[derive(Drop)]
pub struct GivenFrames {
    pub(crate) library: Rc<LibName>,
    pub(crate) frames: Rc<FrameMap>,
}

impl Model for GivenFrames {
    ghost use Rattle.stx_frames.specs.Given.{AreOf, Part, part_code};

    ghost Value = { Part };

    ghost coded = { part_code };

    ghost view = { λ g. (g.library.value, g.frames.value) };

    ghost invariant = { λ g. AreOf g.library.value g.frames.value };
}

/// Whether each row is of a frame of the library.
fn are_rows_of(library: &LibName, rows: &[FrameRow]) -> bool
    ensures { result ≡ are_rows_of library.now rows.now }
{
    for row in rows {
        if *row.frame.0.library != *library {
            return false;
        }
    }
    true
}

impl GivenFrames {
    /// The frames that the rows of a library make. Rows of frames that are not the library's are refused as
    /// want of memory is, and so are two rows with one frame, symbol and marks.
    pub fn new(
        alloc: Global,
        library: Rc<LibName>,
        rows: &[FrameRow],
    ) -> Result<GivenFrames, Memory>
        ensures { IfOk result (λ g. g ≡ (library.value, adopted [] rows.now)) }
    {
        if !are_rows_of(&library, rows) {
            return Err(Memory);
        }
        let mut frames = FrameMap::new(alloc);
        frames.adopt(rows)?;
        let frames = Rc::new(alloc, frames)?;
        Ok(GivenFrames { library, frames })
    }
}
