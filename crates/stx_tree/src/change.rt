//! Changes of all leaves of a tree at once (Dybvig, Hieb and Bruggeman 1992).

ghost use Rattle.std.specs.Prelude.{◌≡◌, IfOk};

use base_data::memory::Memory;
use base_data::name::{FrameNo, Mark};

/// One change.
#[derive(Drop)]
pub enum Change {
    /// Puts the mark before the marks.
    Enter(Mark),
    /// Takes the mark away where it is the first; else puts it before the marks and then, where a
    /// frame is given, stamps.
    Leave(Mark, Option<FrameNo>),
    /// Puts the frame with the marks before the stamps.
    Stamp(FrameNo),
}

/// Another owner of the same frame, where there is one.
fn share_frame(frame: &Option<FrameNo>) -> Result<Option<FrameNo>, Memory>
    ensures { IfOk result (λ f. f ≡ frame.now) }
{
    match frame {
        None => Ok(None),
        Some(frame) => Ok(Some(frame.share()?)),
    }
}

impl Change {
    /// Another owner of the same change.
    pub fn share(&self) -> Result<Change, Memory>
        ensures { IfOk result (λ c. c ≡ self.now) }
    {
        match self {
            Change::Enter(mark) => Ok(Change::Enter(mark.share()?)),
            Change::Leave(mark, frame) => {
                let mark = mark.share()?;
                let frame = share_frame(frame)?;
                Ok(Change::Leave(mark, frame))
            }
            Change::Stamp(frame) => Ok(Change::Stamp(frame.share()?)),
        }
    }
}
