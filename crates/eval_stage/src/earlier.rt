//! The records before a library.

ghost use Rattle.std.specs.Prelude.{◌≡◌};
ghost use Rattle.eval_stage.specs.Libraries.{is_marked};

use core_language::record::CompiledLibrary;

/// The records of a run that are marked, in the order of loading. Those beyond the marks are not.
#[derive(Drop)]
pub struct Earlier<'a> {
    pub records: &'a [CompiledLibrary],
    pub needs: &'a [bool],
}

/// Whether a place is marked.
pub(crate) fn is_marked(needs: &[bool], place: usize) -> bool
    ensures { result ≡ is_marked needs.now place }
{
    if place < needs.len() {
        needs[place]
    } else {
        false
    }
}
