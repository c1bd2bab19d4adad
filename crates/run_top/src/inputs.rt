//! Where a run reads.

/// The files of a run, and the store of what earlier runs made.
#[derive(Drop)]
pub struct Inputs<F, S> {
    pub files: F,
    pub store: S,
}
