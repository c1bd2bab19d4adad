//! What an evaluation on a stage is asked with.

use crate::earlier::Earlier;
use base_data::span::Span;
use eval_prims::table::PrimTable;

/// The records before the library, the primitives, and the place at which faults of evaluation stand.
#[derive(Drop)]
pub struct StageContext<'a> {
    pub earlier: Earlier<'a>,
    pub prims: &'a PrimTable,
    pub place: &'a Span,
}
