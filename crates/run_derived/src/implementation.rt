//! What the implementation gives to each expansion of a run.

use eval_prims::table::PrimTable;
use run_prelude::prelude::Prelude;

/// The procedures of the implementation: those that are texts, by their codes, and the primitives, which are computed.
#[derive(Drop)]
pub struct Implementation<'a> {
    pub prelude: Prelude,
    pub primitives: &'a PrimTable,
}
