//! What evaluations during an expansion need.

use base_data::steps::Steps;
use eval_prims::table::PrimTable;
use eval_stage::earlier::Earlier;
use std::sync::ledger::{Book, Ledger};

/// The records before the library, and the primitives.
#[derive(Drop)]
pub struct Means<'a> {
    pub earlier: Earlier<'a>,
    pub prims: &'a PrimTable,
}

/// What is counted: the nodes of syntax objects that are made, and, in a book, the fuel that evaluations spend.
#[derive(Drop)]
pub struct Counts<'a, N: Ledger, L: Ledger> {
    pub nodes: &'a mut Steps<N>,
    pub book: &'a mut Book<L>,
}
