//! What a run counts.

use base_fuel::fuel::Fuel;
use expand_standing::means::Counts;
use std::sync::ledger::Ledger;

/// What all expansions of a run count, and the fuel that they have spent, one after another.
#[derive(Drop)]
pub struct Tally<'a, N: Ledger, L: Ledger> {
    pub counts: Counts<'a, N, L>,
    pub fuel: Fuel<L>,
}
