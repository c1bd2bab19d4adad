//! The cost of instances.

ghost use Rattle.std.specs.Prelude.{◌≡◌, drop, IfOk};
ghost use Rattle.eval_template.specs.Cost.{cell_cost, cost};

use base_data::memory::Memory;
use base_region::region::{Place, Region};
use eval_value::cell::{Cell, cell_at};

fn cell_cost(cell: &Cell) -> u64
    ensures { result ≡ cell_cost cell.now }
{
    match cell {
        Cell::Pair(_, _) => 1,
        Cell::Vector(elements) => elements.as_slice().len() as u64,
        _ => 0,
    }
}

/// The cost of an instance, from the cells that it added, which begin at a place: 1 for each pair and for
/// each element of a vector.
#[tactic(auto, using(crate::proofs::Costs::cost_here, crate::proofs::Costs::cost_end))]
pub fn cost(cells: &Region<Cell>, from: u64) -> Result<u64, Memory>
    ensures { IfOk result (λ n. n ≡ cost (drop from cells.now.list)) }
{
    let mut sum = 0u64;
    let mut at = from;
    while let Some(cell) = cell_at(cells, Place(at)) {
        let Some(more) = sum.checked_add(cell_cost(cell)) else {
            return Err(Memory);
        };
        let Some(next) = at.checked_add(1) else {
            return Err(Memory);
        };
        sum = more;
        at = next;
    }
    Ok(sum)
}
