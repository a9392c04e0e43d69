// A bed: what its task asks of a limit.
ghost use Rattle.std.specs.Prelude.{◌≡◌, ◌≤◌};
ghost use Rattle.tables.specs.Figures.{cost_weight, cost_weights};

use crate::batch::Batch;
use std::array;
use weights::{Cost, Semiring};

// The good batch and the off one, the costs of the symbols, budgets in parts per million, and the range
// of the limit. Weights and costs are lists by themselves, since a table is made of one list of weights.
#[derive(Clone, Copy)]
pub struct Bed {
    pub good: Batch,
    pub off: Batch,
    pub cost: [u16; 3],
    pub false_stops: u32,
    pub catches: u32,
    pub lowest: u32,
    pub highest: u32,
    ghost stops_range: { false_stops ≤ 1000000 },
    ghost catches_range: { catches ≤ 1000000 },
    ghost range: { highest ≤ 1023 },
}

// A symbol's cost, absent where its weight is 0.
fn symbol_cost(weight: u16, cost: u16) -> Cost
    ensures { result ≡ cost_weight weight cost }
{
    if weight == 0 {
        Cost::zero()
    } else {
        Cost::from(cost)
    }
}

impl Bed {
    // The costs of the symbols, absent where the off weight is 0.
    pub(crate) fn costs(&self) -> [Cost; 3]
        ensures { result ≡ cost_weights self.now.off.weights self.now.cost }
    {
        array::from_fn(|i| symbol_cost(self.off.weights[i], self.cost[i]))
    }
}
