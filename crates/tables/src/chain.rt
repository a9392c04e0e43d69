// A chart at one limit and the weights of its symbols: the chain of states that a table is made of.
ghost use Rattle.std.specs.Prelude.{◌≡◌, ◌<◌, ◌≤◌, length, MatchResult};
ghost use Rattle.tables.specs.declared.refusal.Refusal.TheVariants.{NoStates};

use crate::refusal::Refusal;
use charts::Chart;
use std::alloc::AllocError;
use weights::Semiring;

// A chart at a limit where it has states, and a weight for each of its first symbols, at most 16. It is
// passed by value, so that nothing of it has to be read again after a cell of a row was written.
pub(crate) struct Chain<'a, C: Chart, S: Semiring> {
    pub(crate) chart: &'a C,
    pub(crate) limit: u32,
    pub(crate) weights: &'a [S],
    // its state count
    pub(crate) count: u32,
    ghost counted: { count ≡ (C.Chart.meaning chart.now).count limit },
    ghost some: { 0 < count },
    ghost few: { length weights.now ≤ 16 },
}

impl<C: Chart, S: Semiring> Clone for Chain<'_, C, S> {
    ghost is_clone = { λ x y. y ≡ x };

    ghost is_infallible = { λ _. Unit {0} };

    fn clone(&self) -> Result<Self, AllocError> {
        Ok(*self)
    }
}

impl<C: Chart, S: Semiring> Copy for Chain<'_, C, S> {}

impl<'a, C: Chart, S: Semiring> Chain<'a, C, S> {
    // Refuses a chart without states at the limit.
    pub(crate) fn new(
        chart: &'a C,
        limit: u32,
        weights: &'a [S],
    ) -> Result<Chain<'a, C, S>, Refusal>
        requires { length weights.now ≤ 16 }
        ensures { MatchResult result
            (λ c. (c.chart.now ≡ chart.now) × (c.limit ≡ limit) × (c.weights.now ≡ weights.now))
            (λ e. (e ≡ NoStates) × ((C.Chart.meaning chart.now).count limit ≡ 0)) }
    {
        let count = chart.count(limit);
        if count == 0 {
            return Err(Refusal::NoStates);
        }
        Ok(Chain {
            chart,
            limit,
            weights,
            count,
        })
    }

    // The start state.
    pub(crate) fn start(self) -> u32
        ensures is { result ≡ (C.Chart.meaning self.entry.chart.now).moves.start self.entry.limit }
        ensures below { result < self.entry.count }
    {
        self.chart.start(self.limit)
    }
}
