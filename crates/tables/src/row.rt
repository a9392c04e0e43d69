// Working rows: the cells of one weight kind that the caller lends, and two of them.
ghost use Rattle.std.specs.Prelude.{◌≡◌, ℕ, ◌<◌, ◌≤◌, length, drop, ◌==◌, slice_index_or};
ghost use Rattle.tables.specs.Row.{held, Lasting};
ghost use Rattle.tables.specs.Fill.{guarded, join_below, into, alarming, passed_on};

use crate::chain::Chain;
use charts::Chart;
use weights::Semiring;

#[derive(Drop)]
pub struct Row<'a, S: Semiring> {
    pub(crate) cells: &'a mut [S],
}

impl<'a, S: Semiring> Row<'a, S> {
    // The row over these cells: what a call leaves in the row, it leaves in them.
    pub fn new(cells: &'a mut [S]) -> Row<'a, S>
        ensures holds { held result ≡ cells.old }
        ensures named { result.cells.ghost_name ≡ cells.entry.ghost_name }
    {
        Row { cells }
    }

    // How many cells it has.
    pub fn len(&self) -> usize
        ensures { result ≡ length (held self.now) }
    {
        self.cells.len()
    }

    // The table of no course: one at the start state, zero elsewhere.
    pub(crate) fn start_at<C: Chart>(&mut self, chain: Chain<'_, C, S>)
        requires { chain.count ≤ length (held self.old) }
        ensures cells { (t : ℕ) → t < chain.entry.count → slice_index_or (held self.new) t S.Semiring.kind.zero ≡ guarded S.Semiring.kind ((C.Chart.meaning chain.entry.chart.now).moves.start chain.entry.limit == t) S.Semiring.kind.one }
        ensures past { drop chain.entry.count (held self.new) ≡ drop chain.entry.count (held self.old) }
        ensures lasting { Lasting self.old self.new }
    {
        chain.begin(self.cells);
    }

    // One course more than `from` has; answers the caught value.
    #[inline(always)]
    pub(crate) fn fill_from<C: Chart>(
        &mut self,
        chain: Chain<'_, C, S>,
        from: &Row<'_, S>,
        caught: S,
    ) -> S
        requires source { chain.count ≤ length (held from.now) }
        requires room { chain.count ≤ length (held self.old) }
        ensures cells { (t : ℕ) → t < chain.entry.count → slice_index_or (held self.new) t S.Semiring.kind.zero ≡ join_below S.Semiring.kind (λ s. into S.Semiring.kind (C.Chart.meaning chain.entry.chart.now).moves chain.entry.limit chain.entry.weights.now t s (slice_index_or (held from.now) s S.Semiring.kind.zero)) chain.entry.count }
        ensures past { drop chain.entry.count (held self.new) ≡ drop chain.entry.count (held self.old) }
        ensures alarm { result ≡ S.Semiring.kind.join (passed_on S.Semiring.kind chain.entry.weights.now caught) (join_below S.Semiring.kind (λ s. alarming S.Semiring.kind (C.Chart.meaning chain.entry.chart.now).moves chain.entry.limit chain.entry.weights.now s (slice_index_or (held from.now) s S.Semiring.kind.zero)) chain.entry.count) }
        ensures lasting { Lasting self.old self.new }
    {
        chain.advance(from.cells, self.cells, caught)
    }
}

// The two rows that a table is rolled between.
#[derive(Drop)]
pub struct Rows<'a, 'b, S: Semiring> {
    pub first: Row<'a, S>,
    pub second: Row<'b, S>,
}

impl<'a, 'b, S: Semiring> Rows<'a, 'b, S> {
    // Rows over these cells.
    pub fn new(first: &'a mut [S], second: &'b mut [S]) -> Rows<'a, 'b, S>
        ensures first { held result.first ≡ first.old }
        ensures second { held result.second ≡ second.old }
        ensures first_named { result.first.cells.ghost_name ≡ first.entry.ghost_name }
        ensures second_named { result.second.cells.ghost_name ≡ second.entry.ghost_name }
    {
        Rows {
            first: Row::new(first),
            second: Row::new(second),
        }
    }
}
