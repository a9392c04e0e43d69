// The row filler: what a chain does to one row of weights, as a slice, with another.
ghost use Rattle.std.specs.Prelude.{◌≡◌, ℕ, ◌<◌, ◌≤◌, length, drop, ◌==◌, slice_index_or};
ghost use Rattle.tables.specs.Fill.{guarded, freed, alarmed, join_below, into, alarming, passed_on};

use crate::chain::Chain;
use charts::Chart;
use weights::Semiring;

// Clears the cells.
fn clear<S: Semiring>(row: &mut [S])
    ensures { (t : ℕ) → t < length row.new → slice_index_or row.new t S.Semiring.kind.zero ≡ S.Semiring.kind.zero }
{
    for cell in row.iter_mut() {
        *cell = S::zero();
    }
}

// The methods of a row pass on the slice that was lent, of whatever length, so each function asks that it
// has a cell for each state. The row and the caught value are two parameters: in one struct behind `&mut`,
// each contract would have to say too that the slice stays the same.
impl<C: Chart, S: Semiring> Chain<'_, C, S> {
    // Joins `share` to the state after `symbol`, or to `caught` where that state alarms.
    fn place(self, state: u32, symbol: u8, share: S, row: &mut [S], caught: S) -> S
        requires inside { state < self.count }
        requires few { symbol < 16 }
        requires room { self.count ≤ length row.old }
        ensures cells { (t : ℕ) → t < length row.new → slice_index_or row.new t S.Semiring.kind.zero ≡ S.Semiring.kind.join (slice_index_or row.old t S.Semiring.kind.zero) (freed S.Semiring.kind (C.Chart.meaning self.entry.chart.now).moves self.entry.limit t state symbol share) }
        ensures alarm { result ≡ S.Semiring.kind.join caught (alarmed S.Semiring.kind (C.Chart.meaning self.entry.chart.now).moves self.entry.limit state symbol share) }
    {
        let next = self.chart.step(self.limit, state, symbol);
        if self.chart.alarm(self.limit, next) {
            return caught.join(share);
        }
        let at = next as usize;
        row[at] = row[at].join(share);
        caught
    }

    // Joins to `row` what the weight `value` of `state` gives to each state unstopped; answers `caught`
    // joined with what it gives to the alarm. A symbol of weight zero gives nothing and is passed over.
    fn spread(self, state: u32, value: S, row: &mut [S], caught: S) -> S
        requires inside { state < self.count }
        requires room { self.count ≤ length row.old }
        ensures cells { (t : ℕ) → t < length row.new → slice_index_or row.new t S.Semiring.kind.zero ≡ S.Semiring.kind.join (slice_index_or row.old t S.Semiring.kind.zero) (into S.Semiring.kind (C.Chart.meaning self.entry.chart.now).moves self.entry.limit self.entry.weights.now t state value) }
        ensures alarm { result ≡ S.Semiring.kind.join caught (alarming S.Semiring.kind (C.Chart.meaning self.entry.chart.now).moves self.entry.limit self.entry.weights.now state value) }
    {
        let mut caught = caught;
        for (symbol, weight) in self.weights.iter().enumerate() {
            if !weight.is_zero() {
                let share = value.product(*weight);
                caught = self.place(state, symbol as u8, share, row, caught);
            }
        }
        caught
    }

    // What `value` comes to with one symbol more, whichever it is.
    pub(crate) fn pass_on(self, value: S) -> S
        ensures { result ≡ passed_on S.Semiring.kind self.entry.weights.now value }
    {
        let mut sum = S::zero();
        for weight in self.weights {
            sum = sum.join(value.product(*weight));
        }
        sum
    }

    // One course more: fills the first cells of `row`, one for each state, from those of `from`, and
    // answers the caught value. A state of weight zero gives nothing and is passed over.
    #[inline(always)]
    pub(crate) fn advance(self, from: &[S], row: &mut [S], caught: S) -> S
        requires source { self.count ≤ length from.now }
        requires room { self.count ≤ length row.old }
        ensures cells { (t : ℕ) → t < self.entry.count → slice_index_or row.new t S.Semiring.kind.zero ≡ join_below S.Semiring.kind (λ s. into S.Semiring.kind (C.Chart.meaning self.entry.chart.now).moves self.entry.limit self.entry.weights.now t s (slice_index_or from.now s S.Semiring.kind.zero)) self.entry.count }
        ensures past { drop self.entry.count row.new ≡ drop self.entry.count row.old }
        ensures alarm { result ≡ S.Semiring.kind.join (passed_on S.Semiring.kind self.entry.weights.now caught) (join_below S.Semiring.kind (λ s. alarming S.Semiring.kind (C.Chart.meaning self.entry.chart.now).moves self.entry.limit self.entry.weights.now s (slice_index_or from.now s S.Semiring.kind.zero)) self.entry.count) }
    {
        let count = self.count as usize;
        let row = &mut row[..count];
        clear(row);
        let mut sum = self.pass_on(caught);
        for (state, value) in from[..count].iter().enumerate() {
            if !value.is_zero() {
                sum = self.spread(state as u32, *value, row, sum);
            }
        }
        sum
    }

    // The table of no course: one at the start state, zero elsewhere.
    pub(crate) fn begin(self, row: &mut [S])
        requires { self.count ≤ length row.old }
        ensures cells { (t : ℕ) → t < self.entry.count → slice_index_or row.new t S.Semiring.kind.zero ≡ guarded S.Semiring.kind ((C.Chart.meaning self.entry.chart.now).moves.start self.entry.limit == t) S.Semiring.kind.one }
        ensures past { drop self.entry.count row.new ≡ drop self.entry.count row.old }
    {
        clear(&mut row[..self.count as usize]);
        row[self.start() as usize] = S::one();
    }
}
