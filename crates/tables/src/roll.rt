// The table, rolled course by course between two rows.
ghost use Rattle.std.specs.Prelude.{◌≡◌, ◌+◌, ◌<◌, ◌≤◌, length};
ghost use Rattle.tables.specs.Roll.{Rolled};
ghost use Rattle.tables.specs.Row.{held, Lasting};

use crate::chain::Chain;
use crate::row::Row;
use crate::side::Side;
use charts::Chart;
use weights::Semiring;

impl<C: Chart, S: Semiring> Chain<'_, C, S> {
    // One course more after `done` courses, from the row of one side into the other.
    #[inline(always)]
    fn course(self, done: u32, first: &mut Row<'_, S>, second: &mut Row<'_, S>, caught: S) -> S
        requires room { (self.count ≤ length (held first.old)) × (self.count ≤ length (held second.old)) }
        requires rolled { Rolled S.Semiring.kind (C.Chart.meaning self.chart.now).moves self.limit ((C.Chart.meaning self.chart.now).moves.start self.limit) self.count self.weights.now done (held first.old) (held second.old) (held first.old) (held second.old) caught }
        ensures rolled { Rolled S.Semiring.kind (C.Chart.meaning self.entry.chart.now).moves self.entry.limit ((C.Chart.meaning self.entry.chart.now).moves.start self.entry.limit) self.entry.count self.entry.weights.now (done + 1) (held first.old) (held second.old) (held first.new) (held second.new) result }
        ensures lasting { Lasting first.old first.new × Lasting second.old second.new }
    {
        match Side::after(done) {
            Side::First => second.fill_from(self, first, caught),
            Side::Second => first.fill_from(self, second, caught),
        }
    }

    // The table of `courses` courses, and its caught value.
    #[tactic(auto, using(crate::proofs::RollCourses::roll_all))]
    #[inline(always)]
    pub(crate) fn roll(self, courses: u32, first: &mut Row<'_, S>, second: &mut Row<'_, S>) -> S
        requires room { (self.count ≤ length (held first.old)) × (self.count ≤ length (held second.old)) }
        ensures rolled { Rolled S.Semiring.kind (C.Chart.meaning self.entry.chart.now).moves self.entry.limit ((C.Chart.meaning self.entry.chart.now).moves.start self.entry.limit) self.entry.count self.entry.weights.now courses (held first.old) (held second.old) (held first.new) (held second.new) result }
        ensures lasting { Lasting first.old first.new × Lasting second.old second.new }
    {
        first.start_at(self);
        let mut caught = S::zero();
        for done in 0..courses {
            caught = self.course(done, first, second, caught);
        }
        caught
    }
}
