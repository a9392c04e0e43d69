// A chart at one limit: what it stops there.
ghost use Rattle.std.specs.Prelude.{◌≡◌, ◌^◌, ◌<◌, ◌≤◌, sum};
ghost use Rattle.tables.specs.Exact.{naturals};
ghost use Rattle.tables.specs.Table.{caught_from};

use crate::batch::Batch;
use crate::bed::Bed;
use crate::design::Design;
use crate::share::Share;
use crate::workspace::Workspace;
use charts::Chart;
use tables::{ROW_CELLS, Rows, tabulate};
use weights::{Cost, Count, Semiring};

// A chart, and a limit where it has states.
#[derive(Drop)]
pub struct Setting<'a, C: Chart> {
    pub chart: &'a C,
    pub limit: u32,
    ghost states: { 0 < (C.Chart.meaning chart.now).count limit },
}

impl<C: Chart> Setting<'_, C> {
    ghost use Rattle.stoplimit.specs.Bed.{requirements, Figured};
    ghost use Rattle.stoplimit.specs.Workspace.{Lasts};
    ghost use Rattle.tables.specs.Figures.{mildest as mildest_of};

    // The join over the stopped sequences of `courses` symbols.
    fn caught<S: Semiring>(&self, weights: &[S; 3], courses: u32, space: &mut Workspace<'_, S>) -> S
        requires { courses ≤ 40 }
        ensures value { let m = C.Chart.meaning self.now.chart.now in let h = self.now.limit in result ≡ caught_from S.Semiring.kind m.moves h (m.moves.start h) weights.now courses }
        ensures rows { Lasts space.old space.new }
    {
        let Rows { first, second } = &mut space.rows;
        match tabulate(self.chart, self.limit, weights, courses, first, second) {
            Ok(table) => table.caught,
            Err(_) => unreachable!(),
        }
    }

    // The weight of the stopped sequences of a batch, and of all.
    #[tactic(auto, using(crate::proofs::Truth::true_value, crate::proofs::Truth::true_bound))]
    pub(crate) fn share(&self, batch: &Batch, space: &mut Workspace<'_, Count>) -> Share
        ensures stopped { let m = C.Chart.meaning self.now.chart.now in let h = self.now.limit in result.stopped ≡ caught_from naturals m.moves h (m.moves.start h) batch.now.weights batch.now.courses }
        ensures all { result.all ≡ sum batch.now.weights ^ batch.now.courses }
        ensures rows { Lasts space.old space.new }
    {
        let stopped = self.caught(&batch.counts(), batch.courses, space);
        Share {
            stopped: stopped.value,
            all: batch.whole(),
        }
    }

    // The least cost of a stopped off sequence.
    #[tactic(auto, unfolding(tables::specs::Figures::mildest))]
    fn mildest(&self, bed: &Bed) -> Option<u64>
        ensures { result ≡ mildest_of (C.Chart.meaning self.now.chart.now) (requirements bed.now) self.now.limit }
    {
        let mut first = [Cost::zero(); ROW_CELLS];
        let mut second = [Cost::zero(); ROW_CELLS];
        let mut space = Workspace::new(&mut first, &mut second);
        let cost = self.caught(&bed.costs(), bed.off.courses, &mut space);
        cost.present()
    }

    // The figures of a bed.
    #[tactic(auto, unfolding(tables::specs::Figures::good_caught, tables::specs::Figures::off_caught))]
    pub(crate) fn figures(&self, bed: &Bed, space: &mut Workspace<'_, Count>) -> Design
        ensures value { Figured (C.Chart.meaning self.now.chart.now) (requirements bed.now) self.now.limit result }
        ensures rows { Lasts space.old space.new }
    {
        Design {
            limit: self.limit,
            good: self.share(&bed.good, space),
            off: self.share(&bed.off, space),
            mildest: self.mildest(bed),
        }
    }
}
