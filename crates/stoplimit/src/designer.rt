// The search for the design of a bed: its least fit limit, and the figures there.
ghost use Rattle.std.specs.Prelude.{◌≡◌, true, ◌↔◌, MatchOption, MatchResult};
ghost use Rattle.stoplimit.specs.Bed.{requirements, Designed};
ghost use Rattle.stoplimit.specs.Workspace.{Lasts};
ghost use Rattle.tables.specs.Fit.{Fit, Least, NoneFit};

use crate::bed::Bed;
use crate::design::Design;
use crate::refused::Refused;
use crate::setting::Setting;
use crate::workspace::Workspace;
use charts::Chart;
use tables::ROW_CELLS;
use weights::{Count, Semiring};

// A chart, and the bed that a limit is sought for.
#[derive(Drop)]
pub struct Designer<'a, C> {
    pub chart: &'a C,
    pub bed: &'a Bed,
}

impl<C: Chart> Designer<'_, C> {
    // Whether the limit is fit.
    fn is_fit(&self, limit: u32, space: &mut Workspace<'_, Count>) -> bool
        ensures fit { (result ≡ true) ↔ Fit (C.Chart.meaning self.now.chart.now) (requirements self.now.bed.now) limit }
        ensures rows { Lasts space.old space.new }
    {
        let Designer { chart, bed } = *self;
        if chart.count(limit) == 0 {
            return false;
        }
        let setting = Setting { chart, limit };
        setting.share(&bed.good, space).is_at_most(bed.false_stops)
            && setting.share(&bed.off, space).is_at_least(bed.catches)
    }

    // The least fit limit of the bed's range; none exactly when no limit of the range is fit.
    fn least_fit(&self, space: &mut Workspace<'_, Count>) -> Option<u32>
        ensures answer { MatchOption result
            (NoneFit (C.Chart.meaning self.now.chart.now) (requirements self.now.bed.now))
            (λ h. Least (C.Chart.meaning self.now.chart.now) (requirements self.now.bed.now) h) }
        ensures rows { Lasts space.old space.new }
    {
        for limit in self.bed.lowest..=self.bed.highest {
            if self.is_fit(limit, space) {
                return Some(limit);
            }
        }
        None
    }

    // The least fit limit of the bed's range with its figures; refused exactly when no limit is fit.
    pub(crate) fn least_design(&self) -> Result<Design, Refused>
        ensures { MatchResult result
            (λ d. Designed (C.Chart.meaning self.now.chart.now) (requirements self.now.bed.now) d)
            (λ e. (e ≡ Refused.NoFitLimit) × NoneFit (C.Chart.meaning self.now.chart.now) (requirements self.now.bed.now)) }
    {
        let mut first = [Count::zero(); ROW_CELLS];
        let mut second = [Count::zero(); ROW_CELLS];
        let mut space = Workspace::new(&mut first, &mut second);
        let limit = self.least_fit(&mut space).ok_or(Refused::NoFitLimit)?;
        let setting = Setting {
            chart: self.chart,
            limit,
        };
        Ok(setting.figures(self.bed, &mut space))
    }
}
