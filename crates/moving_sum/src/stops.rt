// The weight of the sequences that a chart stops.
ghost use Rattle.std.specs.Prelude.{◌≡◌};
ghost use Rattle.charts.specs.Checks.{Checked};
ghost use Rattle.moving_sum.specs.Stops.{stops, stops_checks};
ghost use Rattle.tables.specs.Refusal.{number};

use charts::Chart;
use tables::{ROW_CELLS, Refusal, Rows, tabulate};
use weights::Count;

const WEIGHTS: [Count; 3] = [Count { value: 2 }, Count { value: 1 }, Count { value: 1 }];

const COURSES: u32 = 3;

// The weight of the sequences of three courses that the chart stops at the limit.
pub(crate) fn stopped_weight<C: Chart>(chart: &C, limit: u32) -> Result<u64, Refusal>
    ensures { Checked number (stops_checks (C.Chart.meaning chart.now) limit) (Unit {0}) (λ n. n ≡ stops (C.Chart.meaning chart.now) limit) result }
{
    let mut first = [Count { value: 0 }; ROW_CELLS];
    let mut second = [Count { value: 0 }; ROW_CELLS];
    let mut rows = Rows::new(&mut first, &mut second);
    let Rows { first, second } = &mut rows;
    let table = tabulate(chart, limit, &WEIGHTS, COURSES, first, second)?;
    Ok(table.caught.value)
}
