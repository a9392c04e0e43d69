// The table call.
ghost use Rattle.std.specs.Prelude.{◌≡◌, ℕ, length};
ghost use Rattle.charts.specs.Checks.{Checked};
ghost use Rattle.tables.specs.Exact.{Exact};
ghost use Rattle.tables.specs.Refusal.{number, table_checks};
ghost use Rattle.tables.specs.Table.{Tabled};
ghost use Rattle.tables.specs.Row.{held};
ghost use Rattle.tables.specs.Side.{side_number};
ghost use Rattle.tables.specs.Sequences.{Listed};

use crate::chain::Chain;
use crate::refusal::Refusal;
use crate::row::Row;
use crate::side::Side;
use charts::{Chart, MAX_STATES, SYMBOLS};
use weights::Semiring;

const MAX_WEIGHTS: usize = SYMBOLS as usize;

const MAX_COURSES: u32 = 40;

// How many cells a row must have: as many as a chart can have states.
pub const ROW_CELLS: usize = MAX_STATES as usize;

// What the table call answers: the caught value, the state count, and the side whose row holds the
// table.
#[derive(Clone, Copy)]
pub struct Table<S: Semiring> {
    pub caught: S,
    pub count: u32,
    pub side: Side,
}

// The table of `courses` courses from the chart's start at the limit: for each state, the join over
// all sequences that end there unstopped. A refusal changes no row. The call and its courses are put into the
// caller, so that what is the same at each course, or known there, is worked out once.
#[tactic(auto, using(crate::proofs::SequencesListed::listed, crate::proofs::ExactCounts::exact))]
#[inline(always)]
pub fn tabulate<C: Chart, S: Semiring>(
    chart: &C,
    limit: u32,
    weights: &[S],
    courses: u32,
    first: &mut Row<'_, S>,
    second: &mut Row<'_, S>,
) -> Result<Table<S>, Refusal>
    ensures answer { Checked number
        (table_checks (length weights.now) courses (length (held first.old)) (length (held second.old)) ((C.Chart.meaning chart.now).count limit))
        ((held first.new ≡ held first.old) × (held second.new ≡ held second.old))
        (λ t. Tabled S.Semiring.kind (C.Chart.meaning chart.now) limit weights.now courses (held first.old) (held second.old) (held first.new) (held second.new) t.caught t.count (side_number t.side))
        result }
    ensures first_named { first.new.cells.ghost_name ≡ first.old.cells.ghost_name }
    ensures second_named { second.new.cells.ghost_name ≡ second.old.cells.ghost_name }
    ensures listed { Listed (length weights.now) courses }
    ensures exact { (s : ℕ) → Exact (C.Chart.meaning chart.now).moves limit s courses }
{
    if weights.is_empty() || weights.len() > MAX_WEIGHTS || courses > MAX_COURSES {
        return Err(Refusal::OutOfBounds);
    }
    if first.len() < ROW_CELLS || second.len() < ROW_CELLS {
        return Err(Refusal::ShortRow);
    }
    let chain = Chain::new(chart, limit, weights)?;
    let caught = chain.roll(courses, first, second);
    Ok(Table {
        caught,
        count: chain.count,
        side: Side::after(courses),
    })
}
