// Charts, layers and tables, run. The cusum bed has three symbols: scores -1 0 1, good weights 2 1 1
// over three courses, off weights 1 1 2 over two courses, costs 0 1 3.
ghost use Rattle.std.specs.Prelude.{◌*◌, ◌^◌, ◌<◌};
ghost use Rattle.std.specs.Mem.{type_size};

use charts::{Chart, Cusum, Edge, Scores, Zone, ZoneParameters};
use layers::{Confirm, HeadStart, Lead, Repeats, Reset, Union};
use std::test::Fail;
use tables::{ROW_CELLS, Refusal, Row, Rows, Table, table_part, tabulate};
use weights::{Can, Cost, Count, Semiring};

// What is expected at a limit: the weight of the stopped good sequences and of the stopped off ones,
// the least cost of a stopped off sequence, and whether one can be stopped at all.
#[derive(Clone, Copy)]
struct Case {
    limit: u32,
    good: u64,
    off: u64,
    mildest: u64,
    can_stop: bool,
}

// An absent cost, as a table has it.
const ABSENT: u64 = u64::MAX;

const CASES: [Case; 3] = [
    Case {
        limit: 1,
        good: 37,
        off: 12,
        mildest: 3,
        can_stop: true,
    },
    Case {
        limit: 2,
        good: 8,
        off: 4,
        mildest: 6,
        can_stop: true,
    },
    Case {
        limit: 3,
        good: 1,
        off: 0,
        mildest: ABSENT,
        can_stop: false,
    },
];

fn cusum() -> Result<Cusum, charts::Refusal> {
    let mut values = [0; 16];
    values[0] = -1;
    values[2] = 1;
    Ok(Cusum::new(Scores::new(values)?))
}

// The table over rows that are lent, as a caller has them who does not own them.
fn tabulate_lent<C: Chart, S: Semiring>(
    chart: &C,
    limit: u32,
    weights: &[S],
    courses: u32,
    first: &mut Row<'_, S>,
    second: &mut Row<'_, S>,
) -> Result<Table<S>, Refusal> {
    tabulate(chart, limit, weights, courses, first, second)
}

// The caught value, and the join of all that the table holds.
fn count<C: Chart, S: Semiring>(
    chart: &C,
    limit: u32,
    weights: &[S],
    courses: u32,
    first: &mut [S],
    second: &mut [S],
) -> Result<(S, S), Refusal> {
    let mut rows = Rows::new(first, second);
    let Rows {
        first: front,
        second: back,
    } = &mut rows;
    let table = tabulate_lent(chart, limit, weights, courses, front, back)?;
    let cells = table_part(first, second, table.side.into(), table.count);
    let unstopped = cells.iter().fold(S::zero(), |all, cell| all.join(*cell));
    Ok((table.caught, unstopped))
}

// The same, over two rows full of one value, which have to fit in memory.
fn count_in_full_rows<C: Chart, S: Semiring>(
    chart: &C,
    limit: u32,
    weights: &[S],
    courses: u32,
    cell: S,
) -> Result<(S, S), Refusal>
    requires { 1024 * type_size S.row < 2 ^ 63 }
{
    let mut first = [cell; ROW_CELLS];
    let mut second = [cell; ROW_CELLS];
    count(chart, limit, weights, courses, &mut first, &mut second)
}

fn counts<C: Chart>(
    chart: &C,
    limit: u32,
    weights: [u64; 3],
    courses: u32,
) -> Result<(u64, u64), Refusal> {
    let weights = weights.map(|value| Count { value });
    let (caught, unstopped) = count_in_full_rows(
        chart,
        limit,
        &weights,
        courses,
        Count { value: 0 },
    )?;
    Ok((caught.value, unstopped.value))
}

fn mildest(limit: u32) -> Result<u64, Fail> {
    let weights = [0, 1, 3].map(|value| Cost { value });
    let (caught, _) = count_in_full_rows(&cusum()?, limit, &weights, 2, Cost { value: 0 })?;
    Ok(caught.value)
}

fn can_stop(limit: u32) -> Result<bool, Fail> {
    let weights = [Can { value: true }; 3];
    let (caught, _) = count_in_full_rows(&cusum()?, limit, &weights, 2, Can { value: false })?;
    Ok(caught.value)
}

#[test]
fn figures_at_each_limit(rt: HostRuntime) -> Result<(), Fail> {
    for case in CASES {
        let good = counts(&cusum()?, case.limit, [2, 1, 1], 3)?;
        assert_eq!(rt; good.0, case.good);
        assert_eq!(rt; good.0.wrapping_add(good.1), 64);
        let off = counts(&cusum()?, case.limit, [1, 1, 2], 2)?;
        assert_eq!(rt; off.0, case.off);
        assert_eq!(rt; off.0.wrapping_add(off.1), 16);
        assert_eq!(rt; mildest(case.limit)?, case.mildest);
        assert_eq!(rt; can_stop(case.limit)?, case.can_stop);
    }
    Ok(())
}

// The refusal of a table of counts, where there is one.
fn refusal(
    limit: u32,
    weights: &[Count],
    courses: u32,
    cells: usize,
) -> Result<Option<Refusal>, Fail> {
    let mut first = [Count { value: 7 }; 2048];
    let mut second = [Count { value: 7 }; ROW_CELLS];
    let short = cells.min(2048);
    let counted = count(
        &cusum()?,
        limit,
        weights,
        courses,
        &mut first[0..short],
        &mut second,
    );
    Ok(counted.err())
}

#[test]
fn refusals_in_their_order(rt: HostRuntime) -> Result<(), Fail> {
    let weights = [Count { value: 1 }; 17];
    assert_eq!(rt;
        refusal(0, &weights[0..0], 0, 0)?,
        Some(Refusal::OutOfBounds)
    );
    assert_eq!(rt;
        refusal(0, &weights[0..17], 0, 0)?,
        Some(Refusal::OutOfBounds)
    );
    assert_eq!(rt;
        refusal(0, &weights[0..16], 41, 0)?,
        Some(Refusal::OutOfBounds)
    );
    assert_eq!(rt;
        refusal(0, &weights[0..16], 40, 1023)?,
        Some(Refusal::ShortRow)
    );
    assert_eq!(rt;
        refusal(0, &weights[0..16], 40, 1024)?,
        Some(Refusal::NoStates)
    );
    assert_eq!(rt;
        refusal(1024, &weights[0..16], 40, 1024)?,
        Some(Refusal::NoStates)
    );
    assert_eq!(rt; refusal(1023, &weights[0..16], 40, 1024)?, None);
    assert_eq!(rt; refusal(1, &weights[0..1], 0, 2048)?, None);
    Ok(())
}

// The weight of the stopped good sequences, at the first limit.
fn good<C: Chart>(chart: &C, courses: u32) -> Result<(u64, u64), Refusal> {
    counts(chart, 1, [2, 1, 1], courses)
}

#[test]
fn layers_over_the_cusum(rt: HostRuntime) -> Result<(), Fail> {
    let twice = Repeats::new(2)?;
    assert_eq!(rt; good(&Confirm::new(twice, cusum()?), 3)?, (14, 50));
    assert_eq!(rt;
        good(&Confirm::new(twice, Reset::new(cusum()?)), 3)?,
        (7, 57)
    );
    assert_eq!(rt; good(&Reset::new(cusum()?), 3)?, (37, 27));
    assert_eq!(rt;
        good(&HeadStart::new(Lead::new(2, 2)?, cusum()?), 1)?,
        (2, 2)
    );
    assert_eq!(rt; good(&Union::new(cusum()?, cusum()?), 3)?, (37, 27));
    Ok(())
}

// Two cusums have 32 x 32 states at limit 31, and too many at limit 32.
#[test]
fn union_of_two_cusums(rt: HostRuntime) -> Result<(), Fail> {
    let both = Union::new(cusum()?, cusum()?);
    assert_eq!(rt; both.count(31), 1024);
    assert!(rt; both.alarm(31, 1023));
    assert_eq!(rt; both.count(32), 0);
    assert_eq!(rt; both.start(32), 0);
    assert_eq!(rt; both.step(32, 0, 2), 0);
    assert!(rt; !both.alarm(32, 32 * 33 + 32));
    assert_eq!(rt;
        counts(&both, 32, [2, 1, 1], 3).err().ok_or("taken")?,
        Refusal::NoStates
    );
    Ok(())
}

// Two of the last three symbols at or above 1 are two courses of weight 2 among three; at the limit 2
// only the symbol 2 counts, of weight 1.
#[test]
fn zone_rules(rt: HostRuntime) -> Result<(), Fail> {
    let number = Zone::new(ZoneParameters::new(2, 3, Edge::At(1))?);
    let limit = Zone::new(ZoneParameters::new(2, 3, Edge::Limit)?);
    assert_eq!(rt; number.count(1), 8);
    assert_eq!(rt; counts(&number, 2, [2, 1, 1], 3)?, (32, 32));
    assert_eq!(rt; counts(&limit, 2, [2, 1, 1], 3)?, (10, 54));
    assert_eq!(rt; counts(&limit, 3, [2, 1, 1], 3)?, (0, 64));
    Ok(())
}

// The number of the refusal of a zone rule, and 0 where there is none.
fn zone_refusal(hits: u8, window: u8, edge: Edge) -> u32 {
    ZoneParameters::new(hits, window, edge)
        .err()
        .map_or(0, |refusal| refusal.number())
}

#[test]
fn zone_parameters_out_of_range(rt: HostRuntime) {
    assert_eq!(rt; zone_refusal(0, 9, Edge::At(17)), 23);
    assert_eq!(rt; zone_refusal(9, 9, Edge::Limit), 23);
    assert_eq!(rt; zone_refusal(2, 0, Edge::Limit), 23);
    assert_eq!(rt; zone_refusal(2, 9, Edge::Limit), 23);
    assert_eq!(rt; zone_refusal(3, 2, Edge::At(17)), 27);
    assert_eq!(rt; zone_refusal(2, 2, Edge::At(17)), 23);
    assert_eq!(rt; zone_refusal(2, 2, Edge::At(16)), 0);
    assert_eq!(rt; zone_refusal(8, 8, Edge::Limit), 0);
    assert_eq!(rt; zone_refusal(1, 1, Edge::At(0)), 0);
}

#[test]
fn layer_parameters_out_of_range(rt: HostRuntime) -> Result<(), Fail> {
    assert_eq!(rt; Lead::new(16, 0).err().ok_or("taken")?.number(), 23);
    assert_eq!(rt; Lead::new(15, 33).err().ok_or("taken")?.number(), 23);
    assert!(rt; Lead::new(15, 32).is_ok());
    assert!(rt; Lead::new(0, 0).is_ok());
    assert_eq!(rt; Repeats::new(0).err().ok_or("taken")?.number(), 23);
    assert_eq!(rt; Repeats::new(9).err().ok_or("taken")?.number(), 23);
    assert!(rt; Repeats::new(1).is_ok());
    assert!(rt; Repeats::new(8).is_ok());
    Ok(())
}

#[test]
fn scores_out_of_range(rt: HostRuntime) -> Result<(), Fail> {
    assert!(rt; Scores::new([8; 16]).is_ok());
    assert!(rt; Scores::new([-8; 16]).is_ok());
    assert_eq!(rt; Scores::new([9; 16]).err().ok_or("taken")?.number(), 23);
    assert_eq!(rt; Scores::new([-9; 16]).err().ok_or("taken")?.number(), 23);
    Ok(())
}

// No course: one at the start, and nothing is stopped.
#[test]
fn no_course(rt: HostRuntime) -> Result<(), Fail> {
    assert_eq!(rt; counts(&cusum()?, 1, [2, 1, 1], 0)?, (0, 1));
    Ok(())
}

#[test]
fn parts_of_rows(rt: HostRuntime) {
    let first = [1, 2, 3];
    let second = [4, 5];
    assert!(rt; table_part(&first, &second, 0, 3).len() == 3);
    assert!(rt; table_part(&first, &second, 1, 1).len() == 1);
    assert!(rt; table_part(&first, &second, 1, 3).is_empty());
    assert!(rt; table_part(&first, &second, 2, 1).is_empty());
}
