// A chart that is not one of the library's: the moving sum of the last two courses.
ghost use Rattle.moving_sum.specs.MovingSum.{moving_sum, AlarmsBySum};
ghost use Rattle.moving_sum.specs.MovingSumSound.{moving_sum_sound};

use charts::{Chart, is_valid, is_within};

// How much the older of the two symbols adds to a state.
const OLDER: u32 = 16;

const STATES: u32 = 256;

#[derive(Clone, Copy)]
pub struct MovingSum;

impl MovingSum {
    // It alarms after a sequence exactly when the newest two symbols add up to the limit or more.
    #[tactic(auto, using(crate::proofs::SumRuns::sum_alarms))]
    pub(crate) fn new() -> MovingSum
        ensures { AlarmsBySum moving_sum.moves }
    {
        MovingSum
    }
}

impl Chart for MovingSum {
    ghost meaning = { λ _. moving_sum };

    ghost sound = { λ _. moving_sum_sound };

    fn count(&self, limit: u32) -> u32 {
        if is_valid(limit) { STATES } else { 0 }
    }

    fn start(&self, _limit: u32) -> u32 {
        0
    }

    fn step(&self, limit: u32, state: u32, symbol: u8) -> u32 {
        if !is_within(self.count(limit), state, symbol) {
            return 0;
        }
        state % OLDER * OLDER + u32::from(symbol)
    }

    fn alarm(&self, limit: u32, state: u32) -> bool {
        state < self.count(limit) && state / OLDER + state % OLDER >= limit
    }
}
