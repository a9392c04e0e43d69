// The cusum chart: each symbol adds its score to the state.
ghost use Rattle.std.specs.Prelude.{◌≡◌};
ghost use Rattle.charts.specs.Cusum.{cusum};
ghost use Rattle.charts.specs.CusumLaw.{StopsByBlocks};
ghost use Rattle.charts.specs.CusumSound.{cusum_sound};

use crate::chart::Chart;
use crate::ranges::{is_valid, is_within};
use crate::scores::Scores;

#[derive(Clone, Copy)]
pub struct Cusum {
    scores: Scores,
}

impl Cusum {
    // The cusum of these scores. It stops a sequence exactly when the scores of some block of
    // consecutive courses add up to the limit or more.
    #[tactic(auto, using(crate::proofs::CusumBlocks::cusum_stops))]
    pub fn new(scores: Scores) -> Cusum
        ensures holds { result.scores ≡ scores }
        ensures law { StopsByBlocks scores.values (cusum result.scores.values).moves }
    {
        Cusum { scores }
    }
}

impl Chart for Cusum {
    ghost meaning = { λ c. cusum c.scores.values };

    ghost sound = { λ c. cusum_sound c.scores.values };

    fn count(&self, limit: u32) -> u32 {
        if is_valid(limit) { limit + 1 } else { 0 }
    }

    fn start(&self, _limit: u32) -> u32 {
        0
    }

    fn step(&self, limit: u32, state: u32, symbol: u8) -> u32 {
        if !is_within(self.count(limit), state, symbol) {
            return 0;
        }
        let score = self.scores.values[usize::from(symbol)];
        let sum = state as i32 + i32::from(score);
        // a branch: a table by `max`, `clamp` or `saturating_add_signed` is slower
        if sum.is_negative() {
            0
        } else {
            limit.min(sum.unsigned_abs())
        }
    }

    fn alarm(&self, limit: u32, state: u32) -> bool {
        is_valid(limit) && state == limit
    }
}
