// Reset: a chart that begins anew after an alarm.
ghost use Rattle.std.specs.Prelude.{◌≡◌};
ghost use Rattle.layers.specs.Reset.{reset};
ghost use Rattle.layers.specs.ResetLaw.{BeginsAnew};
ghost use Rattle.layers.specs.ResetSound.{reset_sound};

use charts::{Chart, is_within};

#[derive(Clone, Copy, Drop)]
pub struct Reset<C> {
    below: C,
}

impl<C: Chart> Reset<C> {
    // The chart below with a reset. After a sequence it is where the chart below is after reading only
    // the symbols that follow the latest course before the last at which it alarmed.
    #[tactic(auto, using(crate::proofs::ResetRuns::reset_begins_anew))]
    pub fn new(below: C) -> Reset<C>
        ensures holds { result.below ≡ below }
        ensures law { BeginsAnew (C.Chart.meaning below).moves (reset (C.Chart.meaning result.below)).moves }
    {
        Reset { below }
    }
}

impl<C: Chart> Chart for Reset<C> {
    ghost meaning = { λ c. reset (C.Chart.meaning c.below) };

    ghost sound = { λ c. reset_sound (C.Chart.meaning c.below) (C.Chart.sound c.below) };

    fn count(&self, limit: u32) -> u32 {
        self.below.count(limit)
    }

    fn start(&self, limit: u32) -> u32 {
        self.below.start(limit)
    }

    fn step(&self, limit: u32, state: u32, symbol: u8) -> u32 {
        if !is_within(self.below.count(limit), state, symbol) {
            return 0;
        }
        let from = if self.alarm(limit, state) {
            self.start(limit)
        } else {
            state
        };
        self.below.step(limit, from, symbol)
    }

    fn alarm(&self, limit: u32, state: u32) -> bool {
        self.below.alarm(limit, state)
    }
}
