// Confirmation: only alarms in a row are an alarm.
ghost use Rattle.std.specs.Prelude.{◌≡◌, ◌+◌, ◌-◌, ◌^◌, ◌<◌, min, if◌then◌else◌};
ghost use Rattle.layers.specs.Confirm.{confirm};
ghost use Rattle.layers.specs.ConfirmLaw.{AlarmsInARow};
ghost use Rattle.layers.specs.ConfirmSound.{confirm_sound};

use crate::pairs::Pairs;
use crate::repeats::Repeats;
use charts::{Chart, SYMBOLS};

#[derive(Clone, Copy, Drop)]
pub struct Confirm<C> {
    repeats: Repeats,
    below: C,
}

impl<C: Chart> Confirm<C> {
    // The confirmation of the chart below. It alarms after a sequence exactly when that has enough
    // courses and the states below after each of the last ones alarm.
    pub fn new(repeats: Repeats, below: C) -> Confirm<C>
        ensures holds { (result.repeats ≡ repeats) × (result.below ≡ below) }
        ensures law { AlarmsInARow repeats.times (C.Chart.meaning below) (confirm result.repeats.times (C.Chart.meaning result.below)) }
    {
        Confirm { repeats, below }
    }

    // The pairs of a state below and the length of the last row of alarms.
    fn pairs(&self, limit: u32) -> Pairs
        ensures left { result.left ≡ (C.Chart.meaning self.now.below).count limit }
        ensures right { result.right ≡ self.now.repeats.times + 1 }
    {
        Pairs {
            left: self.below.count(limit),
            right: u32::from(self.repeats.times) + 1,
        }
    }
}

// The length of the last row of alarms, at most `most`, after a course that alarmed or not.
fn row_after(row: u32, alarmed: bool, most: u32) -> u32
    requires { row < 2 ^ 32 - 1 }
    ensures { result ≡ (if alarmed then min (row + 1) most else 0) }
{
    if alarmed { most.min(row + 1) } else { 0 }
}

impl<C: Chart> Chart for Confirm<C> {
    ghost meaning = { λ c. confirm c.repeats.times (C.Chart.meaning c.below) };

    ghost sound = { λ c. confirm_sound c.repeats.times (C.Chart.meaning c.below) (C.Chart.sound c.below) };

    fn count(&self, limit: u32) -> u32 {
        self.pairs(limit).count()
    }

    fn start(&self, limit: u32) -> u32 {
        let pairs = self.pairs(limit);
        if pairs.count() == 0 {
            return 0;
        }
        pairs.code(self.below.start(limit), 0)
    }

    fn step(&self, limit: u32, state: u32, symbol: u8) -> u32 {
        if symbol >= SYMBOLS {
            return 0;
        }
        let pairs = self.pairs(limit);
        let Some((below, row)) = pairs.parts(state) else {
            return 0;
        };
        let next = self.below.step(limit, below, symbol);
        let alarmed = self.below.alarm(limit, next);
        pairs.code(next, row_after(row, alarmed, u32::from(self.repeats.times)))
    }

    fn alarm(&self, limit: u32, state: u32) -> bool {
        let Some((_, row)) = self.pairs(limit).parts(state) else {
            return false;
        };
        row == u32::from(self.repeats.times)
    }
}
