// How many alarms in a row a confirmation asks for.
ghost use Rattle.std.specs.Prelude.{◌≡◌, ◌≤◌};
ghost use Rattle.charts.specs.Checks.{Checked};
ghost use Rattle.charts.specs.Refusal.{number};
ghost use Rattle.layers.specs.Confirm.{repeats_checks};

use charts::{Refusal, check_range};

const MAX_TIMES: u8 = 8;

// A number from 1 to 8.
#[derive(Clone, Copy)]
pub struct Repeats {
    pub(crate) times: u8,
    ghost some: { 1 ≤ times },
    ghost few: { times ≤ 8 },
}

impl Repeats {
    // Refuses a number out of range; else holds it.
    pub fn new(times: u8) -> Result<Repeats, Refusal>
        ensures { Checked number (repeats_checks times) (Unit {0}) (λ c. c.times ≡ times) result }
    {
        check_range(times, 1, MAX_TIMES)?;
        Ok(Repeats { times })
    }
}
