// The moving sum alone and under each layer.
ghost use Rattle.moving_sum.specs.Layered.{Counted};
ghost use Rattle.std.specs.Result.{MatchResult};

use crate::chart::MovingSum;
use crate::refused::Refused;
use crate::stops::stopped_weight;
use charts::{Edge, Zone, ZoneParameters};
use layers::{Confirm, HeadStart, Lead, Repeats, Reset, Union};
use std::fmt;

const LIMIT: u32 = 3;

// The weight of the sequences that each chart stops at the limit 3.
#[derive(Clone, Copy)]
pub struct Stops {
    // the moving sum alone
    pub alone: u64,
    // after a course of symbol 2
    pub led: u64,
    // or two courses in a row at or above 1
    pub either: u64,
    // only twice in a row
    pub twice: u64,
    // begun anew after an alarm
    pub anew: u64,
    // begun anew after an alarm, and only twice in a row
    pub anew_twice: u64,
}

impl fmt::Display for Stops {
    fn fmt<W: fmt::Write>(&self, f: &mut fmt::Formatter<W>) -> fmt::Result {
        writeln!(f, "moving sum {}", self.alone)?;
        writeln!(f, "head start {}", self.led)?;
        writeln!(f, "union {}", self.either)?;
        writeln!(f, "confirmation {}", self.twice)?;
        writeln!(f, "reset {}", self.anew)?;
        write!(f, "confirmation of reset {}", self.anew_twice)
    }
}

// No parameter here is refused, and each chart has states at the limit.
pub(crate) fn layered() -> Result<Stops, Refused>
    ensures { MatchResult result Counted (λ _. ⊥) }
{
    let sum = MovingSum::new();
    let led = HeadStart::new(Lead::new(2, 1)?, sum);
    let zone = Zone::new(ZoneParameters::new(2, 2, Edge::At(1))?);
    let either = Union::new(sum, zone);
    let repeats = Repeats::new(2)?;
    let twice = Confirm::new(repeats, sum);
    let anew = Reset::new(sum);
    let anew_twice = Confirm::new(repeats, anew);
    Ok(Stops {
        alone: stopped_weight(&sum, LIMIT)?,
        led: stopped_weight(&led, LIMIT)?,
        either: stopped_weight(&either, LIMIT)?,
        twice: stopped_weight(&twice, LIMIT)?,
        anew: stopped_weight(&anew, LIMIT)?,
        anew_twice: stopped_weight(&anew_twice, LIMIT)?,
    })
}
