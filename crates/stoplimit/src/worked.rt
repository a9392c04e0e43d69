// The worked bed and its chart: their data.
ghost use Rattle.std.specs.Prelude.{◌≡◌};
ghost use Rattle.stoplimit.specs.Bed.{requirements, worked_bed};

use crate::batch::Batch;
use crate::bed::Bed;

pub(crate) const SCORES: [i8; 16] = [-1, 0, 1, 0, 0, 0, 0, 0, 0, 0, 0, 0, 0, 0, 0, 0];

pub(crate) fn worked() -> Bed
    ensures { requirements result ≡ worked_bed }
{
    Bed {
        good: Batch {
            weights: [2, 1, 1],
            courses: 3,
        },
        off: Batch {
            weights: [1, 1, 2],
            courses: 2,
        },
        cost: [0, 1, 3],
        false_stops: 150_000,
        catches: 250_000,
        lowest: 1,
        highest: 6,
    }
}
