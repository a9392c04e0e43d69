// The lead of a head start: what it reads before it begins.
ghost use Rattle.std.specs.Prelude.{◌≡◌, ◌≤◌};
ghost use Rattle.charts.specs.Checks.{Checked};
ghost use Rattle.charts.specs.Refusal.{number};
ghost use Rattle.layers.specs.HeadStart.{lead_checks};

use charts::{Refusal, SYMBOLS, check_range};

const MAX_READS: u8 = 32;

// A symbol from 0 to 15, and how many times it is read, 0 to 32.
#[derive(Clone, Copy)]
pub struct Lead {
    pub(crate) symbol: u8,
    pub(crate) reads: u8,
    ghost is_symbol: { symbol ≤ 15 },
    ghost few: { reads ≤ 32 },
}

impl Lead {
    // Refuses a number out of range; else holds the symbol and the number of reads.
    pub fn new(symbol: u8, reads: u8) -> Result<Lead, Refusal>
        ensures { Checked number (lead_checks symbol reads) (Unit {0}) (λ l. (l.symbol ≡ symbol) × (l.reads ≡ reads)) result }
    {
        check_range(symbol, 0, SYMBOLS - 1)?;
        check_range(reads, 0, MAX_READS)?;
        Ok(Lead { symbol, reads })
    }
}
