// The scores of a cusum, one for each symbol.
ghost use Rattle.std.specs.Prelude.{◌≡◌, ℕ, true, false, pos, negsuc, ◌≤ℤ◌, slice_index_or};
ghost use Rattle.charts.specs.Checks.{Checked};
ghost use Rattle.charts.specs.Refusal.{number};
ghost use Rattle.charts.specs.Scores.{Outside, score_checks};

use crate::refusal::Refusal;

const LOWEST: i8 = -8;

const HIGHEST: i8 = 8;

// Sixteen scores from -8 to 8.
#[derive(Clone, Copy)]
pub struct Scores {
    pub(crate) values: [i8; 16],
    ghost low: { (k : ℕ) → negsuc 7 ≤ℤ slice_index_or values k (pos 0) },
    ghost high: { (k : ℕ) → slice_index_or values k (pos 0) ≤ℤ pos 8 },
}

// Whether every score is in range.
fn in_range(values: &[i8; 16]) -> bool
    ensures all { result ≡ true → (k : ℕ) → (negsuc 7 ≤ℤ slice_index_or values.now k (pos 0)) × (slice_index_or values.now k (pos 0) ≤ℤ pos 8) }
    ensures some { result ≡ false → Outside values.now }
{
    values
        .iter()
        .all(|score| (LOWEST..=HIGHEST).contains(score))
}

impl Scores {
    // Refuses a score out of range; else holds the scores.
    pub fn new(values: [i8; 16]) -> Result<Scores, Refusal>
        ensures { Checked number (score_checks values) (Unit {0}) (λ s. s.values ≡ values) result }
    {
        if in_range(&values) {
            Ok(Scores { values })
        } else {
            Err(Refusal::OutOfRange)
        }
    }
}
