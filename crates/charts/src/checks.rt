// The check of a number against its range.
ghost use Rattle.std.specs.Prelude.{[], ◌∷◌};
ghost use Rattle.charts.specs.Checks.{Checked, ◌if◌, IsOutOfRange};
ghost use Rattle.charts.specs.Refusal.{number};

use crate::refusal::Refusal;

// Refuses a value that is not from the least to the most.
pub fn check_range(value: u8, least: u8, most: u8) -> Result<(), Refusal>
    ensures { Checked number (23 if IsOutOfRange least most value ∷ []) (Unit {0}) (λ _. Unit {0}) result }
{
    if (least..=most).contains(&value) {
        Ok(())
    } else {
        Err(Refusal::OutOfRange)
    }
}
