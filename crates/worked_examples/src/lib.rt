// Worked beds: shown true of the definitions, and run over the table call.
#![tactic(auto)]

ghost use Rattle.std.specs.Prelude.{◌≡◌, length};
ghost use Rattle.worked_examples.specs.Beds.{worked_beds as listed_beds};
ghost use Rattle.worked_examples.specs.Claims.{AllTrue};

#[cfg(test)]
mod tests;

// How many beds the list of worked beds has. All that it claims of them is true.
pub fn worked_beds() -> usize
    ensures count { result ≡ length listed_beds }
    ensures hold { AllTrue listed_beds }
{
    6
}
