// The program stoplimit: designs the worked bed, and prints its least fit limit with the figures.
#![tactic(auto)]

ghost use Rattle.std.specs.Prelude.{◌≡◌, MatchResult};
ghost use Rattle.stoplimit.specs.Bed.{Designed, worked_bed, worked_cusum};
ghost use Rattle.tables.specs.Fit.{NoneFit};

mod batch;
mod bed;
mod design;
mod designer;
mod refused;
mod setting;
mod share;
mod worked;
mod workspace;

use charts::{Cusum, Scores};
use design::Design;
use designer::Designer;
use refused::Refused;
use std::io;
use worked::{SCORES, worked};

// The design of the worked bed by the worked cusum.
fn worked_design() -> Result<Design, Refused>
    ensures { MatchResult result
        (λ d. Designed worked_cusum worked_bed d)
        (λ e. (e ≡ Refused.NoFitLimit) × NoneFit worked_cusum worked_bed) }
{
    let designer = Designer {
        chart: &Cusum::new(Scores::new(SCORES)?),
        bed: &worked(),
    };
    designer.least_design()
}

fn main(rt: HostRuntime) -> io::Result<()> {
    match worked_design() {
        Ok(design) => println!(rt; "{design}"),
        Err(refused) => println!(rt; "{refused}"),
    }
}
