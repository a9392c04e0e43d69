// A chart from outside the library, alone and under each layer: the weight of the sequences that each
// stops.
#![tactic(auto)]

mod chart;
mod layered;
mod refused;
mod stops;

use layered::layered;
use std::io;

fn main(rt: HostRuntime) -> io::Result<()> {
    match layered() {
        Ok(stops) => println!(rt; "{stops}"),
        Err(refused) => println!(rt; "{refused}"),
    }
}
