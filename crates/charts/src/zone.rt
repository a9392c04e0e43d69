// The zone rule: an alarm when enough of the last courses are in the zone.
ghost use Rattle.std.specs.Prelude.{◌≡◌};
ghost use Rattle.charts.specs.Zone.{zone};
ghost use Rattle.charts.specs.ZoneLaw.{AlarmsByMembers};
ghost use Rattle.charts.specs.ZoneSound.{zone_sound};

use crate::chart::Chart;
use crate::ranges::{is_valid, is_within};
use crate::zone_parameters::ZoneParameters;

#[derive(Clone, Copy)]
pub struct Zone {
    parameters: ZoneParameters,
}

impl Zone {
    // The zone rule of these parameters. It alarms after a sequence exactly when at least k of the
    // last m symbols are members.
    #[tactic(auto, using(crate::proofs::ZoneMembers::zone_alarms))]
    pub fn new(parameters: ZoneParameters) -> Zone
        ensures holds { result.parameters ≡ parameters }
        ensures law { AlarmsByMembers parameters.hits parameters.window parameters.edge (zone result.parameters.hits result.parameters.window result.parameters.edge).moves }
    {
        Zone { parameters }
    }
}

impl Chart for Zone {
    ghost meaning = { λ z. zone z.parameters.hits z.parameters.window z.parameters.edge };

    ghost sound = { λ z. zone_sound z.parameters.hits z.parameters.window z.parameters.edge z.parameters.short };

    fn count(&self, limit: u32) -> u32 {
        if is_valid(limit) {
            1 << self.parameters.window
        } else {
            0
        }
    }

    fn start(&self, _limit: u32) -> u32 {
        0
    }

    fn step(&self, limit: u32, state: u32, symbol: u8) -> u32 {
        let states = self.count(limit);
        if !is_within(states, state, symbol) {
            return 0;
        }
        let member = u32::from(self.parameters.edge.is_member(limit, symbol));
        (2 * state + member) % states
    }

    fn alarm(&self, limit: u32, state: u32) -> bool {
        state < self.count(limit) && state.count_ones() >= u32::from(self.parameters.hits)
    }
}
