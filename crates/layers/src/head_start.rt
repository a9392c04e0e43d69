// Head start: a chart that begins as if it had read its lead.
ghost use Rattle.std.specs.Prelude.{◌≡◌};
ghost use Rattle.layers.specs.HeadStart.{head_start};
ghost use Rattle.layers.specs.HeadStartLaw.{Led};
ghost use Rattle.layers.specs.HeadStartSound.{head_start_sound};

use crate::lead::Lead;
use charts::Chart;

#[derive(Clone, Copy, Drop)]
pub struct HeadStart<C> {
    lead: Lead,
    below: C,
}

impl<C: Chart> HeadStart<C> {
    // The chart below with a head start. It stops and ends as the chart below does after reading the
    // lead first; alarms during the lead are not looked at.
    #[tactic(auto, using(crate::proofs::HeadStartRuns::head_start_led))]
    pub fn new(lead: Lead, below: C) -> HeadStart<C>
        ensures holds { (result.lead ≡ lead) × (result.below ≡ below) }
        ensures law { Led lead.symbol lead.reads (C.Chart.meaning below).moves (head_start result.lead.symbol result.lead.reads (C.Chart.meaning result.below)).moves }
    {
        HeadStart { lead, below }
    }
}

impl<C: Chart> Chart for HeadStart<C> {
    ghost meaning = { λ c. head_start c.lead.symbol c.lead.reads (C.Chart.meaning c.below) };

    ghost sound = { λ c. head_start_sound c.lead.symbol c.lead.reads (C.Chart.meaning c.below) (C.Chart.sound c.below) };

    fn count(&self, limit: u32) -> u32 {
        self.below.count(limit)
    }

    #[tactic(auto, using(crate::proofs::HeadStartRuns::read_more))]
    fn start(&self, limit: u32) -> u32 {
        let mut state = self.below.start(limit);
        for _read in 0..self.lead.reads {
            state = self.below.step(limit, state, self.lead.symbol);
        }
        state
    }

    fn step(&self, limit: u32, state: u32, symbol: u8) -> u32 {
        self.below.step(limit, state, symbol)
    }

    fn alarm(&self, limit: u32, state: u32) -> bool {
        self.below.alarm(limit, state)
    }
}
