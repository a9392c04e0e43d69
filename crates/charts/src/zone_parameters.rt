// The parameters of a zone rule.
ghost use Rattle.std.specs.Prelude.{◌≡◌, ◌≤◌, true};
ghost use Rattle.charts.specs.Checks.{Checked};
ghost use Rattle.charts.specs.Edge.{edge_fits};
ghost use Rattle.charts.specs.Refusal.{number};
ghost use Rattle.charts.specs.Zone.{zone_checks};

use crate::checks::check_range;
use crate::edge::Edge;
use crate::refusal::Refusal;

const MAX_WINDOW: u8 = 8;

// How many members of how many last courses alarm, and where the zone begins: k, m and the edge, with
// 1 <= k <= m <= 8, and an edge from 0 to 16 or at the limit.
#[derive(Clone, Copy)]
pub struct ZoneParameters {
    pub(crate) hits: u8,
    pub(crate) window: u8,
    pub(crate) edge: Edge,
    ghost some: { 1 ≤ hits },
    ghost fewer: { hits ≤ window },
    ghost short: { window ≤ 8 },
    ghost fits: { edge_fits edge ≡ true },
}

impl ZoneParameters {
    // Refuses a number out of range, and k above m; else holds the parameters.
    pub fn new(hits: u8, window: u8, edge: Edge) -> Result<ZoneParameters, Refusal>
        ensures { Checked number (zone_checks hits window edge) (Unit {0}) (λ z. (z.hits ≡ hits) × (z.window ≡ window) × (z.edge ≡ edge)) result }
    {
        check_range(hits, 1, MAX_WINDOW)?;
        check_range(window, 1, MAX_WINDOW)?;
        if hits > window {
            return Err(Refusal::HitsAboveWindow);
        }
        if !edge.fits() {
            return Err(Refusal::OutOfRange);
        }
        Ok(ZoneParameters { hits, window, edge })
    }
}
