// Control charts, each known by its meaning.
#![tactic(auto)]

mod chart;
mod checks;
mod cusum;
mod edge;
mod ranges;
mod refusal;
mod scores;
mod zone;
mod zone_parameters;

pub use chart::Chart;
pub use checks::check_range;
pub use cusum::Cusum;
pub use edge::Edge;
pub use ranges::{MAX_LIMIT, MAX_STATES, SYMBOLS, is_valid, is_within};
pub use refusal::Refusal;
pub use scores::Scores;
pub use zone::Zone;
pub use zone_parameters::ZoneParameters;
