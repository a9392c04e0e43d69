// Layers: charts over any chart, each again a chart.
#![tactic(auto)]

mod confirm;
mod head_start;
mod lead;
mod pairs;
mod repeats;
mod reset;
mod union;

pub use confirm::Confirm;
pub use head_start::HeadStart;
pub use lead::Lead;
pub use repeats::Repeats;
pub use reset::Reset;
pub use union::Union;
