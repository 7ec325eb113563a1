//! The search for a cheapest batching of a wave, and for a bound that shows how near it is.
#![tactic(auto)]

mod best;
mod branch;
mod cost;
mod listing;
mod plan;
mod planning;
mod search;
mod turn;
mod whole;

pub use branch::{Branch, Cut};
pub use cost::cost_of;
pub use listing::list_nodes;
pub use plan::{Planned, State};
pub use planning::plan_wave;
