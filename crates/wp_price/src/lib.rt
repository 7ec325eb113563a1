//! Pricing: the permitted batch of least slack under duals, and the short marks that show that duals are feasible.
#![tactic(auto)]

mod best;
mod least;
mod marking;
mod priced;
mod pricing;
mod search;
mod share;
mod short;
mod workers;

pub use best::comes_first;
pub use least::RAISE;
pub use priced::Priced;
pub use pricing::{are_feasible, least_slack, least_slack_by, short_marks};
pub use share::deal;
pub use workers::Workers;
