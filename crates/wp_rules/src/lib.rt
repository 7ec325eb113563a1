//! What three usual rules would walk: the stops of each rule, and the straight way from stop to stop.
#![tactic(auto)]

mod aisles;
mod depths;
mod gap;
mod rule;
mod stops;
mod straight;
mod walk;

pub use rule::Rule;
pub use walk::{rule_length, rule_walk};
