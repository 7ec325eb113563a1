//! A day of up to eight desks, each in a thread of its own: they give their commands to the one machine in turn, and
//! plan the waves that they send out beside each other.
#![tactic(auto)]

mod day_run;
mod desk;
mod desks;
mod planner;
mod run;
mod shared;
mod told;

pub use day_run::{DayRun, Planned};
pub use planner::Planner;
pub use run::run_desks;
