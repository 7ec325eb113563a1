//! The plan of a wave that went out: its batches and their bound, and its sheet; and the crew to which the batches of a
//! day are dealt.
#![tactic(auto)]

mod bracket;
mod crew;
mod day_planner;
mod laws;
mod loads;
mod planner;
mod released;
mod sent;
mod sheet;
mod slots;
mod terms;
mod tours;
mod waves;

pub use crew::{DayBatches, DayCrew, crew_for};
pub use day_planner::{DayPlanner, PlansWaves};
pub use laws::{checks_tell_the_bound_of_the_heading, waves_that_go_out_are_filled};
pub use planner::{Planning, WavePlan, plan_for};
pub use sent::plan_sent;
pub use sheet::{SentWave, print_sheet};
pub use terms::Terms;
