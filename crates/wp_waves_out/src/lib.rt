//! Waves of open orders that are sent out over a machine, each with what the planner's start costs for it, and the text
//! that tells them and the orders that are left.
#![tactic(auto)]

mod outgoing;
mod sent_out;
mod starts;
mod turns;

pub use outgoing::outgoing_text;
pub use sent_out::WaveTerms;
