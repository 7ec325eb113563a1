//! The machine that answers commands and keeps the journal of all that it answered.
#![tactic(auto)]

mod answers;
mod asking;
mod laws;
mod machine;
mod outcome;
mod prepared;

pub use asking::{Asking, answer_all};
pub use laws::{later_entries_cancel_waves, outcomes_come_with_their_replies};
pub use machine::{Machine, Ready, prepare};
pub use outcome::{Answer, Outcome, Refill, WaveHolds};
pub use wp_floor::Opening;
pub use wp_model::{Entries, Entry, Reply, Row, WaveState};
