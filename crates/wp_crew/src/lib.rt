//! Batches for pickers: each length is dealt to one of them, so that the longest load is short, and how short it can be
//! at best is told beside it.
#![tactic(auto)]

mod crew;
mod deal;
mod loads;
mod numbers;
mod turns;

pub use crew::{Crew, assign};
