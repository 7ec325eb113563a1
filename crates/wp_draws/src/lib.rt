//! Numbers that are drawn one after the other: they follow from a first state alone, and are the same on each machine.
#![tactic(auto)]

mod draws;

pub use draws::{Draws, next_state};
