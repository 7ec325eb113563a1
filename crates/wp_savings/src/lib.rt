//! Which orders go well together: seeds and savings propose waves, and orders that change places better them. Nothing
//! is promised of a proposal but that it gives each order a key: whoever takes it sees to it that waves are right.
#![tactic(auto)]

mod filling;
mod keys;
mod orders;
mod picks;
mod plan;
mod proposal;
mod search;

pub use filling::Sizes;
pub use keys::{Seeking, keys_for};
