//! The warehouse as a graph: its layout, its points and the moves between them, the length of a walk, sets of picks,
//! and the ways through an aisle.
#![tactic(auto)]

mod layout;
mod moves;
mod offsets;
mod picks;
mod walks;
mod ways;

pub use layout::Layout;
pub use moves::is_move;
pub use picks::Picks;
pub use walks::walk_length;
pub use ways::{AisleWays, aisle_ways};
pub use wp_model::Point;
