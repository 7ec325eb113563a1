//! The start of a plan: a first way to put a wave's orders into batches, by merging and moves that are drawn, and the
//! moves and joins that save in any batching. What a wave, its batches and their lengths are stands in `wp_lengths`.
#![tactic(auto)]

mod changes;
mod improve;
mod instance;
mod last_places;
mod listing;
mod merge;
mod moves;
mod near;
mod seen;
mod split;
mod starts;
mod walk;

pub use merge::{improved, joined, merged_start, start_after};
pub use wp_lengths::{Batching, Marks, Wave};
