//! A walk for a choice of ways and crossings: from the depot past all picks and back.
#![tactic(auto)]

mod aisle;
mod ends;
mod path;
mod paths;
mod turns;
mod walk;

pub use walk::walk_of;
