//! The shortest tour by the method of Ratliff and Rosenthal, 1983: aisle by aisle, by the seven classes of what is left
//! of an aisle, the six ways through it and the five crossings to the next.
#![tactic(auto)]

mod choice;
mod class;
mod lengths;
mod tour;

pub use choice::Choice;
pub use class::{Class, Cross, Way, after_cross, after_way};
pub use tour::{tour_choice, tour_length};
