//! Waves of orders, the lengths of their batches, and duals of a wave's orders: what they come to, how far further
//! orders can reach, and the share duals. The definitions of batchings and what they cost, of feasible and tight duals,
//! and of the visit of all permitted batches that tests them, stand in `specs`.
#![tactic(auto)]

mod batching;
mod duals;
mod lengths;
mod marks;
mod paired;
mod places;
mod reach;
mod shares;
mod sums;
mod wave;

pub use batching::Batching;
pub use duals::{GREATEST_DUAL, OrderDuals, SIXTIETHS, units_of};
pub use lengths::{Later, Length};
pub use marks::Marks;
pub use paired::{DualWave, PairedWave};
pub use places::{Part, Places, Span};
pub use reach::{is_later, reach_of, take_best};
pub use shares::{share_of, shares_of};
pub use sums::{sum_of, total_of};
pub use wave::Wave;
