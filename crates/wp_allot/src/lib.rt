//! Stock for a wave: whether what is free covers what its orders want, and holding it by overlap. The free units of an
//! article's rows lie end to end on a line, and so do the demands of the orders; an order takes from a row what their
//! two intervals have in common.
#![tactic(auto)]

mod cover;
mod deal;
pub mod gathered;
mod mark;
mod serve;
mod want;

pub use cover::short_article;
pub use deal::allot;
pub use want::{Short, Want};
