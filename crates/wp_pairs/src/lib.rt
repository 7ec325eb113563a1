//! Batches of a wave's orders, and the pairs of orders that are to go together or apart.
#![tactic(auto)]

mod batch;
mod capacity;
mod cart;
mod pair;
mod pairs;
mod rows;

pub use batch::Batch;
pub use capacity::Capacity;
pub use cart::Cart;
pub use pair::OrderPair;
pub use pairs::Pairs;
