//! The work at one node of the search for a wave's plan: the duals that it has of its own, by a linear program over
//! columns and by raising, and the pair of orders on which it is split. What that costs of a budget, and the share
//! duals with which a search begins.
#![tactic(auto)]

mod ascent;
mod bound;
mod choice;
mod classes;
mod columns;
mod finds;
mod own;
mod price;
mod raise;
mod shares;
mod totals;
mod visit;
mod work;

pub use choice::choose_pair;
pub use classes::class_batching;
pub use own::NodeOwn;
pub use price::{pays, price_of};
pub use shares::share_duals;
pub use work::{Weighted, Worked, work_node};
