//! A pool of columns, each a batch of a wave's orders with its length, and the whole-number tables in which a linear
//! program over the pool is solved by pivots.
#![tactic(auto)]

mod choice;
mod column;
mod divisor;
mod fault;
mod filled;
mod grid;
mod master;
mod pair;
mod pool;
mod run;
mod spot;
mod start;
mod table;
mod wide;

pub use column::Column;
pub use fault::MasterFault;
pub use master::solve;
pub use pair::Pair;
pub use pool::Pool;
pub use table::Table;
pub use wide::TooWide;
