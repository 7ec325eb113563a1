//! What waves that go out take from a machine, the wave that has each open order and the free units of each article;
//! and what they leave to it: the desk file that is printed for them is read as just the commands that send them out.
#![tactic(auto)]

mod free_stock;
mod laws;
mod takers;

pub use free_stock::free_stock_of;
pub use laws::{printed_desk_files_are_read, waves_of_served_orders_may_be_printed};
pub use takers::takers_of;
