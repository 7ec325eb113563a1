//! Waves made of open orders: the open file, which of its orders go out now, and in which waves.
#![tactic(auto)]

mod day;
mod fault;
mod free_stock;
mod laws;
mod open_orders;
mod standings;
mod turns;
mod waves;

pub use day::OpenDay;
pub use fault::{OpenFileFault, OpenWhy};
pub use free_stock::{FreeStock, Shortage};
pub use laws::served_orders_are_covered_wave_by_wave;
pub use open_orders::{OpenOrder, read_open};
pub use standings::{Standing, standing_of, waiting};
pub use turns::{OrderTurn, serve, served};
pub use waves::fill_waves;
