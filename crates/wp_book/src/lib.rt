//! The stock book: the rows as they stand, and the units that are held in them for the orders of waves.
#![tactic(auto)]

mod book;
mod holds;
mod index;
mod room;
mod rows;
mod sorted;

pub use book::StockBook;
pub use room::Room;
pub use wp_model::{Hold, Row};
