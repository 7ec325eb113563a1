//! The stock, the orders and the desks' commands, read from tables of comma-separated fields.
//!
//! Each reader goes over the records of its table one at a time, and answers with what the whole table says or with
//! the first record that isn't read and why.
#![tactic(auto)]

mod fault;
mod fields;
mod hashing;
mod laws;
mod orders;
mod records;
mod scripts;
mod stock;
mod word;

pub use fault::{RowFault, Why};
pub use fields::{read_name, read_number_in, three_texts};
pub use hashing::FileKey;
pub use laws::first_faults_are_told;
pub use orders::{Orders, read_orders};
pub use records::Records;
pub use scripts::{Scripts, read_desks};
pub use stock::{Stock, read_stock};
pub use wp_model::{Command, Line, Location, Memory, Name, Names, Side, StockRow};
