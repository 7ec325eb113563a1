//! The made input: the four files of a day in a warehouse, as large as is asked for, drawn from a number.
//!
//! The same number and size always make the same files, and the readers accept them.
#![tactic(auto)]

mod desks;
mod generator;
mod input;
mod layout;
mod orders;
mod stock;

pub use generator::{Generator, MadeLine};
pub use input::{Input, Size, make};
pub use layout::made_layout;
pub use wp_model::Memory;
