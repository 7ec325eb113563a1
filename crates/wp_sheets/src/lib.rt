//! The texts of the sheets: a wave's heading and its batches with their tours and picks, the line of what usual rules
//! would walk, the section of a crew, and the lines of brackets, of refills and of rows.
#![tactic(auto)]

mod batch;
mod crew;
mod heading;
mod laws;
mod picks;
mod root;
mod rules;
mod stock_lines;

pub use batch::{BatchSheet, append_batch, print_batch};
pub use crew::{append_crew, print_crew};
pub use heading::{Heading, append_heading, print_heading};
pub use laws::batches_have_one_text;
pub use root::{RootLine, append_root, print_root};
pub use rules::{append_rules, print_rules};
pub use stock_lines::{append_refill, append_row, print_refill, print_row};
