//! Waves of open orders, sent out over a machine: a desk submits and releases each under its name.
#![tactic(auto)]

mod names;
mod sending;
mod untaken;

pub use names::SubmittedNames;
pub use sending::send_out;
pub use untaken::untaken_orders;
