//! One value that many callers share in turn, with one history of all calls.
#![tactic(auto)]

mod not_all;
mod pass;
mod passes;
mod patience;
mod receipt;
mod rule;
mod turn;
mod turned;
mod view;

pub use not_all::NotAll;
pub use pass::Pass;
pub use passes::Passes;
pub use receipt::Receipt;
pub use turn::Turn;
pub use turned::Turned;
