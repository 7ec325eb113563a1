//! Served orders that go together as a search proposes, in waves that are right whatever it proposes.
#![tactic(auto)]

mod arranging;
mod gathering;
mod shape;

pub use arranging::arrange;
pub use wp_waves::OpenOrder;
