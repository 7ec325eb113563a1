//! One visit of all permitted batches, depth first, for whoever looks at them: a visitor is shown each place, the batch
//! of no order or a permitted batch, and says whether those that extend it follow. What the visit comes past, and in
//! which order, is proved once.
#![tactic(auto)]

mod further;
mod item;
mod place;
mod step;
mod visit;
mod visitor;
mod walk;

pub use place::Place;
pub use step::Step;
pub use visit::{MOST_DUAL, Visit};
pub use visitor::Visitor;
