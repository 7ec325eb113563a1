//! The lengths of tours from what is least past runs of neighbouring aisles: a summary has the least length from each
//! class before a run to each class after it, two summaries of neighbouring runs compose to that of both, and a
//! balanced tree of summaries composes anew only what further picks change. A tour of few picks goes by the aisles that
//! are needed alone: those with a pick, and the depot's. Some shortest tour walks no other aisle, so a run of aisles
//! between two needed ones is gone over at once, by crossings of one kind. The classes and ways are those of Ratliff
//! and Rosenthal, 1983.
#![tactic(auto)]

mod kept;
mod laws;
mod lengths;
mod needed;
mod passages;
mod row;
mod runs;
mod summary;
mod tree;

pub use kept::KeptWays;
pub use laws::{
    carried_lengths_are_told, composing_is_associative, last_lengths_are_told,
    stepping_is_composing,
};
pub use needed::tour_length;
pub use runs::Runs;
pub use summary::Summary;
