//! A bracket of a wave's linear bound: feasible duals and a fractional cover over one denominator, from the batches
//! that are priced under the duals of a linear program in whole numbers.
#![tactic(auto)]

mod bracket;
mod cover;
mod halt;
mod known;
mod open_wave;
mod part;
mod root;
mod round;
mod sixtieths;
mod start;
mod trim;
mod whole;
mod wide;

pub use bracket::{root_after, root_pair};
pub use halt::Halt;
pub use known::Known;
pub use root::{Root, RootState};
pub use round::{scalable, solved};
