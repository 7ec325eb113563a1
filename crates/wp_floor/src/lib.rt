//! The floor on which the commands of desks are done: the stock book, the waves, and who has which order. Each command
//! is one step of it, which takes no memory: what it needs was made before.
#![tactic(auto)]

mod allotting;
mod cancelling;
mod floor;
mod held;
mod holding;
mod opening;
mod picking;
mod receiving;
mod refilling;
mod releasing;
mod standing;
mod submitting;
mod wanting;
mod waves;

pub use floor::Floor;
pub use held::Claim;
pub use holding::Rooms;
pub use opening::Opening;
pub use refilling::Missed;
pub use releasing::Released;
pub use submitting::{NewWave, size_fault};
pub use waves::HeldOrders;
