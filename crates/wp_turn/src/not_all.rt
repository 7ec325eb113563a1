use crate::passes::Passes;
use crate::turn::Turn;
use crate::turned::Turned;

/// What closing hands back, where the passes stand for fewer callers than there are.
#[derive(Drop)]
pub struct NotAll<V: Turned> {
    /// The turn, unchanged.
    pub turn: Turn<V>,
    /// The passes, unchanged.
    pub passes: Passes<V>,
    /// For how many callers the passes stand.
    pub given: u32,
    /// How many passes were made at the opening.
    pub made: u32,
}
