use wp_model::{Holds, Name, Names, Reply};

/// All that a wave holds just after its release: the number of the release's entry, the wave, its orders in order,
/// and its holds by order and then by row. A hold's order is a place in the wave, and its row a number.
#[derive(Drop)]
pub struct WaveHolds {
    pub number: u64,
    pub wave: Name,
    pub orders: Names,
    pub holds: Holds,
}

/// What was held in place of units that were lost: the number of the loss's entry, the wave, the order, and the holds
/// by row.
#[derive(Drop)]
pub struct Refill {
    pub number: u64,
    pub wave: Name,
    pub order: Name,
    pub holds: Holds,
}

/// What a step tells beside its reply.
#[derive(Drop)]
pub enum Outcome {
    Plain,
    Released(WaveHolds),
    Refilled(Refill),
}

/// What a step answers: the number of its entry, counted from 0, the reply, and what it tells beside it.
#[derive(Drop)]
pub struct Answer {
    pub number: u64,
    pub reply: Reply,
    pub outcome: Outcome,
}
