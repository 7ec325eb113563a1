use wp_cert::Tree;
use wp_lengths::Batching;

/// Whether a plan is shown to be cheapest.
#[derive(Clone, Copy, PartialEq, Eq)]
pub enum State {
    /// Its bound is its cost: no batching costs less.
    Proven,
    /// Its bound is below its cost.
    Open,
}

/// A plan of a wave: its batches, listed by their least orders; their cost, in units of length; a right tree and its
/// bound, below which no batching costs; and whether the bound is the cost.
#[derive(Drop)]
pub struct Planned {
    pub batching: Batching,
    pub cost: u64,
    pub tree: Tree,
    pub bound: u64,
    pub state: State,
}
