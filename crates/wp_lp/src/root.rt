use wp_pairs::Batch;

/// A fractional cover and feasible duals of a wave's orders, all over one denominator: batches with a weight for each,
/// a dual for each order, the sum of the duals, and the sum of the weights, each times the shortest length of its
/// batch.
#[derive(Drop)]
pub struct Root {
    pub batches: Vec<Batch>,
    pub weights: Vec<i128>,
    pub duals: Vec<i128>,
    pub denominator: i128,
    pub low: i128,
    pub high: i128,
    pub state: RootState,
}

/// How the search for a bracket ended.
#[derive(Clone, Copy, PartialEq, Eq)]
pub enum RootState {
    /// The two sides are apart by less than a sixtieth of a unit for each order.
    Narrow,
    /// As many rounds as were allowed have each found a batch.
    Rounds { made: u64 },
    /// As many pivots as a pool is given were made, and a further one was left to make.
    Turns { made: u64 },
    /// Two numbers of a pool's solution whose product leaves an `i128`.
    Wide { left: i128, right: i128 },
}
