/// Weights, one per column in the order of adding, and duals, one per order: whole numbers over the denominator.
#[derive(Drop)]
pub struct Pair {
    pub weights: Vec<i128>,
    pub duals: Vec<i128>,
    pub denominator: i128,
}
