use wp_pairs::Batch;

// No promise rests on it: it says which batches a visit keeps, and each is told with its shortest length.
/// What the orders of a batch have in duals, all together.
pub fn total_in(duals: &[u64], batch: Batch) -> u64 {
    let mut total: u64 = 0;
    let mut rest = batch;
    for _ in 0..batch.len() {
        let Some(order) = rest.least() else {
            return total;
        };
        if let Some(dual) = duals.get(order as usize) {
            total = total.saturating_add(*dual);
        }
        if order < 64 {
            rest = rest.without(order);
        }
    }
    total
}
