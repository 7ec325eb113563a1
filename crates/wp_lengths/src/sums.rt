ghost use Rattle.std.specs.Prelude.{◌≡◌, ◌<◌, All, length, sum};
ghost use Rattle.wp_lengths.specs.Duals.{duals_of};

use wp_pairs::Batch;

/// What the orders of a batch have in duals, all together.
pub fn sum_of(duals: &[u64], batch: Batch) -> u128
    requires known { All (λ order. order < length duals.now) batch }
    ensures { result ≡ duals_of duals.now batch }
{
    if batch.len() == 0 {
        return 0;
    }
    let mut total = 0;
    for order in 0..duals.len().min(64) as u32 {
        if batch.has(order) {
            total += u128::from(duals[order as usize]);
        }
    }
    total
}

/// All duals together.
pub fn total_of(duals: &[u64]) -> u128
    ensures { result ≡ sum duals.now }
{
    let mut total = 0;
    for order in 0..duals.len() {
        total += u128::from(duals[order]);
    }
    total
}
