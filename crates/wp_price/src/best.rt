ghost use Rattle.std.specs.Prelude.{◌≡◌, false, length, true};
ghost use Rattle.wp_price.specs.Bests.{IsBestAmong, IsBetterOf, IsNoWorse};
ghost use Rattle.wp_price.specs.Slacks.{comes_before};

use wp_pairs::Batch;

/// A batch and its slack, raised by eight times the greatest dual, so that it is never below 0.
#[derive(Clone, Copy)]
pub struct LeastBatch {
    pub batch: Batch,
    pub raised: u64,
}

/// Whether the list of orders of one batch comes before that of another.
pub fn comes_first(left: Batch, right: Batch) -> bool
    ensures { result ≡ comes_before left right }
{
    match (left.least(), right.least()) {
        (None, None) => false,
        (None, Some(_)) => true,
        (Some(_), None) => false,
        (Some(first), Some(second)) => {
            if first < second {
                true
            } else if second < first {
                false
            } else {
                comes_first(left.without(first), right.without(second))
            }
        }
    }
}

// Whether a batch is better than another: it has less slack, or the same slack and comes first.
fn is_better(next: &LeastBatch, best: &LeastBatch) -> bool
    ensures better { result ≡ true → IsNoWorse next.now best.now }
    ensures no_better { result ≡ false → IsNoWorse best.now next.now }
{
    if next.raised == best.raised {
        return comes_first(next.batch, best.batch);
    }
    next.raised < best.raised
}

/// The better of the best batch so far and the next.
pub fn better_of(best: Option<LeastBatch>, next: LeastBatch) -> LeastBatch
    ensures { IsBetterOf best next result }
{
    match best {
        Some(best) => { if is_better(&next, &best) { next } else { best } }
        None => next,
    }
}

/// The best of the best so far and of those that workers found.
pub fn best_of(best: Option<LeastBatch>, found: &[Option<LeastBatch>]) -> Option<LeastBatch>
    ensures { IsBestAmong best found.now (length found.now) result }
{
    let mut least = best;
    for worker in 0..found.len() {
        if let Some(next) = found[worker] {
            least = Some(better_of(least, next));
        }
    }
    least
}
