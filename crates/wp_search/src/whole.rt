ghost use Rattle.std.specs.Prelude.{◌<◌, ℕ, Contains, IfOk, IsTrue, length};
ghost use Rattle.wp_lengths.specs.Batchings.{IsBatching};
ghost use Rattle.wp_search.specs.Turns.{IsRestFound};

use std::alloc::Global;
use wp_batch::improved;
use wp_lengths::{Batching, Wave};
use wp_model::Memory;
use wp_pairs::{Batch, Capacity};

// Whether a batch has all orders below a number.
fn has_all(orders: u32, batch: Batch) -> bool
    ensures { IsTrue result → (order : ℕ) → order < orders → Contains batch order }
{
    for order in 0..orders {
        if !batch.has(order) {
            return false;
        }
    }
    true
}

/// Whether batches are a batching of a wave within a capacity: each is permitted and fits the cart, if the wave has
/// one, no two meet, and each order is in one.
pub fn is_batching(wave: &Wave, capacity: Capacity, batches: &[Batch]) -> bool
    ensures { IsTrue result → IsBatching wave.now capacity.most batches.now }
{
    let pairs = wave.pairs(capacity.most);
    let mut covered = Batch::empty();
    for batch in batches {
        if !pairs.permits(*batch) || covered.meets(*batch) {
            return false;
        }
        covered = covered.union(*batch);
    }
    has_all(wave.orders(), covered)
}

/// The batching that batches are, improved by moves and joins that save. None comes where they are no batching of the
/// wave within the capacity. `Memory` comes only where memory is wanting.
pub fn better_batching(
    alloc: Global,
    wave: &Wave,
    capacity: Capacity,
    batches: &[Batch],
) -> Result<Option<Batching>, Memory>
    ensures { IfOk result (IsRestFound wave.now capacity.most) }
{
    if !is_batching(wave, capacity, batches) {
        return Ok(None);
    }
    Ok(Some(improved(alloc, wave, capacity.most, batches)?))
}
