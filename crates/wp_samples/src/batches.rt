ghost use Rattle.std.specs.Prelude.{◌<◌, All, IfSome};

use wp_lengths::Batching;
use wp_pairs::Batch;

/// The batch of these orders, where all are below so many.
pub fn batch_below(orders: &[u32], below: u32) -> Option<Batch>
    ensures { IfSome result (λ batch. All (λ order. order < below) batch) }
{
    let mut batch = Batch::empty();
    for order in orders {
        if *order >= below || *order >= 64 {
            return None;
        }
        batch = batch.with(*order);
    }
    Some(batch)
}

/// The batch of those of these orders that are below 64.
pub fn batch_of(orders: &[u32]) -> Batch {
    let mut batch = Batch::empty();
    for order in orders {
        if *order < 64 {
            batch = batch.with(*order);
        }
    }
    batch
}

/// Whether a batch has exactly these orders.
pub fn has_exactly(batch: Batch, orders: &[u32]) -> bool {
    for order in orders {
        if !batch.has(*order) {
            return false;
        }
    }
    batch.len() as usize == orders.len()
}

/// Whether the batches are these, in this order.
pub fn are_exactly(batching: &Batching, batches: &[&[u32]]) -> bool {
    if batching.len() as usize != batches.len() {
        return false;
    }
    for (batch, orders) in batching.as_slice().iter().zip(batches) {
        if !has_exactly(*batch, orders) {
            return false;
        }
    }
    true
}
