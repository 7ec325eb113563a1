ghost use Rattle.std.specs.Prelude.{◌≡◌, ◌≢◌, ◌≤◌, ◌<◌, ◌↔◌, ℕ, Some, IfNone, IfOk, IfSome, IsTrue, length, slice_get};
ghost use Rattle.wp_lengths.specs.Batchings.{IsBatching, IsListedByLeast, batch_at};
ghost use Rattle.wp_batch.specs.Joins.{CostNoMore};

use crate::instance::Instance;
use std::alloc::Global;
use wp_model::Memory;
use wp_pairs::Batch;

// Whether an order is the least of a batch.
fn begins_with(batch: Batch, order: u32) -> bool
    ensures { IsTrue result ↔ (slice_get batch 0 ≡ Some order) }
{
    batch.least() == Some(order)
}

// The place of the batch with this least order.
fn place_of(batches: &[Batch], order: u32) -> Option<usize>
    ensures none { IfNone result ((place : ℕ) → place < length batches.now
        → slice_get (batch_at batches.now place) 0 ≢ Some order) }
    ensures within { IfSome result (λ place. place < length batches.now) }
    ensures least { IfSome result (λ place. slice_get (batch_at batches.now place) 0 ≡ Some order) }
{
    for (place, batch) in batches.iter().enumerate() {
        if begins_with(*batch, order) {
            return Some(place);
        }
    }
    None
}

/// The same batches, listed by their least orders.
pub fn listed(
    alloc: Global,
    instance: &Instance<'_>,
    batches: &[Batch],
) -> Result<Vec<Batch>, Memory>
    requires batching { IsBatching instance.now.wave.now instance.now.capacity batches.now }
    ensures batching { IfOk result (λ listed.
        IsBatching instance.now.wave.now instance.now.capacity listed.items) }
    ensures listed { IfOk result (λ listed. IsListedByLeast listed.items) }
    ensures few { IfOk result (λ listed. length listed.items ≤ 64) }
    ensures no_dearer { IfOk result (λ listed.
        CostNoMore instance.now.wave.now batches.now listed.items) }
{
    let mut listed = Vec::new(alloc);
    for order in 0..instance.wave.orders() {
        if let Some(place) = place_of(batches, order) {
            listed.push(batches[place])?;
        }
    }
    Ok(listed)
}
