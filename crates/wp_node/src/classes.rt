ghost use Rattle.std.specs.Prelude.{IfOk, length, sum};
ghost use Rattle.wp_pairs.specs.Permitted.{AllDecided};
ghost use Rattle.wp_lengths.specs.Batchings.{IsBatching, IsCost, IsListedByLeast};
ghost use Rattle.wp_lengths.specs.Duals.{AreTight, units_of};

use std::alloc::Global;
use wp_lengths::{Batching, DualWave};
use wp_model::Memory;

/// The batching of a wave at a node at which all pairs of orders are decided: the classes of the orders that are to go
/// together, listed by their least orders. It costs what the tight duals of the node come to, in whole units.
pub fn class_batching(alloc: Global, given: &DualWave<'_>) -> Result<Batching, Memory>
    requires decided { AllDecided given.now.pairs.now }
    requires tight { AreTight given.now.wave.now given.now.pairs.now given.now.duals.now }
    ensures batching { IfOk result (IsBatching given.now.wave.now given.now.pairs.now.capacity) }
    ensures listed { IfOk result IsListedByLeast }
    ensures cost { IfOk result (λ batching. IsCost given.now.wave.now batching
        (units_of (sum given.now.duals.now))) }
{
    let pairs = given.pairs;
    let mut batches = Vec::new(alloc);
    for order in 0..pairs.orders() {
        let class = pairs.joined_to(order);
        if class.least() == Some(order) {
            batches.push(class)?;
        }
    }
    Ok(Batching::of(batches))
}
