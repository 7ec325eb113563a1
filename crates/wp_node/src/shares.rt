ghost use Rattle.std.specs.Prelude.{◌≡◌, ◌≤◌, IfOk, length, sum};
ghost use Rattle.wp_lengths.specs.Duals.{AreShares};

use std::alloc::Global;
use wp_lengths::{OrderDuals, Wave, share_of};
use wp_model::Memory;
use wp_pairs::Capacity;

/// The share duals of a wave's orders, in sixtieths of a unit.
pub fn share_duals(alloc: Global, wave: &Wave, capacity: Capacity) -> Result<OrderDuals, Memory>
    ensures { IfOk result (AreShares wave.now capacity.most) }
{
    let mut duals = Vec::new(alloc);
    for order in 0..wave.orders() {
        duals.push(share_of(wave, capacity, order))?;
    }
    Ok(OrderDuals::of(duals))
}
