ghost use Rattle.std.specs.Prelude.{◌≤◌, ◌<◌, ◌^◌, length};
ghost use Rattle.wp_lengths.specs.Duals.{IsShare, IsSumOfShares};

use crate::duals::SIXTIETHS;
use crate::wave::Wave;
use wp_pairs::{Batch, Capacity};

/// The share dual of an order: sixty times the length of a tour for it alone, divided by the capacity and rounded
/// down. It is below 2 ^ 34.
pub fn share_of(wave: &Wave, capacity: Capacity, order: u32) -> u64
    requires few { length wave.now.orders ≤ 64 }
    requires known { order < length wave.now.orders }
    ensures is { IsShare wave.now capacity.most order result }
    ensures small { result < 2 ^ 34 }
{
    let alone = wave.batch_length(Batch::empty().with(order));
    SIXTIETHS * alone / u64::from(capacity.most)
}

/// The sum of the share duals: of each order sixty times the length of a tour for it alone, divided by the capacity and
/// rounded down.
pub fn shares_of(wave: &Wave, capacity: Capacity) -> u128
    ensures { IsSumOfShares wave.now capacity.most result }
{
    let mut total: u128 = 0;
    for order in 0..wave.orders() {
        total += u128::from(share_of(wave, capacity, order));
    }
    total
}
