ghost use Rattle.std.specs.Prelude.{◌≡◌, ◌*◌, ◌≤◌, sum};
ghost use Rattle.std.specs.Int.{div_ceil};
ghost use Rattle.wp_cuts.specs.Counts.{least_batches};

use wp_lengths::Wave;
use wp_pairs::{Capacity, Cart};

// What all orders load together.
fn whole_load(cart: &Cart) -> u64
    ensures is { result ≡ sum cart.now.loads }
    ensures small { result ≤ 64 * cart.now.units }
{
    let mut total: u64 = 0;
    for order in 0..cart.orders() {
        total += u64::from(cart.load(order));
    }
    total
}

// How many carts the loads of all orders fill.
fn carts_filled(cart: &Cart) -> u64
    ensures is { result ≡ div_ceil (sum cart.now.loads) cart.now.units }
    ensures small { result ≤ 64 }
{
    let units = u64::from(cart.units());
    whole_load(cart).div_ceil(units)
}

/// The least number of batches of a wave for a capacity: each batching has at least so many. It is the number of
/// orders over the capacity, rounded up, or as many as fill carts with their loads, whichever is more.
pub fn least_batches(wave: &Wave, capacity: Capacity) -> u64
    ensures is { result ≡ least_batches wave.now capacity.most }
    ensures small { result ≤ 64 }
{
    let by_orders = u64::from(wave.orders()).div_ceil(u64::from(capacity.most));
    match wave.cart() {
        None => by_orders,
        Some(cart) => by_orders.max(carts_filled(&cart)),
    }
}
