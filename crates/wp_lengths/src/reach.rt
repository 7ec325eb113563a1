ghost use Rattle.std.specs.Prelude.{◌≡◌, ◌+◌, ◌<◌, ◌≤◌, ◌↔◌, ℕ, All, IsTrue, length};
ghost use Rattle.wp_lengths.specs.Reaches.{HaveMost, IsBestBelow, IsLargerOf};
ghost use Rattle.wp_lengths.specs.Visits.{IsLater, IsReach};

use crate::sums::sum_of;
use wp_pairs::{Batch, Pairs};

/// Whether the item of an order is named by this order or a later one.
pub fn is_later(pairs: &Pairs, from: u32, order: u32) -> bool
    requires { order < pairs.now.orders }
    ensures { IsTrue result ↔ IsLater pairs.now from order }
{
    match pairs.joined_to(order).least() {
        Some(least) => from <= least,
        None => false,
    }
}

// Orders that are taken of those of items that are named by an order or later ones, with the pairs of all orders and
// their duals.
#[derive(Clone, Copy)]
struct Taken<'a> {
    pairs: &'a Pairs,
    duals: &'a [u64],
    orders: Batch,
    from: u32,
    pub ghost count: { length duals.now ≡ pairs.now.orders },
}

// The better of the best further order so far and the next.
fn better_of(taken: &Taken<'_>, best: Option<u32>, next: u32) -> Option<u32>
    requires known { next < taken.now.pairs.now.orders }
    requires best { IsBestBelow taken.now.pairs.now taken.now.duals.now taken.now.orders
        taken.now.from next best }
    ensures { IsBestBelow taken.now.pairs.now taken.now.duals.now taken.now.orders taken.now.from
        (next + 1) result }
{
    if taken.orders.has(next) || !is_later(taken.pairs, taken.from, next) {
        return best;
    }
    match best {
        None => Some(next),
        Some(known) => Some(larger_of(taken.duals, known, next)),
    }
}

// The order with the larger dual of two, the first of equals.
fn larger_of(duals: &[u64], first: u32, second: u32) -> u32
    requires first { first < length duals.now }
    requires second { second < length duals.now }
    ensures { IsLargerOf duals.now first second result }
{
    if duals[first as usize] < duals[second as usize] {
        second
    } else {
        first
    }
}

/// Of orders that have the most in duals of as many orders of items that are named by an order or later ones: the same
/// with one order more, the best of those that are left, where one is left.
pub fn take_best(pairs: &Pairs, duals: &[u64], taken: Batch, from: u32) -> Batch
    requires count { length duals.now ≡ pairs.now.orders }
    ensures { (count : ℕ) → HaveMost pairs.now duals.now from count taken
        → HaveMost pairs.now duals.now from (count + 1) result }
{
    let given = Taken {
        pairs,
        duals,
        orders: taken,
        from,
    };
    let mut best = None;
    for next in from..pairs.orders() {
        best = better_of(&given, best, next);
    }
    match best {
        Some(order) => taken.with(order),
        None => taken,
    }
}

/// The most that further orders can add to what a place has in duals, if they are of items that are named by this order
/// or later ones, and the place has room for them.
pub fn reach_of(pairs: &Pairs, duals: &[u64], place: Batch, from: u32) -> u128
    requires count { length duals.now ≡ pairs.now.orders }
    requires fits { length place ≤ pairs.now.capacity }
    ensures { IsReach pairs.now duals.now place from result }
{
    let mut taken = Batch::empty();
    for _ in place.len()..pairs.capacity() {
        taken = take_best(pairs, duals, taken, from);
    }
    sum_of(duals, taken)
}
