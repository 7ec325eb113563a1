//! Reaches: by the number of orders, the most that so many orders of the items from one on have in duals. Those from an
//! order on are made of those after it, the last first.
ghost use Rattle.std.specs.Prelude.{◌≡◌, ◌+◌, ◌*◌, ◌<◌, ◌≤◌, ℕ, All, IfOk, length, replicate};
ghost use Rattle.wp_lengths.specs.Duals.{duals_of};
ghost use Rattle.wp_pairs.specs.Permitted.{AreJoined};
ghost use Rattle.wp_visit.specs.Items.{AreReachesBelow, AreReachesFrom, most_dual};

use crate::item::Given;
use std::alloc::Global;
use wp_lengths::{is_later, sum_of, take_best};
use wp_model::Memory;
use wp_pairs::Batch;

// Nothing for any number of orders.
fn no_reaches() -> [u64; 9]
    ensures { result ≡ replicate 9 0 }
{
    [0; 9]
}

/// What the orders of a batch have in duals, all together.
pub fn sum_in(given: &Given<'_>, batch: Batch) -> u64
    requires { All (λ order. order < given.now.paired.pairs.now.orders) batch }
    ensures is { result ≡ duals_of given.now.duals.now batch }
    ensures small { result ≤ most_dual * length batch }
{
    let _size = batch.len();
    sum_of(given.duals, batch) as u64
}

// For each number of orders up to the capacity, the most that so many orders of items from this one on have in duals:
// they are taken one by one, the best first.
fn reaches_of(given: &Given<'_>, from: u32) -> [u64; 9]
    ensures reaches { AreReachesBelow given.now.paired.pairs.now given.now.duals.now from
        (given.now.paired.pairs.now.capacity + 1) result }
    ensures few { given.now.paired.pairs.now.capacity ≤ 8 }
{
    let pairs = given.paired.pairs;
    let mut reaches = no_reaches();
    let mut taken = Batch::empty();
    for room in 0..pairs.capacity() {
        taken = take_best(pairs, given.duals, taken, from);
        reaches[room as usize + 1] = sum_in(given, taken);
    }
    reaches
}

// The reaches of the items from an order on, of those after it, where no other order is joined to that order: it is
// taken, or it isn't.
fn reaches_with(given: &Given<'_>, order: u32, after: &[u64; 9]) -> [u64; 9]
    requires known { order < given.now.paired.pairs.now.orders }
    requires alone { (other : ℕ) → AreJoined given.now.paired.pairs.now.pairs order other → other ≡ order }
    requires after { AreReachesBelow given.now.paired.pairs.now given.now.duals.now (order + 1)
        (given.now.paired.pairs.now.capacity + 1) after.now }
    ensures { AreReachesBelow given.now.paired.pairs.now given.now.duals.now order
        (given.now.paired.pairs.now.capacity + 1) result }
{
    let dual = given.duals[order as usize];
    let mut reaches = no_reaches();
    for room in 0..given.paired.pairs.capacity() as usize {
        reaches[room + 1] = after[room + 1].max(after[room] + dual);
    }
    reaches
}

// The reaches of the items from an order on, of those after it.
fn reaches_before(given: &Given<'_>, order: u32, after: &[u64; 9]) -> [u64; 9]
    requires known { order < given.now.paired.pairs.now.orders }
    requires after { AreReachesBelow given.now.paired.pairs.now given.now.duals.now (order + 1)
        (given.now.paired.pairs.now.capacity + 1) after.now }
    ensures { AreReachesBelow given.now.paired.pairs.now given.now.duals.now order
        (given.now.paired.pairs.now.capacity + 1) result }
{
    let pairs = given.paired.pairs;
    if !is_later(pairs, order, order) {
        return *after;
    }
    if pairs.joined_to(order).len() == 1 {
        return reaches_with(given, order, after);
    }
    reaches_of(given, order)
}

/// For each order from the number of orders down to 0 the reaches of the items from it on.
pub fn all_reaches(alloc: Global, given: &Given<'_>) -> Result<Vec<[u64; 9]>, Memory>
    ensures count { IfOk result (λ all. length all.items ≡ given.now.paired.pairs.now.orders + 1) }
    ensures reaches { IfOk result (λ all.
        AreReachesFrom given.now.paired.pairs.now given.now.duals.now all.items) }
{
    let orders = given.paired.pairs.orders();
    let mut all = Vec::new(alloc);
    let mut reaches = reaches_of(given, orders);
    for passed in 0..orders {
        all.push(reaches)?;
        reaches = reaches_before(given, orders - 1 - passed, &reaches);
    }
    all.push(reaches)?;
    Ok(all)
}
