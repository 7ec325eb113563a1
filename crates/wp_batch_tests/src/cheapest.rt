use crate::starts::{length_within, start_cost};
use std::alloc::Global;
use wp_draws::Draws;
use wp_lengths::Wave;
use wp_pairs::Batch;
use wp_samples::made_wave;

/// How many made waves are drawn of each kind.
const WAVES: u32 = 10;

/// Kinds of small waves: how many orders they have, at most eight, how many orders a batch has at most, and of how many
/// of ten drawn waves the start is a cheapest batching of all that there are.
const KINDS: &[(u32, u32, u32)] = &[
    (5, 2, 10),
    (6, 4, 9),
    (7, 3, 10),
    (8, 2, 10),
    (8, 3, 10),
    (8, 6, 9),
];

/// Whether a set of orders, which is told by a number, has an order.
fn is_in(set: u32, order: u32) -> bool {
    (set >> order.min(31)) & 1 == 1
}

/// The batch of a set of the first eight orders.
fn batch_of(set: u32) -> Batch {
    let mut batch = Batch::empty();
    for order in 0..8 {
        if is_in(set, order) {
            batch = batch.with(order);
        }
    }
    batch
}

/// The least order of a set of the first eight.
fn least_in(set: u32) -> Option<u32> {
    for order in 0..8 {
        if is_in(set, order) {
            return Some(order);
        }
    }
    None
}

/// The length of each set of the orders of a wave: by the set's number.
fn all_lengths(alloc: Global, wave: &Wave, sets: u32) -> Option<Vec<u64>> {
    let mut lengths = Vec::new(alloc);
    for set in 0..sets {
        lengths.push(length_within(wave, batch_of(set))).ok()?;
    }
    Some(lengths)
}

/// What a set costs where one of its batches has its least order, and the orders left are batched at the least cost;
/// None where the batch isn't of the set, is without its least order, or has too many orders.
fn cost_with(lengths: &[u64], costs: &[u64], set: u32, batch: u32, capacity: u32) -> Option<u64> {
    let least = least_in(set)?;
    if batch & set != batch || !is_in(batch, least) || batch_of(batch).len() > capacity {
        return None;
    }
    let length = lengths.get(batch as usize)?;
    let left = costs.get((set ^ batch) as usize)?;
    length.checked_add(*left)
}

/// The least cost of a set that isn't empty, where those of all sets with lower numbers are known.
fn cheapest_of(lengths: &[u64], costs: &[u64], set: u32, capacity: u32) -> u64 {
    let mut least = u64::MAX;
    for batch in 1..256 {
        if let Some(cost) = cost_with(lengths, costs, set, batch, capacity) {
            least = least.min(cost);
        }
    }
    least
}

/// What a cheapest batching of a wave of at most eight orders costs: each batching is looked at.
fn cheapest_cost(alloc: Global, wave: &Wave, capacity: u32) -> Option<u64> {
    let sets = 1 << wave.orders().min(8);
    let lengths = all_lengths(alloc, wave, sets)?;
    let mut costs = Vec::new(alloc);
    costs.push(0).ok()?;
    for set in 1..sets {
        let cost = cheapest_of(lengths.as_slice(), costs.as_slice(), set, capacity);
        costs.push(cost).ok()?;
    }
    costs.as_slice().last().copied()
}

/// Of how many drawn waves of a kind the start is a cheapest batching; None where one costs less than a cheapest.
fn cheapest_starts(alloc: Global, orders: u32, capacity: u32) -> Option<u32> {
    let mut draws = Draws::from_state(3);
    let mut count: u32 = 0;
    for _ in 0..WAVES {
        let wave = made_wave(alloc, &mut draws, orders)?;
        let start = start_cost(alloc, &wave, capacity)?;
        let least = cheapest_cost(alloc, &wave, capacity)?;
        if start < least {
            return None;
        }
        count = count.saturating_add(u32::from(start == least));
    }
    Some(count)
}

/// The first kind of waves of which another number of starts is cheapest, and that number.
fn wrong_kind(alloc: Global) -> Option<(usize, Option<u32>)> {
    for (kind, (orders, capacity, expected)) in KINDS.iter().enumerate() {
        let found = cheapest_starts(alloc, *orders, *capacity);
        if found != Some(*expected) {
            return Some((kind, found));
        }
    }
    None
}

#[test]
fn starts_of_small_waves_are_mostly_cheapest_of_all_batchings(rt: HostRuntime) {
    assert_eq!(rt; wrong_kind(rt.alloc()), None);
}
