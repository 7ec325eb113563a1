//! Waves with carts: the batches of their starts, and those that joins lead to.

use crate::batch::{APART, Batches, MANY, SAME, TWICE, batches_of, is_joined_to, start_of};
use std::alloc::Global;
use wp_lengths::Batching;
use wp_samples::{Slots, are_exactly, cart_wave_of, wave_of};

/// The orders of a wave, what its cart holds and what each order loads.
type Carted = (&'static [Slots], u32, &'static [u32]);

/// Waves with carts, a capacity, and the batches of the start.
const STARTS: &[(Carted, u32, Batches)] = &[
    ((SAME, 5, &[3, 3, 3]), 2, &[&[0], &[1], &[2]]),
    ((SAME, 6, &[3, 3, 3]), 2, &[&[0, 1], &[2]]),
    ((SAME, 5, &[0, 3, 3]), 2, &[&[0, 1], &[2]]),
    ((SAME, 5, &[3, 0, 3]), 2, &[&[0, 1], &[2]]),
    ((SAME, 5, &[3, 3, 0]), 2, &[&[0, 2], &[1]]),
    ((SAME, 5, &[4, 3, 2]), 2, &[&[0], &[1, 2]]),
    ((SAME, 8, &[3, 3, 3]), 8, &[&[0, 1], &[2]]),
    ((SAME, 9, &[3, 3, 3]), 8, &[&[0, 1, 2]]),
    ((SAME, 9, &[3, 3, 3]), 1, &[&[0], &[1], &[2]]),
    ((SAME, 1, &[0, 0, 0]), 8, &[&[0, 1, 2]]),
    ((APART, 5, &[3, 3, 2]), 2, &[&[0], &[1, 2]]),
    ((APART, 5, &[2, 3, 3]), 2, &[&[0, 1], &[2]]),
    ((APART, 6, &[3, 3, 3]), 3, &[&[0, 1], &[2]]),
    (
        (TWICE, 5, &[3, 3, 3, 2, 2, 2]),
        2,
        &[&[0, 3], &[1, 4], &[2, 5]],
    ),
];

fn starts_as(alloc: Global, carted: Carted, capacity: u32, batches: Batches) -> Option<bool> {
    let (orders, units, loads) = carted;
    let wave = cart_wave_of(alloc, orders, units, loads)?;
    let start = start_of(alloc, &wave, capacity)?;
    Some(are_exactly(&start, batches))
}

fn wrong_start(alloc: Global) -> Option<usize> {
    for (place, (carted, capacity, batches)) in STARTS.iter().enumerate() {
        if starts_as(alloc, *carted, *capacity, batches) != Some(true) {
            return Some(place);
        }
    }
    None
}

#[test]
fn starts_are_merged_within_the_cart(rt: HostRuntime) {
    assert_eq!(rt; wrong_start(rt.alloc()), None);
}

/// Waves with carts, the batches of a batching, in any order, a capacity, and the batches that these are joined to.
const JOINED: &[(Carted, Batches, u32, Batches)] = &[
    (
        (SAME, 5, &[3, 3, 3]),
        &[&[1], &[0], &[2]],
        2,
        &[&[0], &[1], &[2]],
    ),
    (
        (SAME, 6, &[3, 3, 3]),
        &[&[1], &[0], &[2]],
        2,
        &[&[0, 1], &[2]],
    ),
    (
        (SAME, 5, &[0, 3, 3]),
        &[&[2], &[1], &[0]],
        2,
        &[&[0, 1], &[2]],
    ),
    ((SAME, 5, &[0, 3, 3]), &[&[0, 2], &[1]], 8, &[&[0, 2], &[1]]),
    ((SAME, 6, &[0, 3, 3]), &[&[0, 2], &[1]], 8, &[&[0, 1, 2]]),
    (
        (APART, 5, &[3, 3, 2]),
        &[&[1], &[0], &[2]],
        2,
        &[&[0], &[1, 2]],
    ),
    (
        (APART, 5, &[3, 2, 3]),
        &[&[1], &[0], &[2]],
        2,
        &[&[0, 1], &[2]],
    ),
    (
        (APART, 5, &[2, 1, 3]),
        &[&[2], &[0, 1]],
        8,
        &[&[0, 1], &[2]],
    ),
    ((APART, 6, &[2, 1, 3]), &[&[2], &[0, 1]], 8, &[&[0, 1, 2]]),
    (
        (TWICE, 8, &[2, 2, 3, 2, 2, 2]),
        &[&[0, 1], &[3, 4], &[2, 5]],
        8,
        &[&[0, 1, 3, 4], &[2, 5]],
    ),
    (
        (TWICE, 12, &[2, 2, 3, 2, 2, 2]),
        &[&[0, 1], &[3, 4], &[2, 5]],
        8,
        &[&[0, 1, 3, 4], &[2, 5]],
    ),
    (
        (TWICE, 13, &[2, 2, 3, 2, 2, 2]),
        &[&[0, 1], &[3, 4], &[2, 5]],
        8,
        &[&[0, 1, 2, 3, 4, 5]],
    ),
];

fn joins_so(
    alloc: Global,
    carted: Carted,
    given: Batches,
    capacity: u32,
    batches: Batches,
) -> Option<bool> {
    let (orders, units, loads) = carted;
    let wave = cart_wave_of(alloc, orders, units, loads)?;
    let given = batches_of(alloc, given)?;
    is_joined_to(alloc, &wave, given.as_slice(), capacity, batches)
}

fn wrong_joins(alloc: Global) -> Option<usize> {
    for (place, (carted, given, capacity, batches)) in JOINED.iter().enumerate() {
        if joins_so(alloc, *carted, given, *capacity, batches) != Some(true) {
            return Some(place);
        }
    }
    None
}

#[test]
fn batches_are_joined_only_where_the_cart_holds_both(rt: HostRuntime) {
    assert_eq!(rt; wrong_joins(rt.alloc()), None);
}

/// Waves that are batched with carts of several kinds.
const WAVES: &[&[Slots]] = &[APART, SAME, MANY, TWICE];

/// What the orders of these waves load: three units each.
const LOADS: &[u32] = &[3; 6];

/// The start of such a wave with a cart of so many units.
fn cart_start(alloc: Global, orders: &[Slots], units: u32, capacity: u32) -> Option<Batching> {
    let wave = cart_wave_of(alloc, orders, units, LOADS.get(..orders.len())?)?;
    start_of(alloc, &wave, capacity)
}

/// Whether each batch has one order, and there are so many batches.
fn are_single(batching: &Batching, orders: usize) -> bool {
    for batch in batching.as_slice() {
        if batch.len() != 1 {
            return false;
        }
    }
    batching.len() as usize == orders
}

/// Whether the start has single orders, where no two of them fit the cart.
fn starts_single(alloc: Global, orders: &[Slots], capacity: u32) -> Option<bool> {
    let start = cart_start(alloc, orders, 5, capacity)?;
    Some(are_single(&start, orders.len()))
}

/// Whether two batchings have the same batches in the same order.
fn are_same(one: &Batching, other: &Batching) -> bool {
    for (left, right) in one.as_slice().iter().zip(other.as_slice()) {
        if !left.is(*right) {
            return false;
        }
    }
    one.len() == other.len()
}

/// Whether the start is that without a cart, where the cart holds what all load together.
fn starts_freely(alloc: Global, orders: &[Slots], capacity: u32) -> Option<bool> {
    let free = wave_of(alloc, orders, 1)?;
    let carted = cart_start(alloc, orders, 3 * free.orders(), capacity)?;
    Some(are_same(&carted, &start_of(alloc, &free, capacity)?))
}

/// The first wave and capacity for which a cart that is too small for two orders, or one that holds all, has another
/// start.
fn other_start(alloc: Global) -> Option<(usize, u32)> {
    for (place, orders) in WAVES.iter().enumerate() {
        for capacity in 1..9 {
            let is_single = starts_single(alloc, orders, capacity) == Some(true);
            if !is_single || starts_freely(alloc, orders, capacity) != Some(true) {
                return Some((place, capacity));
            }
        }
    }
    None
}

#[test]
fn small_carts_part_all_orders_and_great_ones_none(rt: HostRuntime) {
    assert_eq!(rt; other_start(rt.alloc()), None);
}
