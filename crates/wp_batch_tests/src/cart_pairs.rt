//! Pairs of waves with carts: which batches are permitted, and which orders are in none.

use crate::batch::SAME;
use std::alloc::Global;
use wp_draws::Draws;
use wp_pairs::{Batch, Cart, Pairs};
use wp_samples::{PairRow, batch_of, cart_wave_of, pairs_for};

/// How many carts of each kind are drawn.
const CARTS: u32 = 10;

/// How many batches are drawn for each cart.
const BATCHES: u32 = 100;

/// A kind of carts: for how many orders, how many of these a batch may have, what the cart holds, what an order loads
/// at most, and how many of the batches that are drawn are permitted.
struct Kind {
    orders: u32,
    capacity: u32,
    units: u32,
    greatest_load: u32,
    permitted: u32,
}

const KINDS: &[Kind] = &[
    Kind {
        orders: 1,
        capacity: 1,
        units: 1,
        greatest_load: 1,
        permitted: 242,
    },
    Kind {
        orders: 3,
        capacity: 2,
        units: 5,
        greatest_load: 5,
        permitted: 336,
    },
    Kind {
        orders: 9,
        capacity: 4,
        units: 10,
        greatest_load: 6,
        permitted: 467,
    },
    Kind {
        orders: 20,
        capacity: 8,
        units: 40_000_000,
        greatest_load: 12_000_000,
        permitted: 582,
    },
    Kind {
        orders: 64,
        capacity: 8,
        units: 40_000_000,
        greatest_load: 40_000_000,
        permitted: 180,
    },
];

/// What 64 orders load, each up to a greatest load.
fn drawn_loads(draws: &mut Draws, greatest_load: u32) -> [u32; 64] {
    let mut loads = [0; 64];
    for order in 0..64 {
        loads[order] = draws.below(u64::from(greatest_load) + 1) as u32;
    }
    loads
}

/// A batch of up to one order too many, each an order of the wave or the next one behind its last.
fn drawn_batch(draws: &mut Draws, kind: &Kind) -> Batch {
    let mut batch = Batch::empty();
    for _ in 0..draws.below(u64::from(kind.capacity) + 2) {
        let order = draws.below(u64::from(kind.orders) + 1) as u32;
        batch = batch.union(batch_of(&[order]));
    }
    batch
}

/// How many orders of a batch have a load, and what these add up to.
fn totals_of(loads: &[u32], batch: Batch) -> (u32, u64) {
    let mut count: u32 = 0;
    let mut sum: u64 = 0;
    for order in 0..64 {
        if let (true, Some(load)) = (batch.has(order), loads.get(order as usize)) {
            count = count.saturating_add(1);
            sum = sum.saturating_add(u64::from(*load));
        }
    }
    (count, sum)
}

/// Whether a batch has an order, none but those with a load, and no more of them and of their units than it may have.
fn is_within(kind: &Kind, loads: &[u32], batch: Batch) -> bool {
    let (count, sum) = totals_of(loads, batch);
    1 <= count && count <= kind.capacity && count == batch.len() && sum <= u64::from(kind.units)
}

/// The pairs of orders that load so much, of which none is decided.
fn free_pairs(kind: &Kind, loads: &[u32]) -> Option<Pairs> {
    let cart = Cart::new(kind.units, loads)?;
    if kind.capacity < 1 || 8 < kind.capacity {
        return None;
    }
    Some(Pairs::with_cart(cart.orders(), kind.capacity, cart))
}

/// How many batches that are drawn for a cart are permitted; None where a plain sum says something else of one of them.
fn count_permitted(draws: &mut Draws, kind: &Kind, loads: &[u32]) -> Option<u32> {
    let pairs = free_pairs(kind, loads)?;
    let mut count: u32 = 0;
    for _ in 0..BATCHES {
        let batch = drawn_batch(draws, kind);
        let is_permitted = pairs.permits(batch);
        if is_permitted != is_within(kind, loads, batch) {
            return None;
        }
        count = count.saturating_add(u32::from(is_permitted));
    }
    Some(count)
}

/// How many batches that are drawn for the next cart are permitted.
fn next_permitted(draws: &mut Draws, kind: &Kind) -> Option<u32> {
    let loads = drawn_loads(draws, kind.greatest_load);
    count_permitted(draws, kind, loads.get(..kind.orders as usize)?)
}

/// How many batches that are drawn for the carts of a kind are permitted.
fn permitted_of(kind: &Kind) -> Option<u32> {
    let mut draws = Draws::from_state(7);
    let mut count: u32 = 0;
    for _ in 0..CARTS {
        count = count.saturating_add(next_permitted(&mut draws, kind)?);
    }
    Some(count)
}

/// The first kind of which a plain sum says something else, or of which another number of batches is permitted, and
/// that number.
fn wrong_kind() -> Option<(usize, Option<u32>)> {
    for (place, kind) in KINDS.iter().enumerate() {
        let found = permitted_of(kind);
        if found != Some(kind.permitted) {
            return Some((place, found));
        }
    }
    None
}

#[test]
fn drawn_batches_are_permitted_by_a_plain_sum_of_loads(rt: HostRuntime) {
    assert_eq!(rt; wrong_kind(), None);
}

const TOGETHER: bool = true;

const APART: bool = false;

/// What the cart of three orders holds, what each loads, how many a batch may have, and the pairs that are added.
type Given = (u32, &'static [u32], u32, &'static [PairRow]);

/// Batches, and whether they are permitted.
const PERMITTED: &[(Given, &[u32], bool)] = &[
    ((5, &[3, 3, 3], 2, &[]), &[], false),
    ((5, &[3, 3, 3], 2, &[]), &[1], true),
    ((5, &[3, 3, 3], 2, &[]), &[0, 1], false),
    ((5, &[3, 3, 3], 2, &[]), &[3], false),
    ((6, &[3, 3, 3], 2, &[]), &[0, 1], true),
    ((9, &[3, 3, 3], 2, &[]), &[0, 1, 2], false),
    ((9, &[3, 3, 3], 3, &[]), &[0, 1, 2], true),
    ((5, &[0, 3, 3], 2, &[]), &[0, 1], true),
    ((5, &[0, 3, 3], 2, &[]), &[0, 2], true),
    ((5, &[0, 3, 3], 2, &[]), &[1, 2], false),
    ((5, &[1, 2, 3], 3, &[]), &[0, 1], true),
    ((5, &[1, 2, 3], 3, &[]), &[1, 2], true),
    ((5, &[1, 2, 3], 3, &[]), &[0, 1, 2], false),
    ((5, &[3, 3, 3], 2, &[(0, 1, TOGETHER)]), &[0, 1], false),
    ((5, &[3, 3, 3], 2, &[(0, 1, TOGETHER)]), &[2], true),
    ((6, &[3, 3, 3], 2, &[(0, 1, TOGETHER)]), &[0, 1], true),
    ((6, &[3, 3, 3], 2, &[(0, 1, APART)]), &[0, 1], false),
];

/// Pairs, the least pair that they leave undecided, and the least order that no permitted batch has.
const LEFT: &[(Given, Option<(u32, u32)>, Option<u32>)] = &[
    ((5, &[3, 3, 3], 2, &[]), Some((0, 1)), None),
    ((5, &[5, 5, 5], 8, &[]), Some((0, 1)), None),
    (
        (5, &[3, 3, 3], 2, &[(0, 1, TOGETHER)]),
        Some((0, 2)),
        Some(0),
    ),
    (
        (5, &[3, 3, 3], 8, &[(1, 2, TOGETHER)]),
        Some((0, 1)),
        Some(1),
    ),
    ((6, &[3, 3, 3], 2, &[(0, 1, TOGETHER)]), Some((0, 2)), None),
    ((5, &[0, 3, 3], 2, &[(0, 1, TOGETHER)]), Some((0, 2)), None),
    ((5, &[3, 3, 3], 2, &[(0, 1, APART)]), Some((0, 2)), None),
    ((5, &[1, 2, 4], 8, &[(0, 2, TOGETHER)]), Some((0, 1)), None),
    (
        (5, &[1, 2, 4], 8, &[(1, 2, TOGETHER)]),
        Some((0, 1)),
        Some(1),
    ),
    (
        (5, &[1, 2, 4], 8, &[(0, 1, TOGETHER), (0, 2, TOGETHER)]),
        None,
        Some(0),
    ),
    (
        (7, &[1, 2, 4], 8, &[(0, 1, TOGETHER), (0, 2, TOGETHER)]),
        None,
        None,
    ),
    (
        (7, &[1, 2, 4], 2, &[(0, 1, TOGETHER), (0, 2, TOGETHER)]),
        None,
        Some(0),
    ),
    (
        (
            40_000_000,
            &[40_000_000, 40_000_000, 40_000_000],
            8,
            &[(0, 1, TOGETHER), (1, 2, TOGETHER)],
        ),
        None,
        Some(0),
    ),
];

/// The pairs of a row, where each can be added.
fn made(alloc: Global, given: Given) -> Option<Pairs> {
    let (units, loads, capacity, rows) = given;
    let wave = cart_wave_of(alloc, SAME, units, loads)?;
    pairs_for(&wave, capacity, rows)
}

fn is_permitted(alloc: Global, given: Given, orders: &[u32]) -> Option<bool> {
    let pairs = made(alloc, given)?;
    Some(pairs.permits(batch_of(orders)))
}

fn left_by(alloc: Global, given: Given) -> Option<(Option<(u32, u32)>, Option<u32>)> {
    let pairs = made(alloc, given)?;
    Some((pairs.undecided(), pairs.dead()))
}

fn wrong_permit(alloc: Global) -> Option<usize> {
    for (place, (given, orders, expected)) in PERMITTED.iter().enumerate() {
        if is_permitted(alloc, *given, orders) != Some(*expected) {
            return Some(place);
        }
    }
    None
}

fn wrong_rest(alloc: Global) -> Option<usize> {
    for (place, (given, undecided, dead)) in LEFT.iter().enumerate() {
        if left_by(alloc, *given) != Some((*undecided, *dead)) {
            return Some(place);
        }
    }
    None
}

#[test]
fn batches_of_waves_with_carts_are_permitted_as_listed(rt: HostRuntime) {
    assert_eq!(rt; wrong_permit(rt.alloc()), None);
}

#[test]
fn orders_that_are_too_heavy_together_are_dead(rt: HostRuntime) {
    assert_eq!(rt; wrong_rest(rt.alloc()), None);
}
