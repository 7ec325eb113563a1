//! Brackets of few rounds: they lie around the optimum of the program over all permitted batches, and are no wider than
//! the share duals and a first batching.

use crate::around::{are_feasible, is_around, optimum_of, whole_pool};
use crate::rows::{adds_up, bracket, is_as_narrow};
use std::alloc::Global;
use std::thread::Threads;
use wp_batch::merged_start;
use wp_draws::Draws;
use wp_lengths::{Wave, share_of};
use wp_lp::Root;
use wp_pairs::{Capacity, Pairs};
use wp_samples::{Slots, cart_wave_of, made_wave};

/// How many rounds are allowed: none, and fewer than are needed.
const ROUNDS: &[u64] = &[0, 1, 2, 3];

/// Eight orders of the small layout with what each loads, for a cart of nine units.
const CARTED: &[Slots] = &[
    &[(1, 4)],
    &[(2, 4), (3, 1)],
    &[(3, 4)],
    &[(1, 1), (3, 2)],
    &[(2, 2)],
    &[(1, 3), (2, 1)],
    &[(3, 3)],
    &[(2, 3)],
];

/// What the orders load.
const LOADS: &[u32] = &[3, 4, 2, 5, 3, 1, 4, 2];

/// What a first batching costs.
fn start_cost(alloc: Global, wave: &Wave, pairs: &Pairs) -> Option<i128> {
    let capacity = pairs.capacity();
    let start = merged_start(alloc, wave, capacity).ok()?;
    let mut cost: i128 = 0;
    for place in 0..start.len() {
        cost = cost.checked_add(i128::from(wave.batch_length(*start.at(place))))?;
    }
    Some(cost)
}

/// What the share duals come to, in sixtieths.
fn share_sum(wave: &Wave, pairs: &Pairs) -> Option<i128> {
    let capacity = Capacity {
        most: pairs.capacity(),
    };
    let mut sum: i128 = 0;
    for order in 0..wave.orders() {
        sum = sum.checked_add(i128::from(share_of(wave, capacity, order)))?;
    }
    Some(sum)
}

/// Whether a bracket is no wider than the share duals and a first batching.
fn is_no_wider(alloc: Global, wave: &Wave, pairs: &Pairs, root: &Root) -> Option<bool> {
    let low = root.low.checked_mul(60)?;
    let least = root.denominator.checked_mul(share_sum(wave, pairs)?)?;
    let most = start_cost(alloc, wave, pairs)?.checked_mul(root.denominator)?;
    Some(least <= low && root.high <= most)
}

/// Whether the bracket of a wave is right for so many rounds.
fn is_right<R: Threads + Sync>(
    rt: &R,
    alloc: Global,
    wave: &Wave,
    pairs: &Pairs,
    rounds: u64,
) -> Option<bool> {
    let root = bracket(rt, alloc, wave, (pairs.capacity(), rounds), 2)?;
    let pool = whole_pool(alloc, wave, pairs)?;
    let optimum = optimum_of(alloc, &pool)?;
    Some(
        adds_up(wave, pairs, &root)
            && are_feasible(wave, pairs, &root)
            && is_as_narrow(&root, wave.orders())
            && is_around(&root, optimum)?
            && is_no_wider(alloc, wave, pairs, &root)?,
    )
}

/// The first number of rounds for which the bracket of a wave isn't right, for a capacity of 1 to 8.
fn wrong_rounds<R: Threads + Sync>(
    rt: &R,
    alloc: Global,
    wave: &Wave,
    capacity: u32,
) -> Option<u64> {
    if capacity < 1 || 8 < capacity {
        return Some(u64::MAX);
    }
    let pairs = wave.pairs(capacity);
    for rounds in ROUNDS {
        if is_right(rt, alloc, wave, &pairs, *rounds) != Some(true) {
            return Some(*rounds);
        }
    }
    None
}

/// The first number of orders and the rounds for which the bracket of a drawn wave isn't right.
fn wrong_wave<R: Threads + Sync>(rt: &R, alloc: Global, capacity: u32) -> Option<(u32, u64)> {
    let mut draws = Draws::from_state(7);
    for orders in 1..9 {
        let Some(wave) = made_wave(alloc, &mut draws, orders) else {
            return Some((orders, u64::MAX));
        };
        if let Some(rounds) = wrong_rounds(rt, alloc, &wave, capacity) {
            return Some((orders, rounds));
        }
    }
    None
}

/// The first number of rounds for which the bracket of the wave with a cart isn't right.
fn wrong_carted<R: Threads + Sync>(rt: &R, alloc: Global) -> Option<u64> {
    let Some(wave) = cart_wave_of(alloc, CARTED, 9, LOADS) else {
        return Some(u64::MAX);
    };
    wrong_rounds(rt, alloc, &wave, 3)
}

#[test]
fn brackets_of_few_rounds_lie_around_the_optimum_and_are_no_wider_than_a_start(rt: HostRuntime) {
    assert_eq!(rt; wrong_wave(&rt, rt.alloc(), 2), None);
    assert_eq!(rt; wrong_wave(&rt, rt.alloc(), 4), None);
}

#[test]
fn so_are_those_of_a_wave_with_a_cart(rt: HostRuntime) {
    assert_eq!(rt; wrong_carted(&rt, rt.alloc()), None);
}
