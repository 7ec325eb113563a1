//! Brackets of drawn waves lie around the optimum of the program over all permitted batches.

use crate::exact::{is_within, length_of};
use crate::rows::{adds_up, bracket, is_as_narrow};
use std::alloc::Global;
use std::thread::Threads;
use wp_draws::Draws;
use wp_lengths::Wave;
use wp_lp::{Root, RootState};
use wp_master::{Pool, solve};
use wp_pairs::{Batch, Pairs};
use wp_samples::{made_wave, pairs_of};

/// How many orders a drawn wave has at most.
const MOST_ORDERS: u32 = 8;

/// How many rounds are allowed: more than there are permitted batches.
const ROUNDS: u64 = 200;

/// The batch of the orders whose bits are in a word.
fn batch_in(word: u32) -> Batch {
    let mut batch = Batch::empty();
    for order in 0..MOST_ORDERS {
        if (word >> order) & 1 == 1 {
            batch = batch.with(order);
        }
    }
    batch
}

/// Adds the column of a batch, where the pairs are for as many orders and permit it, and tells whether it was added.
fn is_added(pool: &mut Pool, pairs: &Pairs, batch: Batch, long: u64) -> bool {
    if pairs.orders() == pool.orders() && pairs.permits(batch) && long < 1 << 40 {
        return pool.add(batch, long).is_ok();
    }
    false
}

/// The pool of all permitted batches of a wave of up to eight orders, each with its length.
pub fn whole_pool(alloc: Global, wave: &Wave, pairs: &Pairs) -> Option<Pool> {
    let mut pool = Pool::new(alloc, wave.orders()).ok()?;
    for word in 1..256 {
        let batch = batch_in(word);
        if pairs.permits(batch) {
            let long = length_of(wave, pairs, batch)?;
            if !is_added(&mut pool, pairs, batch, long) {
                return None;
            }
        }
    }
    Some(pool)
}

/// The least cost of weights that cover each order, over a denominator.
#[derive(Clone, Copy)]
pub struct Optimum {
    cost: i128,
    denominator: i128,
}

/// What the weights of a pool's solution come to, each times its length: no weights that cover the orders come to less.
pub fn optimum_of(alloc: Global, pool: &Pool) -> Option<Optimum> {
    let pair = solve(alloc, pool, 100_000).ok()?;
    let mut cost: i128 = 0;
    for (place, weight) in pair.weights.iter().enumerate() {
        if place >= pool.len() {
            return None;
        }
        let long = i128::from(pool.column(place).length);
        cost = cost.checked_add(weight.checked_mul(long)?)?;
    }
    Some(Optimum {
        cost,
        denominator: pair.denominator,
    })
}

/// Whether a bracket lies around an optimum.
pub fn is_around(root: &Root, optimum: Optimum) -> Option<bool> {
    let low = root.low.checked_mul(optimum.denominator)?;
    let high = root.high.checked_mul(optimum.denominator)?;
    let cost = optimum.cost.checked_mul(root.denominator)?;
    Some(low <= cost && cost <= high)
}

/// Whether no permitted batch of a wave of up to eight orders has too much in duals.
pub fn are_feasible(wave: &Wave, pairs: &Pairs, root: &Root) -> bool {
    for word in 1..256 {
        let batch = batch_in(word);
        if pairs.permits(batch) && !is_within(wave, pairs, root, batch) {
            return false;
        }
    }
    true
}

/// Whether a bracket of a wave adds up, is narrow, and lies around the optimum.
fn is_right(alloc: Global, wave: &Wave, pairs: &Pairs, root: &Root) -> Option<bool> {
    let pool = whole_pool(alloc, wave, pairs)?;
    let optimum = optimum_of(alloc, &pool)?;
    Some(
        root.state == RootState::Narrow
            && is_as_narrow(root, wave.orders())
            && adds_up(wave, pairs, root)
            && are_feasible(wave, pairs, root)
            && is_around(root, optimum)?,
    )
}

/// Whether the bracket of a wave is right for a capacity.
fn has_right_bracket<R: Threads + Sync>(
    rt: &R,
    alloc: Global,
    wave: &Wave,
    capacity: u32,
) -> Option<bool> {
    let pairs = pairs_of(wave.orders(), capacity, &[])?;
    let root = bracket(rt, alloc, wave, (capacity, ROUNDS), 3)?;
    is_right(alloc, wave, &pairs, &root)
}

/// The first number of orders and the capacity for which the bracket of a drawn wave isn't right.
fn wrong_wave<R: Threads + Sync>(rt: &R, alloc: Global, state: u64) -> Option<(u32, u32)> {
    let mut draws = Draws::from_state(state);
    for orders in 1..=MOST_ORDERS {
        let Some(wave) = made_wave(alloc, &mut draws, orders) else {
            return Some((orders, 0));
        };
        for capacity in 1..5 {
            if has_right_bracket(rt, alloc, &wave, capacity) != Some(true) {
                return Some((orders, capacity));
            }
        }
    }
    None
}

#[test]
fn brackets_of_drawn_waves_are_narrow_around_the_optimum(rt: HostRuntime) {
    assert_eq!(rt; wrong_wave(&rt, rt.alloc(), 1), None);
    assert_eq!(rt; wrong_wave(&rt, rt.alloc(), 2026), None);
}
