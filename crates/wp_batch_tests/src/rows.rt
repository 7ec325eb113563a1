//! Brackets of small waves, of which the linear bound is known.

use crate::exact::{cost_of, is_cover, sum_of};
use std::alloc::Global;
use std::thread::Threads;
use wp_lengths::Wave;
use wp_lp::{Root, RootState, root_pair};
use wp_pairs::Pairs;
use wp_samples::{Slots, pairs_of, wave_of};

/// Three orders at one slot. Each tour is 34 long.
const SAME: &[Slots] = &[&[(3, 4)]];

/// Three orders with a slot each.
const APART: &[Slots] = &[&[(1, 4)], &[(2, 4)], &[(3, 1)]];

/// As many rounds as are never needed here.
const AMPLE: u64 = 17_857;

/// The orders of a wave, how often they are repeated, how many go into a batch, and how many rounds are allowed.
#[derive(Clone, Copy)]
pub struct Asked {
    pub orders: &'static [Slots],
    pub times: u32,
    pub capacity: u32,
    pub rounds: u64,
}

const THREE: Asked = Asked {
    orders: SAME,
    times: 3,
    capacity: 2,
    rounds: AMPLE,
};

const ALONE: Asked = Asked {
    orders: APART,
    times: 1,
    capacity: 1,
    rounds: AMPLE,
};

const ONE: Asked = Asked {
    orders: SAME,
    times: 1,
    capacity: 2,
    rounds: AMPLE,
};

const MANY: Asked = Asked {
    orders: SAME,
    times: 64,
    capacity: 1,
    rounds: 1,
};

const NO_ROUND: Asked = Asked {
    orders: SAME,
    times: 3,
    capacity: 2,
    rounds: 0,
};

const ONE_ROUND: Asked = Asked {
    orders: SAME,
    times: 3,
    capacity: 2,
    rounds: 1,
};

const NARROW: RootState = RootState::Narrow;

const NONE_MADE: RootState = RootState::Rounds { made: 0 };

/// What is asked, the state, and a length that is the linear bound.
const ROWS: &[(Asked, RootState, i128)] = &[
    (THREE, NARROW, 51),
    (ALONE, NARROW, 60),
    (ONE, NARROW, 34),
    (MANY, NARROW, 2176),
    (NO_ROUND, NONE_MADE, 51),
    (ONE_ROUND, NARROW, 51),
];

/// The bracket of a wave, with a capacity of 1 to 8 and 1 to 16 workers.
pub fn bracket<R: Threads + Sync>(
    rt: &R,
    alloc: Global,
    wave: &Wave,
    limits: (u32, u64),
    workers: u32,
) -> Option<Root> {
    let (capacity, rounds) = limits;
    if capacity < 1 || 8 < capacity || workers < 1 || 16 < workers {
        return None;
    }
    root_pair(rt, alloc, wave, capacity, rounds, workers).ok()
}

/// Whether a bracket adds up: an exact cover by permitted batches, its cost, and the sum of the duals.
pub fn adds_up(wave: &Wave, pairs: &Pairs, root: &Root) -> bool {
    is_cover(pairs, root)
        && cost_of(wave, pairs, root) == Some(root.high)
        && sum_of(root, wave.orders()) == Some(root.low)
}

/// Whether a bracket lies around a length.
fn is_around(root: &Root, long: i128) -> bool {
    match root.denominator.checked_mul(long) {
        Some(scaled) => root.low <= scaled && scaled <= root.high,
        None => false,
    }
}

/// Whether the sides of a narrow bracket are apart by less than a sixtieth for each order; of another nothing is asked.
pub fn is_as_narrow(root: &Root, orders: u32) -> bool {
    if root.state != RootState::Narrow {
        return true;
    }
    let apart = root.high.checked_sub(root.low);
    let most = root.denominator.checked_mul(i128::from(orders));
    match (apart, most) {
        (Some(apart), Some(most)) => match apart.checked_mul(60) {
            Some(sixty) => sixty < most,
            None => false,
        },
        _ => false,
    }
}

/// The bracket that is asked for, where it adds up.
fn answered<R: Threads + Sync>(rt: &R, alloc: Global, asked: Asked, workers: u32) -> Option<Root> {
    let wave = wave_of(alloc, asked.orders, asked.times)?;
    let pairs = pairs_of(wave.orders(), asked.capacity, &[])?;
    let root = bracket(rt, alloc, &wave, (asked.capacity, asked.rounds), workers)?;
    if adds_up(&wave, &pairs, &root) && is_as_narrow(&root, wave.orders()) {
        return Some(root);
    }
    None
}

/// The first row of which the bracket is another.
fn wrong_row<R: Threads + Sync>(rt: &R, alloc: Global) -> Option<usize> {
    for (row, (question, state, long)) in ROWS.iter().enumerate() {
        match answered(rt, alloc, *question, 1) {
            None => return Some(row),
            Some(root) => {
                if root.state != *state || !is_around(&root, *long) {
                    return Some(row);
                }
            }
        }
    }
    None
}

#[test]
fn brackets_of_small_waves_lie_around_their_linear_bounds(rt: HostRuntime) {
    assert_eq!(rt; wrong_row(&rt, rt.alloc()), None);
}

/// Whether two brackets are the same.
fn are_same(left: &Root, right: &Root) -> bool {
    left.batches.as_slice() == right.batches.as_slice()
        && left.weights.as_slice() == right.weights.as_slice()
        && left.duals.as_slice() == right.duals.as_slice()
        && (left.denominator, left.low, left.high) == (right.denominator, right.low, right.high)
        && left.state == right.state
}

/// Whether so many workers find the bracket that one finds.
fn find_the_same<R: Threads + Sync>(rt: &R, alloc: Global, question: Asked, workers: u32) -> bool {
    let Some(alone) = answered(rt, alloc, question, 1) else {
        return false;
    };
    match answered(rt, alloc, question, workers) {
        Some(root) => are_same(&alone, &root),
        None => false,
    }
}

#[test]
fn any_number_of_workers_find_the_same_bracket(rt: HostRuntime) {
    assert!(rt; find_the_same(&rt, rt.alloc(), THREE, 3));
    assert!(rt; find_the_same(&rt, rt.alloc(), THREE, 16));
    assert!(rt; find_the_same(&rt, rt.alloc(), ALONE, 3));
    assert!(rt; find_the_same(&rt, rt.alloc(), ONE_ROUND, 16));
}
