//! Many orders, which are worth many workers.

use crate::price::{Given, Question, asked, duals_of};
use crate::slow::batch_at;
use std::alloc::Global;
use std::thread::Threads;
use wp_lengths::{Marks, Wave};
use wp_outside::OpenGate;
use wp_price::Priced;
use wp_samples::{Slots, pairs_for, wave_of};

/// Twenty-four orders with one slot or two.
pub const ORDERS: &[Slots] = &[
    &[(3, 1), (3, 3)],
    &[(1, 1), (2, 4)],
    &[(2, 1)],
    &[(1, 2)],
    &[(1, 2), (2, 2)],
    &[(1, 1), (1, 2)],
    &[(1, 2)],
    &[(2, 3)],
    &[(3, 2)],
    &[(3, 2)],
    &[(2, 1), (2, 4)],
    &[(1, 3)],
    &[(2, 3)],
    &[(3, 3)],
    &[(2, 3)],
    &[(1, 4), (2, 3)],
    &[(1, 3), (3, 2)],
    &[(3, 3)],
    &[(1, 4), (2, 4)],
    &[(2, 1)],
    &[(3, 2)],
    &[(1, 4)],
    &[(2, 1), (3, 3)],
    &[(1, 3), (2, 1)],
];

/// The orders with a capacity of five, and no duals.
pub const MANY: Given = Given {
    orders: ORDERS,
    capacity: 5,
    pairs: &[],
    duals: &[0; 24],
};

/// For each order, so many parts of a hundred of sixty times its length alone.
fn parts_of(wave: &Wave, hundredths: u64) -> [u64; 24] {
    let mut duals = [0; 24];
    for order in 0..24u32 {
        let length = wave.batch_length(batch_at(wave, 1 << order));
        duals[order as usize] = 60 * length * hundredths.min(1_000) / 100;
    }
    duals
}

fn are_same_marks(one: &Marks, other: &Marks) -> bool {
    if one.len() != other.len() {
        return false;
    }
    for place in 0..one.len() {
        if one.at(place) != other.at(place) {
            return false;
        }
    }
    true
}

fn are_same(one: &Priced, other: &Priced) -> bool {
    let marks = match (&one.marks, &other.marks) {
        (Some(one), Some(other)) => are_same_marks(one, other),
        (None, None) => true,
        _ => false,
    };
    marks && one.batch.is(other.batch) && one.slack == other.slack
}

/// What so many workers find under these parts, through an order where one is given.
fn found<R: Threads + Sync>(
    rt: &R,
    alloc: Global,
    hundredths: u64,
    through: Option<u32>,
    workers: u32,
) -> Option<Priced> {
    let mut wave = wave_of(alloc, ORDERS, 1)?;
    wave.keep_lengths(alloc, MANY.capacity).ok()?;
    let pairs = pairs_for(&wave, MANY.capacity, MANY.pairs)?;
    let duals = duals_of(alloc, &parts_of(&wave, hundredths))?;
    let question = Question {
        wave: &wave,
        pairs: &pairs,
        duals: &duals,
        through,
        workers,
    };
    asked(rt, alloc, &question, &OpenGate)?
}

/// Whether 3 and 16 workers find what one finds.
fn is_same<R: Threads + Sync>(
    rt: &R,
    alloc: Global,
    hundredths: u64,
    through: Option<u32>,
) -> Option<bool> {
    let by_one = found(rt, alloc, hundredths, through, 1)?;
    let by_three = found(rt, alloc, hundredths, through, 3)?;
    let by_many = found(rt, alloc, hundredths, through, 16)?;
    Some(are_same(&by_one, &by_three) && are_same(&by_one, &by_many))
}

/// Parts of a hundred, and an order to go through.
const CASES: &[(u64, Option<u32>)] = &[
    (20, None),
    (25, None),
    (30, None),
    (60, None),
    (20, Some(0)),
    (25, Some(7)),
    (60, Some(23)),
];

fn other_case<R: Threads + Sync>(rt: &R, alloc: Global) -> Option<usize> {
    for (place, (hundredths, through)) in CASES.iter().enumerate() {
        if is_same(rt, alloc, *hundredths, *through) != Some(true) {
            return Some(place);
        }
    }
    None
}

#[test]
fn many_workers_find_what_one_finds(rt: HostRuntime) {
    assert_eq!(rt; other_case(&rt, rt.alloc()), None);
}
