ghost use Rattle.std.specs.Prelude.{◌≤◌, ◌<◌, ℕ, Contains, IsTrue};
ghost use Rattle.wp_lengths.specs.Batchings.{IsBatching};

use std::alloc::Global;
use std::thread::Threads;
use wp_batch::{joined, merged_start};
use wp_lengths::{Batching, Marks, Wave};
use wp_pairs::Batch;
use wp_samples::{Slots, are_exactly, batch_below, batch_of, wave_of};

/// Three orders with a slot each.
pub const APART: &[Slots] = &[&[(1, 4)], &[(2, 4)], &[(3, 1)]];

/// Three orders at one slot.
pub const SAME: &[Slots] = &[&[(3, 4)], &[(3, 4)], &[(3, 4)]];

/// Orders with several slots.
pub const MANY: &[Slots] = &[
    &[(1, 4), (2, 1)],
    &[(2, 4), (3, 1)],
    &[(1, 1), (1, 4), (3, 4)],
];

/// Waves, the orders of a batch, and its length.
const LENGTHS: &[(&[Slots], &[u32], u64)] = &[
    (APART, &[], 0),
    (APART, &[0], 14),
    (APART, &[1], 24),
    (APART, &[2], 22),
    (APART, &[0, 1], 26),
    (APART, &[0, 2], 36),
    (APART, &[1, 2], 36),
    (SAME, &[0], 34),
    (SAME, &[1, 2], 34),
    (SAME, &[0, 1, 2], 34),
    (MANY, &[0, 1], 38),
];

/// The length of a batch as it is computed and as it is looked up, if both are the same.
fn length_either_way(alloc: Global, orders: &[Slots], batch: &[u32], capacity: u32) -> Option<u64> {
    let mut wave = wave_of(alloc, orders, 1)?;
    let computed = length_of(&wave, batch)?;
    wave.keep_lengths(alloc, capacity).ok()?;
    (length_of(&wave, batch)? == computed).then_some(computed)
}

fn length_of(wave: &Wave, orders: &[u32]) -> Option<u64> {
    let batch = batch_below(orders, wave.orders())?;
    Some(wave.batch_length(batch))
}

fn wrong_length(alloc: Global) -> Option<usize> {
    for (place, (orders, batch, expected)) in LENGTHS.iter().enumerate() {
        for capacity in 0..9 {
            if length_either_way(alloc, orders, batch, capacity) != Some(*expected) {
                return Some(place);
            }
        }
    }
    None
}

#[test]
fn batches_have_the_lengths_of_their_tours(rt: HostRuntime) {
    assert_eq!(rt; wrong_length(rt.alloc()), None);
}

/// The lengths of all batches of two orders of a wave, one after the other.
fn lengths_of_two(alloc: Global, wave: &Wave) -> Option<Vec<u64>> {
    let mut lengths = Vec::new(alloc);
    for left in 0..wave.orders() {
        for right in left + 1..wave.orders() {
            lengths.push(length_of(wave, &[left, right])?).ok()?;
        }
    }
    Some(lengths)
}

/// Whether lengths that so many workers keep are those that are computed.
fn are_as_computed<R: Threads + Sync>(rt: &R, alloc: Global, workers: u32) -> Option<bool> {
    let mut wave = wave_of(alloc, MANY, 21)?;
    let computed = lengths_of_two(alloc, &wave)?;
    wave.keep_lengths_by(rt, alloc, 2, workers.clamp(1, 16))
        .ok()?;
    let kept = lengths_of_two(alloc, &wave)?;
    Some(kept == computed)
}

#[test]
fn workers_keep_the_lengths_that_are_computed(rt: HostRuntime) {
    for workers in [1, 2, 16] {
        assert_eq!(rt; are_as_computed(&rt, rt.alloc(), workers), Some(true));
    }
}

/// Waves, how often their orders are repeated, a capacity, and the batches of the start.
const STARTS: &[(&[Slots], u32, u32, &[&[u32]])] = &[
    (APART, 1, 1, &[&[0], &[1], &[2]]),
    (APART, 1, 2, &[&[0, 1], &[2]]),
    (APART, 1, 3, &[&[0, 1, 2]]),
    (SAME, 1, 2, &[&[0, 1], &[2]]),
    (SAME, 1, 8, &[&[0, 1, 2]]),
    (&[&[(2, 2)]], 1, 8, &[&[0]]),
    (APART, 2, 2, &[&[0, 3], &[1, 4], &[2, 5]]),
    (
        &[&[(3, 4)]],
        16,
        8,
        &[&[0, 1, 2, 3, 4, 5, 6, 7], &[8, 9, 10, 11, 12, 13, 14, 15]],
    ),
];

/// The start of a wave, with 1 to 8 orders in a batch at most.
pub fn start_of(alloc: Global, wave: &Wave, capacity: u32) -> Option<Batching> {
    if capacity < 1 || 8 < capacity {
        return None;
    }
    merged_start(alloc, wave, capacity).ok()
}

fn starts_as(
    alloc: Global,
    orders: &[Slots],
    times: u32,
    capacity: u32,
    batches: &[&[u32]],
) -> Option<bool> {
    let wave = wave_of(alloc, orders, times)?;
    let start = start_of(alloc, &wave, capacity)?;
    Some(are_exactly(&start, batches))
}

fn wrong_start(alloc: Global) -> Option<usize> {
    for (place, (orders, times, capacity, batches)) in STARTS.iter().enumerate() {
        if starts_as(alloc, orders, *times, *capacity, batches) != Some(true) {
            return Some(place);
        }
    }
    None
}

#[test]
fn starts_are_merged_by_the_greatest_saving(rt: HostRuntime) {
    assert_eq!(rt; wrong_start(rt.alloc()), None);
}

/// Six orders: at each of three slots two.
pub const TWICE: &[Slots] = &[
    &[(1, 4)],
    &[(2, 4)],
    &[(3, 1)],
    &[(1, 4)],
    &[(2, 4)],
    &[(3, 1)],
];

/// Two orders of which each is as far by itself as with the other.
const NO_GAIN: &[Slots] = &[&[(1, 4)], &[(3, 1)]];

/// Batches of a wave.
pub type Batches = &'static [&'static [u32]];

/// Waves, the batches of a batching, in any order, a capacity, and the batches that these are joined to.
const JOINED: &[(&[Slots], Batches, u32, Batches)] = &[
    (APART, &[&[0], &[1], &[2]], 1, &[&[0], &[1], &[2]]),
    (APART, &[&[1], &[0], &[2]], 1, &[&[0], &[1], &[2]]),
    (APART, &[&[1], &[0], &[2]], 2, &[&[0, 1], &[2]]),
    (APART, &[&[0], &[1, 2]], 2, &[&[0], &[1, 2]]),
    (APART, &[&[1], &[0, 2]], 2, &[&[0, 2], &[1]]),
    (APART, &[&[2], &[0, 1]], 2, &[&[0, 1], &[2]]),
    (APART, &[&[2], &[0, 1]], 3, &[&[0, 1, 2]]),
    (SAME, &[&[1], &[0], &[2]], 2, &[&[0, 1], &[2]]),
    (NO_GAIN, &[&[1], &[0]], 8, &[&[0], &[1]]),
    (
        TWICE,
        &[&[0, 1], &[3, 4], &[2, 5]],
        2,
        &[&[0, 1], &[2, 5], &[3, 4]],
    ),
    (
        TWICE,
        &[&[0, 1], &[3, 4], &[2, 5]],
        4,
        &[&[0, 1, 3, 4], &[2, 5]],
    ),
    (
        TWICE,
        &[&[0, 1], &[3, 4], &[2, 5]],
        8,
        &[&[0, 1, 2, 3, 4, 5]],
    ),
];

/// Whether a batch has all orders below a number.
fn has_all(orders: u32, batch: Batch) -> bool
    ensures { IsTrue result → (order : ℕ) → order < orders → Contains batch order }
{
    for order in 0..orders {
        if !batch.has(order) {
            return false;
        }
    }
    true
}

/// Whether batches are a batching of a wave.
fn is_batching(wave: &Wave, capacity: u32, batches: &[Batch]) -> bool
    requires some_capacity { 1 ≤ capacity }
    requires most_capacity { capacity ≤ 8 }
    ensures { IsTrue result → IsBatching wave.now capacity batches.now }
{
    let pairs = wave.pairs(capacity);
    let mut covered = Batch::empty();
    for batch in batches {
        if !pairs.permits(*batch) || covered.meets(*batch) {
            return false;
        }
        covered = covered.union(*batch);
    }
    has_all(wave.orders(), covered)
}

/// The batches of some orders each.
pub fn batches_of(alloc: Global, batches: Batches) -> Option<Vec<Batch>> {
    let mut made = Vec::new(alloc);
    for orders in batches {
        made.push(batch_of(orders)).ok()?;
    }
    Some(made)
}

/// Whether a batching is joined to these batches.
pub fn is_joined_to(
    alloc: Global,
    wave: &Wave,
    given: &[Batch],
    capacity: u32,
    batches: Batches,
) -> Option<bool> {
    if capacity < 1 || 8 < capacity || !is_batching(wave, capacity, given) {
        return None;
    }
    let found = joined(alloc, wave, capacity, given).ok()?;
    Some(are_exactly(&found, batches))
}

fn joins_so(
    alloc: Global,
    orders: &[Slots],
    given: Batches,
    capacity: u32,
    batches: Batches,
) -> Option<bool> {
    let wave = wave_of(alloc, orders, 1)?;
    let given = batches_of(alloc, given)?;
    is_joined_to(alloc, &wave, given.as_slice(), capacity, batches)
}

fn wrong_joins(alloc: Global) -> Option<usize> {
    for (place, (orders, given, capacity, batches)) in JOINED.iter().enumerate() {
        if joins_so(alloc, orders, given, *capacity, batches) != Some(true) {
            return Some(place);
        }
    }
    None
}

#[test]
fn joins_that_save_are_made_to_any_batching(rt: HostRuntime) {
    assert_eq!(rt; wrong_joins(rt.alloc()), None);
}

fn count_batches(alloc: Global, orders: u32, capacity: u32) -> Option<u32> {
    let wave = wave_of(alloc, &[&[(3, 4)]], orders)?;
    Some(start_of(alloc, &wave, capacity)?.len())
}

#[test]
fn sixty_four_equal_orders_fill_eight_batches(rt: HostRuntime) {
    assert_eq!(rt; count_batches(rt.alloc(), 64, 8), Some(8));
    assert_eq!(rt; count_batches(rt.alloc(), 64, 1), Some(64));
}

/// Marks: every third one is true.
fn marked(alloc: Global, count: u64) -> Option<Marks> {
    let mut marks = Marks::new(alloc);
    for place in 0..count {
        marks.push(place % 3 == 0).ok()?;
    }
    Some(marks)
}

/// Whether there are so many marks, and every third one is true.
fn are_marked(marks: &Marks, count: u64) -> bool {
    for place in 0..count {
        if place >= marks.len() || marks.at(place) != (place % 3 == 0) {
            return false;
        }
    }
    marks.len() == count
}

fn wrong_marks(alloc: Global) -> Option<u64> {
    for count in &[0, 1, 7, 8, 9, 16, 1000] {
        if marked(alloc, *count).is_none_or(|marks| !are_marked(&marks, *count)) {
            return Some(*count);
        }
    }
    None
}

#[test]
fn marks_are_read_as_they_were_added(rt: HostRuntime) {
    assert_eq!(rt; wrong_marks(rt.alloc()), None);
}
