ghost use Rattle.std.specs.Prelude.{◌<◌, All, length};

use std::alloc::Global;
use wp_batch::merged_start;
use wp_draws::Draws;
use wp_lengths::{Batching, Wave};
use wp_pairs::Batch;
use wp_samples::made_wave;

/// Made waves, drawn one after the other, of so many orders each, and what their starts cost with at most so many
/// orders in a batch.
struct Starts {
    orders: u32,
    capacity: u32,
    costs: &'static [u64],
}

/// The sums are 36,250, 31,430, 28,714, 27,626, 25,492 and 15,366.
const STARTS: &[Starts] = &[
    Starts {
        orders: 20,
        capacity: 3,
        costs: &[3108, 3596, 3850, 4180, 4048, 3582, 3488, 3504, 4082, 2812],
    },
    Starts {
        orders: 20,
        capacity: 4,
        costs: &[2680, 3152, 3364, 3536, 3568, 3168, 2966, 3072, 3432, 2492],
    },
    Starts {
        orders: 20,
        capacity: 5,
        costs: &[2446, 2898, 3004, 3174, 3274, 2976, 2706, 2860, 3070, 2306],
    },
    Starts {
        orders: 20,
        capacity: 6,
        costs: &[2280, 2826, 2958, 3110, 3064, 2900, 2642, 2698, 2992, 2156],
    },
    Starts {
        orders: 20,
        capacity: 8,
        costs: &[2096, 2544, 2756, 2792, 2936, 2696, 2412, 2492, 2688, 2080],
    },
    Starts {
        orders: 40,
        capacity: 6,
        costs: &[4592, 5478, 5296],
    },
];

/// What a batching of the wave costs.
fn sum_of_lengths(wave: &Wave, batching: &Batching) -> u64 {
    let mut sum: u64 = 0;
    for batch in batching.as_slice() {
        sum = sum.saturating_add(length_within(wave, *batch));
    }
    sum
}

/// The length of a batch of the wave.
pub fn length_within(wave: &Wave, batch: Batch) -> u64 {
    wave.batch_length(known_part(wave, batch))
}

/// The orders of a batch that are of the wave: all of them.
fn known_part(wave: &Wave, batch: Batch) -> Batch
    ensures { All (λ order. order < length wave.now.orders) result }
{
    let mut known = Batch::empty();
    for order in 0..wave.orders() {
        if batch.has(order) {
            known = known.with(order);
        }
    }
    known
}

/// What the start of a wave costs, with 1 to 8 orders in a batch at most.
pub fn start_cost(alloc: Global, wave: &Wave, capacity: u32) -> Option<u64> {
    if capacity < 1 || capacity > 8 {
        return None;
    }
    let start = merged_start(alloc, wave, capacity).ok()?;
    Some(sum_of_lengths(wave, &start))
}

/// What the start of the next made wave costs.
fn next_cost(alloc: Global, draws: &mut Draws, orders: u32, capacity: u32) -> Option<u64> {
    let mut wave = made_wave(alloc, draws, orders)?;
    wave.keep_lengths(alloc, capacity.min(3)).ok()?;
    start_cost(alloc, &wave, capacity)
}

/// The first wave whose start costs something else than is said, and that cost.
fn wrong_cost(alloc: Global, starts: &Starts) -> Option<(usize, Option<u64>)> {
    let mut draws = Draws::from_state(1);
    for (place, cost) in starts.costs.iter().enumerate() {
        let found = next_cost(alloc, &mut draws, starts.orders, starts.capacity);
        if found != Some(*cost) {
            return Some((place, found));
        }
    }
    None
}

/// The first row of the table in which a wave's start costs something else, that wave, and that cost.
fn wrong_row(alloc: Global) -> Option<(usize, usize, Option<u64>)> {
    for (row, starts) in STARTS.iter().enumerate() {
        if let Some((place, found)) = wrong_cost(alloc, starts) {
            return Some((row, place, found));
        }
    }
    None
}

#[test]
fn starts_of_made_waves_cost_what_the_table_says(rt: HostRuntime) {
    assert_eq!(rt; wrong_row(rt.alloc()), None);
}
