//! Waves with carts: the permitted batch of least slack is that which a list of all batches shows.

use crate::price::Given;
use crate::slow::{GIVEN, ORDERS, are_same_through_all};
use std::alloc::Global;
use std::thread::Threads;
use wp_draws::Draws;
use wp_samples::cart_wave_of;

/// How many carts are drawn for each of the duals and capacities.
const CARTS: u32 = 3;

/// What a cart holds, and what an order loads at most.
const SIZES: &[(u32, u32)] = &[(5, 5), (10, 6), (40_000_000, 20_000_000)];

/// What six orders load, each up to a greatest load.
pub fn drawn_loads(draws: &mut Draws, greatest_load: u32) -> [u32; 6] {
    let mut loads = [0; 6];
    for order in 0..6 {
        loads[order] = draws.below(u64::from(greatest_load) + 1) as u32;
    }
    loads
}

/// Whether the best batch is found with the next cart.
fn is_same<R: Threads + Sync>(
    rt: &R,
    alloc: Global,
    draws: &mut Draws,
    size: (u32, u32),
    given: Given,
) -> Option<bool> {
    let (units, greatest_load) = size;
    let loads = drawn_loads(draws, greatest_load);
    let wave = cart_wave_of(alloc, given.orders, units, &loads)?;
    Some(are_same_through_all(rt, alloc, &wave, given))
}

/// Whether it is found with the next carts of each size.
fn are_same_in_carts<R: Threads + Sync>(
    rt: &R,
    alloc: Global,
    draws: &mut Draws,
    given: Given,
) -> bool {
    for size in SIZES {
        for _ in 0..CARTS {
            if is_same(rt, alloc, draws, *size, given) != Some(true) {
                return false;
            }
        }
    }
    true
}

fn wrong_row<R: Threads + Sync>(rt: &R, alloc: Global) -> Option<(usize, u32)> {
    let mut draws = Draws::from_state(11);
    for (place, (duals, pairs)) in GIVEN.iter().enumerate() {
        for capacity in [2, 3, 8] {
            let given = Given {
                orders: ORDERS,
                capacity,
                pairs: *pairs,
                duals: *duals,
            };
            if !are_same_in_carts(rt, alloc, &mut draws, given) {
                return Some((place, capacity));
            }
        }
    }
    None
}

#[test]
fn pricing_within_carts_finds_what_a_list_of_all_batches_shows(rt: HostRuntime) {
    assert_eq!(rt; wrong_row(&rt, rt.alloc()), None);
}
