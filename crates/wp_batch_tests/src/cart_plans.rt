//! Plans of waves with carts. The check accepts the tree of each with its bound.

use crate::cart_pricing::drawn_loads;
use crate::many::ORDERS;
use crate::search::{APART, SAME, SHARED, Terms, checked_plan, own_nodes};
use std::alloc::Global;
use std::thread::Threads;
use wp_draws::Draws;
use wp_lengths::{Batching, Wave};
use wp_node::price_of;
use wp_pairs::Capacity;
use wp_samples::{Slots, are_exactly, batch_below, cart_wave_of, wave_of};
use wp_search::{Planned, State};

/// A wave, what its cart holds, what each order loads, a capacity and a budget; the batches, the cost and the bound of
/// its plan.
struct Case {
    orders: &'static [Slots],
    units: u32,
    loads: &'static [u32],
    capacity: u32,
    budget: u64,
    batches: &'static [&'static [u32]],
    cost: u64,
    bound: u64,
}

const CASES: &[Case] = &[
    Case {
        orders: SAME,
        units: 5,
        loads: &[3, 3, 3],
        capacity: 2,
        budget: 112,
        batches: &[&[0], &[1], &[2]],
        cost: 102,
        bound: 102,
    },
    Case {
        orders: SAME,
        units: 5,
        loads: &[3, 3, 3],
        capacity: 2,
        budget: 111,
        batches: &[&[0], &[1], &[2]],
        cost: 102,
        bound: 51,
    },
    Case {
        orders: SAME,
        units: 6,
        loads: &[3, 3, 3],
        capacity: 2,
        budget: 112,
        batches: &[&[0, 1], &[2]],
        cost: 68,
        bound: 51,
    },
    Case {
        orders: SAME,
        units: 6,
        loads: &[3, 3, 3],
        capacity: 2,
        budget: 2_000_000,
        batches: &[&[0, 1], &[2]],
        cost: 68,
        bound: 68,
    },
    Case {
        orders: SAME,
        units: 5,
        loads: &[0, 3, 3],
        capacity: 2,
        budget: 2_000_000,
        batches: &[&[0, 1], &[2]],
        cost: 68,
        bound: 68,
    },
    Case {
        orders: SAME,
        units: 5,
        loads: &[4, 3, 2],
        capacity: 2,
        budget: 112,
        batches: &[&[0], &[1, 2]],
        cost: 68,
        bound: 68,
    },
    Case {
        orders: APART,
        units: 5,
        loads: &[3, 3, 2],
        capacity: 2,
        budget: 2_000_000,
        batches: &[&[0], &[1, 2]],
        cost: 50,
        bound: 50,
    },
    Case {
        orders: APART,
        units: 40_000_000,
        loads: &[20_000_000, 20_000_000, 20_000_001],
        capacity: 3,
        budget: 2_000_000,
        batches: &[&[0, 1], &[2]],
        cost: 48,
        bound: 48,
    },
];

/// What one worker is asked.
fn by_one(capacity: u32, budget: u64) -> Terms {
    Terms {
        capacity,
        budget,
        workers: 1,
    }
}

/// Whether a plan has this cost and this bound, and is proven exactly where they are the same.
fn costs_so(planned: &Planned, cost: u64, bound: u64) -> bool {
    let is_proven = planned.state == State::Proven;
    planned.cost == cost && planned.bound == bound && is_proven == (bound == cost)
}

fn planned_as<R: Threads + Sync>(rt: &R, alloc: Global, case: &Case) -> Option<bool> {
    let wave = cart_wave_of(alloc, case.orders, case.units, case.loads)?;
    let planned = checked_plan(rt, alloc, &wave, by_one(case.capacity, case.budget))?;
    let is_right = are_exactly(&planned.batching, case.batches);
    Some(is_right && costs_so(&planned, case.cost, case.bound))
}

fn wrong_plan<R: Threads + Sync>(rt: &R, alloc: Global) -> Option<usize> {
    for (place, case) in CASES.iter().enumerate() {
        if planned_as(rt, alloc, case) != Some(true) {
            return Some(place);
        }
    }
    None
}

#[test]
fn plans_of_waves_with_carts_have_their_batches_and_bounds(rt: HostRuntime) {
    assert_eq!(rt; wrong_plan(&rt, rt.alloc()), None);
}

/// Waves that are planned with carts of several kinds.
const WAVES: &[&[Slots]] = &[APART, SAME, SHARED];

/// What the orders of these waves load: three units each.
const LOADS: &[u32] = &[3; 5];

/// Such a wave with a cart of so many units.
fn with_cart(alloc: Global, orders: &[Slots], units: u32) -> Option<Wave> {
    cart_wave_of(alloc, orders, units, LOADS.get(..orders.len())?)
}

/// What the plan of a wave costs, and its bound.
fn cost_and_bound<R: Threads + Sync>(
    rt: &R,
    alloc: Global,
    wave: &Wave,
    terms: Terms,
) -> Option<(u64, u64)> {
    let planned = checked_plan(rt, alloc, wave, terms)?;
    Some((planned.cost, planned.bound))
}

/// Whether the plan with a cart that holds all loads together costs as much as that without one, and has its bound.
fn costs_as_free<R: Threads + Sync>(
    rt: &R,
    alloc: Global,
    orders: &[Slots],
    terms: Terms,
) -> Option<bool> {
    let free = wave_of(alloc, orders, 1)?;
    let carted = with_cart(alloc, orders, 3 * free.orders())?;
    let found = cost_and_bound(rt, alloc, &carted, terms)?;
    Some(found == cost_and_bound(rt, alloc, &free, terms)?)
}

/// The first wave, capacity and budget for which a cart that holds all changes the plan.
fn changed_plan<R: Threads + Sync>(rt: &R, alloc: Global) -> Option<(usize, u32, u64)> {
    for (place, orders) in WAVES.iter().enumerate() {
        for capacity in 1..6 {
            for budget in [0, 1_000, 100_000] {
                if costs_as_free(rt, alloc, orders, by_one(capacity, budget)) != Some(true) {
                    return Some((place, capacity, budget));
                }
            }
        }
    }
    None
}

#[test]
fn a_cart_that_holds_all_changes_no_cost_and_no_bound(rt: HostRuntime) {
    assert_eq!(rt; changed_plan(&rt, rt.alloc()), None);
}

/// The budget that pays for just one node with duals of its own.
fn root_budget(wave: &Wave, capacity: u32) -> Option<u64> {
    if capacity < 1 || 8 < capacity {
        return None;
    }
    u64::try_from(price_of(wave.orders(), Capacity { most: capacity })).ok()
}

/// What single orders cost.
fn single_cost(wave: &Wave) -> Option<u64> {
    let mut cost: u64 = 0;
    for order in 0..wave.orders() {
        let batch = batch_below(&[order], wave.orders())?;
        cost = cost.saturating_add(wave.batch_length(batch));
    }
    Some(cost)
}

/// Whether each batch has one order, and there are so many batches.
fn are_single(batching: &Batching, orders: u32) -> bool {
    for batch in batching.as_slice() {
        if batch.len() != 1 {
            return false;
        }
    }
    batching.len() == orders
}

/// Whether a plan has single orders, and is proven by so many nodes with duals of their own.
fn is_single(planned: &Planned, wave: &Wave, own: usize) -> Option<bool> {
    let cost = single_cost(wave)?;
    let are_apart = are_single(&planned.batching, wave.orders());
    Some(are_apart && costs_so(planned, cost, cost) && own_nodes(&planned.tree) == own)
}

/// Whether single orders are proven at the root, where no two orders fit the cart and the budget pays for the root
/// alone.
fn is_proven_at_root<R: Threads + Sync>(
    rt: &R,
    alloc: Global,
    orders: &[Slots],
    capacity: u32,
) -> Option<bool> {
    let wave = with_cart(alloc, orders, 5)?;
    let budget = root_budget(&wave, capacity)?;
    let planned = checked_plan(rt, alloc, &wave, by_one(capacity, budget))?;
    let is_alone = planned.tree.nodes.as_slice().len() == 1;
    Some(is_alone && is_single(&planned, &wave, usize::from(capacity > 1))?)
}

/// The first wave and capacity for which single orders aren't proven at the root.
fn unproven_root<R: Threads + Sync>(rt: &R, alloc: Global) -> Option<(usize, u32)> {
    for (place, orders) in WAVES.iter().enumerate() {
        for capacity in 1..9 {
            if is_proven_at_root(rt, alloc, orders, capacity) != Some(true) {
                return Some((place, capacity));
            }
        }
    }
    None
}

#[test]
fn single_orders_are_proven_at_the_root_where_no_two_fit(rt: HostRuntime) {
    assert_eq!(rt; unproven_root(&rt, rt.alloc()), None);
}

/// How many waves are drawn of each kind.
const DRAWN: u32 = 5;

/// What carts hold, what an order loads at most, and a capacity.
const KINDS: &[(u32, u32, u32)] = &[(5, 5, 2), (10, 6, 3), (40_000_000, 20_000_000, 8)];

/// What an order picks where none is drawn.
const UNDRAWN: Slots = &[(1, 1)];

/// What a drawn order picks.
fn drawn_order(draws: &mut Draws) -> Slots {
    match ORDERS.get(draws.below(24) as usize) {
        Some(slots) => *slots,
        None => UNDRAWN,
    }
}

/// A wave of six drawn orders with a cart, for which loads are drawn.
fn drawn_wave(alloc: Global, draws: &mut Draws, units: u32, greatest_load: u32) -> Option<Wave> {
    let mut orders = [UNDRAWN; 6];
    for place in 0..6 {
        orders[place] = drawn_order(draws);
    }
    let loads = drawn_loads(draws, greatest_load);
    cart_wave_of(alloc, &orders, units, &loads)
}

/// Whether each batch fits the wave's cart and is within the capacity.
fn are_permitted(wave: &Wave, capacity: u32, batching: &Batching) -> bool {
    if capacity < 1 || 8 < capacity {
        return false;
    }
    let pairs = wave.pairs(capacity);
    for batch in batching.as_slice() {
        if !pairs.permits(*batch) {
            return false;
        }
    }
    true
}

/// Whether the next wave of a kind is proven with the greatest budget, by batches that are permitted.
fn is_proven<R: Threads + Sync>(
    rt: &R,
    alloc: Global,
    draws: &mut Draws,
    kind: (u32, u32, u32),
) -> Option<bool> {
    let (units, greatest_load, capacity) = kind;
    let wave = drawn_wave(alloc, draws, units, greatest_load)?;
    let planned = checked_plan(rt, alloc, &wave, by_one(capacity, u64::MAX))?;
    let is_permitted = are_permitted(&wave, capacity, &planned.batching);
    Some(is_permitted && costs_so(&planned, planned.cost, planned.cost))
}

/// The first kind of waves of which one isn't proven.
fn open_kind<R: Threads + Sync>(rt: &R, alloc: Global) -> Option<usize> {
    let mut draws = Draws::from_state(13);
    for (place, kind) in KINDS.iter().enumerate() {
        for _ in 0..DRAWN {
            if is_proven(rt, alloc, &mut draws, *kind) != Some(true) {
                return Some(place);
            }
        }
    }
    None
}

#[test]
fn drawn_waves_with_drawn_carts_are_proven(rt: HostRuntime) {
    assert_eq!(rt; open_kind(&rt, rt.alloc()), None);
}
