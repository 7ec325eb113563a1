use crate::search::{Terms, checked_plan};
use std::alloc::Global;
use std::thread::Threads;
use wp_draws::Draws;
use wp_samples::made_wave;
use wp_search::State;

/// How many orders the waves of the table have.
const ORDERS: u32 = 20;

/// The bounds of the ten made waves, with at most three orders in a batch. They sum to 35,748; no tree of one node
/// gives more.
const BOUNDS: &[u64] = &[3074, 3557, 3817, 4089, 4023, 3524, 3426, 3465, 3963, 2810];

/// What one worker is asked.
fn by_one(capacity: u32, budget: u64) -> Terms {
    Terms {
        capacity,
        budget,
        workers: 1,
    }
}

/// The bound of the plan of the next wave, for a budget that pays for one node.
fn next_bound<R: Threads + Sync>(rt: &R, alloc: Global, draws: &mut Draws) -> Option<u64> {
    let mut wave = made_wave(alloc, draws, ORDERS)?;
    wave.keep_lengths(alloc, 3).ok()?;
    Some(checked_plan(rt, alloc, &wave, by_one(3, 120_000))?.bound)
}

/// The first wave whose plan has another bound than the table says, and that bound.
fn wrong_bound<R: Threads + Sync>(rt: &R, alloc: Global) -> Option<(usize, Option<u64>)> {
    let mut draws = Draws::from_state(1);
    for (place, bound) in BOUNDS.iter().enumerate() {
        let found = next_bound(rt, alloc, &mut draws);
        if found != Some(*bound) {
            return Some((place, found));
        }
    }
    None
}

#[test]
fn plans_of_made_waves_have_high_bounds(rt: HostRuntime) {
    assert_eq!(rt; wrong_bound(&rt, rt.alloc()), None);
}

/// A wave of which a node's solution gives a cheaper batching than the start is: the state from which it is drawn, how
/// many orders it has, the capacity, and how many nodes the tree of its plan has.
struct Rounded {
    state: u64,
    orders: u32,
    capacity: u32,
    nodes: usize,
}

const ROUNDED: &[Rounded] = &[
    Rounded {
        state: 35,
        orders: 12,
        capacity: 5,
        nodes: 1,
    },
    Rounded {
        state: 26,
        orders: 30,
        capacity: 2,
        nodes: 3,
    },
];

/// A budget that pays for nodes of these waves, and for no more than the one round of moves that a start has without
/// any.
const FEW_NODES: u64 = 199_999;

/// Whether a plan is proven with so many nodes, and costs less than the start, which is the plan for no budget.
fn is_cheaper_by_nodes<R: Threads + Sync>(rt: &R, alloc: Global, row: &Rounded) -> Option<bool> {
    let wave = made_wave(alloc, &mut Draws::from_state(row.state), row.orders)?;
    let start = checked_plan(rt, alloc, &wave, by_one(row.capacity, 0))?.cost;
    let planned = checked_plan(rt, alloc, &wave, by_one(row.capacity, FEW_NODES))?;
    let count = planned.tree.nodes.as_slice().len();
    Some(count == row.nodes && planned.state == State::Proven && planned.cost < start)
}

fn no_cheaper<R: Threads + Sync>(rt: &R, alloc: Global) -> Option<usize> {
    for (place, row) in ROUNDED.iter().enumerate() {
        if is_cheaper_by_nodes(rt, alloc, row) != Some(true) {
            return Some(place);
        }
    }
    None
}

#[test]
fn the_solution_of_a_node_gives_a_cheaper_batching_than_the_start(rt: HostRuntime) {
    assert_eq!(rt; no_cheaper(&rt, rt.alloc()), None);
}

/// Whether the next wave of so many orders is proven with the greatest budget, and the check accepts its tree.
fn is_proven<R: Threads + Sync>(
    rt: &R,
    alloc: Global,
    draws: &mut Draws,
    orders: u32,
    capacity: u32,
) -> Option<bool> {
    let wave = made_wave(alloc, draws, orders)?;
    let planned = checked_plan(rt, alloc, &wave, by_one(capacity, u64::MAX))?;
    Some(planned.state == State::Proven)
}

/// The first number of orders, up to nine, and the first capacity for which the next wave isn't proven.
fn first_open<R: Threads + Sync>(rt: &R, alloc: Global) -> Option<(u32, u32)> {
    let mut draws = Draws::from_state(2);
    for orders in 1..10 {
        for capacity in 2..5 {
            if is_proven(rt, alloc, &mut draws, orders, capacity) != Some(true) {
                return Some((orders, capacity));
            }
        }
    }
    None
}

#[test]
fn made_waves_of_up_to_nine_orders_are_proven(rt: HostRuntime) {
    assert_eq!(rt; first_open(&rt, rt.alloc()), None);
}
