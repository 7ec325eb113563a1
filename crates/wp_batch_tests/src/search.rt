use std::alloc::Global;
use std::thread::Threads;
use wp_cert::{Node, Tree, check};
use wp_lengths::Wave;
use wp_outside::OpenGate;
use wp_samples::{Slots, are_exactly, wave_of};
use wp_search::{Planned, State, plan_wave};

/// Three orders with a slot each.
pub const APART: &[Slots] = &[&[(1, 4)], &[(2, 4)], &[(3, 1)]];

/// Three orders at one slot.
pub const SAME: &[Slots] = &[&[(3, 4)], &[(3, 4)], &[(3, 4)]];

/// One order.
const ONE: &[Slots] = &[&[(2, 2)]];

/// Orders that share slots.
pub const SHARED: &[Slots] = &[
    &[(1, 4), (2, 1)],
    &[(2, 1), (3, 1)],
    &[(1, 1), (1, 4), (3, 4)],
    &[(3, 1), (3, 4)],
    &[(2, 1)],
];

/// A wave, a capacity, a budget; the batches, the cost and the bound of its plan, and how many nodes of its tree have
/// duals of their own.
struct Case {
    orders: &'static [Slots],
    capacity: u32,
    budget: u64,
    batches: &'static [&'static [u32]],
    cost: u64,
    bound: u64,
    own: usize,
}

const CASES: &[Case] = &[
    Case {
        orders: APART,
        capacity: 1,
        budget: 0,
        batches: &[&[0], &[1], &[2]],
        cost: 60,
        bound: 60,
        own: 0,
    },
    Case {
        orders: APART,
        capacity: 2,
        budget: 112,
        batches: &[&[0, 1], &[2]],
        cost: 48,
        bound: 48,
        own: 1,
    },
    Case {
        orders: APART,
        capacity: 2,
        budget: 0,
        batches: &[&[0, 1], &[2]],
        cost: 48,
        bound: 30,
        own: 0,
    },
    Case {
        orders: SAME,
        capacity: 2,
        budget: 0,
        batches: &[&[0, 1], &[2]],
        cost: 68,
        bound: 51,
        own: 0,
    },
    Case {
        orders: SAME,
        capacity: 2,
        budget: 111,
        batches: &[&[0, 1], &[2]],
        cost: 68,
        bound: 51,
        own: 0,
    },
    Case {
        orders: SAME,
        capacity: 2,
        budget: 112,
        batches: &[&[0, 1], &[2]],
        cost: 68,
        bound: 51,
        own: 1,
    },
    Case {
        orders: SAME,
        capacity: 2,
        budget: 223,
        batches: &[&[0, 1], &[2]],
        cost: 68,
        bound: 51,
        own: 1,
    },
    Case {
        orders: SAME,
        capacity: 2,
        budget: 224,
        batches: &[&[0, 1], &[2]],
        cost: 68,
        bound: 51,
        own: 2,
    },
    Case {
        orders: SAME,
        capacity: 2,
        budget: 335,
        batches: &[&[0, 1], &[2]],
        cost: 68,
        bound: 51,
        own: 2,
    },
    Case {
        orders: SAME,
        capacity: 2,
        budget: 336,
        batches: &[&[0, 1], &[2]],
        cost: 68,
        bound: 68,
        own: 3,
    },
    Case {
        orders: SAME,
        capacity: 2,
        budget: 1_792,
        batches: &[&[0, 1], &[2]],
        cost: 68,
        bound: 68,
        own: 3,
    },
    Case {
        orders: SAME,
        capacity: 2,
        budget: 2_000_000,
        batches: &[&[0, 1], &[2]],
        cost: 68,
        bound: 68,
        own: 3,
    },
    Case {
        orders: ONE,
        capacity: 1,
        budget: 0,
        batches: &[&[0]],
        cost: 16,
        bound: 16,
        own: 0,
    },
    Case {
        orders: ONE,
        capacity: 8,
        budget: 0,
        batches: &[&[0]],
        cost: 16,
        bound: 2,
        own: 0,
    },
    Case {
        orders: ONE,
        capacity: 8,
        budget: 1_000_000_000_000_000_000,
        batches: &[&[0]],
        cost: 16,
        bound: 16,
        own: 1,
    },
];

/// Whether a node has duals of its own.
fn has_own(node: &Node) -> bool {
    match node {
        Node::Leaf(own) => own.is_some(),
        Node::Split { own, .. } => own.is_some(),
        Node::Dead(_) => false,
    }
}

/// How many nodes of a tree have duals of their own.
pub fn own_nodes(tree: &Tree) -> usize {
    tree.nodes
        .as_slice()
        .iter()
        .filter(|node| has_own(node))
        .count()
}

/// How many orders go into a batch at most, what a plan may cost, and how many workers make it.
#[derive(Clone, Copy)]
pub struct Terms {
    pub capacity: u32,
    pub budget: u64,
    pub workers: u32,
}

/// The plan of a wave within the ranges of budget and workers, if the check accepts its tree with its bound.
pub fn checked_plan<R: Threads + Sync>(
    rt: &R,
    alloc: Global,
    wave: &Wave,
    terms: Terms,
) -> Option<Planned> {
    let Terms {
        capacity,
        budget,
        workers,
    } = terms;
    if capacity < 1 || 8 < capacity || workers < 1 || 16 < workers {
        return None;
    }
    let budget = budget.min(1_000_000_000_000_000_000);
    let planned = plan_wave(rt, alloc, wave, capacity, budget, workers, &OpenGate).ok()?;
    let bound = check(alloc, wave, capacity, &planned.tree).ok()?;
    (bound == planned.bound).then_some(planned)
}

/// Whether a plan is that of a case.
fn is_as(planned: &Planned, case: &Case) -> bool {
    let proven = planned.state == State::Proven;
    planned.cost == case.cost
        && planned.bound == case.bound
        && proven == (case.bound == case.cost)
        && own_nodes(&planned.tree) == case.own
        && are_exactly(&planned.batching, case.batches)
}

fn planned_as<R: Threads + Sync>(rt: &R, alloc: Global, case: &Case) -> Option<bool> {
    let wave = wave_of(alloc, case.orders, 1)?;
    let terms = Terms {
        capacity: case.capacity,
        budget: case.budget,
        workers: 1,
    };
    let planned = checked_plan(rt, alloc, &wave, terms)?;
    Some(is_as(&planned, case))
}

fn wrong_plan<R: Threads + Sync>(rt: &R, alloc: Global) -> Option<usize> {
    for (place, case) in CASES.iter().enumerate() {
        if planned_as(rt, alloc, case) != Some(true) {
            return Some(place);
        }
    }
    None
}

#[test]
fn plans_have_the_batches_and_bounds_of_their_waves(rt: HostRuntime) {
    assert_eq!(rt; wrong_plan(&rt, rt.alloc()), None);
}

/// What plans of the orders that share slots cost, for the capacities from 1 on.
const COSTS: &[u64] = &[132, 86, 62, 50, 38, 38, 38, 38];

/// What a plan costs that is proven with the greatest budget.
fn proven_cost<R: Threads + Sync>(
    rt: &R,
    alloc: Global,
    capacity: u32,
    workers: u32,
) -> Option<u64> {
    let wave = wave_of(alloc, SHARED, 1)?;
    let terms = Terms {
        capacity,
        budget: u64::MAX,
        workers,
    };
    let planned = checked_plan(rt, alloc, &wave, terms)?;
    (planned.state == State::Proven).then_some(planned.cost)
}

fn wrong_cost<R: Threads + Sync>(rt: &R, alloc: Global) -> Option<(usize, Option<u64>)> {
    for (place, cost) in COSTS.iter().enumerate() {
        let capacity = place as u32 + 1;
        for workers in [1, 16] {
            let found = proven_cost(rt, alloc, capacity, workers);
            if found != Some(*cost) {
                return Some((place, found));
            }
        }
    }
    None
}

#[test]
fn plans_of_orders_that_share_slots_are_proven(rt: HostRuntime) {
    assert_eq!(rt; wrong_cost(&rt, rt.alloc()), None);
}
