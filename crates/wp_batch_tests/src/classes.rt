//! Where all pairs of orders are decided, the classes are the batches. A search comes there only where a node's linear
//! program has no answer.
ghost use Rattle.std.specs.Prelude.{◌≡◌, ℕ, List, IfSome, IsTrue, length};
ghost use Rattle.wp_pairs.specs.Permitted.{AllDecided};
ghost use Rattle.wp_lengths.specs.Batchings.{IsBatching};
ghost use Rattle.wp_lengths.specs.Duals.{AreTight, IsTightFor};

use std::alloc::Global;
use wp_lengths::{Batching, DualWave, OrderDuals, SIXTIETHS, Wave};
use wp_node::class_batching;
use wp_pairs::{Capacity, Pairs};
use wp_samples::{Slots, are_exactly, wave_of};
use wp_search::cost_of;

/// One order.
const ONE: &[Slots] = &[&[(2, 2)]];

/// Three orders with a slot each.
const APART: &[Slots] = &[&[(1, 4)], &[(2, 4)], &[(3, 1)]];

/// Three orders at one slot.
const SAME: &[Slots] = &[&[(3, 4)], &[(3, 4)], &[(3, 4)]];

/// Where the orders of a wave pick, a capacity, for each undecided pair in turn whether it goes together, and tight
/// duals; the classes and their cost.
struct Classes {
    orders: &'static [Slots],
    capacity: u32,
    together: &'static [bool],
    duals: &'static [u64],
    batches: &'static [&'static [u32]],
    cost: u64,
}

const CLASSES: &[Classes] = &[
    Classes {
        orders: ONE,
        capacity: 1,
        together: &[],
        duals: &[960],
        batches: &[&[0]],
        cost: 16,
    },
    Classes {
        orders: APART,
        capacity: 1,
        together: &[false, false, false],
        duals: &[840, 1440, 1320],
        batches: &[&[0], &[1], &[2]],
        cost: 60,
    },
    Classes {
        orders: APART,
        capacity: 2,
        together: &[true, false],
        duals: &[600, 960, 1320],
        batches: &[&[0, 1], &[2]],
        cost: 48,
    },
    Classes {
        orders: APART,
        capacity: 2,
        together: &[false, true],
        duals: &[2160, 1440, 0],
        batches: &[&[0, 2], &[1]],
        cost: 60,
    },
    Classes {
        orders: SAME,
        capacity: 3,
        together: &[true, true],
        duals: &[0, 2000, 40],
        batches: &[&[0, 1, 2]],
        cost: 34,
    },
];

/// The pairs of a wave's orders, each undecided one in turn put together or apart, if all are decided then.
fn decided_pairs(wave: &Wave, capacity: Capacity, together: &[bool]) -> Option<Pairs>
    ensures orders { IfSome result (λ pairs. pairs.orders ≡ length wave.now.orders) }
    ensures capacity { IfSome result (λ pairs. pairs.capacity ≡ capacity.most) }
    ensures cart { IfSome result (λ pairs. pairs.cart ≡ wave.now.cart) }
    ensures decided { IfSome result AllDecided }
{
    let mut pairs = wave.pairs(capacity.most);
    for choice in together {
        if let Some((first, second)) = pairs.undecided() {
            pairs.add(first, second, *choice);
        }
    }
    match pairs.undecided() {
        None => Some(pairs),
        Some(_) => None,
    }
}

/// Whether the class of an order is tight for it.
fn is_class_tight(given: &DualWave<'_>, order: u32) -> bool
    ensures { IsTrue result → (batch : List ℕ)
        × IsTightFor given.now.wave.now given.now.pairs.now given.now.duals.now order batch }
{
    if given.pairs.orders() <= order {
        return false;
    }
    let class = given.pairs.joined_to(order);
    if !given.pairs.permits(class) || !class.has(order) {
        return false;
    }
    given.duals.sum_of(class) == SIXTIETHS * given.wave.batch_length(class)
}

/// Whether the classes are tight for all orders.
fn are_classes_tight(given: &DualWave<'_>) -> bool
    ensures { IsTrue result → AreTight given.now.wave.now given.now.pairs.now given.now.duals.now }
{
    for order in 0..given.pairs.orders() {
        if !is_class_tight(given, order) {
            return false;
        }
    }
    true
}

/// The classes of a case, as a batching of its wave.
fn classes_of(alloc: Global, wave: &Wave, capacity: Capacity, case: &Classes) -> Option<Batching>
    ensures { IfSome result (IsBatching wave.now capacity.most) }
{
    let pairs = decided_pairs(wave, capacity, case.together)?;
    let duals = OrderDuals::limited(alloc, wave.orders(), case.duals).ok()?;
    let given = DualWave {
        wave,
        pairs: &pairs,
        duals: &duals,
    };
    if !are_classes_tight(&given) {
        return None;
    }
    class_batching(alloc, &given).ok()
}

fn classes_are_as(alloc: Global, case: &Classes) -> Option<bool> {
    if case.capacity < 1 || 8 < case.capacity {
        return None;
    }
    let capacity = Capacity {
        most: case.capacity,
    };
    let wave = wave_of(alloc, case.orders, 1)?;
    let classes = classes_of(alloc, &wave, capacity, case)?;
    let cost = cost_of(&wave, capacity.most, &classes);
    Some(cost == case.cost && are_exactly(&classes, case.batches))
}

fn wrong_classes(alloc: Global) -> Option<usize> {
    for (place, case) in CLASSES.iter().enumerate() {
        if classes_are_as(alloc, case) != Some(true) {
            return Some(place);
        }
    }
    None
}

#[test]
fn classes_are_the_batches_where_all_pairs_are_decided(rt: HostRuntime) {
    assert_eq!(rt; wrong_classes(rt.alloc()), None);
}
