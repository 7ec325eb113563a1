use wp_pairs::{Batch, Pairs};
use wp_samples::{PairRow, batch_of, pairs_of};

/// A wave of so many orders, with so many to a batch, and the pairs that are added.
type Given = (u32, u32, &'static [PairRow]);

const TOGETHER: bool = true;

const APART: bool = false;

/// Orders that are put into a batch, and the orders that it then has.
const BATCHES: &[(&[u32], &[u32])] = &[
    (&[], &[]),
    (&[0], &[0]),
    (&[63], &[63]),
    (&[5, 3, 9], &[3, 5, 9]),
    (&[63, 0, 63, 31, 32], &[0, 31, 32, 63]),
];

/// Batches, and whether they are permitted.
const PERMITTED: &[(Given, &[u32], bool)] = &[
    ((3, 2, &[]), &[], false),
    ((3, 2, &[]), &[0], true),
    ((3, 2, &[]), &[1, 2], true),
    ((3, 2, &[]), &[0, 1, 2], false),
    ((3, 2, &[]), &[3], false),
    ((3, 2, &[]), &[0, 63], false),
    ((3, 2, &[(0, 1, TOGETHER)]), &[0, 1], true),
    ((3, 2, &[(0, 1, TOGETHER)]), &[0], false),
    ((3, 2, &[(0, 1, TOGETHER)]), &[1, 2], false),
    ((3, 2, &[(0, 1, TOGETHER)]), &[2], true),
    ((3, 2, &[(0, 1, APART)]), &[0, 1], false),
    ((3, 2, &[(0, 1, APART)]), &[0, 2], true),
    ((3, 2, &[(0, 1, APART)]), &[1], true),
    ((1, 1, &[]), &[0], true),
    ((1, 8, &[]), &[0], true),
    ((64, 1, &[]), &[63], true),
    ((64, 1, &[]), &[62, 63], false),
    ((64, 8, &[]), &[0, 9, 18, 27, 36, 45, 54, 63], true),
    ((64, 8, &[]), &[0, 9, 18, 27, 36, 45, 54, 62, 63], false),
    (
        (64, 8, &[(0, 9, TOGETHER), (9, 63, TOGETHER)]),
        &[0, 9, 63],
        true,
    ),
    (
        (64, 8, &[(0, 9, TOGETHER), (9, 63, TOGETHER)]),
        &[0, 9],
        false,
    ),
    ((5, 8, &[(0, 1, TOGETHER), (1, 2, APART)]), &[0, 1, 3], true),
    (
        (5, 8, &[(0, 1, TOGETHER), (1, 2, APART)]),
        &[0, 1, 2],
        false,
    ),
];

/// Pairs, the least pair that they leave undecided, and the least order that no permitted batch has.
const LEFT: &[(Given, Option<(u32, u32)>, Option<u32>)] = &[
    ((1, 1, &[]), None, None),
    ((2, 1, &[]), Some((0, 1)), None),
    ((2, 1, &[(0, 1, TOGETHER)]), None, Some(0)),
    ((2, 1, &[(0, 1, APART)]), None, None),
    ((3, 2, &[]), Some((0, 1)), None),
    ((3, 2, &[(0, 1, TOGETHER)]), Some((0, 2)), None),
    ((3, 2, &[(0, 1, TOGETHER), (1, 2, TOGETHER)]), None, Some(0)),
    ((3, 2, &[(0, 1, TOGETHER), (1, 2, APART)]), None, None),
    (
        (4, 2, &[(1, 2, TOGETHER), (2, 3, TOGETHER)]),
        Some((0, 1)),
        Some(1),
    ),
    (
        (4, 2, &[(0, 1, APART), (1, 2, TOGETHER), (0, 3, APART)]),
        Some((1, 3)),
        None,
    ),
    (
        (4, 8, &[(0, 1, TOGETHER), (2, 3, TOGETHER), (1, 2, APART)]),
        None,
        None,
    ),
    (
        (4, 8, &[(0, 1, APART), (2, 3, APART), (1, 2, TOGETHER)]),
        Some((0, 3)),
        None,
    ),
    ((64, 8, &[(0, 63, TOGETHER)]), Some((0, 1)), None),
    (
        (64, 1, &[(0, 1, APART), (62, 63, TOGETHER)]),
        Some((0, 2)),
        Some(62),
    ),
];

/// The pairs of a row, where each can be added.
fn made(given: Given) -> Option<Pairs> {
    let (orders, capacity, rows) = given;
    pairs_of(orders, capacity, rows)
}

/// Whether a batch has exactly these orders.
fn has_exactly(batch: Batch, orders: &[u32]) -> bool {
    for order in 0..70 {
        if batch.has(order) != orders.contains(&order) {
            return false;
        }
    }
    batch.len() as usize == orders.len() && batch.least() == orders.first().copied()
}

fn is_permitted(given: Given, orders: &[u32]) -> Option<bool> {
    let pairs = made(given)?;
    Some(pairs.permits(batch_of(orders)))
}

fn left_by(given: Given) -> Option<(Option<(u32, u32)>, Option<u32>)> {
    let pairs = made(given)?;
    Some((pairs.undecided(), pairs.dead()))
}

fn wrong_batch() -> Option<usize> {
    for (place, (given, orders)) in BATCHES.iter().enumerate() {
        if !has_exactly(batch_of(given), orders) {
            return Some(place);
        }
    }
    None
}

fn wrong_permit() -> Option<usize> {
    for (place, (given, orders, expected)) in PERMITTED.iter().enumerate() {
        if is_permitted(*given, orders) != Some(*expected) {
            return Some(place);
        }
    }
    None
}

fn wrong_rest() -> Option<usize> {
    for (place, (given, undecided, dead)) in LEFT.iter().enumerate() {
        if left_by(*given) != Some((*undecided, *dead)) {
            return Some(place);
        }
    }
    None
}

#[test]
fn batches_have_the_orders_that_are_put_into_them(rt: HostRuntime) {
    assert_eq!(rt; wrong_batch(), None);
}

#[test]
fn batches_are_permitted_as_listed(rt: HostRuntime) {
    assert_eq!(rt; wrong_permit(), None);
}

#[test]
fn the_least_undecided_pair_and_the_least_dead_order_are_found(rt: HostRuntime) {
    assert_eq!(rt; wrong_rest(), None);
}

/// How many pairs can be added, one undecided pair after another, all together or all apart.
fn count_added(pairs: &mut Pairs, together: bool) -> u32 {
    let mut count: u32 = 0;
    for _ in 0..3000 {
        if let Some((first, second)) = pairs.undecided() {
            pairs.add(first, second, together);
            count = count.saturating_add(1);
        }
    }
    count
}

/// How many orders go together with an order.
fn count_joined(pairs: &Pairs, order: u32) -> Option<u32> {
    if pairs.orders() <= order {
        return None;
    }
    Some(pairs.joined_to(order).len())
}

#[test]
fn all_pairs_of_64_orders_can_be_added(rt: HostRuntime) {
    let mut pairs = Pairs::new(64, 8);
    assert_eq!(rt; count_added(&mut pairs, APART), 2016);
    assert_eq!(rt; count_joined(&pairs, 5), Some(1));
    assert_eq!(rt; (pairs.undecided(), pairs.dead()), (None, None));
}

#[test]
fn a_chain_of_64_orders_is_one_class(rt: HostRuntime) {
    let mut pairs = Pairs::new(64, 8);
    assert_eq!(rt; count_added(&mut pairs, TOGETHER), 63);
    assert_eq!(rt; count_joined(&pairs, 5), Some(64));
    assert_eq!(rt; (pairs.undecided(), pairs.dead()), (None, Some(0)));
}
