//! Trees of waves with carts: which are right, and how others are refused.

use crate::cert::{APART, ROOT, Row, SAME, Says, Shown, TOGETHER, Why, says_of};
use std::alloc::Global;
use wp_samples::{Slots, cart_wave_of};

/// Duals of the three orders at one slot, where no two of them fit the cart.
const SINGLE: Shown = (&[2040, 2040, 2040], b"1110", &[&[0], &[1], &[2]]);

/// Duals of theirs, where the first two fit it, and none of them with the last.
const FIRST_TWO: Shown = (&[1020, 1020, 2040], b"11010", &[&[0, 1], &[0, 1], &[2]]);

/// The same duals and tight batches, where the first two don't fit it either.
const TOO_HEAVY: Shown = (&[1020, 1020, 2040], b"1110", &[&[0, 1], &[0, 1], &[2]]);

/// The orders of a wave, what its cart holds, what each order loads, and a capacity.
type Given = (&'static [Slots], u32, &'static [u32], u32);

/// A wave with a cart, the nodes of a tree, and what its check says.
const TREES: &[(Given, &[Row], Says)] = &[
    (
        (SAME, 5, &[3, 3, 3], 2),
        &[Row::Leaf(SINGLE)],
        Says::Bound(102),
    ),
    (
        (SAME, 6, &[3, 3, 3], 2),
        &[Row::Leaf(SINGLE)],
        Says::Fault(0, Why::NotFeasible(&[0, 1])),
    ),
    (
        (SAME, 5, &[0, 3, 3], 2),
        &[Row::Leaf(SINGLE)],
        Says::Fault(0, Why::NotFeasible(&[0, 1])),
    ),
    (
        (SAME, 5, &[3, 3, 0], 2),
        &[Row::Leaf(SINGLE)],
        Says::Fault(0, Why::NotFeasible(&[0, 2])),
    ),
    (
        (SAME, 5, &[4, 3, 2], 2),
        &[Row::Leaf(SINGLE)],
        Says::Fault(0, Why::NotFeasible(&[1, 2])),
    ),
    ((SAME, 5, &[3, 3, 3], 2), &[Row::Kept], Says::Bound(51)),
    (
        (SAME, 6, &[3, 3, 3], 2),
        &[
            Row::Split(0, 1, ROOT),
            Row::Leaf(TOGETHER),
            Row::Leaf(APART),
        ],
        Says::Bound(68),
    ),
    (
        (SAME, 5, &[2, 3, 4], 2),
        &[Row::Leaf(FIRST_TWO)],
        Says::Bound(68),
    ),
    (
        (SAME, 5, &[3, 3, 4], 2),
        &[Row::Leaf(TOO_HEAVY)],
        Says::Fault(0, Why::NotTight(0)),
    ),
    (
        (SAME, 5, &[3, 3, 3], 2),
        &[Row::Leaf((&[2040, 1020, 1020], b"1100", &[&[0], &[1, 2], &[1, 2]]))],
        Says::Fault(0, Why::NotTight(1)),
    ),
    (
        (SAME, 5, &[3, 3, 3], 2),
        &[Row::Split(0, 1, SINGLE), Row::Dead(0), Row::Kept],
        Says::Bound(102),
    ),
    (
        (SAME, 5, &[3, 3, 3], 2),
        &[Row::Split(0, 1, SINGLE), Row::Dead(1), Row::Leaf(SINGLE)],
        Says::Bound(102),
    ),
    (
        (SAME, 5, &[3, 3, 3], 2),
        &[Row::Split(0, 1, SINGLE), Row::Dead(2), Row::Kept],
        Says::Fault(1, Why::NotDead(2)),
    ),
    (
        (SAME, 6, &[3, 3, 3], 2),
        &[Row::Split(0, 1, ROOT), Row::Dead(0), Row::Leaf(APART)],
        Says::Fault(1, Why::NotDead(0)),
    ),
    (
        (SAME, 5, &[3, 3, 3], 2),
        &[Row::Split(0, 1, SINGLE), Row::Kept, Row::Dead(0)],
        Says::Fault(2, Why::NotDead(0)),
    ),
    (
        (SAME, 5, &[3, 3, 3], 2),
        &[Row::Dead(0)],
        Says::Fault(0, Why::NotDead(0)),
    ),
];

fn says_so(alloc: Global, given: Given, rows: &[Row], says: &Says) -> Option<bool> {
    let (orders, units, loads, capacity) = given;
    let wave = cart_wave_of(alloc, orders, units, loads)?;
    says_of(alloc, &wave, capacity, rows, says)
}

fn wrong_check(alloc: Global) -> Option<usize> {
    for (place, (given, rows, says)) in TREES.iter().enumerate() {
        if says_so(alloc, *given, rows, says) != Some(true) {
            return Some(place);
        }
    }
    None
}

#[test]
fn trees_of_waves_with_carts_are_right_or_have_a_first_broken_rule(rt: HostRuntime) {
    assert_eq!(rt; wrong_check(rt.alloc()), None);
}
