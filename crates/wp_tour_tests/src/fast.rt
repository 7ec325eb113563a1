ghost use Rattle.std.specs.Prelude.{◌≡◌};
ghost use Rattle.wp_model.specs.Warehouse.{IsLayout, IsUpTo};
ghost use Rattle.wp_fast.specs.Passages.{AreLeast};
ghost use Rattle.wp_fast.specs.Runs.{PastAisle};

use crate::worked::WORKED;
use wp_classes::tour_length;
use wp_draws::next_state;
use wp_fast::{Runs, Summary};
use wp_graph::{AisleWays, Layout, Picks, aisle_ways};
use wp_samples::{At, Numbers, add_slot, layout_of, picked, small_layout};

/// The length after the slots were joined one by one.
fn length_one_by_one(layout: &Layout, slots: &[At]) -> u64 {
    let mut runs = Runs::of(layout, &Picks::new(layout));
    for at in slots {
        runs.join(&picked(layout, &[*at]));
    }
    runs.length()
}

/// The length of a worked tour, with all slots at once and joined one by one.
fn worked_lengths(depot: u32, slots: &[At]) -> Option<(u64, u64)> {
    let layout = small_layout(depot)?;
    let at_once = Runs::of(&layout, &picked(&layout, slots)).length();
    Some((at_once, length_one_by_one(&layout, slots)))
}

/// The place of the first worked tour that has another length.
fn mismeasured_tour() -> Option<usize> {
    for (place, (depot, slots, length)) in WORKED.iter().enumerate() {
        if worked_lengths(*depot, slots) != Some((*length, *length)) {
            return Some(place);
        }
    }
    None
}

#[test]
fn worked_tours_have_their_lengths(rt: HostRuntime) {
    assert_eq!(rt; mismeasured_tour(), None);
}

/// Layouts in which tours are made: one aisle, two, few and many, the greatest one, and depots in and at the ends.
const LAYOUTS: &[Numbers] = &[
    [1, 1, 1, 1, 1, 1],
    [1, 9, 3, 2, 7, 1],
    [2, 4, 2, 1, 5, 2],
    [3, 4, 2, 1, 5, 1],
    [7, 30, 100, 150, 300, 4],
    [32, 12, 2, 1, 5, 32],
    [33, 12, 2, 1, 5, 1],
    [60, 40, 2, 1, 5, 30],
    [64, 200, 10000, 10000, 10000, 64],
];

/// A made point, which may be a slot.
fn made_point(layout: &Layout, state: u64) -> At {
    let aisle = (state >> 20) % u64::from(layout.aisles());
    let slot = (state >> 40) % u64::from(layout.slots());
    (aisle as u32 + 1, slot as u32 + 1)
}

/// The place of the first made tour whose length isn't that of the classes, while one made slot after another is
/// joined.
fn differing_step(layout: &Layout, seed: u64) -> Option<u64> {
    let mut picks = Picks::new(layout);
    let mut runs = Runs::of(layout, &picks);
    let mut state = seed;
    for step in 0..12 {
        state = next_state(state);
        let at = made_point(layout, state);
        add_slot(layout, &mut picks, at);
        runs.join(&picked(layout, &[at]));
        if runs.length() != tour_length(layout, &picks) {
            return Some(step);
        }
    }
    None
}

/// The first seed and step at which made tours of a layout differ.
fn differing_seed(layout: &Layout) -> Option<(u64, u64)> {
    for seed in 0..20 {
        if let Some(step) = differing_step(layout, seed) {
            return Some((seed, step));
        }
    }
    None
}

/// The first layout that is none, or in which made tours differ.
fn differing_layout() -> Option<Numbers> {
    for numbers in LAYOUTS {
        let alike = match layout_of(*numbers) {
            Some(layout) => differing_seed(&layout).is_none(),
            None => false,
        };
        if !alike {
            return Some(*numbers);
        }
    }
    None
}

#[test]
fn made_tours_are_as_long_as_by_the_classes(rt: HostRuntime) {
    assert_eq!(rt; differing_layout(), None);
}

/// The ways of an aisle with a pick, of one without, of one where each way is the greatest number, and the length of a
/// tour of this aisle alone.
const AISLES: &[(AisleWays, u64)] = &[
    (
        AisleWays {
            pass: 8,
            back: Some(10),
            front: Some(6),
            gap: None,
            double: 16,
            skip: None,
        },
        6,
    ),
    (
        AisleWays {
            pass: 8,
            back: None,
            front: None,
            gap: None,
            double: 16,
            skip: Some(0),
        },
        16,
    ),
    (
        AisleWays {
            pass: u64::MAX,
            back: None,
            front: None,
            gap: Some(3),
            double: u64::MAX,
            skip: None,
        },
        u64::MAX,
    ),
];

/// The place of the first aisle alone that has another length.
fn mismeasured_aisle() -> Option<usize> {
    for (place, (ways, length)) in AISLES.iter().enumerate() {
        if Summary::of_aisle(ways).length() != Some(*length) {
            return Some(place);
        }
    }
    None
}

#[test]
fn an_aisle_and_a_crossing_have_lengths_alone(rt: HostRuntime) {
    assert_eq!(rt; mismeasured_aisle(), None);
    assert_eq!(rt; Summary::of_crossing(5).length(), Some(10));
}

/// The least lengths past an aisle: through it, and to the next where it isn't the last.
fn past_aisle(layout: &Layout, picks: &Picks, aisle: u32) -> Summary
    requires picks { picks.now.layout ≡ layout.now }
    requires aisle { IsUpTo layout.now.aisles aisle }
    ensures least { AreLeast (PastAisle layout.now picks.now.points aisle) result }
    ensures valid { IsLayout layout.now }
{
    let through = Summary::of_aisle(&aisle_ways(layout, picks, aisle));
    if aisle < layout.aisles() {
        through.compose(&Summary::of_crossing(layout.spacing_after(aisle)))
    } else {
        through
    }
}

/// The lengths past three aisles, the first two composed first and the last two composed first.
fn lengths_both_ways(layout: &Layout, picks: &Picks) -> (Option<u64>, Option<u64>)
    requires { picks.now.layout ≡ layout.now }
{
    if layout.aisles() != 3 {
        return (None, None);
    }
    let one = past_aisle(layout, picks, 1);
    let two = past_aisle(layout, picks, 2);
    let three = past_aisle(layout, picks, 3);
    let front = one.compose(&two);
    let rest = two.compose(&three);
    (front.compose(&three).length(), one.compose(&rest).length())
}

/// The place of the first worked tour that has another length when it is composed in one of the two orders.
fn miscomposed_tour() -> Option<usize> {
    for (place, (depot, slots, length)) in WORKED.iter().enumerate() {
        let layout = small_layout(*depot)?;
        let lengths = lengths_both_ways(&layout, &picked(&layout, slots));
        if lengths != (Some(*length), Some(*length)) {
            return Some(place);
        }
    }
    None
}

#[test]
fn summaries_compose_in_both_orders(rt: HostRuntime) {
    assert_eq!(rt; miscomposed_tour(), None);
}
