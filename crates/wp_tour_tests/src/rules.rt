ghost use Rattle.std.specs.Prelude.{◌≡◌};

use std::alloc::Global;
use wp_draws::Draws;
use wp_fast::tour_length;
use wp_graph::{Layout, Picks, Point, walk_length};
use wp_rules::{Rule, rule_length, rule_walk};
use wp_samples::{At, add_slot, all_picked, crossed_layout, layout_of, picked, small_layout};

/// The three rules, in the order of the rows.
const RULES: &[Rule] = &[Rule::SShape, Rule::Return, Rule::LargestGap];

/// The lengths of the three rules.
fn lengths_of(layout: &Layout, picks: &Picks) -> [u64; 3]
    requires { picks.now.layout ≡ layout.now }
{
    [
        rule_length(layout, picks, Rule::SShape),
        rule_length(layout, picks, Rule::Return),
        rule_length(layout, picks, Rule::LargestGap),
    ]
}

/// Picks of the small layout and the lengths of the three rules, worked by hand.
const WORKED: &[(&[At], [u64; 3])] = &[
    (
        &[
            (1, 1),
            (1, 2),
            (1, 3),
            (1, 4),
            (2, 1),
            (2, 2),
            (2, 3),
            (2, 4),
            (3, 1),
            (3, 2),
            (3, 3),
            (3, 4),
        ],
        [50, 62, 48],
    ),
    (&[(1, 4), (2, 1), (2, 4), (3, 1)], [38, 50, 40]),
    (&[(3, 4)], [34, 34, 34]),
    (&[], [0, 0, 0]),
];

fn worked_lengths(slots: &[At]) -> Option<[u64; 3]> {
    let layout = small_layout(1)?;
    Some(lengths_of(&layout, &picked(&layout, slots)))
}

/// The place of the first row with other lengths.
fn mismeasured() -> Option<usize> {
    for (place, (slots, lengths)) in WORKED.iter().enumerate() {
        if worked_lengths(slots) != Some(*lengths) {
            return Some(place);
        }
    }
    None
}

#[test]
fn worked_picks_have_the_lengths_of_the_rules(rt: HostRuntime) {
    assert_eq!(rt; mismeasured(), None);
}

/// A walk worked by hand: the lengths between the aisles of the small layout, the depot's aisle, the picks, the rule,
/// its length, and its points.
type Walked = ([u32; 2], u32, &'static [At], Rule, u64, &'static [At]);

/// Walks with the depot in front. Seen from the other side of the warehouse they are those with the depot at the back.
const WALKED: &[Walked] = &[
    // an odd number of aisles
    (
        [5, 5],
        1,
        &[(1, 4), (2, 1), (2, 4), (3, 1)],
        Rule::SShape,
        38,
        &[
            (1, 0),
            (1, 1),
            (1, 2),
            (1, 3),
            (1, 4),
            (1, 5),
            (2, 5),
            (2, 4),
            (2, 3),
            (2, 2),
            (2, 1),
            (2, 0),
            (3, 0),
            (3, 1),
            (3, 0),
            (2, 0),
            (1, 0),
        ],
    ),
    (
        [5, 5],
        1,
        &[(1, 4), (2, 1), (2, 4), (3, 1)],
        Rule::Return,
        50,
        &[
            (1, 0),
            (1, 1),
            (1, 2),
            (1, 3),
            (1, 4),
            (1, 3),
            (1, 2),
            (1, 1),
            (1, 0),
            (2, 0),
            (2, 1),
            (2, 2),
            (2, 3),
            (2, 4),
            (2, 3),
            (2, 2),
            (2, 1),
            (2, 0),
            (3, 0),
            (3, 1),
            (3, 0),
            (2, 0),
            (1, 0),
        ],
    ),
    (
        [5, 5],
        1,
        &[(1, 4), (2, 1), (2, 4), (3, 1)],
        Rule::LargestGap,
        40,
        &[
            (1, 0),
            (1, 1),
            (1, 2),
            (1, 3),
            (1, 4),
            (1, 5),
            (2, 5),
            (2, 4),
            (2, 5),
            (3, 5),
            (3, 4),
            (3, 3),
            (3, 2),
            (3, 1),
            (3, 0),
            (2, 0),
            (2, 1),
            (2, 0),
            (1, 0),
        ],
    ),
    // an even number of aisles, and the depot between the first and the last
    (
        [5, 5],
        2,
        &[(1, 2), (3, 3)],
        Rule::SShape,
        36,
        &[
            (2, 0),
            (1, 0),
            (1, 1),
            (1, 2),
            (1, 3),
            (1, 4),
            (1, 5),
            (2, 5),
            (3, 5),
            (3, 4),
            (3, 3),
            (3, 2),
            (3, 1),
            (3, 0),
            (2, 0),
        ],
    ),
    (
        [5, 5],
        2,
        &[(1, 2), (3, 3)],
        Rule::Return,
        36,
        &[
            (2, 0),
            (1, 0),
            (1, 1),
            (1, 2),
            (1, 1),
            (1, 0),
            (2, 0),
            (3, 0),
            (3, 1),
            (3, 2),
            (3, 3),
            (3, 2),
            (3, 1),
            (3, 0),
            (2, 0),
        ],
    ),
    // an aisle without a pick between the first and the last
    (
        [5, 5],
        2,
        &[(1, 2), (3, 3)],
        Rule::LargestGap,
        36,
        &[
            (2, 0),
            (1, 0),
            (1, 1),
            (1, 2),
            (1, 3),
            (1, 4),
            (1, 5),
            (2, 5),
            (3, 5),
            (3, 4),
            (3, 3),
            (3, 2),
            (3, 1),
            (3, 0),
            (2, 0),
        ],
    ),
    // the depot left of the first aisle, and lengths of their own between the aisles
    (
        [5, 20],
        1,
        &[(2, 2), (3, 1), (3, 4)],
        Rule::SShape,
        66,
        &[
            (1, 0),
            (2, 0),
            (2, 1),
            (2, 2),
            (2, 3),
            (2, 4),
            (2, 5),
            (3, 5),
            (3, 4),
            (3, 3),
            (3, 2),
            (3, 1),
            (3, 0),
            (2, 0),
            (1, 0),
        ],
    ),
    (
        [5, 20],
        1,
        &[(2, 2), (3, 1), (3, 4)],
        Rule::Return,
        70,
        &[
            (1, 0),
            (2, 0),
            (2, 1),
            (2, 2),
            (2, 1),
            (2, 0),
            (3, 0),
            (3, 1),
            (3, 2),
            (3, 3),
            (3, 4),
            (3, 3),
            (3, 2),
            (3, 1),
            (3, 0),
            (2, 0),
            (1, 0),
        ],
    ),
    // an aisle whose far part is empty
    (
        [5, 5],
        1,
        &[(1, 1), (2, 1), (3, 1)],
        Rule::LargestGap,
        38,
        &[
            (1, 0),
            (1, 1),
            (1, 2),
            (1, 3),
            (1, 4),
            (1, 5),
            (2, 5),
            (3, 5),
            (3, 4),
            (3, 3),
            (3, 2),
            (3, 1),
            (3, 0),
            (2, 0),
            (2, 1),
            (2, 0),
            (1, 0),
        ],
    ),
    // an aisle whose home part is empty
    (
        [5, 5],
        1,
        &[(1, 1), (2, 4), (3, 1)],
        Rule::LargestGap,
        38,
        &[
            (1, 0),
            (1, 1),
            (1, 2),
            (1, 3),
            (1, 4),
            (1, 5),
            (2, 5),
            (2, 4),
            (2, 5),
            (3, 5),
            (3, 4),
            (3, 3),
            (3, 2),
            (3, 1),
            (3, 0),
            (2, 0),
            (1, 0),
        ],
    ),
    // two equal gaps, of which the one at home is left out
    (
        [5, 5],
        1,
        &[(1, 1), (2, 2), (2, 3), (3, 1)],
        Rule::LargestGap,
        46,
        &[
            (1, 0),
            (1, 1),
            (1, 2),
            (1, 3),
            (1, 4),
            (1, 5),
            (2, 5),
            (2, 4),
            (2, 3),
            (2, 2),
            (2, 3),
            (2, 4),
            (2, 5),
            (3, 5),
            (3, 4),
            (3, 3),
            (3, 2),
            (3, 1),
            (3, 0),
            (2, 0),
            (1, 0),
        ],
    ),
    // a slot that is picked on both sides
    (
        [5, 5],
        1,
        &[(3, 2), (3, 2)],
        Rule::LargestGap,
        26,
        &[
            (1, 0),
            (2, 0),
            (3, 0),
            (3, 1),
            (3, 2),
            (3, 1),
            (3, 0),
            (2, 0),
            (1, 0),
        ],
    ),
    // no pick
    ([5, 5], 1, &[], Rule::SShape, 0, &[(1, 0)]),
    ([5, 5], 1, &[], Rule::Return, 0, &[(1, 0)]),
    ([5, 5], 1, &[], Rule::LargestGap, 0, &[(1, 0)]),
];

/// A place as it is, or as it is seen from the other side of the small layout, whose aisles end at the back at place 5.
fn seen(at: At, back: bool) -> At {
    if back {
        (at.0, 5_u32.saturating_sub(at.1))
    } else {
        at
    }
}

/// The picks as they are seen from one of the sides.
fn picks_seen(layout: &Layout, slots: &[At], back: bool) -> Picks
    ensures { result.layout ≡ layout.now }
{
    let mut picks = Picks::new(layout);
    for slot in slots {
        add_slot(layout, &mut picks, seen(*slot, back));
    }
    picks
}

/// Whether a walk has these points, as they are seen from one of the sides.
fn has_points(walk: &[Point], points: &[At], back: bool) -> bool {
    if walk.len() != points.len() {
        return false;
    }
    for (point, at) in walk.iter().zip(points) {
        if (point.aisle, point.slot) != seen(*at, back) {
            return false;
        }
    }
    true
}

/// Whether a rule walks as worked by hand, with the depot in front or at the back.
fn is_walked(alloc: Global, row: &Walked, back: bool) -> Option<bool> {
    let (spacings, depot, slots, rule, length, points) = *row;
    let layout = crossed_layout(spacings, depot, back)?;
    let picks = picks_seen(&layout, slots, back);
    let walk = rule_walk(alloc, &layout, &picks, rule).ok()?;
    Some(rule_length(&layout, &picks, rule) == length && has_points(&walk, points, back))
}

/// The place of the first row that is walked otherwise, and whether with the depot at the back.
fn mistaken(alloc: Global) -> Option<(usize, bool)> {
    for (place, row) in WALKED.iter().enumerate() {
        for back in [false, true] {
            if is_walked(alloc, row, back) != Some(true) {
                return Some((place, back));
            }
        }
    }
    None
}

#[test]
fn walks_go_by_the_stops_of_their_rules(rt: HostRuntime) {
    assert_eq!(rt; mistaken(rt.alloc()), None);
}

/// Whether a rule goes to the third slot and back in a layout of one aisle of four slots.
fn is_there_and_back(alloc: Global, rule: Rule) -> Option<bool> {
    let layout = layout_of([1, 4, 2, 1, 5, 1])?;
    let picks = picked(&layout, &[(1, 1), (1, 3)]);
    let walk = rule_walk(alloc, &layout, &picks, rule).ok()?;
    let there_and_back = has_points(
        &walk,
        &[(1, 0), (1, 1), (1, 2), (1, 3), (1, 2), (1, 1), (1, 0)],
        false,
    );
    Some(there_and_back && rule_length(&layout, &picks, rule) == 10)
}

fn goes_elsewhere(alloc: Global) -> bool {
    for rule in RULES {
        if is_there_and_back(alloc, *rule) != Some(true) {
            return true;
        }
    }
    false
}

#[test]
fn one_aisle_is_left_where_it_is_entered(rt: HostRuntime) {
    assert!(rt; !goes_elsewhere(rt.alloc()));
}

/// Whether the walk of a rule is a closed walk of the rule's length, no shorter than a shortest tour.
fn is_measured(alloc: Global, layout: &Layout, picks: &Picks, rule: Rule) -> Option<bool>
    requires { picks.now.layout ≡ layout.now }
{
    let length = rule_length(layout, picks, rule);
    let walk = rule_walk(alloc, layout, picks, rule).ok()?;
    if walk.len() > 100_000 {
        return None;
    }
    Some(walk_length(layout, &walk) == Some(length) && tour_length(layout, picks) <= length)
}

/// A drawn layout of up to five aisles and eight slots, with a depot at either end.
fn drawn_layout(draws: &mut Draws) -> Option<Layout> {
    let spacings = [1 + draws.below(9) as u32, 1 + draws.below(9) as u32];
    crossed_layout(spacings, 1 + draws.below(3) as u32, draws.below(2) == 1)
}

fn drawn_picks(layout: &Layout, draws: &mut Draws) -> Picks
    ensures { result.layout ≡ layout.now }
{
    let mut picks = Picks::new(layout);
    for _ in 0..draws.below(9) {
        add_slot(
            layout,
            &mut picks,
            (1 + draws.below(3) as u32, 1 + draws.below(4) as u32),
        );
    }
    picks
}

fn is_drawn_measured(alloc: Global, draws: &mut Draws) -> Option<bool> {
    let layout = drawn_layout(draws)?;
    let picks = drawn_picks(&layout, draws);
    for rule in RULES {
        if is_measured(alloc, &layout, &picks, *rule) != Some(true) {
            return Some(false);
        }
    }
    Some(true)
}

fn mismeasured_drawn(alloc: Global) -> Option<u32> {
    let mut draws = Draws::from_state(17);
    for number in 0..300 {
        if is_drawn_measured(alloc, &mut draws) != Some(true) {
            return Some(number);
        }
    }
    None
}

#[test]
fn drawn_walks_are_closed_and_never_shorter_than_a_tour(rt: HostRuntime) {
    assert_eq!(rt; mismeasured_drawn(rt.alloc()), None);
}

/// The lengths in the greatest layout with all slots picked: a pass of each aisle; to each last slot and back; and the
/// gaps.
fn greatest_lengths() -> Option<[u64; 3]> {
    let layout = layout_of([64, 200, 1, 1, 1, 1])?;
    Some(lengths_of(&layout, &all_picked(&layout)))
}

#[test]
fn all_slots_of_the_greatest_layout_have_their_lengths(rt: HostRuntime) {
    assert_eq!(rt;
        greatest_lengths(),
        Some([64 * 201 + 126, 64 * 400 + 126, 2 * 201 + 62 * 400 + 126])
    );
}
