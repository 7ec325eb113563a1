ghost use Rattle.std.specs.Prelude.{◌≡◌};

use std::alloc::AllocError;
use std::test::Fail;
use wp_graph::{Layout, Picks, Point, aisle_ways, is_move, walk_length};
use wp_samples::{At, Numbers, layout_of, picked};

/// The small layout, with its depot at the first of its three aisles.
const SMALL: Numbers = [3, 4, 2, 1, 5, 1];

/// The small layout with its depot at its middle aisle.
const MIDDLE: Numbers = [3, 4, 2, 1, 5, 2];

fn small() -> Layout {
    Layout::new(3, 4, 2, 1, 5, 1).unwrap()
}

fn middle() -> Layout {
    Layout::new(3, 4, 2, 1, 5, 2).unwrap()
}

fn great() -> Option<Layout> {
    Layout::new(64, 200, 1, 1, 1, 1)
}

/// The great layout with its depot at an aisle between others.
fn wide() -> Option<Layout> {
    Layout::new(64, 200, 1, 1, 1, 30)
}

const LAYOUTS: &[Numbers] = &[
    SMALL,
    [1, 1, 1, 1, 1, 1],
    [64, 200, 10000, 10000, 10000, 64],
];

/// The most that each number of the small layout may be.
const MOST: &[u32] = &[64, 200, 10000, 10000, 10000, 3];

fn refused_layout() -> Option<Numbers> {
    for numbers in LAYOUTS {
        if layout_of(*numbers).is_none() {
            return Some(*numbers);
        }
    }
    None
}

/// The place of the first number that may be outside its range.
fn accepted_place() -> Option<usize> {
    for (at, most) in MOST.iter().enumerate() {
        if layout_of(with(SMALL, at, 0)).is_some()
            || layout_of(with(SMALL, at, most.saturating_add(1))).is_some()
        {
            return Some(at);
        }
    }
    None
}

/// A layout, and what each of its six numbers may not be.
#[test]
fn layouts_have_their_ranges(rt: HostRuntime) {
    assert_eq!(rt; refused_layout(), None);
    assert_eq!(rt; accepted_place(), None);
}

/// Moves in an aisle, at its ends and along the cross aisles, and pairs of points that are none.
const MOVES: &[(At, At, Option<u64>)] = &[
    ((1, 0), (1, 1), Some(1)),
    ((1, 2), (1, 1), Some(2)),
    ((3, 4), (3, 5), Some(1)),
    ((1, 0), (2, 0), Some(5)),
    ((3, 5), (2, 5), Some(5)),
    ((1, 1), (2, 1), None),
    ((1, 0), (3, 0), None),
    ((1, 1), (1, 1), None),
    ((1, 5), (1, 6), None),
    ((3, 0), (4, 0), None),
    ((0, 0), (1, 0), None),
];

/// The first move that has another length in the layout.
fn mismeasured_move(layout: &Layout) -> Option<(At, At)> {
    for (from, to, length) in MOVES {
        if is_move(layout, point(*from), point(*to)) != *length {
            return Some((*from, *to));
        }
    }
    None
}

#[test]
fn moves_have_their_lengths(rt: HostRuntime) {
    assert_eq!(rt; mismeasured_move(&small()), None);
}

/// Closed walks, and lists that are none.
const WALKS: &[(&[At], Option<u64>)] = &[
    (&[(1, 0), (1, 1), (1, 0)], Some(2)),
    (
        &[
            (1, 0),
            (1, 1),
            (1, 2),
            (1, 3),
            (1, 4),
            (1, 5),
            (2, 5),
            (2, 4),
            (2, 3),
            (2, 2),
            (2, 1),
            (2, 0),
            (1, 0),
        ],
        Some(26),
    ),
    (&[(1, 0)], Some(0)),
    (&[], None),
    (&[(1, 1), (1, 0)], None),
    (&[(1, 0), (1, 1)], None),
    (&[(1, 0), (1, 2), (1, 0)], None),
];

fn length_of(rt: &HostRuntime, layout: &Layout, points: &[At]) -> Result<Option<u64>, AllocError> {
    let mut walk = Vec::new(rt.alloc());
    for at in points {
        walk.push(point(*at))?;
    }
    if walk.len() < 1000 {
        Ok(walk_length(layout, &walk))
    } else {
        Ok(None)
    }
}

/// The place of the first list that has another length in the layout.
fn mismeasured_walk(rt: &HostRuntime, layout: &Layout) -> Result<Option<usize>, AllocError> {
    for (place, (points, length)) in WALKS.iter().enumerate() {
        if length_of(rt, layout, points)? != *length {
            return Ok(Some(place));
        }
    }
    Ok(None)
}

#[test]
fn walks_have_their_lengths(rt: HostRuntime) {
    assert_eq!(rt; mismeasured_walk(&rt, &small()), Ok(None));
}

/// Points, and whether the sets of slots have them.
const HAD: &[(At, bool)] = &[
    ((1, 1), true),
    ((1, 64), true),
    ((64, 200), true),
    ((1, 2), false),
    ((2, 0), false),
    ((65, 1), false),
    ((1, 257), false),
];

fn misfound_slot(layout: &Layout) -> Option<At> {
    let mut picks = picked(layout, &[(1, 1), (64, 200)]);
    picks.join(&picked(layout, &[(1, 64), (64, 200)]));
    for (at, had) in HAD {
        if picks.has(point(*at)) != *had {
            return Some(*at);
        }
    }
    None
}

/// Slots are added, joined and looked up.
#[test]
fn picks_are_sets(rt: HostRuntime) -> Result<(), Fail> {
    let layout = great().ok_or("no layout")?;
    assert_eq!(rt; misfound_slot(&layout), None);
    Ok(())
}

/// A set with the slots of two.
fn joined(layout: &Layout, left: &[At], right: &[At]) -> Picks
    ensures { result.layout ≡ layout.now }
{
    let mut picks = picked(layout, left);
    picks.join(&picked(layout, right));
    picks
}

/// Slots at the edges of words, in the first aisle, the depot's and the last one.
const LEFT: &[At] = &[(1, 63), (1, 128), (30, 64), (64, 128), (64, 200)];

const RIGHT: &[At] = &[(1, 64), (1, 127), (30, 1), (31, 200), (64, 200)];

/// Slots beside them.
const BESIDE: &[At] = &[
    (1, 62),
    (1, 65),
    (1, 126),
    (1, 129),
    (2, 63),
    (29, 200),
    (30, 2),
    (30, 63),
    (30, 65),
    (31, 1),
    (63, 200),
    (64, 64),
    (64, 127),
    (64, 199),
];

/// The first of the slots that a set has or hasn't.
fn first_slot(picks: &Picks, slots: &[At], had: bool) -> Option<At> {
    for at in slots {
        if picks.has(point(*at)) == had {
            return Some(*at);
        }
    }
    None
}

#[test]
fn joined_sets_have_the_slots_of_both(rt: HostRuntime) -> Result<(), Fail> {
    let picks = joined(&wide().ok_or("no layout")?, LEFT, RIGHT);
    assert_eq!(rt; first_slot(&picks, LEFT, false), None);
    assert_eq!(rt; first_slot(&picks, RIGHT, false), None);
    assert_eq!(rt; first_slot(&picks, BESIDE, true), None);
    Ok(())
}

/// Picks of two sets, an aisle, and the last aisle before it that is needed for both.
const NEEDED: &[(&[At], &[At], u32, Option<u32>)] = &[
    (&[], &[], 65, Some(30)),
    (&[], &[], 31, Some(30)),
    (&[], &[], 30, None),
    (&[], &[], 1, None),
    (&[(64, 1)], &[], 65, Some(64)),
    (&[(64, 1)], &[], 64, Some(30)),
    (&[], &[(1, 200)], 30, Some(1)),
    (&[], &[(1, 200)], 2, Some(1)),
    (&[], &[(1, 200)], 1, None),
    (&[(29, 7)], &[(31, 7)], 65, Some(31)),
    (&[(29, 7)], &[(31, 7)], 31, Some(30)),
    (&[(29, 7)], &[(31, 7)], 30, Some(29)),
    (&[(29, 7)], &[(31, 7)], 29, None),
];

fn needed_below(layout: &Layout, left: &[At], right: &[At], aisle: u32) -> Option<u32> {
    if aisle < 1 || layout.aisles() + 1 < aisle {
        return None;
    }
    joined(layout, left, right).needed_below(aisle)
}

/// The place of the first row with another needed aisle.
fn misfound_aisle(layout: &Layout) -> Option<usize> {
    for (place, (left, right, aisle, expected)) in NEEDED.iter().enumerate() {
        if needed_below(layout, left, right, *aisle) != *expected {
            return Some(place);
        }
    }
    None
}

#[test]
fn needed_aisles_are_found(rt: HostRuntime) -> Result<(), Fail> {
    let layout = wide().ok_or("no layout")?;
    assert_eq!(rt; misfound_aisle(&layout), None);
    Ok(())
}

/// The six ways of an aisle, in the order of their fields.
type Ways = (u64, Option<u64>, Option<u64>, Option<u64>, u64, Option<u64>);

/// Picks, an aisle and its ways: an aisle with one pick, the depot's, one with no pick, and the depot's with no pick.
const WAYS: &[(&[At], u32, Ways)] = &[
    (
        &[(1, 2), (2, 1), (2, 4)],
        1,
        (8, Some(10), Some(6), None, 16, None),
    ),
    (
        &[(1, 2), (2, 1), (2, 4)],
        2,
        (8, None, Some(14), Some(4), 16, None),
    ),
    (
        &[(1, 2), (2, 1), (2, 4)],
        3,
        (8, None, None, None, 16, Some(0)),
    ),
    (&[], 2, (8, None, Some(0), None, 16, None)),
];

fn ways(layout: &Layout, slots: &[At], aisle: u32) -> Option<Ways> {
    if aisle < 1 || layout.aisles() < aisle {
        return None;
    }
    let ways = aisle_ways(layout, &picked(layout, slots), aisle);
    Some((
        ways.pass,
        ways.back,
        ways.front,
        ways.gap,
        ways.double,
        ways.skip,
    ))
}

/// The place of the first row with other ways.
fn mismeasured_aisle(layout: &Layout) -> Option<usize> {
    for (place, (slots, aisle, expected)) in WAYS.iter().enumerate() {
        if ways(layout, slots, *aisle) != Some(*expected) {
            return Some(place);
        }
    }
    None
}

#[test]
fn aisles_have_their_ways(rt: HostRuntime) {
    assert_eq!(rt; mismeasured_aisle(&middle()), None);
}

fn point(at: At) -> Point {
    Point {
        aisle: at.0,
        slot: at.1,
    }
}

/// The numbers with one of them changed.
fn with(mut numbers: Numbers, at: usize, number: u32) -> Numbers {
    if at < 6 {
        numbers[at] = number;
    }
    numbers
}
