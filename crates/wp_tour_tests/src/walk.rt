ghost use Rattle.std.specs.Prelude.{◌≡◌};

use crate::worked::{OTHERS, WORKED};
use std::alloc::Global;
use wp_classes::{tour_choice, tour_length};
use wp_graph::{Layout, Picks, Point, walk_length};
use wp_samples::{At, Numbers, all_picked, layout_of, picked};
use wp_walk::walk_of;

/// The walk for a shortest tour's choice.
fn walked(alloc: Global, layout: &Layout, picks: &Picks) -> Option<Vec<Point>>
    requires { picks.now.layout ≡ layout.now }
{
    walk_of(alloc, layout, picks, &tour_choice(layout, picks)).ok()
}

/// The length of a list of points, if it is a closed walk of the layout.
fn length_of(layout: &Layout, walk: &Vec<Point>) -> Option<u64> {
    if walk.len() > 100_000 {
        return None;
    }
    walk_length(layout, walk)
}

/// Whether a walk passes all of these points.
fn passes_all(walk: &[Point], slots: &[At]) -> bool {
    for (aisle, slot) in slots {
        let pick = Point {
            aisle: *aisle,
            slot: *slot,
        };
        if !walk.contains(&pick) {
            return false;
        }
    }
    true
}

/// Whether a walk goes by moves, has the length, begins and ends at the depot and passes every pick.
fn is_tour(layout: &Layout, walk: &Vec<Point>, slots: &[At], length: u64) -> bool {
    let home = layout.depot_point();
    length_of(layout, walk) == Some(length)
        && walk.first() == Some(&home)
        && walk.last() == Some(&home)
        && passes_all(walk, slots)
}

/// Whether the walk for the picks is a shortest tour.
fn walk_is_tour(alloc: Global, numbers: Numbers, slots: &[At], length: u64) -> Option<bool> {
    let layout = layout_of(numbers)?;
    let walk = walked(alloc, &layout, &picked(&layout, slots))?;
    Some(is_tour(&layout, &walk, slots, length))
}

/// The place of the first worked tour for which the walk is none.
fn misled_walk(alloc: Global) -> Option<usize> {
    for (place, (depot, slots, length)) in WORKED.iter().enumerate() {
        if walk_is_tour(alloc, [3, 4, 2, 1, 5, *depot], slots, *length) != Some(true) {
            return Some(place);
        }
    }
    None
}

#[test]
fn walks_are_tours(rt: HostRuntime) {
    assert_eq!(rt; misled_walk(rt.alloc()), None);
}

/// Layouts, picks, and the aisles and slots of the walk for them in order. With nothing to pick the walk is the depot
/// alone.
const WALKS: &[(Numbers, &[At], &[At])] = &[
    ([3, 4, 2, 1, 5, 2], &[], &[(2, 0)]),
    (
        [2, 2, 2, 1, 5, 1],
        &[(1, 2), (2, 2)],
        &[
            (1, 0),
            (2, 0),
            (2, 1),
            (2, 2),
            (2, 3),
            (1, 3),
            (1, 2),
            (1, 1),
            (1, 0),
        ],
    ),
];

/// Whether a walk has just these points.
fn goes_by(walk: &[Point], points: &[At]) -> bool {
    for (point, (aisle, slot)) in walk.iter().zip(points) {
        if point.aisle != *aisle || point.slot != *slot {
            return false;
        }
    }
    walk.len() == points.len()
}

fn walk_goes_by(alloc: Global, numbers: Numbers, slots: &[At], points: &[At]) -> Option<bool> {
    let layout = layout_of(numbers)?;
    let walk = walked(alloc, &layout, &picked(&layout, slots))?;
    Some(goes_by(&walk, points))
}

/// The layout of the first walk that has other points.
fn misplaced_walk(alloc: Global) -> Option<Numbers> {
    for (numbers, slots, points) in WALKS {
        if walk_goes_by(alloc, *numbers, slots, points) != Some(true) {
            return Some(*numbers);
        }
    }
    None
}

#[test]
fn small_walks_go_point_by_point(rt: HostRuntime) {
    assert_eq!(rt; misplaced_walk(rt.alloc()), None);
}

fn misled_layout(alloc: Global) -> Option<Numbers> {
    for (numbers, slots, length) in OTHERS {
        if walk_is_tour(alloc, *numbers, slots, *length) != Some(true) {
            return Some(*numbers);
        }
    }
    None
}

#[test]
fn walks_of_other_layouts_have_their_lengths(rt: HostRuntime) {
    assert_eq!(rt; misled_layout(rt.alloc()), None);
}

fn is_as_long_as_the_tour(alloc: Global, layout: &Layout, picks: &Picks) -> Option<bool>
    requires { picks.now.layout ≡ layout.now }
{
    let walk = walked(alloc, layout, picks)?;
    Some(length_of(layout, &walk) == Some(tour_length(layout, picks)))
}

fn greatest_walk_is_as_long(alloc: Global) -> Option<bool> {
    let great = layout_of([64, 200, 10000, 10000, 10000, 1])?;
    is_as_long_as_the_tour(alloc, &great, &all_picked(&great))
}

#[test]
fn the_greatest_walk_has_the_length_of_its_tour(rt: HostRuntime) {
    assert_eq!(rt; greatest_walk_is_as_long(rt.alloc()), Some(true));
}
