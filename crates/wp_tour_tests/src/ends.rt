//! Tours of layouts with a length of its own from each aisle to the next, and with the depot at either end.
ghost use Rattle.std.specs.Prelude.{◌≡◌};

use crate::worked::WORKED;
use std::alloc::Global;
use wp_classes::tour_choice;
use wp_fast::Runs;
use wp_graph::{Layout, Picks, walk_length};
use wp_samples::{At, add_slot, crossed_layout};
use wp_walk::walk_of;

/// The lengths from the first and from the second aisle of the small layout to the next one, the depot's aisle, whether
/// it lies at the back, the picks, and the length of the shortest tour.
type Row = ([u32; 2], u32, bool, &'static [At], u64);

const ROWS: &[Row] = &[
    ([5, 5], 1, true, &[(1, 1)], 14),
    ([5, 20], 1, false, &[(3, 1)], 52),
    ([5, 5], 1, true, &[(1, 1), (2, 1)], 26),
    ([5, 5], 1, true, &[], 0),
    ([5, 5], 2, true, &[(2, 4)], 2),
    ([5, 5], 2, true, &[(2, 1)], 14),
    ([5, 20], 2, true, &[(3, 4)], 42),
    ([5, 20], 2, true, &[(1, 4)], 12),
    ([20, 5], 3, true, &[(1, 4)], 52),
];

/// The slots, or the slots at the same distances from the other end.
fn picked(layout: &Layout, slots: &[At], mirrored: bool) -> Picks
    ensures { result.layout ≡ layout.now }
{
    let mut picks = Picks::new(layout);
    for (aisle, slot) in slots {
        let place = if mirrored {
            5u32.saturating_sub(*slot)
        } else {
            *slot
        };
        add_slot(layout, &mut picks, (*aisle, place));
    }
    picks
}

/// The length of the walk for the choice of a shortest tour, where it is a closed walk.
fn walked_length(alloc: Global, layout: &Layout, picks: &Picks) -> Option<u64>
    requires { picks.now.layout ≡ layout.now }
{
    let walk = walk_of(alloc, layout, picks, &tour_choice(layout, picks)).ok()?;
    if walk.len() > 1_000 {
        return None;
    }
    walk_length(layout, &walk)
}

/// The length after the slots were joined one by one.
fn joined_length(layout: &Layout, slots: &[At], mirrored: bool) -> u64 {
    let mut runs = Runs::of(layout, &Picks::new(layout));
    for at in slots {
        runs.join(&picked(layout, &[*at], mirrored));
    }
    runs.length()
}

/// Whether all ways to measure a tour give this length.
fn has_length(alloc: Global, layout: &Layout, slots: &[At], mirrored: bool, length: u64) -> bool {
    let picks = picked(layout, slots, mirrored);
    wp_classes::tour_length(layout, &picks) == length
        && wp_fast::tour_length(layout, &picks) == length
        && Runs::of(layout, &picks).length() == length
        && joined_length(layout, slots, mirrored) == length
        && walked_length(alloc, layout, &picks) == Some(length)
}

/// Whether a tour has its length, and as it is mirrored too, front and back exchanged.
fn is_right(alloc: Global, row: Row) -> Option<bool> {
    let (spacings, depot, back, slots, length) = row;
    let layout = crossed_layout(spacings, depot, back)?;
    let mirrored = crossed_layout(spacings, depot, !back)?;
    let here = has_length(alloc, &layout, slots, false, length);
    Some(here && has_length(alloc, &mirrored, slots, true, length))
}

/// The place of the first row that has another length.
fn mismeasured_row(alloc: Global) -> Option<usize> {
    for (place, row) in ROWS.iter().enumerate() {
        if is_right(alloc, *row) != Some(true) {
            return Some(place);
        }
    }
    None
}

#[test]
fn tours_from_either_end_have_their_lengths(rt: HostRuntime) {
    assert_eq!(rt; mismeasured_row(rt.alloc()), None);
}

/// The place of the first worked tour that has another length when it is mirrored.
fn mismeasured_tour(alloc: Global) -> Option<usize> {
    for (place, (depot, slots, length)) in WORKED.iter().enumerate() {
        if is_right(alloc, ([5, 5], *depot, false, *slots, *length)) != Some(true) {
            return Some(place);
        }
    }
    None
}

#[test]
fn worked_tours_have_their_lengths_mirrored(rt: HostRuntime) {
    assert_eq!(rt; mismeasured_tour(rt.alloc()), None);
}
