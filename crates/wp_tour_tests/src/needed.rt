ghost use Rattle.std.specs.Prelude.{◌≡◌};

use crate::worked::WORKED;
use wp_draws::next_state;
use wp_fast::tour_length;
use wp_graph::{Layout, Picks};
use wp_samples::{At, Numbers, add_slot, layout_of, picked, small_layout};

/// Layouts of which tours are made: few and many aisles, short and long ones, near to each other and far.
const LAYOUTS: &[Numbers] = &[
    [1, 4, 2, 1, 5, 1],
    [2, 4, 2, 1, 5, 2],
    [7, 40, 2, 1, 5, 4],
    [9, 3, 1, 1, 300, 9],
    [20, 45, 100, 150, 300, 10],
    [60, 40, 2, 1, 5, 30],
    [64, 200, 10000, 10000, 10000, 64],
];

/// The length of the tour of these picks in the small layout.
fn worked_length(depot: u32, slots: &[At]) -> Option<u64> {
    let layout = small_layout(depot)?;
    Some(tour_length(&layout, &picked(&layout, slots)))
}

/// The place of the first worked tour that has another length.
fn mismeasured_tour() -> Option<usize> {
    for (place, (depot, slots, length)) in WORKED.iter().enumerate() {
        if worked_length(*depot, slots) != Some(*length) {
            return Some(place);
        }
    }
    None
}

#[test]
fn tours_have_their_lengths(rt: HostRuntime) {
    assert_eq!(rt; mismeasured_tour(), None);
}

/// So many slots of the layout, made from a number.
fn made_picks(layout: &Layout, number: u64, count: u32) -> Picks
    ensures { result.layout ≡ layout.now }
{
    let mut picks = Picks::new(layout);
    let mut state = number;
    for _ in 0..count {
        state = next_state(state);
        let at = ((state >> 33) % 12800) as u32;
        let aisle = 1 + at % 64 % layout.aisles();
        let slot = 1 + at / 64 % layout.slots();
        add_slot(layout, &mut picks, (aisle, slot));
    }
    picks
}

/// The number of the first made tour that is longer or shorter than the tour over all aisles.
fn differing_tour(numbers: Numbers) -> Option<u64> {
    let layout = layout_of(numbers)?;
    for number in 0..24 {
        let picks = made_picks(&layout, number, (number % 12) as u32);
        if tour_length(&layout, &picks) != wp_classes::tour_length(&layout, &picks) {
            return Some(number);
        }
    }
    None
}

/// The first layout in which a made tour differs, and that tour.
fn differing_layout() -> Option<(Numbers, u64)> {
    for numbers in LAYOUTS {
        if let Some(number) = differing_tour(*numbers) {
            return Some((*numbers, number));
        }
    }
    None
}

#[test]
fn tours_are_as_long_as_over_all_aisles(rt: HostRuntime) {
    assert_eq!(rt; differing_layout(), None);
}
