ghost use Rattle.std.specs.Prelude.{◌≡◌};

use crate::worked::{OTHERS, WORKED};
use wp_classes::{Class, Cross, Way, after_cross, after_way, tour_choice, tour_length};
use wp_graph::{AisleWays, Layout, Picks, aisle_ways};
use wp_samples::{At, Numbers, all_picked, layout_of, picked};

/// Whether the tour for these picks has the length, and so the sum over its choice.
fn is_as_long(layout: &Layout, picks: &Picks, length: u64) -> bool
    requires { picks.now.layout ≡ layout.now }
{
    tour_length(layout, picks) == length && sum_of_choice(layout, picks) == Some(length)
}

fn has_length(numbers: Numbers, slots: &[At], length: u64) -> bool {
    match layout_of(numbers) {
        Some(layout) => is_as_long(&layout, &picked(&layout, slots), length),
        None => false,
    }
}

/// The place of the first worked tour that has another length.
fn mismeasured_tour() -> Option<usize> {
    for (place, (depot, slots, length)) in WORKED.iter().enumerate() {
        if !has_length([3, 4, 2, 1, 5, *depot], slots, *length) {
            return Some(place);
        }
    }
    None
}

fn mismeasured_layout() -> Option<Numbers> {
    for (numbers, slots, length) in OTHERS {
        if !has_length(*numbers, slots, *length) {
            return Some(*numbers);
        }
    }
    None
}

#[test]
fn tours_have_their_lengths(rt: HostRuntime) {
    assert_eq!(rt; mismeasured_tour(), None);
    assert_eq!(rt; mismeasured_layout(), None);
}

/// Whether the tour to all slots of the greatest layout passes each aisle.
fn passes_all_aisles() -> bool {
    match layout_of([64, 200, 10000, 10000, 10000, 1]) {
        Some(great) => is_as_long(&great, &all_picked(&great), 64 * 2010000 + 2 * 63 * 10000),
        None => false,
    }
}

#[test]
fn the_greatest_tour_passes_each_aisle(rt: HostRuntime) {
    assert!(rt; passes_all_aisles());
}

fn length_of(ways: &AisleWays, way: Way) -> Option<u64> {
    match way {
        Way::Pass => Some(ways.pass),
        Way::Back => ways.back,
        Way::Front => ways.front,
        Way::Gap => ways.gap,
        Way::Double => Some(ways.double),
        Way::Skip => ways.skip,
    }
}

fn copies(cross: Cross) -> u64 {
    match cross {
        Cross::C00 => 0,
        Cross::C11 | Cross::C20 | Cross::C02 => 2,
        Cross::C22 => 4,
    }
}

/// The sum of the ways and crossings of the choice, if the tables allow them and the tour is whole.
fn sum_of_choice(layout: &Layout, picks: &Picks) -> Option<u64>
    requires { picks.now.layout ≡ layout.now }
{
    let choice = tour_choice(layout, picks);
    let mut class = Class::Z00;
    let mut sum: u64 = 0;
    for aisle in 1..layout.aisles() + 1 {
        if aisle > 1 {
            let cross = choice.cross(aisle - 1);
            class = after_cross(class, cross)?;
            let spacing = u64::from(layout.spacing_after(aisle - 1));
            sum = sum.checked_add(copies(cross).checked_mul(spacing)?)?;
        }
        let way = choice.way(aisle);
        class = after_way(class, way)?;
        sum = sum.checked_add(length_of(&aisle_ways(layout, picks, aisle), way)?)?;
    }
    matches!(class, Class::E01 | Class::ZE1 | Class::EE1 | Class::Z01).then_some(sum)
}
