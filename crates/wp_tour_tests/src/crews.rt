ghost use Rattle.std.specs.Prelude.{◌≤◌, ◌^◌, ◌↔◌, IsTrue, length};
ghost use Rattle.std.specs.List.{All};

use std::alloc::Global;
use wp_crew::{Crew, assign};
use wp_draws::Draws;

/// The greatest length that may be dealt.
const GREATEST: u64 = 1 << 40;

/// Whether each length is one that may be dealt.
fn are_lengths(lengths: &[u64]) -> bool
    ensures { IsTrue result ↔ All (λ one. (1 ≤ one) × (one ≤ 2 ^ 40)) lengths.now }
{
    for length in lengths {
        if *length < 1 || GREATEST < *length {
            return false;
        }
    }
    true
}

/// A crew for lengths and pickers, where it may be made.
fn crew_of(alloc: Global, lengths: &[u64], pickers: u32) -> Option<Crew> {
    let few = lengths.len() <= 1_000_000 && 1 <= pickers && pickers <= 100;
    if !few || !are_lengths(lengths) {
        return None;
    }
    assign(alloc, lengths, pickers).ok()
}

/// Lengths and a number of pickers; the picker of each length and the loads; the longest load, and what it is at least.
type Worked = (
    &'static [u64],
    u32,
    &'static [u32],
    &'static [u64],
    u64,
    u64,
);

/// Crews that were worked out by hand, where no two lengths are the same: without lengths, with idle pickers and with
/// one; and pickers whose first lengths aren't their longest.
const WORKED: &[Worked] = &[
    (&[26, 22], 2, &[0, 1], &[26, 22], 26, 26),
    (&[], 2, &[], &[0, 0], 0, 0),
    (&[7], 3, &[0], &[7, 0, 0], 7, 7),
    (&[3, 5, 2], 1, &[0, 0, 0], &[10], 10, 10),
    (&[1, 5, 3], 2, &[0, 1, 0], &[4, 5], 5, 5),
    (&[2, 3, 4, 5, 6], 3, &[0, 1, 1, 0, 2], &[7, 7, 6], 7, 7),
    (&[9, 1], 4, &[0, 1], &[9, 1, 0, 0], 9, 9),
];

/// Whether a crew is just this one.
fn is_crew(crew: &Crew, worked: &Worked) -> bool {
    let (_, _, picker_of, loads, longest, least) = worked;
    let numbers = crew.longest == *longest && crew.least == *least;
    numbers && crew.picker_of.as_slice() == *picker_of && crew.loads.as_slice() == *loads
}

/// The place of the first worked crew that is another.
fn differing_crew(alloc: Global) -> Option<usize> {
    for (place, worked) in WORKED.iter().enumerate() {
        let crew = crew_of(alloc, worked.0, worked.1)?;
        if !is_crew(&crew, worked) {
            return Some(place);
        }
    }
    Some(WORKED.len())
}

#[test]
fn small_crews_are_those_worked_by_hand(rt: HostRuntime) {
    assert_eq!(rt; differing_crew(rt.alloc()), Some(WORKED.len()));
}

/// The longest load of a crew for so many equal lengths, and what it is at least.
fn longest_of_equal(alloc: Global, count: usize, one: u64, pickers: u32) -> Option<(u64, u64)> {
    let lengths = vec![in alloc; one; count].ok()?;
    let crew = crew_of(alloc, &lengths, pickers)?;
    Some((crew.longest, crew.least))
}

#[test]
fn three_equal_lengths_leave_two_to_one_of_two_pickers(rt: HostRuntime) {
    assert_eq!(rt; longest_of_equal(rt.alloc(), 3, 4, 2), Some((8, 6)));
}

#[test]
fn a_million_greatest_lengths_are_dealt_evenly(rt: HostRuntime) {
    let each = 10_000 * GREATEST;
    assert_eq!(rt;
        longest_of_equal(rt.alloc(), 1_000_000, GREATEST, 100),
        Some((each, each))
    );
}

/// The longest load of the assignment with this number: its digits in base of the number of pickers, at most four.
fn longest_in(lengths: &[u64], pickers: u64, number: u64) -> u64
    requires { 1 ≤ pickers }
{
    let mut loads = [0u64; 4];
    let mut rest = number;
    for length in lengths {
        if let Some(load) = loads.get_mut((rest % pickers) as usize) {
            *load = load.saturating_add(*length);
        }
        rest /= pickers;
    }
    loads[0].max(loads[1]).max(loads[2]).max(loads[3])
}

/// The least longest load of all assignments.
fn least_of_all(lengths: &[u64], pickers: u64) -> u64
    requires { 1 ≤ pickers }
{
    let mut assignments: u64 = 1;
    for _ in lengths {
        assignments = assignments.saturating_mul(pickers);
    }
    let mut least = u64::MAX;
    for number in 0..assignments {
        least = least.min(longest_in(lengths, pickers, number));
    }
    least
}

/// Up to eight drawn lengths.
fn drawn_lengths(alloc: Global, draws: &mut Draws) -> Option<Vec<u64>> {
    let mut lengths = Vec::new(alloc);
    for _ in 0..1 + draws.below(8) {
        lengths.push(1 + draws.below(40)).ok()?;
    }
    Some(lengths)
}

/// Whether a crew's longest load is between the best of all assignments and 4/3 of that less a third of a picker's part
/// of it (Graham, 1969), and the best is no less than what the crew tells.
fn is_near_the_best(crew: &Crew, pickers: u64, best: u64) -> bool {
    let most = pickers
        .saturating_mul(4)
        .saturating_sub(1)
        .saturating_mul(best);
    let near = crew.longest.saturating_mul(3).saturating_mul(pickers) <= most;
    crew.least <= best && best <= crew.longest && near
}

/// Whether drawn lengths have a crew that is near the best.
fn is_drawn_crew_near(alloc: Global, draws: &mut Draws) -> Option<bool> {
    let lengths = drawn_lengths(alloc, draws)?;
    let pickers = 1 + draws.below(4);
    let crew = crew_of(alloc, &lengths, pickers as u32)?;
    Some(is_near_the_best(&crew, pickers, least_of_all(&lengths, pickers)))
}

/// The number of the first drawn crew that isn't near the best.
fn far_crew(alloc: Global) -> Option<u32> {
    let mut draws = Draws::from_state(20);
    for number in 0..60 {
        if is_drawn_crew_near(alloc, &mut draws) != Some(true) {
            return Some(number);
        }
    }
    None
}

#[test]
fn drawn_crews_are_near_the_best_of_all(rt: HostRuntime) {
    assert_eq!(rt; far_crew(rt.alloc()), None);
}
