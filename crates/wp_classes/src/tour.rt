ghost use Rattle.std.specs.Prelude.{◌≡◌, ◌+◌, ◌-◌, ◌<◌, ◌≤◌, ◌^◌, ℕ, length, slice_index_or};
ghost use Rattle.wp_model.specs.Limits.{most_aisles};
ghost use Rattle.wp_model.specs.Tours.{IsShortest};
ghost use Rattle.wp_model.specs.Warehouse.{IsLayout, IsUpTo};
ghost use Rattle.wp_classes.specs.Choices.{IsChoiceOf, IsLeastRoute, block_of};
ghost use Rattle.wp_classes.specs.Onward.{AreOnward, Onward};
ghost use Rattle.wp_classes.specs.Steps.{IsBestStep};
ghost use Rattle.wp_classes.specs.declared.lengths.OnwardLengths.{OnwardLengths as LengthsData};

use crate::choice::Choice;
use crate::class::{Class, Cross, Way, after_cross, after_way};
use crate::lengths::{
    OnwardLengths, all_at_the_end, before_cross, before_way, best_cross, best_way,
    least_length_by_way,
};
use wp_graph::{Layout, Picks, aisle_ways};
use wp_model::MOST_AISLES;

// The least lengths on from an aisle, from those on from the next.
fn onward_before(layout: &Layout, picks: &Picks, aisle: u32, after: &OnwardLengths) -> OnwardLengths
    requires picks { picks.now.layout ≡ layout.now }
    requires first { 2 ≤ aisle }
    requires last { aisle ≤ layout.now.aisles }
    requires after { AreOnward (block_of layout.now picks.now.points)
        (layout.now.aisles - aisle) aisle after.now }
    ensures { AreOnward (block_of layout.now picks.now.points) (layout.now.aisles - (aisle - 1))
        (aisle - 1) result }
{
    let spacing = u64::from(layout.spacing_after(aisle - 1));
    let through = before_way(&aisle_ways(layout, picks, aisle), after);
    before_cross(spacing, &through)
}

/// A crossing, the way through the aisle behind it, and the class after both.
#[derive(Clone, Copy)]
struct AisleStep {
    cross: Cross,
    way: Way,
    class: Class,
}

// The best step to an aisle, where some tour goes on from the class after the way through the aisle before it.
fn best_step(
    layout: &Layout,
    picks: &Picks,
    aisle: u32,
    after: &OnwardLengths,
    class: Class,
) -> AisleStep
    requires picks { picks.now.layout ≡ layout.now }
    requires first { 2 ≤ aisle }
    requires last { aisle ≤ layout.now.aisles }
    requires after { AreOnward (block_of layout.now picks.now.points)
        (layout.now.aisles - aisle) aisle after.now }
    requires goes_on { (rest : ℕ) × Onward (block_of layout.now picks.now.points)
        (layout.now.aisles - (aisle - 1)) (aisle - 1) class rest }
    ensures { IsBestStep (block_of layout.now picks.now.points)
        (layout.now.aisles - (aisle - 1)) aisle after.now class result }
{
    let spacing = u64::from(layout.spacing_after(aisle - 1));
    let ways = aisle_ways(layout, picks, aisle);
    let through = before_way(&ways, after);
    let cross = best_cross(spacing, &through, class);
    let between = after_cross(class, cross).unwrap();
    let way = best_way(&ways, after, between);
    AisleStep {
        cross,
        way,
        class: after_way(between, way).unwrap(),
    }
}

/// The length of the shortest tour of the picks: some closed walk from the depot past all picks has this length, and
/// none is shorter. It is the least sum over all ways and crossings that the tables allow, and below 2 ^ 28.
pub fn tour_length(layout: &Layout, picks: &Picks) -> u64
    requires { picks.now.layout ≡ layout.now }
    ensures least { IsLeastRoute layout.now picks.now.points result }
    ensures shortest { IsShortest layout.now picks.now.points result }
    ensures small { result < 2 ^ 28 }
{
    let mut onward = OnwardLengths::at_the_end();
    for done in 1..layout.aisles() {
        onward = onward_before(layout, picks, layout.aisles() + 1 - done, &onward);
    }
    least_length_by_way(&aisle_ways(layout, picks, 1), &onward, Class::Z00).unwrap()
}

// The least lengths on from each aisle, the first aisle's first.
fn onward_table(layout: &Layout, picks: &Picks) -> [OnwardLengths; MOST_AISLES as usize]
    requires { picks.now.layout ≡ layout.now }
    ensures valid { IsLayout layout.now }
    ensures whole { length result ≡ most_aisles }
    ensures each { (aisle : ℕ) (d : LengthsData) → IsUpTo layout.now.aisles aisle
        → AreOnward (block_of layout.now picks.now.points) (layout.now.aisles - aisle) aisle
        (slice_index_or result (aisle - 1) d) }
{
    let mut table = all_at_the_end();
    for done in 1..layout.aisles() {
        let aisle = layout.aisles() + 1 - done;
        let before = onward_before(layout, picks, aisle, &table[aisle as usize - 1]);
        table[aisle as usize - 2] = before;
    }
    table
}

// No way yet.
fn blank_ways() -> [Way; MOST_AISLES as usize]
    ensures { length result ≡ most_aisles }
{
    [Way::Skip; MOST_AISLES as usize]
}

// No crossing yet.
fn blank_crosses() -> [Cross; MOST_AISLES as usize]
    ensures { length result ≡ most_aisles }
{
    [Cross::C00; MOST_AISLES as usize]
}

/// Ways and crossings of a shortest tour of the picks: the tables allow them, and their sum is the length of a shortest
/// tour.
pub fn tour_choice(layout: &Layout, picks: &Picks) -> Choice
    requires { picks.now.layout ≡ layout.now }
    ensures { (total : ℕ) × IsChoiceOf layout.now picks.now.points result total
        × IsShortest layout.now picks.now.points total }
{
    let table = onward_table(layout, picks);
    let mut ways = blank_ways();
    let mut crosses = blank_crosses();
    let first = best_way(&aisle_ways(layout, picks, 1), &table[0], Class::Z00);
    ways[0] = first;
    let mut class = after_way(Class::Z00, first).unwrap();
    for left in 1..layout.aisles() {
        let step = best_step(layout, picks, left + 1, &table[left as usize], class);
        crosses[left as usize - 1] = step.cross;
        ways[left as usize] = step.way;
        class = step.class;
    }
    Choice::of(layout.aisles(), ways, crosses)
}
