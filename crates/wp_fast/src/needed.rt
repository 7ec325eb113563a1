ghost use Rattle.std.specs.Prelude.{◌≡◌, ◌+◌, ◌-◌, ◌*◌, ◌<◌, ◌≤◌, ◌^◌, Some, None};
ghost use Rattle.std.specs.Option.{ForSome};
ghost use Rattle.wp_graph.specs.AisleLengths.{ways_of};
ghost use Rattle.wp_graph.specs.Offsets.{aisle_offset};
ghost use Rattle.wp_graph.specs.PickSets.{AreSlots};
ghost use Rattle.wp_model.specs.Tours.{IsShortest};
ghost use Rattle.wp_model.specs.Warehouse.{IsLayout, IsUpTo};
ghost use Rattle.wp_classes.specs.Choices.{block_of};
ghost use Rattle.wp_classes.specs.declared.class.Class.TheVariants.{Z00};
ghost use Rattle.wp_classes.specs.Onward.{IsLeastOf};
ghost use Rattle.wp_fast.specs.KeptWays.{AreKeptBut};
ghost use Rattle.wp_fast.specs.Lengths.{AreBehind, AreShort, PastTheRest, on_from};
ghost use Rattle.wp_fast.specs.SpareRuns.{AreNeighbours, NoneBetween};

use crate::lengths::{NeededLengths, before_last, before_way, first_length, only_length};
use wp_graph::{AisleWays, Layout, Picks, aisle_ways};

/// Ways through each aisle of a layout that are kept from before, when some picks weren't there yet. The aisles in
/// which those have a slot are marked.
#[derive(Clone, Copy)]
pub(crate) struct KeptBut<'a> {
    pub ways: &'a [AisleWays; 64],
    pub marks: &'a [bool; 64],
}

/// The aisles of a layout with picks. The ways through them may be kept but for those in which some picks have a slot.
#[derive(Clone, Copy)]
pub(crate) struct AislesWithPicks<'a, 'b> {
    pub layout: &'a Layout,
    pub picks: &'b Picks,
    pub kept: Option<KeptBut<'a>>,
    pub ghost of_layout: { picks.now.layout ≡ layout.now },
    pub ghost kept_for: { ForSome kept (AreKeptBut layout.now picks.now.points) },
}

// The lengths of the ways through an aisle: the kept ones, where it isn't marked.
fn ways_through(aisles: &AislesWithPicks<'_, '_>, aisle: u32) -> AisleWays
    requires { IsUpTo aisles.now.layout.now.aisles aisle }
    ensures value { result ≡ ways_of aisles.now.layout.now aisles.now.picks.now.points aisle }
    ensures valid { IsLayout aisles.now.layout.now }
{
    let within = aisle <= aisles.layout.aisles();
    prove!(within);
    match aisles.kept {
        Some(kept) if !kept.marks[aisle as usize - 1] => kept.ways[aisle as usize - 1],
        _ => aisle_ways(aisles.layout, aisles.picks, aisle),
    }
}

// How long the crossings from an aisle to a later one are together.
fn span_between(layout: &Layout, aisle: u32, later: u32) -> u64
    requires first { 1 ≤ aisle }
    requires order { aisle < later }
    requires last { later ≤ layout.now.aisles }
    ensures value { result ≡ aisle_offset layout.now later - aisle_offset layout.now aisle }
    ensures small { result ≤ 2 ^ 30 }
{
    u64::from(layout.length_between(aisle, later))
}

// The lengths on from behind a needed aisle, from those on from behind the next needed one.
fn after_next(
    aisles: &AislesWithPicks<'_, '_>,
    next: u32,
    aisle: u32,
    after: &NeededLengths,
) -> NeededLengths
    requires first { 1 ≤ next }
    requires last { aisle ≤ aisles.now.layout.now.aisles }
    requires neighbours { AreNeighbours (block_of aisles.now.layout.now aisles.now.picks.now.points)
        next aisle }
    requires short { AreShort after.now }
    requires after { AreBehind aisles.now.layout.now aisles.now.picks.now.points aisle
        (on_from after.now) }
    ensures short { AreShort result }
    ensures behind { AreBehind aisles.now.layout.now aisles.now.picks.now.points next
        (on_from result) }
{
    let carried = before_way(&ways_through(aisles, aisle), after);
    carried.along(span_between(aisles.layout, next, aisle))
}

// The lengths on from behind the needed aisle before the last one.
fn after_next_to_last(aisles: &AislesWithPicks<'_, '_>, next: u32, last: u32) -> NeededLengths
    requires first { 1 ≤ next }
    requires last { last ≤ aisles.now.layout.now.aisles }
    requires neighbours { AreNeighbours (block_of aisles.now.layout.now aisles.now.picks.now.points)
        next last }
    requires behind { NoneBetween (block_of aisles.now.layout.now aisles.now.picks.now.points) last
        (aisles.now.layout.now.aisles + 1) }
    ensures short { AreShort result }
    ensures behind { AreBehind aisles.now.layout.now aisles.now.picks.now.points next
        (on_from result) }
{
    let carried = before_last(&ways_through(aisles, last));
    carried.along(span_between(aisles.layout, next, last))
}

// The length of a shortest tour, from the lengths on from behind a needed aisle.
fn length_from(aisles: &AislesWithPicks<'_, '_>, aisle: u32, after: NeededLengths) -> u64
    requires aisle { IsUpTo aisles.now.layout.now.aisles aisle }
    requires needed { ((block_of aisles.now.layout.now aisles.now.picks.now.points).ways aisle).skip
        ≡ None }
    requires short { AreShort after }
    requires after { AreBehind aisles.now.layout.now aisles.now.picks.now.points aisle
        (on_from after) }
    ensures least { IsLeastOf (PastTheRest aisles.now.layout.now aisles.now.picks.now.points 1 Z00)
        (Some result) }
    ensures slots { AreSlots aisles.now.layout.now aisles.now.picks.now.points }
{
    let mut first = aisle;
    let mut onward = after;
    while let Some(next) = aisles.picks.needed_below(first) {
        onward = after_next(aisles, next, first, &onward);
        first = next;
    }
    first_length(&ways_through(aisles, first), &onward)
}

// The length of a shortest tour, of which this is the last needed aisle.
fn length_to(aisles: &AislesWithPicks<'_, '_>, last: u32) -> u64
    requires aisle { IsUpTo aisles.now.layout.now.aisles last }
    requires needed { ((block_of aisles.now.layout.now aisles.now.picks.now.points).ways last).skip
        ≡ None }
    requires behind { NoneBetween (block_of aisles.now.layout.now aisles.now.picks.now.points) last
        (aisles.now.layout.now.aisles + 1) }
    ensures least { IsLeastOf (PastTheRest aisles.now.layout.now aisles.now.picks.now.points 1 Z00)
        (Some result) }
    ensures slots { AreSlots aisles.now.layout.now aisles.now.picks.now.points }
{
    match aisles.picks.needed_below(last) {
        Some(next) => { length_from(aisles, next, after_next_to_last(aisles, next, last)) }
        None => only_length(&ways_through(aisles, last)),
    }
}

/// The length of the shortest tour of the picks in some aisles, below 2 ^ 28.
pub(crate) fn length_past(aisles: &AislesWithPicks<'_, '_>) -> u64
    ensures shortest { IsShortest aisles.now.layout.now aisles.now.picks.now.points result }
    ensures small { result < 2 ^ 28 }
{
    let last = aisles
        .picks
        .needed_below(aisles.layout.aisles() + 1)
        .unwrap();
    length_to(aisles, last)
}

/// The length of the shortest tour of the picks: some closed walk from the depot past all picks has this length, and
/// none is shorter. It is below 2 ^ 28. The aisles with picks and the depot's are visited, and no other.
pub fn tour_length(layout: &Layout, picks: &Picks) -> u64
    requires { picks.now.layout ≡ layout.now }
    ensures shortest { IsShortest layout.now picks.now.points result }
    ensures small { result < 2 ^ 28 }
{
    length_past(&AislesWithPicks {
        layout,
        picks,
        kept: None,
    })
}
