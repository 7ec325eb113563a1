ghost use Rattle.std.specs.Prelude.{◌≡◌, ◌+◌, ◌++◌, ◌<◌, ◌≤◌, ◌==◌, ℕ, List, [], ◌∷◌, ◌*◌, ◌-◌, Option, IfSome, Some};
ghost use Rattle.std.specs.Prelude.{None, nat_lt, fold, map, if◌then◌else◌};
ghost use Rattle.std.specs.Int.{bit_at};
ghost use Rattle.wp_model.specs.Warehouse.{IsLayout, IsUpTo};
ghost use Rattle.wp_graph.specs.AisleLengths.{ways_of};
ghost use Rattle.wp_graph.specs.Required.{aisle_length, distance, required_distances};
ghost use Rattle.wp_graph.specs.Sites.{has_depot, site_of};
ghost use Rattle.wp_model.specs.Warehouse.End.{at_front, at_back};
ghost use Rattle.wp_graph.specs.PickSets.{AreSlots};
ghost use Rattle.wp_graph.specs.Stretches.{back_distances, bit_places, front_distances, reach_to, slot_distances};
ghost use Rattle.wp_graph.specs.Stretches.{ways_by_stretch};

use crate::layout::Layout;
use crate::picks::{AISLE_WORDS, Picks};

/// The lengths of the six ways through an aisle (Ratliff and Rosenthal, 1983). None where a way doesn't apply.
#[derive(Clone, Copy, PartialEq, Eq)]
pub struct AisleWays {
    /// One pass.
    pub pass: u64,
    /// From the back end to the pick that is nearest to the front, and back.
    pub back: Option<u64>,
    /// From the front end to the pick that is nearest to the back, and back.
    pub front: Option<u64>,
    /// From both ends, leaving the largest gap between neighbouring picks.
    pub gap: Option<u64>,
    /// Two passes.
    pub double: u64,
    /// Not at all.
    pub skip: Option<u64>,
}

/// The first and the last of the required distances of an aisle, and the largest gap between neighbours.
#[derive(Clone, Copy)]
struct Stretch {
    first: u64,
    last: u64,
    gap: u64,
}

// One more distance, behind the others.
fn reach(stretch: Option<Stretch>, distance: u64) -> Option<Stretch>
    ensures value { result ≡ reach_to stretch distance }
    ensures last { IfSome result (λ s. s.last ≡ distance) }
{
    match stretch {
        None => Some(Stretch {
            first: distance,
            last: distance,
            gap: 0,
        }),
        Some(before) => Some(Stretch {
            first: before.first,
            last: distance,
            gap: before.gap.max(distance.saturating_sub(before.last)),
        }),
    }
}

// How far a slot is from the front.
fn slot_distance(layout: &Layout, slot: u32) -> u64
    requires { IsUpTo layout.now.slots slot }
    ensures value { result ≡ distance layout.now slot }
    ensures small { result ≤ 2000000 }
{
    u64::from(layout.clearance()) + u64::from(slot - 1) * u64::from(layout.pitch())
}

// The length of an aisle from end to end.
fn length_of_aisle(layout: &Layout) -> u64
    ensures value { result ≡ aisle_length layout.now }
    ensures small { result ≤ 2010000 }
{
    2 * u64::from(layout.clearance()) + u64::from(layout.slots() - 1) * u64::from(layout.pitch())
}

// The places of a word's bits, one after another.
fn reach_word(layout: &Layout, before: Option<Stretch>, first: u32, bits: u64) -> Option<Stretch>
    requires valid { IsLayout layout.now }
    requires slots { (k : ℕ) → k < 64 → bit_at bits k ≡ 1 → IsUpTo layout.now.slots (first + k) }
    requires last { IfSome before (λ s. s.last ≤ 2000000) }
    ensures value { result ≡ fold reach_to before
        (map (distance layout.now) (bit_places first bits)) }
    ensures last { IfSome result (λ s. s.last ≤ 2000000) }
{
    let mut stretch = before;
    let mut rest = bits;
    while rest != 0 {
        let low = rest.trailing_zeros();
        stretch = reach(stretch, slot_distance(layout, first + low));
        rest &= !(1 << low);
    }
    stretch
}

// Whether the depot lies at the front end of an aisle.
fn has_depot_in_front(layout: &Layout, aisle: u32) -> bool
    ensures value { result ≡ has_depot (site_of layout.now) aisle at_front }
    ensures valid { IsLayout layout.now }
{
    aisle == layout.depot() && !layout.depot_back()
}

// Whether the depot lies at the back end of an aisle.
fn has_depot_behind(layout: &Layout, aisle: u32) -> bool
    ensures value { result ≡ has_depot (site_of layout.now) aisle at_back }
    ensures valid { IsLayout layout.now }
{
    aisle == layout.depot() && layout.depot_back()
}

// The required distances before the slots: 0 where the depot lies in front.
fn reach_front(layout: &Layout, aisle: u32) -> Option<Stretch>
    ensures valid { IsLayout layout.now }
    ensures value { result ≡ fold reach_to None (front_distances layout.now aisle) }
    ensures last { IfSome result (λ s. s.last ≤ 2000000) }
{
    if has_depot_in_front(layout, aisle) {
        reach(None, 0)
    } else {
        None
    }
}

// The required distances behind the slots: the length of the aisle where the depot lies at the back.
fn reach_back(layout: &Layout, aisle: u32, before: Option<Stretch>) -> Option<Stretch>
    requires last { IfSome before (λ s. s.last ≤ 2000000) }
    ensures value { result ≡ fold reach_to before (back_distances layout.now aisle) }
    ensures last { IfSome result (λ s. s.last ≤ 2010000) }
{
    if has_depot_behind(layout, aisle) {
        reach(before, length_of_aisle(layout))
    } else {
        before
    }
}

// The required distances up to the last slot of an aisle.
fn reach_slots(layout: &Layout, picks: &Picks, aisle: u32) -> Option<Stretch>
    requires picks { picks.now.layout ≡ layout.now }
    requires aisle { IsUpTo layout.now.aisles aisle }
    ensures value { result ≡ fold reach_to None
        (front_distances layout.now aisle ++ slot_distances layout.now picks.now.points aisle) }
    ensures slots { AreSlots layout.now picks.now.points }
    ensures last { IfSome result (λ s. s.last ≤ 2000000) }
{
    let mut stretch = reach_front(layout, aisle);
    for index in 0..AISLE_WORDS {
        stretch = reach_word(layout, stretch, 64 * index as u32, picks.word(aisle, index));
    }
    stretch
}

// All required distances of an aisle.
fn reach_aisle(layout: &Layout, picks: &Picks, aisle: u32) -> Option<Stretch>
    requires picks { picks.now.layout ≡ layout.now }
    requires aisle { IsUpTo layout.now.aisles aisle }
    ensures value { result ≡ fold reach_to None
        (required_distances layout.now picks.now.points aisle) }
    ensures slots { AreSlots layout.now picks.now.points }
    ensures last { IfSome result (λ s. s.last ≤ 2010000) }
{
    reach_back(layout, aisle, reach_slots(layout, picks, aisle))
}

// The way from the back to the first required distance, which there isn't where the depot lies in front.
fn back_way(in_front: bool, whole: u64, first: u64) -> Option<u64>
    requires { whole ≤ 2010000 }
    ensures { result ≡ (if in_front then None else Some (2 * (whole - first))) }
{
    (!in_front).then_some(2 * whole.saturating_sub(first))
}

// The way from the front to the last required distance, which there isn't where the depot lies at the back.
fn front_way(behind: bool, last: u64) -> Option<u64>
    requires { last ≤ 2010000 }
    ensures { result ≡ (if behind then None else Some (2 * last)) }
{
    (!behind).then_some(2 * last)
}

// The way that leaves the largest gap, where there is one.
fn gap_way(whole: u64, reached: Stretch) -> Option<u64>
    requires { whole ≤ 2010000 }
    ensures { result ≡ (if nat_lt reached.first reached.last then Some (2 * (whole - reached.gap))
        else None) }
{
    (reached.first < reached.last).then_some(2 * whole.saturating_sub(reached.gap))
}

// The lengths of the ways through an aisle of a length with such required distances, given whether the depot lies at
// its front end and whether at its back end.
fn ways_by(in_front: bool, behind: bool, whole: u64, stretch: Option<Stretch>) -> AisleWays
    requires whole { whole ≤ 2010000 }
    requires last { IfSome stretch (λ s. s.last ≤ 2010000) }
    ensures { result ≡ ways_by_stretch in_front behind whole stretch }
{
    match stretch {
        None => AisleWays {
            pass: whole,
            back: None,
            front: None,
            gap: None,
            double: 2 * whole,
            skip: Some(0),
        },
        Some(reached) => AisleWays {
            pass: whole,
            back: back_way(in_front, whole, reached.first),
            front: front_way(behind, reached.last),
            gap: gap_way(whole, reached),
            double: 2 * whole,
            skip: None,
        },
    }
}

/// The lengths of the six ways through an aisle. In the depot's aisle the end at which it lies counts as a pick, and
/// there is no way from the other end alone.
pub fn aisle_ways(layout: &Layout, picks: &Picks, aisle: u32) -> AisleWays
    requires picks { picks.now.layout ≡ layout.now }
    requires aisle { IsUpTo layout.now.aisles aisle }
    ensures value { result ≡ ways_of layout.now picks.now.points aisle }
    ensures slots { AreSlots layout.now picks.now.points }
{
    ways_by(
        has_depot_in_front(layout, aisle),
        has_depot_behind(layout, aisle),
        length_of_aisle(layout),
        reach_aisle(layout, picks, aisle),
    )
}
