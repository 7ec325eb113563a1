ghost use Rattle.std.specs.Prelude.{◌≡◌, ◌≢◌, ◌+◌, ◌-◌, ◌<◌, ◌≤◌, ◌^◌, ◌++◌, ◌↔◌, ◌⊎◌, ℕ, [], Contains, false};
ghost use Rattle.std.specs.Prelude.{slice_index_or};
ghost use Rattle.wp_model.specs.declared.point.Point.{Point as PointData};
ghost use Rattle.wp_model.specs.Tours.{IsShortest};
ghost use Rattle.wp_model.specs.Warehouse.{IsUpTo};
ghost use Rattle.wp_graph.specs.PickSets.{HaveSlotIn};
ghost use Rattle.wp_graph.specs.declared.ways.AisleWays.{AisleWays as WaysData};
ghost use Rattle.wp_fast.specs.KeptWays.{AreWaysAt, AreWaysElsewhere, AreWaysOfAll};

use crate::needed::{AislesWithPicks, KeptBut, length_past};
use std::marker::Model;
use wp_graph::{AisleWays, Layout, Picks, aisle_ways};

/// A set of picks, with the ways through each aisle of its layout. So of further picks only those of the aisles in
/// which they have a slot are counted anew.
#[derive(Drop)]
pub struct KeptWays {
    layout: Layout,
    picks: Picks,
    ways: [AisleWays; 64],
}

impl Model for KeptWays {
    ghost use Rattle.wp_graph.specs.PickSets.{PickSet};
    ghost use Rattle.wp_fast.specs.KeptWays.{AreKeptFor};

    ghost Value = { PickSet };

    ghost view = { λ k. k.picks };

    ghost invariant = { λ k. AreKeptFor k.layout k.picks k.ways };
}

// The slots of two sets of a layout.
fn joined(layout: &Layout, one: &Picks, other: &Picks) -> Picks
    requires one { one.now.layout ≡ layout.now }
    requires other { other.now.layout ≡ layout.now }
    ensures layout { result.layout ≡ layout.now }
    ensures points { (p : PointData) → Contains result.points p
        ↔ (Contains one.now.points p ⊎ Contains other.now.points p) }
{
    let mut both = Picks::new(layout);
    both.join(one);
    both.join(other);
    both
}

// Marks the aisles in which picks have a slot.
fn aisles_of(layout: &Layout, picks: &Picks) -> [bool; 64]
    requires { picks.now.layout ≡ layout.now }
    ensures { (aisle : ℕ) → IsUpTo layout.now.aisles aisle
        → slice_index_or result (aisle - 1) false ≡ false → HaveSlotIn picks.now.points aisle → ⊥ }
{
    let mut marks = [false; 64];
    let mut before = layout.aisles() + 1;
    while let Some(aisle) = picks.needed_below(before) {
        marks[aisle as usize - 1] = picks.has_in(aisle);
        before = aisle;
    }
    marks
}

// Puts the ways through an aisle where they are kept.
fn put_ways(ways: &mut [AisleWays; 64], layout: &Layout, picks: &Picks, aisle: u32)
    requires picks { picks.now.layout ≡ layout.now }
    requires aisle { IsUpTo layout.now.aisles aisle }
    ensures here { AreWaysAt layout.now picks.now.points ways.new aisle }
    ensures others { (other : ℕ) (d : WaysData) → 1 ≤ other → other ≢ aisle
        → slice_index_or ways.new (other - 1) d ≡ slice_index_or ways.old (other - 1) d }
{
    ways[aisle as usize - 1] = aisle_ways(layout, picks, aisle);
}

// The ways through each aisle.
fn all_ways(layout: &Layout, picks: &Picks) -> [AisleWays; 64]
    requires { picks.now.layout ≡ layout.now }
    ensures { AreWaysOfAll layout.now picks.now.points result }
{
    let last = layout.aisles();
    let mut ways = [aisle_ways(layout, picks, last); 64];
    for aisle in 1..last {
        put_ways(&mut ways, layout, picks, aisle);
    }
    ways
}

// Puts the ways through the aisles in which some picks have a slot.
fn renew_ways(ways: &mut [AisleWays; 64], layout: &Layout, picks: &Picks, more: &Picks)
    requires picks { picks.now.layout ≡ layout.now }
    requires more { more.now.layout ≡ layout.now }
    requires elsewhere { AreWaysElsewhere layout.now picks.now.points more.now.points ways.old }
    ensures { AreWaysOfAll layout.now picks.now.points ways.new }
{
    for aisle in 1..layout.aisles() + 1 {
        if more.has_in(aisle) {
            put_ways(ways, layout, picks, aisle);
        }
    }
}

impl KeptWays {
    /// A layout without picks.
    pub fn new(layout: &Layout) -> KeptWays
        ensures layout { result.layout ≡ layout.now }
        ensures empty { result.points ≡ [] }
    {
        let picks = Picks::new(layout);
        let ways = all_ways(layout, &picks);
        KeptWays {
            layout: *layout,
            picks,
            ways,
        }
    }

    /// With all slots of a set of the same layout besides.
    pub fn with(&self, more: &Picks) -> KeptWays
        requires { more.now.layout ≡ self.now.layout }
        ensures layout { result.layout ≡ self.now.layout }
        ensures points { (p : PointData) → Contains result.points p
            ↔ (Contains self.now.points p ⊎ Contains more.now.points p) }
    {
        let picks = joined(&self.layout, &self.picks, more);
        let mut ways = self.ways;
        renew_ways(&mut ways, &self.layout, &picks, more);
        KeptWays {
            layout: self.layout,
            picks,
            ways,
        }
    }

    /// The length of the shortest tour of the picks and of all slots of a set of the same layout besides: some closed
    /// walk from the depot past them has this length, and none is shorter. It is below 2 ^ 28.
    pub fn length_with(&self, more: &Picks) -> u64
        requires { more.now.layout ≡ self.now.layout }
        ensures shortest { IsShortest self.now.layout (self.now.points ++ more.now.points) result }
        ensures small { result < 2 ^ 28 }
    {
        let picks = joined(&self.layout, &self.picks, more);
        let marks = aisles_of(&self.layout, more);
        length_past(&AislesWithPicks {
            layout: &self.layout,
            picks: &picks,
            kept: Some(KeptBut {
                ways: &self.ways,
                marks: &marks,
            }),
        })
    }
}
