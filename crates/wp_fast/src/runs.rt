ghost use Rattle.std.specs.Prelude.{◌≡◌, ◌<◌, ◌^◌, ◌↔◌, ◌⊎◌, [], Contains};
ghost use Rattle.wp_model.specs.declared.point.Point.{Point as PointData};
ghost use Rattle.wp_model.specs.Tours.{IsShortest};
ghost use Rattle.wp_classes.specs.Choices.{IsLeastRoute};

use crate::summary::Summary;
use crate::tree::{NODES, Tree, all_marks, marks_of, renew};
use std::marker::Model;
use wp_graph::{Layout, Picks};

/// A set of picks, with the summaries of runs of its layout's aisles: of each aisle, of each two neighbours, and so on
/// up to all aisles. So the length of a shortest tour is at hand, and further picks change few summaries.
#[derive(Drop)]
pub struct Runs {
    layout: Layout,
    picks: Picks,
    tree: Tree,
}

impl Model for Runs {
    ghost use Rattle.wp_graph.specs.PickSets.{PickSet};
    ghost use Rattle.wp_fast.specs.Trees.{IsTreeFor};

    ghost Value = { PickSet };

    ghost view = { λ r. r.picks };

    ghost invariant = { λ r. IsTreeFor r.layout r.picks r.tree };
}

impl Runs {
    // The runs of a layout without picks.
    #[inline(always)]
    fn new(layout: &Layout) -> Runs
        ensures layout { result.layout ≡ layout.now }
        ensures empty { result.points ≡ [] }
    {
        let picks = Picks::new(layout);
        let mut tree = [Summary::of_nothing(); NODES];
        renew(&mut tree, layout, &picks, all_marks(layout));
        Runs {
            layout: *layout,
            picks,
            tree,
        }
    }

    /// The runs with these picks.
    pub fn of(layout: &Layout, picks: &Picks) -> Runs
        requires { picks.now.layout ≡ layout.now }
        ensures layout { result.layout ≡ layout.now }
        ensures points { (p : PointData) → Contains result.points p ↔ Contains picks.now.points p }
    {
        let mut runs = Runs::new(layout);
        runs.join(picks);
        runs
    }

    /// Adds all slots of a set of the same layout. Only the aisles in which it has a slot, and the runs that they are
    /// in, are summed up anew.
    pub fn join(&mut self, more: &Picks)
        requires { more.now.layout ≡ self.old.layout }
        ensures layout { self.new.layout ≡ self.old.layout }
        ensures points { (p : PointData) → Contains self.new.points p
            ↔ (Contains self.old.points p ⊎ Contains more.now.points p) }
    {
        self.picks.join(more);
        let marks = marks_of(&self.layout, more);
        renew(&mut self.tree, &self.layout, &self.picks, marks);
    }

    /// The length of the shortest tour of the picks: some closed walk from the depot past all picks has this length,
    /// and none is shorter. It is the least sum over all ways and crossings that the tables allow, and below 2 ^ 28.
    pub fn length(&self) -> u64
        ensures least { IsLeastRoute self.now.layout self.now.points result }
        ensures shortest { IsShortest self.now.layout self.now.points result }
        ensures small { result < 2 ^ 28 }
    {
        self.tree[1].length().unwrap()
    }
}
