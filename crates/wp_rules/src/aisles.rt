//! Lists of aisles, which take no memory.
ghost use Rattle.std.specs.Prelude.{◌≡◌, ◌<◌, ◌≤◌, [], ◌∷◌, ◌++◌, filter, length};
ghost use Rattle.wp_model.specs.Warehouse.{IsUpTo};
ghost use Rattle.wp_graph.specs.PickSets.{AreSlots};
ghost use Rattle.wp_rules.specs.Rules.{has_pick, last_of, picked_aisles};

use std::marker::Model;
use wp_graph::{Layout, Picks};

/// Aisles in their order, up to 64 of them.
#[derive(Drop)]
pub(crate) struct Aisles {
    aisles: [u32; 64],
    count: usize,
    ghost within: { count ≤ 64 },
}

impl Model for Aisles {
    ghost use Rattle.std.specs.Prelude.{List, take, ℕ};

    ghost Value = { List ℕ };

    ghost view = { λ a. take a.count a.aisles };
}

// Room for aisles.
fn room() -> [u32; 64]
    ensures { length result ≡ 64 }
{
    [0; 64]
}

impl Aisles {
    /// No aisle.
    fn none() -> Aisles
        ensures { result ≡ [] }
    {
        Aisles {
            aisles: room(),
            count: 0,
        }
    }

    /// Adds an aisle behind the others.
    fn add(&mut self, aisle: u32)
        requires { length self.old < 64 }
        ensures { self.new ≡ self.old ++ aisle ∷ [] }
    {
        self.aisles[self.count] = aisle;
        self.count += 1;
    }

    /// The aisles.
    pub(crate) fn all(&self) -> &[u32]
        ensures { result.now ≡ self.now }
    {
        &self.aisles[..self.count]
    }
}

// Adds an aisle where it has a pick.
fn add_picked(picked: &mut Aisles, picks: &Picks, aisle: u32)
    requires aisle { IsUpTo picks.now.layout.aisles aisle }
    requires room { length picked.old < 64 }
    ensures value { picked.new ≡ picked.old ++ filter (has_pick picks.now.points) (aisle ∷ []) }
    ensures slots { AreSlots picks.now.layout picks.now.points }
{
    if picks.has_in(aisle) {
        picked.add(aisle);
    }
}

/// The aisles with picks, from left to right.
pub(crate) fn picked_aisles(layout: &Layout, picks: &Picks) -> Aisles
    requires { picks.now.layout ≡ layout.now }
    ensures value { result ≡ picked_aisles layout.now picks.now.points }
    ensures few { length result ≤ 64 }
    ensures slots { AreSlots layout.now picks.now.points }
{
    let mut picked = Aisles::none();
    for before in 0..layout.aisles() {
        add_picked(&mut picked, picks, before + 1);
    }
    picked
}

/// The last of some aisles that come after one, or that one.
pub(crate) fn last_of(aisle: u32, aisles: &[u32]) -> u32
    ensures { result ≡ last_of aisle aisles.now }
{
    let mut last = aisle;
    for next in aisles {
        last = *next;
    }
    last
}
