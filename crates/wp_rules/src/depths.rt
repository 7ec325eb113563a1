//! Depths: places of an aisle counted from home, the depot's end of each aisle.
ghost use Rattle.std.specs.Prelude.{◌≡◌, ◌≤◌};
ghost use Rattle.wp_model.specs.Warehouse.{IsLayout, IsUpTo, back_end};
ghost use Rattle.wp_rules.specs.Rules.{deepest, far, home, is_picked, stop};

use wp_graph::{Layout, Picks, Point};

/// The stop in an aisle at a depth.
pub(crate) fn stop(layout: &Layout, aisle: u32, depth: u32) -> Point
    requires { depth ≤ back_end layout.now }
    ensures { result ≡ stop layout.now aisle depth }
{
    let slot = if layout.depot_back() {
        layout.slots() + 1 - depth
    } else {
        depth
    };
    Point { aisle, slot }
}

/// The home end of an aisle.
pub(crate) fn home(layout: &Layout, aisle: u32) -> Point
    ensures { result ≡ home layout.now aisle }
{
    stop(layout, aisle, 0)
}

/// The far end of an aisle.
pub(crate) fn far(layout: &Layout, aisle: u32) -> Point
    ensures { result ≡ far layout.now aisle }
{
    stop(layout, aisle, layout.slots() + 1)
}

/// Whether the slot at a depth is picked.
pub(crate) fn is_picked(layout: &Layout, picks: &Picks, aisle: u32, depth: u32) -> bool
    requires picks { picks.now.layout ≡ layout.now }
    requires depth { depth ≤ back_end layout.now }
    ensures { result ≡ is_picked layout.now picks.now.points aisle depth }
{
    picks.has(stop(layout, aisle, depth))
}

/// The deepest pick of an aisle, 0 where there is none.
pub(crate) fn deepest(layout: &Layout, picks: &Picks, aisle: u32) -> u32
    requires { picks.now.layout ≡ layout.now }
    ensures value { result ≡ deepest layout.now picks.now.points aisle }
    ensures within { result ≤ layout.now.slots }
{
    for deeper in 0..layout.slots() {
        let depth = layout.slots() - deeper;
        if is_picked(layout, picks, aisle, depth) {
            return depth;
        }
    }
    0
}
