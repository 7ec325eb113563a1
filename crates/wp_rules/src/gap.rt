//! The largest gap of an aisle.
ghost use Rattle.std.specs.Prelude.{◌≡◌, ◌-◌, ◌≤◌};
ghost use Rattle.wp_model.specs.Warehouse.{back_end};
ghost use Rattle.wp_rules.specs.Rules.{gap_of, is_picked, wider, widest_where};

use crate::depths::is_picked;
use crate::straight::distance;
use wp_graph::{Layout, Picks};

/// What lies between two depths.
#[derive(Clone, Copy)]
pub(crate) struct Gap {
    pub shallow: u32,
    pub deep: u32,
}

// The wider of two gaps, of equal ones that nearer to home.
fn wider(layout: &Layout, gap: Gap, deeper: Gap) -> Gap
    requires gap { (gap.shallow ≤ gap.deep) × (gap.deep ≤ back_end layout.now) }
    requires deeper { (deeper.shallow ≤ deeper.deep) × (deeper.deep ≤ back_end layout.now) }
    ensures { result ≡ wider layout.now gap deeper }
{
    let width = distance(layout, gap.deep) - distance(layout, gap.shallow);
    if width < distance(layout, deeper.deep) - distance(layout, deeper.shallow) {
        deeper
    } else {
        gap
    }
}

// The widest gap between a last depth, the picks from a depth on, and far.
fn widest_from(layout: &Layout, picks: &Picks, aisle: u32, last: u32, depth: u32) -> Gap
    requires picks { picks.now.layout ≡ layout.now }
    requires some { 1 ≤ depth }
    requires order { last ≤ depth }
    requires depth { depth ≤ back_end layout.now }
    ensures value { result ≡ widest_where layout.now
        (is_picked layout.now picks.now.points aisle) last depth (back_end layout.now - depth) }
    ensures order { result.shallow ≤ result.deep }
    ensures within { result.deep ≤ back_end layout.now }
{
    let here = Gap {
        shallow: last,
        deep: depth,
    };
    if depth > layout.slots() {
        return here;
    }
    if is_picked(layout, picks, aisle, depth) {
        let rest = widest_from(layout, picks, aisle, depth, depth + 1);
        return wider(layout, here, rest);
    }
    widest_from(layout, picks, aisle, last, depth + 1)
}

/// The largest gap of an aisle between home, its picks and far, of equal ones the nearest to home.
pub(crate) fn gap_of(layout: &Layout, picks: &Picks, aisle: u32) -> Gap
    requires { picks.now.layout ≡ layout.now }
    ensures value { result ≡ gap_of layout.now picks.now.points aisle }
    ensures order { result.shallow ≤ result.deep }
    ensures within { result.deep ≤ back_end layout.now }
{
    widest_from(layout, picks, aisle, 0, 1)
}
