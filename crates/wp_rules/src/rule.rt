//! The rules and their stops.
ghost use Rattle.std.specs.Prelude.{◌≡◌, ◌+◌, ◌-◌, ◌*◌, ◌<◌, ◌≤◌, ◌++◌, [], ◌∷◌, false, length, reverse};
ghost use Rattle.std.specs.List.{flat_map, range_with_len};
ghost use Rattle.wp_model.specs.Warehouse.{IsLayout, back_end};
ghost use Rattle.wp_graph.specs.PickSets.{AreSlots};
ghost use Rattle.wp_rules.specs.Rules.{AreAisles, around, around_gaps, far, far_part, from_far, from_home, home};
ghost use Rattle.wp_rules.specs.Rules.{home_part, in_turn, picked_aisles, stops_between, stops_of, through};

use crate::aisles::{last_of, picked_aisles};
use crate::depths::{deepest, far, home, stop};
use crate::gap::gap_of;
use crate::stops::Stops;
use wp_graph::{Layout, Picks};

/// A rule by which pickers walk.
#[derive(Clone, Copy, PartialEq, Eq)]
pub enum Rule {
    /// Through each aisle with picks from the end where one is; the last of an odd number as in `Return` (Hall, 1993).
    SShape,
    /// Into each aisle with picks from home to its deepest pick and back.
    Return,
    /// Into each aisle between the first and the last from both ends, leaving out the largest gap (Hall, 1993).
    LargestGap,
}

// Into an aisle from home to a depth and back, where that isn't home.
fn add_from_home(stops: &mut Stops, layout: &Layout, aisle: u32, depth: u32)
    requires room { length stops.old + 3 ≤ 400 }
    requires depth { depth ≤ back_end layout.now }
    ensures { stops.new ≡ stops.old ++ from_home layout.now aisle depth }
{
    if depth != 0 {
        stops.add(home(layout, aisle));
        stops.add(stop(layout, aisle, depth));
        stops.add(home(layout, aisle));
    }
}

// Into an aisle from far to a depth and back, where that isn't far.
fn add_from_far(stops: &mut Stops, layout: &Layout, aisle: u32, depth: u32)
    requires room { length stops.old + 3 ≤ 400 }
    requires depth { depth ≤ back_end layout.now }
    ensures { stops.new ≡ stops.old ++ from_far layout.now aisle depth }
{
    if depth != layout.slots() + 1 {
        stops.add(far(layout, aisle));
        stops.add(stop(layout, aisle, depth));
        stops.add(far(layout, aisle));
    }
}

// Each aisle in turn, to its deepest pick and back.
fn add_in_turn(stops: &mut Stops, layout: &Layout, picks: &Picks, aisles: &[u32])
    requires picks { picks.now.layout ≡ layout.now }
    requires room { length stops.old + 3 * length aisles.now ≤ 399 }
    ensures value { stops.new ≡ stops.old ++ in_turn layout.now picks.now.points aisles.now }
    ensures most { length stops.new ≤ 399 }
{
    for aisle in aisles {
        add_from_home(stops, layout, *aisle, deepest(layout, picks, *aisle));
    }
}

// Up an aisle from home to far.
fn add_up(stops: &mut Stops, layout: &Layout, aisle: u32)
    requires room { length stops.old + 2 ≤ 400 }
    ensures value { stops.new ≡ stops.old ++ home layout.now aisle ∷ far layout.now aisle ∷ [] }
    ensures longer { length stops.new ≡ length stops.old + 2 }
{
    stops.add(home(layout, aisle));
    stops.add(far(layout, aisle));
}

// Down an aisle from far to home.
fn add_down(stops: &mut Stops, layout: &Layout, aisle: u32)
    requires room { length stops.old + 2 ≤ 400 }
    ensures value { stops.new ≡ stops.old ++ far layout.now aisle ∷ home layout.now aisle ∷ [] }
    ensures longer { length stops.new ≡ length stops.old + 2 }
{
    stops.add(far(layout, aisle));
    stops.add(home(layout, aisle));
}

// Through each aisle, up one and down the next. The last of an odd number is served to its deepest pick.
fn add_through(stops: &mut Stops, layout: &Layout, picks: &Picks, aisles: &[u32])
    requires picks { picks.now.layout ≡ layout.now }
    requires room { length stops.old + 3 * length aisles.now ≤ 399 }
    ensures value { stops.new ≡ stops.old ++ through layout.now picks.now.points false aisles.now }
    ensures most { length stops.new ≤ 399 }
{
    match aisles {
        [] => {}
        [last] => add_from_home(stops, layout, *last, deepest(layout, picks, *last)),
        [aisle, next, aisles @ ..] => {
            add_up(stops, layout, *aisle);
            add_down(stops, layout, *next);
            add_through(stops, layout, picks, aisles);
        }
    }
}

// The far parts of the aisles between two, from left to right.
fn add_far_parts(stops: &mut Stops, layout: &Layout, picks: &Picks, first: u32, last: u32)
    requires picks { picks.now.layout ≡ layout.now }
    requires first { first ≤ 64 }
    requires room { length stops.old + 3 * (last - first - 1) ≤ 400 }
    ensures value { stops.new ≡ stops.old ++ flat_map (far_part layout.now picks.now.points)
        (range_with_len (first + 1) (last - first - 1)) }
    ensures most { length stops.new ≤ length stops.old + 3 * (last - first - 1) }
{
    for aisle in first + 1..last {
        add_from_far(stops, layout, aisle, gap_of(layout, picks, aisle).deep);
    }
}

// The home parts of the aisles between two, from right to left.
fn add_home_parts(stops: &mut Stops, layout: &Layout, picks: &Picks, first: u32, last: u32)
    requires picks { picks.now.layout ≡ layout.now }
    requires first { first ≤ 64 }
    requires last { last ≤ 64 }
    requires room { length stops.old + 3 * (last - first - 1) ≤ 400 }
    ensures value { stops.new ≡ stops.old ++ flat_map (home_part layout.now picks.now.points)
        (reverse (range_with_len (first + 1) (last - first - 1))) }
    ensures most { length stops.new ≤ length stops.old + 3 * (last - first - 1) }
{
    for back in first + 1..last {
        let aisle = first + last - back;
        add_from_home(stops, layout, aisle, gap_of(layout, picks, aisle).shallow);
    }
}

// Around the gaps of the aisles between the first and the last.
fn add_around(stops: &mut Stops, layout: &Layout, picks: &Picks, first: u32, last: u32)
    requires picks { picks.now.layout ≡ layout.now }
    requires first { first ≤ 64 }
    requires last { last ≤ 64 }
    requires room { length stops.old ≤ 10 }
    ensures value { stops.new ≡ stops.old ++ around layout.now picks.now.points first last }
    ensures most { length stops.new ≤ 399 }
{
    add_up(stops, layout, first);
    add_far_parts(stops, layout, picks, first, last);
    add_down(stops, layout, last);
    add_home_parts(stops, layout, picks, first, last);
}

// Around the gaps, where there is more than one aisle.
fn add_around_gaps(stops: &mut Stops, layout: &Layout, picks: &Picks, aisles: &[u32])
    requires picks { picks.now.layout ≡ layout.now }
    requires valid { IsLayout layout.now }
    requires aisles { AreAisles layout.now aisles.now }
    requires room { length stops.old ≤ 10 }
    ensures value { stops.new ≡ stops.old ++ around_gaps layout.now picks.now.points aisles.now }
    ensures most { length stops.new ≤ 399 }
{
    match aisles {
        [] => {}
        [only] => add_from_home(stops, layout, *only, deepest(layout, picks, *only)),
        [first, next, aisles @ ..] => {
            add_around(stops, layout, picks, *first, last_of(*next, aisles));
        }
    }
}

// The stops of a rule between the depot and the depot, past the aisles with picks.
fn add_between(stops: &mut Stops, layout: &Layout, picks: &Picks, aisles: &[u32], rule: Rule)
    requires picks { picks.now.layout ≡ layout.now }
    requires valid { IsLayout layout.now }
    requires aisles { aisles.now ≡ picked_aisles layout.now picks.now.points }
    requires few { length aisles.now ≤ 64 }
    requires none { stops.old ≡ [] }
    ensures value { stops.new ≡ stops_between layout.now picks.now.points rule }
    ensures most { length stops.new ≤ 399 }
{
    match rule {
        Rule::SShape => add_through(stops, layout, picks, aisles),
        Rule::Return => add_in_turn(stops, layout, picks, aisles),
        Rule::LargestGap => add_around_gaps(stops, layout, picks, aisles),
    }
}

/// The stops of a rule after the depot, the depot last.
pub(crate) fn stops_of(layout: &Layout, picks: &Picks, rule: Rule) -> Stops
    requires { picks.now.layout ≡ layout.now }
    ensures value { result ≡ stops_of layout.now picks.now.points rule }
    ensures few { length result ≤ 400 }
    ensures slots { AreSlots layout.now picks.now.points }
{
    let mut stops = Stops::none();
    let picked = picked_aisles(layout, picks);
    add_between(&mut stops, layout, picks, picked.all(), rule);
    stops.add(layout.depot_point());
    stops
}
