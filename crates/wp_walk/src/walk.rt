ghost use Rattle.std.specs.Prelude.{◌≡◌, ◌≤◌, ◌<◌, ℕ, IfOk, Some};
ghost use Rattle.wp_model.specs.Tours.{IsTour};
ghost use Rattle.wp_graph.specs.AisleLengths.{ways_of};
ghost use Rattle.wp_classes.specs.Choices.{IsChoiceOf, TakesWay};
ghost use Rattle.wp_classes.specs.declared.class.Class.{Class as ClassData};
ghost use Rattle.wp_classes.specs.declared.class.Class.TheVariants.{Z00};
ghost use Rattle.wp_classes.specs.Tables.{class_after_way, way_length};
ghost use Rattle.wp_walk.specs.WalkedParts.{IsStep, IsStepped, IsWalked, TakesAisle};

use crate::paths::Paths;
use crate::turns::turns_of;
use std::alloc::Global;
use wp_classes::{Choice, Class, Cross, Way, after_cross, after_way};
use wp_graph::{Layout, Picks, Point};
use wp_model::{MOST_AISLES, Memory};

/// The part of a tour left of and with an aisle, and its class.
#[derive(Drop)]
struct Walked {
    paths: Paths,
    class: Class,
}

// With a way through an aisle.
fn through(
    alloc: Global,
    layout: &Layout,
    picks: &Picks,
    aisle: u32,
    way: Way,
    before: Walked,
) -> Result<Walked, Memory>
    requires picks { picks.now.layout ≡ layout.now }
    requires applies { (length : ℕ) × (way_length (ways_of layout.now picks.now.points aisle) way
        ≡ Some length) }
    requires allowed { (next : ClassData) × (class_after_way before.class way ≡ Some next) }
    ensures { IfOk result (λ after. TakesAisle layout.now picks.now.points aisle way before after) }
{
    let Walked { paths, class } = before;
    let turns = turns_of(layout, picks, aisle, way);
    Ok(Walked {
        paths: paths.with_way(alloc, layout, aisle, turns, class, way)?,
        class: after_way(class, way).unwrap(),
    })
}

// The part after the first aisle.
fn begin(alloc: Global, layout: &Layout, picks: &Picks, way: Way) -> Result<Walked, Memory>
    requires picks { picks.now.layout ≡ layout.now }
    requires applies { (length : ℕ) × (way_length (ways_of layout.now picks.now.points 1) way
        ≡ Some length) }
    ensures { (class : ClassData) (total : ℕ)
        → TakesWay (ways_of layout.now picks.now.points 1) way Z00 class total
        → IfOk result (λ after. (after.class ≡ class) × IsWalked layout.now picks.now.points 1 after total) }
{
    let none = Walked {
        paths: Paths::none(alloc, layout),
        class: Class::Z00,
    };
    through(alloc, layout, picks, 1, way, none)
}

// The part after the next aisle.
fn go_on(
    alloc: Global,
    layout: &Layout,
    picks: &Picks,
    left: u32,
    cross: Cross,
    way: Way,
    before: Walked,
) -> Result<Walked, Memory>
    requires picks { picks.now.layout ≡ layout.now }
    requires left { (1 ≤ left) × (left < layout.now.aisles) }
    requires step { IsStep layout.now picks.now.points left cross way before.class }
    ensures { IfOk result (λ after. IsStepped layout.now picks.now.points left cross way before
        after) }
{
    let aisles = layout.aisles();
    let within = left < aisles && aisles <= MOST_AISLES;
    prove!(within);
    let Walked { paths, class } = before;
    let crossed = Walked {
        paths: paths.with_cross(alloc, layout, left, class, cross)?,
        class: after_cross(class, cross).unwrap(),
    };
    through(alloc, layout, picks, left + 1, way, crossed)
}

/// A closed walk for the picks, whose length is that of the choice: from the depot past every pick and back. The choice
/// has to be a whole tour for the picks, as `tour_choice` gives it.
pub fn walk_of(
    alloc: Global,
    layout: &Layout,
    picks: &Picks,
    choice: &Choice,
) -> Result<Vec<Point>, Memory>
    requires picks { picks.now.layout ≡ layout.now }
    requires choice { (total : ℕ) × IsChoiceOf layout.now picks.now.points choice.now total }
    ensures { (total : ℕ) → IsChoiceOf layout.now picks.now.points choice.now total → IfOk result
        (λ walk. IsTour layout.now picks.now.points walk.items total) }
{
    let mut walked = begin(alloc, layout, picks, choice.way(1))?;
    for left in 1..layout.aisles() {
        walked = go_on(
            alloc,
            layout,
            picks,
            left,
            choice.cross(left),
            choice.way(left + 1),
            walked,
        )?;
    }
    let Walked { paths, class } = walked;
    let round = paths.closed(layout, class)?;
    let depot = layout.depot_point();
    let moves = round.path.moves_to(round.start, depot);
    round.path.turned(depot, moves)
}
