//! The walks of rules.
ghost use Rattle.std.specs.Prelude.{◌≡◌, ◌≤◌, ◌++◌, All, IfOk, OnOk, length};
ghost use Rattle.wp_model.specs.Tours.{IsTour};
ghost use Rattle.wp_model.specs.Warehouse.{IsPoint};
ghost use Rattle.wp_rules.specs.Rules.{walk_of_rule};
ghost use Rattle.wp_rules.specs.Straight.{past, past_length};

use crate::rule::{Rule, stops_of};
use crate::straight::{add_straight, straight_length};
use std::alloc::Global;
use wp_graph::{Layout, Picks, Point};
use wp_outside::Memory;

// How long the way from a point straight to each of some stops is.
fn length_past(layout: &Layout, from: Point, stops: &[Point]) -> u64
    requires from { IsPoint layout.now from }
    requires points { All (IsPoint layout.now) stops.now }
    requires few { length stops.now ≤ 400 }
    ensures { result ≡ past_length layout.now from stops.now }
{
    let mut length = 0;
    let mut at = from;
    for stop in stops {
        length += straight_length(layout, at, *stop);
        at = *stop;
    }
    length
}

// Adds the points after one, straight to each of some stops.
fn add_past(points: &mut Vec<Point>, from: Point, stops: &[Point]) -> Result<(), Memory>
    ensures { OnOk result (points.new.items ≡ points.old.items ++ past from stops.now) }
{
    let mut at = from;
    for stop in stops {
        add_straight(points, at, *stop)?;
        at = *stop;
    }
    Ok(())
}

/// How long the walk of a rule past the picks is: from the depot past the rule's stops and back to the depot. The walk
/// is a tour, so this is no less than the length of a shortest one. It takes no memory.
pub fn rule_length(layout: &Layout, picks: &Picks, rule: Rule) -> u64
    requires { picks.now.layout ≡ layout.now }
    ensures { IsTour layout.now picks.now.points
        (walk_of_rule layout.now picks.now.points rule) result }
{
    let stops = stops_of(layout, picks, rule);
    length_past(layout, layout.depot_point(), stops.points())
}

/// The walk of a rule past the picks, point by point. `Memory` comes where memory runs out.
pub fn rule_walk(
    alloc: Global,
    layout: &Layout,
    picks: &Picks,
    rule: Rule,
) -> Result<Vec<Point>, Memory>
    requires { picks.now.layout ≡ layout.now }
    ensures { IfOk result (λ walk. walk.items ≡ walk_of_rule layout.now picks.now.points rule) }
{
    let mut walk = Vec::new(alloc);
    walk.push(layout.depot_point())?;
    let stops = stops_of(layout, picks, rule);
    add_past(&mut walk, layout.depot_point(), stops.points())?;
    Ok(walk)
}
