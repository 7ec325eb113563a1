//! The straight way from a stop to the next.
ghost use Rattle.std.specs.Prelude.{◌≡◌, ◌-◌, ◌≤◌, ◌++◌, OnOk};
ghost use Rattle.wp_model.specs.Warehouse.{IsPoint, IsUpTo, back_end};
ghost use Rattle.wp_graph.specs.Offsets.{aisle_offset};
ghost use Rattle.wp_graph.specs.Required.{distance};
ghost use Rattle.wp_classes.specs.Paths.{ahead, behind};
ghost use Rattle.wp_rules.specs.Straight.{along_end, apart, in_aisle, leftward, rightward, straight, straight_length};

use wp_graph::{Layout, Point};
use wp_model::Memory;

/// How far a place of an aisle is from its front end.
pub(crate) fn distance(layout: &Layout, place: u32) -> u64
    requires { place ≤ back_end layout.now }
    ensures value { result ≡ distance layout.now place }
    ensures small { result ≤ 2010000 }
{
    let clearance = u64::from(layout.clearance());
    let pitch = u64::from(layout.pitch());
    if place == 0 {
        return 0;
    }
    if place <= layout.slots() {
        return clearance + u64::from(place - 1) * pitch;
    }
    2 * clearance + u64::from(layout.slots() - 1) * pitch
}

// How far two aisles lie apart.
fn between(layout: &Layout, one: u32, other: u32) -> u64
    requires one { IsUpTo layout.now.aisles one }
    requires other { IsUpTo layout.now.aisles other }
    ensures value { result ≡ apart (aisle_offset layout.now one) (aisle_offset layout.now other) }
    ensures small { result ≤ 630000 }
{
    if one <= other {
        u64::from(layout.length_between(one, other))
    } else {
        u64::from(layout.length_between(other, one))
    }
}

/// How long the straight way between two points is.
pub(crate) fn straight_length(layout: &Layout, from: Point, to: Point) -> u64
    requires from { IsPoint layout.now from }
    requires to { IsPoint layout.now to }
    ensures value { result ≡ straight_length layout.now from to }
    ensures small { result ≤ 2640000 }
{
    let one = distance(layout, from.slot);
    let other = distance(layout, to.slot);
    one.abs_diff(other) + between(layout, from.aisle, to.aisle)
}

// Adds the points of an aisle behind a place, up to another one.
fn add_ahead(points: &mut Vec<Point>, aisle: u32, from: u32, to: u32) -> Result<(), Memory>
    ensures { OnOk result (points.new.items ≡ points.old.items ++ ahead aisle from (to - from)) }
{
    for slot in from..to {
        points.push(Point {
            aisle,
            slot: slot + 1,
        })?;
    }
    Ok(())
}

// Adds the points of an aisle before a place, down to another one.
fn add_behind(points: &mut Vec<Point>, aisle: u32, from: u32, to: u32) -> Result<(), Memory>
    ensures { OnOk result (points.new.items ≡ points.old.items ++ behind aisle to (from - to)) }
{
    for back in to..from {
        points.push(Point {
            aisle,
            slot: to + (from - 1 - back),
        })?;
    }
    Ok(())
}

// Adds the points at a place of the aisles after one, up to another one.
fn add_right(points: &mut Vec<Point>, slot: u32, from: u32, to: u32) -> Result<(), Memory>
    ensures { OnOk result (points.new.items ≡ points.old.items ++ rightward from slot (to - from)) }
{
    for aisle in from..to {
        points.push(Point {
            aisle: aisle + 1,
            slot,
        })?;
    }
    Ok(())
}

// Adds the points at a place of the aisles before one, down to another one.
fn add_left(points: &mut Vec<Point>, slot: u32, from: u32, to: u32) -> Result<(), Memory>
    ensures { OnOk result (points.new.items ≡ points.old.items ++ leftward to slot (from - to)) }
{
    for back in to..from {
        points.push(Point {
            aisle: to + (from - 1 - back),
            slot,
        })?;
    }
    Ok(())
}

// Adds the points after one in an aisle, up to another one.
fn add_in_aisle(points: &mut Vec<Point>, from: Point, to: u32) -> Result<(), Memory>
    ensures { OnOk result (points.new.items ≡ points.old.items
        ++ in_aisle from.aisle from.slot to) }
{
    if from.slot <= to {
        add_ahead(points, from.aisle, from.slot, to)?;
        return Ok(());
    }
    add_behind(points, from.aisle, from.slot, to)?;
    Ok(())
}

// Adds the points after one along an end, up to that of an aisle.
fn add_along_end(points: &mut Vec<Point>, from: Point, to: u32) -> Result<(), Memory>
    ensures { OnOk result (points.new.items ≡ points.old.items
        ++ along_end from.slot from.aisle to) }
{
    if from.aisle <= to {
        add_right(points, from.slot, from.aisle, to)?;
        return Ok(());
    }
    add_left(points, from.slot, from.aisle, to)?;
    Ok(())
}

/// Adds the points after one, straight to another one.
pub(crate) fn add_straight(points: &mut Vec<Point>, from: Point, to: Point) -> Result<(), Memory>
    ensures { OnOk result (points.new.items ≡ points.old.items ++ straight from to) }
{
    if from.aisle == to.aisle {
        add_in_aisle(points, from, to.slot)?;
        return Ok(());
    }
    add_along_end(points, from, to.aisle)?;
    Ok(())
}
