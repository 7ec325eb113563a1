ghost use Rattle.std.specs.Prelude.{◌≡◌, ◌+◌, ◌≤◌, ◌↔◌, ◌⊎◌, ℕ, IsTrue, IsSome, IfSome};
ghost use Rattle.wp_model.specs.Warehouse.{IsFurther, IsMove, IsPoint, back_end, spacing_after, step_length};
ghost use Rattle.wp_model.specs.Limits.{greatest_length};

use crate::layout::Layout;
use wp_model::Point;

// Whether a point lies in an aisle of the layout, at an end of it or between.
fn is_point(layout: &Layout, point: Point) -> bool
    ensures { IsTrue result ↔ IsPoint layout.now point }
{
    1 <= point.aisle && point.aisle <= layout.aisles() && point.slot <= layout.slots() + 1
}

// Whether one point is the next one behind another in its aisle.
fn is_deeper(from: Point, to: Point) -> bool
    ensures { IsTrue result ↔ ((to.aisle ≡ from.aisle) × (to.slot ≡ from.slot + 1)) }
{
    to.aisle == from.aisle && from.slot < to.slot && to.slot - from.slot == 1
}

// Whether one point is the same end of the next aisle.
fn is_further(layout: &Layout, from: Point, to: Point) -> bool
    ensures { IsTrue result ↔ (((from.slot ≡ 0) ⊎ (from.slot ≡ back_end layout.now))
        × (to.aisle ≡ from.aisle + 1) × (to.slot ≡ from.slot)) }
{
    let next = from.aisle < to.aisle && to.aisle - from.aisle == 1;
    let end = from.slot == 0 || from.slot == layout.slots() + 1;
    next && end && to.slot == from.slot
}

// The length from a place in an aisle to the next one behind it.
fn length_behind(layout: &Layout, slot: u32) -> u64
    ensures value { result ≡ step_length layout.now slot }
    ensures small { result ≤ greatest_length }
{
    if slot == 0 || slot == layout.slots() {
        u64::from(layout.clearance())
    } else {
        u64::from(layout.pitch())
    }
}

// The length of the move between the same ends of two neighbouring aisles, where the points are that.
fn length_across(layout: &Layout, from: Point, to: Point) -> Option<u64>
    requires from_point { IsPoint layout.now from }
    requires to_point { IsPoint layout.now to }
    ensures exact { IsSome result ↔ ((length : ℕ)
        × (IsFurther layout.now from to length ⊎ IsFurther layout.now to from length)) }
    ensures value { IfSome result (λ length. IsFurther layout.now from to length
        ⊎ IsFurther layout.now to from length) }
    ensures small { IfSome result (λ length. length ≤ greatest_length) }
{
    if is_further(layout, from, to) {
        return Some(u64::from(layout.spacing_after(from.aisle)));
    }
    if is_further(layout, to, from) {
        return Some(u64::from(layout.spacing_after(to.aisle)));
    }
    None
}

/// The length of the move between two points, either way: between neighbouring places of an aisle, or between the same
/// ends of neighbouring aisles. None comes exactly where the two points are no move.
pub fn is_move(layout: &Layout, from: Point, to: Point) -> Option<u64>
    ensures exact { IsSome result ↔ ((length : ℕ) × IsMove layout.now from to length) }
    ensures value { IfSome result (λ length. IsMove layout.now from to length) }
    ensures small { IfSome result (λ length. length ≤ greatest_length) }
{
    if !is_point(layout, from) || !is_point(layout, to) {
        return None;
    }
    if is_deeper(from, to) {
        return Some(length_behind(layout, from.slot));
    }
    if is_deeper(to, from) {
        return Some(length_behind(layout, to.slot));
    }
    length_across(layout, from, to)
}
