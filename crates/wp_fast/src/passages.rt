ghost use Rattle.std.specs.Prelude.{◌≡◌, ◌*◌};
ghost use Rattle.wp_classes.specs.Choices.{TakesCross, TakesWay};
ghost use Rattle.wp_classes.specs.Least.{lesser as lesser_of};
ghost use Rattle.wp_classes.specs.Onward.{IsLeastOf};
ghost use Rattle.wp_classes.specs.Tables.{copies as copies_of, way_length as length_of_way};
ghost use Rattle.wp_fast.specs.Passages.{ByCrossings, ByWays, Stays};

use wp_classes::{Class, Cross, Way, after_cross, after_way};
use wp_graph::AisleWays;

/// The lesser of two lengths, where there is one.
#[inline(always)]
pub(crate) fn lesser(left: Option<u64>, right: Option<u64>) -> Option<u64>
    ensures { result ≡ lesser_of left right }
{
    match (left, right) {
        (Some(left), Some(right)) => Some(left.min(right)),
        (Some(left), None) => Some(left),
        (None, right) => right,
    }
}

// The length of a way, None where it doesn't apply.
#[inline(always)]
fn way_length(ways: &AisleWays, way: Way) -> Option<u64>
    ensures { result ≡ length_of_way ways.now way }
{
    match way {
        Way::Pass => Some(ways.pass),
        Way::Back => ways.back,
        Way::Front => ways.front,
        Way::Gap => ways.gap,
        Way::Double => Some(ways.double),
        Way::Skip => ways.skip,
    }
}

// How many copies of a cross aisle a crossing has, at both ends together.
#[inline(always)]
fn copies(cross: Cross) -> u64
    ensures { result ≡ copies_of cross }
{
    match cross {
        Cross::C00 => 0,
        Cross::C11 | Cross::C20 | Cross::C02 => 2,
        Cross::C22 => 4,
    }
}

// The length of a way, where it leads from one class to the other.
#[inline(always)]
fn length_by_way(ways: &AisleWays, way: Way, before: Class, after: Class) -> Option<u64>
    ensures { IsLeastOf (TakesWay ways.now way before after) result }
{
    match after_way(before, way) {
        Some(class) if class == after => way_length(ways, way),
        _ => None,
    }
}

/// The length of the shortest way that leads from one class to the other, where there is one.
#[inline(always)]
pub(crate) fn least_by_way(ways: &AisleWays, before: Class, after: Class) -> Option<u64>
    ensures { IsLeastOf (ByWays ways.now before after) result }
{
    let pass = length_by_way(ways, Way::Pass, before, after);
    let back = length_by_way(ways, Way::Back, before, after);
    let front = length_by_way(ways, Way::Front, before, after);
    let gap = length_by_way(ways, Way::Gap, before, after);
    let double = length_by_way(ways, Way::Double, before, after);
    let skip = length_by_way(ways, Way::Skip, before, after);
    lesser(
        pass,
        lesser(back, lesser(front, lesser(gap, lesser(double, skip)))),
    )
}

// The length of a crossing, where it leads from one class to the other.
#[inline(always)]
fn length_by_cross(spacing: u32, cross: Cross, before: Class, after: Class) -> Option<u64>
    ensures { IsLeastOf (TakesCross spacing cross before after) result }
{
    match after_cross(before, cross) {
        Some(class) if class == after => Some(copies(cross) * u64::from(spacing)),
        _ => None,
    }
}

/// The length of the shortest crossing that leads from one class to the other, where there is one.
#[inline(always)]
pub(crate) fn least_by_cross(spacing: u32, before: Class, after: Class) -> Option<u64>
    ensures { IsLeastOf (ByCrossings spacing before after) result }
{
    let none = length_by_cross(spacing, Cross::C00, before, after);
    let both = length_by_cross(spacing, Cross::C11, before, after);
    let behind = length_by_cross(spacing, Cross::C20, before, after);
    let in_front = length_by_cross(spacing, Cross::C02, before, after);
    let twice = length_by_cross(spacing, Cross::C22, before, after);
    lesser(none, lesser(both, lesser(behind, lesser(in_front, twice))))
}

/// No length from a class to itself past no aisle, and none to another.
pub(crate) fn length_staying(before: Class, after: Class) -> Option<u64>
    ensures { IsLeastOf (Stays before after) result }
{
    (before == after).then_some(0)
}
