ghost use Rattle.std.specs.Prelude.{◌≡◌, ◌+◌, ◌*◌, ◌<◌, ◌≤◌, ◌^◌, ℕ, Some, None, IfSome, length, slice_index_or};
ghost use Rattle.std.specs.Prelude.{if◌then◌else◌};
ghost use Rattle.wp_model.specs.Limits.{most_aisles};
ghost use Rattle.wp_classes.specs.Least.{by_cross, by_way, least_by_cross, least_by_way, length_at};
ghost use Rattle.wp_classes.specs.Least.{lesser as lesser_of, sum_of};
ghost use Rattle.wp_classes.specs.Tables.{is_whole, way_length};
ghost use Rattle.wp_classes.specs.declared.class.Class.{Class as ClassData};
ghost use Rattle.wp_classes.specs.declared.class.Way.{Way as WayData};
ghost use Rattle.wp_classes.specs.declared.lengths.OnwardLengths.{OnwardLengths as LengthsData};

use crate::class::{Class, Cross, Way, after_cross, after_way, copies_of, length_of_way};
use wp_graph::AisleWays;
use wp_model::MOST_AISLES;

/// For each class the least length from it to the end of a whole tour. None where there is none.
#[derive(Clone, Copy)]
pub(crate) struct OnwardLengths {
    uu1: Option<u64>,
    e01: Option<u64>,
    ze1: Option<u64>,
    ee1: Option<u64>,
    ee2: Option<u64>,
    z00: Option<u64>,
    z01: Option<u64>,
}

// The sum of two lengths, where there are both.
#[inline(always)]
fn sum(left: Option<u64>, right: Option<u64>) -> Option<u64>
    requires left { IfSome left (λ t. t ≤ 2 ^ 40) }
    requires right { IfSome right (λ t. t ≤ 2 ^ 40) }
    ensures { result ≡ sum_of left right }
{
    match (left, right) {
        (Some(left), Some(right)) => Some(left + right),
        _ => None,
    }
}

// The lesser of two lengths, where there is one.
#[inline(always)]
fn lesser(left: Option<u64>, right: Option<u64>) -> Option<u64>
    ensures { result ≡ lesser_of left right }
{
    match (left, right) {
        (Some(left), Some(right)) => Some(left.min(right)),
        (Some(left), None) => Some(left),
        (None, right) => right,
    }
}

impl OnwardLengths {
    /// No length from any class but the whole ones.
    pub(crate) fn at_the_end() -> OnwardLengths
        ensures { (class : ClassData) → length_at result class
            ≡ (if is_whole class then Some 0 else None) }
    {
        OnwardLengths {
            uu1: None,
            e01: Some(0),
            ze1: Some(0),
            ee1: Some(0),
            ee2: None,
            z00: None,
            z01: Some(0),
        }
    }

    #[inline(always)]
    pub(crate) fn at(&self, class: Class) -> Option<u64>
        ensures { result ≡ length_at self.now class }
    {
        match class {
            Class::UU1 => self.uu1,
            Class::E01 => self.e01,
            Class::ZE1 => self.ze1,
            Class::EE1 => self.ee1,
            Class::EE2 => self.ee2,
            Class::Z00 => self.z00,
            Class::Z01 => self.z01,
        }
    }
}

// By a way, and on from the class to which it leads.
#[inline(always)]
pub(crate) fn length_by_way(
    ways: &AisleWays,
    after: &OnwardLengths,
    class: Class,
    way: Way,
) -> Option<u64>
    requires ways { (w : WayData) → IfSome (way_length ways.now w) (λ t. t ≤ 2 ^ 40) }
    requires after { (c : ClassData) → IfSome (length_at after.now c) (λ t. t ≤ 2 ^ 40) }
    ensures { result ≡ by_way ways.now after.now class way }
{
    match after_way(class, way) {
        Some(next) => sum(length_of_way(ways, way), after.at(next)),
        None => None,
    }
}

// The least length by some way.
#[inline(always)]
pub(crate) fn least_length_by_way(
    ways: &AisleWays,
    after: &OnwardLengths,
    class: Class,
) -> Option<u64>
    requires ways { (w : WayData) → IfSome (way_length ways.now w) (λ t. t ≤ 2 ^ 40) }
    requires after { (c : ClassData) → IfSome (length_at after.now c) (λ t. t ≤ 2 ^ 40) }
    ensures { result ≡ least_by_way ways.now after.now class }
{
    let pass = length_by_way(ways, after, class, Way::Pass);
    let back = length_by_way(ways, after, class, Way::Back);
    let front = length_by_way(ways, after, class, Way::Front);
    let gap = length_by_way(ways, after, class, Way::Gap);
    let double = length_by_way(ways, after, class, Way::Double);
    let skip = length_by_way(ways, after, class, Way::Skip);
    lesser(
        pass,
        lesser(back, lesser(front, lesser(gap, lesser(double, skip)))),
    )
}

/// The least lengths before the way through an aisle, from those after it.
pub(crate) fn before_way(ways: &AisleWays, after: &OnwardLengths) -> OnwardLengths
    requires ways { (w : WayData) → IfSome (way_length ways.now w) (λ t. t ≤ 2 ^ 40) }
    requires after { (c : ClassData) → IfSome (length_at after.now c) (λ t. t ≤ 2 ^ 40) }
    ensures { (class : ClassData) → length_at result class ≡ least_by_way ways.now after.now class }
{
    OnwardLengths {
        uu1: least_length_by_way(ways, after, Class::UU1),
        e01: least_length_by_way(ways, after, Class::E01),
        ze1: least_length_by_way(ways, after, Class::ZE1),
        ee1: least_length_by_way(ways, after, Class::EE1),
        ee2: least_length_by_way(ways, after, Class::EE2),
        z00: least_length_by_way(ways, after, Class::Z00),
        z01: least_length_by_way(ways, after, Class::Z01),
    }
}

// By a crossing, and on from the class to which it leads.
#[inline(always)]
pub(crate) fn length_by_cross(
    spacing: u64,
    after: &OnwardLengths,
    class: Class,
    cross: Cross,
) -> Option<u64>
    requires spacing { spacing ≤ 2 ^ 38 }
    requires after { (c : ClassData) → IfSome (length_at after.now c) (λ t. t ≤ 2 ^ 40) }
    ensures { result ≡ by_cross spacing after.now class cross }
{
    match after_cross(class, cross) {
        Some(next) => sum(Some(copies_of(cross) * spacing), after.at(next)),
        None => None,
    }
}

// The least length by some crossing.
#[inline(always)]
pub(crate) fn least_length_by_cross(
    spacing: u64,
    after: &OnwardLengths,
    class: Class,
) -> Option<u64>
    requires spacing { spacing ≤ 2 ^ 38 }
    requires after { (c : ClassData) → IfSome (length_at after.now c) (λ t. t ≤ 2 ^ 40) }
    ensures { result ≡ least_by_cross spacing after.now class }
{
    let none = length_by_cross(spacing, after, class, Cross::C00);
    let both = length_by_cross(spacing, after, class, Cross::C11);
    let behind = length_by_cross(spacing, after, class, Cross::C20);
    let in_front = length_by_cross(spacing, after, class, Cross::C02);
    let twice = length_by_cross(spacing, after, class, Cross::C22);
    lesser(none, lesser(both, lesser(behind, lesser(in_front, twice))))
}

/// The least lengths before the crossing to the next aisle, from those after it.
pub(crate) fn before_cross(spacing: u64, after: &OnwardLengths) -> OnwardLengths
    requires spacing { spacing ≤ 2 ^ 38 }
    requires after { (c : ClassData) → IfSome (length_at after.now c) (λ t. t ≤ 2 ^ 40) }
    ensures { (class : ClassData) → length_at result class
        ≡ least_by_cross spacing after.now class }
{
    OnwardLengths {
        uu1: least_length_by_cross(spacing, after, Class::UU1),
        e01: least_length_by_cross(spacing, after, Class::E01),
        ze1: least_length_by_cross(spacing, after, Class::ZE1),
        ee1: least_length_by_cross(spacing, after, Class::EE1),
        ee2: least_length_by_cross(spacing, after, Class::EE2),
        z00: least_length_by_cross(spacing, after, Class::Z00),
        z01: least_length_by_cross(spacing, after, Class::Z01),
    }
}

/// A way of the least length.
pub(crate) fn best_way(ways: &AisleWays, after: &OnwardLengths, class: Class) -> Way
    requires ways { (w : WayData) → IfSome (way_length ways.now w) (λ t. t ≤ 2 ^ 40) }
    requires after { (c : ClassData) → IfSome (length_at after.now c) (λ t. t ≤ 2 ^ 40) }
    ensures { by_way ways.now after.now class result ≡ least_by_way ways.now after.now class }
{
    let least = least_length_by_way(ways, after, class);
    if length_by_way(ways, after, class, Way::Pass) == least {
        return Way::Pass;
    }
    if length_by_way(ways, after, class, Way::Back) == least {
        return Way::Back;
    }
    if length_by_way(ways, after, class, Way::Front) == least {
        return Way::Front;
    }
    if length_by_way(ways, after, class, Way::Gap) == least {
        return Way::Gap;
    }
    if length_by_way(ways, after, class, Way::Double) == least {
        return Way::Double;
    }
    Way::Skip
}

/// A crossing of the least length.
pub(crate) fn best_cross(spacing: u64, after: &OnwardLengths, class: Class) -> Cross
    requires spacing { spacing ≤ 2 ^ 38 }
    requires after { (c : ClassData) → IfSome (length_at after.now c) (λ t. t ≤ 2 ^ 40) }
    ensures { by_cross spacing after.now class result ≡ least_by_cross spacing after.now class }
{
    let least = least_length_by_cross(spacing, after, class);
    if length_by_cross(spacing, after, class, Cross::C00) == least {
        return Cross::C00;
    }
    if length_by_cross(spacing, after, class, Cross::C11) == least {
        return Cross::C11;
    }
    if length_by_cross(spacing, after, class, Cross::C20) == least {
        return Cross::C20;
    }
    if length_by_cross(spacing, after, class, Cross::C02) == least {
        return Cross::C02;
    }
    Cross::C22
}

/// The lengths at the end, for each aisle.
pub(crate) fn all_at_the_end() -> [OnwardLengths; MOST_AISLES as usize]
    ensures whole { length result ≡ most_aisles }
    ensures each { (k : ℕ) (d : LengthsData) (class : ClassData) → k < most_aisles
        → length_at (slice_index_or result k d) class ≡
        (if is_whole class then Some 0 else None) }
{
    [OnwardLengths::at_the_end(); MOST_AISLES as usize]
}
