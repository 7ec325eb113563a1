ghost use Rattle.std.specs.Prelude.{◌≡◌, ◌<◌, ◌^◌, IfSome, unwrap_or};
ghost use Rattle.wp_classes.specs.declared.class.Class.{Class as ClassData};
ghost use Rattle.wp_classes.specs.Onward.{IsLeastOf};
ghost use Rattle.wp_fast.specs.Rows.{length_to};
ghost use Rattle.wp_fast.specs.Summaries.{AreBelow, least_by, length_between, length_by, row_from};
ghost use Rattle.wp_fast.specs.Passages.{AreLeast, ByCrossings, ByWays, IsComposed, Stays, ToTheEnd};
ghost use Rattle.wp_fast.specs.Numbers.{StandsFor};

use crate::passages::{least_by_cross, least_by_way, length_staying, lesser};
use crate::row::{LengthRow, LengthsAcross, NO_LENGTH};
use wp_classes::Class;
use wp_graph::AisleWays;

/// For a run of neighbouring aisles, the least length from each class before the run to each class after it. There may
/// be none.
#[derive(Clone, Copy)]
pub struct Summary {
    uu1: LengthRow,
    e01: LengthRow,
    ze1: LengthRow,
    ee1: LengthRow,
    ee2: LengthRow,
    z00: LengthRow,
    z01: LengthRow,
}

// The lengths from a class by a way through an aisle.
fn row_by_way(ways: &AisleWays, before: Class) -> LengthRow
    ensures { (after : ClassData) → IsLeastOf (ByWays ways.now before after)
        (length_to result after) }
{
    LengthRow::of(&LengthsAcross {
        uu1: least_by_way(ways, before, Class::UU1),
        e01: least_by_way(ways, before, Class::E01),
        ze1: least_by_way(ways, before, Class::ZE1),
        ee1: least_by_way(ways, before, Class::EE1),
        ee2: least_by_way(ways, before, Class::EE2),
        z00: least_by_way(ways, before, Class::Z00),
        z01: least_by_way(ways, before, Class::Z01),
    })
}

// The lengths from a class by a crossing.
fn row_by_cross(spacing: u32, before: Class) -> LengthRow
    ensures { (after : ClassData) → IsLeastOf (ByCrossings spacing before after)
        (length_to result after) }
{
    LengthRow::of(&LengthsAcross {
        uu1: least_by_cross(spacing, before, Class::UU1),
        e01: least_by_cross(spacing, before, Class::E01),
        ze1: least_by_cross(spacing, before, Class::ZE1),
        ee1: least_by_cross(spacing, before, Class::EE1),
        ee2: least_by_cross(spacing, before, Class::EE2),
        z00: least_by_cross(spacing, before, Class::Z00),
        z01: least_by_cross(spacing, before, Class::Z01),
    })
}

// The lengths from a class past no aisle.
fn row_staying(before: Class) -> LengthRow
    ensures { (after : ClassData) → IsLeastOf (Stays before after) (length_to result after) }
{
    LengthRow::of(&LengthsAcross {
        uu1: length_staying(before, Class::UU1),
        e01: length_staying(before, Class::E01),
        ze1: length_staying(before, Class::ZE1),
        ee1: length_staying(before, Class::EE1),
        ee2: length_staying(before, Class::EE2),
        z00: length_staying(before, Class::Z00),
        z01: length_staying(before, Class::Z01),
    })
}

// The number for the length by a class between: to it past the first run, and on from it past the next.
#[inline(always)]
fn number_by(first: &Summary, next: &Summary, before: Class, after: Class, between: Class) -> u64
    requires first { AreBelow (2 ^ 62) first.now }
    requires next { AreBelow (2 ^ 62) next.now }
    ensures { StandsFor (length_by first.now next.now before after between) result }
{
    let near = first.row(before).number(between);
    let far = next.row(between).number(after);
    near.saturating_add(far)
}

// The least length past two runs, over the class between.
#[inline(always)]
fn least_sum(first: &Summary, next: &Summary, before: Class, after: Class) -> Option<u64>
    requires first { AreBelow (2 ^ 62) first.now }
    requires next { AreBelow (2 ^ 62) next.now }
    ensures { result ≡ least_by first.now next.now before after }
{
    let uu1 = number_by(first, next, before, after, Class::UU1);
    let e01 = number_by(first, next, before, after, Class::E01);
    let ze1 = number_by(first, next, before, after, Class::ZE1);
    let ee1 = number_by(first, next, before, after, Class::EE1);
    let ee2 = number_by(first, next, before, after, Class::EE2);
    let z00 = number_by(first, next, before, after, Class::Z00);
    let z01 = number_by(first, next, before, after, Class::Z01);
    let least = uu1.min(e01.min(ze1.min(ee1.min(ee2.min(z00.min(z01))))));
    (least != NO_LENGTH).then_some(least)
}

// The least lengths from a class past two runs.
fn row_past_both(first: &Summary, next: &Summary, before: Class) -> LengthRow
    requires first { AreBelow (2 ^ 62) first.now }
    requires next { AreBelow (2 ^ 62) next.now }
    ensures { (after : ClassData) → length_to result after
        ≡ least_by first.now next.now before after }
{
    LengthRow::of(&LengthsAcross {
        uu1: least_sum(first, next, before, Class::UU1),
        e01: least_sum(first, next, before, Class::E01),
        ze1: least_sum(first, next, before, Class::ZE1),
        ee1: least_sum(first, next, before, Class::EE1),
        ee2: least_sum(first, next, before, Class::EE2),
        z00: least_sum(first, next, before, Class::Z00),
        z01: least_sum(first, next, before, Class::Z01),
    })
}

impl Summary {
    /// The lengths of the ways through an aisle.
    pub fn of_aisle(ways: &AisleWays) -> Summary
        ensures { AreLeast (ByWays ways.now) result }
    {
        Summary {
            uu1: row_by_way(ways, Class::UU1),
            e01: row_by_way(ways, Class::E01),
            ze1: row_by_way(ways, Class::ZE1),
            ee1: row_by_way(ways, Class::EE1),
            ee2: row_by_way(ways, Class::EE2),
            z00: row_by_way(ways, Class::Z00),
            z01: row_by_way(ways, Class::Z01),
        }
    }

    /// The lengths of the crossings between two neighbouring aisles that are so far from each other.
    pub fn of_crossing(spacing: u32) -> Summary
        ensures { AreLeast (ByCrossings spacing) result }
    {
        Summary {
            uu1: row_by_cross(spacing, Class::UU1),
            e01: row_by_cross(spacing, Class::E01),
            ze1: row_by_cross(spacing, Class::ZE1),
            ee1: row_by_cross(spacing, Class::EE1),
            ee2: row_by_cross(spacing, Class::EE2),
            z00: row_by_cross(spacing, Class::Z00),
            z01: row_by_cross(spacing, Class::Z01),
        }
    }

    /// The lengths past no aisle: 0 from each class to itself, and none to another.
    pub(crate) fn of_nothing() -> Summary
        ensures { AreLeast Stays result }
    {
        Summary {
            uu1: row_staying(Class::UU1),
            e01: row_staying(Class::E01),
            ze1: row_staying(Class::ZE1),
            ee1: row_staying(Class::EE1),
            ee2: row_staying(Class::EE2),
            z00: row_staying(Class::Z00),
            z01: row_staying(Class::Z01),
        }
    }

    /// The lengths past a run and the next one: for each class before and each class after, the least sum over the
    /// class between. Composing is associative.
    pub fn compose(&self, next: &Summary) -> Summary
        requires first { AreBelow (2 ^ 62) self.now }
        requires next { AreBelow (2 ^ 62) next.now }
        ensures { IsComposed self.now next.now result }
    {
        Summary {
            uu1: row_past_both(self, next, Class::UU1),
            e01: row_past_both(self, next, Class::E01),
            ze1: row_past_both(self, next, Class::ZE1),
            ee1: row_past_both(self, next, Class::EE1),
            ee2: row_past_both(self, next, Class::EE2),
            z00: row_past_both(self, next, Class::Z00),
            z01: row_past_both(self, next, Class::Z01),
        }
    }

    /// The least length of a whole tour past the run: from class Z00 to a class in which a tour may end. None exactly
    /// where there is none.
    pub fn length(&self) -> Option<u64>
        ensures { IsLeastOf (ToTheEnd self.now) result }
    {
        let behind = self.z00.length(Class::E01);
        let in_front = self.z00.length(Class::ZE1);
        let both = self.z00.length(Class::EE1);
        let apart = self.z00.length(Class::Z01);
        lesser(behind, lesser(in_front, lesser(both, apart)))
    }

    // The lengths from a class before the run.
    #[inline(always)]
    fn row(&self, before: Class) -> &LengthRow
        ensures { result.now ≡ row_from self.now before }
    {
        match before {
            Class::UU1 => &self.uu1,
            Class::E01 => &self.e01,
            Class::ZE1 => &self.ze1,
            Class::EE1 => &self.ee1,
            Class::EE2 => &self.ee2,
            Class::Z00 => &self.z00,
            Class::Z01 => &self.z01,
        }
    }
}
