//! Whether waves have the right shape.
ghost use Rattle.std.specs.Prelude.{◌≡◌, ◌<◌, ◌≤◌, IfSome, IfNone, List, Some, length, slice_get};
ghost use Rattle.std.specs.List.{list_all};
ghost use Rattle.wp_grouping.specs.Shape.{AreRight, AreRightBefore, FollowsAll, HasNoneBetween, IsLastBefore};
ghost use Rattle.wp_grouping.specs.Shape.{IsRightAt, MayFollow, Tells, goes_before, has_no_rank_below};
ghost use Rattle.wp_waves.specs.Filling.{waves_kept};
ghost use Rattle.wp_waves.specs.Waves.{AreOfOneGroup, HasOneGroup, leaves_with};
ghost use Rattle.wp_waves.specs.declared.open_orders.OpenOrder.{OpenOrder as OpenOrderData};

use wp_model::Name;
use wp_waves::OpenOrder;

// Whether two waves are of one group.
fn are_of_one_group(one: &[OpenOrder], other: &[OpenOrder]) -> bool
    ensures { Tells result (AreOfOneGroup one.now other.now) }
{
    match (one.first(), other.first()) {
        (Some(one), Some(other)) => one.group == other.group,
        _ => false,
    }
}

// Whether an order is of a group.
fn leaves_with(one: &OpenOrder, group: &Name) -> bool
    ensures { result ≡ leaves_with group.now one.now }
{
    one.group == *group
}

// Whether all orders of a wave are of a group.
fn all_leave_with(wave: &[OpenOrder], group: &Name) -> bool
    ensures { result ≡ list_all (leaves_with group.now) wave.now }
{
    wave.iter().all(|one| leaves_with(one, group))
}

// Whether all orders of a wave are of one group.
fn has_one_group(wave: &[OpenOrder]) -> bool
    ensures { Tells result (HasOneGroup wave.now) }
{
    match wave.first() {
        Some(first) => all_leave_with(wave, &first.group),
        None => true,
    }
}

// Whether no rank of a wave is below one.
fn has_no_rank_below(wave: &[OpenOrder], rank: u32) -> bool
    ensures { result ≡ has_no_rank_below rank wave.now }
{
    wave.iter().all(|other| rank <= other.rank)
}

// Whether no order of one wave has a rank above that of an order of another.
fn goes_before(earlier: &[OpenOrder], later: &[OpenOrder]) -> bool
    ensures { result ≡ goes_before earlier.now later.now }
{
    earlier.iter().all(|one| has_no_rank_below(later, one.rank))
}

// Whether a wave goes after an earlier one of its group.
fn may_follow(earlier: &[OpenOrder], later: &[OpenOrder], most: usize) -> bool
    ensures { Tells result (MayFollow most earlier.now later.now) }
{
    if earlier.len() != most {
        return false;
    }
    goes_before(earlier, later)
}

// The place of the last wave of a wave's group before a place.
fn last_before(waves: &[Vec<OpenOrder>], end: usize, wave: &[OpenOrder]) -> Option<usize>
    requires { end ≤ length waves.now }
    ensures some { IfSome result (IsLastBefore (waves_kept waves.now) end wave.now) }
    ensures none { IfNone result (HasNoneBetween (waves_kept waves.now) 0 end wave.now) }
{
    let mut place = end;
    while place > 0 {
        place -= 1;
        if are_of_one_group(&waves[place], wave) {
            return Some(place);
        }
    }
    None
}

// Whether a wave may follow each wave of its group before a place, up to which all are right.
fn follows_all(waves: &[Vec<OpenOrder>], end: usize, wave: &[OpenOrder], most: usize) -> bool
    requires within { end ≤ length waves.now }
    requires before { AreRightBefore most (waves_kept waves.now) end }
    ensures { Tells result (FollowsAll most (waves_kept waves.now) end wave.now) }
{
    match last_before(waves, end, wave) {
        Some(place) => may_follow(&waves[place], wave, most),
        None => true,
    }
}

// Whether the wave at a place is right.
fn is_right_at(waves: &[Vec<OpenOrder>], place: usize, most: usize) -> bool
    requires within { place < length waves.now }
    requires before { AreRightBefore most (waves_kept waves.now) place }
    ensures { (wave : List OpenOrderData) → slice_get (waves_kept waves.now) place ≡ Some wave
        → Tells result (IsRightAt most (waves_kept waves.now) place wave) }
{
    let wave = waves[place].as_slice();
    if wave.len() > most || !has_one_group(wave) {
        return false;
    }
    follows_all(waves, place, wave, most)
}

/// Whether each wave has at most so many orders, of one group, and each earlier wave of its group is full and has no
/// rank above one of its own.
pub fn are_right(waves: &[Vec<OpenOrder>], most: usize) -> bool
    ensures { Tells result (AreRight most (waves_kept waves.now)) }
{
    for place in 0..waves.len() {
        if !is_right_at(waves, place, most) {
            return false;
        }
    }
    true
}
