//! Waves of served orders, filled in the order in which they are served.
ghost use Rattle.std.specs.Prelude.{◌≡◌, ◌<◌, ◌++◌, ◌∷◌, [], IfOk, IfSome, IfNone};
ghost use Rattle.std.specs.List.Sorted.{IsNonDecreasingBy};
ghost use Rattle.wp_waves.specs.Filling.{HasNoRoom, HasRoomAt, HaveNoneFrom, IsLastOf, IsPut, waves_kept};
ghost use Rattle.wp_waves.specs.Turns.{rank_of};
ghost use Rattle.wp_waves.specs.Waves.{AreWavesOf, is_of_group};

use crate::open_orders::OpenOrder;
use std::alloc::Global;
use wp_model::{Memory, Name};

// Whether a wave is of a group.
fn is_of_group(wave: &[OpenOrder], group: &Name) -> bool
    ensures { result ≡ is_of_group group.now wave.now }
{
    match wave.first() {
        Some(one) => one.group == *group,
        None => false,
    }
}

// The place of the last wave of a group.
fn last_of_group(waves: &[Vec<OpenOrder>], group: &Name) -> Option<usize>
    ensures some { IfSome result (λ place. IsLastOf group.now (waves_kept waves.now) place) }
    ensures none { IfNone result (HaveNoneFrom group.now (waves_kept waves.now) 0) }
{
    let mut place = waves.len();
    while place > 0 {
        place -= 1;
        if is_of_group(&waves[place], group) {
            return Some(place);
        }
    }
    None
}

// Begins a wave with an order.
fn begin(alloc: Global, waves: &mut Vec<Vec<OpenOrder>>, one: &OpenOrder) -> Result<(), Memory>
    ensures { IfOk result (λ _. waves_kept waves.new.items
        ≡ waves_kept waves.old.items ++ (one.now ∷ []) ∷ []) }
{
    let mut wave = Vec::new(alloc);
    wave.push(*one)?;
    waves.push(wave)?;
    Ok(())
}

// The place of the last wave of a group, where that has room for one more.
fn place_with_room(waves: &[Vec<OpenOrder>], most: usize, group: &Name) -> Option<usize>
    ensures some { IfSome result (λ place. HasRoomAt most group.now (waves_kept waves.now) place) }
    ensures none { IfNone result (HasNoRoom most group.now (waves_kept waves.now)) }
{
    let place = last_of_group(waves, group)?;
    if waves[place].len() < most {
        Some(place)
    } else {
        None
    }
}

// Puts an order into the last wave of its group, or into a new one where that has no room or there is none.
fn put(
    alloc: Global,
    waves: &mut Vec<Vec<OpenOrder>>,
    most: usize,
    one: &OpenOrder,
) -> Result<(), Memory>
    ensures { IfOk result (λ _. IsPut most one.now (waves_kept waves.old.items)
        (waves_kept waves.new.items)) }
{
    match place_with_room(waves, most, &one.group) {
        Some(place) => Ok(waves[place].push(*one)?),
        None => Ok(begin(alloc, waves, one)?),
    }
}

/// Waves of served orders, which are in the order in which they are served, of at most so many orders each.
pub fn fill_waves(
    alloc: Global,
    served: &[OpenOrder],
    most: usize,
) -> Result<Vec<Vec<OpenOrder>>, Memory>
    requires room { 0 < most }
    requires ranks { IsNonDecreasingBy rank_of served.now }
    ensures { IfOk result (λ waves. AreWavesOf most served.now (waves_kept waves.items)) }
{
    let mut waves = Vec::new(alloc);
    for one in served {
        put(alloc, &mut waves, most, one)?;
    }
    Ok(waves)
}
