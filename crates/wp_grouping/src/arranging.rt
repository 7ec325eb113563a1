//! Right waves of served orders in which those go together that have the same key.
ghost use Rattle.std.specs.Prelude.{◌≡◌, ◌<◌, IfNone, IfOk, IfSome, length};
ghost use Rattle.std.specs.List.{All};
ghost use Rattle.std.specs.List.Sorted.{IsNonDecreasingBy};
ghost use Rattle.wp_grouping.specs.Gathering.{are_small, waves_by_key};
ghost use Rattle.wp_grouping.specs.Shape.{AreRight};
ghost use Rattle.wp_waves.specs.Filling.{waves_kept};
ghost use Rattle.wp_waves.specs.Turns.{rank_of};
ghost use Rattle.wp_waves.specs.Waves.{AreWavesOf};

use crate::gathering::gather;
use crate::shape::are_right;
use std::alloc::Global;
use wp_model::Memory;
use wp_waves::{OpenOrder, fill_waves};

// Whether each key is below a number.
fn are_small(keys: &[u32], count: usize) -> bool
    ensures { result ≡ are_small count keys.now }
{
    keys.iter().all(|key| (*key as usize) < count)
}

// The waves of served orders by their keys where these are right, and none where they aren't.
fn proposed(
    alloc: Global,
    served: &[OpenOrder],
    keys: &[u32],
    most: usize,
) -> Result<Option<Vec<Vec<OpenOrder>>>, Memory>
    requires count { length keys.now ≡ length served.now }
    ensures some { IfOk result (λ found. IfSome found (λ waves. waves_kept waves.items
        ≡ waves_by_key served.now keys.now)) }
    ensures right { IfOk result (λ found. IfSome found (λ waves. AreRight most (waves_kept waves.items))) }
    ensures none { IfOk result (λ found. IfNone found (All (λ key. key < length served.now) keys.now
        → AreRight most (waves_by_key served.now keys.now) → ⊥)) }
{
    if !are_small(keys, served.len()) {
        return Ok(None);
    }
    let waves = gather(alloc, served, keys)?;
    if are_right(waves.as_slice(), most) {
        Ok(Some(waves))
    } else {
        Ok(None)
    }
}

/// Right waves of served orders, which are in the order in which they are served, of at most so many orders each. Each
/// order has a key below the number of orders: where the orders of equal keys make right waves, those are the waves;
/// else the waves are filled in the order in which the orders are served.
pub fn arrange(
    alloc: Global,
    served: &[OpenOrder],
    keys: &[u32],
    most: usize,
) -> Result<Vec<Vec<OpenOrder>>, Memory>
    requires room { 0 < most }
    requires ranks { IsNonDecreasingBy rank_of served.now }
    requires count { length keys.now ≡ length served.now }
    ensures right { IfOk result (λ waves. AreWavesOf most served.now (waves_kept waves.items)) }
    ensures together { IfOk result (λ waves. All (λ key. key < length served.now) keys.now
        → AreRight most (waves_by_key served.now keys.now)
        → waves_kept waves.items ≡ waves_by_key served.now keys.now) }
{
    let proposal = proposed(alloc, served, keys, most)?;
    match proposal {
        Some(waves) => Ok(waves),
        None => fill_waves(alloc, served, most),
    }
}
