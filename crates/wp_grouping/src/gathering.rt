//! Waves of the orders that have the same key.
ghost use Rattle.std.specs.Prelude.{◌≡◌, ◌<◌, ◌++◌, ◌∷◌, [], List, IfOk, length};
ghost use Rattle.std.specs.List.{All};
ghost use Rattle.wp_grouping.specs.Gathering.{AreKept, Gathered, IsKeptSo, joined, waves_by_key};
ghost use Rattle.wp_waves.specs.Filling.{waves_kept};

use std::alloc::Global;
use wp_model::Memory;
use wp_waves::OpenOrder;

// Begins a wave with an order.
fn begin(alloc: Global, waves: &mut Vec<Vec<OpenOrder>>, one: &OpenOrder) -> Result<(), Memory>
    ensures { IfOk result (λ _. waves_kept waves.new.items
        ≡ waves_kept waves.old.items ++ (one.now ∷ []) ∷ []) }
{
    let mut wave = Vec::new(alloc);
    wave.push(*one)?;
    waves.push(wave)?;
    Ok(())
}

// Puts an order into the wave of its key, or into a new one where there is none.
fn put(
    alloc: Global,
    waves: &mut Vec<Vec<OpenOrder>>,
    places: &mut Vec<Option<usize>>,
    key: u32,
    one: &OpenOrder,
) -> Result<(), Memory>
    requires small { key < length places.old.items }
    requires kept { IsKeptSo waves.old.items places.old.items }
    ensures count { length places.new.items ≡ length places.old.items }
    ensures joined { IfOk result (λ _. (gathered : List Gathered)
        → AreKept gathered waves.old.items places.old.items
        → AreKept (joined key one.now gathered) waves.new.items places.new.items) }
{
    match places[key as usize] {
        Some(place) => Ok(waves[place].push(*one)?),
        None => {
            places[key as usize] = Some(waves.len());
            Ok(begin(alloc, waves, one)?)
        }
    }
}

/// The waves of served orders by their keys, one an order, each below the number of orders: orders of equal keys make a
/// wave, in the order in which they are served, and waves stand in the order of their first orders.
pub fn gather(
    alloc: Global,
    served: &[OpenOrder],
    keys: &[u32],
) -> Result<Vec<Vec<OpenOrder>>, Memory>
    requires count { length keys.now ≡ length served.now }
    requires small { All (λ key. key < length served.now) keys.now }
    ensures { IfOk result (λ waves. waves_kept waves.items ≡ waves_by_key served.now keys.now) }
{
    let mut places = vec![in alloc; None; served.len()]?;
    let mut waves = Vec::new(alloc);
    for number in 0..served.len() {
        put(
            alloc,
            &mut waves,
            &mut places,
            keys[number],
            &served[number],
        )?;
    }
    Ok(waves)
}
