//! The pool with which a search begins, and the parts with which a cover begins.
ghost use Rattle.std.specs.Prelude.{◌≡◌, ◌≤◌, ◌<◌, ◌^◌, ◌*◌, ℕ, All, IfOk, length, pos, ◌*ℤ◌, ◌<ℤ◌, ◌≤ℤ◌};
ghost use Rattle.wp_lengths.specs.Batchings.{IsCost};
ghost use Rattle.wp_lengths.specs.Waves.{WavePicks};
ghost use Rattle.wp_pairs.specs.Permitted.{Pairing};
ghost use Rattle.wp_master.specs.Pairs.{number_at, sum_of};
ghost use Rattle.wp_master.specs.Pools.{column_of};
ghost use Rattle.wp_lp.specs.Parts.{AreExact, IsCapped, IsWeightedBatch, cost_of, cover_of};
ghost use Rattle.wp_lp.specs.Rounds.{IsRunPool};
ghost use Rattle.wp_lp.specs.Runs.{IsAnswer, IsBatchingUnder, IsPermittedPool};

use crate::open_wave::OpenWave;
use crate::part::WeightedBatch;
use crate::whole::{high_of, natural};
use std::alloc::Global;
use wp_lengths::SIXTIETHS;
use wp_master::{Pair, Pool};
use wp_model::Memory;
use wp_pairs::Batch;

/// The pool of a batching's batches, with their lengths.
pub(crate) fn start_pool(
    alloc: Global,
    given: &OpenWave<'_>,
    batches: &[Batch],
) -> Result<Pool, Memory>
    requires { IsBatchingUnder given.now.pairs.now batches.now }
    ensures { IfOk result (IsRunPool given.now.wave.now given.now.pairs.now 0) }
{
    let mut pool = Pool::new(alloc, given.wave.orders())?;
    for batch in batches {
        pool.add(*batch, given.wave.batch_length(*batch))?;
    }
    Ok(pool)
}

// Sixty times a weight, but no more than sixty times a denominator.
fn capped(weight: i128, denominator: i128) -> u128
    requires not_below { pos 0 ≤ℤ weight }
    requires above { pos 0 <ℤ denominator }
    requires small { denominator <ℤ pos (2 ^ 86) }
    ensures { IsCapped weight denominator result }
{
    let least = if weight < denominator {
        weight
    } else {
        denominator
    };
    u128::from(SIXTIETHS) * natural(least)
}

// The part of a column in a pool's solution.
fn start_part(pool: &Pool, pair: &Pair, column: usize) -> WeightedBatch
    requires column { column < length pool.now.columns }
    requires answer { IsAnswer pool.now pair.now.weights.items pair.now.duals.items
        pair.now.denominator }
    requires small { pair.now.denominator <ℤ pos (2 ^ 86) }
    ensures batch { result.batch ≡ (column_of pool.now column).batch }
    ensures length { result.length ≡ (column_of pool.now column).length }
    ensures weight { IsCapped (number_at pair.now.weights.items column) pair.now.denominator
        result.weight }
{
    let known = pool.column(column);
    WeightedBatch {
        batch: known.batch,
        length: known.length,
        weight: capped(pair.weights[column], pair.denominator),
    }
}

/// The parts of a pool's solution, in sixtieths of its weights: each order has sixty times the denominator or more.
pub(crate) fn solved_parts(
    alloc: Global,
    pool: &Pool,
    pair: &Pair,
) -> Result<Vec<WeightedBatch>, Memory>
    requires answer { IsAnswer pool.now pair.now.weights.items pair.now.duals.items
        pair.now.denominator }
    requires small { pair.now.denominator <ℤ pos (2 ^ 86) }
    ensures enough { IfOk result (λ parts. (order : ℕ) → order < pool.now.orders
        → (pos 60 *ℤ pair.now.denominator) ≤ℤ pos (cover_of parts.items order)) }
    ensures cost { IfOk result (λ parts. pos (cost_of parts.items)
        ≤ℤ (pos 60 *ℤ sum_of pool.now pair.now.duals.items)) }
    ensures each { IfOk result (λ parts. (wave : WavePicks) (pairing : Pairing)
        → IsPermittedPool wave pairing pool.now
        → All (IsWeightedBatch wave pairing) parts.items) }
{
    let mut parts = Vec::new(alloc);
    for column in 0..pool.len() {
        parts.push(start_part(pool, pair, column))?;
    }
    Ok(parts)
}

/// The parts of a batching, each of a weight.
pub(crate) fn batching_parts(
    alloc: Global,
    given: &OpenWave<'_>,
    batches: &[Batch],
    weight: u128,
) -> Result<Vec<WeightedBatch>, Memory>
    requires { IsBatchingUnder given.now.pairs.now batches.now }
    ensures exact { IfOk result (λ parts. AreExact
        (length given.now.wave.now.orders) weight parts.items) }
    ensures cost { IfOk result (λ parts. (cost : ℕ) × IsCost given.now.wave.now batches.now cost
        × (cost_of parts.items ≡ weight * cost)) }
    ensures small { weight ≤ 60 → IfOk result (λ parts. cost_of parts.items < 2 ^ 127) }
    ensures each { IfOk result (λ parts. All
        (IsWeightedBatch given.now.wave.now given.now.pairs.now) parts.items) }
{
    let mut parts = Vec::new(alloc);
    for batch in batches {
        parts.push(WeightedBatch {
            batch: *batch,
            length: given.wave.batch_length(*batch),
            weight,
        })?;
    }
    Ok(parts)
}

/// What a batching costs, in units of length.
pub(crate) fn batching_cost(
    alloc: Global,
    given: &OpenWave<'_>,
    batches: &[Batch],
) -> Result<u128, Memory>
    requires { IsBatchingUnder given.now.pairs.now batches.now }
    ensures { IfOk result (IsCost given.now.wave.now batches.now) }
{
    let parts = batching_parts(alloc, given, batches, 1)?;
    Ok(high_of(parts.as_slice()))
}
