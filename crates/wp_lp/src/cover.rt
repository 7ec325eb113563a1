//! Exact covers over sixty times a number, and the brackets that are made of one and of feasible duals.
ghost use Rattle.std.specs.Prelude.{◌≡◌, ◌*◌, ◌<◌, ◌≤◌, ◌^◌, All, IfOk, length, sum, pos, ◌*ℤ◌, ◌<ℤ◌, ◌≤ℤ◌};
ghost use Rattle.wp_master.specs.Pairs.{sum_of};
ghost use Rattle.wp_lp.specs.Knowns.{AreSound, IsBracketFrom, IsCoverWithin, IsKnown, IsToldOf, IsToldRoot};
ghost use Rattle.wp_lp.specs.Parts.{AreExact, IsWeightedBatch, cost_of};
ghost use Rattle.wp_lp.specs.Rounds.{IsShortPool};
ghost use Rattle.wp_lp.specs.Runs.{IsAnswer};
ghost use Rattle.wp_lp.specs.declared.part.WeightedBatch.{WeightedBatch as PartData};

use crate::known::KnownWave;
use crate::part::WeightedBatch;
use crate::root::{Root, RootState};
use crate::start::{batching_parts, solved_parts};
use crate::trim::trim;
use crate::whole::{high_of, low_of, natural, root_of};
use std::alloc::Global;
use wp_master::{Pair, Pool};
use wp_model::Memory;

/// The parts of an exact cover, each order of which has sixty times a number.
#[derive(Drop)]
pub(crate) struct Cover {
    pub(crate) parts: Vec<WeightedBatch>,
    pub(crate) over: u128,
}

// The cheaper of a cover and the batching that is known.
fn cheaper_parts(
    alloc: Global,
    start: &KnownWave<'_>,
    over: u128,
    parts: Vec<WeightedBatch>,
) -> Result<Vec<WeightedBatch>, Memory>
    requires known { IsKnown start.now.given.wave.now start.now.given.pairs.now
        start.now.batches.now start.now.cost start.now.duals.now }
    requires some { 1 ≤ over }
    requires small { over < 2 ^ 86 }
    requires exact { AreExact (length start.now.given.wave.now.orders) (60 * over) parts.items }
    requires each { All (IsWeightedBatch start.now.given.wave.now start.now.given.pairs.now)
        parts.items }
    requires fits { cost_of parts.items < 2 ^ 127 }
    ensures is { IfOk result (λ cheaper.
        IsCoverWithin start.now.given.wave.now start.now.given.pairs.now start.now.cost cheaper.items over) }
    ensures no_dearer { IfOk result (λ cheaper. cost_of cheaper.items ≤ cost_of parts.items) }
{
    let whole = 60 * over;
    let quotient = high_of(parts.as_slice()) / whole;
    if quotient < start.cost {
        return Ok(parts);
    }
    let known = batching_parts(alloc, &start.given, start.batches, whole)?;
    Ok(known)
}

/// The cover of a pool's solution, trimmed till it is exact, or the batching that is known where that is cheaper.
pub(crate) fn pool_cover(
    alloc: Global,
    start: &KnownWave<'_>,
    pool: &Pool,
    pair: &Pair,
) -> Result<Cover, Memory>
    requires known { IsKnown start.now.given.wave.now start.now.given.pairs.now
        start.now.batches.now start.now.cost start.now.duals.now }
    requires pool { IsShortPool start.now.given.wave.now start.now.given.pairs.now pool.now }
    requires answer { IsAnswer pool.now pair.now.weights.items pair.now.duals.items
        pair.now.denominator }
    requires small { pair.now.denominator <ℤ pos (2 ^ 86) }
    ensures is { IfOk result (λ cover.
        IsCoverWithin start.now.given.wave.now start.now.given.pairs.now start.now.cost cover.parts.items cover.over) }
    ensures over { IfOk result (λ cover. pos cover.over ≡ pair.now.denominator) }
    ensures least { IfOk result (λ cover. pos (cost_of cover.parts.items)
        ≤ℤ (pos 60 *ℤ sum_of pool.now pair.now.duals.items)) }
{
    let over = natural(pair.denominator);
    let enough = solved_parts(alloc, pool, pair)?;
    let exact = trim(alloc, &start.given, 60 * over, enough)?;
    let parts = cheaper_parts(alloc, start, over, exact)?;
    Ok(Cover { parts, over })
}

/// The cover of the batching that is known.
pub(crate) fn known_cover(alloc: Global, start: &KnownWave<'_>) -> Result<Cover, Memory>
    requires known { IsKnown start.now.given.wave.now start.now.given.pairs.now
        start.now.batches.now start.now.cost start.now.duals.now }
    ensures { IfOk result (λ cover.
        IsCoverWithin start.now.given.wave.now start.now.given.pairs.now start.now.cost cover.parts.items cover.over) }
{
    let parts = batching_parts(alloc, &start.given, start.batches, 60)?;
    Ok(Cover { parts, over: 1 })
}

// The state of a bracket: narrow where its sides are near enough, or else the one that is given.
fn told(parts: &[WeightedBatch], sixtieths: &[u64], over: u128, state: RootState) -> RootState
    requires cost { cost_of parts.now < 2 ^ 127 }
    requires count { length sixtieths.now ≤ 64 }
    requires small { All (λ dual. dual < 2 ^ 34) sixtieths.now }
    requires over { over < 2 ^ 86 }
    ensures { IsToldOf parts.now sixtieths.now over state result }
{
    let apart = sixtieths.len() as u128 * over;
    if high_of(parts) < low_of(sixtieths, over) + apart {
        RootState::Narrow
    } else {
        state
    }
}

// The bracket of parts and of duals in sixtieths, over sixty times a number: narrow where its sides are near enough.
fn told_root(
    alloc: Global,
    parts: &[WeightedBatch],
    sixtieths: &[u64],
    over: u128,
    state: RootState,
) -> Result<Root, Memory>
    requires weights { All (λ (part : PartData). part.weight < 2 ^ 127) parts.now }
    requires cost { cost_of parts.now < 2 ^ 127 }
    requires count { length sixtieths.now ≤ 64 }
    requires small { All (λ dual. dual < 2 ^ 34) sixtieths.now }
    requires over { over < 2 ^ 86 }
    ensures { IfOk result (IsToldRoot parts.now sixtieths.now over state) }
{
    let known = told(parts, sixtieths, over, state);
    root_of(alloc, parts, sixtieths, over, known)
}

/// The bracket of a cover and of feasible duals in sixtieths. It is narrow where its sides are near enough, or else in
/// the state that is given.
pub(crate) fn cover_root(
    alloc: Global,
    start: &KnownWave<'_>,
    cover: &Cover,
    sixtieths: &[u64],
    state: RootState,
) -> Result<Root, Memory>
    requires cover { IsCoverWithin start.now.given.wave.now start.now.given.pairs.now start.now.cost
        cover.now.parts.items cover.now.over }
    requires sound { AreSound start.now.given.wave.now start.now.given.pairs.now sixtieths.now }
    ensures from { IfOk result (IsBracketFrom start.now.given.wave.now start.now.given.pairs.now
        start.now.cost (sum sixtieths.now) state) }
    ensures is { IfOk result (IsToldRoot cover.now.parts.items sixtieths.now cover.now.over state) }
{
    told_root(alloc, cover.parts.as_slice(), sixtieths, cover.over, state)
}
