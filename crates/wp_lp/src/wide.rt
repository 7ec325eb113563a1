//! Wide rounds: under a pool's duals each order is priced by itself. The batch of least slack with it is added, and the
//! duals, scaled down by what their batches lack, are feasible.
ghost use Rattle.std.specs.Prelude.{◌≡◌, ◌⊎◌, ◌+◌, ◌*◌, ◌<◌, ◌≤◌, ◌^◌, ◌∷◌, [], ℕ, All, IfOk, IfErr, IfSome, IfNone};
ghost use Rattle.std.specs.Prelude.{length, sum, pos, ◌+ℤ◌, ◌<ℤ◌, ◌≤ℤ◌};
ghost use Rattle.wp_lengths.specs.Lengths.{IsLengthOf};
ghost use Rattle.wp_pairs.specs.Permitted.{IsPermitted};
ghost use Rattle.wp_price.specs.Slacks.{HasNoCandidate, IsLeastSlack};
ghost use Rattle.wp_lp.specs.Knowns.{AreSound, IsBracketFrom, IsCoveringPool, IsKnown, IsLack, IsNarrowFrom, IsScaled};
ghost use Rattle.wp_lp.specs.Rounds.{IsEnd, IsShortPool};
ghost use Rattle.wp_lp.specs.Runs.{IsAnswer};
ghost use Rattle.wp_lp.specs.declared.root.RootState.TheVariants as state;

use crate::cover::{cover_root, pool_cover};
use crate::halt::Halt;
use crate::known::{KnownWave, copied};
use crate::open_wave::OpenWave;
use crate::root::{Root, RootState};
use crate::round::solved;
use crate::sixtieths::rounded_down;
use crate::whole::natural;
use std::alloc::Global;
use std::thread::Threads;
use wp_lengths::{SIXTIETHS, total_of};
use wp_master::{Pair, Pool};
use wp_model::Memory;
use wp_outside::OpenGate;
use wp_pairs::Batch;
use wp_price::{Workers, least_slack};

// The permitted batch of least slack with an order, and that slack.
#[derive(Clone, Copy)]
struct Through {
    batch: Batch,
    slack: i64,
}

// The permitted batch of least slack with an order, under duals in sixtieths.
fn priced_through<R: Threads + Sync>(
    workers: &Workers<'_, R, OpenGate>,
    given: &OpenWave<'_>,
    sixtieths: &Vec<u64>,
    order: u32,
) -> Result<Option<Through>, Memory>
    requires count { length sixtieths.now.items ≡ length given.now.wave.now.orders }
    requires small { All (λ dual. dual < 2 ^ 34) sixtieths.now.items }
    requires order { order < length given.now.wave.now.orders }
    ensures none { IfOk result (λ found. IfNone found
        (HasNoCandidate given.now.pairs.now (Some order))) }
    ensures some { IfOk result (λ found. IfSome found (λ through.
        IsLeastSlack given.now.wave.now given.now.pairs.now sixtieths.now.items
        (Some order) through.batch through.slack)) }
{
    let found = least_slack(
        workers.rt,
        workers.alloc,
        given.wave,
        given.pairs,
        sixtieths,
        Some(order),
        workers.number,
        workers.gate,
    )?;
    match found {
        Some(best) => Ok(Some(Through {
            batch: best.batch,
            slack: best.slack,
        })),
        None => Ok(None),
    }
}

// By how much a slack is below 0.
fn lack_of(slack: i64) -> u128
    ensures is { pos 0 ≤ℤ (slack +ℤ pos result) }
    ensures most { result ≤ 2 ^ 63 }
{
    if slack < 0 {
        natural(-i128::from(slack))
    } else {
        0
    }
}

// Whether a pool has a batch.
fn has_batch(pool: &Pool, batch: Batch) -> bool {
    for column in 0..pool.len() {
        if pool.column(column).batch == batch {
            return true;
        }
    }
    false
}

// Adds a permitted batch to a pool.
fn add_to(given: &OpenWave<'_>, pool: &mut Pool, batch: Batch) -> Result<(), Memory>
    requires pool { IsCoveringPool given.now.wave.now given.now.pairs.now pool.old }
    requires permitted { IsPermitted given.now.pairs.now batch }
    ensures { IfOk result (λ _. IsCoveringPool given.now.wave.now given.now.pairs.now pool.new) }
{
    pool.add(batch, given.wave.batch_length(batch))?;
    Ok(())
}

// Prices an order, adds the batch that was found where its slack is below 0 and the pool hasn't got it yet, and tells
// what the batches with the order lack at most.
fn widened_by<R: Threads + Sync>(
    workers: &Workers<'_, R, OpenGate>,
    given: &OpenWave<'_>,
    sixtieths: &Vec<u64>,
    order: u32,
    pool: &mut Pool,
) -> Result<u128, Memory>
    requires pool { IsCoveringPool given.now.wave.now given.now.pairs.now pool.old }
    requires count { length sixtieths.now.items ≡ length given.now.wave.now.orders }
    requires small { All (λ dual. dual < 2 ^ 34) sixtieths.now.items }
    requires order { order < length given.now.wave.now.orders }
    ensures pool { IfOk result (λ _. IsCoveringPool given.now.wave.now given.now.pairs.now
        pool.new) }
    ensures lack { IfOk result (IsLack given.now.wave.now given.now.pairs.now sixtieths.now.items
        order) }
    ensures most { IfOk result (λ lack. lack ≤ 2 ^ 63) }
{
    let Some(found) = priced_through(workers, given, sixtieths, order)? else {
        return Ok(0);
    };
    if found.slack < 0 && !has_batch(pool, found.batch) {
        add_to(given, pool, found.batch)?;
    }
    Ok(lack_of(found.slack))
}

// A dual times the length of its order's own tour, over that length and what its batches lack, both in sixtieths;
// rounded down.
fn scaled(dual: u64, alone: u64, lack: u128) -> u64
    requires dual { dual < 2 ^ 34 }
    requires alone { alone < 2 ^ 28 }
    requires lack { lack ≤ 2 ^ 63 }
    ensures less { result ≤ dual }
    ensures is { result * (60 * alone + lack) ≤ dual * (60 * alone) }
{
    if lack == 0 {
        return dual;
    }
    let own = u128::from(SIXTIETHS) * u128::from(alone);
    (u128::from(dual) * own / (own + lack)) as u64
}

// The length of a tour for one order alone.
fn alone(given: &OpenWave<'_>, order: u32) -> u64
    requires { order < length given.now.wave.now.orders }
    ensures is { IsLengthOf given.now.wave.now (order ∷ []) result }
    ensures small { result < 2 ^ 28 }
{
    given.wave.batch_length(Batch::empty().with(order))
}

// Prices an order, adds a batch for it, and gives its dual, scaled down.
fn scaled_by<R: Threads + Sync>(
    workers: &Workers<'_, R, OpenGate>,
    given: &OpenWave<'_>,
    sixtieths: &Vec<u64>,
    order: u32,
    pool: &mut Pool,
) -> Result<u64, Memory>
    requires pool { IsCoveringPool given.now.wave.now given.now.pairs.now pool.old }
    requires count { length sixtieths.now.items ≡ length given.now.wave.now.orders }
    requires small { All (λ dual. dual < 2 ^ 34) sixtieths.now.items }
    requires order { order < length given.now.wave.now.orders }
    ensures pool { IfOk result (λ _. IsCoveringPool given.now.wave.now given.now.pairs.now
        pool.new) }
    ensures scaled { IfOk result (IsScaled given.now.wave.now given.now.pairs.now
        sixtieths.now.items order) }
    ensures small { IfOk result (λ dual. dual < 2 ^ 34) }
{
    let lack = widened_by(workers, given, sixtieths, order, pool)?;
    let dual = sixtieths[order as usize];
    Ok(scaled(dual, alone(given, order), lack))
}

// Adds one batch for each order, and gives the duals, scaled down till they are feasible.
fn widened_all<R: Threads + Sync>(
    workers: &Workers<'_, R, OpenGate>,
    given: &OpenWave<'_>,
    sixtieths: &Vec<u64>,
    pool: &mut Pool,
) -> Result<Vec<u64>, Memory>
    requires pool { IsCoveringPool given.now.wave.now given.now.pairs.now pool.old }
    requires count { length sixtieths.now.items ≡ length given.now.wave.now.orders }
    requires small { All (λ dual. dual < 2 ^ 34) sixtieths.now.items }
    ensures pool { IfOk result (λ _. IsCoveringPool given.now.wave.now given.now.pairs.now
        pool.new) }
    ensures sound { IfOk result (λ duals. AreSound given.now.wave.now given.now.pairs.now
        duals.items) }
{
    let mut duals = Vec::new(workers.alloc);
    for order in 0..given.wave.orders() {
        let dual = scaled_by(workers, given, sixtieths, order, pool)?;
        duals.push(dual)?;
    }
    Ok(duals)
}

// The bracket of a pool's solution and of feasible duals, where it is narrow.
fn near_root(
    alloc: Global,
    start: &KnownWave<'_>,
    pool: &Pool,
    pair: &Pair,
    duals: &[u64],
) -> Result<Option<Root>, Memory>
    requires known { IsKnown start.now.given.wave.now start.now.given.pairs.now
        start.now.batches.now start.now.cost start.now.duals.now }
    requires pool { IsShortPool start.now.given.wave.now start.now.given.pairs.now pool.now }
    requires answer { IsAnswer pool.now pair.now.weights.items pair.now.duals.items
        pair.now.denominator }
    requires small { pair.now.denominator <ℤ pos (2 ^ 86) }
    requires sound { AreSound start.now.given.wave.now start.now.given.pairs.now duals.now }
    ensures { IfOk result (λ found. IfSome found
        (IsNarrowFrom start.now.given.wave.now start.now.given.pairs.now start.now.cost (sum duals.now))) }
{
    let cover = pool_cover(alloc, start, pool, pair)?;
    let root = cover_root(alloc, start, &cover, duals, RootState::Rounds { made: 0 })?;
    match root.state {
        RootState::Narrow => Ok(Some(root)),
        _ => Ok(None),
    }
}

// Puts duals in the place of others, where they come to more.
fn keep_better(best: &mut Vec<u64>, duals: Vec<u64>)
    ensures either { (best.new.items ≡ best.old.items) ⊎ (best.new.items ≡ duals.items) }
    ensures no_less { sum best.old.items ≤ sum best.new.items }
    ensures better { sum duals.items ≤ sum best.new.items }
{
    if total_of(best.as_slice()) < total_of(duals.as_slice()) {
        *best = duals;
    }
}

// One wide round: a pool is solved, and where its cover and the best duals so far make a narrow bracket it is given.
// Else batches are added to the pool, and the scaled duals are kept where they come to more.
fn wide_round<R: Threads + Sync>(
    workers: &Workers<'_, R, OpenGate>,
    start: &KnownWave<'_>,
    pool: &mut Pool,
    best: &mut Vec<u64>,
) -> Result<Option<Root>, Halt>
    requires known { IsKnown start.now.given.wave.now start.now.given.pairs.now
        start.now.batches.now start.now.cost start.now.duals.now }
    requires pool { IsCoveringPool start.now.given.wave.now start.now.given.pairs.now pool.old }
    requires sound { AreSound start.now.given.wave.now start.now.given.pairs.now best.old.items }
    ensures narrow { IfOk result (λ found. IfSome found
        (IsNarrowFrom start.now.given.wave.now start.now.given.pairs.now start.now.cost (sum best.old.items))) }
    ensures pool { IfOk result (λ found. IfNone found
        (IsCoveringPool start.now.given.wave.now start.now.given.pairs.now pool.new)) }
    ensures sound { IfOk result (λ found. IfNone found
        (AreSound start.now.given.wave.now start.now.given.pairs.now best.new.items)) }
    ensures no_less { IfOk result (λ found. IfNone found
        (sum best.old.items ≤ sum best.new.items)) }
    ensures halt { IfErr result (λ halt. (rounds : ℕ)
        → IsEnd start.now.given.wave.now start.now.given.pairs.now rounds halt) }
{
    let alloc = workers.alloc;
    let pair = solved(alloc, pool)?;
    if let Some(root) = near_root(alloc, start, pool, &pair, best.as_slice())? {
        return Ok(Some(root));
    }
    let sixtieths = rounded_down(alloc, pair.duals.as_slice(), pair.denominator)?;
    let duals = widened_all(workers, &start.given, &sixtieths, pool)?;
    keep_better(best, duals);
    Ok(None)
}

// The bracket of a pool's cover and of feasible duals, after so many rounds.
fn last_root(
    alloc: Global,
    start: &KnownWave<'_>,
    pool: &Pool,
    duals: &[u64],
    rounds: u64,
) -> Result<Root, Halt>
    requires known { IsKnown start.now.given.wave.now start.now.given.pairs.now
        start.now.batches.now start.now.cost start.now.duals.now }
    requires pool { IsCoveringPool start.now.given.wave.now start.now.given.pairs.now pool.now }
    requires sound { AreSound start.now.given.wave.now start.now.given.pairs.now duals.now }
    ensures root { IfOk result (IsBracketFrom start.now.given.wave.now start.now.given.pairs.now
        start.now.cost (sum duals.now) (state.Rounds rounds)) }
    ensures halt { IfErr result (λ halt. (most : ℕ)
        → IsEnd start.now.given.wave.now start.now.given.pairs.now most halt) }
{
    let pair = solved(alloc, pool)?;
    let cover = pool_cover(alloc, start, pool, &pair)?;
    let root = cover_root(
        alloc,
        start,
        &cover,
        duals,
        RootState::Rounds { made: rounds },
    )?;
    Ok(root)
}

/// Wide rounds from a pool on, so many: the first narrow bracket, or else that of the last pool and of the duals that
/// come to most.
pub(crate) fn widened<R: Threads + Sync>(
    workers: &Workers<'_, R, OpenGate>,
    start: &KnownWave<'_>,
    pool: &mut Pool,
    rounds: u64,
) -> Result<Root, Halt>
    requires known { IsKnown start.now.given.wave.now start.now.given.pairs.now
        start.now.batches.now start.now.cost start.now.duals.now }
    requires pool { IsCoveringPool start.now.given.wave.now start.now.given.pairs.now pool.old }
    ensures root { IfOk result (IsBracketFrom start.now.given.wave.now start.now.given.pairs.now
        start.now.cost (sum start.now.duals.now)
        (state.Rounds rounds)) }
    ensures halt { IfErr result (λ halt. (most : ℕ)
        → IsEnd start.now.given.wave.now start.now.given.pairs.now most halt) }
{
    let mut best = copied(workers.alloc, start.duals)?;
    for _made in 0..rounds {
        if let Some(root) = wide_round(workers, start, pool, &mut best)? {
            return Ok(root);
        }
    }
    last_root(workers.alloc, start, pool, best.as_slice(), rounds)
}
