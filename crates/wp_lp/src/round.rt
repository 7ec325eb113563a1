//! One round of the search: a pool is solved, its duals are rounded down, and they are priced.
ghost use Rattle.std.specs.Prelude.{◌≡◌, ◌<◌, ◌^◌, ℕ, suc, All, IfOk, IfErr, IfSome, IfNone, length, pos, sum, ◌<ℤ◌};
ghost use Rattle.wp_lengths.specs.Duals.{AreFeasible};
ghost use Rattle.wp_master.specs.Pools.{AreCovered};
ghost use Rattle.wp_lp.specs.Knowns.{IsKnown, IsNarrowFrom};
ghost use Rattle.wp_lp.specs.Rounds.{IsEnd, IsNegative, IsPoolHalt, IsRunPool, IsShortPool, IsUnscalable};
ghost use Rattle.wp_lp.specs.Runs.{AreSixtieths, IsAnswer};

use crate::cover::{cover_root, pool_cover};
use crate::halt::Halt;
use crate::known::{KnownWave, greater};
use crate::open_wave::OpenWave;
use crate::root::{Root, RootState};
use crate::sixtieths::rounded_down;
use std::alloc::Global;
use std::thread::Threads;
use wp_master::{Pair, Pool, solve};
use wp_model::Memory;
use wp_outside::OpenGate;
use wp_pairs::Batch;
use wp_price::{Workers, least_slack};

/// How many pivots a pool is given.
const MOST_TURNS: u64 = 100_000;

/// A number above all by which a denominator is scaled in a bracket.
const SCALE: i128 = 4_398_046_511_104;

/// That a denominator times 2 ^ 42 stays within an `i128`. Else the state of an `Err` names the two.
pub fn scalable(denominator: i128) -> Result<(), Halt>
    ensures small { IfOk result (λ _. denominator <ℤ pos (2 ^ 86)) }
    ensures wide { IfErr result (IsUnscalable denominator) }
{
    match denominator.checked_mul(SCALE) {
        Some(_) => Ok(()),
        None => Err(Halt::Ended(RootState::Wide {
            left: denominator,
            right: SCALE,
        })),
    }
}

/// A pool's solution whose denominator times 2 ^ 42 stays within an `i128`. An `Err` comes where no batch of the pool
/// has some order, where the pool needs more pivots than it is given, where numbers leave an `i128`, or where memory is
/// wanting.
pub fn solved(alloc: Global, pool: &Pool) -> Result<Pair, Halt>
    ensures answer { IfOk result (λ pair. IsAnswer pool.now pair.weights.items pair.duals.items
        pair.denominator) }
    ensures small { IfOk result (λ pair. pair.denominator <ℤ pos (2 ^ 86)) }
    ensures halt { IfErr result (IsPoolHalt pool.now) }
{
    let pair = solve(alloc, pool, MOST_TURNS)?;
    scalable(pair.denominator)?;
    Ok(pair)
}

// A permitted batch of negative slack under duals in sixtieths. None comes only where they are feasible.
fn priced<R: Threads + Sync>(
    workers: &Workers<'_, R, OpenGate>,
    given: &OpenWave<'_>,
    sixtieths: &Vec<u64>,
) -> Result<Option<Batch>, Memory>
    requires count { length sixtieths.now.items ≡ length given.now.wave.now.orders }
    requires small { All (λ dual. dual < 2 ^ 34) sixtieths.now.items }
    ensures none { IfOk result (λ found. IfNone found
        (AreFeasible given.now.wave.now given.now.pairs.now sixtieths.now.items)) }
    ensures some { IfOk result (λ found. IfSome found
        (IsNegative given.now.wave.now given.now.pairs.now sixtieths.now.items)) }
{
    let found = least_slack(
        workers.rt,
        workers.alloc,
        given.wave,
        given.pairs,
        sixtieths,
        None,
        workers.number,
        workers.gate,
    )?;
    let Some(best) = found else {
        return Ok(None);
    };
    if best.slack < 0 {
        return Ok(Some(best.batch));
    }
    Ok(None)
}

// The narrow bracket of a pool's solution whose duals, rounded down to sixtieths, are feasible; or of the duals that
// are known, where they come to more.
fn narrow_root(
    alloc: Global,
    start: &KnownWave<'_>,
    pool: &Pool,
    pair: &Pair,
    sixtieths: &[u64],
) -> Result<Root, Memory>
    requires known { IsKnown start.now.given.wave.now start.now.given.pairs.now
        start.now.batches.now start.now.cost start.now.duals.now }
    requires pool { IsShortPool start.now.given.wave.now start.now.given.pairs.now pool.now }
    requires answer { IsAnswer pool.now pair.now.weights.items pair.now.duals.items
        pair.now.denominator }
    requires small { pair.now.denominator <ℤ pos (2 ^ 86) }
    requires rounded { AreSixtieths pair.now.duals.items pair.now.denominator sixtieths.now }
    requires below { All (λ dual. dual < 2 ^ 34) sixtieths.now }
    requires feasible { AreFeasible start.now.given.wave.now start.now.given.pairs.now
        sixtieths.now }
    ensures { IfOk result
        (IsNarrowFrom start.now.given.wave.now start.now.given.pairs.now start.now.cost (sum start.now.duals.now)) }
{
    let cover = pool_cover(alloc, start, pool, pair)?;
    let duals = greater(start.duals, sixtieths);
    let root = cover_root(alloc, start, &cover, duals, RootState::Narrow)?;
    Ok(root)
}

/// One round: a pool is solved and its duals, rounded down, are priced. Where no batch has negative slack a narrow
/// bracket comes of it; else such a batch is added to the pool.
pub(crate) fn round<R: Threads + Sync>(
    workers: &Workers<'_, R, OpenGate>,
    start: &KnownWave<'_>,
    pool: &mut Pool,
) -> Result<Option<Root>, Halt>
    requires known { IsKnown start.now.given.wave.now start.now.given.pairs.now
        start.now.batches.now start.now.cost start.now.duals.now }
    requires short { IsShortPool start.now.given.wave.now start.now.given.pairs.now pool.old }
    requires covered { AreCovered pool.old pool.old.orders }
    ensures narrow { IfOk result (λ found. IfSome found
        (IsNarrowFrom start.now.given.wave.now start.now.given.pairs.now start.now.cost (sum start.now.duals.now))) }
    ensures onward { IfOk result (λ found. IfNone found ((made : ℕ)
        → IsRunPool start.now.given.wave.now start.now.given.pairs.now made pool.old
        → IsRunPool start.now.given.wave.now start.now.given.pairs.now (suc made) pool.new)) }
    ensures halt { IfErr result (λ halt. (rounds : ℕ)
        → IsEnd start.now.given.wave.now start.now.given.pairs.now rounds halt) }
{
    let alloc = workers.alloc;
    let pair = solved(alloc, pool)?;
    let sixtieths = rounded_down(alloc, pair.duals.as_slice(), pair.denominator)?;
    match priced(workers, &start.given, &sixtieths)? {
        None => {
            let root = narrow_root(alloc, start, pool, &pair, sixtieths.as_slice())?;
            Ok(Some(root))
        }
        Some(batch) => {
            pool.add(batch, start.given.wave.batch_length(batch))?;
            Ok(None)
        }
    }
}
