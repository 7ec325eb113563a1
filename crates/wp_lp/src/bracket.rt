ghost use Rattle.std.specs.Prelude.{◌≡◌, ◌⊎◌, ◌≤◌, ◌<◌, ◌^◌, ℕ, List, All, IfOk, IfErr, IfSome, length, pos, sum, ℤ};
ghost use Rattle.std.specs.Prelude.{◌*ℤ◌, ◌≤ℤ◌};
ghost use Rattle.wp_lp.specs.Covers.{AreFeasibleOver, IsBelowCovers, IsFractionalCover, IsLinearBound};
ghost use Rattle.wp_lp.specs.Covers.{IsWeightedLength, pairs_of, sum_of_duals};
ghost use Rattle.wp_lengths.specs.Batchings.{IsBatching, IsCost};
ghost use Rattle.wp_lengths.specs.Duals.{AreFeasible, AreShares};
ghost use Rattle.wp_lengths.specs.Waves.{WavePicks};
ghost use Rattle.wp_pairs.specs.Permitted.{Pairing};
ghost use Rattle.wp_lp.specs.Knowns.{AreSound, IsBracketFrom, IsKnown, IsRootFrom, IsWithin, IsWithinStart, Reaches};
ghost use Rattle.wp_lp.specs.Knowns.{ReachesShares};
ghost use Rattle.wp_lp.specs.Roots.{IsCauseOf, IsRoot};
ghost use Rattle.wp_lp.specs.Rounds.{IsEnd};
ghost use Rattle.wp_lp.specs.Runs.{HasPermitted};
ghost use Rattle.wp_lp.specs.declared.root.RootState.TheVariants as state;

use crate::cover::{cover_root, known_cover};
use crate::halt::Halt;
use crate::known::{Known, KnownWave, are_small};
use crate::open_wave::{OpenWave, pairs_for};
use crate::root::{Root, RootState};
use crate::round::round;
use crate::sixtieths::share_values;
use crate::start::{batching_cost, start_pool};
use crate::wide::widened;
use std::alloc::Global;
use std::thread::Threads;
use wp_batch::merged_start;
use wp_lengths::{Wave, total_of};
use wp_model::Memory;
use wp_outside::OpenGate;
use wp_pairs::Capacity;
use wp_price::Workers;

// Rounds from the pool of the batching that is known on, at most so many, until the bracket is narrow; and then as many
// wide ones.
fn searched<R: Threads + Sync>(
    workers: &Workers<'_, R, OpenGate>,
    start: &KnownWave<'_>,
    rounds: u64,
) -> Result<Root, Halt>
    requires known { IsKnown start.now.given.wave.now start.now.given.pairs.now
        start.now.batches.now start.now.cost start.now.duals.now }
    ensures root { IfOk result (IsRootFrom start.now.given.wave.now start.now.given.pairs.now rounds
        start.now.cost (sum start.now.duals.now)) }
    ensures halt { IfErr result (IsEnd start.now.given.wave.now start.now.given.pairs.now rounds) }
{
    let mut pool = start_pool(workers.alloc, &start.given, start.batches)?;
    for _made in 0..rounds {
        if let Some(root) = round(workers, start, &mut pool)? {
            return Ok(root);
        }
    }
    widened(workers, start, &mut pool, rounds)
}

// The bracket of what is known.
fn known_root(alloc: Global, start: &KnownWave<'_>, state: RootState) -> Result<Root, Memory>
    requires known { IsKnown start.now.given.wave.now start.now.given.pairs.now
        start.now.batches.now start.now.cost start.now.duals.now }
    ensures { IfOk result
        (IsBracketFrom start.now.given.wave.now start.now.given.pairs.now start.now.cost
        (sum start.now.duals.now) state) }
{
    let cover = known_cover(alloc, start)?;
    cover_root(alloc, start, &cover, start.duals, state)
}

// The bracket of a wave of which something is known.
fn bracket<R: Threads + Sync>(
    workers: &Workers<'_, R, OpenGate>,
    start: &KnownWave<'_>,
    rounds: u64,
) -> Result<Root, Memory>
    requires known { IsKnown start.now.given.wave.now start.now.given.pairs.now
        start.now.batches.now start.now.cost start.now.duals.now }
    ensures root { IfOk result (IsRoot start.now.given.wave.now start.now.given.pairs.now rounds) }
    ensures reaches { IfOk result (Reaches (sum start.now.duals.now)) }
    ensures within { IfOk result (IsWithin start.now.cost) }
{
    match searched(workers, start, rounds) {
        Ok(root) => Ok(root),
        Err(Halt::Memory) => Err(Memory),
        Err(Halt::NoCover(_)) => unreachable!(),
        Err(Halt::Ended(state)) => known_root(workers.alloc, start, state),
    }
}

// The share duals, which are feasible.
fn sound_shares(alloc: Global, given: &OpenWave<'_>) -> Result<Vec<u64>, Memory>
    ensures are { IfOk result (λ shares. AreShares given.now.wave.now given.now.pairs.now.capacity
        shares.items) }
    ensures sound { IfOk result (λ shares. AreSound given.now.wave.now given.now.pairs.now
        shares.items) }
{
    let capacity = Capacity {
        most: given.pairs.capacity(),
    };
    let shares = share_values(alloc, given.wave, capacity)?;
    Ok(shares)
}

// Duals that are known, where each is below 2 ^ 34 and they come to no less than the share duals, or else these.
fn best_of<'a>(known: &'a [u64], shares: &'a [u64]) -> &'a [u64]
    ensures either { ((result.now ≡ known.now) × All (λ dual. dual < 2 ^ 34) known.now)
        ⊎ (result.now ≡ shares.now) }
    ensures known { All (λ dual. dual < 2 ^ 34) known.now → sum known.now ≤ sum result.now }
    ensures shares { sum shares.now ≤ sum result.now }
{
    if !are_small(known) || total_of(known) < total_of(shares) {
        shares
    } else {
        known
    }
}

// The duals with which a bracket begins: those that are known, if there are some, or the share duals where they come to
// more.
fn best_known<'a>(known: Option<&'a [u64]>, shares: &'a [u64]) -> &'a [u64]
    ensures sound { (wave : WavePicks) (pairing : Pairing)
        → IfSome known.entry (λ duals. AreFeasible wave pairing duals.now)
        → IfSome known.entry (λ duals. length duals.now ≡ length wave.orders) → AreSound wave pairing shares.now
        → AreSound wave pairing result.now }
    ensures known { IfSome known.entry (λ duals. All (λ dual. dual < 2 ^ 34) duals.now
        → sum duals.now ≤ sum result.now) }
    ensures shares { sum shares.now ≤ sum result.now }
{
    match known {
        Some(duals) => best_of(duals, shares),
        None => shares,
    }
}

/// A bracket of a wave's linear bound for a capacity, 1 to 8: a fractional cover and feasible duals over one
/// denominator. Each fractional cover costs at least `low` over the denominator, and the one that is given costs `high`
/// over it. It begins with a batching and feasible duals that are known, and is no wider than they are. The batches are
/// solved as a linear program; its duals, rounded down to sixtieths, are priced, and batches of negative slack are
/// added one by one, in at most so many rounds (Gilmore and Gomory, 1961). As many wide rounds follow, which add one
/// for each order; the duals are scaled down till they are feasible (Farley, 1990). The state says whether the bracket
/// is narrow, or else what ended the search. The answer doesn't depend on the workers. `Memory` comes only where memory
/// is wanting.
pub fn root_after<R: Threads + Sync>(
    workers: &Workers<'_, R, OpenGate>,
    wave: &Wave,
    capacity: u32,
    rounds: u64,
    known: &Known<'_>,
) -> Result<Root, Memory>
    requires some { 1 ≤ capacity }
    requires most { capacity ≤ 8 }
    requires batching { IsBatching wave.now capacity known.now.batches.now }
    requires cost { IsCost wave.now known.now.batches.now known.now.cost }
    requires feasible { IfSome known.now.duals
        (λ duals. AreFeasible wave.now (pairs_of wave.now capacity) duals.now) }
    requires count { IfSome known.now.duals (λ duals. length duals.now ≡ length wave.now.orders) }
    ensures cover { IfOk result (λ root.
        IsFractionalCover wave.now (pairs_of wave.now capacity) root.batches.items root.weights.items
        root.denominator) }
    ensures feasible { IfOk result (λ root. AreFeasibleOver wave.now
        (pairs_of wave.now capacity) root.duals.items root.denominator) }
    ensures low { IfOk result (λ root. root.low
        ≡ sum_of_duals (length wave.now.orders) root.duals.items) }
    ensures high { IfOk result (λ root. IsWeightedLength wave.now root.batches.items
        root.weights.items root.high) }
    ensures low_not_below { IfOk result (λ root. pos 0 ≤ℤ root.low) }
    ensures high_not_below { IfOk result (λ root. pos 0 ≤ℤ root.high) }
    ensures below { IfOk result (λ root. IsBelowCovers wave.now
        (pairs_of wave.now capacity) root.low root.denominator) }
    ensures above { IfOk result (λ root. (cost denominator : ℤ)
        → IsLinearBound wave.now (pairs_of wave.now capacity) cost denominator
        → (cost *ℤ root.denominator) ≤ℤ (root.high *ℤ denominator)) }
    ensures cause { IfOk result (λ root.
        IsCauseOf wave.now (pairs_of wave.now capacity) rounds root.low root.high root.denominator root.state) }
    ensures few { IfOk result (λ root. (made : ℕ) (all : List (List ℕ)) → root.state
        ≡ state.Rounds made
        → HasPermitted (pairs_of wave.now capacity) all → made < length all) }
    ensures no_lower { IfOk result (λ root. IfSome known.now.duals (λ duals.
        All (λ dual. dual < 2 ^ 34) duals.now → Reaches (sum duals.now) root)) }
    ensures no_higher { IfOk result (IsWithin known.now.cost) }
    ensures shares { IfOk result (ReachesShares wave.now capacity) }
{
    let pairs = pairs_for(wave, capacity);
    let given = OpenWave {
        wave,
        pairs: &pairs,
    };
    let shares = sound_shares(workers.alloc, &given)?;
    let start = KnownWave {
        given,
        batches: known.batches,
        cost: known.cost,
        duals: best_known(known.duals, shares.as_slice()),
    };
    bracket(workers, &start, rounds)
}

// The bracket of a wave, which begins with the batching of a start and the share duals.
fn root_from_start<R: Threads + Sync>(
    workers: &Workers<'_, R, OpenGate>,
    wave: &Wave,
    capacity: u32,
    rounds: u64,
) -> Result<Root, Memory>
    requires some { 1 ≤ capacity }
    requires most { capacity ≤ 8 }
    ensures some_orders { 1 ≤ length wave.now.orders }
    ensures root { IfOk result (IsRoot wave.now (pairs_of wave.now capacity) rounds) }
    ensures shares { IfOk result (ReachesShares wave.now capacity) }
    ensures start { IfOk result (IsWithinStart wave.now capacity) }
{
    let alloc = workers.alloc;
    let pairs = pairs_for(wave, capacity);
    let given = OpenWave {
        wave,
        pairs: &pairs,
    };
    let batching = merged_start(alloc, wave, capacity)?;
    let cost = batching_cost(alloc, &given, batching.as_slice())?;
    let shares = sound_shares(alloc, &given)?;
    let start = KnownWave {
        given,
        batches: batching.as_slice(),
        cost,
        duals: shares.as_slice(),
    };
    bracket(workers, &start, rounds)
}

/// A bracket of a wave's linear bound, as `root_after` gives it, by 1 to 16 workers. It begins with a first batching
/// and the share duals.
pub fn root_pair<R: Threads + Sync>(
    rt: &R,
    alloc: Global,
    wave: &Wave,
    capacity: u32,
    rounds: u64,
    workers: u32,
) -> Result<Root, Memory>
    requires some { 1 ≤ capacity }
    requires most { capacity ≤ 8 }
    requires some_workers { 1 ≤ workers }
    requires most_workers { workers ≤ 16 }
    ensures cover { IfOk result (λ root.
        IsFractionalCover wave.now (pairs_of wave.now capacity) root.batches.items root.weights.items
        root.denominator) }
    ensures feasible { IfOk result (λ root. AreFeasibleOver wave.now
        (pairs_of wave.now capacity) root.duals.items root.denominator) }
    ensures low { IfOk result (λ root. root.low
        ≡ sum_of_duals (length wave.now.orders) root.duals.items) }
    ensures high { IfOk result (λ root. IsWeightedLength wave.now root.batches.items
        root.weights.items root.high) }
    ensures low_not_below { IfOk result (λ root. pos 0 ≤ℤ root.low) }
    ensures high_not_below { IfOk result (λ root. pos 0 ≤ℤ root.high) }
    ensures below { IfOk result (λ root. IsBelowCovers wave.now
        (pairs_of wave.now capacity) root.low root.denominator) }
    ensures above { IfOk result (λ root. (cost denominator : ℤ)
        → IsLinearBound wave.now (pairs_of wave.now capacity) cost denominator
        → (cost *ℤ root.denominator) ≤ℤ (root.high *ℤ denominator)) }
    ensures cause { IfOk result (λ root.
        IsCauseOf wave.now (pairs_of wave.now capacity) rounds root.low root.high root.denominator root.state) }
    ensures few { IfOk result (λ root. (made : ℕ) (all : List (List ℕ)) → root.state
        ≡ state.Rounds made
        → HasPermitted (pairs_of wave.now capacity) all → made < length all) }
    ensures shares { IfOk result (ReachesShares wave.now capacity) }
    ensures start { IfOk result (IsWithinStart wave.now capacity) }
{
    let workers = Workers {
        rt,
        alloc,
        number: workers,
        gate: &OpenGate,
    };
    root_from_start(&workers, wave, capacity, rounds)
}
