ghost use Rattle.std.specs.Prelude.{◌≡◌, ◌<◌, ◌≤◌, ◌⊎◌, IfOk, length};
ghost use Rattle.wp_lengths.specs.Batchings.{IsBatching};
ghost use Rattle.wp_batch.specs.Joins.{AreKnown, CostLess, CostNoMore, TellsCost};
ghost use Rattle.wp_batch.specs.Walks.{IsWalk};

use crate::instance::Instance;
use crate::last_places::LastPlaces;
use crate::listing::listed;
use crate::merge::merge;
use crate::near::Nearness;
use crate::seen::{SeenLengths, length_within};
use crate::walk::{Mover, Walk};
use std::alloc::Global;
use wp_draws::Draws;
use wp_lengths::Wave;
use wp_model::Memory;
use wp_pairs::Batch;

/// How many stages a round has. The heat falls from stage to stage.
const STAGES: u32 = 32;

/// How many moves are drawn in a stage for each order.
const MOVES: u32 = 100;

/// Which part of the mean length of the orders' tours the heat is in the first stage of a round: the mean of what a
/// move may cost more.
const HEAT_PART: u64 = 18;

/// In how many steps the heat falls to nothing in the last stages of a round.
const HEAT_STEPS: u64 = 20;

/// The state from which moves are drawn.
const FIRST_STATE: u64 = 1;

// The sum of the lengths of the batches, as far as a word of 64 bits goes.
fn cost_of(wave: &Wave, batches: &[Batch]) -> u64
    requires { AreKnown wave.now batches.now }
    ensures { TellsCost wave.now batches.now result }
{
    let mut sum: u64 = 0;
    for batch in batches {
        sum = sum.saturating_add(wave.batch_length(*batch));
    }
    sum
}

// The heat in a stage of a round, in thousandths of a unit of length, where the orders' tours have this mean length.
fn heat_in(mean: u64, stage: u32) -> u64 {
    let first = mean.saturating_mul(1_000) / HEAT_PART;
    let steps = HEAT_STEPS * u64::from(STAGES.saturating_sub(stage)) / u64::from(STAGES);
    first.saturating_mul(steps) / HEAT_STEPS
}

// What moves are drawn and weighed with, at first.
fn mover_of<'a>(alloc: Global, instance: &Instance<'a>) -> Result<Mover<'a>, Memory> {
    let mut seen = SeenLengths::of(alloc, instance.wave, instance.capacity)?;
    let nearness = Nearness::of(alloc, &mut seen, instance.wave.orders())?;
    Ok(Mover {
        seen,
        nearness,
        draws: Draws::from_state(FIRST_STATE),
        found: LastPlaces::none(),
    })
}

// The lengths of the tours of single orders, the shortest first.
fn lengths_alone(alloc: Global, wave: &Wave) -> Result<Vec<u64>, Memory> {
    let mut lengths = Vec::new(alloc);
    for order in 0..wave.orders().min(64) {
        lengths.push(length_within(wave, Batch::empty().with(order)))?;
    }
    lengths.sort()?;
    Ok(lengths)
}

// What no batching costs less than. A batch is no shorter than the tour of any of its orders. So the batches are
// together no shorter than the longest tour of one order, the longest of those that are left where a batch has as many
// as it may, and so on.
fn cost_at_least(alloc: Global, instance: &Instance<'_>) -> Result<u64, Memory> {
    let lengths = lengths_alone(alloc, instance.wave)?;
    let mut sum: u64 = 0;
    for (place, length) in lengths.iter().rev().enumerate() {
        if (place as u64).checked_rem(u64::from(instance.capacity)) == Some(0) {
            sum = sum.saturating_add(*length);
        }
    }
    Ok(sum)
}

// After how many rounds in vain, one after the other, no further one is walked: the more, the more orders a batch may
// have.
fn most_in_vain(instance: &Instance<'_>) -> u32 {
    instance.capacity.saturating_add(1)
}

// The batches of a walk once more, but that those are joined of which two together cost less.
fn joined_again(
    alloc: Global,
    instance: &Instance<'_>,
    batches: &[Batch],
) -> Result<Vec<Batch>, Memory>
    requires { IsBatching instance.now.wave.now instance.now.capacity batches.now }
    ensures { IfOk result (λ again. IsBatching instance.now.wave.now instance.now.capacity
        again.items) }
{
    let mut again = listed(alloc, instance, batches)?;
    merge(instance, &mut again);
    Ok(again)
}

// A walk of one stage from some batches on.
fn walk_from(
    alloc: Global,
    instance: &Instance<'_>,
    mover: &mut Mover<'_>,
    batches: &[Batch],
    stage: u32,
) -> Result<Walk, Memory>
    requires { IsBatching instance.now.wave.now instance.now.capacity batches.now }
    ensures { IfOk result (IsWalk instance.now.wave.now instance.now.capacity) }
{
    let start = joined_again(alloc, instance, batches)?;
    let mut walk = Walk::from(alloc, instance, &mut mover.seen, start)?;
    let moves = MOVES * instance.wave.orders();
    let heat = heat_in(mover.nearness.mean(), stage);
    mover.walk_on(instance, &mut walk, heat, moves);
    Ok(walk)
}

// The cheapest batching that a walk comes past in one round: stage by stage, and joined in between.
fn best_of_round(
    alloc: Global,
    instance: &Instance<'_>,
    mover: &mut Mover<'_>,
    batches: &[Batch],
) -> Result<Vec<Batch>, Memory>
    requires { IsBatching instance.now.wave.now instance.now.capacity batches.now }
    ensures { IfOk result (λ best. IsBatching instance.now.wave.now instance.now.capacity
        best.items) }
{
    let mut best = Vec::from_slice(alloc, batches)?;
    let mut at = Vec::from_slice(alloc, batches)?;
    let mut least = u64::MAX;
    for stage in 0..STAGES {
        let walk = walk_from(alloc, instance, mover, at.as_slice(), stage)?;
        at = walk.batches;
        if walk.least < least {
            least = walk.least;
            best = walk.best;
        }
    }
    Ok(best)
}

/// The cheapest of some batches and of those that a walk comes past, in so many rounds: simulated annealing
/// (Kirkpatrick, Gelatt and Vecchi, 1983), each round from the best so far on. No further one is walked after one round
/// in vain more, in a row, than a batch may have orders. The batches stay where none is cheaper, and no round is walked
/// where the lengths of single orders show that. The draws are the same on every call.
pub fn best_of_walks(
    alloc: Global,
    instance: &Instance<'_>,
    rounds: u32,
    batches: &[Batch],
) -> Result<Vec<Batch>, Memory>
    requires batching { IsBatching instance.now.wave.now instance.now.capacity batches.now }
    ensures batching { IfOk result (λ best. IsBatching instance.now.wave.now instance.now.capacity
        best.items) }
    ensures kept { IfOk result (λ best. (best.items ≡ batches.now)
        ⊎ CostLess instance.now.wave.now batches.now best.items) }
    ensures no_dearer { IfOk result (λ best.
        CostNoMore instance.now.wave.now batches.now best.items) }
{
    let mut best = Vec::from_slice(alloc, batches)?;
    let mut least = cost_of(instance.wave, best.as_slice());
    if least <= cost_at_least(alloc, instance)? {
        return Ok(best);
    }
    let mut mover = mover_of(alloc, instance)?;
    let mut left = most_in_vain(instance);
    for _ in 0..rounds {
        if left == 0 {
            return Ok(best);
        }
        let other = best_of_round(alloc, instance, &mut mover, best.as_slice())?;
        let total = cost_of(instance.wave, other.as_slice());
        left -= 1;
        if total < least {
            least = total;
            best = other;
            left = most_in_vain(instance);
        }
    }
    Ok(best)
}
