ghost use Rattle.std.specs.Prelude.{◌≡◌, ◌+◌, ◌≤◌, ◌<◌, ◌^◌, ◌⊎◌, All, IfNone, IfOk, IfSome, length, vec_len, ℕ};
ghost use Rattle.wp_batch.specs.Joins.{AreKnown, CanJoin, CostNoMore, FitInOne, IsBestBelow, IsBestWith, JoinSaves};
ghost use Rattle.wp_batch.specs.Joins.{NoJoinGains, SavesAtMost};
ghost use Rattle.wp_lengths.specs.Batchings.{IsBatching, IsListedByLeast};
ghost use Rattle.wp_batch.specs.Savings.{AreAlone, AreMerged, CostNoMoreThanSavings, IsBySavings, IsGreatestJoin};
ghost use Rattle.wp_batch.specs.Savings.{IsJoined};

use crate::improve::improve;
use crate::instance::Instance;
use crate::listing::listed;
use crate::seen::SeenLengths;
use crate::starts::best_of_walks;
use std::alloc::Global;
use wp_lengths::{Batching, Wave};
use wp_model::Memory;
use wp_pairs::Batch;

/// Two places of a list of batches, and how much is saved where the two are joined.
#[derive(Clone, Copy)]
struct Join {
    left: usize,
    right: usize,
    saving: u64,
}

// What is saved where two batches are joined, 0 where they don't fit into one.
fn saving_of(instance: &Instance<'_>, left: Batch, right: Batch) -> u64
    requires left { All (λ order. order < length instance.now.wave.now.orders) left }
    requires right { All (λ order. order < length instance.now.wave.now.orders) right }
    ensures fits { 0 < result → FitInOne instance.now.wave.now instance.now.capacity left right }
    ensures most { SavesAtMost instance.now.wave.now instance.now.capacity left right result }
    ensures saves { 0 < result → JoinSaves instance.now.wave.now left right result }
{
    if !instance.fit_in_one(left, right) {
        return 0;
    }
    let wave = instance.wave;
    let one = wave.batch_length(left);
    let other = wave.batch_length(right);
    saved(one, other, wave.batch_length(left.union(right)))
}

// How much less one length is than two others together, 0 where it isn't less.
fn saved(one: u64, other: u64, both: u64) -> u64
    requires one { one < 2 ^ 28 }
    requires other { other < 2 ^ 28 }
    ensures most { one + other ≤ both + result }
    ensures some { 0 < result → one + other ≡ both + result }
{
    (one + other).saturating_sub(both)
}

// The join of the greater saving, the first one among equals.
fn better_of(first: Join, second: Join) -> Join
    ensures either { (result ≡ first) ⊎ (result ≡ second) }
    ensures first { first.saving ≤ result.saving }
    ensures second { second.saving ≤ result.saving }
{
    if first.saving < second.saving {
        return second;
    }
    first
}

// The best join of a batch with one before it.
fn best_with(instance: &Instance<'_>, batches: &[Batch], right: usize) -> Join
    requires known { AreKnown instance.now.wave.now batches.now }
    requires within { right < length batches.now }
    ensures { IsBestWith instance.now.wave.now instance.now.capacity batches.now right right
        result }
{
    let mut best = Join {
        left: 0,
        right: 0,
        saving: 0,
    };
    for left in 0..right {
        let saving = saving_of(instance, batches[left], batches[right]);
        best = better_of(
            best,
            Join {
                left,
                right,
                saving,
            },
        );
    }
    best
}

// The join of two batches that saves most. None comes exactly where no two gain by joining.
fn best_join(instance: &Instance<'_>, batches: &[Batch]) -> Option<Join>
    requires { AreKnown instance.now.wave.now batches.now }
    ensures none { IfNone result (NoJoinGains instance.now.wave.now instance.now.capacity
        batches.now) }
    ensures some { IfSome result (IsGreatestJoin instance.now.wave.now instance.now.capacity
        batches.now) }
{
    let mut best = Join {
        left: 0,
        right: 0,
        saving: 0,
    };
    for right in 0..batches.len() {
        best = better_of(best, best_with(instance, batches, right));
    }
    if best.saving == 0 {
        return None;
    }
    Some(best)
}

// Joins two batches: the later one goes into the earlier.
fn join_batches(instance: &Instance<'_>, batches: &mut Vec<Batch>, join: Join)
    requires batching { IsBatching instance.now.wave.now instance.now.capacity batches.old.items }
    requires listed { IsListedByLeast batches.old.items }
    requires join { CanJoin instance.now.wave.now instance.now.capacity batches.old.items join }
    ensures batching { IsBatching instance.now.wave.now instance.now.capacity batches.new.items }
    ensures listed { IsListedByLeast batches.new.items }
    ensures count { vec_len batches.new + 1 ≡ vec_len batches.old }
    ensures joined { IsJoined batches.old.items join batches.new.items }
    ensures no_dearer { CostNoMore instance.now.wave.now batches.old.items batches.new.items }
{
    let union = batches[join.left].union(batches[join.right]);
    batches[join.left] = union;
    batches.remove(join.right);
}

/// Joins batches by the greatest saving, until no join saves.
pub fn merge(instance: &Instance<'_>, batches: &mut Vec<Batch>)
    requires batching { IsBatching instance.now.wave.now instance.now.capacity batches.old.items }
    requires listed { IsListedByLeast batches.old.items }
    ensures batching { IsBatching instance.now.wave.now instance.now.capacity batches.new.items }
    ensures listed { IsListedByLeast batches.new.items }
    ensures joined { NoJoinGains instance.now.wave.now instance.now.capacity batches.new.items }
    ensures fewer { vec_len batches.new ≤ vec_len batches.old }
    ensures merged { AreMerged instance.now.wave.now instance.now.capacity batches.old.items
        batches.new.items }
    ensures no_dearer { CostNoMore instance.now.wave.now batches.old.items batches.new.items }
{
    while let Some(join) = best_join(instance, batches.as_slice()) {
        join_batches(instance, batches, join);
    }
}

// Each order by itself.
fn singles(alloc: Global, instance: &Instance<'_>) -> Result<Vec<Batch>, Memory>
    requires { 1 ≤ instance.now.capacity }
    ensures batching { IfOk result (λ batches.
        IsBatching instance.now.wave.now instance.now.capacity batches.items) }
    ensures listed { IfOk result (λ batches. IsListedByLeast batches.items) }
    ensures count { IfOk result (λ batches. vec_len batches ≡ length instance.now.wave.now.orders) }
    ensures alone { IfOk result (λ batches. AreAlone
        (length instance.now.wave.now.orders) batches.items) }
{
    let mut batches = Vec::new(alloc);
    for order in 0..instance.wave.orders() {
        batches.push(Batch::empty().with(order))?;
    }
    Ok(batches)
}

/// A batching of a wave that costs no more than another one, in which no two batches that fit into one cost less as
/// one: as long as some join saves, the join of the greatest saving is made. Batches are listed by their least orders.
pub fn joined(
    alloc: Global,
    wave: &Wave,
    capacity: u32,
    batches: &[Batch],
) -> Result<Batching, Memory>
    requires some { 1 ≤ capacity }
    requires most { capacity ≤ 8 }
    requires batching { IsBatching wave.now capacity batches.now }
    ensures batching { IfOk result (IsBatching wave.now capacity) }
    ensures listed { IfOk result IsListedByLeast }
    ensures joined { IfOk result (NoJoinGains wave.now capacity) }
    ensures no_dearer { IfOk result (CostNoMore wave.now batches.now) }
{
    let instance = Instance { wave, capacity };
    let mut start = listed(alloc, &instance, batches)?;
    merge(&instance, &mut start);
    Ok(Batching::of(start))
}

// The batching by savings: orders that begin alone are joined by the greatest saving, as long as some join saves
// (Clarke and Wright, 1964).
fn savings(alloc: Global, instance: &Instance<'_>) -> Result<Vec<Batch>, Memory>
    requires { 1 ≤ instance.now.capacity }
    ensures batching { IfOk result (λ batches.
        IsBatching instance.now.wave.now instance.now.capacity batches.items) }
    ensures savings { IfOk result (λ batches.
        IsBySavings instance.now.wave.now instance.now.capacity batches.items) }
{
    let mut batches = singles(alloc, instance)?;
    merge(instance, &mut batches);
    Ok(batches)
}

/// A batching of a wave's orders with at most so many in each batch, 1 to 8, in which no two batches that fit into one
/// cost less as one. Batches are listed by their least orders. It costs no more than a batching by savings, in which
/// orders that begin alone are joined by the greatest saving, as long as some join saves (Clarke and Wright, 1964).
/// From there moves between two batches are drawn in one round, in the same way on every call, and the cheapest
/// batching that they come past is improved by moves and joins that save.
pub fn merged_start(alloc: Global, wave: &Wave, capacity: u32) -> Result<Batching, Memory>
    requires some { 1 ≤ capacity }
    requires most { capacity ≤ 8 }
    ensures batching { IfOk result (IsBatching wave.now capacity) }
    ensures listed { IfOk result IsListedByLeast }
    ensures joined { IfOk result (NoJoinGains wave.now capacity) }
    ensures no_dearer { IfOk result (CostNoMoreThanSavings wave.now capacity) }
{
    start_after(alloc, wave, capacity, 1)
}

/// The batching of a wave to which batches of a batching lead by moves between two of them, and joins, that save: it
/// costs no more than they do. Batches are listed by their least orders, and no two that fit into one cost less as one.
pub fn improved(
    alloc: Global,
    wave: &Wave,
    capacity: u32,
    batches: &[Batch],
) -> Result<Batching, Memory>
    requires some { 1 ≤ capacity }
    requires most { capacity ≤ 8 }
    requires batching { IsBatching wave.now capacity batches.now }
    ensures batching { IfOk result (IsBatching wave.now capacity) }
    ensures listed { IfOk result IsListedByLeast }
    ensures joined { IfOk result (NoJoinGains wave.now capacity) }
    ensures no_dearer { IfOk result (CostNoMore wave.now batches.now) }
{
    let instance = Instance { wave, capacity };
    let mut better = Vec::from_slice(alloc, batches)?;
    let seen = SeenLengths::of(alloc, wave, capacity)?;
    improve(seen, &instance, &mut better);
    let joined = joined(alloc, wave, capacity, better.as_slice())?;
    Ok(joined)
}

/// Such a start as `merged_start` gives, but that moves are drawn in so many rounds.
pub fn start_after(
    alloc: Global,
    wave: &Wave,
    capacity: u32,
    rounds: u32,
) -> Result<Batching, Memory>
    requires some { 1 ≤ capacity }
    requires most { capacity ≤ 8 }
    ensures batching { IfOk result (IsBatching wave.now capacity) }
    ensures listed { IfOk result IsListedByLeast }
    ensures joined { IfOk result (NoJoinGains wave.now capacity) }
    ensures no_dearer { IfOk result (CostNoMoreThanSavings wave.now capacity) }
{
    let instance = Instance { wave, capacity };
    let batches = savings(alloc, &instance)?;
    let best = best_of_walks(alloc, &instance, rounds, batches.as_slice())?;
    let start = improved(alloc, wave, capacity, best.as_slice())?;
    Ok(start)
}
