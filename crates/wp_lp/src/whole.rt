//! Whole numbers that aren't below 0, and the bracket that is made of them.
ghost use Rattle.std.specs.Prelude.{◌≡◌, ◌*◌, ◌<◌, ◌≤◌, ◌^◌, All, IfOk, length, map, pos, sum, ◌≤ℤ◌};
ghost use Rattle.wp_lp.specs.Parts.{IsRootOf, cost_of};
ghost use Rattle.wp_lp.specs.declared.part.WeightedBatch.{WeightedBatch as PartData};

use crate::part::WeightedBatch;
use crate::root::{Root, RootState};
use std::alloc::Global;
use wp_lengths::total_of;
use wp_model::Memory;
use wp_pairs::Batch;

/// A number that isn't below 0, as a natural number.
pub(crate) fn natural(value: i128) -> u128
    requires { pos 0 ≤ℤ value }
    ensures { pos result ≡ value }
{
    value as u128
}

// A natural number below 2 ^ 127, as a whole number.
fn whole(value: u128) -> i128
    requires { value < 2 ^ 127 }
    ensures { result ≡ pos value }
{
    value as i128
}

// The batches of parts.
fn batches_of(alloc: Global, parts: &[WeightedBatch]) -> Result<Vec<Batch>, Memory>
    ensures { IfOk result (λ batches. batches.items
        ≡ map (λ (part : PartData). part.batch) parts.now) }
{
    let mut batches = Vec::new(alloc);
    for part in parts {
        batches.push(part.batch)?;
    }
    Ok(batches)
}

// The weights of parts.
fn weights_of(alloc: Global, parts: &[WeightedBatch]) -> Result<Vec<i128>, Memory>
    requires { All (λ (part : PartData). part.weight < 2 ^ 127) parts.now }
    ensures { IfOk result (λ weights. weights.items
        ≡ map (λ (part : PartData). pos part.weight) parts.now) }
{
    let mut weights = Vec::new(alloc);
    for part in parts {
        weights.push(whole(part.weight))?;
    }
    Ok(weights)
}

/// What the weights of parts come to, each times its length.
pub(crate) fn high_of(parts: &[WeightedBatch]) -> u128
    requires { cost_of parts.now < 2 ^ 127 }
    ensures { result ≡ cost_of parts.now }
{
    let mut cost = 0;
    for part in parts {
        cost += part.weight * u128::from(part.length);
    }
    cost
}

// Duals in sixtieths, times a number.
fn duals_of(alloc: Global, sixtieths: &[u64], over: u128) -> Result<Vec<i128>, Memory>
    requires small { All (λ dual. dual < 2 ^ 34) sixtieths.now }
    requires over { over < 2 ^ 86 }
    ensures { IfOk result (λ duals. duals.items ≡ map (λ dual. pos (dual * over)) sixtieths.now) }
{
    let mut duals = Vec::new(alloc);
    for sixtieth in sixtieths {
        duals.push(whole(u128::from(*sixtieth) * over))?;
    }
    Ok(duals)
}

/// The sum of duals in sixtieths, times a number.
pub(crate) fn low_of(sixtieths: &[u64], over: u128) -> u128
    requires count { length sixtieths.now ≤ 64 }
    requires small { All (λ dual. dual < 2 ^ 34) sixtieths.now }
    requires over { over < 2 ^ 86 }
    ensures is { result ≡ sum sixtieths.now * over }
    ensures small { result < 2 ^ 127 }
{
    total_of(sixtieths) * over
}

/// The bracket of parts and of duals in sixtieths, over 60 times a number.
pub(crate) fn root_of(
    alloc: Global,
    parts: &[WeightedBatch],
    sixtieths: &[u64],
    over: u128,
    state: RootState,
) -> Result<Root, Memory>
    requires weights { All (λ (part : PartData). part.weight < 2 ^ 127) parts.now }
    requires cost { cost_of parts.now < 2 ^ 127 }
    requires count { length sixtieths.now ≤ 64 }
    requires small { All (λ dual. dual < 2 ^ 34) sixtieths.now }
    requires over { over < 2 ^ 86 }
    ensures { IfOk result (IsRootOf parts.now sixtieths.now over state) }
{
    let batches = batches_of(alloc, parts)?;
    let weights = weights_of(alloc, parts)?;
    Ok(Root {
        batches,
        weights,
        duals: duals_of(alloc, sixtieths, over)?,
        denominator: whole(60 * over),
        low: whole(low_of(sixtieths, over)),
        high: whole(high_of(parts)),
        state,
    })
}
