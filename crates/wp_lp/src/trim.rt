//! Batches of a cover are made smaller, until each order has exactly the weight that it is to have.
ghost use Rattle.std.specs.Prelude.{◌≡◌, ◌≤◌, ◌<◌, All, IfOk, length};
ghost use Rattle.wp_lp.specs.Parts.{AreEnough, AreExact, IsAdded, IsCut, IsWeightedBatch, IsTrimmed, IsTrimmedTo};
ghost use Rattle.wp_lp.specs.Parts.{cost_of};
ghost use Rattle.wp_lp.specs.Parts.{cover_of};

use crate::open_wave::OpenWave;
use crate::part::WeightedBatch;
use std::alloc::Global;
use wp_model::Memory;

// Puts a part behind others, where it has some weight and some order.
fn add_part(parts: &mut Vec<WeightedBatch>, part: WeightedBatch) -> Result<(), Memory>
    ensures { IfOk result (λ _. IsAdded part parts.old.items parts.new.items) }
{
    if 0 < part.weight && 0 < part.batch.len() {
        parts.push(part)?;
    }
    Ok(())
}

// Puts a part behind others without an order, with so much of its weight.
fn add_without(
    given: &OpenWave<'_>,
    part: &WeightedBatch,
    order: u32,
    weight: u128,
    parts: &mut Vec<WeightedBatch>,
) -> Result<(), Memory>
    requires known { order < 64 }
    requires part { IsWeightedBatch given.now.wave.now given.now.pairs.now part.now }
    ensures trimmed { IfOk result (λ _. IsCut part.now order weight parts.old.items
        parts.new.items) }
    ensures each { IfOk result (λ _. All (IsWeightedBatch given.now.wave.now given.now.pairs.now)
        parts.old.items
        → All (IsWeightedBatch given.now.wave.now given.now.pairs.now) parts.new.items) }
{
    let batch = part.batch.without(order);
    let length = given.wave.batch_length(batch);
    add_part(
        parts,
        WeightedBatch {
            batch,
            length,
            weight,
        },
    )
}

// Puts a part behind others, with an order in it as far as so much is left for the order, and gives what is left then.
fn trim_part(
    given: &OpenWave<'_>,
    part: &WeightedBatch,
    order: u32,
    left: u128,
    parts: &mut Vec<WeightedBatch>,
) -> Result<u128, Memory>
    requires known { order < 64 }
    requires part { IsWeightedBatch given.now.wave.now given.now.pairs.now part.now }
    ensures trimmed { IfOk result (λ rest. IsTrimmed part.now order left rest parts.old.items
        parts.new.items) }
    ensures each { IfOk result (λ _. All (IsWeightedBatch given.now.wave.now given.now.pairs.now)
        parts.old.items
        → All (IsWeightedBatch given.now.wave.now given.now.pairs.now) parts.new.items) }
{
    if !part.batch.has(order) {
        add_part(parts, *part)?;
        return Ok(left);
    }
    let kept = part.weight.min(left);
    add_part(
        parts,
        WeightedBatch {
            batch: part.batch,
            length: part.length,
            weight: kept,
        },
    )?;
    add_without(given, part, order, part.weight - kept, parts)?;
    Ok(left - kept)
}

// Takes an order out of batches, as far as it has more than a whole weight.
fn trim_order(
    alloc: Global,
    given: &OpenWave<'_>,
    order: u32,
    whole: u128,
    parts: &[WeightedBatch],
) -> Result<Vec<WeightedBatch>, Memory>
    requires known { order < 64 }
    requires enough { whole ≤ cover_of parts.now order }
    requires each { All (IsWeightedBatch given.now.wave.now given.now.pairs.now) parts.now }
    ensures trimmed { IfOk result (λ trimmed. IsTrimmedTo order whole parts.now trimmed.items) }
    ensures each { IfOk result (λ trimmed. All
        (IsWeightedBatch given.now.wave.now given.now.pairs.now) trimmed.items) }
{
    let mut trimmed = Vec::new(alloc);
    let mut left = whole;
    for part in parts {
        left = trim_part(given, part, order, left, &mut trimmed)?;
    }
    Ok(trimmed)
}

/// Takes orders out of batches until each order has a whole weight. That makes no batch longer.
pub(crate) fn trim(
    alloc: Global,
    given: &OpenWave<'_>,
    whole: u128,
    parts: Vec<WeightedBatch>,
) -> Result<Vec<WeightedBatch>, Memory>
    requires enough { AreEnough (length given.now.wave.now.orders) whole parts.items }
    requires each { All (IsWeightedBatch given.now.wave.now given.now.pairs.now) parts.items }
    ensures exact { IfOk result (λ trimmed. AreExact
        (length given.now.wave.now.orders) whole trimmed.items) }
    ensures cost { IfOk result (λ trimmed. cost_of trimmed.items ≤ cost_of parts.items) }
    ensures each { IfOk result (λ trimmed. All
        (IsWeightedBatch given.now.wave.now given.now.pairs.now) trimmed.items) }
{
    let mut trimmed = parts;
    for order in 0..given.wave.orders() {
        trimmed = trim_order(alloc, given, order, whole, trimmed.as_slice())?;
    }
    Ok(trimmed)
}
