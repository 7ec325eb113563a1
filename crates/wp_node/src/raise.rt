ghost use Rattle.std.specs.Prelude.{◌≡◌, ◌≤◌, ◌<◌, All, IfOk, IfSome, OnErr, length, ℕ};
ghost use Rattle.wp_lengths.specs.Lengths.{IsLengthOf};
ghost use Rattle.wp_lengths.specs.Duals.{IsTightFor, duals_of, sixtieths_of};
ghost use Rattle.wp_node.specs.Raises.{AreListedTight, AreNoLower, IsListedWith, IsRoom, IsStart};

use std::thread::Threads;
use wp_lengths::{DualWave, OrderDuals, PairedWave, SIXTIETHS};
use wp_model::Memory;
use wp_outside::Gate;
use wp_pairs::Batch;
use wp_price::{Workers, least_slack_by};

// What a batch may have more in duals, which are within sixty times its length.
fn room_of(given: &DualWave<'_>, batch: Batch) -> u64
    requires orders { All (λ order. order < length given.now.wave.now.orders) batch }
    requires within { (total : ℕ) → IsLengthOf given.now.wave.now batch total
        → duals_of given.now.duals.now batch ≤ sixtieths_of total }
    ensures { IsRoom given.now.wave.now given.now.duals.now batch result }
{
    SIXTIETHS * given.wave.batch_length(batch) - given.duals.sum_of(batch)
}

// Raises the dual of an order as far as duals stay feasible, and tells a batch that is tight for it then. Where memory
// runs out the duals stay as they were.
fn raise_order<R: Threads + Sync, G: Gate>(
    workers: &Workers<'_, R, G>,
    paired: &PairedWave<'_>,
    duals: &mut OrderDuals,
    order: u32,
) -> Result<Batch, Memory>
    requires start { IsStart paired.now.wave.now paired.now.pairs.now duals.old }
    requires known { order < length paired.now.wave.now.orders }
    ensures start { IsStart paired.now.wave.now paired.now.pairs.now duals.new }
    ensures no_lower { AreNoLower duals.old duals.new }
    ensures tight { IfOk result (IsTightFor paired.now.wave.now paired.now.pairs.now duals.new
        order) }
    ensures err { OnErr result (duals.new ≡ duals.old) }
{
    let given = DualWave {
        wave: paired.wave,
        pairs: paired.pairs,
        duals,
    };
    let priced = least_slack_by(workers, &given, Some(order))?.unwrap();
    let room = room_of(&given, priced.batch);
    duals.raise(order, room);
    Ok(priced.batch)
}

// The first of some batches that has an order, if one has it.
fn batch_with(batches: &[Batch], order: u32) -> Option<Batch>
    ensures { IfSome result (IsListedWith batches.now order) }
{
    for place in 0..batches.len() {
        if batches[place].has(order) {
            return Some(batches[place]);
        }
    }
    None
}

// Tells a batch that is tight for an order, where batches are listed that are tight for the orders before it: one of
// these, where one has the order; else its dual is raised. Where memory runs out the duals stay as they were.
fn tighten<R: Threads + Sync, G: Gate>(
    workers: &Workers<'_, R, G>,
    paired: &PairedWave<'_>,
    duals: &mut OrderDuals,
    tight: &[Batch],
    order: u32,
) -> Result<Batch, Memory>
    requires start { IsStart paired.now.wave.now paired.now.pairs.now duals.old }
    requires known { order < length paired.now.wave.now.orders }
    requires listed { AreListedTight paired.now.wave.now paired.now.pairs.now duals.old order
        tight.now }
    ensures start { IsStart paired.now.wave.now paired.now.pairs.now duals.new }
    ensures no_lower { AreNoLower duals.old duals.new }
    ensures tight { IfOk result (IsTightFor paired.now.wave.now paired.now.pairs.now duals.new
        order) }
{
    match batch_with(tight, order) {
        Some(batch) => Ok(batch),
        None => raise_order(workers, paired, duals, order),
    }
}

/// Raises feasible duals, order by order, until each order has a batch that is tight for it, and tells those batches.
/// An order that lies in a batch that is tight for an earlier one isn't priced. Where memory runs out the duals are
/// feasible still, and none is lower than before.
pub fn raise_all<R: Threads + Sync, G: Gate>(
    workers: &Workers<'_, R, G>,
    paired: &PairedWave<'_>,
    duals: &mut OrderDuals,
) -> Result<Vec<Batch>, Memory>
    requires { IsStart paired.now.wave.now paired.now.pairs.now duals.old }
    ensures start { IsStart paired.now.wave.now paired.now.pairs.now duals.new }
    ensures no_lower { AreNoLower duals.old duals.new }
    ensures tight { IfOk result (λ tight. AreListedTight paired.now.wave.now paired.now.pairs.now
        duals.new (length paired.now.wave.now.orders) tight.items) }
{
    let mut tight = Vec::new(workers.alloc);
    for order in 0..paired.wave.orders() {
        let batch = tighten(workers, paired, duals, tight.as_slice(), order)?;
        tight.push(batch)?;
    }
    Ok(tight)
}
