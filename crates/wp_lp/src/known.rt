//! What is known of a wave before its bracket is looked for.
ghost use Rattle.std.specs.Prelude.{◌≡◌, ◌⊎◌, ◌≤◌, ◌<◌, ◌^◌, ◌↔◌, All, IfOk, IsTrue, sum};

use crate::open_wave::OpenWave;
use std::alloc::Global;
use wp_lengths::total_of;
use wp_model::Memory;
use wp_pairs::Batch;

/// A batching of a wave's orders, what it costs in units of length, and feasible duals of the orders in sixtieths of a
/// unit, where some are known.
#[derive(Clone, Copy)]
pub struct Known<'a> {
    pub batches: &'a [Batch],
    pub cost: u128,
    pub duals: Option<&'a [u64]>,
}

/// A wave with its pairs, and what its bracket begins with: a batching, its cost, and feasible duals in sixtieths.
#[derive(Clone, Copy)]
pub(crate) struct KnownWave<'a> {
    pub(crate) given: OpenWave<'a>,
    pub(crate) batches: &'a [Batch],
    pub(crate) cost: u128,
    pub(crate) duals: &'a [u64],
}

/// A copy of duals.
pub(crate) fn copied(alloc: Global, duals: &[u64]) -> Result<Vec<u64>, Memory>
    ensures { IfOk result (λ copy. copy.items ≡ duals.now) }
{
    Ok(Vec::from_slice(alloc, duals)?)
}

/// Whether each dual is below 2 ^ 34. Feasible duals are, of orders that some batch within the capacity holds.
pub(crate) fn are_small(duals: &[u64]) -> bool
    ensures { IsTrue result ↔ All (λ dual. dual < 2 ^ 34) duals.now }
{
    duals.iter().all(|dual| *dual < 1 << 34)
}

/// Those of two lists of duals that come to more, or else the first.
pub(crate) fn greater<'a>(left: &'a [u64], right: &'a [u64]) -> &'a [u64]
    ensures either { (result.now ≡ left.now) ⊎ (result.now ≡ right.now) }
    ensures left { sum left.now ≤ sum result.now }
    ensures right { sum right.now ≤ sum result.now }
{
    if total_of(left) < total_of(right) {
        right
    } else {
        left
    }
}
