//! Duals in sixtieths of a unit of length: those of a pool's solution, rounded down, and the share duals.
ghost use Rattle.std.specs.Prelude.{◌≡◌, ◌<◌, ◌≤◌, ◌^◌, ◌*◌, ◌/◌, All, IfOk, length, pos, ◌*ℤ◌, ◌<ℤ◌, ◌≤ℤ◌};
ghost use Rattle.wp_lengths.specs.Duals.{AreShares};
ghost use Rattle.wp_lp.specs.Parts.{AreSmallOver};
ghost use Rattle.wp_lp.specs.Runs.{AreSixtieths, IsSixtieths};

use crate::whole::natural;
use std::alloc::Global;
use wp_lengths::{SIXTIETHS, Wave, share_of};
use wp_model::Memory;
use wp_pairs::Capacity;

// A natural number over another, in sixtieths, rounded down.
fn quotient(value: u128, over: u128) -> u64
    requires above { 0 < over }
    requires value { value ≤ 2 ^ 28 * over }
    requires over { over < 2 ^ 86 }
    ensures is { result ≡ 60 * value / over }
    ensures small { result < 2 ^ 34 }
{
    (u128::from(SIXTIETHS) * value / over) as u64
}

// A number over a denominator, in sixtieths, rounded down.
fn sixtieths_of(value: i128, denominator: i128) -> u64
    requires above { pos 0 <ℤ denominator }
    requires not_below { pos 0 ≤ℤ value }
    requires value { value ≤ℤ (pos (2 ^ 28) *ℤ denominator) }
    requires denominator { denominator <ℤ pos (2 ^ 86) }
    ensures is { IsSixtieths value denominator result }
    ensures small { result < 2 ^ 34 }
{
    quotient(natural(value), natural(denominator))
}

/// Duals over a denominator, in sixtieths, each rounded down.
pub(crate) fn rounded_down(
    alloc: Global,
    duals: &[i128],
    denominator: i128,
) -> Result<Vec<u64>, Memory>
    requires above { pos 0 <ℤ denominator }
    requires denominator { denominator <ℤ pos (2 ^ 86) }
    requires duals { AreSmallOver duals.now denominator }
    ensures are { IfOk result (λ sixtieths. AreSixtieths duals.now denominator sixtieths.items) }
    ensures small { IfOk result (λ sixtieths. All (λ dual. dual < 2 ^ 34) sixtieths.items) }
{
    let mut sixtieths = Vec::new(alloc);
    for dual in duals {
        sixtieths.push(sixtieths_of(*dual, denominator))?;
    }
    Ok(sixtieths)
}

/// The share duals of a wave's orders.
pub(crate) fn share_values(
    alloc: Global,
    wave: &Wave,
    capacity: Capacity,
) -> Result<Vec<u64>, Memory>
    ensures are { IfOk result (λ shares. AreShares wave.now capacity.most shares.items) }
    ensures small { IfOk result (λ shares. All (λ dual. dual < 2 ^ 34) shares.items) }
{
    let mut shares = Vec::new(alloc);
    for order in 0..wave.orders() {
        shares.push(share_of(wave, capacity, order))?;
    }
    Ok(shares)
}
