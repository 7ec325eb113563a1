//! The terms on which a tree is checked.
ghost use Rattle.std.specs.Prelude.{◌≡◌, ◌≤◌, length};
ghost use Rattle.wp_cuts.specs.Steps.{IsRoundedUp};
ghost use Rattle.wp_cert.specs.Kept.{AreKeptTerms};
ghost use Rattle.wp_cert.specs.Terms.{net_of};

use crate::paying::{all_charged, taken_off_all};
use crate::tree::Own;
use std::marker::Model;
use wp_cuts::{CutTable, rounded_up};
use wp_lengths::Wave;

/// A wave, the step to whose multiples bounds are rounded up, up to 64 cuts, and how many batches are counted, up to
/// 64. Contracts see the four.
#[derive(Drop)]
pub struct CheckTerms<'a> {
    wave: &'a Wave,
    step: u32,
    table: &'a CutTable<'a>,
    batches: u64,
}

impl<'a> Model for CheckTerms<'a> {
    ghost use Rattle.wp_cert.specs.Kept.{AreKeptTerms};
    ghost use Rattle.wp_cert.specs.Terms.{Terms};

    ghost Value = { Terms };

    ghost view = { λ t. record { wave = t.wave.now; step = t.step; cuts = t.table.now; batches = t.batches } };

    ghost invariant = { λ t. AreKeptTerms (record { wave = t.wave.now; step = t.step; cuts = t.table.now; batches = t.batches }) };
}

impl<'a> CheckTerms<'a> {
    /// These terms.
    pub fn of(wave: &'a Wave, step: u32, table: &'a CutTable<'a>, batches: u64) -> CheckTerms<'a>
        requires some { 1 ≤ step }
        requires counted { batches ≤ 64 }
        ensures { result ≡ record { wave = wave.now; step = step; cuts = table.now; batches = batches } }
    {
        let _few = table.cuts();
        CheckTerms {
            wave,
            step,
            table,
            batches,
        }
    }

    /// The wave.
    pub fn wave(&self) -> &'a Wave
        ensures { result.now ≡ self.now.wave }
    {
        self.wave
    }

    /// The cuts, with the part of each order.
    pub fn table(&self) -> &'a CutTable<'a>
        ensures { result.now ≡ self.now.cuts }
    {
        self.table
    }

    /// So many sixtieths of a unit of length in units, rounded up to a multiple of the step.
    pub fn rounded(&self, sixtieths: u128) -> u128
        ensures { IsRoundedUp self.now.step sixtieths result }
    {
        rounded_up(self.step, sixtieths)
    }

    /// The net of a node's prices.
    pub fn net(&self, own: &Own) -> u128
        requires { length own.now.duals ≤ 64 }
        ensures { result ≡ net_of self.now own.now }
    {
        let charged = all_charged(own.duals.as_slice(), own.count, self.batches);
        charged.saturating_sub(taken_off_all(self.table.cuts(), own.prices.as_slice()))
    }
}
