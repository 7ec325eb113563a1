//! The parts of many cuts side by side.
ghost use Rattle.std.specs.Prelude.{◌≡◌, ◌/◌, ◌*◌, ◌≤◌, ◌<◌, ◌^◌, ℕ, IfOk, length, replicate, slice_index};
ghost use Rattle.wp_cuts.specs.Cuts.{most_cuts};
ghost use Rattle.wp_cuts.specs.Prices.{taken_off};
ghost use Rattle.wp_cuts.specs.Tables.{AreInverses, AreParts, IsEachSum, IsInverse, IsRow, IsTable};

use crate::cut::RankCut;
use std::alloc::Global;
use std::marker::Model;
use wp_model::Memory;
use wp_pairs::Batch;

/// Up to 64 cuts, and beside them for each order its part in each, so that it is soon told how often a batch meets
/// them. Contracts see the cuts.
#[derive(Drop)]
pub struct CutTable<'a> {
    cuts: &'a Vec<RankCut>,
    // for each of 64 orders its part in each cut, 0 where the cut doesn't have it
    rows: Vec<[u16; 64]>,
    // for each cut by what a sum of parts is multiplied, to be divided by 65,536 in place of the divisor
    inverses: Vec<u32>,
}

impl<'a> Model for CutTable<'a> {
    ghost use Rattle.std.specs.Prelude.{List};
    ghost use Rattle.wp_cuts.specs.Cuts.{CutParts};
    ghost use Rattle.wp_cuts.specs.Tables.{AreInverses, IsTable};

    ghost Value = { List CutParts };

    ghost view = { λ t. t.cuts.now.items };

    ghost invariant = { λ t. IsTable t.cuts.now.items t.rows.items × AreInverses t.cuts.now.items t.inverses.items };
}

// A zero for each cut.
fn zeros() -> [u16; 64]
    ensures { result ≡ replicate 64 0 }
{
    [0; 64]
}

// The part of an order in each cut.
fn row_of(cuts: &Vec<RankCut>, order: u32) -> [u16; 64]
    requires { length cuts.now.items ≤ most_cuts }
    ensures { IsRow cuts.now.items order result }
{
    let mut row = zeros();
    for at in 0..cuts.len() {
        row[at] = cuts[at].part_of(order);
    }
    row
}

// The rows of 64 orders.
fn rows_of(alloc: Global, cuts: &Vec<RankCut>) -> Result<Vec<[u16; 64]>, Memory>
    requires { length cuts.now.items ≤ most_cuts }
    ensures { IfOk result (λ rows. IsTable cuts.now.items rows.items) }
{
    let mut rows = Vec::new(alloc);
    for order in 0..64 {
        rows.push(row_of(cuts, order))?;
    }
    Ok(rows)
}

// Adds the parts of one more order.
fn add_row(sums: &mut [u16; 64], row: &[u16; 64])
    requires sums { (at : ℕ) → slice_index sums.old at ≤ 441 }
    requires row { (at : ℕ) → slice_index row.now at ≤ 7 }
    ensures { IsEachSum sums.old row.now sums.new }
{
    for at in 0..64 {
        sums[at] += row[at];
    }
}

// By what a sum of parts is multiplied, to be divided by 65,536 in place of a divisor.
fn inverse_of(cut: &RankCut) -> u32
    ensures { IsInverse cut.now.divisor result }
{
    65_535 / cut.divisor() + 1
}

// The inverse of each divisor.
fn inverses_of(alloc: Global, cuts: &Vec<RankCut>) -> Result<Vec<u32>, Memory>
    ensures { IfOk result (λ inverses. AreInverses cuts.now.items inverses.items) }
{
    let mut inverses = Vec::new(alloc);
    for at in 0..cuts.len() {
        inverses.push(inverse_of(&cuts[at]))?;
    }
    Ok(inverses)
}

// The price of a cut with such a divisor as often as parts that come to so much meet it.
fn off_parts(price: u64, inverse: u32, parts: u16) -> u128
    requires small { parts ≤ 448 }
    requires inverse { inverse ≤ 32768 }
    ensures is { (divisor : ℕ) → IsInverse divisor inverse → result ≡ price * (parts / divisor) }
    ensures small { result ≤ 4096 * 2 ^ 64 }
{
    u128::from(price) * u128::from(u32::from(parts) * inverse / 65_536)
}

impl<'a> CutTable<'a> {
    /// The table of some cuts, at most 64.
    pub fn of(alloc: Global, cuts: &'a Vec<RankCut>) -> Result<CutTable<'a>, Memory>
        requires few { length cuts.now.items ≤ most_cuts }
        ensures { IfOk result (λ table. table ≡ cuts.now.items) }
    {
        let rows = rows_of(alloc, cuts)?;
        let inverses = inverses_of(alloc, cuts)?;
        Ok(CutTable {
            cuts,
            rows,
            inverses,
        })
    }

    /// The cuts.
    pub fn cuts(&self) -> &'a Vec<RankCut>
        ensures value { result.now.items ≡ self.now }
        ensures few { length self.now ≤ most_cuts }
    {
        self.cuts
    }

    // What the orders of a batch have in parts of each cut.
    fn parts_of(&self, batch: Batch) -> [u16; 64]
        ensures { AreParts self.now batch result }
    {
        let _few = batch.len();
        let mut sums = zeros();
        for order in 0..64 {
            if batch.has(order) {
                add_row(&mut sums, &self.rows[order as usize]);
            }
        }
        sums
    }

    /// What cuts take off a batch: the price of each as often as the batch meets it. A cut without a price beside it
    /// takes nothing off.
    pub fn taken_off(&self, prices: &[u64], batch: Batch) -> u128
        ensures is { result ≡ taken_off self.now prices.now batch }
        ensures small { result ≤ most_cuts * (4096 * 2 ^ 64) }
    {
        if self.cuts.is_empty() {
            return 0;
        }
        let parts = self.parts_of(batch);
        let mut total: u128 = 0;
        for at in 0..self.cuts.len().min(prices.len()) {
            total += off_parts(prices[at], self.inverses[at], parts[at]);
        }
        total
    }
}
