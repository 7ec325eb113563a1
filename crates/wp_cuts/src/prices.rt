ghost use Rattle.std.specs.Prelude.{◌≡◌, ◌+◌, ◌*◌, ◌<◌, ◌≤◌, ◌↔◌, All, IsTrue, length};
ghost use Rattle.wp_lengths.specs.Duals.{greatest_dual};
ghost use Rattle.wp_cuts.specs.Cuts.{most_cuts, times_met, times_met_by_all};
ghost use Rattle.wp_cuts.specs.Prices.{ArePlain, ArePrices, Pays, PaysAtMost, charged, net, taken_off};
ghost use Rattle.wp_cuts.specs.Prices.{taken_off_all};

use crate::cut::RankCut;
use std::marker::Model;
use wp_lengths::OrderDuals;
use wp_pairs::Batch;

/// Prices of a node, in sixtieths of a unit of length: a dual for each order, what each batch pays besides, and a price
/// for each cut, each 0 to 1,000,000,000,000. Contracts see the three.
#[derive(Drop)]
pub struct Prices {
    duals: OrderDuals,
    count: u64,
    cuts: Vec<u64>,
}

impl Model for Prices {
    ghost use Rattle.wp_cuts.specs.Prices.{ArePrices, NodePrices};

    ghost Value = { NodePrices };

    ghost view = { λ p. record { duals = p.duals; count = p.count; cuts = p.cuts.items } };

    ghost invariant = { λ p. ArePrices (record { duals = p.duals; count = p.count; cuts = p.cuts.items }) };
}

// What a cut takes off a batch.
fn off_batch(cut: &RankCut, price: u64, batch: Batch) -> u64
    requires { price ≤ greatest_dual }
    ensures is { result ≡ price * times_met cut.now batch }
    ensures small { result ≤ 4096 * greatest_dual }
{
    price * u64::from(cut.times_met(batch))
}

// What a cut takes off all orders.
fn off_all(cut: &RankCut, price: u64) -> u64
    requires { price ≤ greatest_dual }
    ensures is { result ≡ price * times_met_by_all cut.now }
    ensures small { result ≤ 4096 * greatest_dual }
{
    price * u64::from(cut.times_met_by_all())
}

/// Whether all prices are 0.
pub fn are_zero(prices: &[u64]) -> bool
    ensures { IsTrue result ↔ All (λ price. price ≡ 0) prices.now }
{
    for price in prices {
        if *price != 0 {
            return false;
        }
    }
    true
}

impl Prices {
    /// These duals and prices. It takes no memory.
    pub fn of(duals: OrderDuals, count: u64, cuts: Vec<u64>) -> Prices
        requires count { count ≤ greatest_dual }
        requires few { length cuts.items ≤ most_cuts }
        requires within { All (λ price. price ≤ greatest_dual) cuts.items }
        ensures { result ≡ record { duals = duals; count = count; cuts = cuts.items } }
    {
        let _few = duals.len();
        Prices { duals, count, cuts }
    }

    /// The dual of each order.
    pub fn duals(&self) -> &[u64]
        ensures value { result.now ≡ self.now.duals }
        ensures valid { ArePrices self.now }
    {
        self.duals.as_slice()
    }

    /// What each batch pays besides its duals.
    pub fn count(&self) -> u64
        ensures value { result ≡ self.now.count }
        ensures valid { ArePrices self.now }
    {
        self.count
    }

    /// The price of each cut.
    pub fn cuts(&self) -> &[u64]
        ensures value { result.now ≡ self.now.cuts }
        ensures valid { ArePrices self.now }
    {
        self.cuts.as_slice()
    }

    // What a batch has in duals and its own price, before anything is taken off.
    fn charged(&self, batch: Batch) -> u64
        requires { All (λ order. order < length self.now.duals) batch }
        ensures is { result ≡ charged self.now batch }
    {
        let _size = batch.len();
        self.duals.sum_of(batch) + self.count
    }

    // What cuts take off a batch.
    fn taken_off(&self, cuts: &Vec<RankCut>, batch: Batch) -> u64
        ensures is { result ≡ taken_off cuts.now.items self.now.cuts batch }
        ensures small { result ≤ 64 * (4096 * greatest_dual) }
    {
        let mut total: u64 = 0;
        for at in 0..cuts.len().min(self.cuts.len()) {
            total += off_batch(&cuts[at], self.cuts[at], batch);
        }
        total
    }

    // What cuts take off all orders.
    fn taken_off_all(&self, cuts: &Vec<RankCut>) -> u64
        ensures is { result ≡ taken_off_all cuts.now.items self.now.cuts }
        ensures small { result ≤ 64 * (4096 * greatest_dual) }
    {
        let mut total: u64 = 0;
        for at in 0..cuts.len().min(self.cuts.len()) {
            total += off_all(&cuts[at], self.cuts[at]);
        }
        total
    }

    // So much, and what cuts take off a batch.
    fn with_taken_off(&self, cuts: &Vec<RankCut>, batch: Batch, paid: u64) -> u128
        ensures { result ≡ paid + taken_off cuts.now.items self.now.cuts batch }
    {
        u128::from(paid) + u128::from(self.taken_off(cuts, batch))
    }

    /// Whether a batch pays at most so much: its duals and its own price, less each cut's price as often as it meets
    /// the cut.
    pub fn pays_at_most(&self, cuts: &Vec<RankCut>, batch: Batch, most: u64) -> bool
        requires { All (λ order. order < length self.now.duals) batch }
        ensures { IsTrue result ↔ PaysAtMost cuts.now.items self.now batch most }
    {
        u128::from(self.charged(batch)) <= self.with_taken_off(cuts, batch, most)
    }

    /// Whether a batch pays just so much.
    pub fn pays(&self, cuts: &Vec<RankCut>, batch: Batch, paid: u64) -> bool
        requires { All (λ order. order < length self.now.duals) batch }
        ensures { IsTrue result ↔ Pays cuts.now.items self.now batch paid }
    {
        u128::from(self.charged(batch)) == self.with_taken_off(cuts, batch, paid)
    }

    /// Whether the prices are plain: neither batches nor cuts have one.
    pub fn are_plain(&self) -> bool
        ensures { IsTrue result ↔ ArePlain self.now }
    {
        self.count == 0 && are_zero(self.cuts.as_slice())
    }

    /// The net of the prices where a wave has at least so many batches: the duals and the price of each of those
    /// batches, less each cut's price as often as all its orders would meet it; 0 where that would be below 0.
    pub fn net(&self, cuts: &Vec<RankCut>, batches: u64) -> u64
        requires { batches ≤ 64 }
        ensures { result ≡ net cuts.now.items self.now batches }
    {
        let charged = self.duals.total() + batches * self.count;
        charged.saturating_sub(self.taken_off_all(cuts))
    }
}
