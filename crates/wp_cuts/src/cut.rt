ghost use Rattle.std.specs.Prelude.{◌≡◌, ◌<◌, ◌≤◌, ◌↔◌, ℕ, [], All, Contains, IfSome, IsSome, IsTrue, length};
ghost use Rattle.std.specs.Prelude.{replicate, slice_index_or, sum, sum_by};
ghost use Rattle.std.specs.List.Sorted.{IsStrictlyIncreasing};
ghost use Rattle.wp_cuts.specs.Cuts.{IsRankCut, cut_part, times_met, times_met_by_all};
ghost use Rattle.wp_cuts.specs.KeptCuts.{AreKinds, StandsBelow};

use std::marker::Model;
use wp_pairs::Batch;

/// The greatest divisor of a cut.
pub const GREATEST_DIVISOR: u32 = 8;

/// A cut: a divisor from 2 to 8, and some orders of a wave with a part each, from 1 to one less than the divisor. Of a
/// batch's orders the parts over the divisor, rounded down, are how often it meets the cut. Contracts see the divisor,
/// the orders and the parts.
#[derive(Drop)]
pub struct RankCut {
    divisor: u32,
    orders: Vec<u32>,
    parts: Vec<u32>,
    // the orders with part 1, those with part 2, and so on
    kinds: [Batch; 7],
}

impl Model for RankCut {
    ghost use Rattle.wp_cuts.specs.Cuts.{CutParts, IsRankCut};
    ghost use Rattle.wp_cuts.specs.KeptCuts.{AreKinds};

    ghost Value = { CutParts };

    ghost view = { λ c. record { divisor = c.divisor; orders = c.orders.items; parts = c.parts.items } };

    ghost invariant = { λ c. IsRankCut 64 (record {
      divisor = c.divisor;
      orders = c.orders.items;
      parts = c.parts.items;
    })
        × AreKinds c.orders.items c.parts.items c.kinds };
}

// Whether each order is above the one before it.
fn are_ascending(orders: &[u32]) -> bool
    ensures { IsTrue result ↔ IsStrictlyIncreasing orders.now }
{
    for place in 1..orders.len() {
        if orders[place] <= orders[place - 1] {
            return false;
        }
    }
    true
}

// Whether each order is one of so many.
fn are_known(count: u32, orders: &[u32]) -> bool
    ensures { IsTrue result ↔ All (λ order. order < count) orders.now }
{
    for order in orders {
        if count <= *order {
            return false;
        }
    }
    true
}

// Whether each part is at least 1 and below the divisor.
fn are_parts(divisor: u32, parts: &[u32]) -> bool
    ensures { IsTrue result ↔ All (λ part. (1 ≤ part) × (part < divisor)) parts.now }
{
    for part in parts {
        if *part < 1 || divisor <= *part {
            return false;
        }
    }
    true
}

// Whether a divisor and lists of orders and parts are a cut of so many orders.
fn is_cut(count: u32, divisor: u32, orders: &[u32], parts: &[u32]) -> bool
    ensures { IsTrue result ↔ IsRankCut count (record {
      divisor = divisor;
      orders = orders.now;
      parts = parts.now;
    }) }
{
    let divides = 2 <= divisor && divisor <= GREATEST_DIVISOR;
    let beside = !orders.is_empty() && parts.len() == orders.len();
    divides
        && beside
        && are_ascending(orders)
        && are_known(count, orders)
        && are_parts(divisor, parts)
}

// The orders beside which this part stands.
fn kind_of(orders: &[u32], parts: &[u32], part: u32) -> Batch
    requires known { All (λ order. order < 64) orders.now }
    requires each { length parts.now ≡ length orders.now }
    ensures { (order : ℕ) → Contains result order
        ↔ StandsBelow orders.now parts.now (length orders.now) part order }
{
    let mut kind = Batch::empty();
    for place in 0..orders.len() {
        if parts[place] == part {
            kind = kind.with(orders[place]);
        }
    }
    kind
}

// No order with any part.
fn no_kinds() -> [Batch; 7]
    ensures { result ≡ replicate 7 [] }
{
    [Batch::empty(); 7]
}

// For each part the orders beside which it stands.
fn kinds_of(orders: &[u32], parts: &[u32]) -> [Batch; 7]
    requires known { All (λ order. order < 64) orders.now }
    requires each { length parts.now ≡ length orders.now }
    ensures { AreKinds orders.now parts.now result }
{
    let mut kinds = no_kinds();
    for kind in 0..7 {
        kinds[kind as usize] = kind_of(orders, parts, kind + 1);
    }
    kinds
}

// How many orders are in both batches.
fn count_both(left: Batch, right: Batch) -> u32
    ensures is { (f : ℕ → ℕ) → ((order : ℕ) → Contains right order → f order ≡ 1)
        → ((order : ℕ) → (Contains right order → ⊥) → f order ≡ 0) → result ≡ sum_by f left }
    ensures few { result ≤ 64 }
{
    left.len() + right.len() - left.union(right).len()
}

impl RankCut {
    /// The cut of this divisor and these orders, one of so many each, with the parts beside them. None comes exactly
    /// where that is no cut. It takes no memory.
    pub fn of(count: u32, divisor: u32, orders: Vec<u32>, parts: Vec<u32>) -> Option<RankCut>
        requires { count ≤ 64 }
        ensures exact { IsSome result ↔ IsRankCut count (record {
          divisor = divisor;
          orders = orders.items;
          parts = parts.items;
        }) }
        ensures value { IfSome result (λ cut. cut ≡ record {
          divisor = divisor;
          orders = orders.items;
          parts = parts.items;
        }) }
    {
        if !is_cut(count, divisor, orders.as_slice(), parts.as_slice()) {
            return None;
        }
        let kinds = kinds_of(orders.as_slice(), parts.as_slice());
        Some(RankCut {
            divisor,
            orders,
            parts,
            kinds,
        })
    }

    /// The divisor, 2 to 8.
    pub fn divisor(&self) -> u32
        ensures value { result ≡ self.now.divisor }
        ensures valid { IsRankCut 64 self.now }
    {
        self.divisor
    }

    /// The orders, in ascending order.
    pub fn orders(&self) -> &[u32]
        ensures value { result.now ≡ self.now.orders }
        ensures valid { IsRankCut 64 self.now }
    {
        self.orders.as_slice()
    }

    /// The parts, beside the orders.
    pub fn parts(&self) -> &[u32]
        ensures value { result.now ≡ self.now.parts }
        ensures valid { IsRankCut 64 self.now }
    {
        self.parts.as_slice()
    }

    /// The part of an order, 0 where the cut doesn't have it.
    pub fn part_of(&self, order: u32) -> u16
        ensures is { result ≡ cut_part self.now order }
        ensures small { result ≤ 7 }
    {
        for part in 1..self.divisor {
            if self.kinds[part as usize - 1].has(order) {
                return part as u16;
            }
        }
        0
    }

    // What the orders of a batch have in parts.
    fn parts_of(&self, batch: Batch) -> u32
        ensures is { result ≡ sum_by (cut_part self.now) batch }
        ensures small { result ≤ 4096 }
    {
        let mut total = 0;
        for part in 1..self.divisor {
            total += part * count_both(batch, self.kinds[part as usize - 1]);
        }
        total
    }

    /// How often a batch meets the cut: the sum of the parts of its orders over the divisor, rounded down.
    pub fn times_met(&self, batch: Batch) -> u32
        ensures is { result ≡ times_met self.now batch }
        ensures small { result ≤ 4096 }
    {
        self.parts_of(batch) / self.divisor
    }

    // The sum of all parts.
    fn all_parts(&self) -> u32
        ensures is { result ≡ sum self.now.parts }
        ensures small { result ≤ 4096 }
    {
        let mut total = 0;
        for place in 0..self.parts.len() {
            total += self.parts[place];
        }
        total
    }

    /// How often all orders of the cut together would meet it.
    pub fn times_met_by_all(&self) -> u32
        ensures is { result ≡ times_met_by_all self.now }
        ensures small { result ≤ 4096 }
    {
        self.all_parts() / self.divisor
    }
}
