ghost use Rattle.std.specs.Prelude.{◌≡◌, ◌<◌, ◌≤◌, ◌↔◌, ◌^◌, ◌++◌, All, IfSome, IsSome, IsTrue, Some, length};
ghost use Rattle.std.specs.Prelude.{slice_get};
ghost use Rattle.wp_pairs.specs.Carts.{FitsCart, IsLoadedCart, load_of};

use crate::batch::Batch;
use std::marker::Model;
use wp_model::MOST_CART_UNITS;

/// How many orders a cart has loads for at most.
const MOST_LOADS: usize = 64;

/// What up to 64 orders load, in units. Contracts see the list.
#[derive(Clone, Copy)]
struct Loads {
    count: u32,
    words: [u32; 64],
}

impl Model for Loads {
    ghost use Rattle.std.specs.Prelude.{List, ℕ, length, take};
    ghost use Rattle.std.proofs.Common.{sym};
    ghost use Rattle.wp_pairs.specs.Carts.{KeepsLoads, padded};

    ghost Value = { List ℕ };

    ghost view = { λ l. take l.count l.words };

    ghost invariant = { λ l. KeepsLoads l.count l.words };

    ghost inverse = { λ loads. record { count = length loads; words = padded loads } };

    ghost inverse_ok = { λ l h i. record { count = sym h.count_is i; words = sym h.words_are i } };
}

/// A cart that holds 1 to 40,000,000 units, and what each of the 1 to 64 orders of a wave loads: 0 units to all that it
/// holds. Contracts see the units and the list of the loads.
#[derive(Clone, Copy)]
pub struct Cart {
    units: u32,
    loads: Loads,
}

impl Model for Cart {
    ghost use Rattle.wp_pairs.specs.Carts.{LoadedCart, IsLoadedCart};

    ghost Value = { LoadedCart };

    ghost view = { λ c. record { units = c.units; loads = c.loads } };

    ghost invariant = { λ c. IsLoadedCart (record { units = c.units; loads = c.loads }) };

    ghost inverse = { λ c. record { units = c.units; loads = c.loads } };

    ghost inverse_ok = { λ c h i. c };
}

// Whether no load is above the units.
fn are_light(units: u32, loads: &[u32]) -> bool
    ensures { IsTrue result ↔ All (λ load. load ≤ units) loads.now }
{
    for load in loads {
        if units < *load {
            return false;
        }
    }
    true
}

impl Loads {
    // These loads.
    fn of(loads: &[u32]) -> Loads
        requires { length loads.now ≤ 64 }
        ensures { result ≡ loads.now }
    {
        let mut words = [0; MOST_LOADS];
        for order in 0..loads.len() {
            words[order] = loads[order];
        }
        Loads {
            count: loads.len() as u32,
            words,
        }
    }

    // How many orders there are.
    fn len(&self) -> u32
        ensures count { result ≡ length self.now }
        ensures few { result ≤ 64 }
    {
        self.count
    }

    // What an order loads.
    fn at(&self, order: u32) -> u32
        requires { order < length self.now }
        ensures { slice_get self.now order ≡ Some result }
    {
        self.words[order as usize]
    }
}

impl Cart {
    /// The cart that holds so many units, with what each order of a wave loads. None comes exactly where the units
    /// aren't 1 to 40,000,000, there aren't 1 to 64 loads, or a load is above the units.
    pub fn new(units: u32, loads: &[u32]) -> Option<Cart>
        ensures exact { IsSome result ↔ IsLoadedCart (record { units = units; loads = loads.now }) }
        ensures value { IfSome result (λ cart. cart ≡ record { units = units; loads = loads.now }) }
    {
        if units < 1 || MOST_CART_UNITS < units || loads.is_empty() || MOST_LOADS < loads.len() {
            return None;
        }
        if !are_light(units, loads) {
            return None;
        }
        Some(Cart {
            units,
            loads: Loads::of(loads),
        })
    }

    /// How many units the cart holds, 1 to 40,000,000.
    pub fn units(&self) -> u32
        ensures value { result ≡ self.now.units }
        ensures valid { IsLoadedCart self.now }
    {
        self.units
    }

    /// How many orders the cart has loads for, 1 to 64.
    pub fn orders(&self) -> u32
        ensures value { result ≡ length self.now.loads }
        ensures valid { IsLoadedCart self.now }
    {
        self.loads.len()
    }

    /// What an order loads, in units.
    pub fn load(&self, i: u32) -> u32
        requires { i < length self.now.loads }
        ensures { slice_get self.now.loads i ≡ Some result }
    {
        self.loads.at(i)
    }

    /// What the orders of a batch load, all together, in units. An order that the cart has no load for loads nothing.
    pub fn load_of(&self, batch: Batch) -> u64
        ensures is { result ≡ load_of self.now.loads batch }
        ensures small { result ≤ 2 ^ 38 }
    {
        let mut total: u64 = 0;
        for order in 0..self.loads.len() {
            if batch.has(order) {
                total += u64::from(self.loads.at(order));
            }
        }
        total
    }

    /// Whether a batch fits the cart: its orders load no more than the cart holds. An order that the cart has no load
    /// for loads nothing.
    pub fn holds(&self, batch: Batch) -> bool
        ensures { IsTrue result ↔ FitsCart self.now batch }
    {
        self.load_of(batch) <= u64::from(self.units)
    }

    /// Whether the cart holds what the orders of two batches load together.
    pub fn holds_both(&self, left: Batch, right: Batch) -> bool
        ensures { IsTrue result ↔ FitsCart self.now (left ++ right) }
    {
        self.load_of(left) + self.load_of(right) <= u64::from(self.units)
    }
}
