ghost use Rattle.std.specs.Prelude.{◌≡◌, ◌≤◌, ◌<◌, ◌+◌, ◌^◌, ◌↔◌, ℕ, [], ◌∷◌, ◌++◌, IsTrue, IfNone, IfSome, Contains};
ghost use Rattle.std.specs.Prelude.{None, Some, length, take, true, false};
ghost use Rattle.wp_pairs.specs.declared.pair.OrderPair.{OrderPair as PairData};
ghost use Rattle.wp_pairs.specs.Batches.{IsBatch};
ghost use Rattle.wp_pairs.specs.Carts.{Carries, FitsAnyCart, IsCartFor, any_load};
ghost use Rattle.wp_pairs.specs.Permitted.{Pairing, IsPermitted, AreJoined, AreParted, AreDecided, AreUndecided};
ghost use Rattle.wp_pairs.specs.Permitted.{AreDecidedBefore, AllDecided, IsHeld, IsDead};
ghost use Rattle.wp_pairs.specs.Permitted.{AreHeldBelow};
ghost use Rattle.wp_pairs.specs.Kept.{FitsCapacity, IsPairing, KeepsOrder};

use crate::batch::Batch;
use crate::cart::Cart;
use crate::pair::OrderPair;
use crate::rows::{empty_rows, orders_for, settle, single_rows};
use std::marker::Model;

/// How many pairs 64 orders have.
const MOST_PAIRS: usize = 2016;

/// The pairs of a wave's orders that are to go together or apart, how many orders a batch may have, and the cart that
/// it is to fit, if there is one. Contracts see the number of orders, the capacity, the cart and the pairs in the order
/// of adding.
#[derive(Drop)]
pub struct Pairs {
    orders: u32,
    capacity: u32,
    cart: Option<Cart>,
    count: usize,
    added: [OrderPair; 2016],
    joined: [Batch; 64],
    parted: [Batch; 64],
}

impl Model for Pairs {
    ghost use Rattle.std.specs.Prelude.{◌≡◌, length, take};
    ghost use Rattle.wp_pairs.specs.Permitted.{Pairing};
    ghost use Rattle.wp_pairs.specs.Kept.{ArePartners};

    ghost Value = { Pairing };

    ghost view = { λ p. record {
      orders = p.orders;
      capacity = p.capacity;
      cart = p.cart;
      pairs = take p.count
          p.added;
    } };

    ghost invariant = { λ p. (length (take p.count p.added) ≡ p.count) × ArePartners (record {
      orders = p.orders;
      capacity = p.capacity;
      cart = p.cart;
      pairs = take p.count p.added;
    }) p.joined p.parted };
}

// Room for pairs, in which none counts yet.
fn blank_pairs() -> [OrderPair; 2016]
    ensures { length result ≡ 2016 }
{
    let blank = OrderPair {
        first: 0,
        second: 0,
        together: false,
    };
    [blank; 2016]
}

// Puts a pair behind those that count.
fn place(added: &mut [OrderPair; 2016], count: usize, pair: OrderPair)
    requires { count < 2016 }
    ensures { take (count + 1) added.new ≡ take count added.old ++ pair ∷ [] }
{
    added[count] = pair;
}

impl Pairs {
    /// No pair, for a wave of so many orders and batches of so many.
    pub fn new(orders: u32, capacity: u32) -> Pairs
        requires some_orders { 1 ≤ orders }
        requires most_orders { orders ≤ 64 }
        requires some_capacity { 1 ≤ capacity }
        requires most_capacity { capacity ≤ 8 }
        ensures { result ≡ record {
          orders = orders;
          capacity = capacity;
          cart = None;
          pairs = [];
        } }
    {
        Pairs::begun(orders, capacity, None)
    }

    /// No pair, for a wave of so many orders and batches of so many that fit a cart with what each of these orders
    /// loads.
    pub fn with_cart(orders: u32, capacity: u32, cart: Cart) -> Pairs
        requires loads { orders ≡ length cart.loads }
        requires some_capacity { 1 ≤ capacity }
        requires most_capacity { capacity ≤ 8 }
        ensures { result ≡ record {
          orders = orders;
          capacity = capacity;
          cart = Some
              cart;
          pairs = [];
        } }
    {
        let of_wave = cart.orders() == orders;
        prove!(of_wave);
        Pairs::begun(orders, capacity, Some(cart))
    }

    // No pair, with a cart for these orders or with none.
    fn begun(orders: u32, capacity: u32, cart: Option<Cart>) -> Pairs
        requires some_orders { 1 ≤ orders }
        requires most_orders { orders ≤ 64 }
        requires some_capacity { 1 ≤ capacity }
        requires most_capacity { capacity ≤ 8 }
        requires cart { IsCartFor cart orders }
        ensures { result ≡ record {
          orders = orders;
          capacity = capacity;
          cart = cart;
          pairs = [];
        } }
    {
        Pairs {
            orders,
            capacity,
            cart,
            count: 0,
            added: blank_pairs(),
            joined: single_rows(),
            parted: empty_rows(),
        }
    }

    /// The number of orders of the wave, 1 to 64.
    pub fn orders(&self) -> u32
        ensures value { result ≡ self.now.orders }
        ensures valid { IsPairing self.now }
    {
        self.orders
    }

    /// How many orders a batch may have, 1 to 8.
    pub fn capacity(&self) -> u32
        ensures value { result ≡ self.now.capacity }
        ensures valid { IsPairing self.now }
    {
        self.capacity
    }

    /// The cart that batches are to fit, with a load for each order of the wave. None comes exactly where there is no
    /// cart.
    pub fn cart(&self) -> Option<Cart>
        ensures value { result ≡ self.now.cart }
        ensures valid { IsPairing self.now }
    {
        self.cart
    }

    /// What the orders of a batch load, all together, in units: 0 where there is no cart.
    pub fn load_of(&self, batch: Batch) -> u64
        ensures is { result ≡ any_load self.now.cart batch }
        ensures small { result ≤ 2 ^ 38 }
    {
        match &self.cart {
            None => 0,
            Some(cart) => cart.load_of(batch),
        }
    }

    /// Whether the cart holds so many units, or there is none.
    pub fn carries(&self, load: u64) -> bool
        ensures { IsTrue result ↔ Carries self.now.cart load }
    {
        match &self.cart {
            None => true,
            Some(cart) => load <= u64::from(cart.units()),
        }
    }

    /// Adds two orders that are to go together, or else to go apart.
    pub fn add(&mut self, first: u32, second: u32, together: bool)
        requires { AreUndecided self.old first second }
        ensures { self.new ≡ record {
          orders = self.old.orders;
          capacity = self.old.capacity;
          cart = self.old.cart;
          pairs = self.old.pairs ++ record { first = first; second = second; together = together } ∷ [];
        } }
    {
        settle(&mut self.joined, &mut self.parted, first, second, together);
        let pair = OrderPair {
            first: first as u8,
            second: second as u8,
            together,
        };
        place(&mut self.added, self.count, pair);
        self.count += 1;
    }

    /// Whether the pairs tell of two orders that they go together or apart.
    pub fn decided(&self, first: u32, second: u32) -> bool
        requires order { first < second }
        requires known { second < self.now.orders }
        ensures { IsTrue result ↔ AreDecided self.now.pairs first second }
    {
        orders_for(&self.joined, first).has(second) || orders_for(&self.parted, first).has(second)
    }

    /// The orders that are to go together with an order: those to which a chain of together pairs leads, and itself.
    pub fn joined_to(&self, order: u32) -> Batch
        requires { order < self.now.orders }
        ensures { (other : ℕ) → Contains result other ↔ AreJoined self.now.pairs order other }
    {
        orders_for(&self.joined, order)
    }

    /// The orders that are to go apart from an order: those between which and an order that is joined to it, or one
    /// that is joined to them, an apart pair lies.
    pub fn parted_from(&self, order: u32) -> Batch
        requires { order < self.now.orders }
        ensures { (other : ℕ) → Contains result other ↔ AreParted self.now.pairs order other }
    {
        orders_for(&self.parted, order)
    }

    /// Whether a batch is permitted: it has some orders of the wave and at most as many as the capacity, which load no
    /// more than the cart holds, if there is one, both or none of each together pair, and not both of any apart pair.
    pub fn permits(&self, batch: Batch) -> bool
        ensures { IsTrue result ↔ IsPermitted self.now batch }
    {
        self.fits(batch) && self.keeps_all(batch)
    }

    /// The least pair of orders that is undecided: the lower first order, then the lower second one. None comes exactly
    /// where all pairs are decided.
    pub fn undecided(&self) -> Option<(u32, u32)>
        ensures none { IfNone result (AllDecided self.now) }
        ensures undecided { IfSome result (λ pair. AreUndecided self.now pair.0 pair.1) }
        ensures least { IfSome result (λ pair. AreDecidedBefore self.now pair.0 pair.1) }
    {
        for first in 0..self.orders() {
            if let Some(second) = self.undecided_with(first) {
                return Some((first, second));
            }
        }
        None
    }

    /// The least order that no permitted batch has. None comes exactly where each order is in some permitted batch.
    pub fn dead(&self) -> Option<u32>
        ensures none { IfNone result (AreHeldBelow self.now self.now.orders) }
        ensures dead { IfSome result (IsDead self.now) }
        ensures least { IfSome result (AreHeldBelow self.now) }
    {
        for order in 0..self.orders() {
            if !self.is_held(order) {
                return Some(order);
            }
        }
        None
    }
}

impl Pairs {
    // Whether a batch fits the cart, if there is one.
    fn fits_cart(&self, batch: Batch) -> bool
        ensures { IsTrue result ↔ FitsAnyCart self.now.cart batch }
    {
        match &self.cart {
            None => true,
            Some(cart) => cart.holds(batch),
        }
    }

    // Whether a batch has an order, no more than the capacity, and fits the cart, if there is one.
    fn fits(&self, batch: Batch) -> bool
        ensures exact { IsTrue result ↔ FitsCapacity self.now batch }
        ensures valid { IsBatch batch }
    {
        let orders = batch.len();
        if orders < 1 || self.capacity < orders {
            return false;
        }
        self.fits_cart(batch)
    }

    // Whether an order is one of the wave, all that are joined to it are in the batch, and none that is parted from it.
    fn keeps(&self, order: u32, batch: Batch) -> bool
        ensures { IsTrue result ↔ KeepsOrder self.now batch order }
    {
        if self.orders <= order {
            return false;
        }
        batch.holds_all(orders_for(&self.joined, order))
            && !batch.meets(orders_for(&self.parted, order))
    }

    // Whether that is so of each order of a batch.
    fn keeps_all(&self, batch: Batch) -> bool
        requires { IsBatch batch }
        ensures exact { IsTrue result ↔ ((order : ℕ) → Contains batch order
            → KeepsOrder self.now batch order) }
    {
        for order in 0..64 {
            if batch.has(order) && !self.keeps(order, batch) {
                return false;
            }
        }
        true
    }

    // The least order after a first one with which it is undecided.
    fn undecided_with(&self, first: u32) -> Option<u32>
        requires { first < self.now.orders }
        ensures none { IfNone result ((right : ℕ) → first < right → right < self.now.orders
            → AreDecided self.now.pairs first right) }
        ensures undecided { IfSome result (AreUndecided self.now first) }
        ensures least { IfSome result (λ second. (right : ℕ) → first < right → right < second
            → AreDecided self.now.pairs first right) }
    {
        for second in 0..self.orders() {
            if first < second && !self.decided(first, second) {
                return Some(second);
            }
        }
        None
    }

    // Whether some permitted batch has an order: the orders that are joined to it are such a batch, if they are few
    // enough and fit the cart.
    fn is_held(&self, order: u32) -> bool
        requires { order < self.now.orders }
        ensures held { result ≡ true → IsHeld self.now order }
        ensures dead { result ≡ false → IsDead self.now order }
    {
        self.fits(orders_for(&self.joined, order))
    }
}
