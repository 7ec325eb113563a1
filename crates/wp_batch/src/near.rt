ghost use Rattle.std.specs.Prelude.{◌≡◌, ◌<◌, ◌-◌, min};

use crate::moves::least_and_rest;
use crate::seen::SeenLengths;
use std::alloc::Global;
use wp_model::Memory;
use wp_pairs::Batch;

/// How many orders lie near an order, at most.
const MOST_NEAR: u32 = 24;

/// How many sixteenths of the mean length the tour of an order counts more, where it is asked how much of it another
/// one saves.
const GROUND: u64 = 9;

/// What one order has to do with another: how much longer a tour past both is than one past the first alone, and which
/// orders save most of their tours beside it.
#[derive(Drop)]
pub struct Nearness {
    orders: u32,
    // the mean length of the tours past single orders
    mean: u64,
    // for each two orders, what the second adds to the first
    added: Vec<u64>,
    // for each order those that lie near it, as many for each
    near: Vec<u32>,
}

// The batch of an order alone, of two where they are two.
fn batch_of(first: u32, second: u32) -> Batch
    requires first { first < 64 }
    requires second { second < 64 }
{
    Batch::empty().with(first).with(second)
}

// What each order adds to one order.
fn push_added(
    seen: &mut SeenLengths<'_>,
    added: &mut Vec<u64>,
    orders: u32,
    first: u32,
) -> Result<(), Memory>
    requires { first < 64 }
{
    let alone = seen.length_of(batch_of(first, first));
    for second in 0..orders.min(64) {
        let both = seen.length_of(batch_of(first, second));
        added.push(both.saturating_sub(alone))?;
    }
    Ok(())
}

// What each order adds to each.
fn added_of(alloc: Global, seen: &mut SeenLengths<'_>, orders: u32) -> Result<Vec<u64>, Memory> {
    let mut added = Vec::new(alloc);
    for first in 0..orders.min(64) {
        push_added(seen, &mut added, orders, first)?;
    }
    Ok(added)
}

// The mean length of the tours past single orders.
fn mean_of(seen: &mut SeenLengths<'_>, orders: u32) -> u64 {
    let mut sum: u64 = 0;
    for order in 0..orders.min(64) {
        sum = sum.saturating_add(seen.length_of(batch_of(order, order)));
    }
    sum / u64::from(orders.max(1))
}

// How much of an order's tour is not saved beside another one, in parts of 1,000, where the tour counts for so much
// more.
fn left_over(seen: &mut SeenLengths<'_>, more: u64, added: u64, second: u32) -> u64
    requires { second < 64 }
{
    let alone = seen.length_of(batch_of(second, second));
    let saved = alone.saturating_sub(added).saturating_mul(1_000);
    1_000 - (saved / alone.saturating_add(more).max(1)).min(1_000)
}

impl Nearness {
    // What is told of nearness decides which moves are tried, and no promise rests on it.
    /// What the orders of a wave of so many have to do with each other.
    pub fn of(alloc: Global, seen: &mut SeenLengths<'_>, orders: u32) -> Result<Nearness, Memory> {
        let mean = mean_of(seen, orders);
        let added = added_of(alloc, seen, orders)?;
        let mut nearness = Nearness {
            orders,
            mean,
            added,
            near: Vec::new(alloc),
        };
        for first in 0..orders.min(64) {
            nearness.push_near(alloc, seen, first)?;
        }
        Ok(nearness)
    }

    // Adds the orders that lie near one.
    fn push_near(
        &mut self,
        alloc: Global,
        seen: &mut SeenLengths<'_>,
        first: u32,
    ) -> Result<(), Memory> {
        let more = self.mean.saturating_mul(GROUND) / 16;
        let mut ranks: Vec<(u64, u32)> = Vec::new(alloc);
        for second in 0..self.orders.min(64) {
            if second != first {
                let rank = left_over(seen, more, self.added_to(first, second), second);
                ranks.push((rank, second))?;
            }
        }
        ranks.sort()?;
        for (_, second) in ranks.iter().take(MOST_NEAR as usize) {
            self.near.push(*second)?;
        }
        Ok(())
    }

    // What the second order adds to the first.
    fn added_to(&self, first: u32, second: u32) -> u64 {
        let place = u64::from(first) * u64::from(self.orders) + u64::from(second);
        match self.added.get(place as usize) {
            Some(added) => *added,
            None => 0,
        }
    }

    /// The mean length of the tours past single orders.
    pub fn mean(&self) -> u64
        ensures { result ≡ self.now.mean }
    {
        self.mean
    }

    /// How many orders lie near each.
    pub fn count(&self) -> u32
        ensures { result ≡ min (self.now.orders - 1) 24 }
    {
        self.orders.saturating_sub(1).min(MOST_NEAR)
    }

    // It says which moves are tried, and no promise rests on it.
    /// One of the orders that lie near an order.
    pub fn near(&self, order: u32, choice: u32) -> Option<u32> {
        let place = u64::from(order) * u64::from(self.count()) + u64::from(choice);
        Some(*self.near.get(place as usize)?)
    }

    // No promise rests on it: it only keeps lengths from being asked for.
    /// What an order adds to a batch, as far as single orders tell: the least that it adds to one of them.
    pub fn added(&self, batch: Batch, order: u32) -> u64 {
        let mut least = u64::MAX;
        let mut rest = batch;
        for _ in 0..8 {
            let Some((first, others)) = least_and_rest(rest) else {
                break;
            };
            rest = others;
            least = least.min(self.added_to(first, order));
        }
        least
    }
}
