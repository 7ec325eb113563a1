//! Waves are filled by seeds and savings, batch by batch.

use crate::orders::SoughtOrders;
use crate::plan::Plan;
use std::alloc::Global;
use wp_model::Memory;

/// Of how many orders that share most aisles with a batch the one is chosen that saves most.
const MOST_CANDIDATES: u32 = 40;

/// How many orders a batch and a wave have at most.
#[derive(Clone, Copy)]
pub struct Sizes {
    pub batch: usize,
    pub wave: usize,
}

/// The orders for which waves are sought, and how large these may be.
#[derive(Clone, Copy)]
pub struct Filling<'a> {
    pub orders: &'a SoughtOrders,
    pub sizes: Sizes,
}

// What was seen of orders that may join a batch: how many, and the best of them with what it saves.
#[derive(Clone, Copy)]
struct Candidates {
    seen: u32,
    best: Option<usize>,
    saved: u64,
}

impl Candidates {
    // One more was seen.
    fn see(&mut self, index: usize, saved: u64) {
        self.seen = self.seen.saturating_add(1);
        if self.best.is_none() || self.saved < saved {
            self.best = Some(index);
            self.saved = saved;
        }
    }

    // Whether no more are looked at.
    fn are_enough(&self) -> bool {
        self.seen >= MOST_CANDIDATES
    }
}

// Takes an order out of those that are left into a batch.
fn take(left: &mut Vec<usize>, index: usize, batch: &mut Vec<usize>) -> Result<(), Memory> {
    if index < left.len() {
        batch.push(left.remove(index))?;
    }
    Ok(())
}

impl<'a> Filling<'a> {
    // Whether an order has the rank of the first that is left, which is the least.
    fn has_least_rank(&self, left: &[usize], place: usize) -> bool {
        match left.first() {
            Some(first) => self.orders.rank_of(*first) == self.orders.rank_of(place),
            None => false,
        }
    }

    // Which of the orders left, of those of the least rank, has the longest tour.
    fn longest(&self, left: &[usize]) -> usize {
        let mut longest = 0;
        let mut length = 0;
        for index in 0..left.len() {
            let place = left[index];
            if !self.has_least_rank(left, place) {
                return longest;
            }
            let own = self.orders.length_of(place);
            if length < own {
                longest = index;
                length = own;
            }
        }
        longest
    }

    // What an order saves that joins a batch of a tour of this length.
    fn saved_by(&self, batch: &[usize], length: u64, place: usize) -> u64 {
        let apart = length.saturating_add(self.orders.length_of(place));
        apart.saturating_sub(self.orders.length_with(batch, None, place))
    }

    // Looks at the orders left, of those of the least rank, that share so many of a batch's aisles.
    fn look(&self, batch: &[usize], left: &[usize], shared: u32, found: &mut Candidates) {
        let aisles = self.orders.aisles_of_batch(batch, None);
        let length = self.orders.length_of_batch(batch);
        for index in 0..left.len() {
            let place = left[index];
            if found.are_enough() || !self.has_least_rank(left, place) {
                return;
            }
            if (aisles & self.orders.aisles_of(place)).count_ones() == shared {
                found.see(index, self.saved_by(batch, length, place));
            }
        }
    }

    // Which of the orders left joins a batch: of the 40 that share most of its aisles the one that saves most.
    fn nearest(&self, batch: &[usize], left: &[usize]) -> Option<usize> {
        let mut found = Candidates {
            seen: 0,
            best: None,
            saved: 0,
        };
        let most = self.orders.aisles_of_batch(batch, None).count_ones();
        for fewer in 0..most.saturating_add(1) {
            self.look(batch, left, most.saturating_sub(fewer), &mut found);
        }
        found.best
    }

    // A batch of the orders left, of which this one begins it, and of at most so many.
    fn filled_batch(
        &self,
        alloc: Global,
        left: &mut Vec<usize>,
        seed: usize,
        room: usize,
    ) -> Result<Vec<usize>, Memory> {
        let mut batch = Vec::new(alloc);
        take(left, seed, &mut batch)?;
        for _ in 1..self.sizes.batch.min(room) {
            if let Some(index) = self.nearest(batch.as_slice(), left.as_slice()) {
                take(left, index, &mut batch)?;
            }
        }
        Ok(batch)
    }

    /// Fills a wave with orders that are left: the one that is served first begins it.
    pub fn fill_wave(&self, alloc: Global, plan: &mut Plan) -> Result<(), Memory> {
        plan.begin_wave()?;
        let mut room = self.sizes.wave;
        let mut seed = 0;
        for _ in 0..self.sizes.wave {
            if room == 0 || plan.left.is_empty() {
                return Ok(());
            }
            let batch = self.filled_batch(alloc, &mut plan.left, seed, room)?;
            room = room.saturating_sub(batch.len());
            plan.add(self.orders, batch)?;
            seed = self.longest(plan.left.as_slice());
        }
        Ok(())
    }
}
