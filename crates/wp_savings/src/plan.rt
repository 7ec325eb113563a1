//! Batches that are planned for waves.
ghost use Rattle.std.specs.Prelude.{◌≡◌, IfOk, length};

use crate::orders::SoughtOrders;
use std::alloc::Global;
use wp_model::Memory;

/// A batch: the places of its orders, the number of its wave, and the length of its shortest tour.
#[derive(Drop)]
pub struct PlannedBatch {
    pub orders: Vec<usize>,
    pub wave: usize,
    pub length: u64,
}

/// What is planned: the places of the orders of a group that lie in no batch yet, as they are served, the batches, and
/// for each wave its order that is served first.
#[derive(Drop)]
pub struct Plan {
    pub left: Vec<usize>,
    pub batches: Vec<PlannedBatch>,
    pub leaders: Vec<usize>,
}

/// Two orders that may change places: the places of their batches, and their own.
#[derive(Clone, Copy)]
pub struct Exchange {
    pub first: usize,
    pub second: usize,
    pub leaves_first: usize,
    pub leaves_second: usize,
}

impl PlannedBatch {
    // Puts one order in the place of another.
    fn change(&mut self, leaves: usize, joins: usize, length: u64) {
        for place in self.orders.iter_mut() {
            if *place == leaves {
                *place = joins;
            }
        }
        self.length = length;
    }
}

impl Plan {
    /// Nothing is planned. It takes no memory.
    pub fn new(alloc: Global) -> Plan {
        Plan {
            left: Vec::new(alloc),
            batches: Vec::new(alloc),
            leaders: Vec::new(alloc),
        }
    }

    /// Begins a wave with the order that is served first of those that are left.
    pub fn begin_wave(&mut self) -> Result<(), Memory> {
        if let Some(leader) = self.left.as_slice().first() {
            self.leaders.push(*leader)?;
        }
        Ok(())
    }

    /// Adds a batch to the last wave.
    pub fn add(&mut self, orders: &SoughtOrders, batch: Vec<usize>) -> Result<(), Memory> {
        let length = orders.length_of_batch(batch.as_slice());
        let wave = self.leaders.len().saturating_sub(1);
        self.batches.push(PlannedBatch {
            orders: batch,
            wave,
            length,
        })?;
        Ok(())
    }

    /// The order of a wave that is served first.
    pub fn leader_of(&self, wave: usize) -> Option<usize> {
        let leader = self.leaders.get(wave)?;
        Some(*leader)
    }

    /// Lets two orders change places, after which the batches have these lengths.
    pub fn exchange(&mut self, orders: Exchange, first: u64, second: u64) {
        if let Some(batch) = self.batches.get_mut(orders.first) {
            batch.change(orders.leaves_first, orders.leaves_second, first);
        }
        if let Some(batch) = self.batches.get_mut(orders.second) {
            batch.change(orders.leaves_second, orders.leaves_first, second);
        }
    }

    /// For each of so many orders the number of its wave, 0 where it is planned for none.
    pub fn waves(&self, alloc: Global, count: usize) -> Result<Vec<u32>, Memory>
        ensures { IfOk result (λ waves. length waves.items ≡ count) }
    {
        let mut waves = vec![in alloc; 0; count]?;
        for batch in &self.batches {
            mark(&mut waves, batch);
        }
        Ok(waves)
    }
}

// Marks the orders of a batch with the number of its wave.
fn mark(waves: &mut Vec<u32>, batch: &PlannedBatch)
    ensures { length waves.new.items ≡ length waves.old.items }
{
    let wave = u32::try_from(batch.wave).unwrap_or(u32::MAX);
    for place in &batch.orders {
        if *place < waves.len() {
            waves[*place] = wave;
        }
    }
}
