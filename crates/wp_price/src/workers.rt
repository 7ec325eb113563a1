//! A search by workers that run beside each other.
ghost use Rattle.std.specs.Prelude.{◌≡◌, ◌<◌, ◌≤◌, ℕ, [], Contains, IfOk, length, slice_index_or};
ghost use Rattle.wp_pairs.specs.Permitted.{IsPermitted};
ghost use Rattle.wp_visit.specs.Places.{IsAt, IsNoChild};
ghost use Rattle.wp_price.specs.Searches.{AreItemsSearched, AreSharesOf, AreSharesSearched, InShare, IsBeaten};
ghost use Rattle.wp_price.specs.Searches.{IsSearched};

use crate::best::{LeastBatch, best_of};
use crate::search::SlackSearch;
use crate::share::deal;
use std::alloc::Global;
use std::thread;
use std::thread::Threads;
use wp_model::Memory;
use wp_outside::{Gate, Moment};
use wp_pairs::Batch;
use wp_visit::Place;

/// Who searches: up to so many workers, 1 to 16, each in a thread of its own but for one, and the gate that they pass.
/// The allocator gives the memory for what they make.
#[derive(Drop)]
pub struct Workers<'a, R, G> {
    pub rt: &'a R,
    pub alloc: Global,
    pub number: u32,
    pub gate: &'a G,
    pub ghost some: { 1 ≤ number },
    pub ghost most: { number ≤ 16 },
}

// One of the workers: its number, from 1 on, the orders that name the items of its share, and the gate.
#[derive(Clone, Copy)]
struct Worker<'a, G> {
    number: u32,
    share: Batch,
    gate: &'a G,
}

/// How many batches a worker is worth: to begin a thread takes as long as to search some thousand batches.
const BATCHES_FOR_ONE: u64 = 4_000;

// How many batches so many items make at most, where there is room for so many of them.
fn batches_of(items: u32, room: u32) -> u64 {
    let mut sets = 1u64;
    let mut batches = 0u64;
    for size in 0..room.min(items) {
        sets = sets.saturating_mul(u64::from(items - size)) / u64::from(size + 1);
        batches = batches.saturating_add(sets);
    }
    batches
}

impl<R, G> Workers<'_, R, G> {
    /// How many workers are to share the batches that so many items make, where there is room for so many of them: no
    /// more than the batches are worth, and at least one.
    pub fn worth(&self, items: u32, room: u32) -> u32
        ensures some { 0 < result }
        ensures most { result ≤ 16 }
    {
        let worth = (batches_of(items, room) / BATCHES_FOR_ONE).min(16) as u32;
        self.number.min(items).min(worth).max(1)
    }
}

impl SlackSearch<'_> {
    // The orders that name first items of a place: those with which it makes a permitted batch.
    fn first_items(&self, place: &Place) -> Batch
        requires { IsAt self.now place.now }
        ensures { (order : ℕ) → order < self.now.pairing.orders → (Contains result order → ⊥)
            → IsNoChild self.now.pairing place.now.batch order }
    {
        let mut firsts = Batch::empty();
        for order in 0..self.orders() {
            if self.child_of(place, order).is_some() {
                firsts = firsts.with(order);
            }
        }
        firsts
    }

    // The best of the best batch so far and all batches that extend a place with the item that an order names, and with
    // items of later orders.
    fn search_item(&self, place: &Place, order: u32, best: Option<LeastBatch>) -> Option<LeastBatch>
        requires known { order < self.now.pairing.orders }
        requires place { IsAt self.now place.now }
        ensures { AreItemsSearched self.now place.now.batch (λ item. item ≡ order) best result }
    {
        match self.child_of(place, order) {
            Some(child) => self.search_from(&child, best),
            None => best,
        }
    }

    // Searches the items of a worker's share, one after the other, and passes the gate before each.
    fn search_share<G: Gate>(
        &self,
        worker: &Worker<'_, G>,
        place: &Place,
        best: Option<LeastBatch>,
    ) -> Option<LeastBatch>
        requires { IsAt self.now place.now }
        ensures { AreItemsSearched self.now place.now.batch
            (InShare self.now worker.now.share) best result }
    {
        let mut found = best;
        for order in 0..self.orders() {
            if worker.share.has(order) {
                worker.gate.pass(worker.number, Moment::BeforePart);
                found = self.search_item(place, order, found);
            }
        }
        found
    }

    // Searches all shares, each by a worker of its own. The workers are numbered from 1 on.
    fn search_shares<R: Threads + Sync, G: Gate>(
        &self,
        workers: &Workers<'_, R, G>,
        place: &Place,
        best: &Option<LeastBatch>,
        shares: &[Batch],
    ) -> Result<Vec<Option<LeastBatch>>, Memory>
        requires place { IsAt self.now place.now }
        requires few { length shares.now ≤ 16 }
        ensures count { IfOk result (λ found. length found.items ≡ length shares.now) }
        ensures searched { IfOk result (λ found.
            AreSharesSearched self.now place.now.batch shares.now best.now found.items) }
    {
        let search = self;
        let gate = workers.gate;
        let found = thread::map_indices(
            workers.rt,
            workers.alloc,
            shares.len(),
            &|worker: usize| -> Option<LeastBatch>
                requires { worker < length shares.now × (length shares.now ≤ 16)
                    × IsAt search.now place.now }
                ensures { AreItemsSearched search.entry.now place.entry.now.batch
                    (InShare search.entry.now (slice_index_or shares.entry.now worker []))
                    best.entry.now result }
            {
                let worker = Worker {
                    number: worker as u32 + 1,
                    share: shares[worker],
                    gate,
                };
                search.search_share(&worker, place, *best)
            },
        )?;
        Ok(found)
    }

    // How many workers take part in a search below a place that has these first items: no more than the batches are
    // worth that there may be, but at the root two where there are two first items.
    fn workers_for(&self, place: &Place, firsts: Batch, workers: u32) -> u32
        requires workers { workers ≤ 16 }
        requires place { IsAt self.now place.now }
        ensures some { 0 < result }
        ensures most { result ≤ 16 }
        ensures two { place.now.size ≡ 0 → 2 ≤ workers → 2 ≤ length firsts → 2 ≤ result }
    {
        let batches = batches_of(firsts.len(), self.room_at(place));
        let least = if place.size == 0 { 2 } else { 1 };
        let worth = (batches / BATCHES_FOR_ONE).clamp(least, 16) as u32;
        workers.min(firsts.len()).min(worth).max(1)
    }

    /// The first items of a place, dealt out to workers.
    pub fn shares_of<R, G>(
        &self,
        workers: &Workers<'_, R, G>,
        place: &Place,
    ) -> Result<Vec<Batch>, Memory>
        requires { IsAt self.now place.now }
        ensures few { IfOk result (λ shares. length shares.items ≤ 16) }
        ensures all { IfOk result (λ shares. AreSharesOf self.now place.now.batch shares.items) }
    {
        let firsts = self.first_items(place);
        let taking_part = self.workers_for(place, firsts, workers.number);
        deal(workers.alloc, self.orders(), firsts, taking_part)
    }

    /// The best of the best batch so far and all batches that extend a place. The subtrees of the place's first items
    /// are searched by workers beside each other.
    pub fn search_below<R: Threads + Sync, G: Gate>(
        &self,
        workers: &Workers<'_, R, G>,
        place: &Place,
        best: Option<LeastBatch>,
    ) -> Result<Option<LeastBatch>, Memory>
        requires place { IsAt self.now place.now }
        requires known { IsPermitted self.now.pairing place.now.batch
            → IsBeaten self.now best place.now.batch }
        ensures { IfOk result (IsSearched self.now place.now.batch 0 best) }
    {
        let shares = self.shares_of(workers, place)?;
        let found = self.search_shares(workers, place, &best, shares.as_slice())?;
        Ok(best_of(best, found.as_slice()))
    }
}
