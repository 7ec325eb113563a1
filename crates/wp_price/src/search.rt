ghost use Rattle.std.specs.Prelude.{◌≡◌, ◌+◌, ◌<◌, ◌≤◌, ◌^◌, ◌↔◌, [], ℕ, Contains, IfNone, IfOk, IfSome, List};
ghost use Rattle.std.specs.Prelude.{length, pos, ◌+ℤ◌};
ghost use Rattle.wp_pairs.specs.Kept.{IsPairing};
ghost use Rattle.wp_pairs.specs.Permitted.{AreJoined, IsPermitted};
ghost use Rattle.wp_lengths.specs.Duals.{duals_of, sixtieths_of};
ghost use Rattle.wp_lengths.specs.Visits.{AddsItem, IsItem, IsReach, Place as PlaceDue};
ghost use Rattle.wp_visit.specs.Places.{IsAt, IsNoChild};
ghost use Rattle.wp_price.specs.Searches.{IsRaised, IsSearched, NamesBelow, raise};
ghost use Rattle.wp_price.specs.ShortMarks.{AddsShort, IsMarked};
ghost use Rattle.wp_price.specs.Slacks.{IsSlack};

use crate::best::LeastBatch;
use crate::least::{BestSoFar, raised_of};
use crate::short::{MarksSoFar, is_closed};
use std::alloc::Global;
use std::marker::Model;
use wp_lengths::{DualWave, Marks, OrderDuals, PairedWave, SIXTIETHS, Wave};
use wp_model::Memory;
use wp_pairs::Batch;
use wp_visit::{Place, Visit};

/// A search of all permitted batches: a visit of them, with a wave and the duals of its orders.
#[derive(Drop)]
pub struct SlackSearch<'a> {
    visit: Visit<'a>,
    wave: &'a Wave,
    duals: &'a OrderDuals,
}

impl<'a> Model for SlackSearch<'a> {
    ghost use Rattle.wp_visit.specs.Places.{Task};
    ghost use Rattle.wp_price.specs.Searches.{IsSearchOf};

    ghost Value = { Task };

    ghost view = { λ s. s.visit };

    ghost invariant = { λ s. IsSearchOf s.visit s.wave.now s.duals.now };
}

// Sixty times a length less a sum of duals.
fn slack_between(length: u64, sum: u64) -> i64
    requires length { length < 2 ^ 28 }
    requires sum { sum ≤ raise }
    ensures { result +ℤ pos sum ≡ pos (sixtieths_of length) }
{
    (SIXTIETHS * length) as i64 - sum as i64
}

impl<'a> SlackSearch<'a> {
    /// A search with a wave's pairs and duals.
    pub fn of(alloc: Global, given: &DualWave<'a>) -> Result<SlackSearch<'a>, Memory>
        ensures { IfOk result (λ search. search ≡
            record { wave = given.now.wave.now; pairing = given.now.pairs.now; duals = given.now.duals.now }) }
    {
        let DualWave { wave, pairs, duals } = *given;
        let _count = duals.len();
        let _orders = pairs.orders();
        let paired = PairedWave::of(wave, pairs);
        let visit = Visit::of(alloc, &paired, duals.as_slice())?;
        Ok(SlackSearch { visit, wave, duals })
    }
}

impl SlackSearch<'_> {
    /// The best of a best so far, of a place that is a permitted batch, and of all batches that extend it.
    pub fn search_from(&self, place: &Place, best: Option<LeastBatch>) -> Option<LeastBatch>
        requires place { IsAt self.now place.now }
        requires permitted { IsPermitted self.now.pairing place.now.batch }
        ensures { IsSearched self.now place.now.batch place.now.from best result }
    {
        let mut visitor = BestSoFar { best };
        match self.visit.visit_from(place, &mut visitor) {
            Ok(()) => visitor.best,
        }
    }

    /// Pushes the short marks of a place.
    pub fn push_marks(&self, place: &Place, marks: Marks) -> Result<Marks, Memory>
        requires place { IsAt self.now place.now }
        requires past { NamesBelow self.now.pairing place.now.batch place.now.from }
        ensures { IfOk result
            (AddsShort self.now.wave self.now.pairing self.now.duals (PlaceDue place.now.batch place.now.from) marks) }
    {
        let mut visitor = MarksSoFar { marks };
        self.visit.visit_from(place, &mut visitor)?;
        Ok(visitor.marks)
    }

    /// Whether the reach of the place of no order doesn't make it too much, so that it isn't entered.
    pub fn is_root_closed(&self) -> bool
        ensures { (reach : ℕ) × IsReach self.now.pairing self.now.duals [] 0 reach
            × IsMarked self.now.wave self.now.duals [] reach result }
    {
        is_closed(&self.visit, &self.visit.root())
    }

    /// The place with the item that an order names, where both together are a permitted batch.
    pub fn child_of(&self, place: &Place, order: u32) -> Option<Place>
        requires known { order < self.now.pairing.orders }
        requires place { IsAt self.now place.now }
        ensures at { IfSome result (IsAt self.now) }
        ensures from { IfSome result (λ child. child.from ≡ order + 1) }
        ensures item { IfSome result (λ child. IsItem self.now.pairing order) }
        ensures adds { IfSome result (λ child. AddsItem self.now.pairing place.now.batch order
            child.batch) }
        ensures permitted { IfSome result (λ child. IsPermitted self.now.pairing child.batch) }
        ensures none { IfNone result (IsNoChild self.now.pairing place.now.batch order) }
    {
        self.visit.child_of(place, order)
    }

    /// The place of no order.
    pub fn root(&self) -> Place
        ensures at { IsAt self.now result }
        ensures batch { result.batch ≡ [] }
        ensures from { result.from ≡ 0 }
    {
        self.visit.root()
    }

    /// The number of orders of the wave, 1 to 64.
    pub fn orders(&self) -> u32
        ensures value { result ≡ self.now.pairing.orders }
        ensures few { result ≤ 64 }
    {
        self.visit.orders()
    }

    /// How many orders more a place has room for.
    pub fn room_at(&self, place: &Place) -> u32
        requires { IsAt self.now place.now }
        ensures room { result + length place.now.batch ≡ self.now.pairing.capacity }
        ensures few { self.now.pairing.capacity ≤ 8 }
    {
        self.visit.room_at(place)
    }

    /// The orders that are joined to an order.
    pub fn joined_to(&self, order: u32) -> Batch
        requires { order < self.now.pairing.orders }
        ensures orders { (other : ℕ) → Contains result other
            ↔ AreJoined self.now.pairing.pairs order other }
        ensures valid { IsPairing self.now.pairing }
    {
        self.visit.joined_to(order)
    }

    /// A place as the best, with its slack, raised.
    pub fn best_at(&self, place: &Place) -> LeastBatch
        requires { IsAt self.now place.now }
        ensures batch { result.batch ≡ place.now.batch }
        ensures is { IsRaised self.now place.now.batch result.raised }
    {
        LeastBatch {
            batch: place.batch,
            raised: raised_of(&self.visit, place),
        }
    }

    /// The slack of a permitted batch: sixty times its length less what its orders have in duals.
    pub fn slack_of(&self, batch: Batch) -> i64
        requires { IsPermitted self.now.pairing batch }
        ensures is { IsSlack self.now.wave self.now.duals batch result }
        ensures small { (other : List ℕ) → IsPermitted self.now.pairing other
            → duals_of self.now.duals other ≤ raise }
    {
        let length = self.wave.batch_length(batch);
        slack_between(length, self.duals.sum_of(batch))
    }
}
