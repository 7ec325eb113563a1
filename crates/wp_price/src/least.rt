ghost use Rattle.std.specs.Prelude.{◌≡◌, ◌<◌, ◌≤◌, ◌↔◌, List, ℕ, Contains, IfNone, IfOk, IfSome, Option, Some, false};
ghost use Rattle.wp_pairs.specs.Permitted.{AreJoined, IsPermitted};
ghost use Rattle.wp_lengths.proofs.Visits.{Extends};
ghost use Rattle.wp_visit.specs.Places.{IsAt};
ghost use Rattle.wp_price.specs.Bests.{IsNoWorse};
ghost use Rattle.wp_price.specs.Searches.{HasDuals, IsBeaten, IsRaised};
ghost use Rattle.wp_price.specs.Slacks.{HasNoCandidate, IsCandidate};

use crate::best::{LeastBatch, better_of};
use crate::search::SlackSearch;
use crate::workers::Workers;
use std::convert::Infallible;
use std::thread::Threads;
use wp_lengths::{GREATEST_DUAL, SIXTIETHS};
use wp_model::Memory;
use wp_outside::Gate;
use wp_visit::{Place, Step, Visit, Visitor};

/// By how much slacks are raised: eight times the greatest dual.
pub const RAISE: u64 = 8 * GREATEST_DUAL;

/// The slack of a place, raised.
pub fn raised_of(visit: &Visit<'_>, place: &Place) -> u64
    requires at { IsAt visit.now place.now }
    requires duals { HasDuals visit.now }
    ensures { IsRaised visit.now place.now.batch result }
{
    let _room = visit.room_at(place);
    SIXTIETHS * visit.length_of(place) + RAISE - place.sum
}

// Whether a batch that extends a place may be better than the best.
fn can_better(visit: &Visit<'_>, place: &Place, raised: u64, best: &LeastBatch) -> bool
    requires place { IsAt visit.now place.now }
    requires raised { IsRaised visit.now place.now.batch raised }
    requires best { IsNoWorse best.now (record { batch = place.now.batch; raised = raised }) }
    ensures { result ≡ false → (batch : List ℕ)
        → Extends visit.now.pairing place.now.batch place.now.from batch
        → IsBeaten visit.now (Some best.now) batch }
{
    visit.room_at(place) > 0 && raised - best.raised <= visit.reach_of(place)
}

/// The visitor that keeps the best batch so far, and goes deeper only where one that extends a place may be better.
#[derive(Drop)]
pub struct BestSoFar {
    pub best: Option<LeastBatch>,
}

impl Visitor for BestSoFar {
    type Fault = Infallible;

    ghost use Rattle.wp_price.specs.Searches.{HasDuals, EntersBest};

    ghost fits = { λ visitor task. HasDuals task };

    ghost enters = { λ task old place from answer new. EntersBest task old.best place from answer new.best };

    fn enter(&mut self, visit: &Visit<'_>, place: &Place) -> Result<Step, Infallible> {
        let raised = raised_of(visit, place);
        let batch = place.batch;
        let next = better_of(self.best, LeastBatch { batch, raised });
        self.best = Some(next);
        if can_better(visit, place, raised, &next) {
            Ok(Step::Deeper)
        } else {
            Ok(Step::Past)
        }
    }
}

impl SlackSearch<'_> {
    // The place of the orders that are joined to an order. None comes exactly where they aren't a permitted batch.
    fn place_through(&self, order: u32) -> Option<Place>
        requires { order < self.now.pairing.orders }
        ensures at { IfSome result (IsAt self.now) }
        ensures class { IfSome result (λ place. (other : ℕ) → Contains place.batch other
            ↔ AreJoined self.now.pairing.pairs order other) }
        ensures permitted { IfSome result (λ place. IsPermitted self.now.pairing place.batch) }
        ensures none { IfNone result (HasNoCandidate self.now.pairing (Some order)) }
    {
        let root = self.root();
        self.child_of(&root, self.joined_to(order).least()?)
    }

    /// The best of all permitted batches, or of those that have an order where one is given, found by workers.
    pub fn best<R: Threads + Sync, G: Gate>(
        &self,
        workers: &Workers<'_, R, G>,
        through: Option<u32>,
    ) -> Result<Option<LeastBatch>, Memory>
        requires { IfSome through (λ order. order < self.now.pairing.orders) }
        ensures candidate { IfOk result (λ found. IfSome found
            (λ best. IsCandidate self.now.pairing through best.batch)) }
        ensures is { IfOk result (λ found. IfSome found
            (λ best. IsRaised self.now best.batch best.raised)) }
        ensures all { IfOk result (λ found. (batch : List ℕ)
            → IsCandidate self.now.pairing through batch → IsBeaten self.now found batch) }
    {
        match through {
            None => self.best_of_all(workers),
            Some(order) => self.best_with(workers, order),
        }
    }

    // The best of all permitted batches.
    fn best_of_all<R: Threads + Sync, G: Gate>(
        &self,
        workers: &Workers<'_, R, G>,
    ) -> Result<Option<LeastBatch>, Memory>
        ensures candidate { IfOk result (λ found. IfSome found
            (λ best. IsPermitted self.now.pairing best.batch)) }
        ensures is { IfOk result (λ found. IfSome found
            (λ best. IsRaised self.now best.batch best.raised)) }
        ensures all { IfOk result (λ found. (batch : List ℕ) → IsPermitted self.now.pairing batch
            → IsBeaten self.now found batch) }
    {
        self.search_below(workers, &self.root(), None)
    }

    // The best of all permitted batches that have an order.
    fn best_with<R: Threads + Sync, G: Gate>(
        &self,
        workers: &Workers<'_, R, G>,
        order: u32,
    ) -> Result<Option<LeastBatch>, Memory>
        requires { order < self.now.pairing.orders }
        ensures candidate { IfOk result (λ found. IfSome found
            (λ best. IsCandidate self.now.pairing (Some order) best.batch)) }
        ensures is { IfOk result (λ found. IfSome found
            (λ best. IsRaised self.now best.batch best.raised)) }
        ensures all { IfOk result (λ found. (batch : List ℕ)
            → IsCandidate self.now.pairing (Some order) batch → IsBeaten self.now found batch) }
    {
        let Some(place) = self.place_through(order) else {
            return Ok(None);
        };
        self.search_below(workers, &place, Some(self.best_at(&place)))
    }
}
