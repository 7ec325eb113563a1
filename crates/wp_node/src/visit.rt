ghost use Rattle.std.specs.Prelude.{◌≡◌, ◌<◌, All, IfOk, length};
ghost use Rattle.wp_visit.specs.Items.{AreBounded};
ghost use Rattle.wp_visit.specs.Places.{IsAt};
ghost use Rattle.wp_node.specs.Finds.{AreFinds, AreFindsOf};

use crate::finds::{FEW, Find, find_at, keep, keep_found, no_find};
use std::alloc::Global;
use std::convert::Infallible;
use std::thread;
use std::thread::Threads;
use wp_lengths::PairedWave;
use wp_model::Memory;
use wp_outside::Gate;
use wp_pairs::Batch;
use wp_price::{Workers, deal};
use wp_visit::{MOST_DUAL, Place, Step, Visit, Visitor};

/// The visitor that keeps for each order the few batches of least slack through it, of those whose slack is below a
/// limit. It goes past the batches that extend a place where the slack of the place less its reach isn't below the
/// limit: none of theirs is.
#[derive(Drop)]
pub struct FindsSoFar {
    pub kept: Vec<Find>,
    pub limit: u64,
}

impl FindsSoFar {
    // No promise rests on it: a visit that left out too much would find less.
    // Where the visit goes on after a place with this slack: deeper, where a batch that extends it may be a find.
    fn step_after(&self, visit: &Visit<'_>, place: &Place, slack: u64) -> Step
        requires { IsAt visit.now place.now }
    {
        if visit.room_at(place) > 0 && slack.saturating_sub(visit.reach_of(place)) < self.limit {
            return Step::Deeper;
        }
        Step::Past
    }
}

impl Visitor for FindsSoFar {
    type Fault = Infallible;

    ghost use Rattle.std.specs.Prelude.{⊤};
    ghost use Rattle.wp_node.specs.Finds.{AreFindsOf};

    ghost fits = { λ visitor task. AreFindsOf task visitor.kept.items };

    ghost enters = { λ task old place from answer new. ⊤ };

    fn enter(&mut self, visit: &Visit<'_>, place: &Place) -> Result<Step, Infallible> {
        let find = find_at(visit, place);
        if find.slack < self.limit {
            keep(&mut self.kept, &find);
        }
        Ok(self.step_after(visit, place, find.slack))
    }
}

/// A visit of a wave's permitted batches, and the limit below which a slack is worth a find.
#[derive(Drop)]
struct FindsVisit<'a> {
    visit: Visit<'a>,
    limit: u64,
    ghost as_many: { visit.pairing.orders ≡ length visit.wave.orders },
}

impl FindsVisit<'_> {
    // For each order a few finds that are none.
    fn no_finds(&self, alloc: Global) -> Result<FindsSoFar, Memory>
        ensures { IfOk result (λ finds. AreFindsOf self.now.visit finds.kept.items) }
    {
        let mut kept = Vec::new(alloc);
        for _ in 0..FEW * self.visit.orders() as usize {
            kept.push(no_find(&self.visit, self.limit))?;
        }
        Ok(FindsSoFar {
            kept,
            limit: self.limit,
        })
    }

    // Visits the batches whose first item an order names.
    fn visit_first(&self, order: u32, finds: &mut FindsSoFar)
        requires known { order < self.now.visit.pairing.orders }
        requires finds { AreFindsOf self.now.visit finds.old.kept.items }
        ensures { AreFindsOf self.now.visit finds.new.kept.items }
    {
        if let Some(child) = self.visit.child_of(&self.visit.root(), order) {
            match self.visit.visit_from(&child, finds) {
                Ok(()) => {}
            }
        }
    }

    // What is found of the batches whose first items are in a share.
    fn visit_share(&self, alloc: Global, share: Batch) -> Result<Vec<Find>, Memory>
        ensures { IfOk result (λ finds. AreFinds self.now.visit.wave finds.items) }
    {
        let mut finds = self.no_finds(alloc)?;
        for order in 0..self.visit.orders() {
            if share.has(order) {
                self.visit_first(order, &mut finds);
            }
        }
        Ok(finds.kept)
    }

    // What is found for all shares, each by a worker of its own.
    fn visit_shares<R: Threads + Sync>(
        &self,
        rt: &R,
        alloc: Global,
        shares: &[Batch],
    ) -> Result<Vec<Result<Vec<Find>, Memory>>, Memory>
        ensures { IfOk result (λ parts. All (λ part. IfOk part
            (λ finds. AreFinds self.now.visit.wave finds.items)) parts.items) }
    {
        let visit = self;
        let found = thread::map_indices(
            rt,
            alloc,
            shares.len(),
            &|worker: usize| -> Result<Vec<Find>, Memory>
                requires { worker < length shares.now }
                ensures { IfOk result (λ finds. AreFinds visit.entry.now.visit.wave finds.items) }
            { visit.visit_share(alloc, shares[worker]) },
        )?;
        Ok(found)
    }

    // The orders that name first items.
    fn firsts(&self) -> Batch {
        let root = self.visit.root();
        let mut firsts = Batch::empty();
        for order in 0..self.visit.orders() {
            if self.visit.child_of(&root, order).is_some() {
                firsts = firsts.with(order);
            }
        }
        firsts
    }

    // The first items, dealt out to workers.
    fn shares_of<R, G>(&self, workers: &Workers<'_, R, G>) -> Result<Vec<Batch>, Memory> {
        let firsts = self.firsts();
        let room = self.visit.room_at(&self.visit.root());
        let taking_part = workers.worth(firsts.len(), room);
        deal(workers.alloc, self.visit.orders(), firsts, taking_part)
    }

    // What all workers found, put together.
    fn together(
        &self,
        alloc: Global,
        found: &[Result<Vec<Find>, Memory>],
    ) -> Result<Vec<Find>, Memory>
        requires { All (λ part. IfOk part (λ finds. AreFinds self.now.visit.wave finds.items)) found.now }
        ensures { IfOk result (λ finds. AreFinds self.now.visit.wave finds.items) }
    {
        let mut kept = self.no_finds(alloc)?.kept;
        for part in found {
            match part {
                Ok(finds) => keep_found(&mut kept, finds.as_slice()),
                Err(_) => return Err(Memory),
            }
        }
        Ok(kept)
    }
}

// Duals of so many orders, none above what a visit takes; 0 where there is none.
fn bounded_duals(alloc: Global, orders: u32, duals: &[u64]) -> Result<Vec<u64>, Memory>
    ensures count { IfOk result (λ bounded. length bounded.items ≡ orders) }
    ensures bounded { IfOk result (λ bounded. AreBounded bounded.items) }
{
    let mut bounded = Vec::new(alloc);
    for order in 0..orders as usize {
        let dual = duals.get(order).copied().unwrap_or(0);
        bounded.push(dual.min(MOST_DUAL))?;
    }
    Ok(bounded)
}

/// The few batches of least slack through each order, of all permitted ones whose slack is below a limit, for duals in
/// parts of a sixtieth: for each order in turn, the least first; where there are fewer the last are empty. Workers each
/// visit the batches of some first items. Of equal slacks the one whose list of orders comes first counts as less, so
/// the answer doesn't depend on the workers. Each find has the length of a shortest tour of its batch.
pub fn visit<R: Threads + Sync, G: Gate>(
    workers: &Workers<'_, R, G>,
    paired: &PairedWave<'_>,
    duals: &[u64],
    limit: u64,
) -> Result<Vec<Find>, Memory>
    ensures { IfOk result (λ finds. AreFinds paired.now.wave.now finds.items) }
{
    let alloc = workers.alloc;
    let bounded = bounded_duals(alloc, paired.wave.orders(), duals)?;
    let given = PairedWave::of(paired.wave, paired.pairs);
    let visit = Visit::of(alloc, &given, bounded.as_slice())?;
    let visit = FindsVisit { visit, limit };
    let shares = visit.shares_of(workers)?;
    let found = visit.visit_shares(workers.rt, alloc, shares.as_slice())?;
    visit.together(alloc, found.as_slice())
}
