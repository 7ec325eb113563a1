//! Short marks, found by workers that run beside each other.
ghost use Rattle.std.specs.Prelude.{◌≡◌, ◌<◌, ◌≤◌, ◌++◌, ℕ, [], Contains, IfNone, IfOk, IfSome, OnOk, length};
ghost use Rattle.std.specs.Prelude.{slice_index_or};
ghost use Rattle.wp_price.specs.ItemMarks.{AddsAllItems, AddsItemMarks, AreItemMarks, AreMarksAt, AreMarksFound};
ghost use Rattle.wp_price.specs.ItemMarks.{AreNoMarksFound, AreShareMarks};
ghost use Rattle.wp_visit.specs.Places.{IsNoChild};
ghost use Rattle.wp_price.specs.Searches.{AreSharesOf};
ghost use Rattle.wp_price.specs.ShortMarks.{AreShortMarks};

use crate::search::SlackSearch;
use crate::workers::Workers;
use std::alloc::Global;
use std::marker::Model;
use std::thread;
use std::thread::Threads;
use wp_lengths::Marks;
use wp_model::Memory;
use wp_outside::Gate;
use wp_pairs::Batch;

/// For each order of a wave the short marks of the subtree of the first item that it names; none where it names none,
/// or where it is of another worker's share.
#[derive(Drop)]
pub struct ShareMarks {
    of_order: Vec<Option<Marks>>,
}

impl Model for ShareMarks {
    ghost use Rattle.std.specs.Prelude.{Bool, List, Option};

    ghost Value = { List (Option (List Bool)) };

    ghost view = { λ m. m.of_order.items };
}

// Puts marks behind others.
fn append(marks: &mut Marks, more: &Marks) -> Result<(), Memory>
    ensures { OnOk result (marks.new ≡ marks.old ++ more.now) }
{
    for place in 0..more.len() {
        marks.push(more.at(place))?;
    }
    Ok(())
}

impl SlackSearch<'_> {
    // The short marks of the subtree of the first item that an order names. None comes exactly where it names none.
    fn item_marks(&self, alloc: Global, order: u32) -> Result<Option<Marks>, Memory>
        requires { order < self.now.pairing.orders }
        ensures marks { IfOk result (λ found. IfSome found (AreItemMarks self.now order)) }
        ensures none { IfOk result (λ found. IfNone found (IsNoChild self.now.pairing [] order)) }
    {
        let Some(child) = self.child_of(&self.root(), order) else {
            return Ok(None);
        };
        let marks = self.push_marks(&child, Marks::new(alloc))?;
        Ok(Some(marks))
    }

    // The same for an order of a share, and none for any other.
    fn marks_within(&self, alloc: Global, share: Batch, order: u32) -> Result<Option<Marks>, Memory>
        requires { order < self.now.pairing.orders }
        ensures marks { IfOk result (λ found. IfSome found (AreItemMarks self.now order)) }
        ensures none { IfOk result (λ found. Contains share order
            → IfNone found (IsNoChild self.now.pairing [] order)) }
    {
        if share.has(order) {
            self.item_marks(alloc, order)
        } else {
            Ok(None)
        }
    }

    // The short marks of the subtrees of the items of a share.
    fn share_marks(&self, alloc: Global, share: Batch) -> Result<ShareMarks, Memory>
        ensures { IfOk result (AreShareMarks self.now share self.now.pairing.orders) }
    {
        let mut of_order = Vec::new(alloc);
        for order in 0..self.orders() {
            of_order.push(self.marks_within(alloc, share, order)?)?;
        }
        Ok(ShareMarks { of_order })
    }

    // The short marks of all shares, each found by a worker of its own.
    fn marks_of_shares<R: Threads + Sync>(
        &self,
        rt: &R,
        alloc: Global,
        shares: &[Batch],
    ) -> Result<Vec<Result<ShareMarks, Memory>>, Memory>
        ensures count { IfOk result (λ found. length found.items ≡ length shares.now) }
        ensures found { IfOk result (λ found. AreMarksFound self.now shares.now found.items) }
    {
        let search = self;
        let found = thread::map_indices(
            rt,
            alloc,
            shares.len(),
            &|worker: usize| -> Result<ShareMarks, Memory>
                requires { worker < length shares.now }
                ensures { IfOk result (AreShareMarks search.entry.now
                    (slice_index_or shares.entry.now worker []) search.entry.now.pairing.orders) }
            { search.share_marks(alloc, shares[worker]) },
        )?;
        Ok(found)
    }

    // Puts the marks behind others that a worker found for an order.
    fn push_item(
        &self,
        found: &[Result<ShareMarks, Memory>],
        order: u32,
        marks: &mut Marks,
    ) -> Result<(), Memory>
        requires found { (worker : ℕ) (d : _) → worker < length found.now
            → AreMarksAt self.now order (slice_index_or found.now worker d) }
        requires none { AreNoMarksFound found.now (length found.now) order
            → IsNoChild self.now.pairing [] order }
        ensures { OnOk result (AddsItemMarks self.now order marks.old marks.new) }
    {
        for worker in 0..found.len() {
            match &found[worker] {
                Ok(part) => {
                    if let Some(more) = &part.of_order[order as usize] {
                        return append(marks, more);
                    }
                }
                Err(_) => return Err(Memory),
            }
        }
        Ok(())
    }

    // Puts all marks that workers found behind others, in the order of the items.
    fn push_items(
        &self,
        shares: &[Batch],
        found: &[Result<ShareMarks, Memory>],
        marks: &mut Marks,
    ) -> Result<(), Memory>
        requires all { AreSharesOf self.now [] shares.now }
        requires count { length found.now ≡ length shares.now }
        requires found { AreMarksFound self.now shares.now found.now }
        ensures { OnOk result (AddsAllItems self.now marks.old marks.new) }
    {
        for order in 0..self.orders() {
            self.push_item(found, order, marks)?;
        }
        Ok(())
    }

    // Puts the short marks of the subtrees of all first items behind others: workers find them beside each other.
    fn push_all_items<R: Threads + Sync, G: Gate>(
        &self,
        workers: &Workers<'_, R, G>,
        marks: &mut Marks,
    ) -> Result<(), Memory>
        ensures { OnOk result (AddsAllItems self.now marks.old marks.new) }
    {
        let shares = self.shares_of(workers, &self.root())?;
        let found = self.marks_of_shares(workers.rt, workers.alloc, shares.as_slice())?;
        self.push_items(shares.as_slice(), found.as_slice(), marks)
    }

    /// The short marks, found by workers: the mark of the place of no order, and where it is entered the marks of the
    /// subtrees of its first items, in their order.
    pub fn all_marks<R: Threads + Sync, G: Gate>(
        &self,
        workers: &Workers<'_, R, G>,
    ) -> Result<Marks, Memory>
        ensures { IfOk result (AreShortMarks self.now.wave self.now.pairing self.now.duals) }
    {
        let mut marks = Marks::new(workers.alloc);
        if self.is_root_closed() {
            marks.push(false)?;
            return Ok(marks);
        }
        marks.push(true)?;
        self.push_all_items(workers, &mut marks)?;
        Ok(marks)
    }
}
