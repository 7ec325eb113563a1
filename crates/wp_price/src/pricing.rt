ghost use Rattle.std.specs.Prelude.{◌≡◌, ◌≤◌, ◌<◌, ◌↔◌, [], All, IfOk, IfSome, IfNone, IsSome, IsTrue, None, length};
ghost use Rattle.std.specs.Prelude.{pos, ◌≤ℤ◌};
ghost use Rattle.wp_lengths.specs.Duals.{AreFeasible, greatest_dual};
ghost use Rattle.wp_lengths.specs.Visits.{IsVisitOfAll, Passed};
ghost use Rattle.wp_price.specs.ShortMarks.{AreShortMarks};
ghost use Rattle.wp_price.specs.Slacks.{HasNoCandidate, IsLeastSlack};

use crate::priced::Priced;
use crate::search::SlackSearch;
use crate::workers::Workers;
use std::alloc::Global;
use std::thread::Threads;
use wp_lengths::{DualWave, Marks, OrderDuals, Wave};
use wp_model::Memory;
use wp_outside::Gate;
use wp_pairs::Pairs;

// The short marks, where no order is given and the least slack isn't below 0.
fn marks_of<R: Threads + Sync, G: Gate>(
    workers: &Workers<'_, R, G>,
    search: &SlackSearch<'_>,
    through: Option<u32>,
    slack: i64,
) -> Result<Option<Marks>, Memory>
    requires { through ≡ None → pos 0 ≤ℤ slack
        → AreFeasible search.now.wave search.now.pairing search.now.duals }
    ensures marked { IfOk result (λ marks. IsSome marks ↔ ((through ≡ None) × (pos 0 ≤ℤ slack))) }
    ensures short { IfOk result (λ marks. IfSome marks
        (AreShortMarks search.now.wave search.now.pairing search.now.duals)) }
    ensures pass { IfOk result (λ marks. IfSome marks (λ marks.
        IsVisitOfAll search.now.wave search.now.pairing search.now.duals marks (Passed []))) }
{
    if through.is_some() || slack < 0 {
        return Ok(None);
    }
    Ok(Some(search.all_marks(workers)?))
}

// The batch of least slack of a search, of those with an order where one is given, and the short marks.
fn price<R: Threads + Sync, G: Gate>(
    workers: &Workers<'_, R, G>,
    search: &SlackSearch<'_>,
    through: Option<u32>,
) -> Result<Option<Priced>, Memory>
    requires { IfSome through (λ order. order < search.now.pairing.orders) }
    ensures none { IfOk result (λ found. IfNone found (HasNoCandidate search.now.pairing through)) }
    ensures least { IfOk result (λ found. IfSome found (λ priced.
        IsLeastSlack search.now.wave search.now.pairing search.now.duals through priced.batch priced.slack)) }
    ensures marked { IfOk result (λ found. IfSome found
        (λ priced. IsSome priced.marks ↔ ((through ≡ None) × (pos 0 ≤ℤ priced.slack)))) }
    ensures short { IfOk result (λ found. IfSome found (λ priced.
        IfSome priced.marks (AreShortMarks search.now.wave search.now.pairing search.now.duals))) }
    ensures pass { IfOk result (λ found. IfSome found (λ priced. IfSome priced.marks (λ marks.
        IsVisitOfAll search.now.wave search.now.pairing search.now.duals marks (Passed [])))) }
{
    let found = search.best(workers, through)?;
    let Some(best) = found else {
        return Ok(None);
    };
    let slack = search.slack_of(best.batch);
    let marks = marks_of(workers, search, through, slack)?;
    Ok(Some(Priced {
        batch: best.batch,
        slack,
        marks,
    }))
}

/// The permitted batch of least slack, of those with an order where one is given: sixty times its length less the duals
/// of its orders. Of batches with the same slack it is
/// the one whose list of orders comes first. None comes exactly where there is no such batch. Where no order is given
/// and the slack isn't below 0 the duals are feasible, and their short marks come with it.
///
/// Up to so many workers, 1 to 16, search the subtrees of the first items. No more take part than there are batches
/// for; but where no order is given and there are two workers and two first items, at least two search beside each
/// other. Where an order is given, one worker may search alone: to begin a thread for few batches takes longer than to
/// search them. A worker passes the gate by its own number, 1 at first, before it searches the subtree of a first item.
/// The answer doesn't depend on the workers.
pub fn least_slack_by<R: Threads + Sync, G: Gate>(
    workers: &Workers<'_, R, G>,
    given: &DualWave<'_>,
    through: Option<u32>,
) -> Result<Option<Priced>, Memory>
    requires { IfSome through (λ order. order < length given.now.wave.now.orders) }
    ensures none { IfOk result (λ found. IfNone found
        (HasNoCandidate given.now.pairs.now through)) }
    ensures least { IfOk result (λ found. IfSome found (λ priced.
        IsLeastSlack given.now.wave.now given.now.pairs.now given.now.duals.now through priced.batch priced.slack)) }
    ensures marked { IfOk result (λ found. IfSome found
        (λ priced. IsSome priced.marks ↔ ((through ≡ None) × (pos 0 ≤ℤ priced.slack)))) }
    ensures short { IfOk result (λ found. IfSome found (λ priced.
        IfSome priced.marks (AreShortMarks given.now.wave.now given.now.pairs.now given.now.duals.now))) }
    ensures pass { IfOk result (λ found. IfSome found (λ priced. IfSome priced.marks (λ marks.
        IsVisitOfAll given.now.wave.now given.now.pairs.now given.now.duals.now marks (Passed [])))) }
{
    let search = SlackSearch::of(workers.alloc, given)?;
    price(workers, &search, through)
}

/// Whether duals are feasible: no permitted batch has a slack below 0. The workers are as in `least_slack_by`.
pub fn are_feasible<R: Threads + Sync, G: Gate>(
    workers: &Workers<'_, R, G>,
    given: &DualWave<'_>,
) -> Result<bool, Memory>
    ensures { IfOk result (λ feasible. IsTrue feasible
        ↔ AreFeasible given.now.wave.now given.now.pairs.now given.now.duals.now) }
{
    let search = SlackSearch::of(workers.alloc, given)?;
    match search.best(workers, None)? {
        Some(best) => Ok(search.slack_of(best.batch) >= 0),
        None => Ok(true),
    }
}

/// The short marks of duals, which pass where the duals are feasible. The workers find them beside each other.
pub fn short_marks<R: Threads + Sync, G: Gate>(
    workers: &Workers<'_, R, G>,
    given: &DualWave<'_>,
) -> Result<Marks, Memory>
    ensures short { IfOk result (AreShortMarks given.now.wave.now given.now.pairs.now
        given.now.duals.now) }
{
    SlackSearch::of(workers.alloc, given)?.all_marks(workers)
}

/// The same for a wave, pairs for its orders and its cart, and workers that are handed in one by one: up to so many
/// workers, 1 to 16.
pub fn least_slack<R: Threads + Sync, G: Gate>(
    rt: &R,
    alloc: Global,
    wave: &Wave,
    pairs: &Pairs,
    duals: &Vec<u64>,
    through: Option<u32>,
    workers: u32,
    gate: &G,
) -> Result<Option<Priced>, Memory>
    requires orders { pairs.now.orders ≡ length wave.now.orders }
    requires same_cart { pairs.now.cart ≡ wave.now.cart }
    requires count { length duals.now.items ≡ length wave.now.orders }
    requires duals { All (λ dual. dual ≤ greatest_dual) duals.now.items }
    requires through { IfSome through (λ order. order < length wave.now.orders) }
    requires some_workers { 1 ≤ workers }
    requires most_workers { workers ≤ 16 }
    ensures none { IfOk result (λ found. IfNone found (HasNoCandidate pairs.now through)) }
    ensures least { IfOk result (λ found. IfSome found (λ priced.
        IsLeastSlack wave.now pairs.now duals.now.items through priced.batch priced.slack)) }
    ensures marked { IfOk result (λ found. IfSome found
        (λ priced. IsSome priced.marks ↔ ((through ≡ None) × (pos 0 ≤ℤ priced.slack)))) }
    ensures short { IfOk result (λ found. IfSome found
        (λ priced. IfSome priced.marks (AreShortMarks wave.now pairs.now duals.now.items))) }
    ensures pass { IfOk result (λ found. IfSome found (λ priced. IfSome priced.marks (λ marks.
        IsVisitOfAll wave.now pairs.now duals.now.items marks (Passed [])))) }
{
    let workers = Workers {
        rt,
        alloc,
        number: workers,
        gate,
    };
    let _orders = wave.orders();
    let duals = OrderDuals::copy_of(alloc, duals.as_slice())?;
    let given = DualWave {
        wave,
        pairs,
        duals: &duals,
    };
    least_slack_by(&workers, &given, through)
}
