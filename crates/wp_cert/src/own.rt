ghost use Rattle.std.specs.Prelude.{◌≡◌, ◌<◌, ◌≤◌, ◌↔◌, [], ℕ, false, IfErr, IfNone, IfOk, IfSome, IsTrue, OnOk, drop};
ghost use Rattle.std.specs.Prelude.{length};
ghost use Rattle.wp_cuts.specs.Prices.{ArePlain};
ghost use Rattle.wp_visit.specs.Items.{AreBounded, most_dual};
ghost use Rattle.wp_pairs.specs.Permitted.{IsPermitted};
ghost use Rattle.wp_cert.specs.MarkTests.{AreLimited, IsBrokenTest, IsLimited, PaysItsLength};
ghost use Rattle.wp_cert.specs.Paths.{ButForMemory};
ghost use Rattle.wp_cert.specs.Refusals.{AreRefused, IsBrokenOwn, IsFirstSlack, IsRefusedVisit};
ghost use Rattle.wp_cert.specs.Terms.{net_of, prices_of};
ghost use Rattle.wp_cert.specs.Trees.{ArePricesAllowed, HasAll, IsDecided, IsRightOwn, IsTightAt};
ghost use Rattle.wp_cert.specs.Trees.{IsTightBatch, IsVisitOfAll};
ghost use Rattle.wp_cert.specs.Visited.{HasEachLength};
ghost use Rattle.wp_lengths.specs.Visits.{Passed, Place};

use crate::path::has_open;
use crate::terms::CheckTerms;
use crate::tested::TestedOwn;
use crate::tree::{CertWhy, Duals, Own};
use crate::visit::go_through;
use std::alloc::Global;
use wp_cuts::are_zero;
use wp_lengths::{PairedWave, SIXTIETHS, Wave, sum_of};
use wp_model::Memory;
use wp_pairs::{Batch, Pairs};
use wp_visit::{MOST_DUAL, Visit};

// Whether there is one dual and one tight batch for each order, and one price for each cut.
fn has_all(terms: &CheckTerms<'_>, pairs: &Pairs, own: &Own) -> bool
    ensures { IsTrue result ↔ HasAll terms.now pairs.now own.now }
{
    own.duals.len() == pairs.orders()
        && own.tight.len() == pairs.orders()
        && own.prices.len() as usize == terms.table().cuts().len()
}

// Whether neither batches nor cuts have a price.
fn is_plain(own: &Own) -> bool
    ensures { IsTrue result ↔ ArePlain (prices_of own.now) }
{
    own.count == 0 && are_zero(own.prices.as_slice())
}

// Whether a node may have its prices: they are plain, or of some orders it isn't decided whether they go together.
fn may_have_prices(pairs: &Pairs, own: &Own) -> bool
    ensures yes { IsTrue result → ArePricesAllowed pairs.now own.now }
    ensures decided { result ≡ false → IsDecided pairs.now }
    ensures priced { result ≡ false → ArePlain (prices_of own.now) → ⊥ }
{
    if is_plain(own) {
        return true;
    }
    has_open(pairs)
}

// Each batch of a wave has a length, since its orders pick at slots of the layout alone: the set of picks of each tells
// it.
fn each_batch_has_a_length(wave: &Wave)
    ensures { HasEachLength wave.now }
{
    for order in 0..wave.orders() {
        wave.order(order).needed_below(1);
    }
}

// A dual as a visit has it.
fn limited(dual: u64) -> u64
    ensures is { IsLimited dual result }
    ensures most { result ≤ most_dual }
{
    if dual < MOST_DUAL { dual } else { MOST_DUAL }
}

// Duals as a visit has them: each at most the greatest of a visit.
fn limited_duals(alloc: Global, duals: &Duals) -> Result<Vec<u64>, Memory>
    ensures limited { IfOk result (λ limited. AreLimited duals.now limited.items) }
    ensures bounded { IfOk result (λ limited. AreBounded limited.items) }
{
    let mut limits = Vec::new(alloc);
    for order in 0..duals.len() {
        limits.push(limited(*duals.at(order)))?;
    }
    Ok(limits)
}

// Goes through the marks of a node with its duals as a visit has them.
fn marks_end(alloc: Global, tested: &TestedOwn<'_>, duals: &[u64]) -> Result<u64, CertWhy>
    requires limited { AreLimited tested.now.own.now.duals duals.now }
    requires bounded { AreBounded duals.now }
    ensures ok { IfOk result (λ end. IsVisitOfAll tested.now.terms.now tested.now.pairs.now
        tested.now.own.now (Passed (drop end tested.now.own.now.marks))) }
    ensures err { IfErr result (ButForMemory (IsRefusedVisit tested.now.terms.now
        tested.now.pairs.now tested.now.own.now (Place [] 0) tested.now.own.now.marks)) }
{
    let wave = tested.terms.wave();
    each_batch_has_a_length(wave);
    let paired = PairedWave::of(wave, tested.pairs);
    match Visit::of(alloc, &paired, duals) {
        Ok(visit) => go_through(tested, &visit),
        Err(Memory) => Err(CertWhy::Memory),
    }
}

// Tests the marks of a node: all places that are visited pass, and no mark is left.
fn test_marks(alloc: Global, tested: &TestedOwn<'_>) -> Result<(), CertWhy>
    ensures ok { OnOk result (IsVisitOfAll tested.now.terms.now tested.now.pairs.now
        tested.now.own.now (Passed [])) }
    ensures err { IfErr result (ButForMemory (AreRefused tested.now.terms.now tested.now.pairs.now
        tested.now.own.now)) }
{
    let Ok(duals) = limited_duals(alloc, &tested.own.duals) else {
        return Err(CertWhy::Memory);
    };
    let end = marks_end(alloc, tested, duals.as_slice())?;
    if end < tested.own.marks.len() {
        return Err(CertWhy::BadMarks);
    }
    Ok(())
}

// Whether a batch that the pairs permit pays just its length.
fn pays_its_length(tested: &TestedOwn<'_>, batch: Batch) -> bool
    requires { IsPermitted tested.now.pairs.now batch }
    ensures { IsTrue result ↔ PaysItsLength tested.now.terms.now tested.now.own.now batch }
{
    let terms = tested.terms;
    let length = terms.wave().batch_length(batch);
    let sum = sum_of(tested.own.duals.as_slice(), batch);
    let charged = sum.saturating_add(u128::from(tested.own.count));
    let off = terms.table().taken_off(tested.own.prices.as_slice(), batch);
    let paid = u128::from(SIXTIETHS * length) + off;
    if charged == paid {
        return true;
    }
    false
}

// Whether a batch is tight for an order.
fn is_tight(tested: &TestedOwn<'_>, order: u32, batch: Batch) -> bool
    ensures { IsTrue result ↔ IsTightBatch tested.now.terms.now tested.now.pairs.now
        tested.now.own.now order batch }
{
    if !tested.pairs.permits(batch) || !batch.has(order) {
        return false;
    }
    pays_its_length(tested, batch)
}

// The first order whose batch isn't tight for it. None comes exactly where all are.
fn first_slack(tested: &TestedOwn<'_>) -> Option<u32>
    requires { HasAll tested.now.terms.now tested.now.pairs.now tested.now.own.now }
    ensures none { IfNone result ((order : ℕ) → order < tested.now.pairs.now.orders
        → IsTightAt tested.now.terms.now tested.now.pairs.now tested.now.own.now order) }
    ensures some { IfSome result (IsFirstSlack tested.now.terms.now tested.now.pairs.now
        tested.now.own.now) }
{
    for order in 0..tested.pairs.orders() {
        if !is_tight(tested, order, *tested.own.tight.at(order)) {
            return Some(order);
        }
    }
    None
}

// Tests the marks and the tight batches of a node whose net is no less than that of the node above.
fn test_tested(alloc: Global, tested: &TestedOwn<'_>) -> Result<(), CertWhy>
    requires { HasAll tested.now.terms.now tested.now.pairs.now tested.now.own.now }
    ensures marked { OnOk result (IsVisitOfAll tested.now.terms.now tested.now.pairs.now
        tested.now.own.now (Passed [])) }
    ensures shown { OnOk result ((order : ℕ) → order < tested.now.pairs.now.orders
        → IsTightAt tested.now.terms.now tested.now.pairs.now tested.now.own.now order) }
    ensures err { IfErr result (ButForMemory (IsBrokenTest tested.now.terms.now tested.now.pairs.now
        tested.now.own.now)) }
{
    test_marks(alloc, tested)?;
    match first_slack(tested) {
        Some(order) => Err(CertWhy::NotTight(order)),
        None => Ok(()),
    }
}

/// Tests what a node has of its own, and tells the net of its prices. The answer is otherwise the first rule that it
/// breaks: `DualsLength`, `DecidedPrices`, `SumLow`, `NotFeasible` or `BadMarks`, `NotTight`; or `Memory` where memory
/// is wanting.
pub fn test_own<'a>(
    alloc: Global,
    terms: &'a CheckTerms<'a>,
    pairs: &'a Pairs,
    own: &'a Own,
    above: u128,
) -> Result<u128, CertWhy>
    requires as_many { pairs.now.orders ≡ length terms.now.wave.orders }
    requires same_cart { pairs.now.cart ≡ terms.now.wave.cart }
    ensures ok { OnOk result (IsRightOwn terms.now pairs.now above own.now) }
    ensures net { IfOk result (λ net. net ≡ net_of terms.now own.now) }
    ensures err { IfErr result (ButForMemory (IsBrokenOwn terms.now pairs.now above own.now)) }
{
    let _few = pairs.orders();
    if !has_all(terms, pairs, own) {
        return Err(CertWhy::DualsLength);
    }
    if !may_have_prices(pairs, own) {
        return Err(CertWhy::DecidedPrices);
    }
    let net = terms.net(own);
    if net < above {
        return Err(CertWhy::SumLow);
    }
    let tested = TestedOwn { terms, pairs, own };
    test_tested(alloc, &tested)?;
    Ok(net)
}
