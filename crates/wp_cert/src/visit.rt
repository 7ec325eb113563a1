ghost use Rattle.std.specs.Prelude.{◌≡◌, ◌+◌, ◌<◌, ◌≤◌, ◌^◌, All, IfErr, IfNone, IfOk, IfSome, IsTrue, [], drop, false, length};
ghost use Rattle.wp_pairs.specs.Permitted.{Pairing};
ghost use Rattle.wp_lengths.specs.Duals.{duals_of, sixtieths_of};
ghost use Rattle.wp_cuts.specs.Prices.{taken_off};
ghost use Rattle.wp_lengths.specs.Lengths.{IsLengthOf};
ghost use Rattle.wp_lengths.specs.Visits.{IsReach, Passed, Place as PlaceDue};
ghost use Rattle.wp_visit.specs.Places.{IsAt};
ghost use Rattle.wp_cert.specs.Kept.{IsOwedAt, IsOwedWith, most_off};
ghost use Rattle.wp_cert.specs.declared.tree.Own.{Own};
ghost use Rattle.wp_cert.specs.Known.{AreKnown, IsKnown};
ghost use Rattle.wp_cert.specs.Levels.{AreLevels, IsBoth};
ghost use Rattle.wp_cert.specs.MarkTests.{IsPaidPlace, IsPlainOwn, IsTestOf, IsTooMuch};
ghost use Rattle.wp_cert.specs.Refusals.{IsRefusedVisit};
ghost use Rattle.wp_cert.specs.Trees.{IsVisitOfAll};
ghost use Rattle.wp_cert.specs.Visited.{HasEachLength, ReachesTooMuch, StandsForMore};

use crate::known::KnownLengths;
use crate::levels::Levels;
use crate::paying::owed;
use crate::terms::CheckTerms;
use crate::tested::TestedOwn;
use crate::tree::CertWhy;
use wp_lengths::{SIXTIETHS, Wave, reach_of, sum_of};
use wp_visit::{MOST_DUAL, Place, Step, Visit, Visitor};

/// The visitor that tests the marks of a node, one by one.
#[derive(Drop)]
pub struct MarkTest<'a> {
    pub tested: TestedOwn<'a>,
    pub levels: Levels,
    pub known: KnownLengths,
    pub next: u64,
    // there are no cuts, and batches have no price
    pub is_plain: bool,
}

// Whether a length in sixtieths is no less than what is owed.
fn covers(length: u64, owed: u64) -> bool
    requires { length < 2 ^ 28 }
    ensures yes { IsTrue result → owed ≤ sixtieths_of length }
    ensures no { result ≡ false → sixtieths_of length < owed }
{
    owed <= SIXTIETHS * length
}

// A number that the length of a place is no less than: what is known of the place before it.
fn known_of(wave: &Wave, known: &KnownLengths, place: &Place) -> u64
    requires known { AreKnown wave.now known.now }
    requires lengths { HasEachLength wave.now }
    requires orders { All (λ order. order < length wave.now.orders) place.now.batch }
    requires both { IsBoth place.now }
    ensures { IsKnown wave.now place.now.batch result }
{
    let _orders = wave.orders();
    known.of(place.before)
}

// A number that the length of a place is no less than: the known one where it covers what is owed, else the length
// itself. Only there the place is measured.
fn length_for(wave: &Wave, levels: &mut Levels, place: &Place, known: u64, owed: u64) -> u64
    requires levels { AreLevels wave.now levels.old }
    requires orders { All (λ order. order < length wave.now.orders) place.now.batch }
    requires both { IsBoth place.now }
    requires known { IsKnown wave.now place.now.batch known }
    ensures levels { AreLevels wave.now levels.new }
    ensures known { IsKnown wave.now place.now.batch result }
    ensures exact { sixtieths_of result < owed → IsLengthOf wave.now place.now.batch result }
{
    if covers(known, owed) {
        known
    } else {
        levels.length_of(wave, place)
    }
}

// What a place has in the node's own duals, which a visit may have limited.
fn sum_at(tested: &TestedOwn<'_>, visit: &Visit<'_>, place: &Place) -> u128
    requires test { IsTestOf visit.now tested.now }
    requires at { IsAt visit.now place.now }
    ensures { result ≡ duals_of tested.now.own.now.duals place.now.batch }
{
    let _orders = visit.orders();
    if place.sum < MOST_DUAL {
        return u128::from(place.sum);
    }
    sum_of(tested.own.duals.as_slice(), place.batch)
}

// The reach of a place in the node's own duals.
fn reach_at(tested: &TestedOwn<'_>, visit: &Visit<'_>, place: &Place) -> u128
    requires test { IsTestOf visit.now tested.now }
    requires at { IsAt visit.now place.now }
    ensures { IsReach visit.now.pairing tested.now.own.now.duals place.now.batch place.now.from
        result }
{
    let _room = visit.room_at(place);
    let reach = visit.reach_of(place);
    if reach < MOST_DUAL {
        return u128::from(reach);
    }
    let duals = tested.own.duals.as_slice();
    reach_of(tested.pairs, duals, place.batch, place.from)
}

// What a place owes, of which so much is taken off.
fn owed_at(tested: &TestedOwn<'_>, visit: &Visit<'_>, place: &Place, off: u128) -> u64
    requires test { IsTestOf visit.now tested.now }
    requires at { IsAt visit.now place.now }
    requires off { off ≡ taken_off tested.now.terms.now.cuts tested.now.own.now.prices place.now.batch }
    requires small { off ≤ most_off }
    ensures { IsOwedAt tested.now.terms.now tested.now.own.now place.now.batch 0 result }
{
    owed(tested.own, sum_at(tested, visit, place), off)
}

// What a place owes with its reach, where so much is taken off.
fn owed_with(tested: &TestedOwn<'_>, visit: &Visit<'_>, place: &Place, off: u128) -> u64
    requires test { IsTestOf visit.now tested.now }
    requires at { IsAt visit.now place.now }
    requires off { off ≡ taken_off tested.now.terms.now.cuts tested.now.own.now.prices place.now.batch }
    requires small { off ≤ most_off }
    ensures { IsOwedWith tested.now.terms.now visit.now.pairing tested.now.own.now place.now.batch
        place.now.from result }
{
    let sum = sum_at(tested, visit, place);
    let reach = reach_at(tested, visit, place);
    owed(tested.own, sum.saturating_add(reach), off)
}

// Tests a place itself: that it pays no more than its length, unless it is the empty one. The answer is a number that
// its length is no less than; or else the place pays more.
fn paid_length(
    terms: &CheckTerms<'_>,
    levels: &mut Levels,
    place: &Place,
    owed: u64,
    known: u64,
) -> Option<u64>
    requires levels { AreLevels terms.now.wave levels.old }
    requires lengths { HasEachLength terms.now.wave }
    requires orders { All (λ order. order < length terms.now.wave.orders) place.now.batch }
    requires both { IsBoth place.now }
    requires size { place.now.size ≡ length place.now.batch }
    requires known { IsKnown terms.now.wave place.now.batch known }
    ensures levels { AreLevels terms.now.wave levels.new }
    ensures known { IfSome result (IsKnown terms.now.wave place.now.batch) }
    ensures paid { (own : Own) → IsOwedAt terms.now own place.now.batch 0 owed
        → IfSome result (λ least. IsPaidPlace terms.now own place.now.batch) }
    ensures too_much { (own : Own) → IsOwedAt terms.now own place.now.batch 0 owed
        → IfNone result (IsTooMuch terms.now own place.now.batch) }
{
    if place.size == 0 {
        return Some(known);
    }
    let length = length_for(terms.wave(), levels, place, known, owed);
    if covers(length, owed) {
        Some(length)
    } else {
        None
    }
}

// Whether a place that isn't entered, and owes so much with its reach, stands for all batches that have more orders
// after it.
fn stands_for_more(
    terms: &CheckTerms<'_>,
    levels: &mut Levels,
    place: &Place,
    owed: u64,
    known: u64,
) -> bool
    requires levels { AreLevels terms.now.wave levels.old }
    requires lengths { HasEachLength terms.now.wave }
    requires orders { All (λ order. order < length terms.now.wave.orders) place.now.batch }
    requires both { IsBoth place.now }
    requires known { IsKnown terms.now.wave place.now.batch known }
    ensures levels { AreLevels terms.now.wave levels.new }
    ensures yes { IsTrue result → (pairing : Pairing) (own : Own)
        → IsOwedWith terms.now pairing own place.now.batch place.now.from owed
        → StandsForMore terms.now pairing own place.now.batch place.now.from }
    ensures no { result ≡ false → (pairing : Pairing) (own : Own)
        → IsOwedWith terms.now pairing own place.now.batch place.now.from owed
        → ReachesTooMuch terms.now pairing own place.now.batch place.now.from }
{
    let length = length_for(terms.wave(), levels, place, known, owed);
    covers(length, owed)
}

impl MarkTest<'_> {
    // What cuts take off a place.
    fn off_at(&self, place: &Place) -> u128
        requires { IsTrue self.now.is_plain → IsPlainOwn self.now.tested }
        ensures is { result ≡ taken_off self.now.tested.terms.now.cuts self.now.tested.own.now.prices
            place.now.batch }
        ensures small { result ≤ most_off }
    {
        if self.is_plain {
            return 0;
        }
        let prices = self.tested.own.prices.as_slice();
        self.tested.terms.table().taken_off(prices, place.batch)
    }

    // What a place owes, of which so much is taken off. Where prices are plain it is what the visit keeps.
    fn owed(&self, visit: &Visit<'_>, place: &Place, off: u128) -> u64
        requires plain { IsTrue self.now.is_plain → IsPlainOwn self.now.tested }
        requires test { IsTestOf visit.now self.now.tested }
        requires at { IsAt visit.now place.now }
        requires off { off ≡ taken_off self.now.tested.terms.now.cuts self.now.tested.own.now.prices
            place.now.batch }
        requires small { off ≤ most_off }
        ensures { IsOwedAt self.now.tested.terms.now self.now.tested.own.now place.now.batch 0 result }
    {
        if self.is_plain && place.sum < MOST_DUAL {
            return place.sum;
        }
        owed_at(&self.tested, visit, place, off)
    }

    // What a place owes with its reach, where so much is taken off. Where prices are plain it is what the visit keeps.
    fn owed_with_reach(&self, visit: &Visit<'_>, place: &Place, off: u128) -> u64
        requires plain { IsTrue self.now.is_plain → IsPlainOwn self.now.tested }
        requires test { IsTestOf visit.now self.now.tested }
        requires at { IsAt visit.now place.now }
        requires off { off ≡ taken_off self.now.tested.terms.now.cuts self.now.tested.own.now.prices
            place.now.batch }
        requires small { off ≤ most_off }
        ensures { IsOwedWith self.now.tested.terms.now visit.now.pairing self.now.tested.own.now
            place.now.batch place.now.from result }
    {
        let _room = visit.room_at(place);
        let owed = place.sum + visit.reach_of(place);
        if self.is_plain && owed < MOST_DUAL {
            return owed;
        }
        owed_with(&self.tested, visit, place, off)
    }
}

impl Visitor for MarkTest<'_> {
    type Fault = CertWhy;

    ghost use Rattle.wp_cert.specs.MarkTests.{EntersTest, FitsTest};

    ghost fits = { λ test task. FitsTest task test };

    ghost enters = { λ task old place from answer new. EntersTest task old place from answer new };

    fn enter(&mut self, visit: &Visit<'_>, place: &Place) -> Result<Step, CertWhy> {
        let terms = self.tested.terms;
        let known = known_of(terms.wave(), &self.known, place);
        let off = self.off_at(place);
        let owed = self.owed(visit, place, off);
        let Some(least) = paid_length(terms, &mut self.levels, place, owed, known) else {
            return Err(CertWhy::NotFeasible(place.batch));
        };
        let next = self.next;
        if next == self.tested.own.marks.len() {
            return Err(CertWhy::BadMarks);
        }
        self.next = next + 1;
        if self.tested.own.marks.at(next) {
            self.known.keep(place.size, place.batch, least);
            return Ok(Step::Deeper);
        }
        let reached = self.owed_with_reach(visit, place, off);
        if stands_for_more(terms, &mut self.levels, place, reached, least) {
            Ok(Step::Past)
        } else {
            Err(CertWhy::BadMarks)
        }
    }
}

// Whether there are no cuts, and batches have no price.
fn is_plain(tested: &TestedOwn<'_>) -> bool
    ensures { IsTrue result → IsPlainOwn tested.now }
{
    tested.terms.table().cuts().is_empty() && tested.own.count == 0
}

/// Goes through the marks of a node from the first on, along a visit of its permitted batches. The answer is where the
/// marks end; or the first refusal, `NotFeasible` with a batch that pays too much, or `BadMarks`. The length of
/// a place is no less than a known number, and the place is measured only where that number isn't enough.
pub fn go_through(tested: &TestedOwn<'_>, visit: &Visit<'_>) -> Result<u64, CertWhy>
    requires { IsTestOf visit.now tested.now }
    ensures ok { IfOk result (λ end. IsVisitOfAll tested.now.terms.now tested.now.pairs.now
        tested.now.own.now (Passed (drop end tested.now.own.now.marks))) }
    ensures err { IfErr result (IsRefusedVisit tested.now.terms.now tested.now.pairs.now
        tested.now.own.now (PlaceDue [] 0) tested.now.own.now.marks) }
{
    let mut test = MarkTest {
        tested: *tested,
        levels: Levels::none(tested.terms.wave()),
        known: KnownLengths::none(),
        next: 0,
        is_plain: is_plain(tested),
    };
    visit.visit_all(&mut test)?;
    Ok(test.next)
}
