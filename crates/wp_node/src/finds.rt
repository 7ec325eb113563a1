ghost use Rattle.std.specs.Prelude.{◌≡◌, length};
ghost use Rattle.wp_lengths.specs.Waves.{WavePicks};
ghost use Rattle.wp_visit.specs.Places.{IsAt};
ghost use Rattle.wp_node.specs.Finds.{AreFinds, IsFind};

use wp_lengths::SIXTIETHS;
use wp_pairs::Batch;
use wp_price::{RAISE, comes_first};
use wp_visit::{Place, Visit};

/// How many parts a sixtieth of a unit of length has in a visit.
pub const PARTS: u64 = 65_536;

/// By how much slacks are raised in a visit, so that none is below 0.
pub const RAISED_PARTS: u64 = RAISE * PARTS;

/// How many batches are kept for each order.
pub const FEW: usize = 3;

/// A batch, its length, and its slack in parts of a sixtieth, raised.
#[derive(Clone, Copy)]
pub struct Find {
    pub batch: Batch,
    pub length: u64,
    pub slack: u64,
}

// No promise rests on it: it says which batches a visit keeps.
/// The slack of a column whose orders have so much in duals, in parts of a sixtieth, raised.
pub fn slack_of(length: u64, sum: u64) -> u64 {
    length
        .saturating_mul(SIXTIETHS * PARTS)
        .saturating_add(RAISED_PARTS)
        .saturating_sub(sum)
}

/// A place of a visit as a find.
pub fn find_at(visit: &Visit<'_>, place: &Place) -> Find
    requires at { IsAt visit.now place.now }
    requires as_many { visit.now.pairing.orders ≡ length visit.now.wave.orders }
    ensures { IsFind visit.now.wave result }
{
    let length = visit.length_of(place);
    Find {
        batch: place.batch,
        length,
        slack: slack_of(length, place.sum),
    }
}

/// Nothing found yet below a limit: the batch of no order.
pub fn no_find(visit: &Visit<'_>, limit: u64) -> Find
    requires as_many { visit.now.pairing.orders ≡ length visit.now.wave.orders }
    ensures { IsFind visit.now.wave result }
{
    let Find { batch, length, .. } = find_at(visit, &visit.root());
    Find {
        batch,
        length,
        slack: limit,
    }
}

// Whether a find comes before another: it has less slack, or the same slack and the list of its orders comes first.
fn is_nearer(next: &Find, kept: &Find) -> bool {
    if next.slack == kept.slack {
        return comes_first(next.batch, kept.batch);
    }
    next.slack < kept.slack
}

// Puts a find among the few that stand from a place on, and drops the last.
fn keep_among(kept: &mut Vec<Find>, first: usize, find: &Find)
    ensures { (wave : WavePicks) → AreFinds wave kept.old.items → IsFind wave find.now
        → AreFinds wave kept.new.items }
{
    let mut next = *find;
    for at in first..kept.len().min(first.saturating_add(FEW)) {
        if is_nearer(&next, &kept[at]) {
            let later = kept[at];
            kept[at] = next;
            next = later;
        }
    }
}

/// Puts a find among those through each of its orders.
pub fn keep(kept: &mut Vec<Find>, find: &Find)
    ensures { (wave : WavePicks) → AreFinds wave kept.old.items → IsFind wave find.now
        → AreFinds wave kept.new.items }
{
    let mut rest = find.batch;
    for _ in 0..find.batch.len() {
        let Some(order) = rest.least() else {
            return;
        };
        if order < 64 {
            keep_among(kept, FEW * order as usize, find);
            rest = rest.without(order);
        }
    }
}

/// Puts what a worker found among what others did.
pub fn keep_found(kept: &mut Vec<Find>, found: &[Find])
    ensures { (wave : WavePicks) → AreFinds wave kept.old.items → AreFinds wave found.now
        → AreFinds wave kept.new.items }
{
    for (place, find) in found.iter().enumerate() {
        if find.batch.len() > 0 {
            keep_among(kept, place - place % FEW, find);
        }
    }
}
