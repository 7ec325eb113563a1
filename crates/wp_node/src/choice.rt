ghost use Rattle.std.specs.Prelude.{◌≡◌, ◌↔◌, All, IfNone, IfOk, IfSome, IsTrue};
ghost use Rattle.wp_pairs.specs.Permitted.{AllDecided, AreUndecided};
ghost use Rattle.wp_node.specs.Weights.{HaveOneLength};

use crate::ascent::{ascend_within, sum_all};
use crate::bound::WHOLE;
use crate::totals::total_in;
use crate::work::{Weighted, Worked};
use std::alloc::Global;
use wp_lengths::SIXTIETHS;
use wp_master::Column;
use wp_model::Memory;
use wp_pairs::{Batch, Pairs};

/// How many pairs are tried at most.
const MOST_TRIED: usize = 24;

/// How many turns an ascent has by which a pair is tried.
const TRY_TURNS: u64 = 24;

/// How many pairs are tried again at most.
const MOST_TRIED_AGAIN: usize = 4;

/// How many turns an ascent has by which a pair is tried again.
const TURNS_AGAIN: u64 = 100;

/// What a child gains at least in the comparison of pairs: a tenth of a unit of length.
const LEAST_GAIN: u64 = 6;

/// Two orders, the lower first.
#[derive(Clone, Copy)]
struct Two {
    first: u32,
    second: u32,
}

/// A node of which pairs are tried: what it has, what its duals come to, and what those of a child come to more at
/// least where the child needs no split, since its bound is what the best batching costs.
#[derive(Clone, Copy)]
struct Trial<'a> {
    worked: &'a Worked,
    total: u64,
    closing: u64,
}

// The node with this work, where the best batching costs so much.
fn trial_of<'a>(worked: &'a Worked, cost: u64) -> Trial<'a> {
    let total = sum_all(worked.own.duals.as_slice());
    let closed = SIXTIETHS
        .saturating_mul(cost.saturating_sub(1))
        .saturating_add(1);
    Trial {
        worked,
        total,
        closing: closed.saturating_sub(total).max(LEAST_GAIN),
    }
}

// How many columns, by their weights, have both orders.
fn share_of(weighted: &[Weighted], two: Two) -> u64 {
    let mut share: u64 = 0;
    for each in weighted {
        let batch = each.column.batch;
        if batch.has(two.first) && batch.has(two.second) {
            share = share.saturating_add(each.weight);
        }
    }
    share
}

// How far a share is from one half; None where it is nothing or all.
fn distance_of(share: u64) -> Option<u64> {
    if share == 0 || WHOLE <= share {
        return None;
    }
    Some((2 * share).abs_diff(WHOLE))
}

// Adds the undecided pairs of an order and later ones that are shared in part, by how far from one half.
fn add_shared(
    pairs: &Pairs,
    weighted: &[Weighted],
    first: u32,
    shared: &mut Vec<(u64, u32, u32)>,
) -> Result<(), Memory> {
    for second in first.saturating_add(1)..pairs.orders() {
        if pairs.decided(first, second) {
            continue;
        }
        if let Some(distance) = distance_of(share_of(weighted, Two { first, second })) {
            shared.push((distance, first, second))?;
        }
    }
    Ok(())
}

// The undecided pairs that are shared in part, those nearest to one half first, up to so many.
fn shared_pairs(
    alloc: Global,
    pairs: &Pairs,
    weighted: &[Weighted],
    most: usize,
) -> Result<Vec<Two>, Memory> {
    let mut shared = Vec::new(alloc);
    for first in 0..pairs.orders() {
        add_shared(pairs, weighted, first, &mut shared)?;
    }
    shared.sort()?;
    let mut nearest = Vec::new(alloc);
    for (_, first, second) in shared.iter().take(most) {
        nearest.push(Two {
            first: *first,
            second: *second,
        })?;
    }
    Ok(nearest)
}

// Whether a batch has both orders or none of two that go together, and not both of two that go apart.
fn respects(batch: Batch, two: Two, together: bool) -> bool {
    let first = batch.has(two.first);
    let second = batch.has(two.second);
    if together {
        first == second
    } else {
        !(first && second)
    }
}

// The columns that respect a pair.
fn respecting(
    alloc: Global,
    weighted: &[Weighted],
    two: Two,
    together: bool,
) -> Result<Vec<Column>, Memory> {
    let mut columns = Vec::new(alloc);
    for each in weighted {
        if respects(each.column.batch, two, together) {
            columns.push(each.column)?;
        }
    }
    Ok(columns)
}

// What an order's dual may be raised by for some columns; None where none of them has the order.
fn room_within(duals: &[u64], columns: &[Column], order: u32) -> Option<u64> {
    let mut least = None;
    for column in columns {
        if column.batch.has(order) {
            let most = column.length.saturating_mul(SIXTIETHS);
            let room = most.saturating_sub(total_in(duals, column.batch));
            least = Some(least.map_or(room, |least: u64| least.min(room)));
        }
    }
    least
}

// Raises duals, order by order, as far as some columns have room.
fn raise_within(duals: &mut [u64], columns: &[Column]) {
    for order in 0..duals.len().min(64) as u32 {
        if let Some(room) = room_within(duals, columns, order) {
            raise_dual(duals, order as usize, room);
        }
    }
}

// Raises the dual of an order.
fn raise_dual(duals: &mut [u64], order: usize, room: u64) {
    if order < duals.len() {
        duals[order] = duals[order].saturating_add(room);
    }
}

// What the duals of a child come to more, by an ascent of so many turns within the columns: no more than closes it.
fn gain_of(
    alloc: Global,
    trial: &Trial<'_>,
    two: Two,
    together: bool,
    turns: u64,
) -> Result<u64, Memory> {
    let columns = respecting(alloc, trial.worked.weighted.as_slice(), two, together)?;
    let mut duals = Vec::from_slice(alloc, trial.worked.own.duals.as_slice())?;
    ascend_within(duals.as_mut_slice(), columns.as_slice(), turns);
    raise_within(duals.as_mut_slice(), columns.as_slice());
    let gain = sum_all(duals.as_slice()).saturating_sub(trial.total);
    Ok(gain.max(LEAST_GAIN).min(trial.closing))
}

// What a pair gains: the product of what its children gain.
fn score_of(alloc: Global, trial: &Trial<'_>, two: Two, turns: u64) -> Result<u64, Memory> {
    let together = gain_of(alloc, trial, two, true, turns)?;
    let apart = gain_of(alloc, trial, two, false, turns)?;
    Ok(together.saturating_mul(apart))
}

// The places of pairs by what they gain, those that gain most first; of equal ones the earlier. After one that closes
// both children no further one is tried.
fn by_gain(
    alloc: Global,
    trial: &Trial<'_>,
    pairs: &[Two],
    turns: u64,
) -> Result<Vec<(u64, usize)>, Memory> {
    let most = trial.closing.saturating_mul(trial.closing);
    let mut ranks = Vec::new(alloc);
    for (place, two) in pairs.iter().enumerate() {
        let score = score_of(alloc, trial, *two, turns)?;
        ranks.push((u64::MAX - score, place))?;
        if score == most {
            break;
        }
    }
    ranks.sort()?;
    Ok(ranks)
}

// The pairs that gain most, up to so many, those that gain most first.
fn best_pairs(
    alloc: Global,
    trial: &Trial<'_>,
    pairs: &[Two],
    turns: u64,
    most: usize,
) -> Result<Vec<Two>, Memory> {
    let ranks = by_gain(alloc, trial, pairs, turns)?;
    let mut best = Vec::new(alloc);
    for (_, place) in ranks.iter().take(most) {
        if let Some(two) = pairs.get(*place) {
            best.push(*two)?;
        }
    }
    Ok(best)
}

// Of the pairs that are tried the one that gains most, if any is tried: those that gain most in a short ascent are
// tried again.
fn best_tried(alloc: Global, trial: &Trial<'_>, shared: &[Two]) -> Result<Option<Two>, Memory> {
    let again = best_pairs(alloc, trial, shared, TRY_TURNS, MOST_TRIED_AGAIN)?;
    let best = best_pairs(alloc, trial, again.as_slice(), TURNS_AGAIN, 1)?;
    Ok(best.get(0).copied())
}

// Whether each column has that length.
fn have_length(weighted: &[Weighted], length: u64) -> bool
    ensures { IsTrue result ↔ All (λ each. each.column.length ≡ length) weighted.now }
{
    weighted.iter().all(|each| each.column.length == length)
}

// Whether all columns have one length.
fn has_one_length(weighted: &[Weighted]) -> bool
    ensures { IsTrue result ↔ HaveOneLength weighted.now }
{
    match weighted.first() {
        Some(first) => have_length(weighted, first.column.length),
        None => true,
    }
}

// Two orders, where they are undecided.
fn undecided_two(pairs: &Pairs, two: Two) -> Option<(u32, u32)>
    ensures { IfSome result (λ pair. AreUndecided pairs.now pair.0 pair.1) }
{
    if two.first < two.second
        && two.second < pairs.orders()
        && !pairs.decided(two.first, two.second)
    {
        return Some((two.first, two.second));
    }
    None
}

// The least of the earlier orders with which an order is an undecided pair that is shared in part, if there is any.
fn shared_before(pairs: &Pairs, weighted: &[Weighted], second: u32) -> Option<u32> {
    for first in 0..second {
        let two = Two { first, second };
        if undecided_two(pairs, two).is_some() && distance_of(share_of(weighted, two)).is_some() {
            return Some(first);
        }
    }
    None
}

// Of the undecided pairs that are shared in part the one whose later order is the least, if there is any.
fn least_shared(pairs: &Pairs, weighted: &[Weighted]) -> Option<Two> {
    for second in 0..pairs.orders() {
        if let Some(first) = shared_before(pairs, weighted, second) {
            return Some(Two { first, second });
        }
    }
    None
}

// The pair that the columns of a node suggest, if they share any in part: where all have one length the one whose later
// order is the least, with no trial, since no pair gains anything there; else the one that gains most.
fn suggested(
    alloc: Global,
    pairs: &Pairs,
    worked: &Worked,
    cost: u64,
) -> Result<Option<Two>, Memory> {
    let weighted = worked.weighted.as_slice();
    if has_one_length(weighted) {
        return Ok(least_shared(pairs, weighted));
    }
    let shared = shared_pairs(alloc, pairs, weighted, MOST_TRIED)?;
    best_tried(alloc, &trial_of(worked, cost), shared.as_slice())
}

/// The pair of orders on which a node is split, where the best batching costs so much: of the undecided pairs that the
/// columns of the node's linear program share most nearly by one half, the one whose two children gain most in an
/// ascent, as far as a gain brings them to that cost. Where these columns all have one length it is, of those that they
/// share in part, the pair whose later order is the least. Where no pair is shared in part it is the least undecided
/// pair. None comes exactly where all pairs are decided.
pub fn choose_pair(
    alloc: Global,
    pairs: &Pairs,
    worked: &Worked,
    cost: u64,
) -> Result<Option<(u32, u32)>, Memory>
    ensures some { IfOk result (λ found. IfSome found
        (λ pair. AreUndecided pairs.now pair.0 pair.1)) }
    ensures none { IfOk result (λ found. IfNone found (AllDecided pairs.now)) }
{
    if let Some(two) = suggested(alloc, pairs, worked, cost)? {
        if let Some(pair) = undecided_two(pairs, two) {
            return Ok(Some(pair));
        }
    }
    Ok(pairs.undecided())
}
