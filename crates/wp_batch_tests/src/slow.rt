ghost use Rattle.std.specs.Prelude.{◌≡◌, ◌<◌, All, length};

use crate::price::{Given, Question, asked, duals_of};
use std::alloc::Global;
use std::thread::Threads;
use wp_lengths::{Wave, sum_of};
use wp_outside::OpenGate;
use wp_pairs::{Batch, Pairs};
use wp_price::Priced;
use wp_samples::{PairRow, Slots, pairs_for, wave_of};

/// Six orders with several slots, two of them equal.
pub const ORDERS: &[Slots] = &[
    &[(1, 4), (2, 1)],
    &[(2, 4), (3, 1)],
    &[(1, 1), (1, 4), (3, 4)],
    &[(2, 4), (3, 1)],
    &[(1, 2)],
    &[(3, 3), (3, 4)],
];

/// The six orders, with a capacity of three.
pub const SIX: Given = Given {
    orders: ORDERS,
    capacity: 3,
    pairs: &[],
    duals: &[900, 1100, 1500, 1100, 300, 1000],
};

/// Duals of six orders, and pairs.
pub const GIVEN: &[(&[u64], &[PairRow])] = &[
    (&[0, 0, 0, 0, 0, 0], &[]),
    (&[900, 1100, 1500, 1100, 300, 1000], &[]),
    (&[900, 1100, 1500, 1100, 300, 1000], &[(0, 5, true)]),
    (
        &[600, 700, 500, 700, 600, 600],
        &[(1, 3, false), (0, 2, false)],
    ),
    (
        &[600, 900, 500, 900, 0, 600],
        &[(0, 4, true), (1, 4, false), (3, 5, true)],
    ),
    (&[0, 0, 0, 0, 0, 5000], &[(2, 5, false)]),
    (
        &[2000, 2000, 2000, 2000, 2000, 2000],
        &[(0, 1, true), (2, 3, true)],
    ),
];

/// The batch whose orders are the ones of a number.
pub fn batch_at(wave: &Wave, bits: u32) -> Batch
    ensures { All (λ order. order < length wave.now.orders) result }
{
    let mut batch = Batch::empty();
    for order in 0..wave.orders() {
        if (bits >> order.min(31)) & 1 == 1 {
            batch = batch.with(order);
        }
    }
    batch
}

/// The slack of a batch.
fn slack_of(wave: &Wave, duals: &Vec<u64>, batch: Batch) -> Option<i128>
    requires known { All (λ order. order < length wave.now.orders) batch }
    requires count { length duals.now.items ≡ length wave.now.orders }
{
    let length = i128::from(60 * wave.batch_length(batch));
    let sum = i128::try_from(sum_of(duals.as_slice(), batch)).ok()?;
    length.checked_sub(sum)
}

/// The orders of a batch, each counted from 1, with zeros behind.
fn list_of(batch: Batch) -> [u32; 64] {
    let mut list = [0; 64];
    let mut next = 0;
    for order in 0..64 {
        if batch.has(order) && next < 64 {
            list[next] = order + 1;
            next += 1;
        }
    }
    list
}

/// Whether the list of one batch comes before that of another.
fn comes_before(left: Batch, right: Batch) -> bool {
    let (lefts, rights) = (list_of(left), list_of(right));
    for place in 0..64 {
        if lefts[place] != rights[place] {
            return lefts[place] < rights[place];
        }
    }
    false
}

/// The better of the best so far and a batch with a slack.
fn better_of(best: Option<(Batch, i128)>, batch: Batch, slack: i128) -> (Batch, i128) {
    match best {
        None => (batch, slack),
        Some((known, least)) => {
            if slack < least || (slack == least && comes_before(batch, known)) {
                (batch, slack)
            } else {
                (known, least)
            }
        }
    }
}

/// Whether a batch is asked for.
fn is_wanted(pairs: &Pairs, through: Option<u32>, batch: Batch) -> bool {
    match through {
        Some(order) => batch.has(order) && pairs.permits(batch),
        None => pairs.permits(batch),
    }
}

/// The best batch of all that there are, one after the other.
fn best_of_all(
    wave: &Wave,
    pairs: &Pairs,
    duals: &Vec<u64>,
    through: Option<u32>,
) -> Option<(Batch, i128)>
    requires count { length duals.now.items ≡ length wave.now.orders }
{
    let mut best = None;
    for bits in 0..64 {
        let batch = batch_at(wave, bits);
        if is_wanted(pairs, through, batch) {
            best = Some(better_of(best, batch, slack_of(wave, duals, batch)?));
        }
    }
    best
}

fn are_same(priced: Option<Priced>, best: Option<(Batch, i128)>) -> bool {
    match (priced, best) {
        (Some(priced), Some((batch, slack))) => {
            priced.batch.is(batch) && i128::from(priced.slack) == slack
        }
        (None, None) => true,
        _ => false,
    }
}

/// Through which order a batch is to go, if through one, and how many workers look for it.
type Way = (Option<u32>, u32);

/// Whether what is given for a wave leads to what going through the list of all its batches finds.
fn is_same<R: Threads + Sync>(
    rt: &R,
    alloc: Global,
    wave: &Wave,
    given: Given,
    way: Way,
) -> Option<bool> {
    let (through, workers) = way;
    let pairs = pairs_for(wave, given.capacity, given.pairs)?;
    let duals = duals_of(alloc, given.duals)?;
    if duals.len() != wave.orders() as usize {
        return None;
    }
    let question = Question {
        wave,
        pairs: &pairs,
        duals: &duals,
        through,
        workers,
    };
    let found = asked(rt, alloc, &question, &OpenGate)?;
    Some(are_same(found, best_of_all(wave, &pairs, &duals, through)))
}

/// Whether any number of workers finds it.
fn are_same_by_any<R: Threads + Sync>(
    rt: &R,
    alloc: Global,
    wave: &Wave,
    given: Given,
    through: Option<u32>,
) -> bool {
    for workers in [1, 3, 16] {
        if is_same(rt, alloc, wave, given, (through, workers)) != Some(true) {
            return false;
        }
    }
    true
}

/// Whether it is the same in a wave of six orders through each of them and through none.
pub fn are_same_through_all<R: Threads + Sync>(
    rt: &R,
    alloc: Global,
    wave: &Wave,
    given: Given,
) -> bool {
    for order in 0..6 {
        if !are_same_by_any(rt, alloc, wave, given, Some(order)) {
            return false;
        }
    }
    are_same_by_any(rt, alloc, wave, given, None)
}

/// Whether it is the same in the wave of what is given, which has no cart.
fn are_same_without_cart<R: Threads + Sync>(rt: &R, alloc: Global, given: Given) -> Option<bool> {
    let wave = wave_of(alloc, given.orders, 1)?;
    Some(are_same_through_all(rt, alloc, &wave, given))
}

fn wrong_row<R: Threads + Sync>(rt: &R, alloc: Global) -> Option<(usize, u32)> {
    for (place, (duals, pairs)) in GIVEN.iter().enumerate() {
        for capacity in [1, 2, 3, 6, 8] {
            let given = Given {
                orders: ORDERS,
                capacity,
                pairs: *pairs,
                duals: *duals,
            };
            if are_same_without_cart(rt, alloc, given) != Some(true) {
                return Some((place, capacity));
            }
        }
    }
    None
}

#[test]
fn pricing_finds_what_a_list_of_all_batches_shows(rt: HostRuntime) {
    assert_eq!(rt; wrong_row(&rt, rt.alloc()), None);
}
