ghost use Rattle.std.specs.Prelude.{◌<◌, IfSome};
ghost use Rattle.wp_batch.specs.Splits.{IsSplit};

use crate::instance::Instance;
use crate::seen::SeenLengths;
use crate::split::{Split, split_of};
use wp_pairs::Batch;

/// How many orders a batch has at most.
const MOST_IN_BATCH: u32 = 8;

/// Two batches between which orders are moved, the orders of both, and what is to be put into batches.
#[derive(Clone, Copy)]
pub struct BatchPair<'a> {
    pub instance: Instance<'a>,
    pub union: Batch,
    pub left: Batch,
    pub right: Batch,
}

/// Two batches between which orders are moved, as they are after some moves.
#[derive(Clone, Copy)]
struct Sides {
    left: Batch,
    right: Batch,
}

impl Sides {
    // An order goes from the left to the right.
    fn given(&self, order: u32) -> Sides
        requires { order < 64 }
    {
        Sides {
            left: self.left.without(order),
            right: self.right.with(order),
        }
    }

    // An order goes from the right to the left, and the sides are exchanged.
    fn taken(&self, order: u32) -> Sides
        requires { order < 64 }
    {
        Sides {
            left: self.right.without(order),
            right: self.left.with(order),
        }
    }

    // The sides exchanged.
    fn turned(&self) -> Sides {
        Sides {
            left: self.right,
            right: self.left,
        }
    }
}

/// The least order of a batch and the others, if it has one.
pub fn least_and_rest(batch: Batch) -> Option<(u32, Batch)>
    ensures { IfSome result (λ both. both.0 < 64) }
{
    let order = batch.least()?;
    if order >= 64 {
        return None;
    }
    Some((order, batch.without(order)))
}

// The cheaper of a division and of two sides, where these are one.
fn cheaper(seen: &mut SeenLengths<'_>, pair: &BatchPair<'_>, best: Split, sides: &Sides) -> Split
    requires { IsSplit pair.now.instance.wave.now pair.now.instance.capacity pair.now.union best }
    ensures { IsSplit pair.now.instance.wave.now pair.now.instance.capacity pair.now.union result }
{
    let Some(split) = split_of(&pair.instance, pair.union, sides.left, sides.right) else {
        return best;
    };
    let left = seen.length_of(split.left);
    if left >= best.total {
        return best;
    }
    let total = left.saturating_add(seen.length_of(split.right));
    if total >= best.total {
        return best;
    }
    Split {
        left: split.left,
        right: split.right,
        total,
    }
}

// The cheapest of a division and of those in which one more of some orders goes to the right.
fn best_giving(
    seen: &mut SeenLengths<'_>,
    pair: &BatchPair<'_>,
    best: Split,
    sides: &Sides,
    orders: Batch,
) -> Split
    requires { IsSplit pair.now.instance.wave.now pair.now.instance.capacity pair.now.union best }
    ensures { IsSplit pair.now.instance.wave.now pair.now.instance.capacity pair.now.union result }
{
    let mut best = best;
    let mut rest = orders;
    for _ in 0..MOST_IN_BATCH {
        let Some((order, others)) = least_and_rest(rest) else {
            break;
        };
        rest = others;
        best = cheaper(seen, pair, best, &sides.given(order));
    }
    best
}

// The cheapest of a division and of those in which an order of the right goes to the left, alone or with a second one
// of what is left of either side.
fn best_taking(
    seen: &mut SeenLengths<'_>,
    pair: &BatchPair<'_>,
    best: Split,
    sides: &Sides,
    left: Batch,
) -> Split
    requires { IsSplit pair.now.instance.wave.now pair.now.instance.capacity pair.now.union best }
    ensures { IsSplit pair.now.instance.wave.now pair.now.instance.capacity pair.now.union result }
{
    let mut best = best;
    let mut rest = pair.right;
    for _ in 0..MOST_IN_BATCH {
        let Some((order, others)) = least_and_rest(rest) else {
            break;
        };
        rest = others;
        let taken = sides.taken(order);
        best = cheaper(seen, pair, best, &taken);
        best = best_giving(seen, pair, best, &taken, others);
        best = best_giving(seen, pair, best, &taken.turned(), left);
    }
    best
}

// The cheapest of a division and of those in which an order of the left goes to the right, alone or against others.
fn best_exchange(
    seen: &mut SeenLengths<'_>,
    pair: &BatchPair<'_>,
    best: Split,
    sides: &Sides,
) -> Split
    requires { IsSplit pair.now.instance.wave.now pair.now.instance.capacity pair.now.union best }
    ensures { IsSplit pair.now.instance.wave.now pair.now.instance.capacity pair.now.union result }
{
    let mut best = best;
    let mut rest = pair.left;
    for _ in 0..MOST_IN_BATCH {
        let Some((order, others)) = least_and_rest(rest) else {
            break;
        };
        rest = others;
        let given = sides.given(order);
        best = cheaper(seen, pair, best, &given);
        best = best_taking(seen, pair, best, &given, others);
    }
    best
}

/// The cheapest of a division of two batches' orders and of those to which a move leads: one order goes to the other
/// batch, two change places, or two of one batch and one of the other do.
pub fn best_move(seen: &mut SeenLengths<'_>, pair: &BatchPair<'_>, best: Split) -> Split
    requires { IsSplit pair.now.instance.wave.now pair.now.instance.capacity pair.now.union best }
    ensures { IsSplit pair.now.instance.wave.now pair.now.instance.capacity pair.now.union result }
{
    let sides = Sides {
        left: pair.left,
        right: pair.right,
    };
    let exchanged = best_exchange(seen, pair, best, &sides);
    best_giving(seen, pair, exchanged, &sides.turned(), pair.right)
}
