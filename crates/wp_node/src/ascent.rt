ghost use Rattle.std.specs.Prelude.{◌≤◌};

use crate::totals::total_in;
use wp_lengths::{SIXTIETHS, total_of};
use wp_master::Column;
use wp_pairs::Batch;

// Raises each dual by a step.
fn raise_each(duals: &mut [u64], step: u64) {
    for dual in duals.iter_mut() {
        *dual = dual.saturating_add(step);
    }
}

// Takes at most so much off the dual of an order, and tells what it took.
fn take_from(duals: &mut [u64], order: u32, most: u64) -> u64
    ensures { result ≤ most }
{
    let place = order as usize;
    if place >= duals.len() {
        return 0;
    }
    let part = duals[place].min(most);
    duals[place] -= part;
    part
}

// Takes an excess off the duals of a batch's orders, at most so much off each, and tells what is left of it.
fn take_off(duals: &mut [u64], batch: Batch, each: u64, excess: u64) -> u64 {
    let mut left = excess;
    let mut rest = batch;
    for _ in 0..batch.len() {
        let Some(order) = rest.least() else {
            return left;
        };
        left -= take_from(duals, order, each.min(left));
        if order < 64 {
            rest = rest.without(order);
        }
    }
    left
}

// Lowers the duals of a column's orders, where they are above sixty times its length: each by the same part, as far as
// it goes.
fn lower(duals: &mut [u64], column: &Column) {
    let batch = column.batch;
    let excess = total_in(duals, batch).saturating_sub(column.length.saturating_mul(SIXTIETHS));
    if excess > 0 {
        let part = excess.div_ceil(u64::from(batch.len().max(1)));
        let left = take_off(duals, batch, part, excess);
        take_off(duals, batch, left, left);
    }
}

// No promise rests on it: duals that come of it are tested before they are taken.
/// Lowers the duals of each column where it has too much.
pub fn lower_columns(duals: &mut [u64], columns: &[Column]) {
    for column in columns {
        lower(duals, column);
    }
}

// The step of a turn, of which so many are left: from an eighth of the mean dual down, as the square of the turns that
// are left.
fn step_of(orders: usize, total: u64, turns: u64, left: u64) -> u64 {
    let turns = turns.max(1);
    let falling = total.saturating_mul(left) / turns;
    let step = falling.saturating_mul(left) / turns;
    step / (orders as u64).saturating_mul(8).max(1)
}

// No promise rests on it: it only says how long the steps are, and which duals are tried.
/// All duals together.
pub fn sum_all(duals: &[u64]) -> u64 {
    u64::try_from(total_of(duals)).unwrap_or(u64::MAX)
}

// No promise rests on it: duals that come of it are tested before they are taken.
/// Changes duals so that their sum rises, in so many turns: in turn all are raised by a step, and those of each column
/// are lowered where it has too much. The steps fall, so that what is too much in the end is mostly nothing.
pub fn ascend_within(duals: &mut [u64], columns: &[Column], turns: u64) {
    let total = sum_all(duals);
    for done in 0..turns {
        raise_each(duals, step_of(duals.len(), total, turns, turns - done));
        lower_columns(duals, columns);
    }
}
