//! What ends a search where no small wave leads there: pools that need more pivots, or lead to numbers past 128 bits.

use std::alloc::Global;
use wp_lp::{Halt, RootState, scalable, solved};
use wp_master::{Pool, solve};
use wp_pairs::Batch;

/// The batch of the orders, of the first 31, whose number from 1 on has an odd number of ones in common with a
/// column's.
fn odd_batch(column: u32) -> Batch {
    let mut batch = Batch::empty();
    for number in 1..32 {
        if (column & number).count_ones() % 2 == 1 {
            batch = batch.with(number - 1);
        }
    }
    batch
}

/// The batch of all other orders, of 64.
fn other_orders() -> Batch {
    let mut batch = Batch::empty();
    for order in 31..64 {
        batch = batch.with(order);
    }
    batch
}

/// Adds the column of a batch of 64 orders, where it has some of them.
fn is_added(pool: &mut Pool, batch: Batch, length: u64) -> bool {
    if pool.orders() != 64 || batch.len() == 0 || length >= 1 << 40 {
        return false;
    }
    pool.add(batch, length).is_ok()
}

/// The pool of 31 columns of one length over the first 31 orders, a matrix of 0 and 1 with a determinant of 2 ^ 49, and
/// of one more column.
fn odd_columns(alloc: Global, length: u64) -> Option<Pool> {
    let mut pool = Pool::new(alloc, 64).ok()?;
    for column in 1..32 {
        if !is_added(&mut pool, odd_batch(column), length) {
            return None;
        }
    }
    if is_added(&mut pool, other_orders(), length) {
        return Some(pool);
    }
    None
}

/// The state in which a search ends, if it ends in one.
fn state_of(halt: Halt) -> Option<RootState> {
    match halt {
        Halt::Memory => None,
        Halt::NoCover(_) => None,
        Halt::Ended(state) => Some(state),
    }
}

/// The state of a search that is left no pivot after so many.
fn left_after(alloc: Global, turns: u64) -> Option<RootState> {
    let pool = odd_columns(alloc, 1)?;
    state_of(Halt::from(solve(alloc, &pool, turns).err()?))
}

/// Whether the solving of the pool of the longest odd columns ends with two numbers whose product leaves an `i128`.
fn is_too_wide(alloc: Global) -> bool {
    let Some(pool) = odd_columns(alloc, (1 << 40) - 1) else {
        return false;
    };
    match solved(alloc, &pool).err() {
        Some(Halt::Ended(RootState::Wide { left, right })) => left.checked_mul(right).is_none(),
        _ => false,
    }
}

/// Whether the pool of the shortest odd columns is solved.
fn is_solved(alloc: Global) -> bool {
    match odd_columns(alloc, 1) {
        Some(pool) => solved(alloc, &pool).is_ok(),
        None => false,
    }
}

#[test]
fn a_pool_that_is_not_solved_ends_the_search(rt: HostRuntime) {
    assert!(rt; left_after(rt.alloc(), 3) == Some(RootState::Turns { made: 3 }));
    assert!(rt; is_too_wide(rt.alloc()));
    assert!(rt; is_solved(rt.alloc()));
}

/// The state of a search whose pool has such a denominator.
fn state_at(denominator: i128) -> Option<RootState> {
    state_of(scalable(denominator).err()?)
}

#[test]
fn a_denominator_of_86_bits_is_too_wide(rt: HostRuntime) {
    let left = 1 << 85;
    let right = 1 << 42;
    assert!(rt; state_at(left) == Some(RootState::Wide { left, right }));
    assert!(rt; state_at(left - 1) == None);
}
