use std::alloc::Global;
use wp_master::{MasterFault, Pool, Table, solve};
use wp_samples::batch_below;

/// The orders of a column, and its length.
type Row = (&'static [u32], u64);

/// How many orders a pool has, its columns, and the least order that no column holds.
const UNCOVERED: &[(u32, &[Row], Option<u32>)] = &[
    (1, &[], Some(0)),
    (1, &[(&[0], 0)], None),
    (3, &[(&[0, 1], 34), (&[0, 2], 34), (&[1, 2], 34)], None),
    (3, &[(&[0, 1], 34)], Some(2)),
    (3, &[(&[2], 1), (&[0], 1)], Some(1)),
    (64, &[(&[1, 63], 7)], Some(0)),
    (64, &[(&[0, 63], 7), (&[1], 1_099_511_627_775)], Some(2)),
];

/// Adds a column, where it is one over so many orders.
pub fn is_added(pool: &mut Pool, orders: &[u32], length: u64) -> bool {
    if length >= 1 << 40 {
        return false;
    }
    match batch_below(orders, pool.orders()) {
        Some(batch) => batch.len() > 0 && pool.add(batch, length).is_ok(),
        None => false,
    }
}

/// The pool of these columns, where all of them can be added.
fn made(alloc: Global, orders: u32, rows: &[Row]) -> Option<Pool> {
    if orders < 1 || orders > 64 {
        return None;
    }
    let mut pool = Pool::new(alloc, orders).ok()?;
    for (orders, length) in rows {
        if !is_added(&mut pool, orders, *length) {
            return None;
        }
    }
    Some(pool)
}

/// The first case of which the pool isn't made, has another number of columns, or tells another uncovered order.
fn wrong_uncovered(alloc: Global) -> Option<usize> {
    for (case, (orders, rows, expected)) in UNCOVERED.iter().enumerate() {
        match made(alloc, *orders, rows) {
            None => return Some(case),
            Some(pool) => {
                if pool.len() != rows.len() || pool.first_uncovered() != *expected {
                    return Some(case);
                }
            }
        }
    }
    None
}

#[test]
fn a_pool_tells_the_first_order_that_no_column_holds(rt: HostRuntime) {
    assert_eq!(rt; wrong_uncovered(rt.alloc()), None);
}

/// Three orders in three columns of two, each of length 34.
const PAIRS: &[Row] = &[(&[0, 1], 34), (&[0, 2], 34), (&[1, 2], 34)];

/// A pivot's row and place, or none, and the table of three pairs then: its entries row by row, and its denominator
/// last.
const TABLES: &[(Option<(usize, usize)>, &[i128])] = &[
    (
        None,
        &[
            34, 1, 0, 0, 1, 1, 0, 34, 0, 1, 0, 1, 0, 1, 34, 0, 0, 1, 0, 1, 1, 0, 0, 0, 0, -1, -1,
            -1, 1,
        ],
    ),
    (
        Some((1, 6)),
        &[
            34, 1, 0, 0, 1, 1, 0, 34, 0, 1, 0, 1, 0, 1, 0, 0, -1, 1, -1, 1, 0, 34, 0, 1, 0, 0, -1,
            0, 1,
        ],
    ),
];

/// The entries of a table, row by row, and its denominator last.
fn shown(alloc: Global, table: &Table) -> Option<Vec<i128>> {
    let mut entries = Vec::new(alloc);
    for row in 0..table.rows() {
        for place in 0..table.width() {
            entries.push(table.entry(row, place)).ok()?;
        }
    }
    entries.push(table.denominator()).ok()?;
    Some(entries)
}

/// The start table of a pool, after a pivot in a row at a place, where one is named.
fn pivoted(alloc: Global, pool: &Pool, at: Option<(usize, usize)>) -> Option<Table> {
    let table = Table::start(alloc, pool).ok()?;
    let Some((row, place)) = at else {
        return Some(table);
    };
    let within = row < pool.len() && 1 <= place && place < table.width();
    if !within || table.entry(row, place) <= 0 {
        return None;
    }
    if table.denominator() != 1 {
        return None;
    }
    table.pivot(row, place).ok()
}

/// The first case of which the table is another.
fn wrong_table(alloc: Global) -> Option<usize> {
    let pool = made(alloc, 3, PAIRS)?;
    for (case, (at, expected)) in TABLES.iter().enumerate() {
        if !shows(alloc, &pool, *at, expected) {
            return Some(case);
        }
    }
    None
}

fn shows(alloc: Global, pool: &Pool, at: Option<(usize, usize)>, expected: &[i128]) -> bool {
    match pivoted(alloc, pool, at) {
        Some(table) => match shown(alloc, &table) {
            Some(entries) => entries.as_slice() == expected,
            None => false,
        },
        None => false,
    }
}

#[test]
fn a_pivot_leads_to_the_next_table(rt: HostRuntime) {
    assert!(rt; made(rt.alloc(), 3, PAIRS).is_some());
    assert_eq!(rt; wrong_table(rt.alloc()), None);
}

/// A pivot's row and place, or none, and in the table of three pairs then: the lowest place of the last row below 0,
/// and two rows and a place, with whether the first precedes the other over its entry there.
type Choice = (
    Option<(usize, usize)>,
    Option<usize>,
    (usize, usize, usize),
    bool,
);

const CHOICES: &[Choice] = &[
    (None, Some(4), (0, 1, 4), false),
    (None, Some(4), (1, 0, 4), true),
    (None, Some(4), (0, 0, 4), false),
    (Some((1, 6)), Some(5), (0, 1, 4), false),
    (Some((1, 6)), Some(5), (2, 0, 5), true),
];

fn chooses(
    table: &Table,
    rising: Option<usize>,
    at: (usize, usize, usize),
    expected: bool,
) -> bool {
    let (row, other, place) = at;
    if row >= table.rows() || other >= table.rows() || place >= table.width() {
        return false;
    }
    let precedes = match table.precedes(row, other, place) {
        Ok(precedes) => precedes,
        Err(_) => return false,
    };
    table.rising_place() == rising && precedes == expected
}

/// The first case in which another place or row is chosen.
fn wrong_choice(alloc: Global) -> Option<usize> {
    let pool = made(alloc, 3, PAIRS)?;
    for (case, (at, rising, rows, expected)) in CHOICES.iter().enumerate() {
        match pivoted(alloc, &pool, *at) {
            None => return Some(case),
            Some(table) => {
                if !chooses(&table, *rising, *rows, *expected) {
                    return Some(case);
                }
            }
        }
    }
    None
}

#[test]
fn a_pivot_is_chosen_by_signs_and_ratios(rt: HostRuntime) {
    assert_eq!(rt; wrong_choice(rt.alloc()), None);
}

/// How many orders a pool has and its columns, and of the pair then the weights, the duals and the denominator.
type Solved = (
    u32,
    &'static [Row],
    (&'static [i128], &'static [i128], i128),
);

const SOLVED: &[Solved] = &[
    (1, &[(&[0], 7)], (&[1], &[7], 1)),
    (3, PAIRS, (&[1, 1, 1], &[34, 34, 34], 2)),
    (
        2,
        &[(&[0], 3), (&[1], 4), (&[0, 1], 5)],
        (&[0, 0, 1], &[3, 2], 1),
    ),
    (
        2,
        &[(&[0], 0), (&[1], 0), (&[0, 1], 5)],
        (&[1, 1, 0], &[0, 0], 1),
    ),
    (
        2,
        &[(&[0, 1], 0), (&[0], 0), (&[1], 9), (&[0], 1)],
        (&[1, 0, 0, 0], &[0, 0], 1),
    ),
];

/// Whether a pool's pair is this one.
fn solves(alloc: Global, pool: &Pool, weights: &[i128], duals: &[i128], denominator: i128) -> bool {
    match solve(alloc, pool, 100) {
        Ok(pair) => {
            pair.weights.as_slice() == weights
                && pair.duals.as_slice() == duals
                && pair.denominator == denominator
        }
        Err(_) => false,
    }
}

/// The first case in which the pair is another.
fn wrong_pair(alloc: Global) -> Option<usize> {
    for (case, (orders, rows, pair)) in SOLVED.iter().enumerate() {
        let (weights, duals, denominator) = pair;
        match made(alloc, *orders, rows) {
            None => return Some(case),
            Some(pool) => {
                if !solves(alloc, &pool, weights, duals, *denominator) {
                    return Some(case);
                }
            }
        }
    }
    None
}

#[test]
fn a_pool_is_solved_by_weights_and_duals(rt: HostRuntime) {
    assert_eq!(rt; wrong_pair(rt.alloc()), None);
}

/// How many orders a pool has, its columns, how many pivots are allowed, and the fault then.
const UNSOLVED: &[(u32, &[Row], u64, MasterFault)] = &[
    (3, &[(&[0, 1], 34)], 100, MasterFault::NoCover(2)),
    (3, &[(&[0, 1], 34)], 0, MasterFault::NoCover(2)),
    (2, &[], 0, MasterFault::NoCover(0)),
    (1, &[(&[0], 7)], 0, MasterFault::Turns { made: 0 }),
    (3, PAIRS, 0, MasterFault::Turns { made: 0 }),
    (3, PAIRS, 2, MasterFault::Turns { made: 2 }),
];

/// The first case in which the fault is another.
fn wrong_fault(alloc: Global) -> Option<usize> {
    for (case, (orders, rows, turns, expected)) in UNSOLVED.iter().enumerate() {
        match made(alloc, *orders, rows) {
            None => return Some(case),
            Some(pool) => {
                if solve(alloc, &pool, *turns).err() != Some(*expected) {
                    return Some(case);
                }
            }
        }
    }
    None
}

#[test]
fn a_pool_that_is_not_solved_has_its_fault(rt: HostRuntime) {
    assert_eq!(rt; wrong_fault(rt.alloc()), None);
}

/// The orders whose number from 1 on has an odd number of ones in common with a column's.
fn odd_orders(alloc: Global, column: u32) -> Option<Vec<u32>> {
    let mut orders = Vec::new(alloc);
    for number in 1..32 {
        if (column & number).count_ones() % 2 == 1 {
            orders.push(number - 1).ok()?;
        }
    }
    Some(orders)
}

/// The pool of 31 orders in 31 such columns of one length: a matrix of 0 and 1 with the greatest determinant of its
/// size, 2 ^ 49.
fn odd_columns(alloc: Global, length: u64) -> Option<Pool> {
    let mut pool = Pool::new(alloc, 31).ok()?;
    for column in 1..32 {
        let orders = odd_orders(alloc, column)?;
        if !is_added(&mut pool, orders.as_slice(), length) {
            return None;
        }
    }
    Some(pool)
}

/// Whether each weight and each dual of the pool of odd columns of length 1 is one sixteenth.
fn is_solved_evenly(alloc: Global) -> bool {
    let Some(pool) = odd_columns(alloc, 1) else {
        return false;
    };
    let even = [1i128 << 45; 31];
    solves(alloc, &pool, &even, &even, 1 << 49)
}

/// Whether the pool of the longest odd columns leads to a product past an `i128`.
fn is_too_wide(alloc: Global) -> bool {
    let Some(pool) = odd_columns(alloc, (1 << 40) - 1) else {
        return false;
    };
    match solve(alloc, &pool, 100) {
        Err(MasterFault::Wide { left, right }) => left.checked_mul(right).is_none(),
        _ => false,
    }
}

#[test]
fn a_pool_is_solved_up_to_128_bits(rt: HostRuntime) {
    assert!(rt; is_solved_evenly(rt.alloc()));
    assert!(rt; is_too_wide(rt.alloc()));
}
