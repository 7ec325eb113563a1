ghost use Rattle.std.specs.Prelude.{◌≡◌, ◌≤◌, All, IfSome};
ghost use Rattle.wp_lengths.specs.Duals.{greatest_dual};

use std::alloc::Global;
use std::thread::Threads;
use wp_lengths::{GREATEST_DUAL, Marks, Wave};
use wp_outside::{Gate, OpenGate};
use wp_pairs::Pairs;
use wp_price::{Priced, least_slack};
use wp_samples::{PairRow, Slots, has_exactly, pairs_for, wave_of};

/// What is priced: the orders of a wave, how many go into a batch, their pairs and their duals.
#[derive(Clone, Copy)]
pub struct Given {
    pub orders: &'static [Slots],
    pub capacity: u32,
    pub pairs: &'static [PairRow],
    pub duals: &'static [u64],
}

/// The orders of a batch, its slack, and the marks, 1 and 0, where there are marks.
type Found = (&'static [u32], i64, Option<&'static [u8]>);

/// Three orders with a slot each. The tours of the first, the second and the third are 14, 24 and 22 long, those of two
/// are 26, 36 and 36.
const APART: &[Slots] = &[&[(1, 4)], &[(2, 4)], &[(3, 1)]];

/// Three orders at one slot. Each tour is 34 long.
const SAME: &[Slots] = &[&[(3, 4)], &[(3, 4)], &[(3, 4)]];

const DUALS: &[u64] = &[720, 840, 1320];

pub const FREE: Given = Given {
    orders: APART,
    capacity: 2,
    pairs: &[],
    duals: DUALS,
};

const HIGH: Given = Given {
    orders: APART,
    capacity: 2,
    pairs: &[],
    duals: &[720, 840, 1321],
};

pub const TOGETHER: Given = Given {
    orders: APART,
    capacity: 2,
    pairs: &[(0, 1, true)],
    duals: DUALS,
};

const PARTED: Given = Given {
    orders: APART,
    capacity: 2,
    pairs: &[(0, 1, false)],
    duals: DUALS,
};

const TOO_MANY: Given = Given {
    orders: APART,
    capacity: 2,
    pairs: &[(0, 1, true), (1, 2, true)],
    duals: DUALS,
};

pub const ONE_BY_ONE: Given = Given {
    orders: APART,
    capacity: 1,
    pairs: &[],
    duals: DUALS,
};

const FOR_NOTHING: Given = Given {
    orders: APART,
    capacity: 8,
    pairs: &[],
    duals: &[0, 0, 0],
};

const EQUAL: Given = Given {
    orders: SAME,
    capacity: 8,
    pairs: &[],
    duals: &[680, 680, 680],
};

const FIRST: Given = Given {
    orders: SAME,
    capacity: 2,
    pairs: &[],
    duals: &[2040, 0, 0],
};

const LAST: Given = Given {
    orders: SAME,
    capacity: 2,
    pairs: &[],
    duals: &[0, 0, 2040],
};

const DEAREST: Given = Given {
    orders: SAME,
    capacity: 3,
    pairs: &[],
    duals: &[1_000_000_000_000, 1_000_000_000_000, 1_000_000_000_000],
};

/// What is priced, through which order, and what is found.
type Case = (Given, Option<u32>, Option<Found>);

const CASES: &[Case] = &[
    (FREE, None, Some((&[0, 1], 0, Some(b"1100100")))),
    (FREE, Some(0), Some((&[0, 1], 0, None))),
    (FREE, Some(2), Some((&[1, 2], 0, None))),
    (HIGH, None, Some((&[1, 2], -1, None))),
    (HIGH, Some(0), Some((&[0, 1], 0, None))),
    (TOGETHER, None, Some((&[0, 1], 0, Some(b"100")))),
    (TOGETHER, Some(1), Some((&[0, 1], 0, None))),
    (TOGETHER, Some(2), Some((&[2], 0, None))),
    (PARTED, None, Some((&[1, 2], 0, Some(b"110100")))),
    (PARTED, Some(0), Some((&[0], 120, None))),
    (TOO_MANY, None, None),
    (TOO_MANY, Some(1), None),
    (ONE_BY_ONE, None, Some((&[2], 0, Some(b"1000")))),
    (FOR_NOTHING, None, Some((&[0], 840, Some(b"0")))),
    (EQUAL, None, Some((&[0, 1, 2], 0, Some(b"1000")))),
    (FIRST, None, Some((&[0], 0, Some(b"1000")))),
    (LAST, None, Some((&[0, 2], 0, Some(b"1000")))),
    (DEAREST, None, Some((&[0, 1, 2], -2_999_999_997_960, None))),
];

/// Duals, where none is above the greatest.
pub fn duals_of(alloc: Global, rows: &[u64]) -> Option<Vec<u64>>
    ensures { IfSome result (λ duals. All (λ dual. dual ≤ greatest_dual) duals.items) }
{
    let mut duals = Vec::new(alloc);
    for dual in rows {
        if *dual > GREATEST_DUAL {
            return None;
        }
        duals.push(*dual).ok()?;
    }
    Some(duals)
}

/// What is asked of so many workers: the batch of least slack of a wave, through an order where one is given.
#[derive(Clone, Copy)]
pub struct Question<'a> {
    pub wave: &'a Wave,
    pub pairs: &'a Pairs,
    pub duals: &'a Vec<u64>,
    pub through: Option<u32>,
    pub workers: u32,
    pub ghost same_cart: { pairs.now.cart ≡ wave.now.cart },
}

/// What workers find who pass this gate, where it can be asked for.
pub fn asked<R: Threads + Sync, G: Gate>(
    rt: &R,
    alloc: Global,
    question: &Question<'_>,
    gate: &G,
) -> Option<Option<Priced>>
    requires { All (λ dual. dual ≤ greatest_dual) question.now.duals.now.items }
{
    let Question {
        wave,
        pairs,
        duals,
        through,
        workers,
    } = *question;
    if pairs.orders() != wave.orders() || duals.len() != wave.orders() as usize {
        return None;
    }
    if workers < 1 || 16 < workers {
        return None;
    }
    if let Some(order) = through {
        if order >= wave.orders() {
            return None;
        }
    }
    least_slack(rt, alloc, wave, pairs, duals, through, workers, gate).ok()
}

/// Whether the marks are these.
fn are_exactly(marks: &Marks, expected: &[u8]) -> bool {
    for (place, mark) in expected.iter().enumerate() {
        if place as u64 >= marks.len() || marks.at(place as u64) != (*mark == b'1') {
            return false;
        }
    }
    marks.len() == expected.len() as u64
}

fn is_marked(marks: &Option<Marks>, expected: Option<&[u8]>) -> bool {
    match (marks, expected) {
        (Some(marks), Some(expected)) => are_exactly(marks, expected),
        (None, None) => true,
        _ => false,
    }
}

fn is_found(priced: &Priced, expected: Found) -> bool {
    let (orders, slack, marks) = expected;
    has_exactly(priced.batch, orders) && priced.slack == slack && is_marked(&priced.marks, marks)
}

/// A way to price: by so many workers, with lengths that are kept, or without.
type Way = (u32, bool);

const WAYS: &[Way] = &[
    (1, false),
    (1, true),
    (3, false),
    (3, true),
    (16, false),
    (16, true),
];

/// What is found in one way.
fn found<R: Threads + Sync>(
    rt: &R,
    alloc: Global,
    given: Given,
    through: Option<u32>,
    way: Way,
) -> Option<Option<Priced>> {
    let (workers, kept) = way;
    let mut wave = wave_of(alloc, given.orders, 1)?;
    if kept {
        wave.keep_lengths(alloc, given.capacity).ok()?;
    }
    let pairs = pairs_for(&wave, given.capacity, given.pairs)?;
    let duals = duals_of(alloc, given.duals)?;
    let question = Question {
        wave: &wave,
        pairs: &pairs,
        duals: &duals,
        through,
        workers,
    };
    asked(rt, alloc, &question, &OpenGate)
}

/// Whether pricing finds what is expected in one way.
fn finds<R: Threads + Sync>(rt: &R, alloc: Global, case: &Case, way: Way) -> Option<bool> {
    let (given, through, expected) = *case;
    match (found(rt, alloc, given, through, way)?, expected) {
        (Some(priced), Some(expected)) => Some(is_found(&priced, expected)),
        (None, None) => Some(true),
        _ => Some(false),
    }
}

fn wrong_case<R: Threads + Sync>(rt: &R, alloc: Global) -> Option<(usize, Way)> {
    for (place, case) in CASES.iter().enumerate() {
        for way in WAYS {
            if finds(rt, alloc, case, *way) != Some(true) {
                return Some((place, *way));
            }
        }
    }
    None
}

#[test]
fn the_batch_of_least_slack_is_found_with_its_marks_by_any_number_of_workers(rt: HostRuntime) {
    assert_eq!(rt; wrong_case(&rt, rt.alloc()), None);
}
