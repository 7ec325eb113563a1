use crate::master::is_added;
use std::alloc::Global;
use wp_draws::Draws;
use wp_master::{Pool, solve};

/// How many times the lengths of each pool's columns are drawn.
const TIMES: u32 = 3;

/// How many columns a pool has at most.
const MOST_COLUMNS: u32 = 6;

/// The columns that a pool of three orders can have.
const SETS: &[&[u32]] = &[&[0], &[1], &[2], &[0, 1], &[0, 2], &[1, 2], &[0, 1, 2]];

/// A bound of three duals: their sum, each times its factor, is at most this.
#[derive(Clone, Copy)]
struct Side {
    factors: [i128; 3],
    most: i128,
}

/// Duals at which three sides meet, over one denominator.
#[derive(Clone, Copy)]
struct Corner {
    duals: [i128; 3],
    denominator: i128,
}

fn product(left: i128, right: i128) -> i128 {
    left.saturating_mul(right)
}

/// The determinant of three rows.
fn determinant(rows: [[i128; 3]; 3]) -> i128 {
    let [[a, b, c], [d, e, f], [g, h, i]] = rows;
    let first = product(a, product(e, i).saturating_sub(product(f, h)));
    let second = product(b, product(d, i).saturating_sub(product(f, g)));
    let third = product(c, product(d, h).saturating_sub(product(e, g)));
    first.saturating_sub(second).saturating_add(third)
}

/// The factors of a side, with what it is at most in place of one of them.
fn with_most(side: Side, place: usize) -> [i128; 3] {
    let mut factors = side.factors;
    if place < 3 {
        factors[place] = side.most;
    }
    factors
}

/// Where three sides meet in one point, by Cramer's rule.
fn corner_of(sides: [Side; 3]) -> Option<Corner> {
    let [one, two, three] = sides;
    let (first, second, third) = (one.factors, two.factors, three.factors);
    let whole = determinant([first, second, third]);
    if whole == 0 {
        return None;
    }
    let sign = whole.signum();
    let mut duals = [0; 3];
    for place in 0..3 {
        let part = determinant([
            with_most(one, place),
            with_most(two, place),
            with_most(three, place),
        ]);
        duals[place] = product(sign, part);
    }
    Some(Corner {
        duals,
        denominator: product(sign, whole),
    })
}

/// Whether duals over a denominator are within a side.
fn is_within(side: Side, corner: &Corner) -> bool {
    let [a, b, c] = side.factors;
    let [x, y, z] = corner.duals;
    let sum = product(a, x)
        .saturating_add(product(b, y))
        .saturating_add(product(c, z));
    sum <= product(side.most, corner.denominator)
}

fn is_within_all(sides: &[Side], corner: &Corner) -> bool {
    for side in sides {
        if !is_within(*side, corner) {
            return false;
        }
    }
    true
}

/// The sum of the duals of a corner.
fn sum_of(corner: &Corner) -> i128 {
    let [x, y, z] = corner.duals;
    x.saturating_add(y).saturating_add(z)
}

/// Three duals, none below 0: nothing more is asked of them where there is no column.
const NOT_NEGATIVE: [Side; 3] = [
    Side {
        factors: [-1, 0, 0],
        most: 0,
    },
    Side {
        factors: [0, -1, 0],
        most: 0,
    },
    Side {
        factors: [0, 0, -1],
        most: 0,
    },
];

/// A pool, and the sides within which its duals are.
#[derive(Drop)]
struct Bounded {
    pool: Pool,
    sides: Vec<Side>,
}

/// That the duals of a set's orders sum to at most a length.
fn side_of(set: &[u32], length: u64) -> Side {
    let mut factors = [0; 3];
    for order in set {
        if *order < 3 {
            factors[*order as usize] = 1;
        }
    }
    Side {
        factors,
        most: i128::from(length),
    }
}

/// A pool of three orders without columns.
fn without_columns(alloc: Global) -> Option<Bounded> {
    let pool = Pool::new(alloc, 3).ok()?;
    let sides = Vec::from_slice(alloc, &NOT_NEGATIVE).ok()?;
    Some(Bounded { pool, sides })
}

/// Adds a set as a column of a length.
fn add_set(bounded: &mut Bounded, set: &[u32], length: u64) -> Option<()> {
    if !is_added(&mut bounded.pool, set, length) {
        return None;
    }
    bounded.sides.push(side_of(set, length)).ok()
}

/// The pool of some sets, by the ones of a number, each of a drawn length.
fn drawn(alloc: Global, draws: &mut Draws, chosen: u32) -> Option<Bounded> {
    let mut bounded = without_columns(alloc)?;
    for (place, set) in SETS.iter().enumerate() {
        if (chosen >> place.min(31)) & 1 == 1 {
            add_set(&mut bounded, set, draws.below(100))?;
        }
    }
    Some(bounded)
}

/// The corner of the greater sum, the first where both are equal.
fn greater_of(best: Option<Corner>, next: Corner) -> Corner {
    match best {
        Some(known) => {
            let known_sum = product(sum_of(&known), next.denominator);
            let next_sum = product(sum_of(&next), known.denominator);
            if next_sum > known_sum { next } else { known }
        }
        None => next,
    }
}

/// Three of some sides, the third from this one on.
fn best_with(sides: &[Side], two: [Side; 2], best: Option<Corner>) -> Option<Corner> {
    let mut greatest = best;
    for third in sides {
        if let Some(corner) = corner_of([two[0], two[1], *third]) {
            if is_within_all(sides, &corner) {
                greatest = Some(greater_of(greatest, corner));
            }
        }
    }
    greatest
}

fn best_from(sides: &[Side], first: Side, best: Option<Corner>) -> Option<Corner> {
    let mut greatest = best;
    for second in sides {
        greatest = best_with(sides, [first, *second], greatest);
    }
    greatest
}

/// The corner of the greatest sum among all that are within the sides.
fn best_corner(sides: &[Side]) -> Option<Corner> {
    let mut greatest = None;
    for first in sides {
        greatest = best_from(sides, *first, greatest);
    }
    greatest
}

/// The sum of some duals.
fn sum_all(duals: &[i128]) -> i128 {
    let mut sum: i128 = 0;
    for dual in duals {
        sum = sum.saturating_add(*dual);
    }
    sum
}

/// Whether a pool's duals sum to what those of the best corner do.
fn is_solved_best(alloc: Global, bounded: &Bounded) -> bool {
    let Ok(pair) = solve(alloc, &bounded.pool, 1000) else {
        return false;
    };
    let Some(corner) = best_corner(bounded.sides.as_slice()) else {
        return false;
    };
    product(sum_all(pair.duals.as_slice()), corner.denominator)
        == product(sum_of(&corner), pair.denominator)
}

/// Whether the pool of some sets either leaves an order out, or is solved best, however its lengths are drawn.
fn are_solved_best(alloc: Global, draws: &mut Draws, chosen: u32) -> bool {
    for _ in 0..TIMES {
        let Some(bounded) = drawn(alloc, draws, chosen) else {
            return false;
        };
        if bounded.pool.first_uncovered().is_none() && !is_solved_best(alloc, &bounded) {
            return false;
        }
    }
    true
}

/// The first choice of at most six sets that isn't solved best.
fn wrong_choice(alloc: Global) -> Option<u32> {
    let mut draws = Draws::from_state(5);
    for chosen in 1..128u32 {
        if chosen.count_ones() <= MOST_COLUMNS && !are_solved_best(alloc, &mut draws, chosen) {
            return Some(chosen);
        }
    }
    None
}

#[test]
fn each_pool_of_up_to_six_columns_is_solved_as_by_all_corners(rt: HostRuntime) {
    assert_eq!(rt; wrong_choice(rt.alloc()), None);
}
