ghost use Rattle.std.specs.Prelude.{◌≡◌, IfOk, IfSome, false, length};

use crate::columns::{add_finds, nearest, pool_of};
use crate::finds::{PARTS, RAISED_PARTS};
use crate::visit::visit;
use std::alloc::Global;
use std::thread::Threads;
use wp_lengths::{PairedWave, SIXTIETHS, Wave};
use wp_master::{Column, MasterFault, Pair, solve};
use wp_model::Memory;
use wp_outside::Gate;
use wp_price::Workers;

/// The weight of a column that is taken whole.
pub const WHOLE: u64 = 1_048_576;

/// How many turns a program is given.
const MOST_TURNS: u64 = 2_000;

/// How often columns are priced for one node at most.
const MOST_ROUNDS: u32 = 64;

/// How many columns for each order a program has at most before another round; of more the nearest half is kept.
const MOST_COLUMNS: usize = 6;

/// What a linear program over columns gives: for each order a dual, in parts of a sixtieth, and for each column a
/// weight.
#[derive(Drop)]
pub struct Solved {
    pub duals: Vec<u64>,
    pub weights: Vec<u64>,
}

/// Columns, and the answer of the linear program over them, if it has one: a weight for each, in their order. Where all
/// are priced, no permitted batch has a slack below 0 under the duals of the answer, but for what is lost in rounding.
#[derive(Drop)]
pub struct PricedColumns {
    pub columns: Vec<Column>,
    pub solved: Option<Solved>,
    pub all_priced: bool,
}

// A number over a denominator, times a scale, rounded down; 0 where it is out of range.
fn scaled(value: i128, denominator: i128, scale: u64) -> u64 {
    let Some(product) = value.checked_mul(i128::from(scale)) else {
        return 0;
    };
    match product.checked_div(denominator) {
        Some(quotient) => u64::try_from(quotient).unwrap_or(0),
        None => 0,
    }
}

// Numbers over a denominator, times a scale, rounded down.
fn all_scaled(
    alloc: Global,
    values: &[i128],
    denominator: i128,
    scale: u64,
) -> Result<Vec<u64>, Memory>
    ensures { IfOk result (λ parts. length parts.items ≡ length values.now) }
{
    let mut parts = Vec::new(alloc);
    for value in values {
        parts.push(scaled(*value, denominator, scale))?;
    }
    Ok(parts)
}

// The answer of a linear program, in parts.
fn solved_of(alloc: Global, pair: &Pair) -> Result<Solved, Memory>
    ensures { IfOk result (λ solved. length solved.weights.items ≡ length pair.now.weights.items) }
{
    let duals = all_scaled(
        alloc,
        pair.duals.as_slice(),
        pair.denominator,
        SIXTIETHS * PARTS,
    )?;
    let weights = all_scaled(alloc, pair.weights.as_slice(), pair.denominator, WHOLE)?;
    Ok(Solved { duals, weights })
}

// The answer of the linear program over columns, if it has one: a weight for each column.
fn solve_over(alloc: Global, wave: &Wave, columns: &[Column]) -> Result<Option<Solved>, Memory>
    ensures { IfOk result (λ found. IfSome found
        (λ solved. length solved.weights.items ≡ length columns.now)) }
{
    let Some(pool) = pool_of(alloc, wave, columns)? else {
        return Ok(None);
    };
    match solve(alloc, &pool, MOST_TURNS) {
        Ok(pair) => Ok(Some(solved_of(alloc, &pair)?)),
        Err(MasterFault::Memory) => Err(Memory),
        Err(_) => Ok(None),
    }
}

// Adds for each order the permitted batch of least slack through it, where that is below 0, and tells whether any is
// new.
fn add_priced<R: Threads + Sync, G: Gate>(
    workers: &Workers<'_, R, G>,
    paired: &PairedWave<'_>,
    columns: &mut Vec<Column>,
    duals: &[u64],
) -> Result<bool, Memory>
    ensures { IfOk result (λ added. added ≡ false → columns.new.items ≡ columns.old.items) }
{
    let finds = visit(workers, paired, duals, RAISED_PARTS)?;
    add_finds(columns, finds.as_slice(), 1)
}

// Of too many columns the nearest half.
fn trimmed(
    alloc: Global,
    orders: u32,
    columns: Vec<Column>,
    duals: &[u64],
) -> Result<Vec<Column>, Memory> {
    let most = MOST_COLUMNS * orders as usize;
    if columns.len() <= most {
        return Ok(columns);
    }
    nearest(alloc, columns.as_slice(), duals, most / 2)
}

/// Column generation: from some columns on the linear program over the columns is solved, and the permitted batches
/// whose slack is below 0 are added, until there is none. After the last round the program has the answer over the
/// columns so far.
pub fn price_columns<R: Threads + Sync, G: Gate>(
    workers: &Workers<'_, R, G>,
    paired: &PairedWave<'_>,
    columns: Vec<Column>,
) -> Result<PricedColumns, Memory>
    ensures { IfOk result (λ priced. IfSome priced.solved
        (λ solved. length solved.weights.items ≡ length priced.columns.items)) }
{
    let alloc = workers.alloc;
    let wave = paired.wave;
    let mut columns = columns;
    for _ in 0..MOST_ROUNDS {
        let Some(found) = solve_over(alloc, wave, columns.as_slice())? else {
            return Ok(PricedColumns {
                columns,
                solved: None,
                all_priced: false,
            });
        };
        if !add_priced(workers, paired, &mut columns, found.duals.as_slice())? {
            return Ok(PricedColumns {
                columns,
                solved: Some(found),
                all_priced: true,
            });
        }
        columns = trimmed(alloc, wave.orders(), columns, found.duals.as_slice())?;
    }
    let solved = solve_over(alloc, wave, columns.as_slice())?;
    Ok(PricedColumns {
        columns,
        solved,
        all_priced: false,
    })
}
