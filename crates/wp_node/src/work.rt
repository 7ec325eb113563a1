ghost use Rattle.std.specs.Prelude.{◌≡◌, All, IfOk, IfSome, length, slice_index, sum};
ghost use Rattle.wp_cert.specs.Terms.{plain_terms};
ghost use Rattle.wp_cert.specs.Trees.{IsRightOwn};
ghost use Rattle.wp_lengths.specs.Duals.{AreDuals};
ghost use Rattle.wp_price.specs.ShortMarks.{AreShortMarks};
ghost use Rattle.wp_node.specs.Owns.{as_own};
ghost use Rattle.wp_node.specs.Raises.{IsStart};
ghost use Rattle.wp_node.specs.Weights.{IsWeighted};

use crate::ascent::{ascend_within, lower_columns};
use crate::bound::{PricedColumns, Solved, WHOLE, price_columns};
use crate::columns::{add_alone, add_finds, nearest, permitted_columns, ranked};
use crate::finds::{FEW, Find, PARTS, RAISED_PARTS};
use crate::own::{NodeOwn, own_of};
use crate::visit::visit;
use std::alloc::Global;
use std::thread::Threads;
use wp_lengths::{OrderDuals, PairedWave};
use wp_master::Column;
use wp_model::Memory;
use wp_outside::Gate;
use wp_pairs::Batch;
use wp_price::Workers;

/// How many columns for each order a node hands on.
const HANDED_ON: usize = 3;

/// With how many columns for each order its pairs are tried at most.
const WEIGHTED: usize = 6;

/// With fewer columns than this for each order a node looks for more of its own.
const FEW_COLUMNS: usize = 2;

/// How many ascents a node makes at most to find columns.
const MOST_ASCENTS: u32 = 8;

/// How many turns an ascent has.
const TURNS: u64 = 60;

/// How many columns for each order are kept of those that ascents find.
const MOST_FIRST: usize = 4;

/// How often duals are lowered at most that aren't known to be feasible.
const MOST_LOWERED: u32 = 16;

/// A column of a linear program and its weight there, in parts of a whole one.
#[derive(Clone, Copy)]
pub struct Weighted {
    pub column: Column,
    pub weight: u64,
}

/// What a node of the search has of its own; the batches that its children begin with; columns of its linear program
/// with their weights, those of least slack first; and the batches to which its solution is rounded, which are tested
/// before they are taken for a batching.
#[derive(Drop)]
pub struct Worked {
    pub own: NodeOwn,
    pub columns: Vec<Batch>,
    pub weighted: Vec<Weighted>,
    pub whole: Vec<Batch>,
}

// Duals in parts of a sixtieth.
fn in_parts(alloc: Global, duals: &[u64]) -> Result<Vec<u64>, Memory> {
    let mut parts = Vec::new(alloc);
    for dual in duals {
        parts.push(dual.saturating_mul(PARTS))?;
    }
    Ok(parts)
}

// Duals in whole sixtieths, from their parts, rounded down.
fn rounded_down(alloc: Global, parts: &[u64]) -> Result<Vec<u64>, Memory> {
    let mut duals = Vec::new(alloc);
    for part in parts {
        duals.push(*part / PARTS)?;
    }
    Ok(duals)
}

// The duals to which an ascent within some columns leads from those above the node.
fn ascended(alloc: Global, above: &OrderDuals, columns: &[Column]) -> Result<Vec<u64>, Memory> {
    let mut duals = Vec::from_slice(alloc, above.as_slice())?;
    ascend_within(duals.as_mut_slice(), columns, TURNS);
    Ok(duals)
}

// What is found of a wave's batches for duals in sixtieths.
fn visit_by<R: Threads + Sync, G: Gate>(
    workers: &Workers<'_, R, G>,
    paired: &PairedWave<'_>,
    duals: &[u64],
    limit: u64,
) -> Result<Vec<Find>, Memory> {
    let parts = in_parts(workers.alloc, duals)?;
    visit(workers, paired, parts.as_slice(), limit)
}

// Adds the columns that the duals of an ascent within the columns so far make nearly tight, and again from these, a few
// times.
fn add_nearly_tight<R: Threads + Sync, G: Gate>(
    workers: &Workers<'_, R, G>,
    paired: &PairedWave<'_>,
    above: &OrderDuals,
    columns: &mut Vec<Column>,
) -> Result<(), Memory> {
    for _ in 0..MOST_ASCENTS {
        let duals = ascended(workers.alloc, above, columns.as_slice())?;
        let finds = visit_by(workers, paired, duals.as_slice(), u64::MAX)?;
        if !add_finds(columns, finds.as_slice(), FEW)? {
            return Ok(());
        }
    }
    Ok(())
}

// Of columns those that an ascent within them makes nearly tight, at most so many for each order, and each order alone.
fn nearly_tight(
    alloc: Global,
    paired: &PairedWave<'_>,
    above: &OrderDuals,
    columns: Vec<Column>,
) -> Result<Vec<Column>, Memory> {
    let duals = ascended(alloc, above, columns.as_slice())?;
    let parts = in_parts(alloc, duals.as_slice())?;
    let most = MOST_FIRST * paired.wave.orders() as usize;
    let mut kept = nearest(alloc, columns.as_slice(), parts.as_slice(), most)?;
    add_alone(paired, &mut kept)?;
    Ok(kept)
}

// The columns that a node begins with: those that are handed to it and permitted, each order with those alone that are
// to go with it, and where these are few some that ascents find.
fn first_columns<R: Threads + Sync, G: Gate>(
    workers: &Workers<'_, R, G>,
    paired: &PairedWave<'_>,
    above: &OrderDuals,
    handed: &[Batch],
) -> Result<Vec<Column>, Memory> {
    let mut columns = permitted_columns(workers.alloc, paired, handed)?;
    let are_few = columns.len() < FEW_COLUMNS * paired.wave.orders() as usize;
    add_alone(paired, &mut columns)?;
    if !are_few {
        return Ok(columns);
    }
    add_nearly_tight(workers, paired, above, &mut columns)?;
    nearly_tight(workers.alloc, paired, above, columns)
}

// Lowers duals where a batch has too much, as often as a visit finds some.
fn lower_found<R: Threads + Sync, G: Gate>(
    workers: &Workers<'_, R, G>,
    paired: &PairedWave<'_>,
    duals: &mut Vec<u64>,
) -> Result<(), Memory> {
    for _ in 0..MOST_LOWERED {
        let finds = visit_by(workers, paired, duals.as_slice(), RAISED_PARTS)?;
        let mut columns = Vec::new(workers.alloc);
        if !add_finds(&mut columns, finds.as_slice(), FEW)? {
            return Ok(());
        }
        lower_columns(duals.as_mut_slice(), columns.as_slice());
    }
    Ok(())
}

// The duals of the linear program, rounded down, or where it has no answer those of an ascent.
fn solved_duals(
    alloc: Global,
    above: &OrderDuals,
    priced: &PricedColumns,
) -> Result<Vec<u64>, Memory> {
    match &priced.solved {
        Some(found) => rounded_down(alloc, found.duals.as_slice()),
        None => ascended(alloc, above, priced.columns.as_slice()),
    }
}

// The duals to be tried: where not all is priced they are lowered, until no permitted batch has too much, or a few
// times.
fn tried_duals<R: Threads + Sync, G: Gate>(
    workers: &Workers<'_, R, G>,
    paired: &PairedWave<'_>,
    above: &OrderDuals,
    priced: &PricedColumns,
) -> Result<OrderDuals, Memory>
    ensures { IfOk result (λ duals. length duals ≡ length paired.now.wave.now.orders) }
{
    let mut duals = solved_duals(workers.alloc, above, priced)?;
    if !priced.all_priced {
        lower_found(workers, paired, &mut duals)?;
    }
    OrderDuals::limited(workers.alloc, paired.wave.orders(), duals.as_slice())
}

// The orders of a batch that aren't in another.
fn less(batch: Batch, taken: Batch) -> Batch {
    let mut rest = batch;
    for order in 0..64 {
        if taken.has(order) {
            rest = rest.without(order);
        }
    }
    rest
}

// Columns by their weights, the heaviest first.
fn by_weight(alloc: Global, weighted: &[Weighted]) -> Result<Vec<(u64, usize)>, Memory> {
    let mut ranks = Vec::new(alloc);
    for (place, each) in weighted.iter().enumerate() {
        if each.weight > 0 {
            ranks.push((u64::MAX - each.weight, place))?;
        }
    }
    ranks.sort()?;
    Ok(ranks)
}

// What of a column is taken beside orders that are taken already: a whole column less these, or a column in part that
// has none.
fn taken_of(each: &Weighted, taken: Batch) -> Batch {
    let batch = each.column.batch;
    if each.weight < WHOLE && batch.meets(taken) {
        return Batch::empty();
    }
    less(batch, taken)
}

// The heaviest columns that don't meet, one after the other.
fn heaviest_of(
    alloc: Global,
    weighted: &[Weighted],
    taken: &mut Batch,
) -> Result<Vec<Batch>, Memory> {
    let ranks = by_weight(alloc, weighted)?;
    let mut batches = Vec::new(alloc);
    for (_, place) in ranks.iter() {
        if let Some(each) = weighted.get(*place) {
            let batch = taken_of(each, *taken);
            if batch.len() > 0 {
                *taken = taken.union(batch);
                batches.push(batch)?;
            }
        }
    }
    Ok(batches)
}

// A solution rounded: the heaviest columns that don't meet, and each order that is in none of them alone.
fn rounded(alloc: Global, orders: u32, weighted: &[Weighted]) -> Result<Vec<Batch>, Memory> {
    let mut taken = Batch::empty();
    let mut batches = heaviest_of(alloc, weighted, &mut taken)?;
    for order in 0..orders.min(64) {
        if !taken.has(order) {
            batches.push(Batch::empty().with(order))?;
        }
    }
    Ok(batches)
}

// A number by its place, 0 where there is none.
fn number_at(numbers: &[u64], place: usize) -> u64
    ensures { result ≡ slice_index numbers.now place }
{
    match numbers.get(place) {
        Some(number) => *number,
        None => 0,
    }
}

// The columns of least slack with their weights, up to so many.
fn nearest_weighted(
    alloc: Global,
    columns: &[Column],
    solved: &Solved,
    most: usize,
) -> Result<Vec<Weighted>, Memory>
    ensures { IfOk result (λ nearest. All (IsWeighted columns.now solved.now.weights.items)
        nearest.items) }
{
    let ranks = ranked(alloc, columns, solved.duals.as_slice())?;
    let mut nearest = Vec::new(alloc);
    for (_, place) in ranks.iter().take(most) {
        if let Some(column) = columns.get(*place) {
            nearest.push(Weighted {
                column: *column,
                weight: number_at(solved.weights.as_slice(), *place),
            })?;
        }
    }
    Ok(nearest)
}

// Columns without weights.
fn unweighted(alloc: Global, columns: &[Column]) -> Result<Vec<Weighted>, Memory> {
    let mut weighted = Vec::new(alloc);
    for column in columns {
        weighted.push(Weighted {
            column: *column,
            weight: 0,
        })?;
    }
    Ok(weighted)
}

// The columns by which pairs are tried, with their weights.
fn weighted_of(alloc: Global, orders: u32, priced: &PricedColumns) -> Result<Vec<Weighted>, Memory>
    ensures { IfSome priced.now.solved (λ solved. IfOk result (λ weighted.
        All (IsWeighted priced.now.columns.items solved.weights.items) weighted.items)) }
{
    let columns = priced.columns.as_slice();
    match &priced.solved {
        Some(solved) => nearest_weighted(alloc, columns, solved, WEIGHTED * orders as usize),
        None => unweighted(alloc, columns),
    }
}

// The batches of the first columns, so many for each order.
fn handed_on(alloc: Global, orders: u32, weighted: &[Weighted]) -> Result<Vec<Batch>, Memory> {
    let mut batches = Vec::new(alloc);
    for each in weighted.iter().take(HANDED_ON * orders as usize) {
        batches.push(each.column.batch)?;
    }
    Ok(batches)
}

// What a node's children begin with, beside what it has of its own.
fn worked_of(
    alloc: Global,
    orders: u32,
    own: NodeOwn,
    weighted: Vec<Weighted>,
) -> Result<Worked, Memory>
    ensures { IfOk result (λ worked. worked.own ≡ own) }
{
    let columns = handed_on(alloc, orders, weighted.as_slice())?;
    let whole = rounded(alloc, orders, weighted.as_slice())?;
    Ok(Worked {
        own,
        columns,
        weighted,
        whole,
    })
}

/// The work at one node of the search. Its duals come to no less than those above it, and where the linear program over
/// all its permitted batches has an answer, to that, but for what is lost in rounding down to sixtieths. The columns
/// that it begins with are taken from the batches that are handed to it. The workers share its visits and its pricing.
pub fn work_node<R: Threads + Sync, G: Gate>(
    workers: &Workers<'_, R, G>,
    paired: &PairedWave<'_>,
    above: &OrderDuals,
    columns: &[Batch],
) -> Result<Worked, Memory>
    requires { IsStart paired.now.wave.now paired.now.pairs.now above.now }
    ensures right { IfOk result (λ worked. IsRightOwn (plain_terms paired.now.wave.now)
        paired.now.pairs.now (sum above.now) (as_own worked.own)) }
    ensures duals { IfOk result (λ worked. AreDuals worked.own.duals) }
    ensures short { IfOk result (λ worked. AreShortMarks paired.now.wave.now paired.now.pairs.now
        worked.own.duals worked.own.marks) }
{
    let alloc = workers.alloc;
    let orders = paired.wave.orders();
    let first = first_columns(workers, paired, above, columns)?;
    let priced = price_columns(workers, paired, first)?;
    let tried = tried_duals(workers, paired, above, &priced)?;
    let weighted = weighted_of(alloc, orders, &priced)?;
    let own = own_of(workers, paired, above, tried)?;
    worked_of(alloc, orders, own, weighted)
}
