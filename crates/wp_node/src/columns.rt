ghost use Rattle.std.specs.Prelude.{◌≡◌, ◌<◌, ◌↔◌, All, IfNone, IfOk, IfSome, IsTrue, false, length};
ghost use Rattle.wp_master.specs.Pools.{IsColumn};

use crate::finds::{FEW, Find, slack_of};
use crate::totals::total_in;
use std::alloc::Global;
use wp_lengths::{PairedWave, Wave};
use wp_master::{Column, Pool};
use wp_model::Memory;
use wp_pairs::Batch;

// Whether a column can stand in a pool of so many orders.
fn is_column(orders: u32, column: &Column) -> bool
    ensures { IsTrue result ↔ IsColumn orders column.now }
{
    for order in orders..64 {
        if column.batch.has(order) {
            return false;
        }
    }
    column.batch.len() > 0 && column.length < 1 << 40
}

/// The pool of these columns, each at its place. None comes exactly where one of them can't stand in a pool.
pub fn pool_of(alloc: Global, wave: &Wave, columns: &[Column]) -> Result<Option<Pool>, Memory>
    ensures kept { IfOk result (λ found. IfSome found (λ pool. pool.columns ≡ columns.now)) }
    ensures none { IfOk result (λ found. IfNone found
        (All (IsColumn (length wave.now.orders)) columns.now → ⊥)) }
{
    let orders = wave.orders();
    let mut pool = Pool::new(alloc, orders)?;
    for column in columns {
        if !is_column(orders, column) {
            return Ok(None);
        }
        pool.add(column.batch, column.length)?;
    }
    Ok(Some(pool))
}

/// Adds a column, where none of the columns has its batch, and tells whether it was added.
pub fn add_new(columns: &mut Vec<Column>, column: Column) -> Result<bool, Memory>
    ensures { IfOk result (λ added. added ≡ false → columns.new.items ≡ columns.old.items) }
{
    if columns.iter().any(|known| known.batch.is(column.batch)) {
        return Ok(false);
    }
    columns.push(column)?;
    Ok(true)
}

// Adds the column of a batch, where the pairs permit it and it is new.
fn add_batch(
    paired: &PairedWave<'_>,
    columns: &mut Vec<Column>,
    batch: Batch,
) -> Result<(), Memory> {
    if paired.pairs.permits(batch) {
        let length = paired.wave.batch_length(batch);
        add_new(columns, Column { batch, length })?;
    }
    Ok(())
}

// No promise rests on these columns: the duals of their pool are tested before they are taken.
/// The columns of those of some batches that the pairs permit.
pub fn permitted_columns(
    alloc: Global,
    paired: &PairedWave<'_>,
    batches: &[Batch],
) -> Result<Vec<Column>, Memory> {
    let mut columns = Vec::new(alloc);
    for batch in batches {
        add_batch(paired, &mut columns, *batch)?;
    }
    Ok(columns)
}

// No promise rests on it: where a column is wanting, the pool has no solution, and other duals are tried.
/// Adds the column of each order with those alone that are to go with it.
pub fn add_alone(paired: &PairedWave<'_>, columns: &mut Vec<Column>) -> Result<(), Memory> {
    for order in 0..paired.pairs.orders() {
        add_batch(paired, columns, paired.pairs.joined_to(order))?;
    }
    Ok(())
}

/// Adds the best of the few batches that were found through each order, up to so many of them, and tells whether any is
/// new.
pub fn add_finds(columns: &mut Vec<Column>, finds: &[Find], most: usize) -> Result<bool, Memory>
    ensures { IfOk result (λ added. added ≡ false → columns.new.items ≡ columns.old.items) }
{
    let mut added = false;
    for (place, find) in finds.iter().enumerate() {
        if place % FEW < most && add_found(columns, find)? {
            added = true;
        }
    }
    Ok(added)
}

/// The column of a find.
pub fn column_of(find: &Find) -> Column
    ensures batch { result.batch ≡ find.now.batch }
    ensures length { result.length ≡ find.now.length }
{
    Column {
        batch: find.batch,
        length: find.length,
    }
}

// Adds a column that was found, if any was, and tells whether it is new.
fn add_found(columns: &mut Vec<Column>, find: &Find) -> Result<bool, Memory>
    ensures { IfOk result (λ added. added ≡ false → columns.new.items ≡ columns.old.items) }
{
    if find.batch.len() == 0 {
        return Ok(false);
    }
    add_new(columns, column_of(find))
}

// No promise rests on the order: it says which columns are looked at first.
/// The slacks of columns, raised, and their places, in ascending order.
pub fn ranked(
    alloc: Global,
    columns: &[Column],
    duals: &[u64],
) -> Result<Vec<(u64, usize)>, Memory> {
    let mut ranks = Vec::new(alloc);
    for (place, column) in columns.iter().enumerate() {
        let slack = slack_of(column.length, total_in(duals, column.batch));
        ranks.push((slack, place))?;
    }
    ranks.sort()?;
    Ok(ranks)
}

// No promise rests on it: it says which columns duals are first made with.
/// The columns of least slack, up to so many.
pub fn nearest(
    alloc: Global,
    columns: &[Column],
    duals: &[u64],
    most: usize,
) -> Result<Vec<Column>, Memory> {
    let ranks = ranked(alloc, columns, duals)?;
    let mut kept = Vec::new(alloc);
    for (_, place) in ranks.iter().take(most) {
        if let Some(column) = columns.get(*place) {
            kept.push(*column)?;
        }
    }
    Ok(kept)
}
