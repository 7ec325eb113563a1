ghost use Rattle.std.specs.Prelude.{◌≡◌, ◌≤◌, ◌<◌, ◌+◌, ◌*◌, ◌/◌, ◌%◌, pos, IfOk, length};
ghost use Rattle.wp_master.specs.Pivots.{IsStartEntry, IsTable, last_row, places};
ghost use Rattle.wp_master.specs.Spots.{AreStartSpots, AreStoredStarts, IsStartSpot, IsStoredStart};

use crate::grid::Grid;
use crate::pool::Pool;
use crate::spot::Spot;
use std::alloc::Global;
use wp_model::Memory;

// The entry of a column's row in the start table.
fn column_entry(pool: &Pool, row: usize, place: usize) -> i128
    requires row { row < length pool.now.columns }
    requires place { place < places pool.now }
    ensures { IsStartEntry pool.now row place result }
{
    let column = pool.column(row);
    if place == 0 {
        return i128::from(column.length);
    }
    if place <= pool.len() {
        return if place - 1 == row { 1 } else { 0 };
    }
    let order = (place - 1 - pool.len()) as u32;
    if column.batch.has(order) { 1 } else { 0 }
}

// An entry of the start table.
fn start_entry(pool: &Pool, row: usize, place: usize) -> i128
    requires row { row ≤ last_row pool.now }
    requires place { place < places pool.now }
    ensures { IsStartEntry pool.now row place result }
{
    if row < pool.len() {
        return column_entry(pool, row, place);
    }
    if place <= pool.len() { 0 } else { -1 }
}

// An entry that the start table stores: that of the first place, or of an order's.
fn stored_entry(pool: &Pool, row: usize, slot: usize) -> i128
    requires row { row ≤ last_row pool.now }
    ensures { IsStoredStart pool.now row slot result }
{
    if slot == 0 {
        return start_entry(pool, row, 0);
    }
    if slot <= pool.orders() as usize {
        return start_entry(pool, row, pool.len() + slot);
    }
    0
}

// The entries that the start table stores, in rows of a width.
fn stored_entries(
    alloc: Global,
    pool: &Pool,
    width: usize,
    count: usize,
) -> Result<Vec<i128>, Memory>
    requires filled { 0 < width }
    requires count { count ≡ (last_row pool.now + 1) * width }
    ensures count { IfOk result (λ entries. length entries.items ≡ count) }
    ensures each { IfOk result (λ entries. AreStoredStarts pool.now width entries.items) }
{
    let mut entries = Vec::new(alloc);
    for at in 0..count {
        entries.push(stored_entry(pool, at / width, at % width))?;
    }
    Ok(entries)
}

// The columns that the start table stores, those of the first place and of the orders, and a spare one.
pub(crate) fn start_grid(alloc: Global, pool: &Pool) -> Result<Grid, Memory>
    ensures table { IfOk result (λ grid. IsTable grid) }
    ensures rows { IfOk result (λ grid. grid.rows ≡ last_row pool.now + 1) }
    ensures width { IfOk result (λ grid. grid.width ≡ pool.now.orders + 2) }
    ensures denominator { IfOk result (λ grid. grid.denominator ≡ pos 1) }
    ensures each { IfOk result (λ grid. AreStoredStarts pool.now grid.width grid.entries) }
{
    let rows = pool.len() + 1;
    let width = pool.orders() as usize + 2;
    let Some(count) = rows.checked_mul(width) else {
        return Err(Memory);
    };
    let entries = stored_entries(alloc, pool, width, count)?;
    Ok(Grid {
        rows,
        width,
        entries,
        denominator: 1,
    })
}

// The spot of a place of the start table.
fn start_spot(pool: &Pool, place: usize) -> Spot
    ensures { IsStartSpot pool.now place result }
{
    if place == 0 {
        return Spot::Stored(0);
    }
    if place <= pool.len() {
        return Spot::Basic(place - 1);
    }
    Spot::Stored(place - pool.len())
}

// The spots of the start table.
pub(crate) fn start_spots(alloc: Global, pool: &Pool) -> Result<Vec<Spot>, Memory>
    ensures count { IfOk result (λ spots. length spots.items ≡ places pool.now) }
    ensures each { IfOk result (λ spots. AreStartSpots pool.now spots.items) }
{
    let mut spots = Vec::new(alloc);
    for place in 0..1 + pool.len() + pool.orders() as usize {
        spots.push(start_spot(pool, place))?;
    }
    Ok(spots)
}
