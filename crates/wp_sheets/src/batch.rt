//! A batch on its wave's sheet.
ghost use Rattle.std.specs.Prelude.{◌≡◌, ◌<◌, ◌++◌, length, slice_get, Some, IfOk};
ghost use Rattle.std.specs.List.{All, flat_map};
ghost use Rattle.wp_model.specs.Opening.{IsStockRow};
ghost use Rattle.wp_outside.specs.Sections.{GrowsBy};
ghost use Rattle.wp_sheets.specs.Sheets.{IsBatchText, batch_line, name_of_order, order_after_space, pick_line};
ghost use Rattle.wp_sheets.specs.Sheets.{point_after_space, tour_line};

use crate::picks::picks_of;
use crate::stock_lines::article_at;
use std::alloc::Global;
use std::io::Write;
use wp_graph::Point;
use wp_machine::WaveHolds;
use wp_model::{Hold, Memory, Name, StockRow};
use wp_pairs::Batch;
use wp_tables::Stock;

/// One batch of a wave: its orders by their places in the wave, the length of its tour, and the tour point by point.
#[derive(Drop)]
pub struct BatchSheet {
    pub batch: Batch,
    pub length: u64,
    pub walk: Vec<Point>,
}

fn order_at(wave: &WaveHolds, order: u32) -> Name
    requires { order < length wave.now.orders }
    ensures { result ≡ name_of_order wave.now order }
{
    *wave.orders.at(order)
}

fn print_orders(text: &mut Vec<u8>, wave: &WaveHolds, batch: Batch) -> Result<(), Memory>
    requires { All (λ order. order < length wave.now.orders) batch }
    ensures { IfOk result (λ _. text.new.items
        ≡ text.old.items ++ flat_map (order_after_space wave.now) batch) }
{
    for order in 0..wave.orders.len() {
        if batch.has(order) {
            let name = order_at(wave, order);
            write!(text, " {name}").or(Err(Memory))?;
        }
    }
    Ok(())
}

fn print_first_line(
    text: &mut Vec<u8>,
    number: u32,
    wave: &WaveHolds,
    batch: Batch,
    tour_length: u64,
) -> Result<(), Memory>
    requires { All (λ order. order < length wave.now.orders) batch }
    ensures { IfOk result (λ _. text.new.items
        ≡ text.old.items ++ batch_line number wave.now batch tour_length) }
{
    write!(text, "batch {number} length {tour_length} orders").or(Err(Memory))?;
    print_orders(text, wave, batch)?;
    Ok(text.push(b'\n')?)
}

fn print_points(text: &mut Vec<u8>, walk: &[Point]) -> Result<(), Memory>
    ensures { IfOk result (λ _. text.new.items
        ≡ text.old.items ++ flat_map point_after_space walk.now) }
{
    for point in walk {
        let aisle = point.aisle;
        let slot = point.slot;
        write!(text, " {aisle}-{slot}").or(Err(Memory))?;
    }
    Ok(())
}

fn print_tour(text: &mut Vec<u8>, walk: &[Point]) -> Result<(), Memory>
    ensures { IfOk result (λ _. text.new.items ≡ text.old.items ++ tour_line walk.now) }
{
    text.extend_from_slice(b"tour")?;
    print_points(text, walk)?;
    Ok(text.push(b'\n')?)
}

fn row_at(stock: &Stock, number: u32) -> StockRow
    requires { number < length stock.now.rows }
    ensures row { slice_get stock.now.rows number ≡ Some result }
    ensures known { IsStockRow stock.now.articles result }
{
    let rows = stock.as_rows();
    rows[number as usize]
}

fn print_pick(text: &mut Vec<u8>, wave: &WaveHolds, stock: &Stock, pick: Hold) -> Result<(), Memory>
    requires row { pick.row < length stock.now.rows }
    requires order { pick.order < length wave.now.orders }
    ensures { IfOk result (λ _. text.new.items
        ≡ text.old.items ++ pick_line wave.now stock.now pick) }
{
    let row = row_at(stock, pick.row);
    let location = row.location;
    let article = article_at(stock, row.article);
    let quantity = pick.quantity;
    let order = order_at(wave, pick.order);
    writeln!(text, "pick {location} {article} {quantity} {order}").or(Err(Memory))
}

fn print_picks(
    text: &mut Vec<u8>,
    wave: &WaveHolds,
    stock: &Stock,
    picks: &[Hold],
) -> Result<(), Memory>
    requires rows { All (λ pick. pick.row < length stock.now.rows) picks.now }
    requires orders { All (λ pick. pick.order < length wave.now.orders) picks.now }
    ensures { IfOk result (λ _. text.new.items
        ≡ text.old.items ++ flat_map (pick_line wave.now stock.now) picks.now) }
{
    for pick in picks {
        print_pick(text, wave, stock, *pick)?;
    }
    Ok(())
}

/// Adds the part of a batch on its wave's sheet, each line with its line feed: its number, the length of its tour and
/// its orders in the order of the wave; the tour point by point; and a line for each hold of its orders, by row, then
/// by order, and then by units: the location, the article, the units and the order. Contracts see the sheet's batch as
/// the ascending list of its places. An `Err` comes from a want of memory alone.
pub fn append_batch(
    text: &mut Vec<u8>,
    number: u32,
    wave: &WaveHolds,
    stock: &Stock,
    sheet: &BatchSheet,
) -> Result<(), Memory>
    requires places { All (λ order. order < length wave.now.orders) sheet.now.batch }
    requires rows { All (λ hold. hold.row < length stock.now.rows) wave.now.holds }
    ensures { IfOk result (λ _. GrowsBy (IsBatchText number wave.now stock.now sheet.now.batch
        sheet.now.length sheet.now.walk.items) text.old.items text.new.items) }
{
    let picks = picks_of(*text.allocator(), wave.holds.as_slice(), sheet.batch)?;
    print_first_line(text, number, wave, sheet.batch, sheet.length)?;
    print_tour(text, &sheet.walk)?;
    print_picks(text, wave, stock, &picks)
}

/// The part of a batch, as `append_batch` adds it.
pub fn print_batch(
    alloc: Global,
    number: u32,
    wave: &WaveHolds,
    stock: &Stock,
    sheet: &BatchSheet,
) -> Result<Vec<u8>, Memory>
    requires places { All (λ order. order < length wave.now.orders) sheet.now.batch }
    requires rows { All (λ hold. hold.row < length stock.now.rows) wave.now.holds }
    ensures { IfOk result (λ text. IsBatchText number wave.now stock.now sheet.now.batch
        sheet.now.length sheet.now.walk.items text.items) }
{
    let mut text = Vec::new(alloc);
    append_batch(&mut text, number, wave, stock, sheet)?;
    Ok(text)
}
