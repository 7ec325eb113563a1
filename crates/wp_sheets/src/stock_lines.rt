//! The lines of refills and of rows as they stand.
ghost use Rattle.std.specs.Prelude.{◌≡◌, ◌<◌, ◌++◌, length, IfOk};
ghost use Rattle.std.specs.List.{All};
ghost use Rattle.wp_sheets.specs.StockLines.{name_of_article, refill_line, refill_lines, row_line};

use std::alloc::Global;
use std::io::Write;
use wp_machine::Refill;
use wp_model::{Hold, Memory, Name, Row};
use wp_tables::Stock;

fn print_refill_at(
    text: &mut Vec<u8>,
    refill: &Refill,
    stock: &Stock,
    hold: Hold,
) -> Result<(), Memory>
    requires { hold.row < length stock.now.rows }
    ensures { IfOk result (λ _. text.new.items
        ≡ text.old.items ++ refill_line stock.now refill.now hold) }
{
    let number = refill.number;
    let wave = refill.wave;
    let order = refill.order;
    let location = stock.row(hold.row).location;
    let quantity = hold.quantity;
    writeln!(text, "refill {number} {wave} {order} {location} {quantity}").or(Err(Memory))
}

/// Adds the lines of a refill, each with its line feed, one for each row in which units were held: the number of the
/// entry, the wave, the order, the location and the units. An `Err` comes from a want of memory alone.
pub fn append_refill(text: &mut Vec<u8>, refill: &Refill, stock: &Stock) -> Result<(), Memory>
    requires { All (λ hold. hold.row < length stock.now.rows) refill.now.holds }
    ensures { IfOk result (λ _. text.new.items
        ≡ text.old.items ++ refill_lines stock.now refill.now) }
{
    for hold in refill.holds.as_slice() {
        print_refill_at(text, refill, stock, *hold)?;
    }
    Ok(())
}

/// The lines of a refill, as `append_refill` adds them.
pub fn print_refill(alloc: Global, refill: &Refill, stock: &Stock) -> Result<Vec<u8>, Memory>
    requires { All (λ hold. hold.row < length stock.now.rows) refill.now.holds }
    ensures { IfOk result (λ lines. lines.items ≡ refill_lines stock.now refill.now) }
{
    let mut lines = Vec::new(alloc);
    append_refill(&mut lines, refill, stock)?;
    Ok(lines)
}

/// The name of the article with a number.
pub(crate) fn article_at(stock: &Stock, article: u32) -> Name
    requires { article < length stock.now.articles }
    ensures { result ≡ name_of_article stock.now article }
{
    stock.article(article)
}

/// Adds the line of a row as it stands, with its line feed: its location, its article, the units on hand, and how many
/// of them are free and how many are held. An `Err` comes from a want of memory alone.
pub fn append_row(text: &mut Vec<u8>, row: &Row, stock: &Stock) -> Result<(), Memory>
    requires { row.now.article < length stock.now.articles }
    ensures { IfOk result (λ _. text.new.items ≡ text.old.items ++ row_line stock.now row.now) }
{
    let location = row.location;
    let article = article_at(stock, row.article);
    let on_hand = row.on_hand;
    let free = row.free;
    let held = row.held;
    writeln!(text, "{location} {article} {on_hand} {free} {held}").or(Err(Memory))
}

/// The line of a row as it stands, as `append_row` adds it.
pub fn print_row(alloc: Global, row: &Row, stock: &Stock) -> Result<Vec<u8>, Memory>
    requires { row.now.article < length stock.now.articles }
    ensures { IfOk result (λ line. line.items ≡ row_line stock.now row.now) }
{
    let mut line = Vec::new(alloc);
    append_row(&mut line, row, stock)?;
    Ok(line)
}
