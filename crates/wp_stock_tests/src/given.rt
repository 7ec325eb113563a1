//! Books, and what is seen of them.

use std::alloc::Global;
use std::test::Fail;
use wp_book::{Hold, StockBook};
use wp_graph::Layout;
use wp_tables::{Stock, read_stock};

/// Two rows of the article 0, one of the article 1, and none of any other.
pub const STOCK: &str = "location,article,on_hand\n1-1-L,A,3\n1-2-L,A,4\n1-3-L,B,5\n";

/// The order, the row and the units of a hold.
pub type Held = (u32, u32, u32);

/// The units on hand, free and held of a row.
pub type Units = (u32, u32, u32);

/// The stock that a text says of one aisle of 200 slots; the test fails where it is refused.
pub fn stock_of(alloc: Global, text: &str) -> Result<Stock, Fail> {
    let layout = Layout::new(1, 200, 1, 1, 1, 1).ok_or("no layout")?;
    Ok(read_stock(alloc, &text.as_bytes().to_vec(alloc)?, &layout)?)
}

/// The book that opens with that stock.
pub fn book_of(alloc: Global, text: &str) -> Result<StockBook, Fail> {
    let stock = stock_of(alloc, text)?;
    Ok(StockBook::open(alloc, &stock)?)
}

/// Whether the rows of a book are these.
pub fn has_rows(book: &StockBook, rows: &[Units]) -> bool {
    for number in 0..book.rows() {
        let row = book.row(number);
        if rows.get(number as usize) != Some(&(row.on_hand, row.free, row.held)) {
            return false;
        }
    }
    rows.len() == book.rows() as usize
}

/// Whether the holds are these.
pub fn are_holds(holds: &[Hold], wanted: &[Held]) -> bool {
    for (at, hold) in holds.iter().enumerate() {
        if wanted.get(at) != Some(&(hold.order, hold.row, hold.quantity)) {
            return false;
        }
    }
    holds.len() == wanted.len()
}
