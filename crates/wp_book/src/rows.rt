//! The rows, how many units of each article are free in them, and which rows each article has.
ghost use Rattle.std.specs.Prelude.{◌≡◌, ◌≤◌, ◌<◌, ◌+◌, ◌^◌, suc, All, Some, None, length, map, IfOk, IfSome};
ghost use Rattle.std.specs.Prelude.{slice_get, slice_index};
ghost use Rattle.wp_model.specs.Change.{at_place, change_rows, free_held_units, hold_units, receive_units, take_units};
ghost use Rattle.wp_model.specs.Demand.{free_units, offer_at};
ghost use Rattle.wp_model.specs.Sound.{IsBalanced};
ghost use Rattle.wp_model.specs.State.{opening_row};
ghost use Rattle.wp_model.specs.Tables.{IsReadStock};
ghost use Rattle.wp_model.specs.declared.row.Row.{Row as RowData};
ghost use Rattle.wp_book.specs.ArticleRows.{rows_before, rows_of};
ghost use Rattle.wp_book.specs.FreeCounts.{AreCounted};

use crate::index::{RowIndex, index_rows};
use std::alloc::Global;
use std::marker::Model;
use wp_model::{Memory, Row, StockRow};
use wp_tables::Stock;

// The row of the file, all of it free.
fn free_row(row: &StockRow) -> Row
    ensures { result ≡ opening_row row.now }
{
    Row {
        location: row.location,
        article: row.article,
        on_hand: row.on_hand,
        free: row.on_hand,
        held: 0,
    }
}

// The rows of the file, all of them free.
fn free_rows(alloc: Global, rows: &[StockRow]) -> Result<Vec<Row>, Memory>
    ensures { IfOk result (λ v. v.items ≡ map opening_row rows.now) }
{
    Ok(rows.iter().map(|row| free_row(row)).collect(alloc)?)
}

// How many units of each article are free in the rows.
fn count_free(alloc: Global, rows: &[Row], articles: u32) -> Result<Vec<u64>, Memory>
    requires rows { All IsBalanced rows.now }
    requires known { All (λ (row : RowData). row.article < articles) rows.now }
    requires few { length rows.now < 2 ^ 32 }
    ensures { IfOk result (λ free. AreCounted rows.now free.items) }
{
    let mut free = vec![in alloc; 0u64; articles as usize]?;
    for row in rows {
        free[row.article as usize] += u64::from(row.free);
    }
    Ok(free)
}

/// The rows of a warehouse, how many units of each article are free in them, and which rows each article has.
/// Contracts see the rows.
#[derive(Drop)]
pub struct CountedRows {
    rows: Vec<Row>,
    free: Vec<u64>,
    index: RowIndex,
}

impl Model for CountedRows {
    ghost use Rattle.std.specs.Prelude.{List};
    ghost use Rattle.wp_model.specs.declared.row.Row.{Row as RowData};
    ghost use Rattle.wp_book.specs.ArticleRows.{AreCountedAndIndexed};

    ghost Value = { List RowData };

    ghost view = { λ c. c.rows.items };

    ghost invariant = { λ c. AreCountedAndIndexed c.rows.items c.free.items c.index.ends.items c.index.numbers.items };
}

impl CountedRows {
    /// The rows of a stock, all of them free.
    pub fn open(alloc: Global, stock: &Stock) -> Result<CountedRows, Memory>
        ensures rows { IfOk result (λ rows. rows ≡ map opening_row stock.now.rows) }
        ensures read { IsReadStock stock.now }
    {
        let rows = free_rows(alloc, stock.as_rows())?;
        let free = count_free(alloc, &rows, stock.articles())?;
        let index = index_rows(alloc, &rows, stock.articles())?;
        Ok(CountedRows { rows, free, index })
    }

    /// How many rows there are.
    pub fn len(&self) -> u32
        ensures { result ≡ length self.now }
    {
        self.rows.len() as u32
    }

    /// The row with a number.
    pub fn row(&self, row: u32) -> Row
        requires { row < length self.now }
        ensures { slice_get self.now row ≡ Some result }
    {
        self.rows[row as usize]
    }

    // How many rows are of an article or of one before it.
    fn end(&self, article: u32) -> u32
        ensures { result ≡ rows_before self.now (suc article) }
    {
        match self.index.ends.get(article as usize) {
            Some(end) => *end,
            None => self.len(),
        }
    }

    // How many rows are of the articles before one.
    fn start(&self, article: u32) -> u32
        ensures { result ≡ rows_before self.now article }
    {
        if article == 0 {
            0
        } else {
            self.end(article - 1)
        }
    }

    /// How many rows are of an article.
    pub fn places(&self, article: u32) -> u32
        ensures { result ≡ length (rows_of article self.now) }
    {
        self.end(article) - self.start(article)
    }

    /// The number of the row at a place among an article's rows.
    pub fn place(&self, article: u32, k: u32) -> u32
        requires { k < length (rows_of article self.now) }
        ensures { slice_get (rows_of article self.now) k ≡ Some result }
    {
        self.index.numbers[(self.start(article) + k) as usize]
    }

    /// Units of a row go from free to held.
    pub fn hold(&mut self, row: u32, units: u32)
        requires row { row < length self.old }
        requires free { IfSome (slice_get self.old row)
            (λ r. (units ≤ r.free) × (r.held + units < 2 ^ 32)) }
        ensures { self.new ≡ change_rows (at_place row (hold_units units)) 0 self.old }
    {
        let row = &mut self.rows[row as usize];
        row.free -= units;
        row.held += units;
        self.free[row.article as usize] -= u64::from(units);
    }

    /// Units of a row go from held to free.
    pub fn unhold(&mut self, row: u32, units: u32)
        requires row { row < length self.old }
        requires held { IfSome (slice_get self.old row)
            (λ r. (units ≤ r.held) × (r.free + units < 2 ^ 32)) }
        ensures { self.new ≡ change_rows (at_place row (free_held_units units)) 0 self.old }
    {
        let row = &mut self.rows[row as usize];
        row.held -= units;
        row.free += units;
        self.free[row.article as usize] += u64::from(units);
    }

    /// Held units of a row are gone.
    pub fn take(&mut self, row: u32, units: u32)
        requires row { row < length self.old }
        requires held { IfSome (slice_get self.old row)
            (λ r. (units ≤ r.held) × (units ≤ r.on_hand)) }
        ensures { self.new ≡ change_rows (at_place row (take_units units)) 0 self.old }
    {
        let row = &mut self.rows[row as usize];
        row.held -= units;
        row.on_hand -= units;
    }

    /// Units come to a row.
    pub fn receive(&mut self, row: u32, units: u32)
        requires row { row < length self.old }
        requires room { IfSome (slice_get self.old row)
            (λ r. (r.on_hand + units < 2 ^ 32) × (r.free + units < 2 ^ 32)) }
        ensures { self.new ≡ change_rows (at_place row (receive_units units)) 0 self.old }
    {
        let row = &mut self.rows[row as usize];
        row.on_hand += units;
        row.free += units;
        self.free[row.article as usize] += u64::from(units);
    }

    // The free units of an article in all rows.
    fn free_in_all(&self, article: u32) -> u64
        ensures { result ≡ free_units self.now article None }
    {
        match self.free.get(article as usize) {
            Some(units) => *units,
            None => 0,
        }
    }

    // The free units of an article in one row, none where there is no such row.
    fn free_at(&self, row: u32, article: u32) -> u64
        ensures { result ≡ offer_at self.now article None row }
    {
        match self.rows.get(row as usize) {
            Some(row) if row.article == article => u64::from(row.free),
            _ => 0,
        }
    }

    /// The free units of an article, without those of the excepted row. It looks at no other row.
    pub fn free_of(&self, article: u32, except: Option<u32>) -> u64
        ensures { result ≡ free_units self.now article except }
    {
        let all = self.free_in_all(article);
        match except {
            Some(row) => all - self.free_at(row, article),
            None => all,
        }
    }
}
