//! Where orders would pick before anything is allotted to them.
ghost use Rattle.std.specs.Prelude.{IfOk, OnOk};
ghost use Rattle.std.specs.List.{All};
ghost use Rattle.wp_model.specs.Warehouse.{IsSlot};

use std::alloc::Global;
use wp_graph::Layout;
use wp_model::{Line, Location, Memory, Point, StockRow};
use wp_tables::Stock;

/// At how many slots an order would pick at most.
const MOST_SLOTS: usize = 256;

/// The rows of each article, in the order of the stock.
#[derive(Drop)]
pub struct ArticleRows {
    rows: Vec<Vec<StockRow>>,
}

impl ArticleRows {
    /// The rows of each article of a stock.
    pub fn of(alloc: Global, stock: &Stock) -> Result<ArticleRows, Memory> {
        let mut articles = ArticleRows {
            rows: Vec::new(alloc),
        };
        for _ in 0..stock.articles() {
            articles.rows.push(Vec::new(alloc))?;
        }
        articles.add_all(stock.as_rows())?;
        Ok(articles)
    }

    // Adds rows to those of their articles.
    fn add_all(&mut self, rows: &[StockRow]) -> Result<(), Memory> {
        for row in rows {
            if let Some(others) = self.rows.get_mut(row.article as usize) {
                others.push(*row)?;
            }
        }
        Ok(())
    }

    // The rows of an article, none where there is no such article.
    fn rows_of(&self, article: u32) -> &[StockRow] {
        match self.rows.get(article as usize) {
            Some(rows) => rows.as_slice(),
            None => &[],
        }
    }

    // Adds the slots at which a line would pick.
    fn add_line(&self, slots: &mut Vec<Point>, layout: &Layout, line: &Line) -> Result<(), Memory>
        requires { All (IsSlot layout.now) slots.old.items }
        ensures { OnOk result (All (IsSlot layout.now) slots.new.items) }
    {
        let mut wanted = line.quantity;
        for row in self.rows_of(line.article) {
            if wanted > 0 && row.on_hand > 0 {
                add_slot(slots, layout, row.location)?;
                wanted = wanted.saturating_sub(row.on_hand);
            }
        }
        Ok(())
    }

    /// The slots of a layout at which an order of these lines would pick: of each line's article the rows in the order
    /// of the stock, as far as their units on hand are wanted, and no more than 256 slots.
    pub fn likely_slots(
        &self,
        alloc: Global,
        layout: &Layout,
        lines: &[Line],
    ) -> Result<Vec<Point>, Memory>
        ensures { IfOk result (λ slots. All (IsSlot layout.now) slots.items) }
    {
        let mut slots = Vec::new(alloc);
        for line in lines {
            self.add_line(&mut slots, layout, line)?;
        }
        Ok(slots)
    }
}

// Adds the slot of a location, where the layout has it and there is room for one more.
fn add_slot(slots: &mut Vec<Point>, layout: &Layout, location: Location) -> Result<(), Memory>
    requires { All (IsSlot layout.now) slots.old.items }
    ensures { OnOk result (All (IsSlot layout.now) slots.new.items) }
{
    let Location { aisle, slot, .. } = location;
    let is_slot = 1 <= aisle && aisle <= layout.aisles() && 1 <= slot && slot <= layout.slots();
    if is_slot && slots.len() < MOST_SLOTS {
        slots.push(Point { aisle, slot })?;
    }
    Ok(())
}
