ghost use Rattle.std.specs.Prelude.{◌≡◌, List, [], All, IfOk, length};
ghost use Rattle.wp_model.specs.HoldLists.{IsHoldWithin};
ghost use Rattle.wp_model.specs.Warehouse.{IsSlot};
ghost use Rattle.wp_model.specs.declared.row.StockRow.{StockRow as RowData};
ghost use Rattle.wp_planner.specs.Slots.{ArePicksOf, slot_at};

use std::alloc::Global;
use wp_graph::{Layout, Picks};
use wp_model::{Hold, Memory, Point, StockRow};

// The slot at which a row lies, whichever its side.
fn slot_of(row: &StockRow) -> Point
    ensures { result ≡ slot_at row.now.location }
{
    Point {
        aisle: row.location.aisle,
        slot: row.location.slot,
    }
}

// No slot for each of so many orders.
fn no_picks(alloc: Global, layout: &Layout, orders: u32) -> Result<Vec<Picks>, Memory>
    ensures { IfOk result (λ picks. (rows : List RowData)
        → ArePicksOf layout.now rows [] orders picks.items) }
{
    let mut picks = Vec::new(alloc);
    for _ in 0..orders {
        picks.push(Picks::new(layout))?;
    }
    Ok(picks)
}

// The slots at which each of so many orders holds units, in one pass over all that is held.
pub(crate) fn order_picks(
    alloc: Global,
    layout: &Layout,
    rows: &[StockRow],
    holds: &[Hold],
    orders: u32,
) -> Result<Vec<Picks>, Memory>
    requires within { All (IsHoldWithin orders (length rows.now)) holds.now }
    requires lies { All (λ row. IsSlot layout.now (slot_at row.location)) rows.now }
    ensures { IfOk result (λ picks. ArePicksOf layout.now rows.now holds.now orders picks.items) }
{
    let mut picks = no_picks(alloc, layout, orders)?;
    for hold in holds {
        let slot = slot_of(&rows[hold.row as usize]);
        picks[hold.order as usize].add(slot);
    }
    Ok(picks)
}
