//! The picks of a batch.
ghost use Rattle.std.specs.Prelude.{◌≡◌, IfOk, filter};
ghost use Rattle.wp_sheets.specs.Picks.{AreByRow, is_of};

use std::alloc::Global;
use wp_model::{Hold, Memory};
use wp_pairs::Batch;

fn held_for(alloc: Global, holds: &[Hold], batch: Batch) -> Result<Vec<Hold>, Memory>
    ensures { IfOk result (λ picks. picks.items ≡ filter (is_of batch) holds.now) }
{
    let mut picks = Vec::new(alloc);
    for hold in holds {
        if batch.has(hold.order) {
            picks.push(*hold)?;
        }
    }
    Ok(picks)
}

/// The holds of a batch's orders, by row, then by order, and then by units.
pub fn picks_of(alloc: Global, holds: &[Hold], batch: Batch) -> Result<Vec<Hold>, Memory>
    ensures { IfOk result (λ picks. AreByRow holds.now batch picks.items) }
{
    let mut picks = held_for(alloc, holds, batch)?;
    picks.sort_unstable_by_key(|pick| (pick.row, pick.order, pick.quantity));
    Ok(picks)
}
