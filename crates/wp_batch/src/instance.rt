ghost use Rattle.std.specs.Prelude.{◌↔◌, IsTrue};
ghost use Rattle.wp_batch.specs.Joins.{FitInOne};
ghost use Rattle.wp_batch.specs.Splits.{IsFit};

use wp_lengths::Wave;
use wp_pairs::Batch;

/// What is to be put into batches: the orders of a wave, so many to a batch at most, 1 to 8, and no more than fits the
/// wave's cart, if it has one.
#[derive(Clone, Copy)]
pub struct Instance<'a> {
    pub wave: &'a Wave,
    pub capacity: u32,
}

impl Instance<'_> {
    /// Whether a batch has an order, no more than the capacity, and fits the cart, if there is one.
    pub fn is_fit(&self, batch: Batch) -> bool
        ensures { IsTrue result ↔ IsFit self.now.wave.now self.now.capacity batch }
    {
        let orders = batch.len();
        if orders < 1 || self.capacity < orders {
            return false;
        }
        self.wave.holds(batch)
    }

    /// Whether the orders of two batches fit into one.
    pub fn fit_in_one(&self, left: Batch, right: Batch) -> bool
        ensures { IsTrue result ↔ FitInOne self.now.wave.now self.now.capacity left right }
    {
        let orders = left.len();
        if self.capacity < orders || self.capacity - orders < right.len() {
            return false;
        }
        self.wave.holds_both(left, right)
    }
}
