ghost use Rattle.std.specs.Prelude.{◌≡◌, ◌<◌, ◌↔◌, ◌⊎◌, ℕ, [], Contains, length, replicate, false, true};
ghost use Rattle.wp_pairs.specs.Kept.{listed_for, JoinsClasses, PartsClasses};

use crate::batch::Batch;

/// No order for any.
pub fn empty_rows() -> [Batch; 64]
    ensures { result ≡ replicate 64 [] }
{
    [Batch::empty(); 64]
}

/// For each order itself alone.
pub fn single_rows() -> [Batch; 64]
    ensures whole { length result ≡ 64 }
    ensures each { (order other : ℕ) → order < 64
        → (Contains (listed_for result order) other ↔ (other ≡ order)) }
{
    let mut rows = empty_rows();
    for order in 0..64 {
        rows[order as usize] = Batch::empty().with(order);
    }
    rows
}

/// The orders that are listed for one.
pub fn orders_for(rows: &[Batch; 64], order: u32) -> Batch
    requires { order < 64 }
    ensures { result ≡ listed_for rows.now order }
{
    rows[order as usize]
}

// For each order of a batch the same set.
fn set_rows(rows: &mut [Batch; 64], batch: Batch, orders: Batch)
    ensures there { (order : ℕ) → order < 64 → Contains batch order
        → listed_for rows.new order ≡ orders }
    ensures elsewhere { (order : ℕ) → order < 64 → (Contains batch order → ⊥)
        → listed_for rows.new order ≡ listed_for rows.old order }
{
    for order in 0..64 {
        if batch.has(order) {
            rows[order as usize] = orders;
        }
    }
}

// For each order of a batch some further orders.
fn widen_rows(rows: &mut [Batch; 64], batch: Batch, orders: Batch)
    ensures there { (order other : ℕ) → order < 64 → Contains batch order
        → (Contains (listed_for rows.new order) other
        ↔ (Contains (listed_for rows.old order) other ⊎ Contains orders other)) }
    ensures elsewhere { (order : ℕ) → order < 64 → (Contains batch order → ⊥)
        → listed_for rows.new order ≡ listed_for rows.old order }
{
    for order in 0..64 {
        if batch.has(order) {
            rows[order as usize] = orders_for(rows, order).union(orders);
        }
    }
}

// Makes one class of those of two orders: all of it is parted from what either was parted from.
fn join_classes(joined: &mut [Batch; 64], parted: &mut [Batch; 64], first: u32, second: u32)
    requires first { first < 64 }
    requires second { second < 64 }
    ensures { JoinsClasses joined.old joined.new parted.old parted.new first second }
{
    let class = orders_for(joined, first).union(orders_for(joined, second));
    let away = orders_for(parted, first).union(orders_for(parted, second));
    set_rows(joined, class, class);
    set_rows(parted, class, away);
    widen_rows(parted, away, class);
}

/// Joins the classes of two orders, or else parts them.
pub fn settle(
    joined: &mut [Batch; 64],
    parted: &mut [Batch; 64],
    first: u32,
    second: u32,
    together: bool,
)
    requires first { first < 64 }
    requires second { second < 64 }
    ensures joins { together ≡ true → JoinsClasses joined.old joined.new parted.old parted.new first
        second }
    ensures keeps { together ≡ false → joined.new ≡ joined.old }
    ensures parts { together ≡ false → PartsClasses joined.old parted.old parted.new first second }
{
    if together {
        join_classes(joined, parted, first, second);
    } else {
        part_classes(joined, parted, first, second);
    }
}

// Parts the classes of two orders: each order of the one from all of the other.
fn part_classes(joined: &[Batch; 64], parted: &mut [Batch; 64], first: u32, second: u32)
    requires first { first < 64 }
    requires second { second < 64 }
    ensures { PartsClasses joined.now parted.old parted.new first second }
{
    let left = orders_for(joined, first);
    let right = orders_for(joined, second);
    widen_rows(parted, left, right);
    widen_rows(parted, right, left);
}
