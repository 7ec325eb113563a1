ghost use Rattle.std.specs.Prelude.{◌≡◌, ◌+◌, ◌-◌, ◌<◌, ◌≤◌, ◌^◌, ◌↔◌, IfSome, IsNone, IsSome, IsTrue, length};

use wp_pairs::Batch;

/// How many orders a batch has at most.
const MOST_IN_BATCH: u32 = 8;

/// Counts for the places of batches in one list of them all. A batch comes before those that begin with it, and these
/// come by their next orders: {}, {0}, {0, 1}, {0, 1, 2}, {0, 2}, {1}, {1, 2}, {2}. So whoever visits batches in this
/// way reads the list from its beginning to its end.
#[derive(Drop)]
pub struct Places {
    capacity: u32,
    // for a number of orders and an order: in how many ways a batch of so many goes on by further ones from that order
    // on
    wider: [[u64; 65]; 9],
}

/// The place of a batch, and the last place of those that begin with it: theirs are all places between the two.
#[derive(Clone, Copy)]
pub struct Span {
    pub first: u64,
    pub last: u64,
}

/// A part of a list of all batches: their places in the whole list, and the place at which the part begins.
#[derive(Clone, Copy)]
pub struct Part<'a> {
    pub places: &'a Places,
    pub start: u64,
}

// No way to go on from any order on.
fn no_ways() -> [u64; 65] {
    [0; 65]
}

// No way to go on for any number of orders.
fn no_rows() -> [[u64; 65]; 9] {
    [[0; 65]; 9]
}

// In how many ways a batch goes on from each order on, from the same numbers for batches of one order more: the next
// order is that one or a later one, and the batch ends with it or goes on.
fn next_row(orders: u32, row: &[u64; 65]) -> [u64; 65] {
    let mut next = no_ways();
    let mut sum: u64 = 0;
    for order in (0..orders.min(64)).rev() {
        sum = sum
            .saturating_add(row[order as usize + 1])
            .saturating_add(1);
        next[order as usize] = sum;
    }
    next
}

// In how many ways a batch of each number of orders up to the capacity goes on, from each order on.
fn rows_of(orders: u32, capacity: u32) -> [[u64; 65]; 9]
    requires { capacity ≤ 8 }
{
    let mut rows = no_rows();
    let mut row = no_ways();
    for size in (0..capacity).rev() {
        row = next_row(orders, &row);
        rows[size as usize] = row;
    }
    rows
}

impl Places {
    /// The places of no list: only the batch of no order has one.
    pub fn none() -> Places
        ensures { result.capacity ≡ 0 }
    {
        Places {
            capacity: 0,
            wider: no_rows(),
        }
    }

    /// The places of batches of at most so many of a wave's orders.
    pub fn of(orders: u32, capacity: u32) -> Places
        ensures { result.capacity ≡ capacity }
    {
        Places {
            capacity,
            wider: rows_of(orders, capacity.min(MOST_IN_BATCH)),
        }
    }

    /// How many places there are. Above a capacity of eight it is the greatest number, which no list has room for.
    pub fn count(&self) -> u64
        ensures { 8 < self.now.capacity → result ≡ 2 ^ 64 - 1 }
    {
        if self.capacity > MOST_IN_BATCH {
            return u64::MAX;
        }
        self.wider[0][0].saturating_add(1)
    }

    /// How many orders a batch has at most.
    pub fn capacity(&self) -> u32
        ensures { result ≡ self.now.capacity }
    {
        self.capacity
    }

    /// The place of a batch. None comes exactly for one with more orders than the capacity, or than eight.
    pub fn place_of(&self, batch: Batch) -> Option<u64>
        ensures { IsSome result ↔ ((length batch ≤ self.now.capacity) × (length batch ≤ 8)) }
    {
        Some(self.span_of(batch)?.first)
    }

    /// The places of a batch and of those that begin with it. None comes exactly for one with more orders than the
    /// capacity, or than eight.
    pub fn span_of(&self, batch: Batch) -> Option<Span>
        ensures { IsSome result ↔ ((length batch ≤ self.now.capacity) × (length batch ≤ 8)) }
    {
        let size = batch.len();
        if self.capacity < size || MOST_IN_BATCH < size {
            return None;
        }
        // the last place of those that begin with the orders so far, and the first order that can come next
        let mut last = self.wider[0][0];
        let mut next: usize = 0;
        let mut rest = batch;
        for count in 0..size as usize {
            let Some(order) = rest.least() else {
                break;
            };
            next = order as usize + 1;
            last = last.saturating_sub(self.wider[count][next]);
            rest = rest.without(order);
        }
        let first = last.saturating_sub(self.wider[size as usize][next]);
        Some(Span { first, last })
    }
}

impl Part<'_> {
    /// The first place of a span, counted from where the part begins. None comes where it lies before the part.
    pub fn place_of(&self, span: Span) -> Option<u64>
        ensures some { IfSome result (λ place. self.now.start + place ≡ span.first) }
        ensures none { IsNone result ↔ span.first < self.now.start }
    {
        span.first.checked_sub(self.start)
    }

    /// Whether the part, with so many places, has one of a span.
    pub fn meets(&self, span: Span, count: usize) -> bool
        ensures { self.now.start + count < 2 ^ 64
            → (IsTrue result ↔ ((self.now.start ≤ span.last)
            × (span.first < self.now.start + count))) }
    {
        self.start <= span.last && span.first < self.start.saturating_add(count as u64)
    }
}
