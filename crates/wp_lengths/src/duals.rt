ghost use Rattle.std.specs.Prelude.{◌≡◌, ◌+◌, ◌*◌, ◌<◌, ◌≤◌, All, IfOk, length, set, slice_index, sum};
ghost use Rattle.wp_lengths.specs.Duals.{AreDuals, duals_of, greatest_dual, units_of as in_units};

use crate::sums::{sum_of, total_of};
use std::alloc::Global;
use std::marker::Model;
use wp_model::{Listing, Memory};
use wp_pairs::Batch;

/// How many parts a unit of length has where duals are counted.
pub const SIXTIETHS: u64 = 60;

/// The greatest dual, in sixtieths of a unit of length.
pub const GREATEST_DUAL: u64 = 1_000_000_000_000;

/// Sixtieths in whole units of length, rounded up.
pub fn units_of(sixtieths: u128) -> u128
    ensures { result ≡ in_units sixtieths }
{
    let parts = u128::from(SIXTIETHS);
    let whole = sixtieths / parts;
    if sixtieths % parts == 0 {
        whole
    } else {
        whole + 1
    }
}

/// Duals of up to 64 orders, one for each, in sixtieths of a unit of length: 0 to 1,000,000,000,000. Contracts see the
/// list.
#[derive(Drop)]
pub struct OrderDuals {
    values: Vec<u64>,
}

impl Model for OrderDuals {
    ghost use Rattle.std.specs.Prelude.{List, ℕ};
    ghost use Rattle.wp_lengths.specs.Duals.{AreDuals};

    ghost Value = { List ℕ };

    ghost view = { λ d. d.values.items };

    ghost invariant = { λ d. AreDuals d.values.items };
}

impl OrderDuals {
    /// The duals of these values. It takes no memory.
    pub fn of(values: Vec<u64>) -> OrderDuals
        requires { AreDuals values.items }
        ensures { result ≡ values.items }
    {
        OrderDuals { values }
    }

    /// A copy of values that are duals.
    pub fn copy_of(alloc: Global, values: &[u64]) -> Result<OrderDuals, Memory>
        requires { AreDuals values.now }
        ensures { IfOk result (λ duals. duals ≡ values.now) }
    {
        Ok(OrderDuals {
            values: Vec::from_slice(alloc, values)?,
        })
    }

    /// Duals of so many orders, up to 64: these values, as far as they are there and the greatest dual goes, and else
    /// 0.
    pub fn limited(alloc: Global, orders: u32, values: &[u64]) -> Result<OrderDuals, Memory>
        requires { orders ≤ 64 }
        ensures { IfOk result (λ duals. length duals ≡ orders) }
    {
        let mut limited = Vec::new(alloc);
        for order in 0..orders {
            limited.push(limited_at(values, order))?;
        }
        Ok(OrderDuals { values: limited })
    }

    /// The same duals once more.
    pub fn copy(&self, alloc: Global) -> Result<OrderDuals, Memory>
        ensures { IfOk result (λ copy. copy ≡ self.now) }
    {
        Ok(OrderDuals {
            values: Vec::from_slice(alloc, self.values.as_slice())?,
        })
    }

    /// The duals as a listing. It takes no memory.
    pub fn into_listing(self) -> Listing<u64>
        ensures { result ≡ self }
    {
        Listing::of(self.values)
    }

    /// How many there are.
    pub fn len(&self) -> u32
        ensures value { result ≡ length self.now }
        ensures valid { AreDuals self.now }
    {
        self.values.len() as u32
    }

    /// The duals as a slice.
    pub fn as_slice(&self) -> &[u64]
        ensures value { result.now ≡ self.now }
        ensures valid { AreDuals self.now }
    {
        self.values.as_slice()
    }

    /// Raises the dual of an order by so much, up to the greatest at most.
    pub fn raise(&mut self, order: u32, more: u64)
        requires known { order < length self.old }
        requires room { slice_index self.old order + more ≤ greatest_dual }
        ensures { self.new ≡ set self.old order (slice_index self.old order + more) }
    {
        self.values[order as usize] += more;
    }

    /// What the orders of a batch have in duals, all together.
    pub fn sum_of(&self, batch: Batch) -> u64
        requires { All (λ order. order < length self.now) batch }
        ensures is { result ≡ duals_of self.now batch }
        ensures small { result ≤ greatest_dual * length batch }
    {
        let _size = batch.len();
        sum_of(self.values.as_slice(), batch) as u64
    }

    /// All duals together.
    pub fn total(&self) -> u64
        ensures is { result ≡ sum self.now }
        ensures small { result ≤ 64 * greatest_dual }
    {
        total_of(self.values.as_slice()) as u64
    }

    /// The bound that duals give: their sum in whole units of length, rounded up.
    pub fn bound(&self) -> u64
        ensures { result ≡ in_units (sum self.now) }
    {
        units_of(u128::from(self.total())) as u64
    }
}

// The value of an order, up to the greatest dual; 0 where there is none.
fn limited_at(values: &[u64], order: u32) -> u64
    ensures { result ≤ greatest_dual }
{
    match values.get(order as usize) {
        Some(value) => (*value).min(GREATEST_DUAL),
        None => 0,
    }
}
