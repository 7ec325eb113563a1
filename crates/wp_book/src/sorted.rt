//! Holds in the order of their orders and rows, among which those for an order at a row are found by search.
ghost use Rattle.std.specs.Prelude.{◌≡◌, ◌≤◌, ◌<◌, ◌+◌, ◌-◌, ◌^◌, ◌&&◌, ◌==◌, ℕ, [], length, map, if◌then◌else◌};
ghost use Rattle.std.specs.List.{sum_by};
ghost use Rattle.wp_model.specs.Book.{Where, hold_for, hold_units_where, units_for};
ghost use Rattle.wp_book.specs.Room.{AreInOrder, Parts, StandBetween, is_before, place_of};

use std::marker::Model;
use wp_model::Hold;

// Takes units off a hold where it is for the order at the row, and gives how many are left to take.
fn take_from_hold(hold: &mut Hold, order: u32, row: u32, units: u32) -> u32
    ensures left { result ≡ units - hold_for order row hold.old }
    ensures place { place_of hold.new ≡ place_of hold.old }
    ensures taken { (passes : Where) (wave : ℕ) → hold_units_where passes wave hold.new +
        (if passes wave order row then units - result else 0) ≡ hold_units_where passes wave hold.old }
{
    if hold.order != order || hold.row != row {
        return units;
    }
    let taken = units.min(hold.quantity);
    hold.quantity -= taken;
    units - taken
}

// Takes units off the holds for the order at the row, and gives how many are left to take.
fn take_from_holds(holds: &mut [Hold], order: u32, row: u32, units: u32) -> u32
    ensures left { result ≡ units - units_for holds.old order row }
    ensures places { map place_of holds.new ≡ map place_of holds.old }
    ensures taken { (passes : Where) (wave : ℕ) → sum_by (hold_units_where passes wave) holds.new +
        (if passes wave order row then units - result else 0) ≡ sum_by (hold_units_where passes wave) holds.old }
{
    let mut left = units;
    for hold in holds.iter_mut() {
        left = take_from_hold(hold, order, row, left);
    }
    left
}

// The units of the holds for the order at the row.
fn units_in_holds(holds: &[Hold], order: u32, row: u32) -> u32
    requires { units_for holds.now order row < 2 ^ 32 }
    ensures { result ≡ units_for holds.now order row }
{
    let mut units = 0;
    for hold in holds {
        if hold.order == order && hold.row == row {
            units += hold.quantity;
        }
    }
    units
}

// Whether a hold comes before all that are for the order at the row: it is for an earlier order, or for this one at an
// earlier row.
fn is_before(hold: &Hold, order: u32, row: u64) -> bool
    ensures { result ≡ is_before order row hold.now }
{
    hold.order < order || (hold.order == order && u64::from(hold.row) < row)
}

// The place of the first hold that doesn't come before all that are for the order at the row.
fn first_from(holds: &[Hold], order: u32, row: u64) -> usize
    requires { AreInOrder holds.now }
    ensures { Parts order row holds.now result }
{
    holds.partition_point(|hold| is_before(hold, order, row))
}

// Where the holds for the order at the row stand: from one place up to another. It looks at so many holds as a search
// does.
fn places(holds: &[Hold], order: u32, row: u32) -> (usize, usize)
    requires { AreInOrder holds.now }
    ensures { StandBetween order row holds.now result.0 result.1 }
{
    let row = u64::from(row);
    let start = first_from(holds, order, row);
    let end = first_from(holds, order, row + 1);
    (start, end)
}

// The units of the holds for the order at the row, which it finds by search.
fn units_found(holds: &[Hold], order: u32, row: u32) -> u32
    requires order { AreInOrder holds.now }
    requires fits { units_for holds.now order row < 2 ^ 32 }
    ensures { result ≡ units_for holds.now order row }
{
    let (start, end) = places(holds, order, row);
    units_in_holds(&holds[start..end], order, row)
}

// Takes units off the holds for the order at the row, which it finds by search, and gives how many are left to take.
fn take_found(holds: &mut [Hold], order: u32, row: u32, units: u32) -> u32
    requires { AreInOrder holds.old }
    ensures left { result ≡ units - units_for holds.old order row }
    ensures places { map place_of holds.new ≡ map place_of holds.old }
    ensures taken { (passes : Where) (wave : ℕ) → sum_by (hold_units_where passes wave) holds.new +
        (if passes wave order row then units - result else 0) ≡ sum_by (hold_units_where passes wave) holds.old }
{
    let (start, end) = places(holds, order, row);
    take_from_holds(&mut holds[start..end], order, row, units)
}

/// Holds that go by order and then by row. Contracts see the list of them.
#[derive(Drop)]
pub struct SortedHolds {
    holds: Vec<Hold>,
}

impl Model for SortedHolds {
    ghost use Rattle.std.specs.Prelude.{List};
    ghost use Rattle.wp_model.specs.declared.row.Hold.{Hold as HoldData};
    ghost use Rattle.wp_book.specs.Room.{AreInOrder};

    ghost Value = { List HoldData };

    ghost view = { λ s. s.holds.items };

    ghost invariant = { λ s. AreInOrder s.holds.items };
}

impl SortedHolds {
    /// Holds that are in order.
    pub fn of(holds: Vec<Hold>) -> SortedHolds
        requires { AreInOrder holds.items }
        ensures { result ≡ holds.items }
    {
        SortedHolds { holds }
    }

    /// The holds, in order.
    pub fn as_slice(&self) -> &[Hold]
        ensures { result.now ≡ self.now }
    {
        self.holds.as_slice()
    }

    /// The units of the holds for the order at the row.
    pub fn units(&self, order: u32, row: u32) -> u32
        requires { units_for self.now order row < 2 ^ 32 }
        ensures { result ≡ units_for self.now order row }
    {
        units_found(self.holds.as_slice(), order, row)
    }

    /// Takes units off the holds for the order at the row, and gives how many are left to take.
    pub fn take(&mut self, order: u32, row: u32, units: u32) -> u32
        ensures left { result ≡ units - units_for self.old order row }
        ensures taken { (passes : Where) (wave : ℕ)
            → sum_by (hold_units_where passes wave) self.new +
            (if passes wave order row then units - result else 0) ≡ sum_by (hold_units_where passes wave) self.old }
    {
        take_found(&mut self.holds, order, row, units)
    }

    /// Leaves no hold in it.
    pub fn clear(&mut self)
        ensures { self.new ≡ [] }
    {
        self.holds.clear();
    }
}
